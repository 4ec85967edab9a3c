//! How many frames a second has.
ghost use Rattle.std.specs.Prelude.{◌≡◌, ◌≤◌};
ghost use Rattle.song_db.specs.Lines.{rate_of};

use std::marker::Model;

/// The frames of a second, 8,000 to 192,000 (this profile's). A clause sees the number.
#[derive(Drop)]
pub struct Rate {
    frames: u32,
}

impl Model for Rate {
    ghost use Rattle.std.specs.Prelude.{ℕ, ◌≤◌};

    ghost Value = { ℕ };

    ghost view = { λ r. r.frames };

    ghost invariant = { λ r. (8000 ≤ r.frames) × (r.frames ≤ 192000) };
}

impl Rate {
    /// The rate of so many frames a second; `None` outside 8,000 to 192,000.
    pub fn new(frames: u32) -> Option<Rate>
        ensures { result ≡ rate_of frames }
    {
        if frames < 8_000 || frames > 192_000 {
            return None;
        }
        Some(Rate { frames })
    }

    /// The same rate.
    pub fn copied(&self) -> Rate
        ensures { result ≡ self.now }
    {
        Rate {
            frames: self.frames,
        }
    }

    /// The lowest rate, which scripts have.
    pub fn lowest() -> Rate
        ensures { result ≡ 8000 }
    {
        Rate { frames: 8_000 }
    }

    /// How many frames a second has.
    pub fn frames(&self) -> u32
        ensures value { result ≡ self.now }
        ensures range { (8000 ≤ result) × (result ≤ 192000) }
    {
        self.frames
    }
}
