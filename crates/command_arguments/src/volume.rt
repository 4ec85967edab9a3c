//! How loud the player is.
ghost use Rattle.std.specs.Prelude.{◌≡◌, ◌≤◌};
ghost use Rattle.command_arguments.specs.Forms.{up_to_full};

use std::marker::Model;

/// A volume in percent, 0 to 100. A clause sees the number.
#[derive(Drop)]
pub struct Volume {
    percent: u8,
}

impl Model for Volume {
    ghost use Rattle.std.specs.Prelude.{ℕ, ◌≤◌};

    ghost Value = { ℕ };

    ghost view = { λ v. v.percent };

    ghost invariant = { λ v. v.percent ≤ 100 };
}

impl Volume {
    /// The volume of a number; `None` above 100.
    pub fn new(percent: u32) -> Option<Volume>
        ensures { result ≡ up_to_full percent }
    {
        if percent > 100 {
            return None;
        }
        Some(Volume {
            percent: percent as u8,
        })
    }

    /// As loud as can be.
    pub fn full() -> Volume
        ensures { result ≡ 100 }
    {
        Volume { percent: 100 }
    }

    pub fn percent(&self) -> u8
        ensures value { result ≡ self.now }
        ensures range { result ≤ 100 }
    {
        self.percent
    }

    /// The same volume. (A type that keeps its range is not `Copy`.)
    pub fn copied(&self) -> Volume
        ensures { result ≡ self.now }
    {
        Volume {
            percent: self.percent,
        }
    }
}
