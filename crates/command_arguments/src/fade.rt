//! How long one song fades into the next.
ghost use Rattle.std.specs.Prelude.{◌≡◌, ◌≤◌};
ghost use Rattle.command_arguments.specs.Forms.{up_to_an_hour};

use std::marker::Model;

/// The seconds of a fade, 0 to 3,600; 0 for none. A clause sees the number.
#[derive(Drop)]
pub struct FadeSeconds {
    seconds: u32,
}

impl Model for FadeSeconds {
    ghost use Rattle.std.specs.Prelude.{ℕ, ◌≤◌};

    ghost Value = { ℕ };

    ghost view = { λ f. f.seconds };

    ghost invariant = { λ f. f.seconds ≤ 3600 };
}

impl FadeSeconds {
    /// The seconds of a number; `None` above 3,600.
    pub fn new(seconds: u32) -> Option<FadeSeconds>
        ensures { result ≡ up_to_an_hour seconds }
    {
        if seconds > 3600 {
            return None;
        }
        Some(FadeSeconds { seconds })
    }

    pub fn seconds(&self) -> u32
        ensures value { result ≡ self.now }
        ensures range { result ≤ 3600 }
    {
        self.seconds
    }
}
