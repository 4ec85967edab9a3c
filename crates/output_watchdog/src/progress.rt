//! What is seen of an output's path at a moment.

/// How many bytes the ring of an output holds: sixteen hands of 1,024 frames. Three of them wait for the path at
/// most; the others are in reserve, for a hand that is written where somebody switches the output on between a look
/// and its turn.
pub const MOST_BYTES: u64 = 65_536;

/// How many bytes may wait where an output that plays goes on: two hands, which last 46 milliseconds at 44,100 frames
/// a second. What waits counts as written, and is heard first where a path goes on that stood still.
pub const MOST_WAITING: u64 = 8_192;

/// What is seen of an output's path at a moment.
#[derive(Clone, Copy, PartialEq, Eq)]
pub struct PathProgress {
    /// How many bytes wait for the path.
    pub waiting: u64,
    /// How many bytes the path took so far.
    pub taken: u64,
    /// Whether the path failed: it takes nothing any more.
    pub fails: bool,
}

impl PathProgress {
    ghost use Rattle.std.specs.Prelude.{◌≡◌};
    ghost use Rattle.output_watchdog.specs.Gates.{is_held_up};

    /// Whether more bytes wait than an output goes on with.
    pub fn is_held_up(self) -> bool
        ensures { result ≡ is_held_up self }
    {
        self.waiting > MOST_WAITING
    }
}
