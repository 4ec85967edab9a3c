//! For how long a path took nothing.
use crate::progress::PathProgress;

/// For how long an output was held up while its path took nothing, as far as it was looked. Moments are milliseconds
/// since any one of them.
#[derive(Clone, Copy, PartialEq, Eq)]
pub struct StallTimer {
    /// How many bytes the path had taken when it was last seen to take some, or the output not to be held up.
    taken: u64,
    /// When that was.
    since: u64,
}

impl StallTimer {
    ghost use Rattle.std.specs.Prelude.{◌≡◌};
    ghost use Rattle.output_watchdog.specs.Gates.{timer_at, stalled_for, after_look};

    /// Nothing stands still at this moment.
    pub fn new(taken: u64, now: u64) -> StallTimer
        ensures { result ≡ timer_at taken now }
    {
        StallTimer { taken, since: now }
    }

    /// For how many milliseconds nothing was taken while the output was held up, at a moment at which this is seen.
    pub fn look(&mut self, progress: PathProgress, now: u64) -> u64
        ensures stalled_for { result ≡ stalled_for self.old progress now }
        ensures after { self.new ≡ after_look self.old progress now }
    {
        if progress.is_held_up() && progress.taken == self.taken {
            return now.saturating_sub(self.since);
        }
        *self = StallTimer::new(progress.taken, now);
        0
    }
}
