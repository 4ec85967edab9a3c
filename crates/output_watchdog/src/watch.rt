//! What is decided for an output whose path may stand still.
ghost use Rattle.std.specs.Prelude.{◌≡◌, ◌<◌, ◌≤◌, ◌⊎◌, true, false};
ghost use Rattle.output_watchdog.specs.Gates.{step_of};
ghost use Rattle.output_watchdog.specs.declared.watch.Mode.TheVariants as mode;
ghost use Rattle.output_watchdog.specs.declared.watch.Step.TheVariants as steps;

use crate::progress::PathProgress;
use crate::timer::StallTimer;

/// How an output stands.
#[derive(Clone, Copy, PartialEq, Eq)]
pub enum Mode {
    /// It plays, as far as is known.
    Plays,
    /// It is off for its path. It is to be switched on again where this is true: where it was on before.
    IsOff(bool),
}

/// What is done where an output asks whether it may go on.
#[derive(Clone, Copy, PartialEq, Eq)]
pub enum Step {
    /// It goes on.
    Opens,
    /// It asks again.
    Waits,
    /// It is switched off where something is played, and asks again.
    SwitchesOff,
    /// All that waited was taken: it goes on, and is switched on again where it was on before.
    Returns,
    /// It goes on where it is seen to be off, so that what it takes is discarded; else it plays.
    Looks,
}

/// What came of it that an output was to be switched off.
#[derive(Clone, Copy, PartialEq, Eq)]
pub enum Off {
    /// Nothing is played: it stays as it is.
    Rests,
    /// It is off, and was on before where this is true.
    IsOff(bool),
}

/// What is done for an output of which this is seen, where it was held up for so many milliseconds while its path
/// took nothing and it has patience for so many; and once the daemon has ended.
pub fn decide(
    mode: Mode,
    progress: PathProgress,
    stalled_for: u64,
    patience: u64,
    ended: bool,
) -> Step
    ensures step { result ≡ step_of mode progress stalled_for patience ended }
    // What goes on without a look is not held up, except for a path that failed and at the end, where nothing is kept
    // for the path.
    ensures room { result ≡ steps.Opens → (ended ≡ true) ⊎ (progress.fails ≡ true) ⊎ (progress.waiting ≤ 8192) }
    // An output waits no longer than it has patience, and is not switched off before.
    ensures waits { result ≡ steps.Waits → stalled_for < patience }
    ensures patient { result ≡ steps.SwitchesOff → patience ≤ stalled_for }
    // The end and a fault are waited for by none.
    ensures end { ended ≡ true → result ≡ steps.Opens }
    ensures fault { progress.fails ≡ true → result ≡ steps.Opens }
    // It comes back only where its path has taken all.
    ensures back { result ≡ steps.Returns → progress.waiting ≡ 0 }
{
    if ended || progress.fails {
        return Step::Opens;
    }
    match mode {
        Mode::Plays if !progress.is_held_up() => Step::Opens,
        Mode::Plays if stalled_for >= patience => Step::SwitchesOff,
        Mode::Plays => Step::Waits,
        Mode::IsOff(_) if progress.waiting == 0 => Step::Returns,
        Mode::IsOff(_) => Step::Looks,
    }
}

/// How an output stands, and for how long its path took nothing.
#[derive(Clone, Copy, PartialEq, Eq)]
pub struct Watch {
    mode: Mode,
    timer: StallTimer,
    /// In milliseconds.
    patience: u64,
}

impl Watch {
    ghost use Rattle.std.specs.Prelude.{◌≡◌, ◌*◌};
    ghost use Rattle.output_watchdog.specs.Gates.{timer_at};
    ghost use Rattle.output_watchdog.specs.Watches.{after_check, after_off, after_return, anew, is_seen_off, is_to_return, looked, step_at};
    ghost use Rattle.output_watchdog.specs.declared.watch.Mode.TheVariants.{Plays};

    /// An output that plays, with patience for so many seconds.
    pub fn new(seconds: u32, now: u64) -> Watch
        ensures { (result.mode ≡ Plays) × (result.timer ≡ timer_at 0 now) × (result.patience ≡ 1000 * seconds) }
    {
        Watch {
            mode: Mode::Plays,
            timer: StallTimer::new(0, now),
            patience: 1_000 * u64::from(seconds),
        }
    }

    pub fn mode(&self) -> Mode
        ensures { result ≡ self.now.mode }
    {
        self.mode
    }

    /// What is done at a moment at which this is seen.
    pub fn look(&mut self, progress: PathProgress, now: u64, ended: bool) -> Step
        ensures step { result ≡ step_at self.old progress now ended }
        ensures watch { self.new ≡ looked self.old progress now }
    {
        let stalled_for = self.timer.look(progress, now);
        decide(self.mode, progress, stalled_for, self.patience, ended)
    }

    /// Whether it is off for its path, and was on before: then it is to be switched on again.
    pub fn is_to_return(&self) -> bool
        ensures { result ≡ is_to_return self.now.mode }
    {
        matches!(self.mode, Mode::IsOff(true))
    }

    /// It was to be switched off; none where that could not be done now. Where nothing is played its patience begins
    /// anew.
    pub fn was_to_be_off(&mut self, off: Option<Off>, progress: PathProgress, now: u64)
        ensures { self.new ≡ after_off self.old off progress now }
    {
        match off {
            Some(Off::IsOff(was_on)) => self.mode = Mode::IsOff(was_on),
            Some(Off::Rests) => self.plays(progress, now),
            None => {}
        }
    }

    /// It returns, and was to be switched on again where it was on before; whether that was done. Where it was not, it is
    /// tried when the output asks again.
    pub fn was_to_return(&mut self, is_done: bool, progress: PathProgress, now: u64)
        ensures { self.new ≡ after_return self.old is_done progress now }
    {
        if is_done || !self.is_to_return() {
            self.plays(progress, now);
        }
    }

    /// It was off for its path, and is seen to be on or off; none where that could not be seen now. Whether it goes on:
    /// where it is off. Where it is on, somebody wants it to play, and its patience begins anew.
    pub fn was_looked_at(&mut self, is_on: Option<bool>, progress: PathProgress, now: u64) -> bool
        ensures goes_on { result ≡ is_seen_off is_on }
        ensures watch { self.new ≡ after_check self.old is_on progress now }
    {
        match is_on {
            Some(is_on) => {
                if is_on {
                    self.plays(progress, now);
                }
                !is_on
            }
            None => false,
        }
    }

    /// It plays from a moment on, at which this was seen: its patience begins anew.
    fn plays(&mut self, progress: PathProgress, now: u64)
        ensures { self.new ≡ anew self.old progress now }
    {
        self.mode = Mode::Plays;
        self.timer = StallTimer::new(progress.taken, now);
    }
}
