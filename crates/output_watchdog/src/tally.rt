//! How many bytes an output gave, and how many its path took.
ghost use Rattle.std.specs.Prelude.{◌≤◌, ◌≢◌, Some};
ghost use Rattle.std.specs.declared.io.ErrorKind.TheVariants.{WouldBlock};

use crate::progress::PathProgress;
use std::io::ErrorKind;

/// How many bytes an output gave, and how many its path took; and whether there will be more. A count stops at
/// its greatest value, 2^64-1.
#[derive(Drop)]
pub struct Tally {
    given: u64,
    taken: u64,
    fault: Option<ErrorKind>,
    ends: bool,
    ghost order: { taken ≤ given },
    ghost full: { fault ≢ Some WouldBlock },
}

impl Tally {
    ghost use Rattle.std.specs.Prelude.{◌≡◌, ◌≢◌, ◌+◌, ◌-◌, ◌^◌, ◌<◌, ◌≤◌, Some, None, false, true, min, is_some, if◌then◌else◌};
    ghost use Rattle.output_watchdog.specs.Gates.{waiting, progress_of, is_due, is_over};

    /// Nothing was given yet.
    pub fn new() -> Tally
        ensures counts { (result.given ≡ 0) × (result.taken ≡ 0) }
        ensures goes_on { (result.fault ≡ None) × (result.ends ≡ false) }
    {
        Tally {
            given: 0,
            taken: 0,
            fault: None,
            ends: false,
        }
    }

    /// The output gave so many bytes.
    pub fn gave(&mut self, count: usize)
        ensures given { self.new.given ≡ min (self.old.given + count) (2 ^ 64 - 1) }
        ensures taken { self.new.taken ≡ self.old.taken }
        ensures kept { (self.new.fault ≡ self.old.fault) × (self.new.ends ≡ self.old.ends) }
    {
        let Tally {
            given,
            taken: _,
            fault: _,
            ends: _,
        } = self;
        *given = given.saturating_add(count as u64);
    }

    /// The path took so many of the bytes that wait, and no more than wait.
    pub fn took(&mut self, count: usize)
        ensures taken { self.new.taken ≡ self.old.taken + min count (waiting self.old) }
        ensures given { self.new.given ≡ self.old.given }
        ensures kept { (self.new.fault ≡ self.old.fault) × (self.new.ends ≡ self.old.ends) }
    {
        let more = (count as u64).min(self.given - self.taken);
        self.taken += more;
    }

    /// The path failed so. The first fault stays. That a path has no room now is none.
    pub fn fail(&mut self, kind: ErrorKind)
        requires { kind ≢ ErrorKind.WouldBlock }
        ensures fault { self.new.fault ≡ (if is_some self.old.fault then self.old.fault else Some kind) }
        ensures counts { (self.new.given ≡ self.old.given) × (self.new.taken ≡ self.old.taken) }
        ensures ends { self.new.ends ≡ self.old.ends }
    {
        if self.fault.is_none() {
            self.fault = Some(kind);
        }
    }

    /// The output gives no more.
    pub fn end(&mut self)
        ensures ends { self.new.ends ≡ true }
        ensures counts { (self.new.given ≡ self.old.given) × (self.new.taken ≡ self.old.taken) }
        ensures fault { self.new.fault ≡ self.old.fault }
    {
        self.ends = true;
    }

    /// How many bytes wait for the path.
    pub fn waiting(&self) -> u64
        ensures { result ≡ waiting self.now }
    {
        self.given - self.taken
    }

    pub fn fault(&self) -> Option<ErrorKind>
        ensures fault { result ≡ self.now.fault }
        ensures full { result ≢ Some ErrorKind.WouldBlock }
    {
        self.fault
    }

    /// Whether the thread that writes to the path has nothing more to wait for: bytes wait, or none will come.
    pub fn is_due(&self) -> bool
        ensures { result ≡ is_due self.now }
    {
        self.waiting() > 0 || self.ends
    }

    /// Whether nothing more will be taken, or nothing waits.
    pub fn is_over(&self) -> bool
        ensures { result ≡ is_over self.now }
    {
        self.fault.is_some() || self.waiting() == 0
    }

    pub fn ends(&self) -> bool
        ensures { result ≡ self.now.ends }
    {
        self.ends
    }

    /// What is seen of it.
    pub fn progress(&self) -> PathProgress
        ensures { result ≡ progress_of self.now }
    {
        PathProgress {
            waiting: self.waiting(),
            taken: self.taken,
            fails: self.fault.is_some(),
        }
    }
}
