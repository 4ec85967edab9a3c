//! Counts of how the calls of a device ended.
ghost use Rattle.std.specs.Prelude.{◌≡◌, ◌≢◌, OnErr};
ghost use Rattle.counted_devices.specs.CallCounts.{NoFewer, HasFailed, CountsCall, CountsWrite, one_call, one_failure, one_blocked, no_calls};

use std::io;
use std::io::ErrorKind;

/// How the calls of a device ended so far. A count stops at its greatest value, 2^64-1.
#[derive(Clone, Copy, PartialEq, Eq)]
pub struct CallCounts {
    /// Errors, without those of calls that would block, and writes that took no byte of some.
    pub failures: u64,
    /// Calls that would have blocked.
    pub blocked: u64,
    /// All calls.
    pub calls: u64,
}

impl CallCounts {
    /// The counts of a device that was not called yet.
    pub fn new() -> CallCounts
        ensures { result ≡ no_calls }
    {
        CallCounts {
            failures: 0,
            blocked: 0,
            calls: 0,
        }
    }

    /// Counts a call that returned no error.
    pub fn count_call(&mut self)
        ensures { self.new ≡ one_call self.old }
    {
        self.calls = self.calls.saturating_add(1);
    }

    /// Counts a call that returned an error of this kind.
    pub fn count_error(&mut self, kind: ErrorKind)
        ensures blocked { kind ≡ ErrorKind.WouldBlock → self.new ≡ one_blocked self.old }
        ensures failed { kind ≢ ErrorKind.WouldBlock → self.new ≡ one_failure self.old }
        ensures calls { self.new.calls ≡ (one_call self.old).calls }
        ensures risen { HasFailed self.old self.new }
        ensures calm { NoFewer self.old self.new }
    {
        // Read once, so that the proof has the range of each count.
        let CallCounts {
            failures: _failures,
            blocked: _blocked,
            calls: _calls,
        } = *self;
        self.count_call();
        if kind == ErrorKind::WouldBlock {
            self.blocked = self.blocked.saturating_add(1);
        } else {
            self.failures = self.failures.saturating_add(1);
        }
    }

    /// Counts a call that took none of some bytes, which is a failure without an error.
    pub fn count_failure(&mut self)
        ensures { self.new ≡ one_failure self.old }
    {
        self.count_call();
        self.failures = self.failures.saturating_add(1);
    }

    /// Counts a call that returned this.
    pub fn count_result<X>(&mut self, returned: &io::Result<X>)
        ensures counts { CountsCall self.old self.new returned.now }
        ensures calls { self.new.calls ≡ (one_call self.old).calls }
        ensures failed { OnErr returned.now (HasFailed self.old self.new) }
        ensures calm { NoFewer self.old self.new }
    {
        // Read once, so that the proof has the range of each count.
        let CallCounts {
            failures: _failures,
            blocked: _blocked,
            calls: _calls,
        } = *self;
        match returned {
            Ok(_) => self.count_call(),
            Err(e) => self.count_error(e.kind()),
        }
    }

    /// Counts a write of these bytes that returned this.
    pub fn count_write(&mut self, returned: &io::Result<usize>, bytes: &[u8])
        ensures counts { CountsWrite self.old self.new returned.now bytes.now }
        ensures failed { OnErr returned.now (HasFailed self.old self.new) }
        ensures calm { NoFewer self.old self.new }
    {
        // Read once, so that the proof has the range of each count.
        let CallCounts {
            failures: _failures,
            blocked: _blocked,
            calls: _calls,
        } = *self;
        match returned {
            Ok(0) if !bytes.is_empty() => self.count_failure(),
            Ok(_) => self.count_call(),
            Err(e) => self.count_error(e.kind()),
        }
    }
}
