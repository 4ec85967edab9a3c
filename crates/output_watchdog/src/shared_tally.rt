//! The counts of what passes from an output to its path, behind a lock.
ghost use Rattle.std.specs.Prelude.{◌≢◌, Some};

use crate::progress::PathProgress;
use crate::tally::Tally;
use std::io::ErrorKind;
use std::sync::{Condvar, Mutex, Wait};
use std::time::{Clock, Duration};

/// Between an output, the thread that writes to its path, and its gate: how many bytes passed. The lock is held
/// for a few instructions, and never while the path is written.
pub struct SharedTally {
    tally: Mutex<Tally>,
    /// Rung where bytes came or the output ends.
    is_due: Condvar,
    /// Rung where the path has taken all, or failed.
    is_over: Condvar,
}

impl Drop for SharedTally {
    fn drop(self) {
        let SharedTally {
            tally: _,
            is_due: _,
            is_over: _,
        } = self;
    }
}

impl SharedTally {
    pub fn new() -> SharedTally {
        SharedTally {
            tally: Mutex::new(Tally::new()),
            is_due: Condvar::new(),
            is_over: Condvar::new(),
        }
    }

    /// What is seen of it now.
    pub fn progress(&self, rt: &impl Wait) -> PathProgress {
        self.tally.lock(rt).progress()
    }

    /// How the path failed, if it did.
    pub fn fault(&self, rt: &impl Wait) -> Option<ErrorKind>
        ensures { result ≢ Some ErrorKind.WouldBlock }
    {
        self.tally.lock(rt).fault()
    }

    /// The output gave so many bytes, which are in the ring.
    pub fn gave(&self, rt: &impl Wait, count: usize) {
        self.tally.lock(rt).gave(count);
        self.is_due.notify_one();
    }

    /// The path took so many bytes.
    pub fn took(&self, rt: &impl Wait, count: usize) {
        let is_over = {
            let mut tally = self.tally.lock(rt);
            tally.took(count);
            tally.is_over()
        };
        if is_over {
            self.is_over.notify_all();
        }
    }

    /// The path failed so, and nothing more is written.
    pub fn fail(&self, rt: &impl Wait, kind: ErrorKind)
        requires { kind ≢ ErrorKind.WouldBlock }
    {
        self.tally.lock(rt).fail(kind);
        self.is_over.notify_all();
    }

    /// Whether the output gives no more.
    pub fn ends(&self, rt: &impl Wait) -> bool {
        self.tally.lock(rt).ends()
    }

    /// Waits until bytes are there, and says whether they are; they are not where the output has ended.
    pub fn await_bytes(&self, rt: &impl Wait) -> bool {
        let tally = self
            .is_due
            .wait_while(rt, self.tally.lock(rt), |tally| !tally.is_due());
        tally.waiting() > 0
    }

    /// The output gives no more. Waits until the path has taken all, has failed, or the time is up; and says how
    /// many bytes it did not take.
    pub fn finish<R: Wait + Clock>(&self, rt: &R, most: Duration) -> u64 {
        self.tally.lock(rt).end();
        self.is_due.notify_all();
        let (tally, _is_late) = self
            .is_over
            .wait_timeout_while(rt, self.tally.lock(rt), most, |tally| !tally.is_over());
        tally.waiting()
    }
}
