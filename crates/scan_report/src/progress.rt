//! How far a scan is.
ghost use Rattle.std.specs.Prelude.{◌≡◌, ◌<◌, ◌↔◌, IsTrue};
ghost use Rattle.scan_report.specs.Speeds.{per_second as per_second_lem};

use library_scan::Watcher;
use std::time::{Clock, Instant};

/// Tells on a terminal at standard error how far a scan is: the files and folders that were seen, and how
/// many a second. It writes anew at most five times a second, and nothing in the first fifth, so a short scan
/// says nothing.
#[derive(Drop)]
pub struct Progress<'a, R: Clock + Eprint> {
    rt: &'a R,
    start: Option<Instant>,
    fifths: u128,
}

impl<'a, R: Clock + Eprint> Progress<'a, R> {
    /// Tells it where this is a terminal, and nothing elsewhere.
    pub fn new(rt: &'a R, is_terminal: bool) -> Progress<'a, R> {
        let start = if is_terminal {
            Instant::now(rt).ok()
        } else {
            None
        };
        Progress {
            rt,
            start,
            fifths: 0,
        }
    }

    /// Clears what it wrote.
    pub fn end(self) {
        if self.has_told() {
            let _written = eprint!(self.rt; "\r\x1b[K");
        }
    }

    /// Whether a line of it stands on the terminal.
    fn has_told(&self) -> bool
        ensures { IsTrue result ↔ (0 < self.now.fifths) }
    {
        self.fifths > 0
    }
}

impl<R: Clock + Eprint> Watcher for Progress<'_, R> {
    // What cannot be told is left out: a scan does not end for that.
    fn saw(&mut self, names: u64) {
        let Some(start) = self.start else {
            return;
        };
        let Ok(passed) = start.elapsed(self.rt) else {
            return;
        };
        let millis = passed.as_millis();
        let fifths = millis / 200;
        if fifths > self.fifths {
            self.fifths = fifths;
            let speed = per_second(names, millis);
            let _written = eprint!(self.rt; "\r{names} files seen, {speed} a second\x1b[K");
        }
    }
}

/// How many names came in a second, of so many in so many thousandths of a second; 0 where no time passed.
pub fn per_second(names: u64, millis: u128) -> u128
    ensures { result ≡ per_second_lem names millis }
{
    if millis == 0 {
        return 0;
    }
    u128::from(names) * 1000 / millis
}
