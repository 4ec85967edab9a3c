//! The line that shows on a terminal how far a scan is.
use library_scan::Watcher;
use scan_report::Progress;
use std::alloc::{AllocError, Global};
use std::cell::Cell;
use std::fmt::Display;
use std::io;
use std::test::Fail;
use std::time::{Clock, Duration};
use test_texts::wants;

/// A terminal that counts what is written on it. Its clock goes on by a quarter of a second whenever it is read.
#[derive(Drop)]
struct Terminal {
    reads: Cell<u8>,
    writes: Cell<u8>,
}

impl Terminal {
    fn count_write(&self) -> io::Result<()> {
        self.writes.set(self.writes.get().saturating_add(1));
        Ok(())
    }
}

impl Clock for Terminal {
    fn monotonic(&self) -> io::Result<Duration> {
        let reads = self.reads.get();
        self.reads.set(reads.saturating_add(1));
        Ok(Duration::from_millis(250 * u64::from(reads)))
    }

    fn since_1970(&self) -> io::Result<Duration> {
        self.monotonic()
    }
}

impl Eprint for Terminal {
    fn eprint<D: Display + Drop>(&self, _value: D) -> io::Result<()> {
        self.count_write()
    }

    fn eprintln<D: Display + Drop>(&self, _value: D) -> io::Result<()> {
        self.count_write()
    }
}

/// How often something was written by the end of a scan of so many names.
fn writes(names: u64) -> u8 {
    let terminal = Terminal {
        reads: Cell::new(0),
        writes: Cell::new(0),
    };
    let mut progress = Progress::new(&terminal, true);
    for name in 0..names {
        progress.saw(name);
    }
    progress.end();
    terminal.writes.get()
}

fn observed(alloc: Global) -> Result<String, AllocError> {
    let (nothing, once, thrice) = (writes(0), writes(1), writes(3));
    format!(in alloc; "{nothing} {once} {thrice}")
}

/// A scan that shows nothing clears nothing, and any other clears its line.
#[test]
fn lines_are_cleared(rt: HostRuntime) -> Result<(), Fail> {
    wants(observed(rt.alloc()), "0 2 4")
}
