//! Any device, with counts of how its calls end.
ghost use Rattle.std.specs.Prelude.{◌≡◌, OnErr};
ghost use Rattle.std.specs.Io.{ReadsAtMost, WritesAtMost};
ghost use Rattle.std.specs.Io.KnownBytes.{ReadConsumes, WriteAppends, Keeps};
ghost use Rattle.counted_devices.specs.CallCounts.{NoFewer, HasFailed, CountsCall, CountsWrite, one_call, no_calls};

use crate::{CallCounts, Failing, Media, ReadSeek, Sink, Source};
use std::io;
use std::io::{Read, Write};

/// Counts how the calls of a device end. Each call hands on one call of the device, with the same bytes or
/// offset.
#[derive(Drop)]
pub struct Counting<T> {
    inner: T,
    call_counts: CallCounts,
}

impl<T> Counting<T> {
    /// Wraps a device that was not called yet: every count is 0.
    pub fn new(inner: T) -> Counting<T>
        ensures inner { result.inner ≡ inner }
        ensures call_counts { result.call_counts ≡ no_calls }
    {
        Counting {
            inner,
            call_counts: CallCounts::new(),
        }
    }

    /// The device inside.
    pub fn inner(&self) -> &T
        ensures { result.now ≡ self.now.inner }
    {
        &self.inner
    }

    /// The device inside, without its counts.
    pub fn into_inner(self) -> T
        ensures { result ≡ self.inner }
    {
        self.inner
    }
}

impl<T> Failing for Counting<T> {
    ghost call_counts = { λ c. c.call_counts };

    fn counts(&self) -> CallCounts {
        self.call_counts
    }
}

impl<T: Read> Read for Counting<T> {
    ghost remaining = { λ c. T.remaining c.inner };

    fn read(&mut self, buf: &mut [u8]) -> io::Result<usize>
        ensures bound { ReadsAtMost result buf.new }
        ensures bytes { ReadConsumes (T.remaining self.old.inner) (T.remaining self.new.inner) result buf.new }
        ensures counts { CountsCall self.old.call_counts self.new.call_counts result }
        ensures calls { self.new.call_counts.calls ≡ (one_call self.old.call_counts).calls }
        ensures failed { OnErr result (HasFailed self.old.call_counts self.new.call_counts) }
        ensures calm { NoFewer self.old.call_counts self.new.call_counts }
    {
        let returned = self.inner.read(buf);
        self.call_counts.count_result(&returned);
        returned
    }
}

impl<T: Read> Source for Counting<T> {
    fn read_some(&mut self, buf: &mut [u8]) -> io::Result<usize> {
        self.read(buf)
    }
}

impl<T: Write> Write for Counting<T> {
    ghost contents = { λ c. T.contents c.inner };

    fn write(&mut self, buf: &[u8]) -> io::Result<usize>
        ensures bound { WritesAtMost result buf.now }
        ensures bytes { WriteAppends (T.contents self.old.inner) (T.contents self.new.inner) result buf.now }
        ensures counts { CountsWrite self.old.call_counts self.new.call_counts result buf.now }
        ensures failed { OnErr result (HasFailed self.old.call_counts self.new.call_counts) }
        ensures calm { NoFewer self.old.call_counts self.new.call_counts }
    {
        let returned = self.inner.write(buf);
        self.call_counts.count_write(&returned, buf);
        returned
    }

    fn flush(&mut self) -> io::Result<()>
        ensures bytes { Keeps (T.contents self.old.inner) (T.contents self.new.inner) }
        ensures counts { CountsCall self.old.call_counts self.new.call_counts result }
        ensures failed { OnErr result (HasFailed self.old.call_counts self.new.call_counts) }
        ensures calm { NoFewer self.old.call_counts self.new.call_counts }
    {
        let returned = self.inner.flush();
        self.call_counts.count_result(&returned);
        returned
    }
}

impl<T: Write> Sink for Counting<T> {
    fn write_some(&mut self, buf: &[u8]) -> io::Result<usize> {
        self.write(buf)
    }

    fn flush_out(&mut self) -> io::Result<()> {
        self.flush()
    }
}

// The bytes are those of the device inside, and known where it knows them.
impl<T: ReadSeek> Media for Counting<T> {
    ghost all_bytes = { λ c. T.known_bytes c.inner };

    fn seek_to(&mut self, offset: u64) -> io::Result<()> {
        let returned = self.inner.move_to(offset);
        self.call_counts.count_result(&returned);
        returned
    }

    fn seek_to_end(&mut self) -> io::Result<u64> {
        let returned = self.inner.move_to_end();
        self.call_counts.count_result(&returned);
        returned
    }

    fn read_here(&mut self, buf: &mut [u8]) -> io::Result<usize> {
        let returned = self.inner.read_on(buf);
        self.call_counts.count_result(&returned);
        returned
    }
}
