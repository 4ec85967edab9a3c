//! Readers and writers that count how their calls end.
ghost use Rattle.std.specs.Prelude.{◌≡◌, ℕ, List, Option, length, IfSome, IfOk, OnErr};
ghost use Rattle.counted_devices.specs.declared.call_counts.CallCounts.{CallCounts};
ghost use Rattle.std.specs.Io.{ReadsAtMost, WritesAtMost};
ghost use Rattle.std.specs.Io.KnownBytes.{ReadConsumes, WriteAppends, Keeps};
ghost use Rattle.counted_devices.specs.CallCounts.{NoFewer, HasFailed, CountsCall, CountsWrite, one_call};
ghost use Rattle.counted_devices.specs.Bytes.{Seeks, SeeksToEnd};

use crate::CallCounts;
use std::io;
use std::io::{Read, Write};

/// A device that counts how its calls end. A count stops at its greatest value, 2^64-1.
pub trait Failing {
    ghost call_counts: { Self → CallCounts };

    /// How its calls ended so far.
    fn counts(&self) -> CallCounts
        ensures { result ≡ call_counts self.now };

    /// How many calls returned an error other than `WouldBlock`, or took none of some bytes.
    fn failures(&self) -> u64
        ensures { result ≡ (call_counts self.now).failures }
    {
        self.counts().failures
    }

    /// How many calls returned `WouldBlock`.
    fn blocked(&self) -> u64
        ensures { result ≡ (call_counts self.now).blocked }
    {
        self.counts().blocked
    }

    /// How many calls were made in all.
    fn calls(&self) -> u64
        ensures { result ≡ (call_counts self.now).calls }
    {
        self.counts().calls
    }
}

/// A reader that counts its calls.
pub trait Source: Read + Failing {
    /// Reads as `Read::read` does, and counts the call.
    fn read_some(&mut self, buf: &mut [u8]) -> io::Result<usize>
        ensures bound { ReadsAtMost result buf.new }
        ensures bytes { ReadConsumes (Self.remaining self.old) (Self.remaining self.new) result buf.new }
        ensures counts { CountsCall (Self.call_counts self.old) (Self.call_counts self.new) result }
        ensures calls { (Self.call_counts self.new).calls ≡ (one_call (Self.call_counts self.old)).calls }
        ensures failed { OnErr result (HasFailed (Self.call_counts self.old) (Self.call_counts self.new)) }
        ensures calm { NoFewer (Self.call_counts self.old) (Self.call_counts self.new) };
}

/// A writer that counts its calls.
pub trait Sink: Write + Failing {
    /// Writes as `Write::write` does, and counts the call. To take none of some bytes is a failure.
    fn write_some(&mut self, buf: &[u8]) -> io::Result<usize>
        ensures bound { WritesAtMost result buf.now }
        ensures bytes { WriteAppends (Self.contents self.old) (Self.contents self.new) result buf.now }
        ensures counts { CountsWrite (Self.call_counts self.old) (Self.call_counts self.new) result buf.now }
        ensures failed { OnErr result (HasFailed (Self.call_counts self.old) (Self.call_counts self.new)) }
        ensures calm { NoFewer (Self.call_counts self.old) (Self.call_counts self.new) };

    /// Flushes as `Write::flush` does, and counts the call.
    fn flush_out(&mut self) -> io::Result<()>
        ensures bytes { Keeps (Self.contents self.old) (Self.contents self.new) }
        ensures counts { CountsCall (Self.call_counts self.old) (Self.call_counts self.new) result }
        ensures failed { OnErr result (HasFailed (Self.call_counts self.old) (Self.call_counts self.new)) }
        ensures calm { NoFewer (Self.call_counts self.old) (Self.call_counts self.new) };
}

/// A reader that can be set to any offset of its bytes, and counts its calls. Each call is one read
/// or one seek of the device.
pub trait Media: Source {
    // All its bytes from the first on, where they are known.
    ghost all_bytes: { Self → Option (List ℕ) };

    /// Sets the reader to an offset, counted in bytes from the first. After the last byte nothing remains.
    fn seek_to(&mut self, offset: u64) -> io::Result<()>
        ensures moves { Seeks (all_bytes self.old) offset (Self.remaining self.old) (Self.remaining self.new) result }
        ensures stays { all_bytes self.new ≡ all_bytes self.old }
        ensures counts { CountsCall (Self.call_counts self.old) (Self.call_counts self.new) result }
        ensures calls { (Self.call_counts self.new).calls ≡ (one_call (Self.call_counts self.old)).calls }
        ensures failed { OnErr result (HasFailed (Self.call_counts self.old) (Self.call_counts self.new)) }
        ensures calm { NoFewer (Self.call_counts self.old) (Self.call_counts self.new) };

    /// Sets the reader after its last byte, and gives how many bytes there are.
    fn seek_to_end(&mut self) -> io::Result<u64>
        ensures size { IfSome (all_bytes self.old) (λ bytes. IfOk result (λ n. n ≡ length bytes)) }
        ensures moves { SeeksToEnd (all_bytes self.old) (Self.remaining self.old) (Self.remaining self.new) result }
        ensures stays { all_bytes self.new ≡ all_bytes self.old }
        ensures counts { CountsCall (Self.call_counts self.old) (Self.call_counts self.new) result }
        ensures calls { (Self.call_counts self.new).calls ≡ (one_call (Self.call_counts self.old)).calls }
        ensures failed { OnErr result (HasFailed (Self.call_counts self.old) (Self.call_counts self.new)) }
        ensures calm { NoFewer (Self.call_counts self.old) (Self.call_counts self.new) };

    /// Reads as `Source::read_some` does, from where the reader is, and leaves all bytes as they were.
    fn read_here(&mut self, buf: &mut [u8]) -> io::Result<usize>
        ensures bound { ReadsAtMost result buf.new }
        ensures bytes { ReadConsumes (Self.remaining self.old) (Self.remaining self.new) result buf.new }
        ensures stays { all_bytes self.new ≡ all_bytes self.old }
        ensures counts { CountsCall (Self.call_counts self.old) (Self.call_counts self.new) result }
        ensures calls { (Self.call_counts self.new).calls ≡ (one_call (Self.call_counts self.old)).calls }
        ensures failed { OnErr result (HasFailed (Self.call_counts self.old) (Self.call_counts self.new)) }
        ensures calm { NoFewer (Self.call_counts self.old) (Self.call_counts self.new) };
}
