//! A device over memory that fails at a given call or byte.
ghost use Rattle.std.specs.Prelude.{◌≡◌, ◌≢◌, ◌↔◌, ℕ, pos, Some, length, drop, min, IsOk, IsErr, IfOk, OnErr};
ghost use Rattle.std.specs.Io.{ReadsAtMost, WritesAtMost};
ghost use Rattle.std.specs.Io.KnownBytes.{ReadConsumes, WriteAppends, Keeps};
ghost use Rattle.std.specs.IoError.{error_kind};
ghost use Rattle.counted_devices.specs.Bytes.{Seeks, SeeksToEnd};
ghost use Rattle.counted_devices.specs.CallCounts.{CountsCall, CountsError, CountsWrite, HasFailed, NoFewer, one_call};
ghost use Rattle.counted_devices.specs.Failures.{fresh_device, left_to_read, rest_of, room_for_call, room_to_read, room_to_write, read_count, AnyErrorIs, FailsWith, PositionMoves};

use crate::{CallCounts, Failing, Media, ReadSeek, Sink, Source};
use std::io;
use std::io::{ErrorKind, Read, Seek, SeekFrom, Write};

/// Where a device fails.
#[derive(Clone, Copy, PartialEq, Eq)]
pub enum FailurePoint {
    /// Nowhere.
    Never,
    /// At this one read, write or seek, counted from 1.
    Call(u64),
    /// At each read once so many bytes were read, at each write once it holds so many, and at each seek
    /// and flush where this is 0.
    Byte(u64),
}

/// Bytes in memory that are read from any offset and written at the end, with a failure where one is asked for.
#[derive(Drop)]
pub struct FailAt {
    bytes: Vec<u8>,
    position: u64,
    call_counts: CallCounts,
    point: FailurePoint,
    kind: ErrorKind,
}

impl FailAt {
    /// A device that holds these bytes, is at the first, and returns `ErrorKind::Other` at the point.
    pub fn new(bytes: Vec<u8>, point: FailurePoint) -> FailAt
        ensures { result ≡ fresh_device bytes point ErrorKind.Other }
    {
        FailAt {
            bytes,
            position: 0,
            call_counts: CallCounts::new(),
            point,
            kind: ErrorKind::Other,
        }
    }

    /// A device as `new` makes it, that returns `ErrorKind::WouldBlock` at the point.
    pub fn would_block(bytes: Vec<u8>, point: FailurePoint) -> FailAt
        ensures { result ≡ fresh_device bytes point ErrorKind.WouldBlock }
    {
        FailAt {
            bytes,
            position: 0,
            call_counts: CallCounts::new(),
            point,
            kind: ErrorKind::WouldBlock,
        }
    }

    /// All its bytes, those that were written included.
    pub fn bytes(&self) -> &[u8]
        ensures { result.now ≡ self.now.bytes.items }
    {
        self.bytes.as_slice()
    }

    /// What is left to read.
    fn rest(&self) -> &[u8]
        ensures { result.now ≡ left_to_read self.now }
    {
        let start = (self.position as usize).min(self.bytes.len());
        &self.bytes.as_slice()[start..]
    }

    /// How many bytes the next call may let through after so many: none where it is to fail.
    fn room(&self, before: u64) -> usize
        ensures { result ≡ room_for_call self.now before }
    {
        match self.point {
            FailurePoint::Never => usize::MAX,
            FailurePoint::Call(call) => {
                if self.call_counts.calls.saturating_add(1) == call {
                    0
                } else {
                    usize::MAX
                }
            }
            FailurePoint::Byte(byte) => byte.saturating_sub(before) as usize,
        }
    }

    /// Counts the failure, and gives its error.
    fn fail(&mut self) -> io::Error
        ensures kind { error_kind result ≡ self.old.kind }
        ensures counts { CountsError self.old.call_counts self.new.call_counts result }
        ensures calls { self.new.call_counts.calls ≡ (one_call self.old.call_counts).calls }
        ensures failed { HasFailed self.old.call_counts self.new.call_counts }
        ensures calm { NoFewer self.old.call_counts self.new.call_counts }
        ensures bytes { self.new.bytes ≡ self.old.bytes }
        ensures position { self.new.position ≡ self.old.position }
    {
        self.call_counts.count_error(self.kind);
        io::Error::from(self.kind)
    }
}

impl Failing for FailAt {
    ghost call_counts = { λ d. d.call_counts };

    fn counts(&self) -> CallCounts {
        self.call_counts
    }
}

impl Read for FailAt {
    ghost remaining = { λ d. Some (drop d.position d.bytes.items) };

    fn read(&mut self, buf: &mut [u8]) -> io::Result<usize>
        ensures bound { ReadsAtMost result buf.new }
        ensures bytes { ReadConsumes (Some (left_to_read self.old)) (Some (left_to_read self.new)) result buf.new }
        ensures stays { self.new.bytes ≡ self.old.bytes }
        ensures counts { CountsCall self.old.call_counts self.new.call_counts result }
        ensures calls { self.new.call_counts.calls ≡ (one_call self.old.call_counts).calls }
        ensures failed { OnErr result (HasFailed self.old.call_counts self.new.call_counts) }
        ensures calm { NoFewer self.old.call_counts self.new.call_counts }
        ensures count { IfOk result (λ n. n ≡ read_count self.old buf.new) }
        ensures fails { IsErr result ↔ (room_to_read self.old ≡ 0) }
        ensures kind { AnyErrorIs self.old.kind result }
    {
        // Read once, so that the proof has the range of each count.
        let CallCounts {
            failures: _failures,
            blocked: _blocked,
            calls: _calls,
        } = self.call_counts;
        let room = self.room(self.position);
        if room == 0 {
            return Err(self.fail());
        }
        let rest = self.rest();
        let count = room.min(rest.len()).min(buf.len());
        buf[..count].copy_from_slice(&rest[..count]);
        self.position = self.position.saturating_add(count as u64);
        self.call_counts.count_call();
        Ok(count)
    }
}

impl Source for FailAt {
    fn read_some(&mut self, buf: &mut [u8]) -> io::Result<usize> {
        self.read(buf)
    }
}

impl Write for FailAt {
    ghost contents = { λ d. Some d.bytes.items };

    fn write(&mut self, buf: &[u8]) -> io::Result<usize>
        ensures bound { WritesAtMost result buf.now }
        ensures bytes { WriteAppends (Some self.old.bytes.items) (Some self.new.bytes.items) result buf.now }
        ensures counts { CountsWrite self.old.call_counts self.new.call_counts result buf.now }
        ensures failed { OnErr result (HasFailed self.old.call_counts self.new.call_counts) }
        ensures calm { NoFewer self.old.call_counts self.new.call_counts }
        ensures count { IfOk result (λ n. n ≡ min (room_to_write self.old) (length buf.now)) }
        ensures fails { room_to_write self.old ≡ 0 → FailsWith self.old.kind result }
        // An error elsewhere is want of memory.
        ensures memory { room_to_write self.old ≢ 0 → AnyErrorIs ErrorKind.OutOfMemory result }
    {
        // Read once, so that the proof has the range of each count.
        let CallCounts {
            failures: _failures,
            blocked: _blocked,
            calls: _calls,
        } = self.call_counts;
        let room = self.room(self.bytes.len() as u64);
        if room == 0 {
            return Err(self.fail());
        }
        let count = room.min(buf.len());
        let returned = match self.bytes.extend_from_slice(&buf[..count]) {
            Ok(()) => Ok(count),
            Err(e) => Err(io::Error::from(e)),
        };
        self.call_counts.count_result(&returned);
        returned
    }

    fn flush(&mut self) -> io::Result<()>
        ensures bytes { Keeps (Some self.old.bytes.items) (Some self.new.bytes.items) }
        ensures stays { self.new.bytes ≡ self.old.bytes }
        ensures counts { CountsCall self.old.call_counts self.new.call_counts result }
        ensures failed { OnErr result (HasFailed self.old.call_counts self.new.call_counts) }
        ensures calm { NoFewer self.old.call_counts self.new.call_counts }
        ensures fails { IsErr result ↔ (room_for_call self.old 0 ≡ 0) }
        ensures kind { AnyErrorIs self.old.kind result }
    {
        // Read once, so that the proof has the range of each count.
        let CallCounts {
            failures: _failures,
            blocked: _blocked,
            calls: _calls,
        } = self.call_counts;
        if self.room(0) == 0 {
            return Err(self.fail());
        }
        self.call_counts.count_call();
        Ok(())
    }
}

impl Sink for FailAt {
    fn write_some(&mut self, buf: &[u8]) -> io::Result<usize> {
        self.write(buf)
    }

    fn flush_out(&mut self) -> io::Result<()> {
        self.flush()
    }
}

impl Seek for FailAt {
    ghost stream_position = { λ d. Some d.position };

    ghost stream_bytes = { λ d. Some d.bytes.items };

    fn seek(&mut self, to: SeekFrom) -> io::Result<u64>
        ensures moves { PositionMoves self.old self.new to result }
        ensures new_position { IfOk result (λ new_position. self.new.position ≡ new_position) }
        ensures stays_there { OnErr result (self.new.position ≡ self.old.position) }
        ensures bytes { Keeps (Some self.old.bytes.items) (Some self.new.bytes.items) }
        ensures stays { self.new.bytes ≡ self.old.bytes }
        ensures counts { CountsCall self.old.call_counts self.new.call_counts result }
        ensures calls { self.new.call_counts.calls ≡ (one_call self.old.call_counts).calls }
        ensures failed { OnErr result (HasFailed self.old.call_counts self.new.call_counts) }
        ensures calm { NoFewer self.old.call_counts self.new.call_counts }
        ensures fails { room_for_call self.old 0 ≡ 0 → FailsWith self.old.kind result }
        // An error elsewhere is a new position before the first byte or past 2^64-1.
        ensures out_of_range { room_for_call self.old 0 ≢ 0 → AnyErrorIs ErrorKind.InvalidInput result }
        ensures start { room_for_call self.old 0 ≢ 0 → (n : ℕ) → to ≡ SeekFrom.Start n → IsOk result }
        ensures end { room_for_call self.old 0 ≢ 0 → to ≡ SeekFrom.End (pos 0) → IsOk result }
    {
        // Read once, so that the proof has the range of each count.
        let CallCounts {
            failures: _failures,
            blocked: _blocked,
            calls: _calls,
        } = self.call_counts;
        if self.room(0) == 0 {
            return Err(self.fail());
        }
        let (base, offset) = match to {
            SeekFrom::Start(new_position) => (new_position, 0),
            SeekFrom::End(offset) => (self.bytes.len() as u64, offset),
            SeekFrom::Current(offset) => (self.position, offset),
        };
        let distance = offset.unsigned_abs();
        let target = if offset < 0 {
            base.checked_sub(distance)
        } else {
            base.checked_add(distance)
        };
        match target {
            Some(new_position) => {
                self.position = new_position;
                self.call_counts.count_call();
                Ok(new_position)
            }
            None => {
                self.call_counts.count_error(ErrorKind::InvalidInput);
                Err(io::Error::from(ErrorKind::InvalidInput))
            }
        }
    }
}

impl Media for FailAt {
    ghost all_bytes = { λ d. Some d.bytes.items };

    fn seek_to(&mut self, offset: u64) -> io::Result<()>
        ensures moves { Seeks (Some self.old.bytes.items) offset (rest_of self.old) (rest_of self.new) result }
        ensures stays { self.new.bytes ≡ self.old.bytes }
        ensures counts { CountsCall self.old.call_counts self.new.call_counts result }
        ensures calls { self.new.call_counts.calls ≡ (one_call self.old.call_counts).calls }
        ensures failed { OnErr result (HasFailed self.old.call_counts self.new.call_counts) }
        ensures calm { NoFewer self.old.call_counts self.new.call_counts }
        ensures fails { IsErr result ↔ (room_for_call self.old 0 ≡ 0) }
    {
        self.seek(SeekFrom::Start(offset))?;
        Ok(())
    }

    fn seek_to_end(&mut self) -> io::Result<u64>
        ensures size { IfOk result (λ n. n ≡ length self.old.bytes.items) }
        ensures moves { SeeksToEnd (Some self.old.bytes.items) (rest_of self.old) (rest_of self.new) result }
        ensures stays { self.new.bytes ≡ self.old.bytes }
        ensures counts { CountsCall self.old.call_counts self.new.call_counts result }
        ensures calls { self.new.call_counts.calls ≡ (one_call self.old.call_counts).calls }
        ensures failed { OnErr result (HasFailed self.old.call_counts self.new.call_counts) }
        ensures calm { NoFewer self.old.call_counts self.new.call_counts }
        ensures fails { IsErr result ↔ (room_for_call self.old 0 ≡ 0) }
    {
        self.seek(SeekFrom::End(0))
    }

    fn read_here(&mut self, buf: &mut [u8]) -> io::Result<usize> {
        self.read(buf)
    }
}

impl ReadSeek for FailAt {
    ghost known_bytes = { λ d. Some d.bytes.items };

    fn move_to(&mut self, offset: u64) -> io::Result<()>
        ensures moves { Seeks (Some self.old.bytes.items) offset (rest_of self.old) (rest_of self.new) result }
        ensures stays { self.new.bytes ≡ self.old.bytes }
        ensures fails { IsErr result ↔ (room_for_call self.old 0 ≡ 0) }
    {
        self.seek_to(offset)
    }

    fn move_to_end(&mut self) -> io::Result<u64>
        ensures size { IfOk result (λ n. n ≡ length self.old.bytes.items) }
        ensures moves { SeeksToEnd (Some self.old.bytes.items) (rest_of self.old) (rest_of self.new) result }
        ensures stays { self.new.bytes ≡ self.old.bytes }
        ensures fails { IsErr result ↔ (room_for_call self.old 0 ≡ 0) }
    {
        self.seek_to_end()
    }

    fn read_on(&mut self, buf: &mut [u8]) -> io::Result<usize> {
        self.read_here(buf)
    }
}
