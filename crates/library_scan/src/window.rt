//! A file that is read some kilobytes at a time.
ghost use Rattle.std.specs.Prelude.{None, ◌≡◌, ◌≤◌, ◌<◌, ◌++◌, length, take, min, ◌+◌, ◌-◌, ◌^◌, OnOk};
ghost use Rattle.std.specs.Io.{ReadsAtMost};
ghost use Rattle.std.specs.Io.KnownBytes.{ReadConsumes};
ghost use Rattle.counted_devices.specs.CallCounts.{NoFewer, CountsCall, one_call, count_up};
ghost use Rattle.library_scan.specs.Windows.{whole, from_offset, left, ErrorHasCause, FailsAs, StandAt, with_calls};

use counted_devices::{CallCounts, Failing, Media, Source};
use std::io;
use std::io::Read;

/// How many bytes are read at a time.
const WIDTH: usize = 4_096;

/// A file whose bytes are read some kilobytes at a time, wherever they lie: the head of most files takes one
/// read. Its length is the one that it had when it was looked at. Its calls are counted apart from those of
/// the file, and fail where one of these failed.
#[derive(Drop)]
pub struct Windowed<M: Media> {
    file: M,
    len: u64,
    calls: u64,
    offset: u64,
    start: u64,
    filled: usize,
    bytes: [u8; 4_096],
    ghost fits: { filled ≤ 4096 },
    ghost short: { len < 2 ^ 64 },
    ghost counted: { calls < 2 ^ 64 },
    ghost stands: { StandAt (M.all_bytes file) start (take filled bytes) },
}

impl<M: Media> Windowed<M> {
    ghost use Rattle.library_scan.specs.Views.{left_in, IsAtFileEnd, IsPastFileEnd};

    /// A file of this length, of which nothing was read yet.
    pub fn new(file: M, len: u64) -> Windowed<M>
        ensures file { result.file ≡ file }
        ensures len { result.len ≡ len }
        ensures calls { result.calls ≡ 0 }
    {
        Windowed {
            file,
            len,
            calls: 0,
            offset: 0,
            start: 0,
            filled: 0,
            bytes: [0; WIDTH],
        }
    }

    /// The file inside.
    pub fn into_file(self) -> M
        ensures { result ≡ self.file }
    {
        self.file
    }

    /// Counts a call.
    fn count_call(&mut self)
        ensures file { self.new.file ≡ self.old.file }
        ensures len { self.new.len ≡ self.old.len }
        ensures offset { self.new.offset ≡ self.old.offset }
        ensures calls { self.new.calls ≡ count_up self.old.calls }
    {
        self.calls = self.calls.saturating_add(1);
    }

    /// The bytes from the offset on that were read already.
    fn ahead(&self) -> &[u8]
        ensures stand { StandAt (M.all_bytes self.now.file) self.now.offset result.now }
        ensures len { length result.now ≡ left self.now.offset self.now.start self.now.filled }
    {
        match self.offset.checked_sub(self.start) {
            Some(gone) if gone < self.filled as u64 => &self.bytes[gone as usize..self.filled],
            _ => &[],
        }
    }

    /// Reads the bytes from the offset on, as many as one read gives.
    fn refill(&mut self) -> io::Result<()>
        ensures file { M.all_bytes self.new.file ≡ M.all_bytes self.old.file }
        ensures len { self.new.len ≡ self.old.len }
        ensures offset { self.new.offset ≡ self.old.offset }
        ensures calls { self.new.calls ≡ self.old.calls }
        ensures read { OnOk result (self.new.start ≡ self.old.offset) }
        ensures ends { OnOk result (self.new.filled ≡ 0 → IsPastFileEnd self.old) }
        ensures fails { FailsAs (M.call_counts self.old.file) (M.call_counts self.new.file) result }
        ensures failed { ErrorHasCause (M.call_counts self.old.file) (M.call_counts self.new.file) result }
        ensures calm { NoFewer (M.call_counts self.old.file) (M.call_counts self.new.file) }
    {
        self.filled = 0;
        self.file.seek_to(self.offset)?;
        let n = self.file.read_here(&mut self.bytes)?;
        self.start = self.offset;
        self.filled = n;
        Ok(())
    }

    /// Reads bytes from the offset on, where none were read yet and some are left.
    fn make_ready(&mut self) -> io::Result<()>
        ensures file { M.all_bytes self.new.file ≡ M.all_bytes self.old.file }
        ensures len { self.new.len ≡ self.old.len }
        ensures offset { self.new.offset ≡ self.old.offset }
        ensures calls { self.new.calls ≡ self.old.calls }
        ensures ends { OnOk result (left_in self.new ≡ 0 → IsAtFileEnd self.old) }
        ensures fails { FailsAs (M.call_counts self.old.file) (M.call_counts self.new.file) result }
        ensures failed { ErrorHasCause (M.call_counts self.old.file) (M.call_counts self.new.file) result }
        ensures calm { NoFewer (M.call_counts self.old.file) (M.call_counts self.new.file) }
    {
        if !self.ahead().is_empty() {
            return Ok(());
        }
        if self.offset >= self.len {
            return Ok(());
        }
        self.refill()
    }

    /// Gives bytes from the offset on that were read already, as many as there is room for.
    fn give(&mut self, buf: &mut [u8]) -> usize
        ensures count { result ≡ min (left self.old.offset self.old.start self.old.filled) (length buf.old) }
        ensures stand { StandAt (M.all_bytes self.old.file) self.old.offset (take result buf.new) }
        ensures file { self.new.file ≡ self.old.file }
        ensures len { self.new.len ≡ self.old.len }
        ensures calls { self.new.calls ≡ self.old.calls }
        ensures offset { self.new.offset ≡ min (self.old.offset + result) (2 ^ 64 - 1) }
        ensures later { self.old.offset ≤ self.new.offset }
    {
        let ahead = self.ahead();
        let n = ahead.len().min(buf.len());
        buf[..n].copy_from_slice(&ahead[..n]);
        self.offset = self.offset.saturating_add(n as u64);
        n
    }
}

// What failed is what failed of the file.
impl<M: Media> Failing for Windowed<M> {
    ghost call_counts = { λ w. with_calls w.calls (M.call_counts w.file) };

    fn counts(&self) -> CallCounts {
        CallCounts {
            calls: self.calls,
            ..self.file.counts()
        }
    }
}

impl<M: Media> Read for Windowed<M> {
    ghost use Rattle.library_scan.specs.Views.{rest_in, whole_in};

    ghost remaining = { λ w. from_offset w.offset (whole (M.all_bytes w.file) w.len) };

    fn read(&mut self, buf: &mut [u8]) -> io::Result<usize>
        ensures bound { ReadsAtMost result buf.new }
        ensures bytes { ReadConsumes (rest_in self.old) (rest_in self.new) result buf.new }
        ensures stays { whole_in self.new ≡ whole_in self.old }
        ensures calls { self.new.calls ≡ count_up self.old.calls }
        ensures fails { FailsAs (M.call_counts self.old.file) (M.call_counts self.new.file) result }
        ensures failed { ErrorHasCause (M.call_counts self.old.file) (M.call_counts self.new.file) result }
        ensures calm { NoFewer (M.call_counts self.old.file) (M.call_counts self.new.file) }
    {
        self.count_call();
        self.make_ready()?;
        Ok(self.give(buf))
    }
}

impl<M: Media> Source for Windowed<M> {
    fn read_some(&mut self, buf: &mut [u8]) -> io::Result<usize> {
        self.read(buf)
    }
}

// The bytes are those of the file inside, where it knows them and has as many as were told.
impl<M: Media> Media for Windowed<M> {
    ghost all_bytes = { λ w. whole (M.all_bytes w.file) w.len };

    fn seek_to(&mut self, offset: u64) -> io::Result<()> {
        self.count_call();
        self.offset = offset;
        Ok(())
    }

    fn seek_to_end(&mut self) -> io::Result<u64> {
        self.count_call();
        self.offset = self.len;
        Ok(self.len)
    }

    fn read_here(&mut self, buf: &mut [u8]) -> io::Result<usize> {
        self.read(buf)
    }
}
