//! Bytes that wait to be written.
use crate::owed::Owed;
use std::alloc::{AllocError, Global};
use std::marker::Model;

/// How large a buffer is kept that has nothing in it.
const KEPT: usize = 65_536;

/// Bytes that wait to be written, the first first. A clause sees these.
#[derive(Drop)]
pub(crate) struct Unsent {
    alloc: Global,
    bytes: Vec<u8>,
    /// How many of the bytes are written. They are let go once they are the larger part, so that a writer
    /// that takes few at a time does not have the rest moved each time.
    written: usize,
}

impl Model for Unsent {
    ghost use Rattle.std.specs.Prelude.{◌≤◌, ℕ, List, drop, length};

    ghost Value = { List ℕ };

    ghost view = { λ u. drop u.written u.bytes.items };

    ghost invariant = { λ u. u.written ≤ length u.bytes.items };
}

impl Unsent {
    ghost use Rattle.std.specs.Prelude.{◌≡◌, ◌≤◌, ◌++◌, drop, false, length, IfOk};
    ghost use Rattle.std.specs.Prelude.{OnErr, OnOk};
    ghost use Rattle.mpd_session.specs.Owing.{is_nothing, owed_bytes};

    pub(crate) fn of(alloc: Global, bytes: &[u8]) -> Result<Unsent, AllocError>
        ensures { IfOk result (λ u. u ≡ bytes.now) }
    {
        Ok(Unsent {
            alloc,
            bytes: Vec::from_slice(alloc, bytes)?,
            written: 0,
        })
    }

    pub(crate) fn as_slice(&self) -> &[u8]
        ensures { result.now ≡ self.now }
    {
        &self.bytes[self.written..]
    }

    /// Puts what is owed after the others. Without memory nothing changes.
    pub(crate) fn push(&mut self, owed: &Owed) -> Result<(), AllocError>
        ensures ok { OnOk result (self.new ≡ self.old ++ owed_bytes owed.now) }
        ensures err { OnErr result (self.new ≡ self.old) }
        ensures some { OnErr result (is_nothing owed.now ≡ false) }
    {
        owed.push_to(self.alloc, &mut self.bytes)
    }

    /// Drops the first bytes, which are written. Where none is left, a large buffer is let go.
    pub(crate) fn drop_front(&mut self, count: usize)
        requires { count ≤ length self.old }
        ensures { self.new ≡ drop count self.old }
    {
        self.written += count;
        if self.written == self.bytes.len() && self.bytes.capacity() > KEPT {
            self.bytes = Vec::new(self.alloc);
            self.written = 0;
        } else if self.written > self.bytes.len() / 2 {
            self.bytes.drain(..self.written);
            self.written = 0;
        }
    }
}
