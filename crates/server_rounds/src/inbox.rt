//! What a socket is read through.
ghost use Rattle.std.specs.Prelude.{◌≡◌, true, false, length};
ghost use Rattle.std.specs.Io.{ReadsAtMost};
ghost use Rattle.std.specs.Io.KnownBytes.{ReadConsumes};
ghost use Rattle.server_rounds.specs.Inboxes.{WouldBlock, took_all};

use std::io;
use std::io::{ErrorKind, Read};

/// A socket that is read, or left alone, and whether all that came by it was read.
#[derive(Drop)]
pub struct Inbox<R> {
    socket: R,
    may_read: bool,
    is_drained: bool,
}

impl<R> Inbox<R> {
    /// Where it may not be read, each read would block.
    pub fn new(socket: R, may_read: bool) -> Inbox<R>
        ensures { result ≡ record { socket = socket; may_read = may_read; is_drained = false } }
    {
        Inbox {
            socket,
            may_read,
            is_drained: false,
        }
    }

    /// Whether the last read took all that had come: the system then tells of more.
    pub fn is_drained(&self) -> bool
        ensures { result ≡ self.now.is_drained }
    {
        self.is_drained
    }
}

impl<R: Read> Read for Inbox<R> {
    ghost remaining = { λ inbox. R.remaining inbox.socket };

    fn read(&mut self, buf: &mut [u8]) -> io::Result<usize>
        ensures bound { ReadsAtMost result buf.new }
        ensures bytes { ReadConsumes (R.remaining self.old.socket) (R.remaining self.new.socket) result buf.new }
        ensures may_read { self.new.may_read ≡ self.old.may_read }
        ensures alone { self.old.may_read ≡ false → WouldBlock result }
        ensures drained { self.old.may_read ≡ true → self.new.is_drained ≡ took_all result (length buf.new) }
    {
        if !self.may_read {
            return Err(io::Error::from(ErrorKind::WouldBlock));
        }
        let read = self.socket.read(buf);
        self.is_drained = match &read {
            Ok(count) => *count < buf.len(),
            Err(_) => true,
        };
        read
    }
}
