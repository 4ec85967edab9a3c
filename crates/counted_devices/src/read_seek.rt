//! Readers that can be set to any offset of their bytes.
ghost use Rattle.std.specs.Prelude.{◌≡◌, ℕ, List, Option, None, length, IfSome, IfOk, IsOk};
ghost use Rattle.std.specs.Io.{ReadsAtMost};
ghost use Rattle.std.specs.Io.KnownBytes.{ReadConsumes};
ghost use Rattle.std.specs.Io.Cursor.{cursor_inner};
ghost use Rattle.counted_devices.specs.Bytes.{Seeks, SeeksToEnd, CursorSeeks, CursorSeeksToEnd};

use std::fs::File;
use std::io;
use std::io::{AsBytes, Cursor, Read, Seek, SeekFrom};

/// A reader that can be set to any offset of its bytes, so that what remains to be read is known after a
/// seek wherever its bytes are. Each call is one read or one seek.
pub trait ReadSeek: Read + Seek {
    // All its bytes from the first on, where they are known.
    ghost known_bytes: { Self → Option (List ℕ) };

    /// Sets the reader to an offset, counted in bytes from the first. After the last byte nothing remains.
    fn move_to(&mut self, offset: u64) -> io::Result<()>
        ensures moves { Seeks (known_bytes self.old) offset (Self.remaining self.old) (Self.remaining self.new) result }
        ensures stays { known_bytes self.new ≡ known_bytes self.old };

    /// Sets the reader after its last byte, and gives how many bytes there are.
    fn move_to_end(&mut self) -> io::Result<u64>
        ensures size { IfSome (known_bytes self.old) (λ bytes. IfOk result (λ n. n ≡ length bytes)) }
        ensures moves { SeeksToEnd (known_bytes self.old) (Self.remaining self.old) (Self.remaining self.new) result }
        ensures stays { known_bytes self.new ≡ known_bytes self.old };

    /// Reads as `Read::read` does, from where the reader is, and leaves all bytes as they were.
    fn read_on(&mut self, buf: &mut [u8]) -> io::Result<usize>
        ensures bound { ReadsAtMost result buf.new }
        ensures bytes { ReadConsumes (Self.remaining self.old) (Self.remaining self.new) result buf.new }
        ensures stays { known_bytes self.new ≡ known_bytes self.old };
}

// Nothing is known of a file's bytes.
impl ReadSeek for File {
    ghost known_bytes = { λ _. None };

    fn move_to(&mut self, offset: u64) -> io::Result<()> {
        self.seek(SeekFrom::Start(offset))?;
        Ok(())
    }

    fn move_to_end(&mut self) -> io::Result<u64> {
        self.seek(SeekFrom::End(0))
    }

    fn read_on(&mut self, buf: &mut [u8]) -> io::Result<usize> {
        self.read(buf)
    }
}

impl<T: AsBytes> ReadSeek for Cursor<T> {
    ghost known_bytes = { λ c. T.bytes (cursor_inner c) };

    // In memory a seek cannot fail, so the position is set.
    fn move_to(&mut self, offset: u64) -> io::Result<()>
        ensures moves { CursorSeeks T.bytes offset self.old self.new result }
        ensures stays { T.bytes (cursor_inner self.new) ≡ T.bytes (cursor_inner self.old) }
        ensures passes { IsOk result }
    {
        self.set_position(offset);
        Ok(())
    }

    fn move_to_end(&mut self) -> io::Result<u64>
        ensures size { IfSome (T.bytes (cursor_inner self.old)) (λ bytes. IfOk result (λ n. n ≡ length bytes)) }
        ensures moves { CursorSeeksToEnd T.bytes self.old self.new result }
        ensures stays { T.bytes (cursor_inner self.new) ≡ T.bytes (cursor_inner self.old) }
        ensures passes { IsOk result }
    {
        let size = self.get_ref().as_byte_slice().len() as u64;
        self.set_position(size);
        Ok(size)
    }

    fn read_on(&mut self, buf: &mut [u8]) -> io::Result<usize> {
        self.read(buf)
    }
}
