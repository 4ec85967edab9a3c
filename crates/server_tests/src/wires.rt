//! Readers and writers that do only some of what they could.
use std::alloc::{AllocError, Global};
use std::io;
use std::io::{ErrorKind, Read, Write};
use test_texts::Recorder;

/// What a reader does once its bytes are read.
#[derive(Clone, Copy)]
pub(crate) enum Then {
    Blocks,
    Ends,
    Fails,
}

/// A reader of some bytes.
#[derive(Drop)]
pub(crate) struct Feed<'a> {
    bytes: &'a [u8],
    then: Then,
}

impl<'a> Feed<'a> {
    pub(crate) fn new(bytes: &'a [u8], then: Then) -> Feed<'a> {
        Feed { bytes, then }
    }

    pub(crate) fn is_empty(&self) -> bool {
        self.bytes.is_empty()
    }
}

impl Read for Feed<'_> {
    fn read(&mut self, buf: &mut [u8]) -> io::Result<usize> {
        if self.bytes.is_empty() {
            return match self.then {
                Then::Blocks => Err(io::Error::from(ErrorKind::WouldBlock)),
                Then::Ends => Ok(0),
                Then::Fails => Err(io::Error::from(ErrorKind::ConnectionReset)),
            };
        }
        let mut bytes = self.bytes;
        let read = bytes.read(buf);
        self.bytes = bytes;
        read
    }
}

/// How a writer takes bytes.
#[derive(Clone, Copy)]
pub(crate) enum Takes {
    /// All.
    All,
    /// So many at a time.
    AtMost(usize),
    /// So many at a time, and between two writes it would block.
    Haltingly(usize),
    /// So many in all, and then it would block.
    UpTo(usize),
    /// So many in all, and then it fails.
    FailsAfter(usize),
}

/// A writer over memory.
#[derive(Drop)]
pub(crate) struct Pipe {
    bytes: Vec<u8>,
    takes: Takes,
    is_halted: bool,
}

impl Pipe {
    pub(crate) fn new(bytes: Vec<u8>, takes: Takes) -> Pipe {
        Pipe {
            bytes,
            takes,
            is_halted: false,
        }
    }

    pub(crate) fn bytes(&self) -> &[u8] {
        self.bytes.as_slice()
    }

    /// How many bytes are taken of so many, or why none are.
    fn count(&mut self, all: usize) -> io::Result<usize> {
        match self.takes {
            Takes::All => Ok(all),
            Takes::AtMost(most) => Ok(all.min(most)),
            Takes::Haltingly(most) => {
                self.is_halted = !self.is_halted;
                if self.is_halted {
                    Ok(all.min(most))
                } else {
                    Err(io::Error::from(ErrorKind::WouldBlock))
                }
            }
            Takes::UpTo(most) => {
                let room = most.saturating_sub(self.bytes.len());
                if room == 0 {
                    return Err(io::Error::from(ErrorKind::WouldBlock));
                }
                Ok(all.min(room))
            }
            Takes::FailsAfter(most) => {
                let room = most.saturating_sub(self.bytes.len());
                if room == 0 {
                    return Err(io::Error::from(ErrorKind::BrokenPipe));
                }
                Ok(all.min(room))
            }
        }
    }
}

impl Write for Pipe {
    fn write(&mut self, buf: &[u8]) -> io::Result<usize> {
        let count = self.count(buf.len())?.min(buf.len());
        match self.bytes.extend_from_slice(&buf[..count]) {
            Ok(()) => Ok(count),
            Err(AllocError) => Err(io::Error::from(ErrorKind::OutOfMemory)),
        }
    }

    fn flush(&mut self) -> io::Result<()> {
        Ok(())
    }
}

/// What is observed without its letters `x`.
pub(crate) fn without_x(
    alloc: Global,
    observed: Result<String, AllocError>,
) -> Result<String, AllocError> {
    let mut rest = Recorder::new(alloc);
    for word in observed?.split('x') {
        if !word.is_empty() {
            rest.add(word);
        }
    }
    rest.into_text()
}
