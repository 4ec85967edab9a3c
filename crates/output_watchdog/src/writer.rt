//! The output's end of the ring.
ghost use Rattle.std.specs.Prelude.{◌≡◌, [], Some, IfOk};
ghost use Rattle.rtrb.specs.Ring.{IsPair, known_free, producer_capacity, received, sent};

use crate::path_writer::PathWriterArguments;
use crate::progress::MOST_BYTES;
use crate::shared_tally::SharedTally;
use rtrb::{Producer, RingBuffer};
use std::alloc::{AllocError, Global};
use std::io;
use std::io::{ErrorKind, Write};
use std::sync::{Arc, Wait};

/// Takes bytes into a ring, and never waits for their path. Its contents are all bytes that went into the ring.
#[derive(Drop)]
pub struct PatientWriter<R: Wait + Copy> {
    rt: R,
    producer: Producer<u8>,
    tally: Arc<SharedTally, Global>,
}

/// The two ends of a new ring: the writer for the output, and what the thread that writes to its path is started
/// with.
pub fn path_channel<R: Wait + Copy>(
    rt: R,
    alloc: Global,
    tally: &Arc<SharedTally, Global>,
) -> Result<(PatientWriter<R>, PathWriterArguments), AllocError>
    ensures pair { IfOk result (λ r. IsPair r.0.producer r.1.consumer) }
    ensures room { IfOk result (λ r. producer_capacity r.0.producer ≡ 65536) }
    ensures empty { IfOk result (λ r. (sent r.0.producer ≡ []) × (received r.1.consumer ≡ [])) }
{
    let to = Arc::try_clone(tally)?;
    let from = Arc::try_clone(tally)?;
    let (producer, consumer) = RingBuffer::new(alloc, MOST_BYTES as usize)?;
    Ok((
        PatientWriter {
            rt,
            producer,
            tally: to,
        },
        PathWriterArguments {
            consumer,
            tally: from,
        },
    ))
}

impl<R: Wait + Copy> Write for PatientWriter<R> {
    ghost use Rattle.std.specs.Prelude.{◌≡◌, Some, length, IfOk, IsOk};
    ghost use Rattle.std.specs.Io.{WritesAtMost};
    ghost use Rattle.std.specs.Io.KnownBytes.{WriteAppends};
    ghost use Rattle.output_watchdog.specs.Writers.{BlocksWhereFull, taken_in};

    ghost contents = { λ w. Some (sent w.producer) };

    /// All bytes, or none: as the path failed, or `WouldBlock` where the ring has no room for them.
    fn write(&mut self, buf: &[u8]) -> io::Result<usize>
        ensures bound { WritesAtMost result buf.now }
        ensures bytes { WriteAppends (taken_in self.old) (taken_in self.new) result buf.now }
        ensures whole { IfOk result (λ n. n ≡ length buf.now) }
        ensures full { BlocksWhereFull (known_free self.new.producer) buf.now result }
    {
        if let Some(kind) = self.tally.fault(&self.rt) {
            return Err(io::Error::from(kind));
        }
        match self.producer.push_entire_slice(buf) {
            Ok(()) => {
                self.tally.gave(&self.rt, buf.len());
                Ok(buf.len())
            }
            Err(_) => Err(io::Error::from(ErrorKind::WouldBlock)),
        }
    }

    /// Nothing is kept but in the ring, for which the end waits.
    fn flush(&mut self) -> io::Result<()>
        ensures succeeds { IsOk result }
        ensures same { self.new ≡ self.old }
    {
        Ok(())
    }
}
