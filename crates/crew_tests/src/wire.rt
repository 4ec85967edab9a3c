//! A wire from an output to a test.
use crate::rooms::{OUTPUTS, Watch};
use crate::tunes::Tone;
use counted_devices::Counting;
use rtrb::{Consumer, Producer, RingBuffer};
use std::alloc::{AllocError, Global};
use std::io::{ErrorKind, Write};
use std::time::{Clock, Duration};
use std::{io, thread};
use test_texts::Recorder;

/// The end of a wire that an output writes to. It fails once it is full, and nobody empties it before the
/// outputs are settled.
#[derive(Drop)]
pub(crate) struct Wire {
    bytes: Producer<u8>,
}

impl Write for Wire {
    fn write(&mut self, buf: &[u8]) -> io::Result<usize> {
        for i in 0..buf.len() {
            if self.bytes.push(buf[i]).is_err() {
                return if i > 0 {
                    Ok(i)
                } else {
                    Err(io::Error::from(ErrorKind::Other))
                };
            }
        }
        Ok(buf.len())
    }

    fn flush(&mut self) -> io::Result<()> {
        Ok(())
    }
}

/// A wire with room for so many bytes: the end for an output, and the end for the test.
pub(crate) fn new_wire(alloc: Global, room: usize) -> Result<(Wire, Consumer<u8>), AllocError> {
    let (bytes, taken) = RingBuffer::<u8>::new(alloc, room)?;
    Ok((Wire { bytes }, taken))
}

/// The test's ends of the wires, in the order of the outputs. A step `NAME N` waits until N frames came to the output
/// of this name, and `only N` says whether these and no more came to the attic by a twentieth of a second later.
#[derive(Drop)]
pub(crate) struct Wires {
    ends: Vec<Consumer<u8>>,
}

impl Wires {
    /// Waits until so many frames came to the output of this name, ten seconds at most. Whether they came.
    fn come<R: Clock>(&mut self, rt: &R, name: &str, frames: usize) -> bool {
        let Some(index) = OUTPUTS.lines().position(|known| known == name) else {
            return false;
        };
        match self.ends.get_mut(index) {
            Some(wire) => frames_come(rt, wire, frames),
            None => false,
        }
    }
}

impl<R: Clock> Watch<R> for Wires {
    fn does(&mut self, rt: &R, step: &str) -> bool {
        match step.split_once(' ') {
            Some(("only", frames)) => {
                thread::sleep(rt, Duration::from_millis(50));
                let expected = frames.parse().unwrap_or(0usize).saturating_mul(4);
                match self.ends.get_mut(1) {
                    Some(attic) => attic.slots() == expected,
                    None => false,
                }
            }
            Some((name, frames)) => self.come(rt, name, frames.parse().unwrap_or(0)),
            None => false,
        }
    }
}

/// A wire for each output, with room for so many bytes: the ends of the outputs, and those of the test.
pub(crate) fn wires_of(
    alloc: Global,
    rooms: &[usize],
) -> Result<(Vec<Counting<Wire>>, Wires), AllocError> {
    let mut writers = Vec::new(alloc);
    let mut ends = Vec::new(alloc);
    for room in rooms {
        let (writer, end) = new_wire(alloc, *room)?;
        writers.push(Counting::new(writer))?;
        ends.push(end)?;
    }
    Ok((writers, Wires { ends }))
}

/// Adds how many frames that came to each of the first outputs are those of a formula, from the first on.
pub(crate) fn add_right(wires: &mut Wires, tones: &[Tone], recorder: &mut Recorder) {
    recorder.add("right frames");
    let mut is_first = true;
    for ((wire, tone), name) in wires.ends.iter_mut().zip(tones).zip(OUTPUTS.lines()) {
        let right = right_frames(wire, *tone);
        if !is_first {
            recorder.add(",");
        }
        recorder.add(format_args!(" in the {name} {right}"));
        is_first = false;
    }
    recorder.add("\n");
}

/// Waits until so many frames came over a wire, ten seconds at most. Whether they came.
fn frames_come<R: Clock>(rt: &R, wire: &mut Consumer<u8>, frames: usize) -> bool {
    let expected = frames.saturating_mul(4);
    for _ in 0..10_000u32 {
        if wire.slots() >= expected {
            return true;
        }
        thread::sleep(rt, Duration::from_millis(1));
    }
    false
}

/// Whether the next two bytes of a wire are those of a sample, the low one first.
fn is_next(wire: &mut Consumer<u8>, sample: i32) -> bool {
    let low = wire.pop().ok();
    let high = wire.pop().ok();
    low == Some((sample & 255) as u8) && high == Some(((sample >> 8) & 255) as u8)
}

/// How many frames that came over a wire are those of a formula, from the first on.
fn right_frames(wire: &mut Consumer<u8>, tone: Tone) -> u32 {
    let mut right = 0;
    for i in 0..100_000i32 {
        let (left, other) = tone.frame(i);
        if !is_next(wire, left) || !is_next(wire, other) {
            break;
        }
        right = i.unsigned_abs().saturating_add(1);
    }
    right
}
