//! The thread's end of the ring.
ghost use Rattle.std.specs.Prelude.{◌≡◌, ◌≤◌, length, take, true};
ghost use Rattle.std.specs.Io.KnownBytes.{Appends};
ghost use Rattle.rtrb.specs.Ring.{received};
ghost use Rattle.output_watchdog.specs.PathWriting.{WritesAll, WritesFirst};

use crate::shared_tally::SharedTally;
use rtrb::Consumer;
use std::alloc::Global;
use std::io::{ErrorKind, Write};
use std::sync::{Arc, Wait};
use std::thread;
use std::time::{Clock, Duration};

/// The most bytes of one write: a FIFO takes so many as one piece, which no reader's end tears.
const PIECE: usize = 4_096;

/// How many milliseconds lie between a reader's end and the path's new opening, and between two writes to a path
/// without room.
const PAUSE: u64 = 100;

/// A path that can be opened anew.
pub trait Reopening: Write {
    /// Lets go what is open. The next write opens the path.
    fn let_go(&mut self)
        ensures { Self.contents self.new ≡ Self.contents self.old };
}

/// What the thread that writes to an output's path takes with it.
#[derive(Drop)]
pub struct PathWriterArguments {
    pub consumer: Consumer<u8>,
    pub tally: Arc<SharedTally, Global>,
}

/// What it hands back.
#[derive(Drop)]
pub struct PathWriterEnd<W> {
    pub consumer: Consumer<u8>,
    pub path: W,
}

/// Writes what is in the ring to the path until the output ends or the path fails. It waits for the path as long as
/// that takes. Where the path's reader went away, it is opened anew, which waits for another.
pub fn copy_to_path<R: Wait + Clock, W: Reopening + Drop>(
    rt: &R,
    arguments: PathWriterArguments,
    path: W,
) -> PathWriterEnd<W>
    ensures { WritesFirst (received arguments.consumer) (received result.consumer) (W.contents path) (W.contents result.path) }
{
    let PathWriterArguments {
        mut consumer,
        tally,
    } = arguments;
    let mut path = path;
    for _ in rt.forever() {
        if !copy_piece(rt, &mut consumer, &tally, &mut path) {
            return PathWriterEnd { consumer, path };
        }
    }
    unreachable!()
}

/// Writes a piece of what is in the ring, or waits until there is one. False where that was the last.
fn copy_piece<R: Wait + Clock, W: Reopening>(
    rt: &R,
    consumer: &mut Consumer<u8>,
    tally: &SharedTally,
    path: &mut W,
) -> bool
    ensures first { WritesFirst (received consumer.old) (received consumer.new) (W.contents path.old) (W.contents path.new) }
    ensures all { result ≡ true → WritesAll (received consumer.old) (received consumer.new) (W.contents path.old) (W.contents path.new) }
{
    let mut piece = [0u8; PIECE];
    let count = consumer.pop_partial_slice(&mut piece);
    let written = write_piece(rt, tally, path, &piece[..count]);
    written == count && (count > 0 || tally.await_bytes(rt))
}

/// Writes the bytes of a piece, and says how many: all, but where the path failed, or the output has ended and nobody
/// reads.
fn write_piece<R: Wait + Clock, W: Reopening>(
    rt: &R,
    tally: &SharedTally,
    path: &mut W,
    piece: &[u8],
) -> usize
    ensures most { result ≤ length piece.now }
    ensures bytes { Appends (W.contents path.old) (W.contents path.new) (take result piece.now) }
{
    let mut done = 0;
    for _ in rt.forever() {
        if done == piece.len() {
            return done;
        }
        let kind = match path.write(&piece[done..]) {
            Ok(0) => ErrorKind::WriteZero,
            Ok(count) => {
                done += count;
                tally.took(rt, count);
                continue;
            }
            Err(fault) => fault.kind(),
        };
        if !goes_on_after(rt, tally, path, kind) {
            return done;
        }
    }
    unreachable!()
}

/// Whether a piece is written again after such a fault: where the write was interrupted, the reader went away, or the
/// path has no room now.
fn goes_on_after<R: Wait + Clock, W: Reopening>(
    rt: &R,
    tally: &SharedTally,
    path: &mut W,
    kind: ErrorKind,
) -> bool
    ensures { W.contents path.new ≡ W.contents path.old }
{
    match kind {
        ErrorKind::Interrupted => true,
        ErrorKind::BrokenPipe => {
            path.let_go();
            goes_on_after_pause(rt, tally)
        }
        ErrorKind::WouldBlock => goes_on_after_pause(rt, tally),
        _ => {
            tally.fail(rt, kind);
            false
        }
    }
}

/// Waits for a while, and says whether the output still gives.
fn goes_on_after_pause<R: Wait + Clock>(rt: &R, tally: &SharedTally) -> bool {
    thread::sleep(rt, Duration::from_millis(PAUSE));
    !tally.ends(rt)
}
