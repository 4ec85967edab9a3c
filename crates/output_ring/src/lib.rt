//! A wait-free ring of frames between a decoder and an output, whose two ends account for each frame:
//! what was taken is written or discarded, in order, then held, in the ring, or owed.
#![tactic(auto)]

ghost use Rattle.std.specs.Prelude.{◌≡◌, IfOk};
ghost use Rattle.output_ring.specs.Runs.{runs_for};
ghost use Rattle.output_ring.specs.Rings.{AreEnds, HasNoFates, HasNoFrames, HasTakenNothing};

pub mod drainer;
pub mod feeder;
pub mod frames;
mod inlet;
mod outgoing;
mod outlet;
mod runs;

pub use drainer::Drainer;
pub use feeder::{Feeder, FeederEnd, MOST_FRAMES};
pub use frames::{Cut, CutFrame, Fates, Live, Totals, WriteFault};
use inlet::Inlet;
use outlet::Outlet;
use rtrb::RingBuffer;
use std::alloc::{AllocError, Global};

/// A ring with room for `capacity` frames, whose drainer holds up to `hand` frames at a time.
pub fn ring(alloc: Global, capacity: usize, hand: usize) -> Result<(Feeder, Drainer), AllocError>
    ensures ends { IfOk result (λ r. AreEnds r.0 r.1) }
    ensures feeder { IfOk result (λ r. HasTakenNothing r.0 capacity) }
    ensures frames { IfOk result (λ r. HasNoFrames r.1 hand) }
    ensures counts { IfOk result (λ r. HasNoFates r.1) }
{
    let (frames_in, frames_out) = RingBuffer::new(alloc, capacity)?;
    let (runs_in, runs_out) = RingBuffer::new(alloc, most_runs(capacity))?;
    let feeder = Feeder::new(alloc, Inlet::new(frames_in, runs_in))?;
    let drainer = Drainer::new(alloc, Outlet::new(frames_out, runs_out), hand)?;
    Ok((feeder, drainer))
}

/// How many runs a ring of so many frames has room for. A block of 1,024 frames makes one run, and one more
/// for each time that the ring has no room for all of it, so that a run for 32 frames is more than enough.
fn most_runs(capacity: usize) -> usize
    ensures { result ≡ runs_for capacity }
{
    capacity.min((capacity / 32).max(64)).max(1)
}
