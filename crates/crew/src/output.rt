//! What is had of the outputs' threads.
ghost use Rattle.frame_ledger.specs.Shares.{HasOnePart};
ghost use Rattle.output_ring.specs.Rings.{AreEnds};
ghost use Rattle.crew.specs.Promises.{HandsBack};

use crew_steps::OutputEnd;
use frame_ledger::OutputShares;
use house::{Discarded, EndedRing, Ledgers, Written};
use output_ring::{Drainer, Feeder};
use std::snapshot::Snapshot;
use std::thread::{Promise, PromisedHandle};

/// The output's end is of the ring of this drainer, with which the output of this number ran until it was
/// told of the end.
#[derive(Drop)]
pub struct OfOutput {
    pub output: usize,
    pub drainer: Snapshot<Drainer>,
}

impl<L: Ledgers> Promise<OutputEnd<L>> for OfOutput {
    ghost kept_by = { λ p r. HandsBack p.output p.drainer.value r.drainer };
}

/// The thread of an output that runs, with the feeder of its ring.
#[derive(Drop)]
pub struct OutputRun<L: Ledgers> {
    pub handle: PromisedHandle<OutputEnd<L>, OfOutput>,
    pub first: Snapshot<Feeder>,
    ghost pair: { AreEnds first.value handle.promise.drainer.value },
}

/// What an output's thread leaves: its ring, of which the feeder has ended too, and its shares.
#[derive(Drop)]
pub(crate) struct OutputLeft<L: Ledgers> {
    pub(crate) ring: EndedRing,
    pub(crate) shares: OutputShares<Written<L>, Discarded<L>>,
    ghost parts: { HasOnePart shares },
}
