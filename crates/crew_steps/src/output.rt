//! What an output is let go on by, and what is left of it.
ghost use Rattle.frame_ledger.specs.Shares.{HasOnePart};

use frame_ledger::OutputShares;
use house::{Discarded, Ledgers, Written};
use output_ring::Drainer;

/// Lets an output go on, or tells it to ask again. It is asked before an output takes frames from its ring.
pub trait Gate {
    fn ask(&self, output: usize) -> bool;
}

/// A gate that is always open.
#[derive(Drop)]
pub struct Open;

impl Gate for Open {
    fn ask(&self, _output: usize) -> bool {
        true
    }
}

/// What an output's thread hands back.
#[derive(Drop)]
pub struct OutputEnd<L: Ledgers> {
    pub drainer: Drainer,
    pub shares: OutputShares<Written<L>, Discarded<L>>,
    ghost parts: { HasOnePart shares },
}
