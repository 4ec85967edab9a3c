//! The threads of all outputs, which run.
ghost use Rattle.std.specs.Prelude.{◌≡◌, map, vec_len};
ghost use Rattle.std.specs.List.{range_with_len};
ghost use Rattle.frame_ledger.specs.Shares.{HasPartsBut};
ghost use Rattle.crew.specs.Rows.{first_of_run, output_of_run};

use crate::output::OutputRun;
use frame_ledger::OutputShares;
use house::{Discarded, Ledgers, Written};
use output_ring::Feeder;

/// The threads of all outputs, the feeder of each one's ring, and the parts of the shares that no output has.
#[derive(Drop)]
pub struct OutputRuns<L: Ledgers> {
    pub runs: Vec<OutputRun<L>>,
    pub feeders: Vec<Feeder>,
    pub shares: OutputShares<Written<L>, Discarded<L>>,
    ghost numbers: { map output_of_run runs.items ≡ range_with_len 0 (vec_len runs) },
    ghost rings: { map first_of_run runs.items ≡ feeders.items },
    ghost parts: { HasPartsBut (vec_len runs) shares },
}
