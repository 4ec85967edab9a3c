//! The threads of all outputs.
ghost use Rattle.std.specs.Prelude.{◌≡◌, ◌≤◌, map, IfOk, vec_len};
ghost use Rattle.std.specs.List.{range_with_len};
ghost use Rattle.frame_ledger.specs.Shares.{AreEmpty, HasPartsBut};
ghost use Rattle.crew.specs.Rows.{drainers_of, firsts_of, numbers_of};
ghost use Rattle.crew_steps.specs.OutputSetups.{feeder_of_setup, drainer_of_setup};

use crate::output_runs::OutputRuns;
use crate::output_start::start_output;
use counted_devices::Sink;
use crew_steps::{Gate, OutputSetup};
use frame_ledger::OutputShares;
use house::{Discarded, House, Ledgers, Written};
use std::alloc::{AllocError, Global};
use std::sync::{Arc, Wait};
use std::thread::Threads;
use std::time::Clock;

/// Starts the thread of each output: the one at each index speaks for the output of that number.
#[tactic(auto, using(crate::proofs::Numbers::one_more))]
pub fn start_outputs<
    L: Ledgers + Send + Sync + 'static,
    O: Sink + Drop + Send + 'static,
    G: Gate + Drop + Send + Sync + 'static,
    R: Threads + Wait + Clock + Copy + Send + 'static,
>(
    rt: R,
    alloc: Global,
    house: &Arc<House<L>, Global>,
    gate: &Arc<G, Global>,
    output_setups: Vec<OutputSetup<O>>,
    shares: OutputShares<Written<L>, Discarded<L>>,
) -> Result<OutputRuns<L>, AllocError>
    requires few { vec_len output_setups ≤ 8 }
    requires parts { HasPartsBut 0 shares }
    requires empty { AreEmpty shares }
    ensures runs { IfOk result (λ r. firsts_of r.runs ≡ map feeder_of_setup output_setups.items) }
    ensures drainers { IfOk result (λ r. drainers_of r.runs ≡ map drainer_of_setup output_setups.items) }
    ensures numbers { IfOk result (λ r. numbers_of r.runs ≡ range_with_len 0 (vec_len output_setups)) }
    ensures count { IfOk result (λ r. vec_len r.runs ≡ vec_len output_setups) }
{
    let OutputShares {
        mut written,
        mut discarded,
    } = shares;
    let mut runs = Vec::new(alloc);
    let mut feeders = Vec::new(alloc);
    for output_setup in output_setups {
        let one = OutputShares {
            written: written.split_off(1, 0),
            discarded: discarded.split_off(1, 0),
        };
        let (run, feeder) = start_output(rt, house, gate, runs.len(), output_setup, one)?;
        runs.push(run)?;
        feeders.push(feeder)?;
    }
    Ok(OutputRuns {
        runs,
        feeders,
        shares: OutputShares { written, discarded },
    })
}
