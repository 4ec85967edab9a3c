//! The start of an output's thread.
ghost use Rattle.std.specs.Prelude.{◌≡◌, IfOk, false};
ghost use Rattle.frame_ledger.specs.Shares.{HasOnePart};
ghost use Rattle.output_ring.specs.Rings.{SameDrainer, has_failed};
ghost use Rattle.crew.specs.Promises.{HandsBack};
ghost use Rattle.crew.specs.Rows.{drainer_of_run, output_of_run};
ghost use Rattle.crew_steps.specs.Turns.{HasRun};

use crate::output::{OfOutput, OutputRun};
use counted_devices::Sink;
use crew_steps::{Draining, Gate, OutputEnd, OutputSetup};
use frame_ledger::OutputShares;
use house::{Discarded, House, Ledgers, Written};
use output_ring::{Drainer, Feeder};
use std::alloc::{AllocError, Global};
use std::snapshot::Snapshot;
use std::sync::{Arc, Wait};
use std::thread;
use std::thread::{PromisedHandle, Threads};
use std::time::Clock;

/// What the thread of an output takes with it.
#[derive(Drop)]
struct OutputArguments<L: Ledgers, O, G> {
    gate: Arc<G, Global>,
    output: usize,
    writer: O,
    shares: OutputShares<Written<L>, Discarded<L>>,
    ghost parts: { HasOnePart shares },
}

/// Drains frames until it is told of the end.
#[tactic(auto, using(crate::proofs::Numbers::ran))]
fn drain<L: Ledgers, O: Sink + Drop, G: Gate + Drop, R: Wait + Clock + Copy>(
    rt: R,
    house: Arc<House<L>, Global>,
    arguments: OutputArguments<L, O, G>,
    drainer: Drainer,
) -> OutputEnd<L>
    requires { has_failed drainer ≡ false }
    ensures ring { SameDrainer drainer result.drainer }
    ensures runs { HasRun arguments.output drainer result.drainer }
{
    let OutputArguments {
        gate,
        output,
        writer,
        shares,
    } = arguments;
    Draining::new(&rt, &*house, &*gate, output, writer, shares).run(drainer)
}

/// Starts the thread of an output.
fn start_thread<
    L: Ledgers + Send + Sync + 'static,
    O: Sink + Drop + Send + 'static,
    G: Gate + Drop + Send + Sync + 'static,
    R: Threads + Wait + Clock + Copy + Send + 'static,
>(
    rt: R,
    house: Arc<House<L>, Global>,
    arguments: OutputArguments<L, O, G>,
    drainer: Drainer,
) -> Result<PromisedHandle<OutputEnd<L>, OfOutput>, AllocError>
    requires { has_failed drainer ≡ false }
    ensures output { IfOk result (λ handle. handle.promise.output ≡ arguments.output) }
    ensures drainer { IfOk result (λ handle. handle.promise.drainer.value ≡ drainer) }
{
    let of_output = OfOutput {
        output: arguments.output,
        drainer: Snapshot::of(&drainer),
    };
    let handle = thread::spawn_with(
        &rt,
        of_output,
        move || -> OutputEnd<L>
            requires { has_failed drainer ≡ false }
            ensures { HandsBack arguments.output drainer result.drainer }
        { drain(rt, house, arguments, drainer) },
    )?;
    Ok(handle)
}

/// Starts the thread of an output, and gives the decoder's end of its ring.
pub(crate) fn start_output<
    L: Ledgers + Send + Sync + 'static,
    O: Sink + Drop + Send + 'static,
    G: Gate + Drop + Send + Sync + 'static,
    R: Threads + Wait + Clock + Copy + Send + 'static,
>(
    rt: R,
    house: &Arc<House<L>, Global>,
    gate: &Arc<G, Global>,
    output: usize,
    output_setup: OutputSetup<O>,
    shares: OutputShares<Written<L>, Discarded<L>>,
) -> Result<(OutputRun<L>, Feeder), AllocError>
    requires { HasOnePart shares }
    ensures first { IfOk result (λ r. r.0.first.value ≡ output_setup.feeder) }
    ensures drainer { IfOk result (λ r. drainer_of_run r.0 ≡ output_setup.drainer) }
    ensures feeder { IfOk result (λ r. r.1 ≡ output_setup.feeder) }
    ensures output { IfOk result (λ r. output_of_run r.0 ≡ output) }
{
    let OutputSetup {
        feeder,
        drainer,
        writer,
    } = output_setup;
    let house = Arc::try_clone(house)?;
    let gate = Arc::try_clone(gate)?;
    let first = Snapshot::of(&feeder);
    let arguments = OutputArguments {
        gate,
        output,
        writer,
        shares,
    };
    let handle = start_thread(rt, house, arguments, drainer)?;
    Ok((OutputRun { handle, first }, feeder))
}
