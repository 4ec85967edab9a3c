//! What the daemon prints at its end.
ghost use Rattle.journal.specs.End as ends;
ghost use Rattle.std.specs.Prelude.{◌≡◌, IfOk, map, string_bytes};

use crate::fault::DaemonFault;
use frame_ledger::{SettleFault, Settled};
use house::{Ledgers, Settlement};
use journal::{end_text, tell};
use std::alloc::{AllocError, Global};
use std::io;

/// Tells on standard error what became of the frames of all outputs, in one line.
pub(crate) fn tell_end<L: Ledgers>(rt: &HostRuntime, outputs: &[Settlement<L>]) {
    if let Ok(line) = end_line(rt.alloc(), outputs) {
        tell(rt, line.as_str());
    }
}

fn end_line<L: Ledgers>(alloc: Global, outputs: &[Settlement<L>]) -> Result<String, AllocError>
    ensures { IfOk result (λ text. string_bytes text ≡ ends.end_text (map (λ o. o.result) outputs.now)) }
{
    let mut results = Vec::new(alloc);
    'outputs: for output in outputs {
        results.push(output.result)?;
    }
    end_text(alloc, &results)
}

/// Prints a line for each output: how many frames were decoded for it, written, discarded, and left.
pub(crate) fn print_summary<L: Ledgers>(
    rt: &HostRuntime,
    outputs: &[Settlement<L>],
) -> Result<(), DaemonFault> {
    for (number, output) in outputs.iter().enumerate() {
        if print_output(rt, number, &output.result).is_err() {
            return Err(DaemonFault::WriteFault);
        }
    }
    Ok(())
}

fn print_output(
    rt: &HostRuntime,
    number: usize,
    output: &Result<Settled, SettleFault>,
) -> io::Result<()> {
    match output {
        Ok(frames) => println!(rt;
            "output {number}: decoded {} written {} discarded {} left {}",
            frames.decoded, frames.written, frames.discarded, frames.left
        ),
        Err(_) => println!(rt; "output {number}: unsettled"),
    }
}
