//! The rings of the outputs.
ghost use Rattle.std.specs.Prelude.{◌≡◌, ◌≤◌, IfOk, vec_len};
ghost use Rattle.crew_steps.specs.OutputSetups.{AreSetupsOf, IsSetupOf};

use crate::output_setup::OutputSetup;
use output_ring::ring;
use std::alloc::{AllocError, Global};

/// A ring of so many frames for each writer, with a hand of 1,024 frames.
pub fn output_setups<O: Drop>(
    alloc: Global,
    frames: usize,
    writers: Vec<O>,
) -> Result<Vec<OutputSetup<O>>, AllocError>
    ensures count { IfOk result (λ output_setups. vec_len output_setups ≡ vec_len writers) }
    ensures output_setups { IfOk result (AreSetupsOf frames writers) }
{
    let mut output_setups = Vec::new(alloc);
    output_setups.reserve(writers.len())?;
    for writer in writers {
        let output_setup = output_setup(alloc, frames, writer)?;
        output_setups.push_reserved(output_setup);
    }
    Ok(output_setups)
}

/// A writer's ring.
fn output_setup<O: Drop>(
    alloc: Global,
    frames: usize,
    writer: O,
) -> Result<OutputSetup<O>, AllocError>
    ensures { IfOk result (λ s. IsSetupOf frames writer s) }
{
    let (feeder, drainer) = ring(alloc, frames, 1_024)?;
    Ok(OutputSetup {
        feeder,
        drainer,
        writer,
    })
}
