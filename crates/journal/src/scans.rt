//! What is told of the start and of each later scan.
ghost use Rattle.std.specs.Prelude.{◌≡◌, IfOk, string_bytes};
ghost use Rattle.std.specs.List.{flat_map};
ghost use Rattle.journal.specs.Scans as scans;

use settings::{OutputSettings, Settings};
use std::alloc::{AllocError, Global};

/// The line of the start: the version, where clients connect, each output with its path, and what was found
/// in the folder of the music.
pub fn start_text(
    alloc: Global,
    version: &str,
    settings: &Settings,
    found: &str,
) -> Result<String, AllocError>
    ensures { IfOk result (λ text. string_bytes text
        ≡ scans.start_text version.now settings.now found.now) }
{
    let outputs = outputs_text(alloc, &settings.outputs)?;
    let address = settings.listen.as_str();
    format!(in alloc; "version {version} listens at {address}{outputs}; {found}")
}

/// Each output with its path.
fn outputs_text(alloc: Global, outputs: &[OutputSettings]) -> Result<String, AllocError>
    ensures { IfOk result (λ text. string_bytes text ≡ flat_map scans.output_text outputs.now) }
{
    let mut text = String::new(alloc);
    'outputs: for output in outputs {
        text.push_str(", output ")?;
        text.push_str(output.name.as_str())?;
        text.push_str(" at ")?;
        text.push_str(output.path.as_str())?;
    }
    Ok(text)
}

/// The line of a scan that a client asked for: how many milliseconds it took, where the clock could be read,
/// and what was found.
pub fn rescan_text(alloc: Global, found: &str, time: Option<u128>) -> Result<String, AllocError>
    ensures { IfOk result (λ text. string_bytes text ≡ scans.rescan_text found.now time) }
{
    match time {
        Some(time) => format!(in alloc; "scan in {time} ms: {found}"),
        None => format!(in alloc; "scan: {found}"),
    }
}
