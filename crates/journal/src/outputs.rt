//! What is told of an output.
ghost use Rattle.std.specs.Prelude.{◌≡◌, IfOk, option_map, string_bytes};
ghost use Rattle.journal.specs.Outputs as outputs;

use std::alloc::{AllocError, Global};

/// The line of an output that was switched off since its path takes nothing, or switched on again. None where
/// it stays as it was.
pub fn silence_text(
    alloc: Global,
    output: usize,
    path: &str,
    was_silent: bool,
    is_silent: bool,
) -> Result<Option<String>, AllocError>
    ensures { IfOk result (λ text. option_map string_bytes text
        ≡ outputs.silence_text output path.now was_silent is_silent) }
{
    if was_silent == is_silent {
        return Ok(None);
    }
    let text = if is_silent {
        format!(in alloc; "output {output}: switched off, since {path} takes nothing")?
    } else {
        format!(in alloc; "output {output}: switched on again ({path})")?
    };
    Ok(Some(text))
}

/// The line of an output that failed.
pub fn failure_text(
    alloc: Global,
    output: usize,
    path: &str,
    why: &str,
) -> Result<String, AllocError>
    ensures { IfOk result (λ text. string_bytes text ≡ outputs.failure_text output path.now why.now) }
{
    format!(in alloc; "output {output}: cannot write {path}: {why}; off until the next start")
}
