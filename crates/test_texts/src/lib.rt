//! What tests expect. A test that returns what a call of these returns passes only where something was observed
//! and it is what is expected.
#![tactic(auto)]

ghost use Rattle.std.specs.Prelude.{◌≡◌, ◌≢◌, IfOk, IsOk, OnErr, OnOk, string_bytes};
ghost use Rattle.test_texts.specs.Both.{IfBoth};

mod parting;
mod recorder;

use crate::parting::Parting;
pub use recorder::Recorder;
use std::alloc::AllocError;
use std::test::Fail;

/// Something is observed, and it is what is expected. Where it is not, the fault names the first line that differs.
pub fn wants<E: Drop>(observed: Result<String, E>, expected: &str) -> Result<(), Fail>
    ensures observed { OnOk result (IsOk observed) }
    ensures expected { OnOk result (IfOk observed (λ text. string_bytes text ≡ expected.now)) }
    ensures differs { OnErr result (IfOk observed (λ text. string_bytes text ≢ expected.now)) }
{
    let Ok(text) = observed else {
        return Err(Fail::new("a fault"));
    };
    if text.as_str() == expected {
        return Ok(());
    }
    Err(fail_at(Parting::of(text.as_str(), expected)))
}

fn fail_at(parting: Parting<'_>) -> Fail {
    let Parting {
        line,
        before,
        observed,
        expected,
    } = parting;
    let [third, second, first] = before;
    Fail::new(format_args!(
        "line {line} is\n  {observed}\nand not\n  {expected}\nbehind\n  {third}\n  {second}\n  {first}"
    ))
}

/// The same of a text that is made.
pub fn wants_made<E: Drop>(
    observed: Result<String, E>,
    expected: Result<String, AllocError>,
) -> Result<(), Fail>
    ensures observed { OnOk result (IsOk observed) }
    ensures made { OnOk result (IsOk expected) }
    ensures expected { OnOk result (IfBoth observed expected (λ text made. string_bytes text ≡ string_bytes made)) }
    ensures differs { OnErr result (IfBoth observed expected (λ text made. string_bytes text ≢ string_bytes made)) }
{
    wants(observed, expected?.as_str())
}
