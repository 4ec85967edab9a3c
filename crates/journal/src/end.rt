//! What is told at the end.
ghost use Rattle.std.specs.Prelude.{◌≡◌, IfOk, length, string_bytes};
ghost use Rattle.journal.specs.End as ends;

use frame_ledger::{SettleFault, Settled};
use std::alloc::{AllocError, Global};

/// Which frames of an output are counted.
#[derive(Clone, Copy)]
enum Fate {
    Decoded,
    Written,
    Discarded,
    Left,
}

/// The line of the end: the frames of all outputs in sum, and how many outputs do not balance.
pub fn end_text(
    alloc: Global,
    outputs: &[Result<Settled, SettleFault>],
) -> Result<String, AllocError>
    ensures { IfOk result (λ text. string_bytes text ≡ ends.end_text outputs.now) }
{
    let decoded = total(outputs, Fate::Decoded);
    let written = total(outputs, Fate::Written);
    let discarded = total(outputs, Fate::Discarded);
    let left = total(outputs, Fate::Left);
    let unsettled = unsettled_text(alloc, outputs)?;
    format!(in alloc;
        "end: decoded {decoded} written {written} discarded {discarded} left {left}{unsettled}"
    )
}

/// How many outputs do not balance, where there are some.
fn unsettled_text(
    alloc: Global,
    outputs: &[Result<Settled, SettleFault>],
) -> Result<String, AllocError>
    ensures { IfOk result (λ text. string_bytes text ≡ ends.unsettled_text outputs.now) }
{
    let count = outputs.iter().filter(|output| output.is_err()).count();
    if count == 0 {
        return Ok(String::new(alloc));
    }
    let all = outputs.len();
    format!(in alloc; ", {count} of {all} outputs unsettled")
}

/// So many frames had this fate, of all outputs that balance.
fn total(outputs: &[Result<Settled, SettleFault>], fate: Fate) -> u64
    ensures { result ≡ ends.total fate outputs.now }
{
    let mut sum: u64 = 0;
    'outputs: for output in outputs {
        sum = sum.saturating_add(frames(output, fate));
    }
    sum
}

/// So many frames of an output had this fate; none are known of one that does not balance.
fn frames(output: &Result<Settled, SettleFault>, fate: Fate) -> u64
    ensures { result ≡ ends.frames fate output.now }
{
    match (output, fate) {
        (Ok(settled), Fate::Decoded) => settled.decoded,
        (Ok(settled), Fate::Written) => settled.written,
        (Ok(settled), Fate::Discarded) => settled.discarded,
        (Ok(settled), Fate::Left) => settled.left,
        (Err(_), _) => 0,
    }
}
