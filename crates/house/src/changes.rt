//! How often something changed that a thread at rest is woken for.
ghost use Rattle.std.specs.Prelude.{◌≡◌, ◌+◌, ◌%◌, ◌^◌, if◌then◌else◌};

use crate::counted::Counted;
use crate::ledgers::Ledgers;
use crate::wake_fingerprint::WakeFingerprint;

/// Counts a change, if what a thread at rest is woken for differs from what was seen of it, or if it is woken
/// whatever changed. What was seen is then what there is now.
pub(crate) fn note_change<L: Ledgers>(
    changes: &mut u64,
    seen: &mut WakeFingerprint,
    counted: &Counted<L>,
    always: bool,
) {
    let differs = counted.wakes(seen);
    count_change(changes, always || differs);
}

/// Counts a change, if something changed. The count begins anew after its greatest value.
fn count_change(changes: &mut u64, is_one: bool)
    ensures { changes.new ≡ (if is_one then (changes.old + 1) % 2 ^ 64 else changes.old) }
{
    if is_one {
        *changes = changes.wrapping_add(1);
    }
}
