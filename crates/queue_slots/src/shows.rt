//! Which slots are shown to a client.
ghost use Rattle.std.specs.Prelude.{◌≡◌, ◌++◌, ◌+◌, ◌^◌, ◌<◌, ◌||◌, nat_lt, OnOk, length};
ghost use Rattle.std.specs.List.{range_with_len};
ghost use Rattle.queue_slots.specs.Blocks.{shown_from, position_if_shown};

use crate::entry::Slot;
use std::alloc::AllocError;

/// Whether a slot with a stamp and a mark is shown to a client that knows a version.
pub fn shows(stamp: u32, marked: bool, version: u32, present: u32) -> bool
    ensures { result ≡ (marked || nat_lt version stamp || nat_lt present version) }
{
    marked || version < stamp || present < version
}

/// Adds all positions from one on.
pub fn push_all(positions: &mut Vec<usize>, at: usize, count: usize) -> Result<(), AllocError>
    requires { at + count < 2 ^ 64 }
    ensures { OnOk result (positions.new.items ≡ positions.old.items ++ range_with_len at count) }
{
    for step in 0..count {
        positions.push(at + step)?;
    }
    Ok(())
}

/// Adds the positions of the slots that are shown.
pub fn push_shown(
    positions: &mut Vec<usize>,
    at: usize,
    slots: &[Slot],
    version: u32,
    present: u32,
) -> Result<(), AllocError>
    requires { at + length slots.now < 2 ^ 64 }
    ensures { OnOk result (positions.new.items ≡ positions.old.items ++ shown_from version present at slots.now) }
{
    for (step, slot) in slots.iter().enumerate() {
        push_one(positions, at + step, slot, version, present)?;
    }
    Ok(())
}

/// Adds the position of a slot, if that is shown.
fn push_one(
    positions: &mut Vec<usize>,
    position: usize,
    slot: &Slot,
    version: u32,
    present: u32,
) -> Result<(), AllocError>
    ensures { OnOk result (positions.new.items ≡ positions.old.items ++ position_if_shown version present position slot.now) }
{
    if shows(slot.stamp, slot.marked, version, present) {
        positions.push(position)?;
    }
    Ok(())
}
