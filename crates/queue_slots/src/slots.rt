//! Lists of slots: what is written in them, and what is done to those of one block.
ghost use Rattle.std.specs.Option.{option_copied};
ghost use Rattle.std.specs.Prelude.{◌≡◌, ◌+◌, ◌<◌, ◌≤◌, ◌==◌, ◌^◌, ◌↔◌, ◌++◌, ◌∷◌, [], length, map, take, drop, vec_len, vec_capacity, true, IfOk, IsTrue, All, if◌then◌else◌, position, slice_get, slice_index_or, slice_set};
ghost use Rattle.std.specs.List.{insert, remove};
ghost use Rattle.queue_slots.specs.declared.entry.Slot.{Slot};
ghost use Rattle.queue_slots.specs.Slots.{kept, written, entries_of, prioritized_slot};
ghost use Rattle.queue_slots.specs.Blocks.{shown_as};

use crate::entry::{Entry, Slot};
use std::alloc::{AllocError, Global};
use std::mem::replace;

/// The same slots in a list of its own, over the same songs.
pub fn copies(alloc: Global, slots: &[Slot]) -> Result<Vec<Slot>, AllocError>
    ensures { IfOk result (λ copies. copies.items ≡ slots.now) }
{
    let mut copies = Vec::with_capacity(alloc, slots.len())?;
    for slot in slots {
        copies.push(copy_of(slot)?)?;
    }
    Ok(copies)
}

fn copy_of(slot: &Slot) -> Result<Slot, AllocError>
    ensures { IfOk result (λ copy. copy ≡ slot.now) }
{
    Ok(Slot {
        entry: Entry {
            song: slot.entry.song.clone()?,
            id: slot.entry.id,
            priority: slot.entry.priority,
        },
        stamp: slot.stamp,
        marked: slot.marked,
    })
}

/// A slot that is written with an entry.
pub fn written_slot(entry: Entry, version: u32, wraps: bool) -> Slot
    ensures { result ≡ written version wraps entry }
{
    Slot {
        entry,
        stamp: version,
        marked: wraps,
    }
}

/// Writes the stamp and the mark that slots show, where they show one for all.
pub fn push_down(slots: &mut Vec<Slot>, alike: bool, top: u32, marked: bool)
    ensures items { slots.new.items ≡ shown_as alike top marked slots.old.items }
    ensures len { vec_len slots.new ≡ vec_len slots.old }
    ensures room { vec_capacity slots.new ≡ vec_capacity slots.old }
{
    if alike {
        write_all(slots.as_mut_slice(), top, marked);
    }
}

/// Marks the slots of a list.
pub fn mark(slots: &mut Vec<Slot>)
    ensures items { slots.new.items ≡ map (kept true) slots.old.items }
    ensures len { vec_len slots.new ≡ vec_len slots.old }
    ensures room { vec_capacity slots.new ≡ vec_capacity slots.old }
{
    mark_all(slots.as_mut_slice());
}

/// Marks slots.
fn mark_all(slots: &mut [Slot])
    ensures { slots.new ≡ map (kept true) slots.old }
{
    for slot in slots {
        slot.marked = true;
    }
}

/// Gives slots a stamp, and a mark where versions begin anew.
fn write_all(slots: &mut [Slot], version: u32, wraps: bool)
    ensures { slots.new ≡ map (written version wraps) (entries_of slots.old) }
{
    for slot in slots {
        slot.stamp = version;
        slot.marked = wraps;
    }
}

/// Gives each entry of a list a priority.
pub fn prioritize(slots: &mut Vec<Slot>, priority: u8, version: u32, wraps: bool)
    ensures items { slots.new.items ≡ map (prioritized_slot version wraps priority) slots.old.items }
    ensures len { vec_len slots.new ≡ vec_len slots.old }
    ensures room { vec_capacity slots.new ≡ vec_capacity slots.old }
{
    prioritize_all(slots.as_mut_slice(), priority, version, wraps);
}

/// Gives each entry a priority. Slots whose entry changes are written, and the others stay.
fn prioritize_all(slots: &mut [Slot], priority: u8, version: u32, wraps: bool)
    ensures { slots.new ≡ map (prioritized_slot version wraps priority) slots.old }
{
    for slot in slots {
        prioritize_one(slot, priority, version, wraps);
    }
}

/// Gives an entry a priority. Its slot is written where that changes it.
fn prioritize_one(slot: &mut Slot, priority: u8, version: u32, wraps: bool)
    ensures { slot.new ≡ prioritized_slot version wraps priority slot.old }
{
    if slot.entry.priority != priority {
        slot.entry.priority = priority;
        slot.stamp = version;
        slot.marked = wraps;
    }
}

/// Moves slots to a list with room for them.
pub fn move_all(to: &mut Vec<Slot>, from: &mut Vec<Slot>)
    requires { vec_len to.old + vec_len from.old ≤ vec_capacity to.old }
    ensures items { to.new.items ≡ to.old.items ++ from.old.items }
    ensures len { vec_len to.new ≡ vec_len to.old + vec_len from.old }
    ensures room { vec_capacity to.old ≤ vec_capacity to.new }
    ensures empty { from.new.items ≡ [] }
    ensures from_room { vec_capacity from.new ≡ vec_capacity from.old }
{
    let _ = to.append(from);
}

/// Puts a slot behind others, where there is room.
pub fn push_slot(to: &mut Vec<Slot>, slot: Slot)
    requires { vec_len to.old < vec_capacity to.old }
    ensures items { to.new.items ≡ to.old.items ++ slot ∷ [] }
    ensures len { vec_len to.new ≡ vec_len to.old + 1 }
    ensures room { vec_capacity to.old ≤ vec_capacity to.new }
{
    let _ = to.push(slot);
}

/// Takes the slot at a position out.
pub fn pull_slot(from: &mut Vec<Slot>, at: usize) -> Slot
    requires { at < vec_len from.old }
    ensures items { from.new.items ≡ remove from.old.items at }
    ensures slot { (d : Slot) → result ≡ slice_index_or from.old.items at d }
    ensures len { vec_len from.new + 1 ≡ vec_len from.old }
    ensures room { vec_capacity from.new ≡ vec_capacity from.old }
{
    from.remove(at)
}

/// Puts a slot in at a position, where there is room.
pub fn put_slot(to: &mut Vec<Slot>, at: usize, slot: Slot)
    requires within { at ≤ vec_len to.old }
    requires room { vec_len to.old < vec_capacity to.old }
    ensures items { to.new.items ≡ insert to.old.items at slot }
    ensures len { vec_len to.new ≡ vec_len to.old + 1 }
    ensures room { vec_capacity to.old ≤ vec_capacity to.new }
{
    let _ = to.insert(at, slot);
}

/// Puts a slot in place of another.
pub fn change_slot(slots: &mut Vec<Slot>, at: usize, slot: Slot) -> Slot
    requires { at < vec_len slots.old }
    ensures items { slots.new.items ≡ slice_set slots.old.items at slot }
    ensures slot { (d : Slot) → result ≡ slice_index_or slots.old.items at d }
    ensures len { vec_len slots.new ≡ vec_len slots.old }
    ensures room { vec_capacity slots.new ≡ vec_capacity slots.old }
{
    replace(&mut slots[at], slot)
}

/// Moves the slots from a position on to an empty list with room for them.
pub fn move_tail(from: &mut Vec<Slot>, at: usize, to: &mut Vec<Slot>)
    requires within { at ≤ vec_len from.old }
    requires empty { to.old.items ≡ [] }
    requires room { vec_len from.old ≤ vec_capacity to.old }
    ensures front { from.new.items ≡ take at from.old.items }
    ensures back { to.new.items ≡ drop at from.old.items }
    ensures from_room { vec_capacity from.new ≡ vec_capacity from.old }
    ensures to_room { vec_capacity to.old ≤ vec_capacity to.new }
{
    while from.len() > at {
        if let Some(slot) = from.pop() {
            let _ = to.push(slot);
        }
    }
    to.reverse();
}

/// The entry at a position.
pub fn entry_at(slots: &[Slot], position: usize) -> Option<&Entry>
    ensures { option_copied result ≡ slice_get (entries_of slots.now) position }
{
    match slots.get(position) {
        Some(slot) => Some(&slot.entry),
        None => None,
    }
}

/// The slots from a position on, at most so many.
pub fn part_of(slots: &[Slot], from: usize, most: usize) -> &[Slot]
    ensures { result.now ≡ take most (drop from slots.now) }
{
    let rest = &slots[from.min(slots.len())..];
    &rest[..most.min(rest.len())]
}

/// The slots from a position on.
pub fn slots_from(slots: &[Slot], position: usize) -> &[Slot]
    requires { position ≤ length slots.now }
    ensures { result.now ≡ drop position slots.now }
{
    &slots[position..]
}

/// The position of the first slot with an id.
pub fn position_in(slots: &[Slot], id: u32) -> Option<usize>
    ensures { result ≡ position (λ s. s.entry.id == id) slots.now }
{
    slots.iter().position(|slot| slot.entry.id == id)
}

/// Whether each entry has a priority.
pub fn all_have_priority(slots: &[Slot], priority: u8) -> bool
    ensures { IsTrue result ↔ All (λ s. s.entry.priority ≡ priority) slots.now }
{
    slots.iter().all(|slot| slot.entry.priority == priority)
}
