//! Slots of the queue: what is written in them, and what edits of several parts do to them.
ghost use Rattle.std.specs.Prelude.{◌≡◌, ◌≢◌, ◌+◌, ◌-◌, ◌<◌, ◌≤◌, ◌==◌, ◌^◌, ◌↔◌, length, map, vec_len, IfOk, IsTrue, All, AllPairs, if◌then◌else◌};
ghost use Rattle.song_queue.specs.State.{entries_of, restamped, stamped_slot, stamped_by};
ghost use Rattle.song_queue.specs.Entries.{entries_for, moved_to, with_priority};
ghost use Rattle.song_queue.specs.Shuffles.{shuffled};

use crate::entry::{Entry, Slot};
use queue_slots::Blocks;
use song_db::SharedSong;
use std::alloc::{AllocError, Global};
use std::ops::Range;

/// The version after one, and whether versions begin anew.
pub fn version_after(version: u32, max_version: u32) -> (u32, bool)
    requires { version ≤ max_version }
    ensures next { result.0 ≡ (if version == max_version then 1 else version + 1) }
    ensures wraps { result.1 ≡ (version == max_version) }
{
    if version == max_version {
        (1, true)
    } else {
        (version + 1, false)
    }
}

/// Slots for songs, whose ids come after one.
pub fn new_slots(
    alloc: Global,
    mut id: u32,
    songs: Vec<SharedSong>,
) -> Result<Vec<Slot>, AllocError>
    requires { id + vec_len songs < 2 ^ 32 }
    ensures { IfOk result (λ slots. entries_of slots.items ≡ entries_for (id + 1) songs.items) }
{
    let mut slots = Vec::new(alloc);
    for song in songs {
        id += 1;
        slots.push(Slot {
            entry: Entry {
                song,
                id,
                priority: 0,
            },
            stamp: 1,
            marked: false,
        })?;
    }
    Ok(slots)
}

/// Takes the entries from `start` up to `end` out, and puts them back so that the first of them is at a position
/// of what is left. Slots whose entry changes are written, and the others kept.
pub fn move_part(slots: &mut Blocks, start: usize, end: usize, to: usize, version: u32, wraps: bool)
    requires some { start < end }
    requires elsewhere { to ≢ start }
    requires within { end ≤ length slots.old }
    requires room { to + (end - start) ≤ length slots.old }
    requires distinct { AllPairs (λ a b. a.id ≢ b.id) (entries_of slots.old) }
    ensures { slots.new ≡ restamped version wraps slots.old (moved_to (entries_of slots.old) start end to) }
{
    if to < start {
        slots.rotate(to, start, end, version, wraps);
    } else {
        // No position is above the length, which is a number of 64 bits.
        let _ = slots.len();
        slots.rotate(start, end, to + (end - start), version, wraps);
    }
}

/// Whether each entry in some ranges has a priority.
pub fn have_priority(slots: &Blocks, ranges: &[Range<usize>], priority: u8) -> bool
    requires { All (λ r. (r.start ≤ r.end) × (r.end ≤ length slots.now)) ranges.now }
    ensures { IsTrue result ↔ (entries_of slots.now ≡ with_priority (entries_of slots.now) ranges.now priority) }
{
    for range in ranges {
        if !slots.part_has_priority(range.start, range.end, priority) {
            return false;
        }
    }
    true
}

/// Gives each entry in some ranges a priority. Slots whose entry changes are written, and the others kept.
pub fn prioritize(
    slots: &mut Blocks,
    ranges: &[Range<usize>],
    priority: u8,
    version: u32,
    wraps: bool,
)
    requires { All (λ r. (r.start ≤ r.end) × (r.end ≤ length slots.old)) ranges.now }
    ensures { slots.new ≡ restamped version wraps slots.old (with_priority (entries_of slots.old) ranges.now priority) }
{
    slots.keep(wraps);
    for range in ranges {
        slots.prioritize_part(range.start, range.end, priority, version, wraps);
    }
}

/// The id of the entry in each slot.
pub fn ids_of(alloc: Global, slots: &[Slot]) -> Result<Vec<u32>, AllocError>
    ensures { IfOk result (λ ids. ids.items ≡ map (λ s. s.entry.id) slots.now) }
{
    slots.iter().map(|slot| slot.entry.id).collect(alloc)
}

/// Shuffles slots by words. Each keeps its stamp and mark for now.
pub fn shuffle_slots(slots: &mut [Slot], words: &[u32])
    ensures { slots.new ≡ shuffled slots.old 0 (length slots.old) words.now }
{
    let mut end = slots.len();
    for word in words {
        if end <= 1 {
            return;
        }
        end -= 1;
        let chosen = *word as usize % (end + 1);
        slots.swap(end, chosen);
    }
}

/// Whether the entries in slots have these ids.
pub fn have_ids(slots: &[Slot], ids: &[u32]) -> bool
    requires { length ids.now ≡ length slots.now }
    ensures { IsTrue result ↔ (map (λ s. s.entry.id) slots.now ≡ ids.now) }
{
    for (position, id) in ids.iter().enumerate() {
        if slots[position].entry.id != *id {
            return false;
        }
    }
    true
}

/// Writes the slots whose entry has another id than these, position by position, and keeps the others.
pub fn stamp_others(slots: &mut [Slot], ids: &[u32], version: u32, wraps: bool)
    requires { length ids.now ≡ length slots.old }
    ensures { slots.new ≡ stamped_by version wraps ids.now slots.old }
{
    for (position, id) in ids.iter().enumerate() {
        stamp_other(&mut slots[position], *id, version, wraps);
    }
}

/// Writes a slot whose entry has another id than this, and keeps it else.
fn stamp_other(slot: &mut Slot, id: u32, version: u32, wraps: bool)
    ensures { slot.new ≡ stamped_slot version wraps id slot.old }
{
    if slot.entry.id != id {
        slot.stamp = version;
        slot.marked = wraps;
    } else {
        slot.marked = wraps || slot.marked;
    }
}
