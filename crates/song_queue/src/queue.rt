//! The queue and its edits.
ghost use Rattle.std.specs.Prelude.{◌≡◌, ◌↔◌, ◌+◌, ◌<◌, ◌≤◌, ◌⊎◌, All, Any, length, map, IfOk, IfSome, nat_le, OnOk, OnErr, IsErrOf, IsOkUnless, slice_get, vec_len};
ghost use Rattle.std.specs.List.{slice_range};
ghost use Rattle.std.specs.Option.{option_copied};
ghost use Rattle.std.specs.Bool.{OnTrue, OnFalse};
ghost use Rattle.song_queue.specs.State.{QueueState, IsQueue, HasPosition, entries_of, queue_of, position_of, inserted, removed, moved, prioritized, swapped, shuffled_state, changed, opened};
ghost use Rattle.song_queue.specs.Refusals.{IsPastEnd, LiesOutside, CannotMove, HasNoRoom, HasNoIds};
ghost use Rattle.song_queue.specs.Laws.{PatchesEarlier};

use crate::entry::{Entry, Slot};
use crate::slots::{
    have_ids, have_priority, ids_of, move_part, new_slots, prioritize, shuffle_slots, stamp_others,
    version_after,
};
use queue_slots::Blocks;
use song_db::SharedSong;
use std::alloc::{AllocError, Global};
use std::marker::Model;
use std::ops::Range;

/// Why a call is refused. Where several apply, the first here is answered.
#[derive(Clone, Copy, PartialEq, Eq)]
pub enum QueueFault {
    /// No entry has the id.
    NoSuchSong,
    /// A position is not in the queue.
    BadIndex,
    /// The queue would have more entries than it may.
    Full,
    /// An id would be above the greatest that may be given.
    NoMoreIds,
    /// A growth was refused.
    NoMemory,
}

impl From<AllocError> for QueueFault {
    ghost use Rattle.song_queue.specs.declared.queue.QueueFault.{QueueFault};
    ghost use Rattle.std.specs.Prelude.{◌≡◌};

    ghost from_gives = { λ _ fault. fault ≡ QueueFault.NoMemory };

    fn from(_: AllocError) -> Self {
        QueueFault::NoMemory
    }
}

/// The queue. Contracts see it as a record: slots with stamp and mark, version, greatest id, limits and
/// parity.
#[derive(Drop)]
pub struct Queue {
    slots: Blocks,
    version: u32,
    greatest_id: u32,
    max_len: usize,
    max_version: u32,
    max_id: u32,
    parity: bool,
}

impl Model for Queue {
    ghost use Rattle.song_queue.specs.Fields.{state_in};
    ghost use Rattle.song_queue.specs.State.{QueueState, IsQueue};

    ghost Value = { QueueState };

    ghost view = { state_in };

    ghost invariant = { λ q. IsQueue (state_in q) };
}

impl Queue {
    /// An empty queue of at most `max_len` entries, whose versions end at `max_version` and ids at `max_id`.
    pub fn new(alloc: Global, max_len: usize, max_version: u32, max_id: u32) -> Queue
        requires { 1 ≤ max_version }
        ensures { result ≡ opened max_len max_version max_id }
    {
        Queue {
            slots: Blocks::new(alloc),
            version: 1,
            greatest_id: 0,
            max_len,
            max_version,
            max_id,
            parity: false,
        }
    }

    /// A queue that answers as this one. An edit of either leaves the other as it is. No song is copied.
    pub fn try_clone(&self) -> Result<Queue, AllocError>
        ensures { IfOk result (λ copy. copy ≡ self.now) }
    {
        let copies = self.slots.copies(0, self.slots.len())?;
        let slots = Blocks::from_slots(self.slots.allocator(), copies)?;
        Ok(Queue {
            slots,
            version: self.version,
            greatest_id: self.greatest_id,
            max_len: self.max_len,
            max_version: self.max_version,
            max_id: self.max_id,
            parity: self.parity,
        })
    }

    /// How many entries there are.
    pub fn len(&self) -> usize
        ensures len { result ≡ length (queue_of self.now) }

        // Ids are distinct, versions and lengths within their limits.
        ensures valid { IsQueue self.now }
    {
        self.slots.len()
    }

    /// Whether so many more entries have room.
    pub fn has_room(&self, count: usize) -> bool
        ensures { result ≡ nat_le (length (queue_of self.now) + count) self.now.max_len }
    {
        count <= self.max_len - self.slots.len()
    }

    /// Whether there is an id for each of so many more entries.
    pub fn has_ids(&self, count: usize) -> bool
        ensures { result ≡ nat_le (self.now.greatest_id + count) self.now.max_id }
    {
        count <= (self.max_id - self.greatest_id) as usize
    }

    /// The greatest id that was given; 0 at first.
    pub fn greatest_id(&self) -> u32
        ensures { result ≡ self.now.greatest_id }
    {
        self.greatest_id
    }

    /// The version of the last edit that changed something; 1 at first.
    pub fn version(&self) -> u32
        ensures { result ≡ self.now.version }
    {
        self.version
    }

    /// Whether the number of edits that changed something is odd. It flips with each of them, even where the
    /// version stays as it was.
    pub fn parity(&self) -> bool
        ensures { result ≡ self.now.parity }
    {
        self.parity
    }

    /// The entry at a position.
    pub fn get(&self, position: usize) -> Option<&Entry>
        ensures { option_copied result ≡ slice_get (queue_of self.now) position }
    {
        self.slots.get(position)
    }

    /// The entries from a position up to another, or to the end of its block where that comes first, for loops
    /// over the queue: each slot has its entry. What else a slot has is not what the queue shows of it.
    pub fn run(&self, from: usize, end: usize) -> &[Slot]
        requires order { from < end }
        requires within { end ≤ length (queue_of self.now) }
        ensures some { 0 < length result.now }
        ensures most { from + length result.now ≤ end }
        ensures part { entries_of result.now ≡ slice_range (queue_of self.now) from (from + length result.now) }
    {
        let run = self.slots.run(from);
        let count = run.len().min(end - from);
        &run[..count]
    }

    /// The position of the entry with an id.
    pub fn position_of(&self, id: u32) -> Option<usize>
        ensures position { result ≡ position_of self.now id }
        ensures within { IfSome result (HasPosition self.now) }
    {
        self.slots.position_of(id)
    }

    /// The positions that a client has to learn that knows the queue of a version, rising (MPD protocol
    /// reference, `plchanges`).
    pub fn changed_since(&self, version: u32) -> Result<Vec<usize>, AllocError>
        ensures positions { IfOk result (λ positions. positions.items ≡ map (λ row. row.0) (changed self.now version)) }
        ensures patches { IfOk result (λ positions. PatchesEarlier self.now version positions.items) }
    {
        let positions = self.slots.changed_positions(version, self.version)?;
        Ok(positions)
    }

    /// Puts songs in before the entry at a position, or at the end; the songs of a refused call are dropped.
    pub fn insert(&mut self, at: usize, songs: Vec<SharedSong>) -> Result<(), QueueFault>
        ensures ok { OnOk result (self.new ≡ inserted self.old at songs.items) }
        ensures no_such_song { IsErrOf result QueueFault.NoSuchSong → ⊥ }
        ensures bad_index { IsErrOf result QueueFault.BadIndex ↔ (length (queue_of self.old) < at) }
        ensures full { IsErrOf result QueueFault.Full ↔ HasNoRoom self.old at (vec_len songs) }
        ensures no_more_ids { IsErrOf result QueueFault.NoMoreIds ↔ HasNoIds self.old at (vec_len songs) }
        ensures err { OnErr result (self.new ≡ self.old) }
    {
        let len = self.slots.len();
        let count = songs.len();
        if at > len {
            return Err(QueueFault::BadIndex);
        }
        if count > self.max_len - len {
            return Err(QueueFault::Full);
        }
        if count > (self.max_id - self.greatest_id) as usize {
            return Err(QueueFault::NoMoreIds);
        }
        if count == 0 {
            return Ok(());
        }
        let (version, wraps) = version_after(self.version, self.max_version);
        let alloc = self.slots.allocator();
        let added = new_slots(alloc, self.greatest_id, songs)?;
        self.slots.put_in(at, added, version, wraps)?;
        self.greatest_id += count as u32;
        self.version = version;
        self.parity = !self.parity;
        Ok(())
    }

    /// Takes the entries of a range out. It takes no memory.
    pub fn remove(&mut self, range: Range<usize>) -> Result<(), QueueFault>
        ensures ok { OnOk result (self.new ≡ removed self.old range.start range.end) }
        ensures bad_index { IsErrOf result QueueFault.BadIndex ↔ LiesOutside self.old range }
        ensures faults { IsOkUnless result QueueFault.BadIndex }
        ensures err { OnErr result (self.new ≡ self.old) }
    {
        let Range { start, end } = range;
        if lies_outside(start, end, self.slots.len()) {
            return Err(QueueFault::BadIndex);
        }
        if start == end {
            return Ok(());
        }
        let (version, wraps) = version_after(self.version, self.max_version);
        self.slots.take_out(start, end, version, wraps);
        self.version = version;
        self.parity = !self.parity;
        Ok(())
    }

    /// Takes the entries of a range out, and puts them back so that the first of them is at a position of what
    /// is left. An empty range changes nothing, whatever the position. It takes no memory.
    pub fn move_range(&mut self, range: Range<usize>, to: usize) -> Result<(), QueueFault>
        ensures ok { OnOk result (self.new ≡ moved self.old range.start range.end to) }
        ensures bad_index { IsErrOf result QueueFault.BadIndex ↔ CannotMove self.old range to }
        ensures faults { IsOkUnless result QueueFault.BadIndex }
        ensures err { OnErr result (self.new ≡ self.old) }
    {
        let Range { start, end } = range;
        let len = self.slots.len();
        if lies_outside(start, end, len) {
            return Err(QueueFault::BadIndex);
        }
        if start == end {
            return Ok(());
        }
        if to > len - (end - start) {
            return Err(QueueFault::BadIndex);
        }
        if to == start {
            return Ok(());
        }
        let (version, wraps) = version_after(self.version, self.max_version);
        move_part(&mut self.slots, start, end, to, version, wraps);
        self.version = version;
        self.parity = !self.parity;
        Ok(())
    }

    /// Gives each entry whose position is in one of the ranges a priority. Ranges may be empty and may overlap.
    /// It takes no memory.
    pub fn set_prio(&mut self, ranges: &[Range<usize>], priority: u8) -> Result<(), QueueFault>
        ensures ok { OnOk result (self.new ≡ prioritized self.old ranges.now priority) }
        ensures bad_index { IsErrOf result QueueFault.BadIndex ↔ Any (LiesOutside self.old) ranges.now }
        ensures faults { IsOkUnless result QueueFault.BadIndex }
        ensures err { OnErr result (self.new ≡ self.old) }
    {
        if any_lies_outside(ranges, self.slots.len()) {
            return Err(QueueFault::BadIndex);
        }
        if have_priority(&self.slots, ranges, priority) {
            return Ok(());
        }
        let (version, wraps) = version_after(self.version, self.max_version);
        prioritize(&mut self.slots, ranges, priority, version, wraps);
        self.version = version;
        self.parity = !self.parity;
        Ok(())
    }

    /// Swaps the entries at two positions; a position with itself changes nothing. It takes no memory.
    pub fn swap(&mut self, a: usize, b: usize) -> Result<(), QueueFault>
        ensures ok { OnOk result (self.new ≡ swapped self.old a b) }
        ensures bad_index { IsErrOf result QueueFault.BadIndex ↔ (IsPastEnd self.old a ⊎ IsPastEnd self.old b) }
        ensures faults { IsOkUnless result QueueFault.BadIndex }
        ensures err { OnErr result (self.new ≡ self.old) }
    {
        let len = self.slots.len();
        if a >= len || b >= len {
            return Err(QueueFault::BadIndex);
        }
        if a == b {
            return Ok(());
        }
        let (version, wraps) = version_after(self.version, self.max_version);
        self.slots.exchange(a.min(b), a.max(b), version, wraps);
        self.version = version;
        self.parity = !self.parity;
        Ok(())
    }

    /// Shuffles the entries of a range. From its last position down to its second, each takes a word; where
    /// words end early, the positions before stay as they are then. It is one change, or none where each entry
    /// is at its position again.
    pub fn shuffle(&mut self, range: Range<usize>, words: &[u32]) -> Result<(), QueueFault>
        ensures ok { OnOk result (self.new ≡ shuffled_state self.old range.start range.end words.now) }
        ensures bad_index { IsErrOf result QueueFault.BadIndex ↔ LiesOutside self.old range }
        ensures no_such_song { IsErrOf result QueueFault.NoSuchSong → ⊥ }
        ensures full { IsErrOf result QueueFault.Full → ⊥ }
        ensures no_more_ids { IsErrOf result QueueFault.NoMoreIds → ⊥ }
        ensures err { OnErr result (self.new ≡ self.old) }
    {
        let Range { start, end } = range;
        if lies_outside(start, end, self.slots.len()) {
            return Err(QueueFault::BadIndex);
        }
        let mut part = self.slots.copies(start, end)?;
        let ids = ids_of(self.slots.allocator(), &part)?;
        shuffle_slots(part.as_mut_slice(), words);
        if have_ids(&part, &ids) {
            return Ok(());
        }
        let (version, wraps) = version_after(self.version, self.max_version);
        stamp_others(part.as_mut_slice(), &ids, version, wraps);
        self.slots.put_back(start, part, wraps);
        self.version = version;
        self.parity = !self.parity;
        Ok(())
    }
}

/// Whether a range does not lie within so many entries.
fn lies_outside(start: usize, end: usize, len: usize) -> bool
    ensures outside { OnTrue result ((end < start) ⊎ (len < end)) }
    ensures within { OnFalse result ((start ≤ end) × (end ≤ len)) }
{
    start > end || end > len
}

/// Whether one of the ranges does not lie within so many entries.
fn any_lies_outside(ranges: &[Range<usize>], len: usize) -> bool
    ensures outside { OnTrue result (Any (λ r. (r.end < r.start) ⊎ (len < r.end)) ranges.now) }
    ensures within { OnFalse result (All (λ r. (r.start ≤ r.end) × (r.end ≤ len)) ranges.now) }
{
    for range in ranges {
        if lies_outside(range.start, range.end, len) {
            return true;
        }
    }
    false
}
