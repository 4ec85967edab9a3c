//! A sequence of slots in blocks.
//!
//! An edit in front of a long queue moves every entry behind it, and each gets the version of the edit as
//! its stamp, since its position is another. In one list that is a write of each. Here a block says in one
//! flag that all its slots are alike: they show the block's stamp and mark, whatever is written in them. So
//! an edit cuts two blocks, changes the list of blocks, and flags those behind: a cost by blocks and not by
//! entries. A flag is written down (pushed down) only where a block is joined to another or an entry of it gets
//! a stamp of its own.
//!
//! The stamp of a block that is not alike is a bound: none of its slots has a greater one. To ask what
//! changed since a version passes over each block whose bound is not greater. The bound is exact after an
//! edit that writes the whole block, and may be too great after a slot has left, which costs a look and no
//! answer.
//!
//! The key of an id's block is a hint, with no invariant: where it is wrong, all blocks are looked at. Ids
//! are distinct, so what is found is the one entry, and no clause has to follow the keys through cuts and
//! joins.
ghost use Rattle.std.specs.Prelude.{◌≡◌, ◌≢◌, ◌≤◌, ◌+◌, ◌-◌, ◌^◌, ◌<◌, ◌==◌, ◌↔◌, [], All, AllPairs, IfOk, IfSome, IsTrue, OnOk, OnErr, position, slice_get, length, map, vec_len};
ghost use Rattle.std.specs.List.{slice_range};
ghost use Rattle.std.specs.Option.{option_copied};
ghost use Rattle.queue_slots.specs.Blocks.{shown_from, with_exchanged, with_part_prioritized};
ghost use Rattle.queue_slots.specs.Slots.{positions_shown, with_parts_rotated, with_put_back, with_put_in, with_taken_out};
ghost use Rattle.queue_slots.specs.Slots.{kept, entries_of};

use crate::block::{Block, Spare};
use crate::entry::{Entry, Slot};
use crate::index::Index;
use crate::made::{build, make_room, splice, trim};
use crate::many::{
    copies_of, drop_blocks, exchange, keep_blocks, mend, part, prioritize_blocks, push_all_changed,
    put_back, restamp, rotate_blocks, seek, seek_id,
};
use crate::slots::all_have_priority;
use std::alloc::{AllocError, Global};
use std::marker::Model;

/// Slots in blocks. Contracts see all of them in a list.
///
/// An edit cuts the blocks so that each of its positions is where a block begins, changes the list of blocks,
/// and joins neighbours that are small. So many buffers are in reserve that a cut never takes memory.
#[derive(Drop)]
pub struct Blocks {
    blocks: Vec<Block>,
    spare: Vec<Spare>,
    index: Index,
    len: usize,
}

impl Model for Blocks {
    ghost use Rattle.std.specs.Prelude.{List};
    ghost use Rattle.queue_slots.specs.declared.entry.Slot.{Slot};

    ghost Value = { List Slot };

    ghost use Rattle.queue_slots.specs.Sequence.{sequence, IsSequence};

    ghost view = { sequence };

    ghost invariant = { IsSequence };
}

impl Blocks {
    /// No slots.
    pub fn new(alloc: Global) -> Blocks
        ensures { result ≡ [] }
    {
        Blocks {
            blocks: Vec::new(alloc),
            spare: Vec::new(alloc),
            index: Index::new(alloc),
            len: 0,
        }
    }

    /// Slots of a list.
    pub fn from_slots(alloc: Global, slots: Vec<Slot>) -> Result<Blocks, AllocError>
        ensures { IfOk result (λ blocks. blocks ≡ slots.items) }
    {
        let len = slots.len();
        let mut index = Index::new(alloc);
        let mut blocks = build(alloc, &mut index, slots)?;
        let mut spare = Vec::with_capacity(alloc, blocks.len())?;
        make_room(&mut blocks, &mut spare, alloc, len / 128 + 5)?;
        mend(&mut blocks, &mut spare, &mut index);
        Ok(Blocks {
            blocks,
            spare,
            index,
            len,
        })
    }

    /// The slots from `start` up to `end` in a list, over the same songs.
    pub fn copies(&self, start: usize, end: usize) -> Result<Vec<Slot>, AllocError>
        requires { start ≤ end }
        ensures { IfOk result (λ copies. copies.items ≡ slice_range self.now start end) }
    {
        let copies = copies_of(self.allocator(), &self.blocks, start, end - start)?;
        Ok(copies)
    }

    /// Where its memory comes from.
    pub fn allocator(&self) -> Global {
        *self.blocks.allocator()
    }

    /// How many slots there are.
    pub fn len(&self) -> usize
        ensures { result ≡ length self.now }
    {
        self.len
    }

    /// The entry at a position.
    pub fn get(&self, position: usize) -> Option<&Entry>
        ensures { option_copied result ≡ slice_get (entries_of self.now) position }
    {
        if position >= self.len {
            return None;
        }
        let (at, offset) = seek(&self.blocks, 0, position);
        self.blocks[at].entry(offset)
    }

    /// The slots from a position to the end of its block. Of their stamps and marks nothing is said.
    pub fn run(&self, position: usize) -> &[Slot]
        requires { position < length self.now }
        ensures some { 0 < length result.now }
        ensures part { entries_of result.now ≡ slice_range (entries_of self.now) position (position + length result.now) }
    {
        let (at, offset) = seek(&self.blocks, 0, position);
        self.blocks[at].rest(offset)
    }

    /// The first position of the entry with an id.
    pub fn position_of(&self, id: u32) -> Option<usize>
        requires { AllPairs (λ e f. e.id ≢ f.id) (entries_of self.now) }
        ensures first_position { result ≡ position (λ s. s.entry.id == id) self.now }
        ensures within { IfSome result (λ first_position. (first_position < length self.now) × (first_position + 1 < 2 ^ 64)) }
    {
        let hint = self.index.key_of(id);
        if hint.is_some() {
            if let Some(first_position) = seek_id(&self.blocks, self.len, id, hint) {
                return Some(first_position);
            }
        }
        match seek_id(&self.blocks, self.len, id, None) {
            Some(first_position) => Some(first_position),
            None => None,
        }
    }

    /// The positions of the slots that are shown to a client that knows a version.
    pub fn changed_positions(&self, version: u32, present: u32) -> Result<Vec<usize>, AllocError>
        ensures { IfOk result (λ positions. positions.items ≡ positions_shown version present self.now) }
    {
        let mut positions = Vec::new(self.allocator());
        push_all_changed(&mut positions, &self.blocks, self.len, version, present)?;
        Ok(positions)
    }

    /// Puts slots in at a position. They and all after them are written, and those before them kept.
    pub fn put_in(
        &mut self,
        at: usize,
        added: Vec<Slot>,
        version: u32,
        wraps: bool,
    ) -> Result<(), AllocError>
        requires within { at ≤ length self.old }
        requires fits { length self.old + vec_len added < 2 ^ 64 }
        requires some { 0 < vec_len added }
        ensures ok { OnOk result (self.new ≡ with_put_in version wraps self.old at added.items) }
        ensures err { OnErr result (self.new ≡ self.old) }
    {
        let alloc = *self.blocks.allocator();
        let count = added.len();
        let len = self.len + count;
        make_room(&mut self.blocks, &mut self.spare, alloc, len / 128 + 5)?;
        let mut added = build(alloc, &mut self.index, added)?;
        self.blocks.reserve(self.spare.len() + added.len())?;
        self.spare.reserve(self.blocks.len() + added.len())?;
        let (i, _, _) = part(
            &mut self.blocks,
            &mut self.spare,
            &mut self.index,
            at,
            at,
            at,
        );
        splice(&mut self.blocks, i, &mut added);
        restamp(&mut self.blocks, i, version, wraps);
        mend(&mut self.blocks, &mut self.spare, &mut self.index);
        trim(&self.blocks, &mut self.spare, len / 128 + 8);
        self.len = len;
        Ok(())
    }

    /// Takes the slots from `start` up to `end` out. All after them are written, and those before them kept.
    pub fn take_out(&mut self, start: usize, end: usize, version: u32, wraps: bool)
        requires order { start < end }
        requires within { end ≤ length self.old }
        ensures { self.new ≡ with_taken_out version wraps self.old start end }
    {
        let (i, _, k) = part(
            &mut self.blocks,
            &mut self.spare,
            &mut self.index,
            start,
            end,
            end,
        );
        drop_blocks(&mut self.blocks, &mut self.spare, &mut self.index, i, k);
        restamp(&mut self.blocks, i, version, wraps);
        mend(&mut self.blocks, &mut self.spare, &mut self.index);
        self.len -= end - start;
    }

    /// Exchanges the entries from `low` up to `middle` with those from there up to `high`. All of
    /// these slots are written, and the others kept.
    pub fn rotate(&mut self, low: usize, middle: usize, high: usize, version: u32, wraps: bool)
        requires front { low ≤ middle }
        requires back { middle ≤ high }
        requires some { low < high }
        requires within { high ≤ length self.old }
        ensures { self.new ≡ with_parts_rotated version wraps self.old low middle high }
    {
        let (i, j, k) = part(
            &mut self.blocks,
            &mut self.spare,
            &mut self.index,
            low,
            middle,
            high,
        );
        rotate_blocks(&mut self.blocks, i, j, k, version, wraps);
        mend(&mut self.blocks, &mut self.spare, &mut self.index);
    }

    /// Whether each entry from `start` up to `end` has a priority.
    pub fn part_has_priority(&self, start: usize, end: usize, priority: u8) -> bool
        requires order { start ≤ end }
        requires within { end ≤ length self.now }
        ensures { IsTrue result ↔ All (λ s. s.entry.priority ≡ priority) (slice_range self.now start end) }
    {
        let mut at = start;
        while at < end {
            let run = self.run(at);
            let count = run.len().min(end - at);
            if !all_have_priority(&run[..count], priority) {
                return false;
            }
            at += count;
        }
        true
    }

    /// Gives each entry of a range a priority. Slots whose entry changes are written, and the others stay.
    pub fn prioritize_part(
        &mut self,
        start: usize,
        end: usize,
        priority: u8,
        version: u32,
        wraps: bool,
    )
        requires order { start ≤ end }
        requires within { end ≤ length self.old }
        ensures { self.new ≡ with_part_prioritized version wraps priority self.old start end }
    {
        if start == end {
            return;
        }
        let (i, j, _) = part(
            &mut self.blocks,
            &mut self.spare,
            &mut self.index,
            start,
            end,
            end,
        );
        prioritize_blocks(&mut self.blocks, i, j, priority, version, wraps);
        mend(&mut self.blocks, &mut self.spare, &mut self.index);
    }

    /// Each slot is kept.
    pub fn keep(&mut self, wraps: bool)
        ensures { self.new ≡ map (kept wraps) self.old }
    {
        keep_blocks(&mut self.blocks, wraps);
        mend(&mut self.blocks, &mut self.spare, &mut self.index);
    }

    /// Swaps the entries of two slots. Both slots are written, and the others kept.
    pub fn exchange(&mut self, low: usize, high: usize, version: u32, wraps: bool)
        requires order { low < high }
        requires within { high < length self.old }
        ensures { self.new ≡ with_exchanged version wraps (map (kept wraps) self.old) low high }
    {
        keep_blocks(&mut self.blocks, wraps);
        exchange(&mut self.blocks, low, high, version, wraps);
        mend(&mut self.blocks, &mut self.spare, &mut self.index);
    }

    /// Puts slots back from a position on, each in place of another. The others are kept.
    pub fn put_back(&mut self, start: usize, part: Vec<Slot>, wraps: bool)
        requires { start + vec_len part ≤ length self.old }
        ensures { self.new ≡ with_put_back (map (kept wraps) self.old) start part.items }
    {
        keep_blocks(&mut self.blocks, wraps);
        put_back(&mut self.blocks, &mut self.index, start, part);
        mend(&mut self.blocks, &mut self.spare, &mut self.index);
    }
}
