//! Blocks of slots.
ghost use Rattle.std.specs.Prelude.{◌≡◌, ◌++◌, ◌∷◌, ◌≤◌, ◌+◌, ◌^◌, ◌<◌, ◌==◌, [], IfOk, OnOk, length, map, slice_get, slice_index_or, slice_set, take, drop, vec_capacity, position};
ghost use Rattle.std.specs.List.{insert, remove};
ghost use Rattle.std.specs.Option.{option_copied};
ghost use Rattle.queue_slots.specs.declared.entry.Slot.{Slot};
ghost use Rattle.queue_slots.specs.Slots.{kept, written, entries_of, prioritized_slot};
ghost use Rattle.queue_slots.specs.Blocks.{shown_from};

use crate::entry::{Entry, Slot};
use crate::index::Index;
use crate::shows::{push_all, push_shown, shows};
use crate::slots::{
    change_slot, copies, entry_at, mark, move_all, move_tail, part_of, position_in, prioritize,
    pull_slot, push_down, push_slot, put_slot, slots_from,
};
use std::alloc::{AllocError, Global};
use std::marker::Model;

/// A buffer for a block. It has no slot.
#[derive(Drop)]
pub struct Spare {
    room: Vec<Slot>,
    ghost empty: { room.items ≡ [] },
    ghost wide: { 256 ≤ vec_capacity room },
}

impl Spare {
    /// A buffer with room for a block.
    pub fn new(alloc: Global) -> Result<Spare, AllocError> {
        let room = Vec::with_capacity(alloc, 256)?;
        Ok(Spare { room })
    }
}

/// At most 256 slots. Contracts see them with the stamps and marks that they show.
#[derive(Drop)]
pub struct Block {
    slots: Vec<Slot>,
    /// No stamp of the block is greater.
    top: u32,
    /// Where it is false, no slot is marked.
    marked: bool,
    /// Each slot shows `top` and `marked`, whatever is written in it.
    alike: bool,
    /// What the index calls the block.
    key: u32,
}

impl Model for Block {
    ghost use Rattle.std.specs.Prelude.{List};
    ghost use Rattle.queue_slots.specs.declared.entry.Slot.{Slot};

    ghost Value = { List Slot };

    ghost use Rattle.queue_slots.specs.Views.{shown, IsBlock};

    ghost view = { shown };

    ghost invariant = { IsBlock };
}

impl Block {
    /// A block of no slot.
    pub fn new(spare: Spare, index: &mut Index) -> Block
        ensures { result ≡ [] }
    {
        let Spare { room } = spare;
        Block {
            slots: room,
            top: 0,
            marked: false,
            alike: false,
            key: index.fresh(),
        }
    }

    /// How many slots there are.
    pub fn len(&self) -> usize
        ensures len { result ≡ length self.now }
        ensures most { result ≤ 256 }
    {
        self.slots.len()
    }

    /// What the index calls the block.
    pub fn key(&self) -> u32 {
        self.key
    }

    /// The slots from a position on go into a block of their own.
    pub fn cut(&mut self, at: usize, spare: Spare, index: &mut Index) -> Block
        requires { at ≤ length self.old }
        ensures front { self.new ≡ take at self.old }
        ensures back { result ≡ drop at self.old }
    {
        let Spare { mut room } = spare;
        move_tail(&mut self.slots, at, &mut room);
        let (key, back) = index.part(self.key, &self.slots, &room);
        self.key = key;
        Block {
            slots: room,
            top: self.top,
            marked: self.marked,
            alike: self.alike,
            key: back,
        }
    }

    /// The slots of another block are put behind these.
    pub fn join(&mut self, other: Block, index: &mut Index) -> Spare
        requires { length self.old + length other ≤ 256 }
        ensures { self.new ≡ self.old ++ other }
    {
        let Block {
            slots: mut others,
            top,
            marked,
            alike,
            key,
        } = other;
        push_down(&mut self.slots, self.alike, self.top, self.marked);
        push_down(&mut others, alike, top, marked);
        self.key = index.unite(self.key, &self.slots, key, &others);
        self.alike = false;
        self.top = self.top.max(top);
        self.marked = self.marked | marked;
        move_all(&mut self.slots, &mut others);
        Spare { room: others }
    }

    /// The buffer of a block whose slots are dropped.
    pub fn emptied(self, index: &mut Index) -> Spare {
        let Block {
            mut slots,
            top,
            marked,
            alike,
            key,
        } = self;
        index.forget(&slots);
        slots.clear();
        Spare { room: slots }
    }

    /// Each slot is written.
    pub fn write(&mut self, version: u32, wraps: bool)
        ensures { self.new ≡ map (written version wraps) (entries_of self.old) }
    {
        self.top = version;
        self.marked = wraps;
        self.alike = true;
    }

    /// Each slot is kept.
    pub fn keep(&mut self, wraps: bool)
        ensures { self.new ≡ map (kept wraps) self.old }
    {
        if wraps {
            mark(&mut self.slots);
            self.marked = true;
        }
    }

    /// The entry at a position.
    pub fn entry(&self, position: usize) -> Option<&Entry>
        ensures { option_copied result ≡ slice_get (entries_of self.now) position }
    {
        entry_at(&self.slots, position)
    }

    /// Puts a slot behind the others.
    pub fn push(&mut self, slot: Slot)
        requires { length self.old < 256 }
        ensures { self.new ≡ self.old ++ slot ∷ [] }
    {
        push_down(&mut self.slots, self.alike, self.top, self.marked);
        self.alike = false;
        self.top = self.top.max(slot.stamp);
        self.marked = self.marked | slot.marked;
        push_slot(&mut self.slots, slot);
    }

    /// Takes the slot at a position out.
    pub fn pull(&mut self, at: usize) -> Slot
        requires { at < length self.old }
        ensures slots { self.new ≡ remove self.old at }
        ensures room { length self.new < 256 }
        ensures slot { (d : Slot) → result ≡ slice_index_or self.old at d }
    {
        push_down(&mut self.slots, self.alike, self.top, self.marked);
        self.alike = false;
        pull_slot(&mut self.slots, at)
    }

    /// Puts a slot in at a position.
    pub fn put(&mut self, at: usize, slot: Slot)
        requires within { at ≤ length self.old }
        requires room { length self.old < 256 }
        ensures { self.new ≡ insert self.old at slot }
    {
        push_down(&mut self.slots, self.alike, self.top, self.marked);
        self.alike = false;
        self.top = self.top.max(slot.stamp);
        self.marked = self.marked | slot.marked;
        put_slot(&mut self.slots, at, slot);
    }

    /// Puts a slot in place of another.
    pub fn change(&mut self, at: usize, slot: Slot) -> Slot
        requires { at < length self.old }
        ensures slots { self.new ≡ slice_set self.old at slot }
        ensures slot { (d : Slot) → result ≡ slice_index_or self.old at d }
    {
        push_down(&mut self.slots, self.alike, self.top, self.marked);
        self.alike = false;
        self.top = self.top.max(slot.stamp);
        self.marked = self.marked | slot.marked;
        change_slot(&mut self.slots, at, slot)
    }

    /// The slots from a position on. Of their stamps and marks nothing is said.
    pub fn rest(&self, position: usize) -> &[Slot]
        requires { position ≤ length self.now }
        ensures { entries_of result.now ≡ drop position (entries_of self.now) }
    {
        slots_from(&self.slots, position)
    }

    /// The slots from a position on, at most so many, in a list, over the same songs.
    pub fn copies(&self, alloc: Global, from: usize, most: usize) -> Result<Vec<Slot>, AllocError>
        ensures { IfOk result (λ copies. copies.items ≡ take most (drop from self.now)) }
    {
        let mut copies = copies(alloc, part_of(&self.slots, from, most))?;
        push_down(&mut copies, self.alike, self.top, self.marked);
        Ok(copies)
    }

    /// The position of the first slot with an id.
    pub fn position_of(&self, id: u32) -> Option<usize>
        ensures { result ≡ position (λ s. s.entry.id == id) self.now }
    {
        position_in(&self.slots, id)
    }

    /// Gives each entry a priority.
    pub fn prioritize(&mut self, priority: u8, version: u32, wraps: bool)
        ensures { self.new ≡ map (prioritized_slot version wraps priority) self.old }
    {
        push_down(&mut self.slots, self.alike, self.top, self.marked);
        self.alike = false;
        prioritize(&mut self.slots, priority, version, wraps);
        self.top = self.top.max(version);
        self.marked = self.marked | wraps;
    }

    /// Adds the positions of the slots that are shown to a client that knows a version.
    pub fn push_changed(
        &self,
        positions: &mut Vec<usize>,
        at: usize,
        version: u32,
        present: u32,
    ) -> Result<(), AllocError>
        requires { at + length self.now < 2 ^ 64 }
        ensures { OnOk result (positions.new.items ≡ positions.old.items ++ shown_from version present at self.now) }
    {
        if !shows(self.top, self.marked, version, present) {
            return Ok(());
        }
        if self.alike {
            return push_all(positions, at, self.slots.len());
        }
        push_shown(positions, at, &self.slots, version, present)
    }
}
