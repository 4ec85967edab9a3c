//! Which block has an id. It is a hint: a search that does not find an id where the index says looks
//! everywhere. So no clause of a block speaks of it, and a growth of it that is refused makes ids slow to
//! find, and no more.
ghost use Rattle.std.specs.Prelude.{◌≡◌, ◌+◌, ◌%◌, ◌^◌, ◌≤◌, ◌<◌, [], ◌∷◌, length, nat_eq};
ghost use Rattle.std.specs.HashMap.{get};
ghost use Rattle.queue_slots.specs.Keys.{Forgets, ids_of, Notes};

use crate::entry::Slot;
use std::alloc::{AllocError, Global};
use std::collections::HashMap;

/// The key of the block in which each id was put last.
#[derive(Drop)]
pub struct Index {
    keys: HashMap<u32, u32>,
    last: u32,
}

impl Index {
    /// An index that knows no id.
    pub fn new(alloc: Global) -> Index
        ensures { result.keys.entries ≡ [] }
    {
        Index {
            keys: HashMap::new(alloc),
            last: 0,
        }
    }

    /// A key for another block. After 2^32 of them they begin anew.
    pub fn fresh(&mut self) -> u32
        ensures key { result ≡ (self.old.last + 1) % 2 ^ 32 }
        ensures same { self.new ≡ record self.old { last = result } }
    {
        self.last = self.last.wrapping_add(1);
        self.last
    }

    /// Slots are in the block with a key from now on. If memory runs out, they are found without the
    /// index.
    pub fn note(&mut self, slots: &[Slot], key: u32)
        ensures keys { Notes self.old.keys self.new.keys (ids_of slots.now) key }
        ensures last { self.new.last ≡ self.old.last }
    {
        for slot in slots {
            self.note_one(slot.entry.id, key);
        }
    }

    /// A slot with an id is in the block with a key from now on.
    pub fn note_one(&mut self, id: u32, key: u32)
        ensures keys { Notes self.old.keys self.new.keys (id ∷ []) key }
        ensures last { self.new.last ≡ self.old.last }
    {
        let _ = self.keys.insert(id, key);
    }

    /// Slots are in no block any more.
    pub fn forget(&mut self, slots: &[Slot])
        ensures keys { Forgets self.old.keys self.new.keys (ids_of slots.now) }
        ensures last { self.new.last ≡ self.old.last }
    {
        for slot in slots {
            let _ = self.keys.remove(&slot.entry.id);
        }
    }

    /// Slots that were in a block with a key were parted: the keys of the two parts. The smaller one gets
    /// another key.
    pub fn part(&mut self, key: u32, front: &[Slot], back: &[Slot]) -> (u32, u32)
        ensures next { self.new.last ≡ (self.old.last + 1) % 2 ^ 32 }
        ensures front { length front.now < length back.now → (result ≡ (self.new.last, key)) × Notes self.old.keys self.new.keys (ids_of front.now) self.new.last }
        ensures back { length back.now ≤ length front.now → (result ≡ (key, self.new.last)) × Notes self.old.keys self.new.keys (ids_of back.now) self.new.last }
    {
        let other = self.fresh();
        if back.len() > front.len() {
            self.note(front, other);
            (other, key)
        } else {
            self.note(back, other);
            (key, other)
        }
    }

    /// Slots of two blocks with keys come into one: its key, which is that of the larger.
    pub fn unite(&mut self, key: u32, front: &[Slot], other: u32, back: &[Slot]) -> u32
        ensures last { self.new.last ≡ self.old.last }
        ensures front { length front.now < length back.now → (result ≡ other) × Notes self.old.keys self.new.keys (ids_of front.now) other }
        ensures back { length back.now ≤ length front.now → (result ≡ key) × Notes self.old.keys self.new.keys (ids_of back.now) key }
    {
        if back.len() > front.len() {
            self.note(front, other);
            other
        } else {
            self.note(back, key);
            key
        }
    }

    /// The key of the block where an id was put last.
    pub fn key_of(&self, id: u32) -> Option<u32>
        ensures { result ≡ get nat_eq self.now.keys id }
    {
        self.keys.get(&id).copied()
    }
}
