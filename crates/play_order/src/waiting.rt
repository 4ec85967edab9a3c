//! The unplayed entries of a queue, in the order in which a random round takes them.
//!
//! A round does not own the queue, and a call of it speaks of any queue. So the order is kept with the ids and
//! priorities of the queue that it was made of, which are compared with those of the queue at hand: that is a
//! walk over both, but one without a look-up, and only where both are the same the order is used.
ghost use Rattle.std.specs.Prelude.{◌≡◌, ◌≤◌, ◌++◌, ◌==◌, ◌↔◌, true, length, map, IfNone, IfOk, IfSome, OnOk, Some};
ghost use Rattle.std.specs.Option.{option_copied};
ghost use Rattle.song_queue.specs.State.{entries_of, queue_of};
ghost use Rattle.play_order.specs.Order.{first_of, unplayed};
ghost use Rattle.play_order.specs.Scans.{first_in};
ghost use Rattle.play_order.specs.Waits.{AreOf, HasKeyWith, HasKeysOf, HaveOwnIds, IsMadeOf, IsOrderOf, LacksId, LeavesOrder, has_order, key_of, unplayed_keys};

use crate::played::Played;
use crate::ranks::Ranks;
use crate::scan::{entry_with, first_left};
use song_queue::{Entry, Queue, Slot};
use std::alloc::{AllocError, Global};
use std::collections::BTreeSet;
use std::marker::Model;

/// The entries that wait for their turn. A key is how far a priority is below the greatest, a rank and an id;
/// contracts see the keys of all entries, by position, and of those that wait, rising.
pub(crate) struct Waiting {
    known: Vec<(u8, u32, u32)>,
    /// Those that were not played.
    keys: BTreeSet<(u8, u32, u32)>,
    /// The version of the queue that this was made of. A queue of another version is not compared.
    version: u32,
}

impl Drop for Waiting {
    fn drop(self) {
        let Waiting {
            known: _,
            keys: _,
            version: _,
        } = self;
    }
}

impl Model for Waiting {
    ghost use Rattle.play_order.specs.Waits.{WaitingState};

    ghost Value = { WaitingState };

    ghost view = { λ w. record { known = w.known.items; keys = w.keys.keys; version = w.version } };
}

impl Waiting {
    /// The unplayed entries of a queue, in the order of their ranks.
    pub(crate) fn of(ranks: &Ranks, played: &Played, queue: &Queue) -> Result<Waiting, AllocError>
        ensures order { IfOk result (IsOrderOf ranks.now played.now) }
        ensures known { IfOk result (λ w. w.known ≡ map (key_of ranks.now) (queue_of queue.now)) }
        ensures version { IfOk result (λ w. w.version ≡ queue.now.version) }
    {
        let known = keys_of(ranks, queue)?;
        let keys = unplayed_of(ranks.allocator(), &known, played)?;
        Ok(Waiting {
            known,
            keys,
            version: queue.version(),
        })
    }

    /// Whether this was made of a queue of this version.
    fn has_version(&self, queue: &Queue) -> bool
        ensures { result ≡ (self.now.version == queue.now.version) }
    {
        self.version == queue.version()
    }

    /// Whether a queue has the version, the entries and their priorities that this was made of.
    fn is_of(&self, queue: &Queue) -> bool
        ensures { result ≡ true ↔ IsMadeOf self.now queue.now }
    {
        self.has_version(queue) && same_entries(&self.known, queue)
    }

    /// The song with this id was played, so its entry waits no more.
    fn remove(&mut self, id: u32)
        ensures { LeavesOrder id (Some self.old) (Some self.new) }
    {
        if let Some(key) = self.key_with(id) {
            let _ = self.keys.remove(&key);
        }
    }

    /// The key with an id: mostly the first of those that wait, else one that is looked for among all.
    fn key_with(&self, id: u32) -> Option<(u8, u32, u32)>
        ensures found { IfSome result (HasKeyWith id self.now) }
        ensures none { IfNone result (LacksId id self.now.known) }
    {
        match self.keys.first() {
            Some(first) if first.2 == id => return Some(*first),
            _ => {}
        }
        for key in &self.known {
            if key.2 == id {
                return Some(*key);
            }
        }
        None
    }
}

/// The unplayed entry that comes first of what is left, by the order that is kept, if it is one of this queue
/// and all is left; else the queue is gone through.
pub(crate) fn first_entry<'a>(
    waiting: &Option<Waiting>,
    ranks: &Ranks,
    played: &Played,
    queue: &'a Queue,
    from: usize,
    end: usize,
) -> Option<&'a Entry>
    requires order { from ≤ end }
    requires within { end ≤ length (queue_of queue.now) }
    requires kept { IfSome waiting.now (IsOrderOf ranks.now played.now) }
    ensures { option_copied result ≡ first_in ranks.now played.now queue.now from end }
{
    if from < end {
        return first_left(ranks, played, queue, from, end);
    }
    match waiting {
        Some(waiting) => first_waiting(waiting, ranks, played, queue),
        None => first_left(ranks, played, queue, from, end),
    }
}

/// The unplayed entry that comes first.
fn first_waiting<'a>(
    waiting: &Waiting,
    ranks: &Ranks,
    played: &Played,
    queue: &'a Queue,
) -> Option<&'a Entry>
    requires { IsOrderOf ranks.now played.now waiting.now }
    ensures { option_copied result ≡ first_of ranks.now (unplayed played.now (queue_of queue.now)) }
{
    if !waiting.is_of(queue) {
        return first_left(ranks, played, queue, 0, 0);
    }
    // That ids are distinct comes with the length.
    let _len = queue.len();
    match waiting.keys.first() {
        Some(key) => entry_with(queue, key.2),
        None => None,
    }
}

/// The song with this id was played: where an order is kept, its entry waits no more.
pub(crate) fn leave(waiting: &mut Option<Waiting>, id: u32)
    ensures { LeavesOrder id waiting.old waiting.new }
{
    if let Some(waiting) = waiting {
        waiting.remove(id);
    }
}

/// Whether an order is kept that was made of a queue of this version.
pub(crate) fn is_kept(waiting: &Option<Waiting>, queue: &Queue) -> bool
    ensures { result ≡ has_order waiting.now queue.now.version }
{
    match waiting {
        Some(waiting) => waiting.has_version(queue),
        None => false,
    }
}

/// The keys of a queue's entries, in the order of their positions.
fn keys_of(ranks: &Ranks, queue: &Queue) -> Result<Vec<(u8, u32, u32)>, AllocError>
    ensures known { IfOk result (λ known. known.items ≡ map (key_of ranks.now) (queue_of queue.now)) }
    ensures own { IfOk result (λ known. HaveOwnIds known.items) }
{
    let len = queue.len();
    let mut known = Vec::with_capacity(ranks.allocator(), len)?;
    let mut at = 0;
    while at < len {
        let run = queue.run(at, len);
        push_keys(&mut known, ranks, run)?;
        at += run.len();
    }
    Ok(known)
}

fn push_keys(known: &mut Vec<(u8, u32, u32)>, ranks: &Ranks, run: &[Slot]) -> Result<(), AllocError>
    ensures { OnOk result (known.new.items ≡ known.old.items ++ map (key_of ranks.now) (entries_of run.now)) }
{
    for slot in run {
        let entry = &slot.entry;
        known.push((255 - entry.priority, ranks.rank(entry.id), entry.id))?;
    }
    Ok(())
}

/// The keys of the entries that were not played.
fn unplayed_of(
    alloc: Global,
    known: &[(u8, u32, u32)],
    played: &Played,
) -> Result<BTreeSet<(u8, u32, u32)>, AllocError>
    ensures { IfOk result (λ set. HasKeysOf set.keys (unplayed_keys played.now known.now)) }
{
    let mut keys = BTreeSet::new(alloc);
    for key in known {
        if !played.has(key.2) {
            let _ = keys.insert(*key)?;
        }
    }
    Ok(keys)
}

/// Whether a queue has entries with these ids and priorities.
fn same_entries(known: &[(u8, u32, u32)], queue: &Queue) -> bool
    ensures { result ≡ true ↔ AreOf (queue_of queue.now) known.now }
{
    let len = queue.len();
    if len != known.len() {
        return false;
    }
    let mut at = 0;
    while at < len {
        let run = queue.run(at, len);
        if !same_run(&known[at..at + run.len()], run) {
            return false;
        }
        at += run.len();
    }
    true
}

/// Whether some slots have entries with these ids and priorities.
fn same_run(known: &[(u8, u32, u32)], run: &[Slot]) -> bool
    requires { length known.now ≡ length run.now }
    ensures { result ≡ true ↔ AreOf (entries_of run.now) known.now }
{
    for position in 0..run.len() {
        let entry = &run[position].entry;
        let key = &known[position];
        if entry.id != key.2 || entry.priority != 255 - key.0 {
            return false;
        }
    }
    true
}
