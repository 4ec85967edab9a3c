//! Played songs, of which one is found at once.
ghost use Rattle.std.specs.Prelude.{◌≡◌, ◌<◌, [], All, not, filter, IfOk, OnOk, OnErr};
ghost use Rattle.std.specs.BTreeMap.{keys, values};
ghost use Rattle.play_order.specs.Draws.{is_among, moved_last, others};
ghost use Rattle.play_order.specs.Ends.{last_of};
ghost use Rattle.play_order.specs.Scans.{KeepsPlays};

use std::alloc::{AllocError, Global};
use std::collections::{BTreeMap, HashMap};
use std::marker::Model;

/// The ids of the songs that were played, the last one last, as contracts see them.
///
/// Plays have numbers, of which the later has the greater, and an id has one play. So an id is taken out, or
/// moved last, in a look-up and two steps down a tree.
#[derive(Drop)]
pub(crate) struct Played {
    /// The ids by the numbers of their plays.
    order: BTreeMap<u64, u32>,
    /// The number of each id's play.
    found: HashMap<u32, u64>,
}

impl Model for Played {
    ghost use Rattle.std.specs.Prelude.{List, ℕ};
    ghost use Rattle.std.specs.BTreeMap.{values};
    ghost use Rattle.play_order.specs.Scans.{KeepsPlays};

    ghost Value = { List ℕ };

    ghost view = { λ p. values p.order };

    ghost invariant = { λ p. KeepsPlays p.found p.order };
}

impl Played {
    pub(crate) fn new(alloc: Global) -> Played
        ensures { result ≡ [] }
    {
        Played {
            order: BTreeMap::new(alloc),
            found: HashMap::new(alloc),
        }
    }

    /// The same ids in a list of its own.
    pub(crate) fn image(&self) -> Result<Played, AllocError>
        ensures { IfOk result (λ image. image ≡ self.now) }
    {
        Ok(Played {
            order: self.order.clone()?,
            found: self.found.clone()?,
        })
    }

    pub(crate) fn has(&self, id: u32) -> bool
        ensures { result ≡ is_among id self.now }
    {
        self.found.contains_key(&id)
    }

    /// The last id but this one.
    pub(crate) fn last_but(&self, id: u32) -> Option<u32>
        ensures { result ≡ last_of (others id self.now) }
    {
        let mut ids = self.order.values();
        match ids.next_back() {
            Some(last) => {
                if *last != id {
                    return Some(*last);
                }
                ids.next_back().copied()
            }
            None => None,
        }
    }

    /// The id becomes the last.
    pub(crate) fn move_last(&mut self, id: u32) -> Result<(), AllocError>
        ensures ok { OnOk result (self.new ≡ moved_last self.old id) }
        ensures err { OnErr result (self.new ≡ self.old) }
    {
        put_last(&mut self.order, &mut self.found, id)
    }

    /// The first id leaves, and the second becomes the last.
    pub(crate) fn leave_for(&mut self, id: u32, other: u32) -> Result<(), AllocError>
        ensures ok { OnOk result (self.new ≡ moved_last (others id self.old) other) }
        ensures err { OnErr result (self.new ≡ self.old) }
    {
        self.move_last(other)?;
        if other != id {
            self.remove_one(id);
        }
        Ok(())
    }

    pub(crate) fn remove_one(&mut self, id: u32)
        ensures { self.new ≡ others id self.old }
    {
        forget_play(&mut self.order, &mut self.found, id);
    }

    pub(crate) fn remove(&mut self, ids: &[u32])
        ensures { self.new ≡ filter (λ id. not (is_among id ids.now)) self.old }
    {
        for id in ids {
            self.remove_one(*id);
        }
    }

    pub(crate) fn clear(&mut self)
        ensures { self.new ≡ [] }
    {
        self.order.clear();
        self.found.clear();
    }
}

/// The id has the last play, and no other. If memory runs out, nothing changes.
fn put_last(
    order: &mut BTreeMap<u64, u32>,
    found: &mut HashMap<u32, u64>,
    id: u32,
) -> Result<(), AllocError>
    requires { KeepsPlays found.old order.old }
    ensures kept { KeepsPlays found.new order.new }
    ensures ok { OnOk result (values order.new ≡ moved_last (values order.old) id) }
    ensures err { OnErr result (values order.new ≡ values order.old) }
{
    let number = next_number(order)?;
    found.reserve(1)?;
    let _ = order.insert(number, id)?;
    match found.insert(id, number) {
        Ok(Some(before)) => {
            let _ = order.remove(&before);
            Ok(())
        }
        Ok(None) => Ok(()),
        Err(_) => unreachable!(),
    }
}

/// The number after that of the last play. Where there is none, the error is that of memory that runs out; that
/// takes 584 years with a play in each nanosecond.
fn next_number(order: &BTreeMap<u64, u32>) -> Result<u64, AllocError>
    ensures { IfOk result (λ number. All (λ other. other < number) (keys order.now)) }
{
    match order.last_key_value() {
        Some((last, _)) => {
            if *last == u64::MAX {
                return Err(AllocError);
            }
            Ok(*last + 1)
        }
        None => Ok(0),
    }
}

/// The id has no play any more.
fn forget_play(order: &mut BTreeMap<u64, u32>, found: &mut HashMap<u32, u64>, id: u32)
    requires { KeepsPlays found.old order.old }
    ensures kept { KeepsPlays found.new order.new }
    ensures ids { values order.new ≡ others id (values order.old) }
{
    match found.remove(&id) {
        Some(number) => {
            let _ = order.remove(&number);
        }
        None => {}
    }
}
