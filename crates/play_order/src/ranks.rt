//! Ranks, of which that of an id is found at once.
ghost use Rattle.std.specs.Prelude.{◌≡◌, ℕ, ◌+◌, ◌<◌, ◌≤◌, ◌++◌, [], All, not, nat_eq, if◌then◌else◌, length, filter, None, IfOk, IsTrue, OnOk, OnErr, vec_capacity, vec_len};
ghost use Rattle.std.specs.HashMap.{get, spare};
ghost use Rattle.song_queue.specs.declared.edit.Edit.TheVariants.{Insert};
ghost use Rattle.song_queue.specs.Laws.{Takes};
ghost use Rattle.song_queue.specs.State.{inserted};
ghost use Rattle.play_order.specs.Order.{new_ids};
ghost use Rattle.play_order.specs.Draws.{generator_after, is_among, rank_of, ranks_drawn};
ghost use Rattle.play_order.specs.Scans.{FindsRanks, GivesRank, IsTidy, KeepsLeft, KeepsNoGone, KeepsRanks, LeavesMore, LosesRanks, ranks_left};

use crate::modes::Rank;
use crate::scan::put_in;
use mpd_text::Sequence;
use rand_core::utils::NextWord;
use rand_pcg::Lcg64Xsh32;
use song_db::SharedSong;
use song_queue::Queue;
use std::alloc::{AllocError, Global};
use std::collections::HashMap;
use std::marker::Model;

/// Ranks in the order in which they were drawn, as contracts see them.
///
/// An id that leaves is taken out of the map alone: the list keeps what it drew until there is no room, and
/// contracts see those ranks of the list whose ids the map has. An id of a new entry is greater than each that
/// drew, so that it has none in the list.
#[derive(Drop)]
pub(crate) struct Ranks {
    drawn: Vec<Rank>,
    /// An id that drew several has its first.
    by_id: HashMap<u32, u32>,
    /// No id of the list is greater.
    greatest: u32,
}

impl Model for Ranks {
    ghost use Rattle.std.specs.Prelude.{List};
    ghost use Rattle.play_order.specs.declared.modes.Rank.{Rank};
    ghost use Rattle.play_order.specs.Scans.{KeepsRanks, ranks_left};

    ghost Value = { List Rank };

    ghost view = { λ r. ranks_left r.by_id r.drawn.items };

    ghost invariant = { λ r. KeepsRanks r.by_id r.drawn.items r.greatest };
}

impl Ranks {
    pub(crate) fn new(alloc: Global) -> Ranks
        ensures { result ≡ [] }
    {
        Ranks {
            drawn: Vec::new(alloc),
            by_id: HashMap::new(alloc),
            greatest: 0,
        }
    }

    pub(crate) fn allocator(&self) -> Global {
        *self.drawn.allocator()
    }

    /// The same ranks in a list of its own.
    pub(crate) fn image(&self) -> Result<Ranks, AllocError>
        ensures { IfOk result (λ image. image ≡ self.now) }
    {
        Ok(Ranks {
            drawn: self.drawn.clone()?,
            by_id: self.by_id.clone()?,
            greatest: self.greatest,
        })
    }

    /// The rank of an id; 0, if it has none.
    pub(crate) fn rank(&self, id: u32) -> u32
        ensures { result ≡ rank_of self.now id }
    {
        match self.by_id.get(&id) {
            Some(rank) => *rank,
            None => 0,
        }
    }

    /// Each of the ids draws a rank, whether it has one or not.
    pub(crate) fn draw(&mut self, generator: &mut Lcg64Xsh32, ids: &[u32]) -> Result<(), AllocError>
        ensures ok { OnOk result (self.new ≡ self.old ++ ranks_drawn generator.old ids.now) }
        ensures drawn { OnOk result (generator.new ≡ generator_after generator.old ids.now) }
        ensures err { OnErr result (self.new ≡ self.old) }
        ensures undrawn { OnErr result (generator.new ≡ generator.old) }
    {
        make_room(&mut self.drawn, &mut self.by_id, ids.len())?;
        draw_all(
            &mut self.drawn,
            &mut self.by_id,
            &mut self.greatest,
            generator,
            ids,
        );
        Ok(())
    }

    /// Songs are put into a queue that can take them, and each of the new entries draws a rank. If memory
    /// runs out, nothing changes.
    pub(crate) fn insert(
        &mut self,
        generator: &mut Lcg64Xsh32,
        queue: &mut Queue,
        at: usize,
        songs: Sequence<SharedSong>,
    ) -> Result<(), AllocError>
        requires { Takes queue.old (Insert at songs) }
        ensures ok { OnOk result (self.new ≡ self.old ++ ranks_drawn generator.old (new_ids queue.old songs)) }
        ensures drawn { OnOk result (generator.new ≡ generator_after generator.old (new_ids queue.old songs)) }
        ensures queue { OnOk result (queue.new ≡ inserted queue.old at songs) }
        ensures err { OnErr result (self.new ≡ self.old) }
        ensures undrawn { OnErr result (generator.new ≡ generator.old) }
        ensures err_queue { OnErr result (queue.new ≡ queue.old) }
    {
        let count = songs.items().len();
        make_room(&mut self.drawn, &mut self.by_id, count)?;
        let ids = put_in(*self.drawn.allocator(), queue, at, songs)?;
        draw_all(
            &mut self.drawn,
            &mut self.by_id,
            &mut self.greatest,
            generator,
            &ids,
        );
        Ok(())
    }

    /// The ids have no rank any more. It costs a look-up for each of them.
    pub(crate) fn remove(&mut self, ids: &[u32])
        ensures { self.new ≡ filter (λ r. not (is_among r.id ids.now)) self.old }
    {
        forget_all(&mut self.by_id, ids);
    }
}

/// Makes room for so many more ranks.
fn make_room(
    drawn: &mut Vec<Rank>,
    by_id: &mut HashMap<u32, u32>,
    count: usize,
) -> Result<(), AllocError>
    ensures ranks { ranks_left by_id.new drawn.new.items ≡ ranks_left by_id.old drawn.old.items }
    ensures kept { (n : ℕ) → KeepsRanks by_id.old drawn.old.items n → KeepsRanks by_id.new drawn.new.items n }
    ensures room { OnOk result (vec_len drawn.new + count ≤ vec_capacity drawn.new) }
    ensures spare { OnOk result (count ≤ spare by_id.new) }
    ensures tidy { vec_capacity drawn.old < vec_len drawn.old + count → IsTidy by_id.new drawn.new.items }
{
    tidy(drawn, by_id, count);
    drawn.reserve(count)?;
    by_id.reserve(count)
}

/// Where the list is full, and has more ranks of ids that have left than others, it loses those: so many left
/// since it last grew or lost some that a removal costs the same on the whole.
fn tidy(drawn: &mut Vec<Rank>, by_id: &HashMap<u32, u32>, count: usize)
    ensures left { KeepsLeft by_id.now drawn.old.items drawn.new.items }
    ensures tidy { vec_capacity drawn.old < vec_len drawn.old + count → IsTidy by_id.now drawn.new.items }
{
    let full = drawn.capacity().saturating_sub(drawn.len()) < count;
    if full && by_id.len() < drawn.len() / 2 {
        keep_known(drawn, by_id);
    }
}

/// Each of the ids draws a rank, where there is room.
fn draw_all(
    drawn: &mut Vec<Rank>,
    by_id: &mut HashMap<u32, u32>,
    greatest: &mut u32,
    generator: &mut Lcg64Xsh32,
    ids: &[u32],
)
    requires room { vec_len drawn.old + length ids.now ≤ vec_capacity drawn.old }
    requires spare { length ids.now ≤ spare by_id.old }
    requires kept { KeepsRanks by_id.old drawn.old.items greatest.old }
    ensures ranks { LeavesMore by_id.old drawn.old.items by_id.new drawn.new.items (ranks_drawn generator.old ids.now) }
    ensures drawn { generator.new ≡ generator_after generator.old ids.now }
    ensures kept { KeepsRanks by_id.new drawn.new.items greatest.new }
{
    keep_apart(drawn, by_id, *greatest, ids);
    draw_each(drawn, by_id, generator, ids);
    *greatest = greatest_of(*greatest, ids);
}

/// Of the ids that are about to draw the list has no rank, except for those that have one still. Only where one
/// of them is not new is it gone through.
fn keep_apart(drawn: &mut Vec<Rank>, by_id: &HashMap<u32, u32>, greatest: u32, ids: &[u32])
    requires { All (λ r. r.id ≤ greatest) drawn.old.items }
    ensures left { KeepsLeft by_id.now drawn.old.items drawn.new.items }
    ensures none_gone { KeepsNoGone by_id.now drawn.new.items ids.now }
    ensures len { vec_len drawn.new ≤ vec_len drawn.old }
    ensures room { vec_capacity drawn.new ≡ vec_capacity drawn.old }
{
    if !are_new(greatest, ids) {
        keep_known(drawn, by_id);
    }
}

/// Whether each id is greater than one.
fn are_new(greatest: u32, ids: &[u32]) -> bool
    ensures { IsTrue result → All (λ id. greatest < id) ids.now }
{
    for id in ids {
        if *id <= greatest {
            return false;
        }
    }
    true
}

/// The greatest of an id and some more.
fn greatest_of(first: u32, ids: &[u32]) -> u32
    ensures first { first ≤ result }
    ensures ids { All (λ id. id ≤ result) ids.now }
{
    let mut greatest = first;
    for id in ids {
        greatest = greatest.max(*id);
    }
    greatest
}

/// Each of the ids draws a rank, where there is room, and the list has none of theirs that is gone.
fn draw_each(
    drawn: &mut Vec<Rank>,
    by_id: &mut HashMap<u32, u32>,
    generator: &mut Lcg64Xsh32,
    ids: &[u32],
)
    requires room { vec_len drawn.old + length ids.now ≤ vec_capacity drawn.old }
    requires spare { length ids.now ≤ spare by_id.old }
    requires finds { FindsRanks by_id.old (ranks_left by_id.old drawn.old.items) }
    requires none_gone { KeepsNoGone by_id.old drawn.old.items ids.now }
    ensures items { drawn.new.items ≡ drawn.old.items ++ ranks_drawn generator.old ids.now }
    ensures ranks { LeavesMore by_id.old drawn.old.items by_id.new drawn.new.items (ranks_drawn generator.old ids.now) }
    ensures drawn { generator.new ≡ generator_after generator.old ids.now }
    ensures finds { FindsRanks by_id.new (ranks_left by_id.new drawn.new.items) }
{
    for id in ids {
        let rank = generator.next_word();
        note_rank(by_id, *id, rank);
        let _ = drawn.push(Rank { id: *id, rank });
    }
}

/// The id has this rank, if it had none. There is room for it.
fn note_rank(by_id: &mut HashMap<u32, u32>, id: u32, rank: u32)
    requires { 0 < spare by_id.old }
    ensures ranks { GivesRank by_id.old by_id.new id rank }
    ensures spare { spare by_id.old ≤ spare by_id.new + 1 }
{
    if !by_id.contains_key(&id) {
        let _ = by_id.insert(id, rank);
    }
}

fn forget_all(by_id: &mut HashMap<u32, u32>, ids: &[u32])
    ensures { LosesRanks by_id.old by_id.new ids.now }
{
    for id in ids {
        let _ = by_id.remove(id);
    }
}

/// Keeps the ranks of the ids that have one still.
fn keep_known(drawn: &mut Vec<Rank>, by_id: &HashMap<u32, u32>)
    ensures items { drawn.new.items ≡ ranks_left by_id.now drawn.old.items }
    ensures left { KeepsLeft by_id.now drawn.old.items drawn.new.items }
    ensures len { vec_len drawn.new ≤ vec_len drawn.old }
    ensures room { vec_capacity drawn.new ≡ vec_capacity drawn.old }
{
    drawn.retain(|r| by_id.contains_key(&r.id));
}
