//! Goes through what is left of a queue when the entries from one position up to another are taken out.
ghost use Rattle.std.specs.Prelude.{◌≡◌, ◌≤◌, ◌+◌, ◌++◌, List, is_some, length, slice_get, ◌-◌, IfOk, OnErr, OnOk, vec_capacity, vec_len};
ghost use Rattle.std.specs.List.{slice_range};
ghost use Rattle.std.specs.Option.{option_copied};
ghost use Rattle.song_queue.specs.declared.edit.Edit.TheVariants.{Insert};
ghost use Rattle.song_queue.specs.Laws.{Takes};
ghost use Rattle.song_queue.specs.State.{entries_of, inserted, queue_of};
ghost use Rattle.play_order.specs.declared.modes.Rank.{Rank};
ghost use Rattle.play_order.specs.Draws.{LackIds, ids_of};
ghost use Rattle.play_order.specs.Order.{at_or_first, entry_of, ids_taken, left_by, new_ids, ranked_before};
ghost use Rattle.play_order.specs.Scans.{best_among, best_within, first_in, has_unplayed, precedes as precedes_lem, rank_of_best as rank_of_best_lem};

use crate::played::Played;
use crate::ranks::Ranks;
use mpd_text::Sequence;
use song_db::SharedSong;
use song_queue::{Edit, Entry, Queue, Slot};
use std::alloc::{AllocError, Global};

/// The unplayed entry that comes first of what is left.
pub(crate) fn first_left<'a>(
    ranks: &Ranks,
    played: &Played,
    queue: &'a Queue,
    from: usize,
    end: usize,
) -> Option<&'a Entry>
    requires order { from ≤ end }
    requires within { end ≤ length (queue_of queue.now) }
    ensures { option_copied result ≡ first_in ranks.now played.now queue.now from end }
{
    let best = first_within(ranks, played, queue, 0, from, None);
    first_within(ranks, played, queue, end, queue.len(), best)
}

/// Whether an entry of what is left was not played; whatever the ranks, one of these then comes first. The
/// queue is gone through as far as the first of them.
pub(crate) fn any_left(played: &Played, queue: &Queue, from: usize, end: usize) -> bool
    requires order { from ≤ end }
    requires within { end ≤ length (queue_of queue.now) }
    ensures { (ranks : List Rank) → result ≡ is_some (first_in ranks played.now queue.now from end) }
{
    let len = queue.len();
    any_within(played, queue, 0, from) || any_within(played, queue, end, len)
}

/// Whether an entry from a position up to another was not played.
fn any_within(played: &Played, queue: &Queue, from: usize, end: usize) -> bool
    requires order { from ≤ end }
    requires within { end ≤ length (queue_of queue.now) }
    ensures { result ≡ has_unplayed played.now (slice_range (queue_of queue.now) from end) }
{
    let mut at = from;
    while at < end {
        let run = queue.run(at, end);
        if any_of_run(played, run) {
            return true;
        }
        at += run.len();
    }
    false
}

/// Whether an entry of some slots was not played.
fn any_of_run(played: &Played, run: &[Slot]) -> bool
    ensures { result ≡ has_unplayed played.now (entries_of run.now) }
{
    for slot in run {
        if !played.has(slot.entry.id) {
            return true;
        }
    }
    false
}

/// The entry that comes first of the best so far and the unplayed ones from a position up to another.
fn first_within<'a>(
    ranks: &Ranks,
    played: &Played,
    queue: &'a Queue,
    from: usize,
    end: usize,
    best: Option<&'a Entry>,
) -> Option<&'a Entry>
    requires order { from ≤ end }
    requires within { end ≤ length (queue_of queue.now) }
    ensures { option_copied result ≡ best_within ranks.now played.now queue.now from end (option_copied best.entry) }
{
    let mut first = best;
    let mut at = from;
    while at < end {
        let run = queue.run(at, end);
        first = first_of_run(ranks, played, run, first);
        at += run.len();
    }
    first
}

/// The entry that comes first of the best so far and the unplayed ones of some slots. The rank of each is
/// looked up once, and whether it was played only where it would be the best.
fn first_of_run<'a>(
    ranks: &Ranks,
    played: &Played,
    run: &'a [Slot],
    best: Option<&'a Entry>,
) -> Option<&'a Entry>
    ensures { option_copied result ≡ best_among ranks.now played.now (entries_of run.now) (option_copied best.entry) }
{
    let mut first = best;
    let mut least = rank_of_best(ranks, best);
    for slot in run {
        let entry = &slot.entry;
        let rank = ranks.rank(entry.id);
        if precedes(entry, rank, first, least) && !played.has(entry.id) {
            first = Some(entry);
            least = rank;
        }
    }
    first
}

/// The rank of the best so far; 0, if there is none.
fn rank_of_best(ranks: &Ranks, best: Option<&Entry>) -> u32
    ensures { result ≡ rank_of_best_lem ranks.now (option_copied best.entry) }
{
    match best {
        None => 0,
        Some(entry) => ranks.rank(entry.id),
    }
}

/// Whether an entry with a rank comes before the best so far, which has another.
fn precedes(entry: &Entry, rank: u32, best: Option<&Entry>, least: u32) -> bool
    ensures { result ≡ precedes_lem entry.now rank (option_copied best.entry) least }
{
    match best {
        None => true,
        Some(other) => comes_before(entry, rank, other, least),
    }
}

fn comes_before(a: &Entry, rank_a: u32, b: &Entry, rank_b: u32) -> bool
    ensures { result ≡ ranked_before a.now rank_a b.now rank_b }
{
    if a.priority != b.priority {
        return b.priority < a.priority;
    }
    rank_a < rank_b || (rank_a == rank_b && a.id < b.id)
}

/// The entry at a position of what is left; with repeat the first one, if there is none.
pub(crate) fn at_or_first_left(
    queue: &Queue,
    repeat: bool,
    from: usize,
    end: usize,
    position: usize,
) -> Option<&Entry>
    requires order { from ≤ end }
    requires within { end ≤ length (queue_of queue.now) }
    ensures { option_copied result ≡ at_or_first repeat (left_by (queue_of queue.now) from end) position }
{
    match get_left(queue, from, end, position) {
        Some(entry) => Some(entry),
        None => {
            if repeat {
                get_left(queue, from, end, 0)
            } else {
                None
            }
        }
    }
}

/// The entry at a position of what is left.
fn get_left(queue: &Queue, from: usize, end: usize, position: usize) -> Option<&Entry>
    requires order { from ≤ end }
    requires within { end ≤ length (queue_of queue.now) }
    ensures { option_copied result ≡ slice_get (left_by (queue_of queue.now) from end) position }
{
    let taken = end - from;
    if position < from {
        return queue.get(position);
    }
    if position >= queue.len() - taken {
        return None;
    }
    queue.get(position + taken)
}

/// The entry of the queue with an id, if there is one.
pub fn entry_with(queue: &Queue, id: u32) -> Option<&Entry>
    ensures { option_copied result ≡ entry_of (queue_of queue.now) id }
{
    match queue.position_of(id) {
        Some(position) => queue.get(position),
        None => None,
    }
}

/// The ids of the entries from a position up to another.
pub(crate) fn taken_ids(
    alloc: Global,
    queue: &Queue,
    from: usize,
    end: usize,
) -> Result<Vec<u32>, AllocError>
    requires order { from ≤ end }
    requires within { end ≤ length (queue_of queue.now) }
    ensures ids { IfOk result (λ ids. ids.items ≡ ids_taken (queue_of queue.now) from end) }

    // They are not those of what is left.
    ensures apart { IfOk result (λ ids. LackIds (left_by (queue_of queue.now) from end) ids.items) }
{
    // That ids are distinct comes with the length.
    let _len = queue.len();
    let mut ids = Vec::new(alloc);
    push_ids(&mut ids, queue, from, end)?;
    Ok(ids)
}

/// The ids of what is left.
pub(crate) fn ids_left(
    alloc: Global,
    queue: &Queue,
    from: usize,
    end: usize,
) -> Result<Vec<u32>, AllocError>
    requires order { from ≤ end }
    requires within { end ≤ length (queue_of queue.now) }
    ensures { IfOk result (λ ids. ids.items ≡ ids_of (left_by (queue_of queue.now) from end)) }
{
    let mut ids = Vec::new(alloc);
    push_ids(&mut ids, queue, 0, from)?;
    push_ids(&mut ids, queue, end, queue.len())?;
    Ok(ids)
}

/// The ids of the entries from a position up to another come after some ids.
fn push_ids(ids: &mut Vec<u32>, queue: &Queue, from: usize, end: usize) -> Result<(), AllocError>
    requires order { from ≤ end }
    requires within { end ≤ length (queue_of queue.now) }
    ensures { OnOk result (ids.new.items ≡ ids.old.items ++ ids_taken (queue_of queue.now) from end) }
{
    let mut at = from;
    while at < end {
        let run = queue.run(at, end);
        push_run(ids, run)?;
        at += run.len();
    }
    Ok(())
}

fn push_run(ids: &mut Vec<u32>, run: &[Slot]) -> Result<(), AllocError>
    ensures { OnOk result (ids.new.items ≡ ids.old.items ++ ids_of (entries_of run.now)) }
{
    for slot in run {
        ids.push(slot.entry.id)?;
    }
    Ok(())
}

/// Puts songs into a queue that can take them, and gives the ids of their entries. If memory runs out,
/// nothing changes.
pub(crate) fn put_in(
    alloc: Global,
    queue: &mut Queue,
    at: usize,
    songs: Sequence<SharedSong>,
) -> Result<Vec<u32>, AllocError>
    requires { Takes queue.old (Insert at songs) }
    ensures ids { IfOk result (λ ids. ids.items ≡ new_ids queue.old songs) }
    ensures queue { OnOk result (queue.new ≡ inserted queue.old at songs) }
    ensures err { OnErr result (queue.new ≡ queue.old) }
{
    let mut ids = Vec::with_capacity(alloc, songs.items().len())?;
    let after = queue.len() - at;
    queue.edit(Edit::Insert(at, songs))?;
    fill_ids(&mut ids, queue, at, queue.len() - after);
    Ok(ids)
}

/// The ids of the entries from a position up to another come after some ids, where there is room for them.
fn fill_ids(ids: &mut Vec<u32>, queue: &Queue, from: usize, end: usize)
    requires order { from ≤ end }
    requires within { end ≤ length (queue_of queue.now) }
    requires room { vec_len ids.old + (end - from) ≤ vec_capacity ids.old }
    ensures { ids.new.items ≡ ids.old.items ++ ids_taken (queue_of queue.now) from end }
{
    for position in from..end {
        if let Some(entry) = queue.get(position) {
            let _ = ids.push(entry.id);
        }
    }
}
