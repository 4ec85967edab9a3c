//! Rounds of a random order, and what follows when a song ends.
//!
//! A random order is not a list that is shuffled once, since the queue changes while it is played. Each
//! entry draws a rank when it comes, and keeps it; the order is by priority, then by rank, and the next
//! song is the first that was not played in this round. So an edit of the queue needs no repair of an
//! order: what leaves takes its rank along, and what comes has its own. A round is over when each entry was
//! played; a new one begins with new ranks, by `repeat` or by hand.
//!
//! Two things are kept beside the queue, which the round does not own: the ranks by id, and the ids that
//! were played, the last one last, so that `previous` has a way back. A call is handed the queue and speaks
//! of any queue. What holds between the two, that the ids played are some of the queue's, is a law over all
//! steps of a player (`PlayedStayQueued`), and not an invariant here. Beside them the unplayed entries of the
//! last queue may stand in their order (`Waiting`), which contracts do not see.
ghost use Rattle.std.specs.Prelude.{◌≡◌, ◌≤◌, ◌-◌, ◌&&◌, not, true, ◌≢◌, length, AllPairs, IfOk, OnOk, OnErr, None, is_some};
ghost use Rattle.std.specs.Option.{option_copied};
ghost use Rattle.rand_core.specs.Pcg32Seed.{pcg32_seed};
ghost use Rattle.rand_pcg.specs.Pcg.{pcg32_of_seed};
ghost use Rattle.song_queue.specs.State.{edited, inserted, queue_of, removed as removed_lem};
ghost use Rattle.song_queue.specs.declared.edit.Edit.TheVariants.{Insert};
ghost use Rattle.song_queue.specs.Laws.{Takes};
ghost use Rattle.play_order.specs.Draws.{RoundState, LackIds, added as added_lem, drawn_from, emptied as emptied_lem, generator_after_words, ids_of, moved_last, opened, renewed, without, words_drawn};
ghost use Rattle.play_order.specs.Order.{begun_anew, left_by, new_ids, opening_of, randomized as randomized_lem, round_after_opening, started as started_lem};
ghost use Rattle.play_order.specs.Ends.{GoesOnAt, IsEndingOf, IsFirstAnew, IsIdOf, after_end as after_end_lem, after_next as after_next_lem, ahead_after as ahead_after_lem, before as before_lem, consume_after as consume_after_lem, consumes as consumes_lem, ending_of, entries_left, id_of, again as again_lem, alone, peek as peek_lem, gone_back, modes_after as modes_after_lem, next_after_removal, played_again, round_after, round_after_previous, round_left, single_after as single_after_lem};
ghost use Rattle.play_order.specs.Queues.{IsNextAfterRemoval, IsRoundAfterRemoval, TellsStart, ids_in, next_without, queue_after_end, queue_after_next, round_without, shuffled_by};

use crate::ending::Ending;
use crate::modes::{Consume, Modes, Single};
use crate::played::Played;
use crate::ranks::Ranks;
use crate::scan::{any_left, at_or_first_left, entry_with, first_left, ids_left, taken_ids};
use crate::waiting::{Waiting, first_entry, is_kept, leave};
use mpd_text::Sequence;
use rand_core::SeedableRng;
use rand_core::utils::NextWord;
use rand_pcg::Lcg64Xsh32;
use song_db::SharedSong;
use song_queue::{Edit, Entry, Queue};
use std::alloc::{AllocError, Global};
use std::marker::Model;
use std::ops::Range;

/// What is remembered of a random order: each entry's rank, the songs that were played in this round, and the
/// generator that ranks are drawn from. Contracts see the ranks and the ids as lists.
pub struct Round {
    ranks: Ranks,
    played: Played,
    generator: Lcg64Xsh32,
    waiting: Option<Waiting>,
}

impl Drop for Round {
    fn drop(self) {
        let Round {
            ranks: _,
            played: _,
            generator: _,
            waiting: _,
        } = self;
    }
}

impl Model for Round {
    ghost use Rattle.std.specs.Prelude.{IfSome};
    ghost use Rattle.play_order.specs.Draws.{RoundState};
    ghost use Rattle.play_order.specs.Waits.{IsOrderOf};

    ghost Value = { RoundState };

    ghost view = { λ r. record { ranks = r.ranks; played = r.played; generator = r.generator } };

    ghost invariant = { λ r. IfSome r.waiting (IsOrderOf r.ranks r.played) };
}

impl Round {
    /// The round of an empty queue, with a generator made of this seed.
    pub fn new(alloc: Global, seed: u64) -> Round
        ensures { result ≡ opened (pcg32_of_seed (pcg32_seed 16 seed)) }
    {
        Round {
            ranks: Ranks::new(alloc),
            played: Played::new(alloc),
            generator: Lcg64Xsh32::seed_from_u64(seed),
            waiting: None,
        }
    }

    /// What is remembered, a second time: what becomes of either leaves the other as it is.
    pub fn image(&self) -> Result<Round, AllocError>
        ensures { IfOk result (λ image. image ≡ self.now) }
    {
        Ok(Round {
            ranks: self.ranks.image()?,
            played: self.played.image()?,
            generator: self.generator.clone()?,
            waiting: None,
        })
    }

    /// Entries with these ids joined the queue: each draws a rank, also while the order is not random.
    pub fn added(&mut self, ids: &[u32]) -> Result<(), AllocError>
        ensures ok { OnOk result (self.new ≡ added_lem self.old ids.now) }
        ensures err { OnErr result (self.new ≡ self.old) }
    {
        self.waiting = None;
        self.ranks.draw(&mut self.generator, ids)
    }

    /// Puts songs into a queue that can take them, and each of the new entries draws a rank. Where memory runs
    /// out, nothing changes.
    pub fn insert(
        &mut self,
        queue: &mut Queue,
        at: usize,
        songs: Sequence<SharedSong>,
    ) -> Result<(), AllocError>
        requires { Takes queue.old (Insert at songs) }
        ensures round { OnOk result (self.new ≡ added_lem self.old (new_ids queue.old songs)) }
        ensures queue { OnOk result (queue.new ≡ inserted queue.old at songs) }
        ensures err { OnErr result (self.new ≡ self.old) }
        ensures err_queue { OnErr result (queue.new ≡ queue.old) }
    {
        self.waiting = None;
        self.ranks.insert(&mut self.generator, queue, at, songs)
    }

    /// Shuffles the entries of a range of the queue by words of the generator, one for each position of it but
    /// the first. Ranks and played songs stay. If memory runs out, nothing changes.
    pub fn shuffle(&mut self, queue: &mut Queue, range: Range<usize>) -> Result<(), AllocError>
        requires order { range.start ≤ range.end }
        requires within { range.end ≤ length (queue_of queue.old) }
        ensures round { OnOk result (self.new ≡ drawn_from self.old (range.end - range.start - 1)) }
        ensures queue { OnOk result (queue.new ≡ shuffled_by self.old queue.old range.start range.end) }
        ensures err { OnErr result (self.new ≡ self.old) }
        ensures err_queue { OnErr result (queue.new ≡ queue.old) }
    {
        let Range { start, end } = range;
        let mut generator = self.generator.clone()?;
        let count = (end - start).saturating_sub(1);
        let words = draw_words(self.ranks.allocator(), &mut generator, count)?;
        queue.edit(Edit::Shuffle(start, end, words))?;
        self.generator = generator;
        Ok(())
    }

    /// Entries with these ids left the queue. It takes no memory.
    pub fn removed(&mut self, ids: &[u32])
        ensures { self.new ≡ without self.old ids.now }
    {
        if ids.is_empty() {
            return;
        }
        self.waiting = None;
        self.ranks.remove(ids);
        self.played.remove(ids);
    }

    /// The entry with this id starts.
    pub fn started(&mut self, modes: Modes, id: u32) -> Result<(), AllocError>
        ensures ok { OnOk result (self.new ≡ started_lem modes self.old id) }
        ensures err { OnErr result (self.new ≡ self.old) }
    {
        if modes.random { self.play(id) } else { Ok(()) }
    }

    /// The id becomes the last that was played, and its entry waits no more.
    fn play(&mut self, id: u32) -> Result<(), AllocError>
        ensures ok { OnOk result (self.new ≡ record self.old { played = moved_last self.old.played id }) }
        ensures err { OnErr result (self.new ≡ self.old) }
    {
        self.played.move_last(id)?;
        leave(&mut self.waiting, id);
        Ok(())
    }

    /// If it is needed, the order of this queue is kept from now on. If memory runs out, none is.
    fn keep_order(&mut self, needed: bool, queue: &Queue)
        ensures { self.new ≡ self.old }
    {
        if !needed || is_kept(&self.waiting, queue) {
            return;
        }
        self.waiting = match Waiting::of(&self.ranks, &self.played, queue) {
            Ok(waiting) => Some(waiting),
            Err(_) => None,
        };
    }

    /// Random order is turned on: each entry draws a rank, in order of position, and only the current song was
    /// played.
    pub fn randomized(&mut self, queue: &Queue, current: Option<u32>) -> Result<(), AllocError>
        ensures ok { OnOk result (self.new ≡ randomized_lem self.old (queue_of queue.now) current) }
        ensures err { OnErr result (self.new ≡ self.old) }
    {
        let mut round = self.drawn_anew(queue, 0, 0)?;
        if let Some(id) = current {
            round.play(id)?;
        }
        round.keep_order(true, queue);
        *self = round;
        Ok(())
    }

    /// Random order is turned off: nothing counts as played. It takes no memory.
    pub fn emptied(&mut self)
        ensures { self.new ≡ emptied_lem self.old }
    {
        self.waiting = None;
        self.played.clear();
    }

    /// What the natural end of the song with this id would start, where no new round is needed. It takes no
    /// memory.
    pub fn peek<'a>(&self, modes: Modes, queue: &'a Queue, id: u32) -> Option<&'a Entry>
        ensures { option_copied result ≡ peek_lem modes self.now (queue_of queue.now) id }
    {
        match modes.single {
            Single::Off => self.ahead_after(modes, queue, id),
            Single::On => again(modes, queue, id),
            Single::Oneshot => None,
        }
    }

    /// What `previous` starts while the entry with this id is current. It takes no memory.
    pub fn before<'a>(&self, modes: Modes, queue: &'a Queue, id: u32) -> Option<&'a Entry>
        ensures { option_copied result ≡ before_lem modes self.now (queue_of queue.now) id }
    {
        if modes.random {
            let played = self.played.last_but(id);
            entry_with(queue, played.unwrap_or(id))
        } else {
            let len = queue.len();
            let position = queue.position_of(id).unwrap_or(len);
            if position == 0 && modes.repeat {
                queue.get(len.saturating_sub(1))
            } else {
                queue.get(position.saturating_sub(1))
            }
        }
    }

    /// Whether an entry starts at the natural end of the song with this id, also where a new round is needed.
    /// It takes no memory, so it can be asked before anything changes.
    pub fn starts_after_end(&self, modes: Modes, queue: &Queue, id: u32) -> bool
        ensures { result ≡ is_some (after_end_lem modes self.now (queue_of queue.now) id).entry }
    {
        match modes.single {
            Single::Off => self.starts_after_next(modes, queue, id),
            Single::On => again(modes, queue, id).is_some(),
            Single::Oneshot => false,
        }
    }

    /// Whether an entry starts where the song with this id is ended by `next`, as `starts_after_end`.
    pub fn starts_after_next(&self, modes: Modes, queue: &Queue, id: u32) -> bool
        ensures { result ≡ is_some (after_next_lem modes self.now (queue_of queue.now) id).entry }
    {
        let Span {
            from,
            end,
            position,
        } = span_of(modes, queue, id);
        self.goes_on(modes, queue, from, end, position)
    }

    /// Whether an entry starts where those of a range are taken out, of which one is current, as
    /// `starts_after_end`.
    pub fn starts_after_removal(&self, modes: Modes, queue: &Queue, range: Range<usize>) -> bool
        requires order { range.start ≤ range.end }
        requires within { range.end ≤ length (queue_of queue.now) }
        ensures { result ≡ is_some (next_after_removal modes self.now (queue_of queue.now) range.start range.end) }
    {
        let Range { start, end } = range;
        self.goes_on(modes, queue, start, end, start)
    }

    /// The song with this id is left by `previous`, and what that starts is given. Nothing is consumed.
    pub fn after_previous(
        &mut self,
        modes: Modes,
        queue: &Queue,
        id: u32,
    ) -> Result<Option<u32>, AllocError>
        ensures round { OnOk result (self.new ≡ round_after_previous modes self.old (queue_of queue.now) id) }
        ensures starts { IfOk result (IsIdOf (before_lem modes self.old (queue_of queue.now) id)) }
        ensures err { OnErr result (self.new ≡ self.old) }
    {
        let starts = id_at(self.before(modes, queue, id));
        if modes.random {
            self.go_back(id, starts)?;
        }
        Ok(starts)
    }

    /// The player begins with no current song: a round that is over is renewed, whatever repeat is, and what
    /// comes first starts.
    pub fn opening(&mut self, modes: Modes, queue: &Queue) -> Result<Option<u32>, AllocError>
        ensures round { OnOk result (self.new ≡ round_after_opening modes self.old (queue_of queue.now)) }
        ensures starts { IfOk result (IsIdOf (opening_of modes self.old (queue_of queue.now))) }
        ensures err { OnErr result (self.new ≡ self.old) }
    {
        let repeating = Modes {
            repeat: true,
            ..modes
        };
        let starts = self.go_on(repeating, queue, 0, 0, &[], 0)?;
        self.keep_order(keeps_order(modes), queue);
        Ok(starts)
    }

    /// The song with this id came to its natural end. It is taken out of the queue and of the round where it
    /// is consumed, a round that is over is renewed, and what comes next starts. If memory runs out,
    /// nothing changes.
    pub fn after_end(
        &mut self,
        modes: Modes,
        queue: &mut Queue,
        id: u32,
    ) -> Result<Ending, AllocError>
        ensures round { OnOk result (self.new ≡ round_after (after_end_lem modes self.old (queue_of queue.old) id)) }
        ensures queue { OnOk result (queue.new ≡ queue_after_end modes self.old queue.old id) }
        ensures ending { IfOk result (IsEndingOf (after_end_lem modes self.old (queue_of queue.old) id)) }
        ensures err { OnErr result (self.new ≡ self.old) }
        ensures err_queue { OnErr result (queue.new ≡ queue.old) }
    {
        match modes.single {
            Single::Off => self.after_next(modes, queue, id),
            Single::On => self.play_again(modes, queue, id),
            Single::Oneshot => Ok(self.stop_after(modes, queue, id)),
        }
    }

    /// The song with this id is ended by `next`: as by `after_end`, as if single were off.
    pub fn after_next(
        &mut self,
        modes: Modes,
        queue: &mut Queue,
        id: u32,
    ) -> Result<Ending, AllocError>
        ensures round { OnOk result (self.new ≡ round_after (after_next_lem modes self.old (queue_of queue.old) id)) }
        ensures queue { OnOk result (queue.new ≡ queue_after_next modes self.old queue.old id) }
        ensures ending { IfOk result (IsEndingOf (after_next_lem modes self.old (queue_of queue.old) id)) }
        ensures err { OnErr result (self.new ≡ self.old) }
        ensures err_queue { OnErr result (queue.new ≡ queue.old) }
    {
        let Span {
            from,
            end,
            position,
        } = span_of(modes, queue, id);
        let starts = if consumes(modes.consume) {
            self.go_on(modes, queue, from, end, &[id], position)?
        } else {
            self.go_on(modes, queue, from, end, &[], position)?
        };
        take_out(queue, from, end);
        self.keep_order(keeps_order(modes), queue);
        let consume = consume_after(modes.consume);
        Ok(Ending {
            modes: Modes { consume, ..modes },
            starts,
            current: None,
        })
    }

    /// Takes the entries of a range, of which one is current, out of the queue and of the round; a round that
    /// is over is renewed, and what comes next starts. If memory runs out, nothing changes.
    pub fn after_removal(
        &mut self,
        modes: Modes,
        queue: &mut Queue,
        range: Range<usize>,
    ) -> Result<Option<u32>, AllocError>
        requires order { range.start ≤ range.end }
        requires within { range.end ≤ length (queue_of queue.old) }
        ensures round { OnOk result (IsRoundAfterRemoval modes self.old queue.old range self.new) }
        ensures queue { OnOk result (queue.new ≡ removed_lem queue.old range.start range.end) }
        ensures starts { IfOk result (IsNextAfterRemoval modes self.old queue.old range) }
        ensures err { OnErr result (self.new ≡ self.old) }
        ensures err_queue { OnErr result (queue.new ≡ queue.old) }
    {
        let Range { start, end } = range;
        let ids = taken_ids(self.ranks.allocator(), queue, start, end)?;
        let starts = self.go_on(modes, queue, start, end, &ids, start)?;
        take_out(queue, start, end);
        Ok(starts)
    }

    /// Takes the entries of a range, of which none is current, out of the queue and of the round. If
    /// memory runs out, nothing changes.
    pub fn remove(&mut self, queue: &mut Queue, range: Range<usize>) -> Result<(), AllocError>
        requires order { range.start ≤ range.end }
        requires within { range.end ≤ length (queue_of queue.old) }
        ensures round { OnOk result (self.new ≡ without self.old (ids_in queue.old range)) }
        ensures queue { OnOk result (queue.new ≡ removed_lem queue.old range.start range.end) }
        ensures err { OnErr result (self.new ≡ self.old) }
        ensures err_queue { OnErr result (queue.new ≡ queue.old) }
    {
        let Range { start, end } = range;
        let ids = taken_ids(self.ranks.allocator(), queue, start, end)?;
        take_out(queue, start, end);
        self.removed(&ids);
        Ok(())
    }

    /// The entries from a position up to another are about to leave the queue. Some ids, which are not those of
    /// what is left, leave the round; it is renewed where it is then over, and what comes next starts. If
    /// memory runs out, nothing changes.
    fn go_on(
        &mut self,
        modes: Modes,
        queue: &Queue,
        from: usize,
        end: usize,
        ids: &[u32],
        position: usize,
    ) -> Result<Option<u32>, AllocError>
        requires order { from ≤ end }
        requires within { end ≤ length (queue_of queue.now) }
        requires apart { LackIds (left_by (queue_of queue.now) from end) ids.now }
        ensures round { OnOk result (self.new ≡ round_without modes self.old ids.now queue.now from end position) }
        ensures starts { IfOk result (IsIdOf (next_without modes self.old ids.now queue.now from end position)) }
        ensures err { OnErr result (self.new ≡ self.old) }
    {
        if !modes.random {
            let starts = id_at(at_or_first_left(queue, modes.repeat, from, end, position));
            self.removed(ids);
            return Ok(starts);
        }
        match id_at(first_entry(&self.waiting, &self.ranks, &self.played, queue, from, end)) {
            Some(id) => {
                self.play(id)?;
                self.removed(ids);
                Ok(Some(id))
            }
            None => self.begin_anew(modes, queue, from, end),
        }
    }

    /// Whether an entry starts when the entries from a position up to another leave the queue and the round.
    fn goes_on(&self, modes: Modes, queue: &Queue, from: usize, end: usize, position: usize) -> bool
        requires order { from ≤ end }
        requires within { end ≤ length (queue_of queue.now) }
        ensures distinct { AllPairs (λ e f. e.id ≢ f.id) (queue_of queue.now) }
        ensures starts { TellsStart result modes self.now queue.now from end position }
    {
        let some = end - from < queue.len();
        if !modes.random {
            return at_or_first_left(queue, modes.repeat, from, end, position).is_some();
        }
        any_left(&self.played, queue, from, end) || (modes.repeat && some)
    }

    /// The round is over: each entry of what is left when those from a position up to another are taken out
    /// draws a rank, and with repeat the first one starts.
    fn begin_anew(
        &mut self,
        modes: Modes,
        queue: &Queue,
        from: usize,
        end: usize,
    ) -> Result<Option<u32>, AllocError>
        requires random { modes.random ≡ true }
        requires order { from ≤ end }
        requires within { end ≤ length (queue_of queue.now) }
        ensures round { OnOk result (self.new ≡ begun_anew modes self.old (left_by (queue_of queue.now) from end)) }
        ensures starts { IfOk result (IsFirstAnew modes self.old (left_by (queue_of queue.now) from end)) }
        ensures err { OnErr result (self.new ≡ self.old) }
    {
        let mut round = self.drawn_anew(queue, from, end)?;
        let starts = if modes.repeat {
            id_at(first_left(&round.ranks, &round.played, queue, from, end))
        } else {
            None
        };
        if let Some(id) = starts {
            round.play(id)?;
        }
        *self = round;
        Ok(starts)
    }

    /// A new round of what is left of a queue when the entries from a position up to another are taken out.
    fn drawn_anew(&self, queue: &Queue, from: usize, end: usize) -> Result<Round, AllocError>
        requires order { from ≤ end }
        requires within { end ≤ length (queue_of queue.now) }
        ensures { IfOk result (λ round. round ≡ renewed self.now (ids_of (left_by (queue_of queue.now) from end))) }
    {
        let alloc = self.ranks.allocator();
        let ids = ids_left(alloc, queue, from, end)?;
        let mut generator = self.generator.clone()?;
        let mut ranks = Ranks::new(alloc);
        ranks.draw(&mut generator, &ids)?;
        Ok(Round {
            ranks,
            played: Played::new(alloc),
            generator,
            waiting: None,
        })
    }

    /// An id leaves the played songs, and another one becomes the last of them, if there is one.
    fn go_back(&mut self, id: u32, starts: Option<u32>) -> Result<(), AllocError>
        ensures ok { OnOk result (self.new ≡ gone_back self.old id starts) }
        ensures err { OnErr result (self.new ≡ self.old) }
    {
        self.waiting = None;
        match starts {
            Some(other) => self.played.leave_for(id, other),
            None => {
                self.played.remove_one(id);
                Ok(())
            }
        }
    }

    /// What comes after the song with this id, where no new round is needed.
    fn ahead_after<'a>(&self, modes: Modes, queue: &'a Queue, id: u32) -> Option<&'a Entry>
        ensures { option_copied result ≡ ahead_after_lem modes self.now (queue_of queue.now) id }
    {
        let Span {
            from,
            end,
            position,
        } = span_of(modes, queue, id);
        if modes.random {
            first_entry(&self.waiting, &self.ranks, &self.played, queue, from, end)
        } else {
            at_or_first_left(queue, modes.repeat, from, end, position)
        }
    }

    /// With repeat the song with this id starts again, unless it is consumed; else the player stops after it.
    fn play_again(&mut self, modes: Modes, queue: &mut Queue, id: u32) -> Result<Ending, AllocError>
        ensures round { OnOk result (self.new ≡ round_after (played_again modes self.old (queue_of queue.old) id)) }
        ensures queue { OnOk result (queue.new ≡ edited queue.old (entries_left modes (queue_of queue.old) id)) }
        ensures ending { IfOk result (IsEndingOf (played_again modes self.old (queue_of queue.old) id)) }
        ensures err { OnErr result (self.new ≡ self.old) }
        ensures err_queue { OnErr result (queue.new ≡ queue.old) }
    {
        match id_at(again(modes, queue, id)) {
            Some(starts) => {
                self.started(modes, starts)?;
                Ok(Ending {
                    modes: modes_after(modes),
                    starts: Some(starts),
                    current: Some(id),
                })
            }
            None => Ok(self.stop_after(modes, queue, id)),
        }
    }

    /// The player stops after the song with this id. It takes no memory.
    fn stop_after(&mut self, modes: Modes, queue: &mut Queue, id: u32) -> Ending
        ensures round { self.new ≡ round_left modes self.old id }
        ensures queue { queue.new ≡ edited queue.old (entries_left modes (queue_of queue.old) id) }
        ensures ending { result ≡ ending_of (alone modes self.old (queue_of queue.old) id None) }
    {
        if !consumes(modes.consume) {
            return Ending {
                modes: modes_after(modes),
                starts: None,
                current: Some(id),
            };
        }
        let Span { from, end, .. } = span_of(modes, queue, id);
        take_out(queue, from, end);
        self.removed(&[id]);
        Ending {
            modes: modes_after(modes),
            starts: None,
            current: None,
        }
    }
}

/// What consume takes out of a queue when a song ends, as positions, and where the order goes on in what is
/// left.
#[derive(Clone, Copy)]
struct Span {
    from: usize,
    end: usize,
    position: usize,
}

fn span_of(modes: Modes, queue: &Queue, id: u32) -> Span
    ensures order { result.from ≤ result.end }
    ensures within { result.end ≤ length (queue_of queue.now) }
    ensures left { left_by (queue_of queue.now) result.from result.end ≡ entries_left modes (queue_of queue.now) id }
    ensures position { GoesOnAt modes (queue_of queue.now) id result.position }
{
    let len = queue.len();
    match queue.position_of(id) {
        Some(position) => {
            if consumes(modes.consume) {
                Span {
                    from: position,
                    end: position + 1,
                    position,
                }
            } else {
                Span {
                    from: 0,
                    end: 0,
                    position: position + 1,
                }
            }
        }
        None => Span {
            from: 0,
            end: 0,
            position: len,
        },
    }
}

/// Takes the entries from a position up to another out.
fn take_out(queue: &mut Queue, from: usize, end: usize)
    requires order { from ≤ end }
    requires within { end ≤ length (queue_of queue.old) }
    ensures { queue.new ≡ edited queue.old (left_by (queue_of queue.old) from end) }
{
    match queue.remove(from..end) {
        Ok(()) => {}
        Err(_) => unreachable!(),
    }
}

/// The song with this id, where single plays it again.
fn again(modes: Modes, queue: &Queue, id: u32) -> Option<&Entry>
    ensures { option_copied result ≡ again_lem modes (queue_of queue.now) id }
{
    if modes.repeat && !consumes(modes.consume) {
        entry_with(queue, id)
    } else {
        None
    }
}

fn id_at(entry: Option<&Entry>) -> Option<u32>
    ensures { result ≡ id_of (option_copied entry.entry) }
{
    match entry {
        Some(entry) => Some(entry.id),
        None => None,
    }
}

fn consumes(consume: Consume) -> bool
    ensures { result ≡ consumes_lem consume }
{
    match consume {
        Consume::Off => false,
        Consume::On | Consume::Oneshot => true,
    }
}

/// Whether it pays to keep a random order: what consumes changes the queue at each song.
fn keeps_order(modes: Modes) -> bool
    ensures { result ≡ (modes.random && not (consumes_lem modes.consume)) }
{
    modes.random && !consumes(modes.consume)
}

fn consume_after(consume: Consume) -> Consume
    ensures { result ≡ consume_after_lem consume }
{
    match consume {
        Consume::On => Consume::On,
        Consume::Off | Consume::Oneshot => Consume::Off,
    }
}

fn single_after(single: Single) -> Single
    ensures { result ≡ single_after_lem single }
{
    match single {
        Single::On => Single::On,
        Single::Off | Single::Oneshot => Single::Off,
    }
}

/// The modes after a song at whose end single was heeded.
fn modes_after(modes: Modes) -> Modes
    ensures { result ≡ modes_after_lem modes }
{
    let single = single_after(modes.single);
    let consume = consume_after(modes.consume);
    Modes {
        single,
        consume,
        ..modes
    }
}

/// So many words, drawn one after another.
fn draw_words(
    alloc: Global,
    generator: &mut Lcg64Xsh32,
    count: usize,
) -> Result<Sequence<u32>, AllocError>
    ensures words { IfOk result (λ words. words ≡ words_drawn generator.old count) }
    ensures drawn { OnOk result (generator.new ≡ generator_after_words generator.old count) }
{
    let mut words = Sequence::new(alloc);
    for _ in 0..count {
        let word = generator.next_word();
        words.push(word).map_err(AllocError::from)?;
    }
    Ok(words)
}
