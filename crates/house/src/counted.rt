//! The player, with the books that count each seat's events.
ghost use Rattle.std.specs.Prelude.{◌≡◌, IfOk};
ghost use Rattle.song_queue.specs.State.{queue_of};
ghost use Rattle.house.specs.Counts.{done_in, is_playing as is_playing_lem, song_at, song_of};

use crate::frames::{decoded_in, discarded_in, written_in};
use crate::ledgers::Ledgers;
use crate::present_partitions::present_in;
use crate::seat::{Seat, SeatBooks};
use crate::wake_fingerprint::WakeFingerprint;
use command_lists::ListForm;
use mpd_command::Request;
use partition::{ListFault, ListOutcome, Partition, PartitionFault};
use player_core::Playback;
use player_events::{Event, Logged, Outcome};
use player_state::{Client, Part};
use shelf::Shelf;
use song_db::SharedSong;
use song_queue::Queue;
use std::alloc::AllocError;
use std::marker::Model;

/// The player, each of whose events is one of a seat. Contracts see it as its history.
#[derive(Drop)]
pub struct Counted<L: Ledgers> {
    partition: Partition,
    seats: SeatBooks<L>,
}

impl<L: Ledgers> Model for Counted<L> {
    ghost use Rattle.std.specs.Prelude.{◌≡◌};
    ghost use Rattle.partition.specs.History.{Chronicle};
    ghost use Rattle.house.specs.Counts.{owns};

    ghost Value = { Chronicle };

    // A filter, which an event may have, holds itself, so its code is named.
    ghost use Rattle.filters.specs.contracts.expression.Filter as filter;
    ghost use Rattle.std.specs.Coded.{codes};

    ghost coded = { Prim.hlevel (codes, filter.the_row.coded) };

    ghost view = { λ c. c.partition };

    ghost invariant = { λ c. c.seats ≡ owns c.partition.present.shared.made };
}

impl<L: Ledgers> Counted<L> {
    ghost use Rattle.std.specs.Prelude.{◌≡◌, [], ◌∷◌, None, false};
    ghost use Rattle.std.specs.Prelude.{IfErr, IfOk, OnErr, OnOk};
    ghost use Rattle.partition.specs.History.{with_room};
    ghost use Rattle.partition.specs.Legal.{IsPast};
    ghost use Rattle.partition.specs.Step.{limit_of, told as told_of};
    ghost use Rattle.partition.specs.Steps.{RefusesStep};
    ghost use Rattle.player_events.specs.Events.{is_line};
    ghost use Rattle.house.specs.Counts.{any_plays, done_in, has_scan, song_at};
    ghost use Rattle.house.specs.Counts.{AnswersEvent, ArePresentPartitions, Fails, Halts, IsCounted, IsFresh};
    ghost use Rattle.house.specs.Counts.{JoinsEvent, JoinsStep, Runs};
    ghost use Rattle.house.specs.Seats.{after_events};

    /// A player of which no seat made an event yet.
    pub fn new(partition: Partition, seats: SeatBooks<L>) -> Self
        requires fresh { IsFresh partition.present }
        requires seats { seats ≡ 0 ∷ 0 ∷ 0 ∷ 0 ∷ [] }
        ensures { result ≡ partition }
    {
        Counted { partition, seats }
    }

    /// The caller's count is the number of its seat's events, and the value is a past's. Nothing changes.
    pub fn check(&mut self, seat: &mut Seat<L>)
        ensures found { IsCounted seat.old self.old }
        ensures legal { IsPast self.old }
        ensures same { (self.new ≡ self.old) × (seat.new ≡ seat.old) }
    {
        let Counted { partition, seats } = self;
        let _past = partition.history();
        seats.audit(seat);
    }

    /// One event of a seat.
    pub fn apply<S: Shelf>(
        &mut self,
        seat: &mut Seat<L>,
        shelf: &mut S,
        event: Event,
    ) -> Result<Outcome, PartitionFault>
        // The caller's count is the number of its seat's events, and the value that was found is a past's.
        ensures found { IsCounted seat.old self.old }
        ensures legal { IsPast self.old }
        ensures base { OnOk result (self.new.base ≡ (with_room self.old).base) }
        ensures limit { self.new.limit ≡ self.old.limit }
        ensures ok { IfOk result (JoinsEvent S.Shelf self.old self.new shelf.old shelf.new seat.old event) }
        ensures made { OnOk result (seat.new ≡ after_events seat.old 1) }
        ensures seat { OnErr result (seat.new ≡ seat.old) }
        ensures refused { IfErr result (Fails S.Shelf self.old self.new shelf.old shelf.new seat.old event) }
        ensures somewhere { IfOk result (AnswersEvent S.Shelf shelf.old shelf.new seat.old event) }
    {
        let Counted { partition, seats } = self;
        let _past = partition.history();
        seats.audit(seat);
        let outcome = partition.apply(seat.number(), shelf, event)?;
        seats.count(seat, 1);
        Ok(outcome)
    }

    /// One event of a seat that is no line. It asks no shelf.
    pub fn step(&mut self, seat: &mut Seat<L>, event: Event) -> Result<Outcome, PartitionFault>
        requires step { is_line event ≡ false }
        ensures found { IsCounted seat.old self.old }
        ensures legal { IsPast self.old }
        ensures told { IfOk result (λ outcome. outcome ≡ told_of self.old.present event) }
        ensures player { IfOk result (JoinsStep self.old self.new seat.old event) }
        ensures within { OnOk result (limit_of seat.old.number self.old.present event ≡ None) }
        ensures made { OnOk result (seat.new ≡ after_events seat.old 1) }
        ensures seat { OnErr result (seat.new ≡ seat.old) }
        ensures refused { IfErr result (λ fault. RefusesStep self.old self.new seat.old.number event fault) }
    {
        let Counted { partition, seats } = self;
        let _past = partition.history();
        seats.audit(seat);
        let outcome = partition.step(seat.number(), event)?;
        seats.count(seat, 1);
        Ok(outcome)
    }

    /// The requests of a command list, each as an event of the seat.
    pub fn run_list<S: Shelf>(
        &mut self,
        seat: &mut Seat<L>,
        shelf: &mut S,
        client: u32,
        form: ListForm,
        list: Vec<Request>,
    ) -> Result<ListOutcome, ListFault>
        ensures found { IsCounted seat.old self.old }
        ensures legal { IsPast self.old }
        ensures ok { Runs S.Shelf self.old self.new shelf.old shelf.new seat.old client form list result }
        ensures err { Halts S.Shelf self.old self.new shelf.old shelf.new seat.old client form list result }
        ensures books { self.new.present.shared.books ≡ self.old.present.shared.books }
        ensures made { seat.new ≡ after_events seat.old (done_in result) }
    {
        let Counted { partition, seats } = self;
        let _past = partition.history();
        seats.audit(seat);
        let end = partition.run_list(seat.number(), shelf, client, form, list);
        seats.count(seat, done_of(&end) as u64);
        end
    }

    /// The events of the window.
    pub fn history(&self) -> &[Logged]
        ensures window { result.now ≡ self.now.window }
        ensures legal { IsPast self.now }
    {
        self.partition.history()
    }

    /// What a thread at rest is woken for, where it changes.
    pub fn wake_fingerprint(&self) -> WakeFingerprint {
        WakeFingerprint::of(&self.partition)
    }

    /// Whether that changed since it was seen so. What was seen is then what there is now.
    pub fn wakes(&self, seen: &mut WakeFingerprint) -> bool {
        seen.renew(&self.partition)
    }

    /// Whether the daemon has ended.
    pub fn has_ended(&self) -> bool
        ensures ended { result ≡ self.now.present.shared.ended }
        ensures legal { IsPast self.now }
    {
        let _past = self.partition.history();
        self.partition.has_ended()
    }

    /// Whether a scan was asked for that has not ended.
    pub fn scans(&self) -> bool
        ensures scan { result ≡ has_scan self.now.present }
        ensures legal { IsPast self.now }
    {
        let _past = self.partition.history();
        self.partition.library().scan.running().is_some()
    }

    /// Whether a song is being played in some partition.
    pub fn plays(&self) -> bool
        ensures plays { result ≡ any_plays self.now.present.parts }
        ensures legal { IsPast self.now }
    {
        let _past = self.partition.history();
        self.partition.parts().iter().any(|part| is_playing(part))
    }

    /// Of sixteen numbers those of a partition.
    pub fn present_partitions(&self) -> [bool; 16]
        ensures present_partitions { ArePresentPartitions result self.now.present }
        ensures legal { IsPast self.now }
    {
        let _past = self.partition.history();
        present_in(&self.partition)
    }

    /// The song of an entry of the present queue of the partition of a number.
    pub fn song(&self, index: u8, id: u32) -> Result<Option<SharedSong>, AllocError>
        ensures song { IfOk result (λ song. song ≡ song_at index id self.now.present) }
        ensures legal { IsPast self.now }
    {
        let _past = self.partition.history();
        song_within(&self.partition, index, id)
    }

    /// The clients that are connected.
    pub fn clients(&self) -> &[Client]
        ensures { result.now ≡ self.now.present.clients }
    {
        self.partition.clients()
    }

    /// The frames that each output was given.
    pub fn decoded(&self) -> [u64; 8]
        ensures { result ≡ self.now.present.shared.books.decoded }
    {
        let _past = self.partition.history();
        decoded_in(self.partition.books())
    }

    /// The frames that each output wrote.
    pub fn written(&self) -> [u64; 8]
        ensures { result ≡ self.now.present.shared.books.written }
    {
        let _past = self.partition.history();
        written_in(self.partition.books())
    }

    /// The frames that each output discarded.
    pub fn discarded(&self) -> [u64; 8]
        ensures { result ≡ self.now.present.shared.books.discarded }
    {
        let _past = self.partition.history();
        discarded_in(self.partition.books())
    }
}

/// How many commands of a list were run.
fn done_of(end: &Result<ListOutcome, ListFault>) -> usize
    ensures { result ≡ done_in end.now }
{
    match end {
        Ok(outcome) => outcome.outcomes().len(),
        Err(fault) => fault.done,
    }
}

/// Whether a song is being played in a partition.
fn is_playing(part: &Part) -> bool
    ensures { result ≡ is_playing_lem part.now.player.playback }
{
    matches!(part.player.playback(), Playback::Play)
}

/// The song of the entry that has this id in the queue of the partition of a number, if there is one.
fn song_within(partition: &Partition, index: u8, id: u32) -> Result<Option<SharedSong>, AllocError>
    ensures { IfOk result (λ song. song ≡ song_at index id partition.now.present) }
{
    match partition.part(index) {
        Some(part) => song_in(&part.queue, id),
        None => Ok(None),
    }
}

/// The song of the entry of a queue that has this id.
#[tactic(auto, using(crate::proofs::Songs::no_position, crate::proofs::Songs::no_entry, crate::proofs::Songs::entry_song))]
fn song_in(queue: &Queue, id: u32) -> Result<Option<SharedSong>, AllocError>
    ensures { IfOk result (λ song. song ≡ song_of id (queue_of queue.now)) }
{
    let Some(position) = queue.position_of(id) else {
        return Ok(None);
    };
    match queue.get(position) {
        Some(entry) => Ok(Some(entry.song.clone()?)),
        None => Ok(None),
    }
}
