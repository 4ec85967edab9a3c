//! The player with its history.
//!
//! The state could be replayed from the first event on, and that is what the definitions do; but a daemon
//! that runs for a year makes more events than it can keep. So a player has a base, a window of the events
//! since, and the present state, which is the base after the window. A fold makes the present state the base
//! and empties the window. It is no event, and nobody hears of it: what is read of the history (stamps,
//! pending sets, books, how many events each seat made) is read off base and window together, and each of
//! these is the same before a fold and after it (the law `FoldsAreUnseen`).
//!
//! The base and what happened are read by contracts alone. So the base is a `Snapshot`, which has no bytes,
//! and an entry of the window is a snapshot with the count of its texts' bytes (`Logged`). Nothing is copied
//! for them, neither at an event nor at a fold.
//!
//! Two rules follow. Whatever is to be read after a fold must be part of the image, and not only of the
//! entries. And a fold gives the room of the window back and takes a new one, for 64 entries at first, so it
//! may lack memory: it comes before an event that finds the window full, and where it is refused, that event
//! is (`HistoryFull`), with nothing changed.
ghost use Rattle.std.specs.Prelude.{◌≡◌, ◌+◌, ◌≤◌, ◌<◌, [], None, true, false};
ghost use Rattle.std.specs.Prelude.{All, IfErr, IfOk, IsErrOf, OnErr, OnOk, is_some, length, map};
ghost use Rattle.std.specs.Prelude.{nat_le, slice_index_or, vec_capacity};
ghost use Rattle.partition_table.specs.Parts.{holder, known, named, part_at};
ghost use Rattle.std.specs.Option.{option_copied};
ghost use Rattle.mpd_command.specs.Requests.{name_in};
ghost use Rattle.partition.specs.History.{AreTold, IsSpent, begun, is_full, own as own_of, replay};
ghost use Rattle.partition.specs.History.{folded, with_room};
ghost use Rattle.partition.specs.Image.{opening};
ghost use Rattle.connected_clients.specs.Clients.{client_of};
ghost use Rattle.partition.specs.Lent.{IsAtLimitOrFull, IsRefusedNext, LacksMemory};
ghost use Rattle.partition.specs.Lent.{RecordsBy, RecordsNext, RefusesBy};
ghost use Rattle.partition.specs.Lists.{RunsBy, StopsBy};
ghost use Rattle.partition.specs.Legal.{HasDistinctIds, IsPast};
ghost use Rattle.partition.specs.Step.{limit_of, told as told_of};
ghost use Rattle.partition.specs.Steps.{JoinsTold, RefusesStep};
ghost use Rattle.player_events.specs.Events.{is_line};
ghost use Rattle.connected_clients.specs.UpToDate.{AllUpToDate};
ghost use Rattle.partition.specs.Since.{AllHavePending, books_of_all};
ghost use Rattle.partition.specs.Applying.{AreBytesOfLast, OkGives, made_by};
ghost use Rattle.player_events.specs.Sizes.{window_bytes as window_bytes_lem};

use crate::happen::record_event;
use crate::laws::replays_worlds;
use crate::lists::{ListFault, ListOutcome};
use crate::state::{MAX_OWN, Setup, State};
use command_lists::ListForm;
use connected_clients::find_client;
use mpd_command::Request;
use player_core::PlayerFault;
use player_events::{Event, Logged, Outcome};
use player_state::{Client, FrameCounts, Library, Part};
use shelf::{MemShelf, Shelf};
use std::alloc::{AllocError, Global};
use std::marker::Model;
use std::snapshot::Snapshot;
use transitions::ListPlace;

/// Why an event was not applied.
#[derive(Clone, Copy, Debug, PartialEq, Eq)]
pub enum PartitionFault {
    /// The window of the history was full, and there was no memory to fold it.
    HistoryFull,
    /// A number of cuts, starts, jobs or scans would be above the greatest.
    CutsAtLimit,
    /// The seat made 2^63-1 events, or the frames of all outputs could not be counted together any more.
    AtLimit,
    /// A growth was refused.
    NoMemory,
}

impl From<AllocError> for PartitionFault {
    ghost use Rattle.partition.specs.declared.partition.PartitionFault.{PartitionFault};
    ghost use Rattle.std.specs.Prelude.{◌≡◌};

    ghost from_gives = { λ _ fault. fault ≡ PartitionFault.NoMemory };

    fn from(_: AllocError) -> Self {
        PartitionFault::NoMemory
    }
}

impl From<PlayerFault> for PartitionFault {
    ghost use Rattle.partition.specs.Lists.{fault_for};
    ghost use Rattle.std.specs.Prelude.{◌≡◌};

    ghost from_gives = { λ cause fault. fault ≡ fault_for cause };

    fn from(cause: PlayerFault) -> Self {
        match cause {
            PlayerFault::CutsAtLimit => PartitionFault::CutsAtLimit,
            PlayerFault::NoMemory => PartitionFault::NoMemory,
        }
    }
}

impl PartitionFault {
    ghost use Rattle.partition.specs.Lists.{fault_text};

    /// What an `ACK` says of it.
    pub fn text(self) -> &'static str
        ensures { result.now ≡ fault_text self }
    {
        match self {
            PartitionFault::CutsAtLimit | PartitionFault::AtLimit => "player limit reached",
            PartitionFault::NoMemory => "out of memory",
            PartitionFault::HistoryFull => "history full",
        }
    }
}

/// The events that a new window has room for.
const FIRST_ROOM: usize = 64;

/// A player of one thread: a base, a window of the events that happened since, and the present state. A
/// window that is full is folded before the next event: the present state becomes the base.
pub struct Partition {
    alloc: Global,
    /// The most events of the window.
    limit: usize,
    /// The state that the window began with. It has no bytes: contracts alone read it.
    base: Snapshot<State>,
    state: State,
    history: Vec<Logged>,
    /// The bytes of the window's texts.
    bytes: u64,
}

// Written out, so that a proof goes through one call where it lets one go (docs/DECISIONS.md).
impl Drop for Partition {
    fn drop(self) {
        let Partition {
            alloc: _,
            limit: _,
            base: _,
            state: _,
            history: _,
            bytes: _,
        } = self;
    }
}

impl Model for Partition {
    ghost use Rattle.partition.specs.History.{Chronicle};
    ghost use Rattle.partition.specs.Invariant.{chronicle_of, IsReplayed};

    ghost Value = { Chronicle };

    // A filter, which an event may have, holds itself, so its code is named.
    ghost use Rattle.filters.specs.contracts.expression.Filter as filter;
    ghost use Rattle.std.specs.Coded.{codes};

    ghost coded = { Prim.hlevel (codes, filter.the_row.coded) };

    ghost view = { chronicle_of };

    ghost invariant = { IsReplayed };
}

impl Partition {
    /// A player over a library, to which nothing happened.
    pub fn open(alloc: Global, setup: Setup, library: Library) -> Result<Partition, AllocError>
        requires version { 1 ≤ setup.limits.max_version }
        requires max_cut { setup.limits.max_cut < 9223372036854775808 }
        requires history { 1 ≤ setup.limits.history }
        ensures { OkGives result (begun setup.limits.history (opening setup library)) }
    {
        let limit = setup.limits.history as usize;
        let state = State::opening(alloc, setup, library)?;
        let base = Snapshot::of(&state);
        Ok(Partition {
            alloc,
            limit,
            base,
            state,
            history: Vec::new(alloc),
            bytes: 0,
        })
    }

    /// Applies an event of a seat, and keeps it with what the lent shelf answered to it and with what it made
    /// clients hear. A window that is full is folded first.
    ///
    /// A line asks the shelf at most one question, and then writes at most one thing, once there is room for
    /// all that follows: nothing can fail after it.
    ///
    /// # Errors
    ///
    /// `HistoryFull` where the window was full and there was no memory to fold it: nothing changed.
    /// `CutsAtLimit` where the event would raise a number above the greatest, `AtLimit` where it could not be
    /// counted or its frames could not; want of memory may come instead of them, but not instead of the refusal of a seat
    /// which made 2^63-1 events. The shelf keeps its maps.
    pub fn apply<S: Shelf>(
        &mut self,
        seat: u8,
        shelf: &mut S,
        event: Event,
    ) -> Result<Outcome, PartitionFault>
        requires { seat < 16 }
        ensures base { OnOk result (self.new.base ≡ (with_room self.old).base) }
        ensures limit { self.new.limit ≡ self.old.limit }
        // The event and its reply join the window; the reply is the one of the player of one thread, and the
        // new state is that player's next one. The shelf answered and changed as that says.
        ensures ok { IfOk result (RecordsBy S.Shelf self.old self.new shelf.old shelf.new seat event) }
        // It is refused where the full window cannot be folded, for the limit that it would pass, or for lack
        // of memory; nothing was written to the shelf.
        ensures refused { IfErr result (RefusesBy S.Shelf self.old self.new shelf.old shelf.new seat event) }
        ensures own { IsSpent self.old seat → IsAtLimitOrFull result }
        ensures legal { IsPast self.old }
    {
        self.legal();
        self.make_room()?;
        self.apply_in_room(seat, shelf, event)
    }

    /// Applies an event where the window has room for it.
    fn apply_in_room<S: Shelf>(
        &mut self,
        seat: u8,
        shelf: &mut S,
        event: Event,
    ) -> Result<Outcome, PartitionFault>
        requires seat { seat < 16 }
        requires room { length self.old.window < self.old.limit }
        ensures base { self.new.base ≡ self.old.base }
        ensures limit { self.new.limit ≡ self.old.limit }
        ensures ok { IfOk result (RecordsNext S.Shelf self.old self.new shelf.old shelf.new seat event) }
        ensures err { OnErr result (self.new ≡ self.old) }
        ensures refused { IfErr result (IsRefusedNext S.Shelf self.old shelf.old shelf.new seat event) }
        ensures own { IsSpent self.old seat → IsErrOf result PartitionFault.AtLimit }
    {
        self.legal();
        if self.is_at_limit(seat) {
            return Err(PartitionFault::AtLimit);
        }
        let history = &mut self.history;
        let outcome = record_event(self.alloc, &mut self.state, history, shelf, seat, event)?;
        self.bytes = self.bytes.saturating_add(last_bytes(&self.history));
        Ok(outcome)
    }

    /// Applies an event of a seat that is no line, and keeps it with what it made clients hear. A window that
    /// is full is folded first. Such an event asks no shelf: the one that is lent to it here is empty.
    ///
    /// # Errors
    ///
    /// As [`Partition::apply`].
    pub fn step(&mut self, seat: u8, event: Event) -> Result<Outcome, PartitionFault>
        requires seat { seat < 16 }
        requires step { is_line event ≡ false }
        // The outcome is the one of the player of one thread, and the event joins the history with it; it
        // passed no limit.
        ensures told { IfOk result (λ outcome. outcome ≡ told_of self.old.present event) }
        ensures player { IfOk result (JoinsTold self.old self.new seat event) }
        ensures within { OnOk result (limit_of seat self.old.present event ≡ None) }
        // It is refused where the full window cannot be folded, for the limit that it would pass, or for lack
        // of memory; all is as it was, but that a full window may have been folded.
        ensures refused { IfErr result (λ fault. RefusesStep self.old self.new seat event fault) }
        ensures own { IsSpent self.old seat → IsAtLimitOrFull result }
        ensures legal { IsPast self.old }
    {
        let mut unasked = MemShelf::new(self.alloc);
        self.apply(seat, &mut unasked, event)
    }

    /// Folds the window if it is full.
    fn make_room(&mut self) -> Result<(), PartitionFault>
        ensures ok { OnOk result (self.new ≡ with_room self.old) }
        ensures room { OnOk result (length self.new.window < self.new.limit) }
        ensures err { OnErr result (self.new ≡ self.old) }
        ensures full { OnErr result (is_full self.old ≡ true) }
        ensures fault { IfErr result (λ fault. fault ≡ PartitionFault.HistoryFull) }
    {
        if self.history.len() >= self.limit {
            self.fold()?;
        }
        Ok(())
    }

    /// Makes the present state the base, and empties the window. What commands read, answer and count stays
    /// as it is.
    ///
    /// # Errors
    ///
    /// `HistoryFull` where there is no memory for a new window; nothing changed.
    pub fn fold(&mut self) -> Result<(), PartitionFault>
        ensures ok { OnOk result (self.new ≡ folded self.old) }
        ensures err { OnErr result (self.new ≡ self.old) }
        ensures fault { IfErr result (λ fault. fault ≡ PartitionFault.HistoryFull) }
    {
        // The room of the old window goes back.
        let Ok(window) = Vec::with_capacity(self.alloc, self.limit.min(FIRST_ROOM)) else {
            return Err(PartitionFault::HistoryFull);
        };
        self.base = Snapshot::of(&self.state);
        self.history = window;
        self.bytes = 0;
        Ok(())
    }

    /// Runs the requests of a client's command list, each as an event of its own, one directly after the
    /// other in the history, up to the first that ends the list: one that is refused, or that closes the
    /// client. Each is lent the shelf.
    ///
    /// # Errors
    ///
    /// Where the player refuses an event, those before it stand.
    pub fn run_list<S: Shelf>(
        &mut self,
        seat: u8,
        shelf: &mut S,
        client: u32,
        form: ListForm,
        requests: Vec<Request>,
    ) -> Result<ListOutcome, ListFault>
        requires { seat < 16 }
        ensures ok { RunsBy S.Shelf self.old self.new shelf.old shelf.new seat client form requests result }
        ensures err { StopsBy S.Shelf self.old self.new shelf.old shelf.new seat client form requests result }
        ensures legal { IsPast self.old }
    {
        self.legal();
        let mut outcomes = Vec::new(self.alloc);
        if requests.is_empty() {
            return Ok(ListOutcome { outcomes });
        }
        if outcomes.reserve(requests.len()).is_err() {
            return Err(ListFault {
                done: 0,
                outcomes,
                command: first_name(&requests),
                cause: self.find_no_memory(),
            });
        }
        self.run_requests(seat, shelf, client, form, requests, outcomes)
    }

    /// Why an event is refused for which there is no memory: a full window is folded before.
    fn find_no_memory(&mut self) -> PartitionFault
        ensures { LacksMemory self.old self.new result }
    {
        match self.make_room() {
            Ok(()) => PartitionFault::NoMemory,
            Err(fault) => fault,
        }
    }

    /// Runs requests one directly after the other, and puts their outcomes where there is room for all.
    fn run_requests<S: Shelf>(
        &mut self,
        seat: u8,
        shelf: &mut S,
        client: u32,
        form: ListForm,
        requests: Vec<Request>,
        mut outcomes: Vec<Outcome>,
    ) -> Result<ListOutcome, ListFault>
        requires seat { seat < 16 }
        requires empty { outcomes.items ≡ [] }
        requires room { length requests.items ≤ vec_capacity outcomes }
        ensures ok { RunsBy S.Shelf self.old self.new shelf.old shelf.new seat client form requests result }
        ensures err { StopsBy S.Shelf self.old self.new shelf.old shelf.new seat client form requests result }
    {
        self.legal();
        for request in requests {
            let done = outcomes.len();
            let command = request.name();
            let event = Event::line(client, ListPlace::InList(form, done), request);
            match self.apply(seat, shelf, event) {
                Ok(outcome) => {
                    let ends = outcome.ends_list();
                    outcomes.push_reserved(outcome);
                    if ends {
                        return Ok(ListOutcome { outcomes });
                    }
                }
                Err(cause) => {
                    return Err(ListFault {
                        done,
                        outcomes,
                        command,
                        cause,
                    });
                }
            }
        }
        Ok(ListOutcome { outcomes })
    }

    /// Whether a seat made as many events as can be counted.
    fn is_at_limit(&self, seat: u8) -> bool
        requires { seat < 16 }
        ensures { result ≡ nat_le 9223372036854775807 (slice_index_or self.now.present.shared.made seat 0) }
    {
        self.state.made[usize::from(seat)] >= MAX_OWN
    }

    /// The events of the window, the first one first.
    pub fn history(&self) -> &[Logged]
        ensures window { result.now ≡ self.now.window }
        // Every reply is the one-thread player's at its position in the history.
        ensures told { AreTold self.now.base self.now.window }
        // The present state is the base stepped through the window, with its versions, stamps, marks and ids.
        ensures present { self.now.present ≡ replay self.now.base self.now.window }
        // There are earlier events after which the base stands, and the present state after these and the
        // window's: each is the image of the trace with every past queue and every transition.
        ensures legal { IsPast self.now }
        // The flags of each client are its pending set: what changed since its connect or last notice.
        ensures pending { AllHavePending self.now }
        // The frames of each output are those of the base and the sums over the window.
        ensures books { self.now.present.shared.books ≡ books_of_all self.now }
        // Song ids are distinct in the queue of each partition.
        ensures distinct { All HasDistinctIds self.now.present.parts }
    {
        self.legal();
        &self.history
    }

    /// The bytes that clients were answered at the events of the window, and that the shelf answered to
    /// these; at most 2^64-1.
    pub fn window_bytes(&self) -> u64
        ensures { result ≡ window_bytes_lem self.now.window }
    {
        self.bytes
    }

    /// What is true of each player: its queue keeps distinct ids, and all else follows from its history.
    fn legal(&self)
        ensures legal { IsPast self.now }
        ensures replayed { self.now.present ≡ replay self.now.base self.now.window }
        ensures up_to_date { AllUpToDate self.now.present.clients }
    {
        replays_worlds();
        are_distinct(self.state.parts.items());
    }

    /// How many events a seat made, all those before the window too.
    pub fn own(&self, seat: u8) -> u64
        requires { seat < 16 }
        ensures made { result ≡ made_by seat self.now.present }
        ensures own { result ≡ made_by seat self.now.base + own_of seat self.now.window }
    {
        self.legal();
        self.state.made[usize::from(seat)]
    }

    /// The partitions, in the order in which they came.
    pub fn parts(&self) -> &[Part]
        ensures { result.now ≡ self.now.present.parts }
    {
        self.state.parts.items()
    }

    /// The partition of a number, if there is one.
    pub fn part(&self, index: u8) -> Option<&Part>
        ensures { option_copied result ≡ part_at index self.now.present.parts }
    {
        self.state.parts.at(index)
    }

    /// The number of the partition of this name, if there is one.
    pub fn index_named(&self, name: &str) -> Option<u8>
        ensures { result ≡ named name.now (map known self.now.present.parts) }
    {
        self.state.parts.index_named(name)
    }

    /// The number of the partition that an output is in, if it is in one.
    pub fn holder(&self, output: usize) -> Option<u8>
        ensures { result ≡ holder output (map known self.now.present.parts) }
    {
        self.state.parts.holder(output)
    }

    /// Whether a client is connected.
    pub fn has_client(&self, number: u32) -> bool
        ensures { result ≡ is_some (client_of number self.now.present.clients) }
    {
        find_client(&self.state.clients, number).is_some()
    }

    /// The frames that each output was given, wrote and discarded.
    pub fn books(&self) -> &FrameCounts
        ensures { result.now ≡ self.now.present.shared.books }
    {
        &self.state.books
    }

    /// The songs, and the scans that look for them.
    pub fn library(&self) -> &Library
        ensures { result.now ≡ self.now.present.shared.library }
    {
        &self.state.library
    }

    /// Whether the daemon has ended.
    pub fn has_ended(&self) -> bool
        ensures { result ≡ self.now.present.shared.ended }
    {
        self.state.ended
    }

    /// The clients that are connected, by rising number.
    pub fn clients(&self) -> &[Client]
        ensures { result.now ≡ self.now.present.clients }
    {
        &self.state.clients
    }
}

/// What is true of each partition: its queue keeps distinct ids.
fn are_distinct(parts: &[Part])
    ensures { All HasDistinctIds parts.now }
{
    if let [part, rest @ ..] = parts {
        // A call that reads the queue brings what its type keeps of it.
        let _distinct = part.queue.len();
        are_distinct(rest);
    }
}

/// The bytes of the last event's texts.
fn last_bytes(history: &[Logged]) -> u64
    ensures { AreBytesOfLast history.now result }
{
    match history {
        [.., last] => last.bytes(),
        [] => 0,
    }
}

/// The name of the command that the first request asks for; empty where there is none.
pub fn first_name(requests: &[Request]) -> &'static str
    ensures { result.now ≡ slice_index_or (map name_in requests.now) 0 [] }
{
    match requests {
        [first, ..] => first.name(),
        [] => "",
    }
}
