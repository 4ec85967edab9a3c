//! One event after the other, each counted and kept.
//!
//! Room is taken first, for the entry in the history and for one more client. Then an event's transition is
//! found: what is answered, the effect on its partition, what passes between partitions, what is written to
//! the shelf. That only reads; of the shelf a line asks at most one question. A transition that changes
//! nothing, as most lines make it, is at its end there: its client is answered and makes its move.
//!
//! For any other a fingerprint is taken of what clients are told of, and all that may fail is done: frames
//! are counted, and room is taken for each notice. The effect itself is the last of it, which is refused at
//! a limit or for lack of memory with nothing changed, or the write to the shelf, which no effect has beside
//! it. From there on nothing can fail: what was raised is read off the fingerprint and what is there now,
//! and each client is told or keeps it as pending.
//!
//! Of an event that was applied, and of what it made clients hear, a snapshot is kept for contracts to read,
//! with the count of its texts' bytes.
//!
//! So the invariant needs no case of an event that is half done: the present state is always the image of
//! the base after the events of the window, as the definition `next_image` has it, and a refused event
//! leaves all of it as it was. What is raised is not said by the commands, of which there are many, but
//! found by comparing: a command that changes something and forgets to say so cannot be written.
ghost use Rattle.std.specs.Prelude.{◌≡◌, ◌<◌, ◌≤◌, ℕ, [], None, true, false};
ghost use Rattle.std.specs.Prelude.{IfErr, IfOk, OnErr, OnOk, count_by, length, map, nat_le};
ghost use Rattle.std.specs.Prelude.{slice_index_or, vec_capacity, vec_len};
ghost use Rattle.partition.specs.declared.partition.PartitionFault.{PartitionFault};
ghost use Rattle.connected_clients.specs.Clients.{notified};
ghost use Rattle.partition.specs.Image.{counted, image_of_state};
ghost use Rattle.partition.specs.Lent.{HasCause, IsRefusedIn, RecordsIn, ServesEvent};
ghost use Rattle.partition.specs.Lent.{IsUnwrittenBy, IsWriteReply, WritesFor};
ghost use Rattle.partition.specs.Applying.{AddsEntry, HearsRefusal, OkGives, outcome_with};
ghost use Rattle.partition.specs.Applying.{AnswersEvent, IsWithinLimits, NotifiesOfEvent, RefusesEvent};
ghost use Rattle.partition.specs.Applying.{ReportsEvent, image_after, index_in_state};
ghost use Rattle.partition.specs.Applying.{ActsForEvent, FitsEvent, IsAlone, IsStill};
ghost use Rattle.partition.specs.Applying.{AnswersBy, IsImageAfter, NotifiesBy, PassesNoLimit};
ghost use Rattle.partition.specs.Applying.{RefusesTransitionIn, ReportsBy};
ghost use Rattle.partition.specs.Applying.{notices_by, report_by};
ghost use Rattle.partition.specs.Applying.{HasReadings, HasRoomForWaiting};
ghost use Rattle.partition.specs.Applying.{GrowsBy, GrowsByRaised, HearRaised, ListsNotices};
ghost use Rattle.partition.specs.Applying.{clients_moved, notices_of};
ghost use Rattle.partition_table.specs.Parts.{is_within_in, part_at};
ghost use Rattle.partition_table.specs.declared.crossing.Crossing.{Crossing};
ghost use Rattle.player_state.specs.declared.effect.CommandEffect.TheVariants.{Rests};
ghost use Rattle.player_state.specs.declared.effect.Effect.TheVariants.{ByCommand};
ghost use Rattle.connected_clients.specs.Fingerprint.{changes_listeners_in, raised_in};
ghost use Rattle.connected_clients.specs.Rooms.{is_waiting, listed, room_in};
ghost use Rattle.connected_clients.specs.UpToDate.{AllUpToDate, HasRoom, nothing};
ghost use Rattle.transitions.specs.Shelves.{LeavesUnchanged, is_out_of_memory, is_written};
ghost use Rattle.partition.specs.Step.{counts_frames, keeps_limits, transition as transition_at};
ghost use Rattle.partition.specs.Step.{ended_after as ended_after_lem, moved_client as moved_client_lem, sender_number as sender_number_lem};
ghost use Rattle.player_events.specs.Events.{store_reply_at, with_store_reply, name_at, list_place_of};

use crate::event_transitions::{ask_shelf, index_of_event, transition_of_event};
use crate::lent::write;
use crate::partition::PartitionFault;
use crate::prepare::{Prepared, changes, prepare_step, prepare_write};
use crate::state::State;
use connected_clients::{
    Notices, Raised, changes_songs, changes_subscriptions, leave, list_notices, make_move,
    notify_all,
};
use partition_table::Parts;
use player_events::{Event, LogEntry, Logged, Outcome};
use player_state::{Client, Effect, done};
use shelf::{Shelf, ShelfFault};
use std::alloc::{AllocError, Global};
use transitions::{Move, Refusals, Response, ShelfWrite, StoreReply, Telling, Transition};

/// What an event made clients hear.
#[derive(Drop)]
struct Applied {
    telling: Telling,
    notices: Notices,
}

impl Applied {
    fn into_outcome(self) -> Outcome
        ensures { result ≡ outcome_with self.telling self.notices }
    {
        let Applied { telling, notices } = self;
        let Telling { response, report } = telling;
        Outcome {
            reply: response.into_reply(),
            notices,
            report,
        }
    }
}

/// Runs one event and keeps it, with what the lent shelf answered to it. Where it is refused, nothing
/// changes, and the shelf was asked at most.
pub(crate) fn record_event<S: Shelf>(
    alloc: Global,
    state: &mut State,
    log: &mut Vec<Logged>,
    shelf: &mut S,
    seat: u8,
    event: Event,
) -> Result<Outcome, PartitionFault>
    requires seat { seat < 16 }
    requires count { nat_le 9223372036854775807 (slice_index_or state.old.made seat 0) ≡ false }
    requires up_to_date { AllUpToDate state.old.clients.items }
    ensures ok { RecordsIn S.Shelf state.old state.new log.old log.new shelf.old shelf.new seat event result }
    ensures refused { IfErr result (IsRefusedIn S.Shelf state.old shelf.old shelf.new seat event) }
    ensures unchanged { OnErr result (image_of_state state.new ≡ image_of_state state.old) }
    ensures unkept { OnErr result (log.new.items ≡ log.old.items) }
{
    let mut event = event;
    if reserve(log, &mut state.clients).is_err() {
        return Err(PartitionFault::NoMemory);
    }
    match apply_event(alloc, state, shelf, &mut event) {
        Ok(applied) => Ok(keep(state, log, seat, event, applied)),
        Err(fault) => Err(fault),
    }
}

/// Counts an event of a seat that was applied, and keeps it with what it made clients hear.
fn keep(
    state: &mut State,
    history: &mut Vec<Logged>,
    seat: u8,
    event: Event,
    applied: Applied,
) -> Outcome
    requires seat { seat < 16 }
    requires count { nat_le 9223372036854775807 (slice_index_or state.old.made seat 0) ≡ false }
    requires room { vec_len history.old < vec_capacity history.old }
    ensures state { image_of_state state.new ≡ counted seat (image_of_state state.old) }
    ensures outcome { result ≡ outcome_with applied.telling applied.notices }
    ensures history { AddsEntry history.old.items history.new.items seat event result }
{
    state.made[usize::from(seat)] += 1;
    let entry = LogEntry {
        seat,
        event,
        told: applied.into_outcome(),
    };
    history.push_reserved(Logged::of(&entry));
    entry.told
}

/// Makes room for one more event and one more client.
fn reserve(history: &mut Vec<Logged>, clients: &mut Vec<Client>) -> Result<(), AllocError>
    ensures history { history.new.items ≡ history.old.items }
    ensures clients { clients.new.items ≡ clients.old.items }
    ensures event { OnOk result (vec_len history.new < vec_capacity history.new) }
    ensures client { OnOk result (vec_len clients.new < vec_capacity clients.new) }
{
    history.reserve(1)?;
    clients.reserve(1)
}

/// Applies an event, all but the count of its seat, and puts in what the shelf answered. Where it is refused,
/// nothing changes, and the shelf was asked at most.
#[tactic(auto, using(crate::proofs::Writing::same_hearing))]
fn apply_event<S: Shelf>(
    alloc: Global,
    state: &mut State,
    shelf: &mut S,
    event: &mut Event,
) -> Result<Applied, PartitionFault>
    requires space { vec_len state.old.clients < vec_capacity state.old.clients }
    requires up_to_date { AllUpToDate state.old.clients.items }
    ensures event { event.new ≡ with_store_reply event.old (store_reply_at event.new) }
    ensures image { OnOk result (image_of_state state.new ≡ image_after state.old event.new) }
    ensures answer { IfOk result (AnswersEvent state.old event.new) }
    ensures report { IfOk result (ReportsEvent state.old event.new) }
    ensures notices { IfOk result (NotifiesOfEvent state.old event.new) }
    ensures within { OnOk result (IsWithinLimits state.old event.new) }
    ensures shelf { OnOk result (ServesEvent S.Shelf shelf.old shelf.new state.old event.old event.new) }
    ensures refused { IfErr result (RefusesEvent state.old event.new) }
    ensures cause { IfErr result (HasCause S.Shelf shelf.old shelf.new state.old event.old event.new) }
    ensures unchanged { OnErr result (LeavesUnchanged S.standing S.failed shelf.old shelf.new) }
    ensures err { OnErr result (image_of_state state.new ≡ image_of_state state.old) }
{
    let read = ask_shelf(&state.library, &state.clients, shelf, event)?;
    event.hear(StoreReply {
        read,
        refused: None,
    });
    let transition = transition_of_event(alloc, state, event)?;
    if transition.written.is_written() {
        return write_transition(alloc, state, shelf, event, transition);
    }
    apply_transition(alloc, state, event, transition)
}

/// Applies what an event asks for that writes nothing to the shelf. Where it is refused, nothing changes.
fn apply_transition(
    alloc: Global,
    state: &mut State,
    event: &Event,
    transition: Transition,
) -> Result<Applied, PartitionFault>
    requires space { vec_len state.old.clients < vec_capacity state.old.clients }
    requires up_to_date { AllUpToDate state.old.clients.items }
    requires fits { FitsEvent state.old event.now transition }
    requires acts { ActsForEvent state.old event.now transition }
    requires unwritten { is_written transition.written ≡ false }
    ensures image { OnOk result (IsImageAfter state.old event.now transition state.new) }
    ensures answer { IfOk result (AnswersBy transition) }
    ensures report { IfOk result (ReportsBy state.old event.now transition) }
    ensures notices { IfOk result (NotifiesBy state.old event.now transition) }
    ensures within { OnOk result (PassesNoLimit state.old event.now transition) }
    ensures refused { IfErr result (RefusesTransitionIn state.old event.now transition) }
    ensures err { OnErr result (image_of_state state.new ≡ image_of_state state.old) }
{
    if !changes(&transition) {
        return Ok(apply_still(state, event, transition));
    }
    let number = sender_number(event);
    let index = index_of_event(state, event);
    let (prepared, books) = match prepare_step(alloc, state, index, &transition) {
        Ok(made) => made,
        Err(fault) => {
            return Err(fault);
        }
    };
    let Prepared { notices, before } = prepared;
    let database = changes_songs(&transition, &state.library);
    let subscription = changes_listeners(&state.parts, index, &transition.effect);
    let moved_client = moved_client(number, &transition.response);
    let telling = transition.carry_out(&mut state.parts, index, &mut state.library)?;
    state.books = books;
    state.ended = ended_after(state.ended, event);
    let unwritten = ShelfWrite::Nothing;
    let raised = before.changed(
        moved_client,
        database,
        subscription,
        &unwritten,
        &state.parts,
        &state.library,
    );
    Ok(tell(&mut state.clients, number, &raised, telling, notices))
}

/// Applies what changes nothing: nobody hears of it but the client that it comes from.
fn apply_still(state: &mut State, event: &Event, transition: Transition) -> Applied
    requires space { vec_len state.old.clients < vec_capacity state.old.clients }
    requires up_to_date { AllUpToDate state.old.clients.items }
    requires still { IsStill transition }
    ensures image { IsImageAfter state.old event.now transition state.new }
    ensures answer { AnswersBy transition result }
    ensures report { ReportsBy state.old event.now transition result }
    ensures notices { NotifiesBy state.old event.now transition result }
    ensures within { PassesNoLimit state.old event.now transition }
{
    Applied {
        telling: answer_sender(state, event, transition),
        notices: Notices::none(),
    }
}

/// Tells the client that an event comes from what is answered to it, and nobody else: nothing changes but
/// what the client does.
fn answer_sender(state: &mut State, event: &Event, transition: Transition) -> Telling
    requires space { vec_len state.old.clients < vec_capacity state.old.clients }
    requires up_to_date { AllUpToDate state.old.clients.items }
    requires still { IsStill transition }
    ensures image { IsImageAfter state.old event.now transition state.new }
    ensures answer { result.response.answer ≡ transition.response.answer }
    ensures report { result.report ≡ report_by state.old event.now transition }
    ensures notices { notices_by state.old event.now transition ≡ [] }
    ensures counts { counts_frames (image_of_state state.old) event.now transition ≡ true }
    ensures limits { keeps_limits (image_of_state state.old) event.now transition ≡ true }
{
    state.books.rest();
    let index = index_of_event(state, event);
    is_within_still(&state.parts, index);
    state.ended = ended_after(state.ended, event);
    let report = transition.report.into_report();
    let Telling {
        response,
        report: _,
    } = transition.into_telling();
    move_sender(&mut state.clients, sender_number(event), &response);
    Telling { response, report }
}

/// Lets the client that an event comes from do what it does; one that the answer closes goes.
fn move_sender(clients: &mut Vec<Client>, sender: u32, response: &Response)
    requires { vec_len clients.old < vec_capacity clients.old }
    ensures { clients.new.items ≡ clients_moved sender response.now clients.old.items }
{
    if response.next().closes() {
        leave(clients, sender);
    } else {
        make_move(clients, sender, response.client_move());
    }
}

/// Whether an event makes other clients of its partition listen, or to other channels.
fn changes_listeners(parts: &Parts, index: u8, effect: &Effect) -> bool
    ensures { result ≡ changes_listeners_in (part_at index parts.now) effect.now }
{
    match parts.at(index) {
        Some(part) => changes_subscriptions(&part.channels, effect),
        None => false,
    }
}

/// The client that goes to another partition by this response to it.
fn moved_client(number: u32, response: &Response) -> Option<u32>
    ensures { result ≡ moved_client_lem number response.now }
{
    if response.next().closes() {
        return None;
    }
    match response.client_move() {
        Move::Enter(_) => Some(number),
        _ => None,
    }
}

/// Writes what an event asks for to the shelf, once there is room for all that follows: nothing can fail
/// after it. Where it finds no memory, nothing changes and nothing is written.
fn write_transition<S: Shelf>(
    alloc: Global,
    state: &mut State,
    shelf: &mut S,
    event: &mut Event,
    transition: Transition,
) -> Result<Applied, PartitionFault>
    requires space { vec_len state.old.clients < vec_capacity state.old.clients }
    requires up_to_date { AllUpToDate state.old.clients.items }
    requires transition { transition ≡ transition_at (image_of_state state.old) event.old }
    requires alone { IsAlone transition }
    requires written { is_written transition.written ≡ true }
    requires unrefused { (store_reply_at event.old).refused ≡ None }
    ensures event { HearsRefusal event.old event.new }
    ensures image { OnOk result (image_of_state state.new ≡ image_after state.old event.new) }
    ensures answer { IfOk result (AnswersEvent state.old event.new) }
    ensures report { IfOk result (ReportsEvent state.old event.new) }
    ensures notices { IfOk result (NotifiesOfEvent state.old event.new) }
    ensures within { OnOk result (IsWithinLimits state.old event.new) }
    ensures changes { OnOk result (WritesFor S.standing shelf.old shelf.new transition.written event.new) }
    ensures answers { OnOk result (IsWriteReply S.Shelf shelf.old shelf.new transition.written event.new) }
    ensures ample { OnOk result (is_out_of_memory (store_reply_at event.new).refused ≡ false) }
    ensures memory { IfErr result (λ fault. fault ≡ PartitionFault.NoMemory) }
    ensures unchanged { OnErr result (IsUnwrittenBy S.standing shelf.old shelf.new transition.written) }
    ensures err { OnErr result (image_of_state state.new ≡ image_of_state state.old) }
{
    let index = index_of_event(state, event);
    let Ok((prepared, refusals)) = prepare_write(alloc, state, index, event) else {
        return Err(PartitionFault::NoMemory);
    };
    let transition = write_out(state, shelf, event, transition, refusals)?;
    Ok(tell_written(state, index, event, transition, prepared))
}

/// Tells of what was written to the shelf, or why it was not: the transition does nothing else.
fn tell_written(
    state: &mut State,
    index: u8,
    event: &Event,
    transition: Transition,
    prepared: Prepared,
) -> Applied
    requires space { vec_len state.old.clients < vec_capacity state.old.clients }
    requires up_to_date { AllUpToDate state.old.clients.items }
    requires alone { IsAlone transition }
    requires index { index ≡ index_in_state state.old event.now }
    requires before { HasReadings state.old Crossing.Stays index prepared }
    requires room { HasRoomForWaiting state.old prepared }
    requires none { listed prepared.notices ≡ [] }
    ensures image { IsImageAfter state.old event.now transition state.new }
    ensures answer { AnswersBy transition result }
    ensures report { ReportsBy state.old event.now transition result }
    ensures notices { NotifiesBy state.old event.now transition result }
    ensures counts { counts_frames (image_of_state state.old) event.now transition ≡ true }
    ensures limits { keeps_limits (image_of_state state.old) event.now transition ≡ true }
{
    let Prepared { notices, before } = prepared;
    state.books.rest();
    state.ended = ended_after(state.ended, event);
    is_within_still(&state.parts, index);
    let number = sender_number(event);
    let moved_client = moved_client(number, &transition.response);
    let raised = before.changed(
        moved_client,
        false,
        false,
        &transition.written,
        &state.parts,
        &state.library,
    );
    let telling = transition.into_telling();
    tell(&mut state.clients, number, &raised, telling, notices)
}

/// What is true of each partition: its numbers are within their limit.
fn is_within_still(parts: &Parts, index: u8)
    ensures { (rate : ℕ) → is_within_in rate (part_at index parts.now) (ByCommand Rests) ≡ true }
{
    if let Some(part) = parts.at(index) {
        let _ = done(part);
    }
}

/// Asks the shelf to write what a transition says, and gives the transition for what it answers. Where there
/// is no memory, nothing is written.
fn write_out<S: Shelf>(
    state: &State,
    shelf: &mut S,
    event: &mut Event,
    transition: Transition,
    refusals: Refusals,
) -> Result<Transition, AllocError>
    requires transition { transition ≡ transition_at (image_of_state state.now) event.old }
    requires alone { IsAlone transition }
    requires written { is_written transition.written ≡ true }
    requires unrefused { (store_reply_at event.old).refused ≡ None }
    requires refusals { refusals ≡ (list_place_of event.old, name_at event.old) }
    ensures event { HearsRefusal event.old event.new }
    ensures transition { OkGives result (transition_at (image_of_state state.now) event.new) }
    ensures alone { IfOk result IsAlone }
    ensures changes { OnOk result (WritesFor S.standing shelf.old shelf.new transition.written event.new) }
    ensures answers { OnOk result (IsWriteReply S.Shelf shelf.old shelf.new transition.written event.new) }
    ensures ample { OnOk result (is_out_of_memory (store_reply_at event.new).refused ≡ false) }
    ensures unchanged { OnErr result (IsUnwrittenBy S.standing shelf.old shelf.new transition.written) }
{
    match write(shelf, &transition.written) {
        Ok(()) => Ok(transition),
        Err(ShelfFault::NoMemory) => Err(AllocError),
        Err(fault) => {
            event.refuse(fault);
            Ok(Transition::only(refusals.into_response(fault)))
        }
    }
}

/// Tells the clients what was raised, and lets the one that the event comes from do what it does.
fn tell(
    clients: &mut Vec<Client>,
    number: u32,
    raised: &Raised,
    telling: Telling,
    mut notices: Notices,
) -> Applied
    requires room { vec_len clients.old < vec_capacity clients.old }
    requires up_to_date { AllUpToDate clients.old.items }
    requires notices { HasRoom (raised_in raised.now) clients.old.items (room_in notices) }
    requires none { listed notices ≡ [] }
    ensures clients { HearRaised number raised.now telling.response clients.old.items clients.new.items }
    ensures telling { result.telling ≡ telling }
    ensures notices { ListsNotices number raised.now telling.response clients.old.items result }
{
    tell_clients(clients, number, raised, &telling.response, &mut notices);
    Applied {
        telling,
        notices: notices.trimmed(),
    }
}

/// Tells the clients what was raised, and lets the one that the event comes from do what it does. The notices
/// join the list.
#[tactic(auto, using(crate::proofs::UpToDate::fewer_waiting, crate::proofs::UpToDate::up_to_date_filter))]
fn tell_clients(
    clients: &mut Vec<Client>,
    number: u32,
    raised: &Raised,
    response: &Response,
    notices: &mut Notices,
)
    requires room { vec_len clients.old < vec_capacity clients.old }
    requires up_to_date { AllUpToDate clients.old.items }
    requires empty { listed notices.old ≡ [] }
    requires notices { HasRoom (raised_in raised.now) clients.old.items (room_in notices.old) }
    ensures clients { HearRaised number raised.now response.now clients.old.items clients.new.items }
    ensures notices { GrowsByRaised notices.old notices.new number raised.now response.now clients.old.items }
    ensures few { length (listed notices.new) ≤ count_by is_waiting clients.old.items }
    ensures none { raised_in raised.now ≡ nothing → listed notices.new ≡ [] }
{
    let closing = response.next().closes();
    if closing {
        leave(clients, number);
    }
    tell_all(clients, raised, notices);
    if !closing {
        make_move(clients, number, response.client_move());
    }
}

/// Tells the clients what was raised. Where nothing was, none is looked at: each was told already what it
/// waits for.
#[tactic(auto, using(crate::proofs::UpToDate::same_clients, crate::proofs::UpToDate::no_notices))]
fn tell_all(clients: &mut [Client], raised: &Raised, notices: &mut Notices)
    requires up_to_date { AllUpToDate clients.old }
    requires empty { listed notices.old ≡ [] }
    requires notices { HasRoom (raised_in raised.now) clients.old (room_in notices.old) }
    ensures clients { clients.new ≡ map (notified (raised_in raised.now)) clients.old }
    ensures notices { GrowsBy notices.old notices.new (notices_of raised.now clients.old) }
    ensures few { length (listed notices.new) ≤ count_by is_waiting clients.old }
    ensures none { raised_in raised.now ≡ nothing → listed notices.new ≡ [] }
{
    if raised.is_nothing() {
        return;
    }
    list_notices(clients, raised, notices);
    notify_all(clients, raised);
}

/// Whether the daemon has ended, after an event.
fn ended_after(ended: bool, event: &Event) -> bool
    ensures { result ≡ ended_after_lem ended event.now }
{
    match event {
        Event::End => true,
        _ => ended,
    }
}

/// The client whose answer and move are an event's; 0 where it comes from none, which makes no move.
fn sender_number(event: &Event) -> u32
    ensures { result ≡ sender_number_lem event.now }
{
    match event {
        Event::Connect(number) | Event::Disconnect(number) | Event::Line { client: number, .. } =>
            *number,
        Event::ScanQuestion
        | Event::ScanResult(_, _)
        | Event::Want(_, _)
        | Event::Have(_, _, _)
        | Event::Failed(_, _, _)
        | Event::OutputTurn { .. }
        | Event::End => 0,
    }
}
