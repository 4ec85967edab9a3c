//! What an event needs that can fail, made ready before anything changes.
ghost use Rattle.std.specs.Prelude.{◌≡◌, [], true, false, IfErr, IfOk, OnOk};
ghost use Rattle.player_state.specs.Outputs.{can_count_all};
ghost use Rattle.connected_clients.specs.Rooms.{listed};
ghost use Rattle.transitions.specs.Shelves.{is_written};
ghost use Rattle.player_events.specs.Events.{name_at, name_of as name_of_lem, list_place_of};
ghost use Rattle.partition_table.specs.declared.crossing.Crossing.{Crossing};
ghost use Rattle.partition.specs.Applying.{ActsAt, GoesNowhere, HasReadings, HasRoomForWaiting, IsStill};
ghost use Rattle.partition.specs.Applying.{RefusesFramesIn, books_in};
ghost use Rattle.player_state.specs.FrameCounts.{IsBooked};

use crate::partition::PartitionFault;
use crate::state::State;
use connected_clients::{Fingerprint, Notices, waiting};
use mpd_command::{Name, Request};
use partition_table::Crossing;
use player_events::Event;
use player_state::FrameCounts;
use std::alloc::{AllocError, Global};
use transitions::{ListPlace, Move, Refusals, Transition};

/// A list for the notices of an event, and what tells whether it changed a part of the player.
#[derive(Drop)]
pub(crate) struct Prepared {
    pub(crate) notices: Notices,
    pub(crate) before: Fingerprint,
}

impl Prepared {
    /// With room for a notice to each client that waits, before an event of a partition by which this passes
    /// between partitions.
    fn with_room(
        alloc: Global,
        crossing: &Crossing,
        index: u8,
        state: &State,
    ) -> Result<Prepared, AllocError>
        ensures notices { IfOk result (λ prepared. listed prepared.notices ≡ []) }
        ensures room { IfOk result (HasRoomForWaiting state.now) }
        ensures before { IfOk result (HasReadings state.now crossing.now index) }
    {
        Ok(Prepared {
            notices: Notices::with_room(alloc, waiting(&state.clients))?,
            before: Fingerprint::of(alloc, crossing, index, &state.parts, &state.library)?,
        })
    }
}

/// What a transition of a client's event, or another's, needs that writes nothing to the shelf, and the books
/// after it.
///
/// A transition is lent, here and below, so that it isn't dropped at each way out: a proof would go through
/// every kind of effect there.
pub(crate) fn prepare_step(
    alloc: Global,
    state: &State,
    index: u8,
    transition: &Transition,
) -> Result<(Prepared, FrameCounts), PartitionFault>
    requires acts { ActsAt state.now index transition.now }
    ensures notices { IfOk result (λ made. listed made.0.notices ≡ []) }
    ensures room { IfOk result (λ made. HasRoomForWaiting state.now made.0) }
    ensures before { IfOk result (λ made. HasReadings state.now transition.now.crossing index made.0) }
    ensures counted { OnOk result (can_count_all (books_in state.now index transition.now) ≡ true) }
    ensures books { IfOk result (λ made. made.1 ≡ books_in state.now index transition.now) }
    ensures refused { IfErr result (λ fault. RefusesFramesIn state.now index transition.now fault) }
{
    let Some(books) = books_after(state, index, transition) else {
        return Err(PartitionFault::AtLimit);
    };
    let prepared = Prepared::with_room(alloc, &transition.crossing, index, state)?;
    Ok((prepared, books))
}

/// The books after a transition, if its frames can be counted with all others.
fn books_after(state: &State, index: u8, transition: &Transition) -> Option<FrameCounts>
    requires { ActsAt state.now index transition.now }
    ensures { IsBooked result (books_in state.now index transition.now) }
{
    match state.parts.at(index) {
        Some(part) => state.books.after(part, &transition.effect),
        None => {
            state.books.rest();
            Some(state.books.copied())
        }
    }
}

/// What an event needs that writes to the shelf, and its answers for each refusal of the shelf.
pub(crate) fn prepare_write(
    alloc: Global,
    state: &State,
    index: u8,
    event: &Event,
) -> Result<(Prepared, Refusals), AllocError>
    ensures notices { IfOk result (λ made. listed made.0.notices ≡ []) }
    ensures room { IfOk result (λ made. HasRoomForWaiting state.now made.0) }
    ensures before { IfOk result (λ made. HasReadings state.now Crossing.Stays index made.0) }
    ensures refusals { IfOk result (λ made. made.1 ≡ (list_place_of event.now, name_at event.now)) }
{
    let prepared = Prepared::with_room(alloc, &Crossing::Stays, index, state)?;
    let refusals = refusals_of(alloc, event)?;
    Ok((prepared, refusals))
}

/// Whether a transition may change anything that clients are told of. One that does not needs nothing here.
pub(crate) fn changes(transition: &Transition) -> bool
    requires { is_written transition.now.written ≡ false }
    ensures { result ≡ false → IsStill transition.now }
{
    let still = transition.scan.stays() & transition.effect.rests() & transition.crossing.stays();
    !still | enters(transition.response.client_move())
}

/// Whether a client goes to another partition by this.
fn enters(client_move: Move) -> bool
    ensures { result ≡ false → GoesNowhere client_move }
{
    matches!(client_move, Move::Enter(_))
}

/// The answers to the line of an event for each refusal of the shelf; for another event they are never given.
fn refusals_of(alloc: Global, event: &Event) -> Result<Refusals, AllocError>
    ensures { IfOk result (λ refusals. refusals ≡ (list_place_of event.now, name_at event.now)) }
{
    match event {
        Event::Line {
            list_place,
            request,
            ..
        } => Refusals::for_line(alloc, *list_place, name_of(request)),
        _ => Refusals::for_line(alloc, ListPlace::Alone, None),
    }
}

fn name_of(request: &Request) -> Option<Name>
    ensures { result ≡ name_of_lem request.now }
{
    match request {
        Request::Run(name, _) => Some(*name),
        Request::Refused(ack) => ack.command,
    }
}
