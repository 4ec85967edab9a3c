//! Who has a slot in the server, and what becomes of it.
ghost use Rattle.std.specs.Prelude.{◌≡◌};
ghost use Rattle.server_rounds.specs.Slots.{IsTimeLeft, arrived as arrived_lem, closed_after as closed_after_lem, freed as freed_lem, has_socket as has_socket_lem, has_turn as has_turn_lem, heard as heard_lem, is_free as is_free_lem, is_known as is_known_lem, is_leaving as is_leaving_lem, is_starved as is_starved_lem, is_looked_at as is_looked_at_lem, is_ready as is_ready_lem, may_read as may_read_lem, may_wait as may_wait_lem, open_after as open_after_lem, owes_notice as owes_notice_lem, state_after as state_after_lem, told as told_lem, writes_on as writes_on_lem};

use std::time::{Duration, Instant};

/// How long, in seconds, a client that is closed may take to read its last answers.
const LAST_READ: u64 = 10;

/// A client whose session is open.
#[derive(Clone, Copy)]
pub struct OpenClient {
    /// Whether the socket may have something to be read, or room to be written to.
    pub is_ready: bool,
    /// Whether the peer ends, so that the socket is read to its end.
    pub is_ending: bool,
    /// Whether something was not done for lack of memory, which is tried again.
    pub is_starved: bool,
    /// Whether the client may have to be told something that it did not ask for.
    pub may_wait: bool,
}

/// A client whose session is closed, and which may still read its last answers.
#[derive(Clone, Copy)]
pub struct ClosedClient {
    /// Whether the player knows that the client is gone.
    pub is_known: bool,
    /// Until when it may read.
    pub leaves_by: Instant,
}

/// Who has a slot.
#[derive(Clone, Copy)]
pub enum SlotState {
    /// Nobody.
    Free,
    Open(OpenClient),
    Closed(ClosedClient),
    /// A client that is gone, of which the player could not be told yet.
    Gone,
}

/// What became of a client that was to have a slot.
#[derive(Clone, Copy, PartialEq, Eq)]
pub enum Arrival {
    /// The player did not let it in.
    Refused,
    /// The player let it in, and it has a session.
    Greeted,
    /// The player let it in, and there was no memory for its session.
    Lost,
}

/// What a turn came to.
#[derive(Clone, Copy)]
pub enum Turn {
    /// The session is open.
    Open(OpenTurn),
    /// The session is closed.
    Closed(ClosedTurn),
    /// The client ended the daemon.
    Killed,
}

/// A turn after which the session is open.
#[derive(Clone, Copy)]
pub struct OpenTurn {
    /// Whether something was not done for lack of memory.
    pub lacks_memory: bool,
    /// Whether all that had come by the socket was read.
    pub is_drained: bool,
    /// Whether the client may have to be told something that it did not ask for.
    pub may_wait: bool,
}

/// A turn after which the session is closed.
#[derive(Clone, Copy)]
pub struct ClosedTurn {
    /// Whether it was closed by an answer, so that the player knows.
    pub by_answer: bool,
    /// Whether answers wait to be written.
    pub has_unsent: bool,
    /// Whether they cannot be written: a device failed, or there were too many.
    pub gives_up: bool,
}

/// Whether nobody has a slot.
pub(crate) fn is_free(slot: SlotState) -> bool
    ensures { result ≡ is_free_lem slot }
{
    matches!(slot, SlotState::Free)
}

/// Whether there is a socket to a slot.
pub(crate) fn has_socket(slot: SlotState) -> bool
    ensures { result ≡ has_socket_lem slot }
{
    matches!(slot, SlotState::Open(_) | SlotState::Closed(_))
}

/// Whether its client has something to be done at once.
pub(crate) fn is_ready(slot: SlotState) -> bool
    ensures { result ≡ is_ready_lem slot }
{
    match slot {
        SlotState::Open(client) => client.is_ready,
        SlotState::Free | SlotState::Closed(_) | SlotState::Gone => false,
    }
}

/// Whether something was not done for an open client for lack of memory.
fn is_starved(slot: SlotState) -> bool
    ensures { result ≡ is_starved_lem slot }
{
    match slot {
        SlotState::Open(client) => client.is_starved,
        SlotState::Free | SlotState::Closed(_) | SlotState::Gone => false,
    }
}

/// Whether its client is closed, or gone and the player does not know yet.
fn is_leaving(slot: SlotState) -> bool
    ensures { result ≡ is_leaving_lem slot }
{
    matches!(slot, SlotState::Closed(_) | SlotState::Gone)
}

/// Whether its client may have to be told something that it did not ask for.
pub(crate) fn may_wait(slot: SlotState) -> bool
    ensures { result ≡ may_wait_lem slot }
{
    match slot {
        SlotState::Open(client) => client.may_wait,
        SlotState::Free | SlotState::Closed(_) | SlotState::Gone => false,
    }
}

/// Whether the socket of a client is read in its turn.
pub(crate) fn may_read(slot: SlotState) -> bool
    ensures { result ≡ may_read_lem slot }
{
    is_ready(slot) || is_starved(slot)
}

/// Whether there is something to do for whoever has a slot.
pub(crate) fn has_turn(slot: SlotState) -> bool
    ensures { result ≡ has_turn_lem slot }
{
    may_read(slot) || is_leaving(slot)
}

/// Whether a slot is looked at again after a short sleep; where another thread wakes the server, not for
/// notices.
pub(crate) fn is_looked_at(slot: SlotState, is_woken: bool) -> bool
    ensures { result ≡ is_looked_at_lem is_woken slot }
{
    is_starved(slot) || is_leaving(slot) || may_wait(slot) && !is_woken
}

/// Whether the player is to be told that a client is gone.
pub(crate) fn owes_notice(slot: SlotState) -> bool
    ensures { result ≡ owes_notice_lem slot }
{
    match slot {
        SlotState::Free | SlotState::Open(_) => false,
        SlotState::Closed(client) => !client.is_known,
        SlotState::Gone => true,
    }
}

/// The system tells of a client's socket, and perhaps that the peer ends.
pub(crate) fn heard(slot: SlotState, is_ending: bool) -> SlotState
    ensures { result ≡ heard_lem is_ending slot }
{
    match slot {
        SlotState::Open(client) => SlotState::Open(OpenClient {
            is_ready: true,
            is_ending: client.is_ending || is_ending,
            is_starved: client.is_starved,
            may_wait: client.may_wait,
        }),
        SlotState::Free | SlotState::Closed(_) | SlotState::Gone => slot,
    }
}

/// The player was told that a client is gone.
pub(crate) fn told(slot: SlotState) -> SlotState
    ensures { result ≡ told_lem slot }
{
    match slot {
        SlotState::Free | SlotState::Open(_) => slot,
        SlotState::Closed(client) => SlotState::Closed(ClosedClient {
            is_known: true,
            leaves_by: client.leaves_by,
        }),
        SlotState::Gone => SlotState::Free,
    }
}

/// A free slot that is given to a client.
pub(crate) fn arrived(arrival: Arrival) -> SlotState
    ensures { result ≡ arrived_lem arrival }
{
    match arrival {
        Arrival::Refused => SlotState::Free,
        Arrival::Greeted => SlotState::Open(OpenClient {
            is_ready: true,
            is_ending: false,
            is_starved: false,
            may_wait: false,
        }),
        Arrival::Lost => SlotState::Gone,
    }
}

/// Until when a closed client may read its last answers, if it may: its time begins when it is closed. Where no
/// clock can be read, it had its time.
pub(crate) fn time_left(slot: SlotState, now: Option<Instant>) -> Option<Instant>
    ensures { IsTimeLeft slot now result }
{
    let now = now?;
    match slot {
        SlotState::Closed(client) => match client.leaves_by.checked_duration_since(now) {
            Some(_) => Some(client.leaves_by),
            None => None,
        },
        SlotState::Free | SlotState::Open(_) | SlotState::Gone => {
            now.checked_add(Duration::from_secs(LAST_READ))
        }
    }
}

/// The slot of a client after its turn, where it may read its last answers for so long.
pub(crate) fn state_after(slot: SlotState, turn: Turn, time_left: Option<Instant>) -> SlotState
    ensures { result ≡ state_after_lem slot turn time_left }
{
    match turn {
        Turn::Open(turn) => open_after(slot, turn),
        Turn::Closed(turn) => closed_after(
            is_known(slot) || turn.by_answer,
            writes_on(turn),
            time_left,
        ),
        Turn::Killed => slot,
    }
}

fn open_after(slot: SlotState, turn: OpenTurn) -> SlotState
    ensures { result ≡ open_after_lem slot turn }
{
    match slot {
        SlotState::Open(client) => SlotState::Open(OpenClient {
            is_ready: may_read(slot)
                && !turn.lacks_memory
                && (!turn.is_drained || client.is_ending),
            is_ending: client.is_ending,
            is_starved: turn.lacks_memory,
            may_wait: turn.may_wait,
        }),
        SlotState::Free | SlotState::Closed(_) | SlotState::Gone => slot,
    }
}

/// Whether the player knows that the client of a slot is gone.
fn is_known(slot: SlotState) -> bool
    ensures { result ≡ is_known_lem slot }
{
    match slot {
        SlotState::Closed(client) => client.is_known,
        SlotState::Free | SlotState::Open(_) | SlotState::Gone => false,
    }
}

/// Whether answers are still written to a closed client.
fn writes_on(turn: ClosedTurn) -> bool
    ensures { result ≡ writes_on_lem turn }
{
    turn.has_unsent && !turn.gives_up
}

fn closed_after(is_known: bool, writes_on: bool, time_left: Option<Instant>) -> SlotState
    ensures { result ≡ closed_after_lem is_known writes_on time_left }
{
    match time_left {
        Some(leaves_by) if writes_on => SlotState::Closed(ClosedClient {
            is_known,
            leaves_by,
        }),
        _ => freed(is_known),
    }
}

/// The slot of a client that is gone.
fn freed(is_known: bool) -> SlotState
    ensures { result ≡ freed_lem is_known }
{
    if is_known {
        SlotState::Free
    } else {
        SlotState::Gone
    }
}
