//! The clients, what is pending for them, and who is told.
ghost use Rattle.std.specs.Prelude.{◌≡◌, ◌++◌, ◌+◌, ◌≤◌, ◌<◌, nat_lt, length, map, filter, count_by, is_some, vec_len, vec_capacity};
ghost use Rattle.std.specs.List.{flat_map, position_or_len};
ghost use Rattle.idle_notes.specs.Notes.{fresh, waits, cancelled};
ghost use Rattle.connected_clients.specs.Clients.{at as at_lem, entered as entered_lem, notified, is_other, joined, moved, newcomer as newcomer_lem, notice_for, shown as shown_lem};
ghost use Rattle.connected_clients.specs.Clients.{client_of};
ghost use Rattle.connected_clients.specs.Fingerprint.{raised_in};
ghost use Rattle.connected_clients.specs.Rooms.{is_waiting, listed, room_for, room_in};

use crate::fingerprint::Raised;
use crate::notices::{Notice, Notices};
use idle_notes::{Pending, Subsystems};
use known_tags::TagSet;
use player_state::Client;
use transitions::Move;

/// The client of a number, if it is there.
pub fn find_client(clients: &[Client], number: u32) -> Option<Client>
    ensures { result ≡ client_of number clients.now }
{
    for client in clients {
        if client.number == number {
            return Some(*client);
        }
    }
    None
}

/// How many clients wait.
pub fn waiting(clients: &[Client]) -> usize
    ensures { result ≡ count_by is_waiting clients.now }
{
    clients
        .iter()
        .filter(|client| client.pending.is_waiting())
        .count()
}

/// A client goes.
pub fn leave(clients: &mut Vec<Client>, number: u32)
    ensures { clients.new.items ≡ filter (is_other number) clients.old.items }
{
    clients.retain(|client| client.number != number);
}

/// Lets what was raised join what is pending for each client; those that are told wait no more.
pub fn notify_all(clients: &mut [Client], raised: &Raised)
    ensures { clients.new ≡ map (notified (raised_in raised.now)) clients.old }
{
    for client in clients.iter_mut() {
        *client = notify(*client, raised);
    }
}

fn notify(client: Client, raised: &Raised) -> Client
    ensures { result ≡ notified (raised_in raised.now) client }
{
    let mut pending = client.pending;
    pending.note(raised.for_client(&client));
    let _ = pending.notice();
    with_pending(client, pending)
}

/// Lists the notices that these clients are sent where this is raised.
#[tactic(auto, using(crate::proofs::Tells::room_after))]
pub fn list_notices(clients: &[Client], raised: &Raised, notices: &mut Notices)
    requires { length (listed notices.old) + count_by is_waiting clients.now ≤ room_in notices.old }
    ensures list { listed notices.new ≡ listed notices.old ++ flat_map (notice_for (raised_in raised.now)) clients.now }
    ensures few { length (listed notices.new) ≤ length (listed notices.old) + count_by is_waiting clients.now }
{
    for client in clients {
        list_notice(*client, raised, notices);
    }
}

fn list_notice(client: Client, raised: &Raised, notices: &mut Notices)
    requires { length (listed notices.old) + room_for client ≤ room_in notices.old }
    ensures items { listed notices.new ≡ listed notices.old ++ notice_for (raised_in raised.now) client }
    ensures room { room_in notices.old ≤ room_in notices.new }
    ensures len { length (listed notices.new) ≤ length (listed notices.old) + room_for client }
{
    let mut pending = client.pending;
    pending.note(raised.for_client(&client));
    if let Some(names) = pending.notice() {
        notices.push(Notice {
            client: client.number,
            names,
        });
    }
}

/// Lets a client do what its event asks for.
pub fn make_move(clients: &mut Vec<Client>, number: u32, client_move: Move)
    requires { vec_len clients.old < vec_capacity clients.old }
    ensures { clients.new.items ≡ moved number client_move clients.old.items }
{
    match client_move {
        Move::Stay => {}
        Move::Wait(names) => begin_waiting(clients, number, names),
        Move::Learn => refresh(clients, number),
        Move::Resume => resume(clients, number),
        Move::Join => join(clients, number),
        Move::Show(tags) => show(clients, number, tags),
        Move::Enter(index) => enter(clients, number, index),
    }
}

fn begin_waiting(clients: &mut [Client], number: u32, names: Subsystems)
    ensures { clients.new ≡ map (at_lem number (waits names)) clients.old }
{
    for client in clients.iter_mut() {
        *client = waiting_for(*client, number, names);
    }
}

/// The client, waiting where it is the one of the number.
fn waiting_for(client: Client, number: u32, names: Subsystems) -> Client
    ensures { result ≡ at_lem number (waits names) client }
{
    let mut pending = client.pending;
    if client.number == number {
        pending.listen(names);
    }
    with_pending(client, pending)
}

fn refresh(clients: &mut [Client], number: u32)
    ensures { clients.new ≡ map (at_lem number (λ p. fresh)) clients.old }
{
    for client in clients.iter_mut() {
        *client = refreshed(*client, number);
    }
}

/// The client, with nothing pending where it is the one of the number.
fn refreshed(client: Client, number: u32) -> Client
    ensures { result ≡ at_lem number (λ p. fresh) client }
{
    if client.number == number {
        with_pending(client, Pending::new())
    } else {
        client
    }
}

fn resume(clients: &mut [Client], number: u32)
    ensures { clients.new ≡ map (at_lem number cancelled) clients.old }
{
    for client in clients.iter_mut() {
        *client = resumed(*client, number);
    }
}

/// The client, not waiting where it is the one of the number.
fn resumed(client: Client, number: u32) -> Client
    ensures { result ≡ at_lem number cancelled client }
{
    let mut pending = client.pending;
    if client.number == number {
        pending.cancel();
    }
    with_pending(client, pending)
}

/// The client, with this pending for it.
fn with_pending(client: Client, pending: Pending) -> Client
    ensures { result ≡ record client { pending = pending } }
{
    Client {
        number: client.number,
        index: client.index,
        tags: client.tags,
        pending,
    }
}

fn show(clients: &mut [Client], number: u32, tags: TagSet)
    ensures { clients.new ≡ map (shown_lem number tags) clients.old }
{
    for client in clients.iter_mut() {
        *client = shown(*client, number, tags);
    }
}

/// The client, shown these tags where it is the one of the number.
fn shown(client: Client, number: u32, tags: TagSet) -> Client
    ensures { result ≡ shown_lem number tags client }
{
    if client.number == number {
        Client {
            number,
            index: client.index,
            tags,
            pending: client.pending,
        }
    } else {
        client
    }
}

fn enter(clients: &mut [Client], number: u32, index: u8)
    ensures { clients.new ≡ map (entered_lem number index) clients.old }
{
    for client in clients.iter_mut() {
        *client = entered(*client, number, index);
    }
}

/// The client, in this partition, and with everything pending, where it is the one of the number.
fn entered(client: Client, number: u32, index: u8) -> Client
    ensures { result ≡ entered_lem number index client }
{
    if client.number == number {
        Client {
            number,
            index,
            tags: client.tags,
            pending: Pending::everything(),
        }
    } else {
        client
    }
}

/// A client comes, before the first with a greater number.
fn join(clients: &mut Vec<Client>, number: u32)
    requires { vec_len clients.old < vec_capacity clients.old }
    ensures { clients.new.items ≡ joined number clients.old.items }
{
    if find_client(clients, number).is_some() {
        return;
    }
    let index = index_for(clients, number);
    let _ = clients.insert(index, newcomer(number));
}

/// A client that comes: it is in the first partition and is shown all tags, and nothing is pending for it.
fn newcomer(number: u32) -> Client
    ensures { result ≡ newcomer_lem number }
{
    Client {
        number,
        index: 0,
        tags: TagSet::all(),
        pending: Pending::new(),
    }
}

/// The index of the first client with a greater number; the number of clients where none has one.
fn index_for(clients: &[Client], number: u32) -> usize
    ensures index { result ≡ position_or_len (λ client. nat_lt number client.number) clients.now }
    ensures within { result ≤ length clients.now }
{
    let mut index = 0;
    for client in clients {
        if client.number > number {
            return index;
        }
        index += 1;
    }
    index
}
