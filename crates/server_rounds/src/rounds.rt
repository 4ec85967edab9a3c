//! The slots of a server's clients, and how far its round is.
ghost use Rattle.std.specs.Prelude.{◌≡◌, ◌<◌, ◌↔◌, ℕ, false, true, length, slice_index_or, IfSome, MatchOption};
ghost use Rattle.std.specs.List.{list_any};
ghost use Rattle.server_rounds.specs.Slots.{is_looked_at as is_looked_at_lem, is_ready as is_ready_lem, may_wait as may_wait_lem};
ghost use Rattle.server_rounds.specs.Rounds.{HasTurnFrom, IsCalledAmong, IsCalledFrom, IsLeast, IsNobody, WaitsAmong, comes_later as comes_later_lem, may_come as may_come_lem};

use crate::slot::{
    Arrival, SlotState, Turn, arrived, has_socket, has_turn, heard, is_free, is_looked_at,
    is_ready, may_read, may_wait, owes_notice, state_after, time_left, told,
};
use crate::step::{ListenerState, Phase, Step};
use std::marker::Model;
use std::time::Instant;

/// How many slots there are.
const SLOTS: usize = 64;

/// The most clients that are let in in one round.
const MAX_LET_IN: u32 = 64;

/// How long, in milliseconds, a server sleeps at most while there is something to do of which the system does
/// not tell.
const SHORT_SLEEP: u64 = 50;

/// A server of sockets, without them: who has which of 64 slots, whether a client waits to be let in, and how far
/// the round is. A caller does the steps, and says what came of them.
///
/// In each round clients are let in first. Then every client that sent something, or whose socket takes bytes
/// again, has one turn, and what others are to be told is handed to them. So the lines of one client cost the
/// others one turn's worth, and one that does not read costs them nothing.
#[derive(Drop)]
pub struct Rounds {
    slots: [SlotState; 64],
    /// Those for which a notice waits.
    called: [bool; 64],
    listener: ListenerState,
    /// Whether another thread wakes the server where a notice waits.
    is_woken: bool,
    phase: Phase,
}

impl Model for Rounds {
    ghost use Rattle.std.specs.Prelude.{◌≡◌, length};
    ghost use Rattle.server_rounds.specs.Rounds.{RoundsData};

    ghost Value = { RoundsData };

    ghost view = { λ r. record { slots = r.slots; called = r.called; listener = r.listener; is_woken = r.is_woken; phase = r.phase } };

    ghost invariant = { λ r. (length r.slots ≡ 64) × (length r.called ≡ 64) };
}

impl Rounds {
    ghost use Rattle.std.specs.Prelude.{◌≡◌, ◌<◌, ◌↔◌, ℕ, MatchOption};
    ghost use Rattle.server_rounds.specs.Slots.{arrived as arrived_lem, has_socket as has_socket_lem, may_read as may_read_lem, owes_notice as owes_notice_lem, told as told_lem};
    ghost use Rattle.server_rounds.specs.Rounds.{EndsTurn, IsCalled, IsCalledBy, IsFreeAt, IsFrom, IsLeast, IsNext, IsNobody, LetsIn, after, heard_from, is_at_once as is_at_once_lem, is_soon as is_soon_lem, longest_sleep as longest_sleep_lem, nobody_came as nobody_came_lem, opening, state_of, with_state, woken};

    /// A server that serves nobody yet, and is told of notices by nobody.
    pub fn new() -> Rounds
        ensures { result ≡ opening }
    {
        Rounds {
            slots: [SlotState::Free; 64],
            called: [false; 64],
            listener: ListenerState::Ready,
            is_woken: false,
            phase: Phase::LettingIn(MAX_LET_IN),
        }
    }

    /// Another thread wakes the server where a notice waits, or none does.
    pub fn set_woken(&mut self, is_woken: bool)
        ensures { self.new ≡ woken self.old is_woken }
    {
        self.is_woken = is_woken;
    }

    /// The system tells of the socket with this number, and perhaps that its peer ends. The listener has number 0, the
    /// clients' sockets those of their slots and one more; others are none of these.
    pub fn hear(&mut self, number: usize, is_ending: bool)
        ensures { self.new ≡ heard_from self.old number is_ending }
    {
        if number == 0 {
            self.listener = ListenerState::Ready;
        } else if number <= SLOTS {
            self.slots[number - 1] = heard(self.slots[number - 1], is_ending);
        }
    }

    /// What is done next.
    pub fn next_step(&mut self) -> Step
        ensures next { IsNext self.old result }
        ensures new { self.new ≡ after self.old result }
        ensures within { (slot : ℕ) → result ≡ Step.Visit slot → slot < 64 }
    {
        match self.phase {
            Phase::LettingIn(left) => self.let_in(left),
            Phase::Turns(from) => self.turn(from),
            Phase::Notices(from) => self.notice(from),
            Phase::Over => Step::End,
        }
    }

    /// Clients are let in, and then turns come.
    fn let_in(&mut self, left: u32) -> Step
        requires { self.old.phase ≡ Phase.LettingIn left }
        ensures next { IsNext self.old result }
        ensures new { self.new ≡ after self.old result }
        ensures within { (slot : ℕ) → result ≡ Step.Visit slot → slot < 64 }
    {
        if left == 0 || self.listener == ListenerState::Idle {
            return self.turn(0);
        }
        self.phase = Phase::LettingIn(left - 1);
        Step::LetIn
    }

    /// The next turn, of the slots from one on; after all of them it is asked for notices.
    fn turn(&mut self, from: usize) -> Step
        requires none_to_let_in { LetsIn self.old.phase self.old → ⊥ }
        requires phase { IsFrom self.old.phase from }
        ensures next { IsNext self.old result }
        ensures new { self.new ≡ after self.old result }
        ensures within { (slot : ℕ) → result ≡ Step.Visit slot → slot < 64 }
    {
        if let Some(slot) = next_turn(&self.slots, from) {
            self.phase = Phase::Turns(slot + 1);
            return Step::Visit(slot);
        }
        if any_may_wait(&self.slots) {
            self.called = [false; 64];
            self.phase = Phase::Notices(0);
            return Step::Ask;
        }
        self.rest()
    }

    /// The next client that is called, of the slots from one on.
    fn notice(&mut self, from: usize) -> Step
        requires { self.old.phase ≡ Phase.Notices from }
        ensures next { IsNext self.old result }
        ensures new { self.new ≡ after self.old result }
        ensures within { (slot : ℕ) → result ≡ Step.Visit slot → slot < 64 }
    {
        if let Some(slot) = next_called(&self.called, from) {
            self.phase = Phase::Notices(slot + 1);
            return Step::Visit(slot);
        }
        self.rest()
    }

    /// The round is over.
    fn rest(&mut self) -> Step
        ensures step { result ≡ Step.Sleep (longest_sleep_lem self.old) }
        ensures new { self.new ≡ record self.old { phase = Phase.LettingIn 64 } }
    {
        let most = self.longest_sleep();
        self.phase = Phase::LettingIn(MAX_LET_IN);
        Step::Sleep(most)
    }

    /// How long the server may sleep, in milliseconds; `None` is until the system tells of a socket.
    fn longest_sleep(&self) -> Option<u64>
        ensures { result ≡ longest_sleep_lem self.now }
    {
        if self.is_at_once() {
            Some(0)
        } else if self.is_soon() {
            Some(SHORT_SLEEP)
        } else {
            None
        }
    }

    /// Whether there is something to do at once.
    fn is_at_once(&self) -> bool
        ensures { result ≡ is_at_once_lem self.now }
    {
        may_come(self.listener) || any_is_ready(&self.slots)
    }

    /// Whether there is something to do soon, of which the system does not tell.
    fn is_soon(&self) -> bool
        ensures { result ≡ is_soon_lem self.now }
    {
        comes_later(self.listener) || any_is_looked_at(&self.slots, self.is_woken)
    }

    /// The slot for a client that is to be let in: the first that nobody has.
    pub fn free_slot(&self) -> Option<usize>
        ensures { MatchOption result (IsNobody (IsFreeAt self.now)) (λ slot. IsLeast (IsFreeAt self.now) slot) }
    {
        self.slots.iter().position(|state| is_free(*state))
    }

    /// A free slot is given to a client, or not.
    pub fn arrive(&mut self, slot: usize, arrival: Arrival)
        requires { IsFreeAt self.old slot }
        ensures { self.new ≡ with_state self.old slot (arrived_lem arrival) }
    {
        self.slots[slot] = arrived(arrival);
    }

    /// The listener gave no client: none waits, or one could not be let in.
    pub fn nobody_came(&mut self, none_waits: bool)
        ensures { self.new ≡ nobody_came_lem self.old none_waits }
    {
        self.listener = if none_waits {
            ListenerState::Idle
        } else {
            ListenerState::TryLater
        };
        if let Phase::LettingIn(_) = self.phase {
            self.phase = Phase::LettingIn(0);
        }
    }

    /// Notices wait for these clients.
    pub fn call(&mut self, clients: &[u32])
        ensures frame { self.new ≡ record self.old { called = self.new.called } }
        ensures called { (slot : ℕ) → slot < 64 → IsCalled self.new slot ↔ IsCalledBy self.old clients.now slot }
    {
        self.called = called_in(&self.slots, clients);
    }

    /// Whether the socket of a client is read in its turn.
    pub fn may_read(&self, slot: usize) -> bool
        ensures { result ≡ may_read_lem (state_of self.now slot) }
    {
        slot < SLOTS && may_read(self.slots[slot])
    }

    /// Whether there is a socket to a slot; where there is none, it is let go.
    pub fn has_socket(&self, slot: usize) -> bool
        ensures { result ≡ has_socket_lem (state_of self.now slot) }
    {
        slot < SLOTS && has_socket(self.slots[slot])
    }

    /// Whether the player is to be told that the client of a slot is gone.
    pub fn owes_notice(&self, slot: usize) -> bool
        ensures { result ≡ owes_notice_lem (state_of self.now slot) }
    {
        slot < SLOTS && owes_notice(self.slots[slot])
    }

    /// The player was told that the client of a slot is gone.
    pub fn tell(&mut self, slot: usize)
        ensures { self.new ≡ with_state self.old slot (told_lem (state_of self.old slot)) }
    {
        if slot < SLOTS {
            self.slots[slot] = told(self.slots[slot]);
        }
    }

    /// What a turn came to, and when it ended, if a clock can be read.
    pub fn end_turn(&mut self, slot: usize, turn: Turn, now: Option<Instant>)
        requires { slot < 64 }
        ensures { EndsTurn self.old slot turn now self.new }
    {
        let state = self.slots[slot];
        let left = time_left(state, now);
        if let Turn::Killed = turn {
            self.phase = Phase::Over;
        } else {
            self.slots[slot] = state_after(state, turn, left);
        }
    }
}

/// Whether a client may be had from the listener at once.
fn may_come(listener: ListenerState) -> bool
    ensures { result ≡ may_come_lem listener }
{
    matches!(listener, ListenerState::Ready)
}

/// Whether one that could not be let in is tried again.
fn comes_later(listener: ListenerState) -> bool
    ensures { result ≡ comes_later_lem listener }
{
    matches!(listener, ListenerState::TryLater)
}

fn any_is_ready(slots: &[SlotState]) -> bool
    ensures { result ≡ list_any is_ready_lem slots.now }
{
    slots.iter().any(|slot| is_ready(*slot))
}

fn any_may_wait(slots: &[SlotState]) -> bool
    ensures { result ≡ list_any may_wait_lem slots.now }
{
    slots.iter().any(|slot| may_wait(*slot))
}

fn any_is_looked_at(slots: &[SlotState], is_woken: bool) -> bool
    ensures { result ≡ list_any (is_looked_at_lem is_woken) slots.now }
{
    slots.iter().any(|slot| is_looked_at(*slot, is_woken))
}

/// The first slot from one on that has a turn.
fn next_turn(slots: &[SlotState], from: usize) -> Option<usize>
    ensures first { MatchOption result (IsNobody (HasTurnFrom slots.now from)) (λ slot. IsLeast (HasTurnFrom slots.now from) slot) }
    ensures within { IfSome result (λ slot. slot < length slots.now) }
{
    for slot in from..slots.len() {
        if has_turn(slots[slot]) {
            return Some(slot);
        }
    }
    None
}

/// The first slot from one on that is called.
fn next_called(called: &[bool], from: usize) -> Option<usize>
    ensures first { MatchOption result (IsNobody (IsCalledFrom called.now from)) (λ slot. IsLeast (IsCalledFrom called.now from) slot) }
    ensures within { IfSome result (λ slot. slot < length called.now) }
{
    for slot in from..called.len() {
        if called[slot] {
            return Some(slot);
        }
    }
    None
}

/// Of 64 slots those for whose clients a notice waits.
fn called_in(slots: &[SlotState], clients: &[u32]) -> [bool; 64]
    requires { length slots.now ≡ 64 }
    ensures length { length result ≡ 64 }
    ensures called { (slot : ℕ) → slot < 64 → slice_index_or result slot false ≡ true ↔ IsCalledAmong slots.now clients.now slot }
{
    let mut called = [false; 64];
    for slot in 0..SLOTS {
        called[slot] = is_called(slots[slot], slot as u32 + 1, clients);
    }
    called
}

/// Whether a notice waits for the client of a slot that has this number.
fn is_called(slot: SlotState, client: u32, clients: &[u32]) -> bool
    ensures { result ≡ true ↔ WaitsAmong slot client clients.now }
{
    may_wait(slot) && !is_ready(slot) && clients.contains(&client)
}
