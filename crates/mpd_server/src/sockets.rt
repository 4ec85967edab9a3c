//! The loop over the sockets.
ghost use Rattle.std.specs.Prelude.{◌<◌};

use crate::slot::Slot;
use house::{House, Ledgers, Seat};
use mio::net::{TcpListener, TcpStream};
use mio::{Events, Interest, Poll, Token, Waker};
use mpd_command::CommandSet;
use partition::MAX_CLIENTS;
use server_rounds::{Rounds, Step};
use shelf::Shelf;
use std::alloc::{AllocError, Global};
use std::io::ErrorKind;
use std::net::{Net, SocketAddr};
use std::sync::Wait;
use std::time::{Clock, Duration, Instant};

/// The sockets have these numbers ([`Rounds::hear`]): the clients' are those that they have in the player.
const LISTENER: Token = Token(0);

/// Behind those of the clients.
const WAKER: Token = Token(65);

/// Why nothing is served.
#[derive(Clone, Copy, PartialEq, Eq)]
pub enum ServeFault {
    /// The address cannot be listened at, or the sockets cannot be waited for.
    ListenFault,
    /// There was no memory.
    NoMemory,
}

impl From<AllocError> for ServeFault {
    fn from(_e: AllocError) -> ServeFault {
        ServeFault::NoMemory
    }
}

/// Listens at an address, as `127.0.0.1:6600`.
pub fn bind<N: Net>(rt: &N, address: &str) -> Result<TcpListener, ServeFault> {
    let Ok(address) = address.parse::<SocketAddr>() else {
        return Err(ServeFault::ListenFault);
    };
    match TcpListener::bind(rt, address) {
        Ok(listener) => Ok(listener),
        Err(fault) if fault.kind() == ErrorKind::OutOfMemory => Err(ServeFault::NoMemory),
        Err(_) => Err(ServeFault::ListenFault),
    }
}

/// The sockets, and the slots of the clients.
pub struct Server {
    poll: Poll,
    events: Events,
    listener: TcpListener,
    slots: Vec<Slot>,
    rounds: Rounds,
}

// Written out, so that it is proved here once, and not again in each crate that lets a server go.
impl Drop for Server {
    fn drop(self) {
        let Server {
            poll: _,
            events: _,
            listener: _,
            slots: _,
            rounds: _,
        } = self;
    }
}

impl Server {
    /// A server that listens, and serves nobody yet.
    pub fn open<N: Net>(
        rt: &N,
        alloc: Global,
        listener: TcpListener,
    ) -> Result<Server, ServeFault> {
        let mut listener = listener;
        let Ok(poll) = Poll::new(rt) else {
            return Err(ServeFault::ListenFault);
        };
        let events = Events::with_capacity(alloc, 128)?;
        let slots = free_slots(alloc)?;
        if poll
            .registry()
            .register(&mut listener, LISTENER, Interest::READABLE)
            .is_err()
        {
            return Err(ServeFault::ListenFault);
        }
        Ok(Server {
            poll,
            events,
            listener,
            slots,
            rounds: Rounds::new(),
        })
    }

    /// What another thread wakes the loop with. From then on the loop does not look for notices by itself.
    pub(crate) fn waker(&mut self) -> Result<Waker, ServeFault> {
        let Ok(waker) = Waker::new(self.poll.registry(), WAKER) else {
            return Err(ServeFault::ListenFault);
        };
        self.rounds.set_woken(true);
        Ok(waker)
    }

    /// The thread that was to wake the loop is not there.
    pub(crate) fn look_itself(&mut self) {
        self.rounds.set_woken(false);
    }

    /// Serves clients until one of them ends the daemon: what is done next [`Rounds`] says.
    ///
    /// Between rounds the loop sleeps until the system tells of a socket, or a thread wakes it
    /// ([`start_waker`](crate::start_waker)); without such a thread, 50 ms at most while a client idles.
    pub fn serve<L: Ledgers, S: Shelf, R: Wait + Clock>(
        &mut self,
        rt: &R,
        alloc: Global,
        house: &House<L>,
        seat: &mut Seat<L>,
        shelf: &mut S,
        commands: CommandSet,
    ) -> Result<(), ServeFault> {
        let start = Instant::now(rt).ok();
        for _ in rt.forever() {
            match self.rounds.next_step() {
                Step::Sleep(most) => self.sleep(most)?,
                Step::LetIn => self.let_in(rt, alloc, house, seat, commands),
                Step::Visit(slot) => self.visit(rt, house, seat, shelf, slot, start),
                Step::Ask => self.ask(rt, alloc, house),
                Step::End => break,
            }
        }
        Ok(())
    }

    /// Sleeps until the system tells of a socket, so many milliseconds at most.
    fn sleep(&mut self, most: Option<u64>) -> Result<(), ServeFault> {
        let most = most.map(Duration::from_millis);
        if self.poll.poll(&mut self.events, most).is_err() {
            return Err(ServeFault::ListenFault);
        }
        for event in &self.events {
            let Token(number) = event.token();
            self.rounds
                .hear(number, event.is_read_closed() || event.is_error());
        }
        Ok(())
    }

    /// Lets in a client that waits at the listener.
    fn let_in<L: Ledgers, R: Wait>(
        &mut self,
        rt: &R,
        alloc: Global,
        house: &House<L>,
        seat: &mut Seat<L>,
        commands: CommandSet,
    ) {
        match self.listener.accept() {
            Ok((stream, _)) => self.take_in(rt, alloc, house, seat, stream, commands),
            Err(fault) => self
                .rounds
                .nobody_came(fault.kind() == ErrorKind::WouldBlock),
        }
    }

    /// Gives a client a slot; one that finds none is closed without a greeting.
    fn take_in<L: Ledgers, R: Wait>(
        &mut self,
        rt: &R,
        alloc: Global,
        house: &House<L>,
        seat: &mut Seat<L>,
        stream: TcpStream,
        commands: CommandSet,
    ) {
        let Some(number) = self.rounds.free_slot() else {
            return;
        };
        let registry = self.poll.registry();
        if let Some(slot) = self.slots.get_mut(number) {
            let arrival = slot.take_in(rt, alloc, house, seat, registry, stream, commands);
            self.rounds.arrive(number, arrival);
        }
    }

    /// Gives a client its turn, and tells the player of it if it is gone.
    fn visit<L: Ledgers, S: Shelf, R: Wait + Clock>(
        &mut self,
        rt: &R,
        house: &House<L>,
        seat: &mut Seat<L>,
        shelf: &mut S,
        number: usize,
        start: Option<Instant>,
    )
        requires { number < 64 }
    {
        let Some(slot) = self.slots.get_mut(number) else {
            return;
        };
        let (may_read, now) = (self.rounds.may_read(number), Instant::now(rt).ok());
        let uptime = seconds_between(start, now);
        if let Some(turn) = slot.turn(rt, house, seat, shelf, may_read, uptime) {
            self.rounds.end_turn(number, turn, now);
        }
        if self.rounds.owes_notice(number) && slot.tell(rt, house, seat) {
            self.rounds.tell(number);
        }
        if !self.rounds.has_socket(number) {
            slot.let_go();
        }
    }

    /// Asks for whom notices wait. Without memory for this, each is told when the loop looks again.
    fn ask<L: Ledgers, R: Wait>(&mut self, rt: &R, alloc: Global, house: &House<L>) {
        if let Ok(clients) = house.addressees(rt, alloc) {
            self.rounds.call(&clients);
        }
    }
}

/// How many whole seconds there are between two times, where both are known.
fn seconds_between(start: Option<Instant>, end: Option<Instant>) -> Option<u32> {
    match (start, end) {
        (Some(start), Some(end)) => u32::try_from(end.duration_since(start).as_secs()).ok(),
        _ => None,
    }
}

/// The slots of all clients, which are numbered from 1.
fn free_slots(alloc: Global) -> Result<Vec<Slot>, AllocError> {
    let mut slots = Vec::new(alloc);
    for client in 1..=MAX_CLIENTS as u32 {
        slots.push(Slot::new(client))?;
    }
    Ok(slots)
}
