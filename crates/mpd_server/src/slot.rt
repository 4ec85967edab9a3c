//! The slots that clients have.
use crate::connection::Connection;
use house::{House, Ledgers, News, Seat};
use mio::net::TcpStream;
use mio::{Interest, Registry, Token};
use mpd_command::CommandSet;
use mpd_session::{Asker, Session};
use server_rounds::{Arrival, Turn};
use shelf::Shelf;
use std::alloc::Global;
use std::sync::Wait;

/// A slot for one client at a time, which has the number of the slot.
#[derive(Drop)]
pub(crate) struct Slot {
    client: u32,
    connection: Option<Connection>,
}

impl Slot {
    pub(crate) fn new(client: u32) -> Slot {
        Slot {
            client,
            connection: None,
        }
    }

    /// Lets a client in. Where the player refuses it, or there is no memory, it is closed without a greeting.
    pub(crate) fn take_in<L: Ledgers, R: Wait>(
        &mut self,
        rt: &R,
        alloc: Global,
        house: &House<L>,
        seat: &mut Seat<L>,
        registry: &Registry,
        stream: TcpStream,
        commands: CommandSet,
    ) -> Arrival {
        let mut stream = stream;
        let interest = Interest::READABLE | Interest::WRITABLE;
        // Answers are small and are waited for, so none waits for an acknowledgement. Where this fails they
        // come later.
        let _nodelay = stream.set_nodelay(true);
        if registry
            .register(&mut stream, Token(self.client as usize), interest)
            .is_err()
        {
            return Arrival::Refused;
        }
        let Ok(told) = house.notice(rt, seat, News::Comes(self.client)) else {
            return Arrival::Refused;
        };
        if told.reply().next().closes() {
            return Arrival::Refused;
        }
        let asker = Asker {
            client: self.client,
            commands,
        };
        match Session::new(alloc, asker, told.reply()) {
            Ok(session) => {
                self.let_to(Some(Connection::new(stream, session)));
                Arrival::Greeted
            }
            Err(_) => Arrival::Lost,
        }
    }

    /// Gives the slot to another. It is a function of its own so that the proofs of others do not go through
    /// all that a client has.
    fn let_to(&mut self, connection: Option<Connection>) {
        self.connection = connection;
    }

    /// Closes the socket of a client that is gone.
    pub(crate) fn let_go(&mut self) {
        self.let_to(None);
    }

    /// Gives its client a turn, if one is there, and says what it came to.
    pub(crate) fn turn<L: Ledgers, S: Shelf, R: Wait>(
        &mut self,
        rt: &R,
        house: &House<L>,
        seat: &mut Seat<L>,
        shelf: &mut S,
        may_read: bool,
        uptime: Option<u32>,
    ) -> Option<Turn> {
        match &mut self.connection {
            Some(connection) => Some(connection.turn(rt, house, seat, shelf, may_read, uptime)),
            None => None,
        }
    }

    /// Tells the player that its client is gone. False where there was no memory for that.
    pub(crate) fn tell<L: Ledgers, R: Wait>(
        &self,
        rt: &R,
        house: &House<L>,
        seat: &mut Seat<L>,
    ) -> bool {
        house.notice(rt, seat, News::Goes(self.client)).is_ok()
    }
}
