//! A client's socket with its session.
use counted_devices::{Counting, Failing};
use house::{House, Ledgers, Seat};
use mio::net::TcpStream;
use mpd_session::{End, Session, SessionFault};
use server_rounds::{ClosedTurn, Inbox, OpenTurn, Turn};
use shelf::Shelf;
use std::sync::Wait;

/// A client's socket, and its session.
pub(crate) struct Connection {
    stream: TcpStream,
    session: Session,
}

// Written out, so that a proof goes through one call where it lets one go (docs/DECISIONS.md).
impl Drop for Connection {
    fn drop(self) {
        let Connection {
            stream: _,
            session: _,
        } = self;
    }
}

impl Connection {
    pub(crate) fn new(stream: TcpStream, session: Session) -> Connection {
        Connection { stream, session }
    }

    /// Gives the session its turn, and says what it came to. Where nothing came by the socket, it is not
    /// read. The daemon has been running for so many seconds, where that is known.
    pub(crate) fn turn<L: Ledgers, S: Shelf, R: Wait>(
        &mut self,
        rt: &R,
        house: &House<L>,
        seat: &mut Seat<L>,
        shelf: &mut S,
        may_read: bool,
        uptime: Option<u32>,
    ) -> Turn {
        self.session.set_uptime(uptime);
        let mut reader = Counting::new(Inbox::new(&self.stream, may_read));
        let mut writer = Counting::new(&self.stream);
        let left = self
            .session
            .turn(rt, &mut reader, &mut writer, house, seat, shelf);
        match self.session.end() {
            None => Turn::Open(OpenTurn {
                lacks_memory: matches!(left, Err(SessionFault::NoMemory)),
                is_drained: reader.inner().is_drained(),
                may_wait: self.session.may_wait(),
            }),
            Some(End::Killed) => Turn::Killed,
            Some(end) => Turn::Closed(ClosedTurn {
                by_answer: end.is_by_answer(),
                has_unsent: self.session.has_unsent(),
                gives_up: end.gives_up() || writer.failures() > 0,
            }),
        }
    }
}
