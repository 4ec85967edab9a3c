//! One client's session.
ghost use Rattle.std.specs.Prelude.{◌≡◌, None, true};
ghost use Rattle.mpd_session.specs.Ends.{turn_answer};

use crate::asker::Asker;
use crate::conversation::Conversation;
use crate::end::{End, Goes, SessionFault};
use crate::gatherer::Gatherer;
use crate::owed::Owed;
use crate::unsent::Unsent;
use counted_devices::{Sink, Source};
use house::{House, Ledgers, Seat};
use mpd_text::Splitter;
use shelf::Shelf;
use std::alloc::{AllocError, Global};
use std::collections::VecDeque;
use std::marker::Model;
use std::sync::Wait;
use transitions::Reply;

/// One client's session. A clause sees whose it is, what came that is not answered, what is not written, and
/// why it is closed; the clauses of the steps that a turn is made of see all that a [`Conversation`] has.
#[derive(Drop)]
pub struct Session {
    conversation: Conversation,
}

impl Model for Session {
    ghost use Rattle.std.specs.Prelude.{◌≡◌, None, false};
    ghost use Rattle.mpd_session.specs.Requests.{is_over};
    ghost use Rattle.mpd_session.specs.Sessions.{SessionData, session_of};

    ghost Value = { SessionData };

    ghost view = { λ s. session_of s.conversation };

    ghost invariant = { λ s. s.conversation.ended ≡ None → is_over s.conversation.gatherer ≡ false };
}

impl Session {
    ghost use Rattle.std.specs.Prelude.{◌≡◌, None, Ok, false, IfOk};
    ghost use Rattle.mpd_session.specs.Answers.{Answers};
    ghost use Rattle.mpd_session.specs.Devices.{StaysSound};
    ghost use Rattle.mpd_session.specs.Ends.{TellsEnd};
    ghost use Rattle.mpd_session.specs.Sessions.{Blames, EndsByItsReader, GoesOnUnlessShort, HasRunAll};
    ghost use Rattle.mpd_session.specs.Sessions.{IsWithinLimits, ReadsNoMore, StaysIfClosed, Turns};
    ghost use Rattle.mpd_session.specs.Sessions.{WritesAllIfClosed, new_session, side};
    ghost use Rattle.mpd_session.specs.Sessions.{has_unsent as has_unsent_lem, may_wait as may_wait_lem, with_uptime};

    /// The session of a client that the player let in, and what it was greeted with. Nothing was read, and
    /// the greeting is not written yet.
    pub fn new(alloc: Global, asker: Asker, greeting: &Reply) -> Result<Session, AllocError>
        ensures { IfOk result (λ session. session ≡ new_session asker greeting.now.text) }
    {
        Ok(Session {
            conversation: Conversation {
                alloc,
                asker,
                piece: Vec::new(alloc),
                splitter: Splitter::new(alloc),
                lines: VecDeque::new(alloc),
                gatherer: Gatherer::new(),
                owed: Owed::Nothing,
                unsent: Unsent::of(alloc, greeting.text().as_bytes())?,
                ended: None,
                waits: false,
            },
        })
    }

    /// Why it is closed, if it is.
    pub fn end(&self) -> Option<End>
        ensures { result ≡ self.now.held.ended }
    {
        self.conversation.ended
    }

    /// Whether bytes for the client wait to be written, or to be put after those for lack of memory.
    pub fn has_unsent(&self) -> bool
        ensures { result ≡ has_unsent_lem self.now }
    {
        !self.conversation.unsent.as_slice().is_empty() || !self.conversation.owed.is_nothing()
    }

    /// Whether a notice may come for its client. Where there is none to come, this may still be so.
    pub fn may_wait(&self) -> bool
        ensures { result ≡ may_wait_lem self.now }
    {
        self.conversation.waits && self.conversation.ended.is_none()
    }

    /// Takes down for how many seconds the daemon has been running, where that is known: `stats` shows it from
    /// now on.
    pub fn set_uptime(&mut self, uptime: Option<u32>)
        ensures { self.new ≡ with_uptime self.old uptime }
    {
        self.conversation.asker.commands.uptime = uptime;
    }

    /// Reads once, runs the lines that this ends, and writes until the writer would block.
    ///
    /// Some bytes are read. Of all that came so far, the first that is asked is answered, each by one answer
    /// that the player of one thread may give, with notices between; what is not answered is held, so that
    /// nothing is lost or answered twice, wherever the bytes are cut. What was written and what is held
    /// unsent grow by just these answers. A turn of a closed session only writes: all that it holds, until
    /// the writer would block or fails, but nothing where writing was given up.
    ///
    /// [`Session::end`] says what became of the client. On success the answer is the same: `None` where the
    /// session goes on, or why it is closed.
    ///
    /// # Errors
    ///
    /// [`SessionFault::ReadFault`] and [`SessionFault::WriteFault`] close the session. After
    /// [`SessionFault::NoMemory`] the next turn goes on with what was kept before it reads.
    pub fn turn<L: Ledgers, I: Source, O: Sink, S: Shelf, R: Wait>(
        &mut self,
        rt: &R,
        reader: &mut I,
        writer: &mut O,
        house: &House<L>,
        seat: &mut Seat<L>,
        shelf: &mut S,
    ) -> Result<Goes, SessionFault>
        ensures asker { self.new.asker ≡ self.old.asker }
        ensures turns { self.old.held.ended ≡ None → Turns (Answers S.standing S.failed self.old.asker)
            (side self.old.held seat.old shelf.old (I.remaining reader.old) (O.contents writer.old))
            (side self.new.held seat.new shelf.new (I.remaining reader.new) (O.contents writer.new)) }
        ensures closed { StaysIfClosed O.contents self.old self.new writer.old writer.new }
        ensures tells { TellsEnd self.old.held.ended self.new.held.ended result }
        ensures goes { result ≡ Ok None → HasRunAll self.new.held }
        ensures within { result ≡ Ok None → IsWithinLimits self.new.held }
        ensures flushed { result ≡ Ok None → self.new.owes ≡ false }
        ensures lasts { GoesOnUnlessShort I.call_counts result self.new reader.old reader.new }
        ensures blamed { self.old.held.ended ≡ None → Blames self.new.held.ended
            (I.call_counts reader.old) (I.call_counts reader.new)
            (O.call_counts writer.old) (O.call_counts writer.new) }
        ensures reader { EndsByItsReader I.call_counts self.old self.new reader.old reader.new }
        ensures unread { ReadsNoMore self.old.held (I.call_counts reader.old) (I.call_counts reader.new) }
        ensures sound { StaysSound self.new.held.ended (O.call_counts writer.old) (O.call_counts writer.new) }
        ensures writes { WritesAllIfClosed O.call_counts self.old self.new writer.old writer.new }
    {
        if let Some(end) = self.conversation.ended {
            let _flushed = self.conversation.flush();
            self.conversation.send(writer);
            return Ok(Some(end));
        }
        let heard = self
            .conversation
            .hear(rt, reader, writer, house, seat, shelf);
        self.conversation.send(writer);
        let all = heard.is_ok() && self.conversation.piece.is_empty();
        answer_of(self.conversation.ended, all)
    }
}

/// What a turn of an open session answers that leaves it so, and did all that there was to do, or did not.
fn answer_of(ended: Option<End>, all: bool) -> Result<Goes, SessionFault>
    ensures answer { result ≡ turn_answer ended all }
    ensures goes { result ≡ Ok None → (ended ≡ None) × (all ≡ true) }
{
    match ended {
        Some(End::ReadFault) => Err(SessionFault::ReadFault),
        Some(End::WriteFault) => Err(SessionFault::WriteFault),
        Some(end) => Ok(Some(end)),
        None => {
            if all {
                Ok(None)
            } else {
                Err(SessionFault::NoMemory)
            }
        }
    }
}
