//! The player with the notices that wait: one event at a time, with room for the notices that it gives.
ghost use Rattle.std.specs.Prelude.{◌≡◌, None, false, IfErr, IfOk, IfSome, OnErr, OnOk};
ghost use Rattle.partition.specs.Step.{limit_of, told as told_of};
ghost use Rattle.partition.specs.declared.partition.PartitionFault.TheVariants.{NoMemory};
ghost use Rattle.player_events.specs.Events.{is_line};
ghost use Rattle.house.specs.Counts.{MayFind};
ghost use Rattle.house.specs.Seats.{after_events};
ghost use Rattle.house.specs.News.{gone_at};
ghost use Rattle.house.specs.Player.{BooksFollow, CanCount, HasRoomForAll, JoinsLine, KeepsBase};
ghost use Rattle.house.specs.Player.{KeepsFrames, LeavesShelf, StopsAt, WaitsAfter, WaitsAfterLine};
ghost use Rattle.house.specs.Views.{AnswersCaller, IsRefusedFor, IsUnchangedOrFolded, Joins};
ghost use Rattle.house.specs.Waiting.{first_for};

use crate::answered::{Answered, Reported};
use crate::changes::note_change;
use crate::counted::Counted;
use crate::ledgers::Ledgers;
use crate::seat::Seat;
use crate::waiting::{drop_gone, put_all, take_first};
use crate::wake_fingerprint::WakeFingerprint;
use connected_clients::Notice;
use mpd_command::Request;
use partition::PartitionFault;
use player_events::Event;
use shelf::Shelf;
use transitions::{ListPlace, Read, StoreReply};

/// The player, and the notices that wait to be handed out.
pub(crate) struct Core<L: Ledgers> {
    pub(crate) counted: Counted<L>,
    pub(crate) waiting: Vec<Notice>,
    /// What a thread at rest is woken for, as it was after the last event.
    pub(crate) seen: WakeFingerprint,
    /// How often something changed that a thread at rest is woken for; it begins anew after its greatest
    /// value. No contract speaks of it.
    pub(crate) changes: u64,
}

// Written out, so that a proof goes through one call where it lets one go (docs/DECISIONS.md).
impl<L: Ledgers> Drop for Core<L> {
    fn drop(self) {
        let Core {
            counted: _,
            waiting: _,
            seen: _,
            changes: _,
        } = self;
    }
}

impl<L: Ledgers> Core<L> {
    /// Makes room for the notices of an event, after those that wait.
    pub(crate) fn begin(&mut self, seat: &mut Seat<L>) -> Result<(), PartitionFault>
        ensures found { MayFind seat.old self.old.counted }
        ensures same { (self.new.counted ≡ self.old.counted) × (seat.new ≡ seat.old) }
        ensures waiting { self.new.waiting.items ≡ self.old.waiting.items }
        ensures room { OnOk result (HasRoomForAll self.new) }
        ensures err { IfErr result (λ fault. fault ≡ NoMemory) }
    {
        self.counted.check(seat);
        let clients = self.counted.clients().len();
        if self.waiting.reserve(clients).is_err() {
            return Err(PartitionFault::NoMemory);
        }
        Ok(())
    }

    /// A line of a client. Its waiting notice is handed out in front of the reply.
    pub(crate) fn hear_line<S: Shelf>(
        &mut self,
        seat: &mut Seat<L>,
        shelf: &mut S,
        client: u32,
        request: Request,
    ) -> Result<Answered, PartitionFault>
        ensures found { MayFind seat.old self.old.counted }
        ensures base { OnOk result (KeepsBase self.old self.new) }
        ensures limit { self.new.counted.limit ≡ self.old.counted.limit }
        ensures ok { JoinsLine S.Shelf self.old self.new shelf.old shelf.new seat.old client request result }
        ensures front { IfOk result (λ a. a.front ≡ first_for client self.old.waiting.items) }
        ensures own { IfOk result (λ a. IfSome a.front (λ notice. notice.client ≡ client)) }
        ensures waiting { IfOk result (WaitsAfterLine self.old self.new client) }
        ensures kept { OnErr result (self.new.waiting.items ≡ self.old.waiting.items) }
        ensures made { OnOk result (seat.new ≡ after_events seat.old 1) }
        ensures seat { OnErr result (seat.new ≡ seat.old) }
        ensures books { KeepsFrames self.old.counted self.new.counted }
        ensures err { StopsAt S.Shelf self.old self.new shelf.old shelf.new seat.old client request result }
        ensures unchanged { OnErr result (IsUnchangedOrFolded self.old.counted self.new.counted) }
        ensures unwritten { OnErr result (LeavesShelf S.Shelf shelf.old shelf.new) }
        ensures somewhere { IfOk result (AnswersCaller S.Shelf shelf.old shelf.new seat.old client request) }
    {
        let heard = StoreReply {
            read: Read::Nothing,
            refused: None,
        };
        let event = Event::Line {
            client,
            list_place: ListPlace::Alone,
            request,
            heard,
        };
        self.begin(seat)?;
        let outcome = self.counted.apply(seat, shelf, event)?;
        let front = take_first(&mut self.waiting, client);
        put_all(&mut self.waiting, outcome.notices());
        note_change(&mut self.changes, &mut self.seen, &self.counted, false);
        Ok(Answered { front, outcome })
    }

    /// An event of a seat that is no line: it asks no shelf. The notices of a client that goes are dropped.
    pub(crate) fn take_step(
        &mut self,
        seat: &mut Seat<L>,
        event: Event,
    ) -> Result<Reported, PartitionFault>
        requires { is_line event ≡ false }
        ensures found { MayFind seat.old self.old.counted }
        ensures told { IfOk result (λ told. told ≡ told_of self.old.counted.present event) }
        ensures player { IfOk result (Joins self.old.counted self.new.counted seat.old.number event) }
        ensures within { OnOk result (limit_of seat.old.number self.old.counted.present event ≡ None) }
        ensures waiting { IfOk result (WaitsAfter event self.old self.new) }
        ensures kept { OnErr result (self.new.waiting.items ≡ self.old.waiting.items) }
        ensures made { OnOk result (seat.new ≡ after_events seat.old 1) }
        ensures seat { OnErr result (seat.new ≡ seat.old) }
        ensures books { BooksFollow event self.old.counted self.new.counted }
        ensures few { OnOk result (CanCount self.new.counted.present.shared.books) }
        ensures same { OnErr result (KeepsFrames self.old.counted self.new.counted) }
        ensures refused { IfErr result (IsRefusedFor self.old.counted seat.old.number event) }
        ensures unchanged { OnErr result (IsUnchangedOrFolded self.old.counted self.new.counted) }
    {
        let gone = gone_by(&event);
        let wakes = wakes_always(&event);
        self.begin(seat)?;
        let outcome = self.counted.step(seat, event)?;
        drop_gone(&mut self.waiting, gone);
        put_all(&mut self.waiting, outcome.notices());
        note_change(&mut self.changes, &mut self.seen, &self.counted, wakes);
        Ok(Reported {
            outcome,
            changes: self.changes,
        })
    }
}

/// The client that goes at an event, if one goes.
fn gone_by(event: &Event) -> Option<u32>
    ensures { result ≡ gone_at event.now }
{
    match event {
        Event::Disconnect(client) => Some(*client),
        _ => None,
    }
}

/// Whether threads at rest are woken whatever the event changes: frames that are fed wake the outputs, and
/// the end wakes all.
fn wakes_always(event: &Event) -> bool {
    matches!(event, Event::Have(_, _, _) | Event::End)
}
