//! What lies under the house's lock.
use crate::all_shares::AllShares;
use crate::answered::{Answered, Reported};
use crate::counted::Counted;
use crate::ledgers::{Decoded, Discarded, Ledgers, Written};
use crate::new_books::{NewBooks, new_books};
use crate::news::News;
use crate::player::Core;
use crate::seat::{NoSeat, Seat};
use crate::waiting::{addressees, take_first};
use connected_clients::Notice;
use frame_ledger::{Blanks as FrameBlanks, Books, OutputShares};
use mpd_command::Request;
use partition::{Partition, PartitionFault};
use player_events::{Event, Logged};
use shelf::Shelf;
use std::alloc::{AllocError, Global};
use std::marker::Model;
use std::sync::ledger::{Blank, Share};

/// Seven new ledgers: one for each seat of a caller, and those of the books of frames.
#[derive(Drop)]
pub struct Blanks {
    pub first: Blank,
    pub second: Blank,
    pub third: Blank,
    pub fourth: Blank,
    pub frames: FrameBlanks,
}

impl Blanks {
    ghost use Rattle.house.specs.Blanks.{HasPartsOfFrames, HasSeatsOfOnePart};

    /// Seven new ledgers; those of written and discarded frames have a part for each output, and one more.
    pub fn new() -> Blanks
        ensures seats { HasSeatsOfOnePart result }
        ensures frames { HasPartsOfFrames result }
    {
        Blanks {
            first: Blank::new(1),
            second: Blank::new(1),
            third: Blank::new(1),
            fourth: Blank::new(1),
            frames: FrameBlanks {
                decoded: Blank::new(1),
                written: Blank::new(9),
                discarded: Blank::new(9),
            },
        }
    }
}

/// The whole shares of the books of frames, which the house's own threads have.
#[derive(Drop)]
pub struct CrewShares<L: Ledgers> {
    pub decoded: Share<Decoded<L>>,
    pub outputs: OutputShares<Written<L>, Discarded<L>>,
}

/// The player, the notices that wait to be handed out, and the books that count its events and its frames.
pub struct Held<L: Ledgers> {
    pub(crate) alloc: Global,
    pub(crate) core: Core<L>,
    pub(crate) books: Books<Decoded<L>, Written<L>, Discarded<L>>,
    pub(crate) free: Vec<Seat<L>>,
    /// All shares, once the outputs are settled, whose last fates no event told of.
    pub(crate) closed: Option<AllShares<L>>,
}

// Written out, so that a proof goes through one call where it lets one go (docs/DECISIONS.md).
impl<L: Ledgers> Drop for Held<L> {
    fn drop(self) {
        let Held {
            alloc: _,
            core: _,
            books: _,
            free: _,
            closed: _,
        } = self;
    }
}

impl<L: Ledgers> Model for Held<L> {
    ghost use Rattle.std.specs.Prelude.{◌≡◌, All, None, is_some, vec_len};
    ghost use Rattle.house.specs.Seats.{IsUnused};
    ghost use Rattle.house.specs.Settling.{HaveAllOutputs, numbers_in};
    ghost use Rattle.house.specs.Views.{View, seen};

    ghost Value = { View };

    // A filter, which an event may have, holds itself, so its code is named.
    ghost use Rattle.filters.specs.contracts.expression.Filter as filter;
    ghost use Rattle.std.specs.Coded.{codes};

    ghost coded = { Prim.hlevel (codes, filter.the_row.coded) };

    ghost view = { λ h. seen h.core (numbers_in h.books) (is_some h.closed) (vec_len h.free) };

    ghost invariant = { λ h. (h.books.decoded ≡ h.core.counted.present.shared.books.decoded)
        × (h.closed ≡ None → h.books.written ≡ h.core.counted.present.shared.books.written)
        × (h.closed ≡ None → h.books.discarded ≡ h.core.counted.present.shared.books.discarded)
        × HaveAllOutputs (numbers_in h.books)
        × All IsUnused h.free.items };
}

impl<L: Ledgers> Held<L> {
    ghost use Rattle.std.specs.Prelude.{◌≡◌, ◌-◌, ◌↔◌, [], false};
    ghost use Rattle.std.specs.Prelude.{IfErr, IfOk, IfSome, IsErr, OnErr, OnOk};
    ghost use Rattle.frame_ledger.specs.Shares.{HasAllParts, HasNoFrames};
    ghost use Rattle.house.specs.Views.{AnswersCaller, Fails, HasBooksOfPlayer, Hears};
    ghost use Rattle.house.specs.Views.{IsEventRefused, IsToldAs, IsUnchangedOrFolded, IsUnwritten};
    ghost use Rattle.house.specs.Views.{IsWithinLimits, Joins, JoinsAs, KeepsBooks, TellsSomewhere};
    ghost use Rattle.house.specs.Views.{WaitAfterLine, WaitsForAfter, opened};
    ghost use Rattle.house.specs.Blanks.{AreFor};
    ghost use Rattle.partition.specs.History.{with_room};
    ghost use Rattle.partition.specs.Legal.{IsPast};
    ghost use Rattle.player_events.specs.declared.event.Event.TheVariants.{End};
    ghost use Rattle.house.specs.News.{WaitAfterNews, event_of};
    ghost use Rattle.house.specs.Seats.{IsUnused, after_events};
    ghost use Rattle.house.specs.Counts.{IsCounted, IsFresh};
    ghost use Rattle.house.specs.Waiting.{clients_of, first_for, without_first};

    /// A player of which no seat made an event yet, with the four seats that callers are given.
    pub fn open(
        alloc: Global,
        blanks: Blanks,
        partition: Partition,
    ) -> Result<(Self, CrewShares<L>), AllocError>
        requires fresh { IsFresh partition.present }
        requires blanks { AreFor L.names blanks }
        ensures held { IfOk result (λ r. r.0 ≡ opened partition) }
        ensures parts { IfOk result (λ r. HasAllParts r.1.decoded.parts r.1.outputs) }
        ensures amounts { IfOk result (λ r. HasNoFrames r.1.decoded.amount r.1.outputs) }
    {
        let opened = match new_books::<L>(alloc, blanks) {
            Ok(opened) => opened,
            Err(fault) => return Err(fault),
        };
        let NewBooks {
            seats,
            free,
            books,
            shares,
        } = opened;
        let counted = Counted::new(partition, seats);
        let seen = counted.wake_fingerprint();
        let held = Held {
            alloc,
            core: Core {
                counted,
                waiting: Vec::new(alloc),
                seen,
                changes: 0,
            },
            books,
            free,
            closed: None,
        };
        Ok((held, shares))
    }

    /// A seat that made no event yet. It takes no memory.
    ///
    /// # Errors
    ///
    /// [`NoSeat`] where all four are given.
    pub fn seat(&mut self) -> Result<Seat<L>, NoSeat>
        ensures seat { IfOk result IsUnused }
        ensures err { IsErr result ↔ (self.old.free ≡ 0) }
        ensures given { OnOk result (self.new ≡ record self.old { free = self.old.free - 1 }) }
        ensures same { OnErr result (self.new ≡ self.old) }
    {
        match self.free.pop() {
            Some(seat) => Ok(seat),
            None => Err(NoSeat),
        }
    }

    /// The events of the window. The value is a past's, and the books of frames are its numbers; once the
    /// outputs were settled, those of written and discarded frames also count what no event told of.
    pub fn history(&self) -> &[Logged]
        ensures window { result.now ≡ self.now.player.window }
        ensures legal { IsPast self.now.player }
        ensures decoded { self.now.books.decoded ≡ self.now.player.present.shared.books.decoded }
        ensures books { HasBooksOfPlayer self.now }
    {
        let _is_open = self.closed.is_none();
        self.core.counted.history()
    }

    /// One line of a client. Its waiting notice is handed out in front of the reply.
    ///
    /// # Errors
    ///
    /// As [`Partition::apply`]: nothing has changed, but that a full window may have been folded. A notice
    /// that waits goes on waiting.
    pub fn command<S: Shelf>(
        &mut self,
        seat: &mut Seat<L>,
        shelf: &mut S,
        client: u32,
        request: Request,
    ) -> Result<Answered, PartitionFault>
        // The caller's count is the number of its seat's events, and the value that the lock found is a
        // past's.
        ensures found { IsCounted seat.old self.old.player }
        ensures legal { IsPast self.old.player }

        // The reply, the world after it and what became of the lent shelf are the one-thread player's.
        ensures base { OnOk result (self.new.player.base ≡ (with_room self.old.player).base) }
        ensures limit { self.new.player.limit ≡ self.old.player.limit }
        ensures ok { Hears S.Shelf self.old self.new shelf.old shelf.new seat.old client request result }

        // The client's notice is handed out, and those that the event made wait.
        ensures front { IfOk result (λ a. a.front ≡ first_for client self.old.waiting) }
        ensures own { IfOk result (λ a. IfSome a.front (λ notice. notice.client ≡ client)) }
        ensures waiting { IfOk result (WaitAfterLine client self.old.waiting self.new.waiting) }
        ensures kept { OnErr result (self.new.waiting ≡ self.old.waiting) }

        // It is one event more of the seat, and brings no frames.
        ensures made { OnOk result (seat.new ≡ after_events seat.old 1) }
        ensures seat { OnErr result (seat.new ≡ seat.old) }
        ensures books { KeepsBooks self.old self.new }

        // A fault changes nothing but a fold.
        ensures refused { Fails S.Shelf self.old self.new shelf.old shelf.new seat.old client request result }
        ensures unchanged { OnErr result (IsUnchangedOrFolded self.old.player self.new.player) }
        ensures unwritten { OnErr result (IsUnwritten S.standing S.failed shelf.old shelf.new) }

        ensures somewhere { IfOk result (AnswersCaller S.Shelf shelf.old shelf.new seat.old client request) }
    {
        self.core.hear_line(seat, shelf, client, request)
    }

    /// A piece of news. The notice of a client that goes is dropped.
    ///
    /// # Errors
    ///
    /// As [`Held::command`].
    pub fn notice(&mut self, seat: &mut Seat<L>, news: News) -> Result<Reported, PartitionFault>
        ensures found { IsCounted seat.old self.old.player }
        ensures legal { IsPast self.old.player }
        ensures told { IfOk result (IsToldAs self.old (event_of news)) }
        ensures player { IfOk result (Joins self.old.player self.new.player seat.old.number (event_of news)) }
        ensures within { OnOk result (IsWithinLimits self.old seat.old (event_of news)) }
        ensures waiting { IfOk result (WaitAfterNews news self.old.waiting self.new.waiting) }
        ensures kept { OnErr result (self.new.waiting ≡ self.old.waiting) }
        ensures made { OnOk result (seat.new ≡ after_events seat.old 1) }
        ensures seat { OnErr result (seat.new ≡ seat.old) }
        ensures books { KeepsBooks self.old self.new }
        ensures refused { IfErr result (IsEventRefused self.old seat.old (event_of news)) }
        ensures unchanged { OnErr result (IsUnchangedOrFolded self.old.player self.new.player) }
        ensures somewhere { IfOk result (λ told. TellsSomewhere seat.old (event_of news) told) }
    {
        self.core.take_step(seat, news.into_event())
    }

    /// The end: from now on nothing is decoded and no scan begins.
    ///
    /// # Errors
    ///
    /// As [`Held::command`].
    pub fn end(&mut self, seat: &mut Seat<L>) -> Result<(), PartitionFault>
        ensures found { IsCounted seat.old self.old.player }
        ensures legal { IsPast self.old.player }
        ensures player { OnOk result (JoinsAs self.old.player self.new.player seat.old.number End) }
        ensures within { OnOk result (IsWithinLimits self.old seat.old End) }
        ensures waiting { OnOk result (WaitsForAfter self.old self.new End) }
        ensures kept { OnErr result (self.new.waiting ≡ self.old.waiting) }
        ensures made { OnOk result (seat.new ≡ after_events seat.old 1) }
        ensures seat { OnErr result (seat.new ≡ seat.old) }
        ensures books { KeepsBooks self.old self.new }
        ensures refused { IfErr result (IsEventRefused self.old seat.old End) }
        ensures unchanged { OnErr result (IsUnchangedOrFolded self.old.player self.new.player) }
    {
        let _told = self.core.take_step(seat, Event::End)?;
        Ok(())
    }

    /// The player, to be asked what is no event.
    pub fn player(&self) -> &Counted<L>
        ensures { result.now ≡ self.now.player }
    {
        &self.core.counted
    }

    /// How often something changed that a thread at rest is woken for.
    pub fn changes(&self) -> u64 {
        self.core.changes
    }

    /// Whether a notice waits for a client.
    pub fn has_notices(&self) -> bool
        ensures { (result ≡ false) ↔ (self.now.waiting ≡ []) }
    {
        !self.core.waiting.is_empty()
    }

    /// The clients that notices wait for, in the order of the notices.
    pub fn addressees(&self, alloc: Global) -> Result<Vec<u32>, AllocError>
        ensures { IfOk result (λ clients. clients.items ≡ clients_of self.now.waiting) }
    {
        addressees(alloc, &self.core.waiting)
    }

    /// The client's waiting notice, which is taken out. It is no event and takes no memory.
    pub fn outbox(&mut self, client: u32) -> Option<Notice>
        ensures notice { result ≡ first_for client self.old.waiting }
        ensures own { IfSome result (λ notice. notice.client ≡ client) }
        ensures waiting { self.new.waiting ≡ without_first client self.old.waiting }
        ensures player { self.new.player ≡ self.old.player }
        ensures books { KeepsBooks self.old self.new }
    {
        take_first(&mut self.core.waiting, client)
    }
}
