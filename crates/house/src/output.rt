//! Frames under the lock: what is decoded, and what outputs wrote and discarded.
use crate::all_shares::AllShares;
use crate::answered::Reported;
use crate::ended_ring::EndedRing;
use crate::fates::book_fates;
use crate::held::{CrewShares, Held};
use crate::ledgers::{Decoded, Discarded, Ledgers, Written};
use crate::seat::Seat;
use crate::settlement::{Settlement, audit_all, settle_rings, show_open};
use frame_ledger::OutputShares;
use output_ring::Fates;
use partition::PartitionFault;
use player_events::Event;
use std::sync::ledger::Share;

impl<L: Ledgers> Held<L> {
    ghost use Rattle.frame_ledger.specs.Shares.{HasAllParts, KeepsParts};
    ghost use Rattle.std.specs.Prelude.{◌≡◌, ◌<◌, ◌≤◌, ◌++◌, [], true, false};
    ghost use Rattle.std.specs.Prelude.{IfErr, IfOk, OnErr, OnOk, vec_len, vec_capacity};
    ghost use Rattle.partition.specs.Legal.{IsPast};
    ghost use Rattle.player_events.specs.declared.event.Event.TheVariants.{Have};
    ghost use Rattle.house.specs.Seats.{after_events};
    ghost use Rattle.house.specs.Settling.{AreSumsOf, SettlesInTurn, settled_books};
    ghost use Rattle.house.specs.Views.{GrowAsBooks, GrowsAsDecoded, IsEventRefused, IsToldAs};
    ghost use Rattle.house.specs.Views.{IsUnchangedOrFolded, IsWithinLimits, JoinsFed, JoinsTurn};
    ghost use Rattle.house.specs.Views.{KeepsDecoded, KeepsFates, turn_of};
    ghost use Rattle.house.specs.Counts.{IsCounted};

    /// Frames of a partition's job were decoded. Where they are not stale, they are for the outputs that the
    /// report names: their books and the share grow by them.
    ///
    /// # Errors
    ///
    /// As [`Held::command`].
    pub fn have(
        &mut self,
        seat: &mut Seat<L>,
        index: u8,
        number: u64,
        frames: u64,
        share: &mut Share<Decoded<L>>,
    ) -> Result<Reported, PartitionFault>
        requires { 0 < share.old.parts }
        ensures found { IsCounted seat.old self.old.player }
        ensures legal { IsPast self.old.player }
        ensures told { IfOk result (IsToldAs self.old (Have index number frames)) }
        ensures player { IfOk result (JoinsFed self.old self.new seat.old (Have index number frames)) }
        ensures within { OnOk result (IsWithinLimits self.old seat.old (Have index number frames)) }
        ensures waiting { IfOk result (λ told. self.new.waiting ≡ self.old.waiting ++ told.notices) }
        ensures kept { OnErr result (self.new.waiting ≡ self.old.waiting) }
        ensures made { OnOk result (seat.new ≡ after_events seat.old 1) }
        ensures seat { OnErr result (seat.new ≡ seat.old) }
        // The book of frames given is the player's, and what it grew by is in the share.
        ensures given { self.old.books.decoded ≡ self.old.player.present.shared.books.decoded }
        ensures decoded { self.new.books.decoded ≡ self.new.player.present.shared.books.decoded }
        ensures fates { KeepsFates self.old self.new }
        ensures share { GrowsAsDecoded share.old.amount share.new.amount self.old.books self.new.books }
        ensures parts { share.new.parts ≡ share.old.parts }
        ensures same { OnErr result ((self.new.books ≡ self.old.books) × (share.new ≡ share.old)) }
        ensures refused { IfErr result (IsEventRefused self.old seat.old (Have index number frames)) }
        ensures unchanged { OnErr result (IsUnchangedOrFolded self.old.player self.new.player) }
    {
        let told = self
            .core
            .take_step(seat, Event::Have(index, number, frames))?;
        let decoded = self.core.counted.decoded();
        self.books.decoded.raise_to(share, &decoded);
        Ok(told)
    }

    /// An output had its turn: it wrote and discarded so many frames since its last one. Its books and the
    /// shares grow by them.
    ///
    /// # Errors
    ///
    /// As [`Held::command`].
    pub fn turn(
        &mut self,
        seat: &mut Seat<L>,
        output: usize,
        told_fates: Fates,
        failed: bool,
        shares: &mut OutputShares<Written<L>, Discarded<L>>,
    ) -> Result<Reported, PartitionFault>
        requires { (0 < shares.old.written.parts) × (0 < shares.old.discarded.parts) }
        ensures found { IsCounted seat.old self.old.player }
        ensures legal { IsPast self.old.player }
        ensures told { IfOk result (IsToldAs self.old (turn_of output told_fates failed)) }
        ensures player { IfOk result (JoinsTurn self.old self.new seat.old output told_fates failed) }
        ensures within { OnOk result (IsWithinLimits self.old seat.old (turn_of output told_fates failed)) }
        ensures waiting { IfOk result (λ told. self.new.waiting ≡ self.old.waiting ++ told.notices) }
        ensures kept { OnErr result (self.new.waiting ≡ self.old.waiting) }
        ensures made { OnOk result (seat.new ≡ after_events seat.old 1) }
        ensures seat { OnErr result (seat.new ≡ seat.old) }
        // The outputs are not settled while one has its turn, so the books are the player's.
        ensures open { self.old.is_settled ≡ false }
        ensures decoded { KeepsDecoded self.old self.new }
        ensures books { OnOk result (self.new.books ≡ self.new.player.present.shared.books) }
        ensures shares { GrowAsBooks shares.old shares.new self.old.books self.new.books }
        ensures parts { KeepsParts shares.old shares.new }
        ensures same { OnErr result ((self.new.books ≡ self.old.books) × (shares.new ≡ shares.old)) }
        ensures refused { IfErr result (IsEventRefused self.old seat.old (turn_of output told_fates failed)) }
        ensures unchanged { OnErr result (IsUnchangedOrFolded self.old.player self.new.player) }
    {
        show_open(&mut self.closed, &mut shares.written);
        let event = Event::OutputTurn {
            output,
            written: told_fates.written,
            discarded: told_fates.discarded,
            failed,
        };
        let told = self.core.take_step(seat, event)?;
        let written = self.core.counted.written();
        let discarded = self.core.counted.discarded();
        book_fates(&mut self.books, shares, written, discarded);
        Ok(told)
    }

    /// Compares the books of all outputs with their rings, one after the other from the first on, once the
    /// fates that no turn told of are counted in them. All shares come back, so that no frame is counted
    /// after it, and the books sum to them. It takes no memory: there is room for the results.
    ///
    /// Of an output it answers `Unsettled` where the feeder's end has no token, `Mismatch` where a book says
    /// otherwise than the ring or would pass 2^63-1.
    pub fn settle_all(
        &mut self,
        shares: CrewShares<L>,
        rings: Vec<EndedRing>,
        room: Vec<Settlement<L>>,
    ) -> Vec<Settlement<L>>
        requires whole { HasAllParts shares.decoded.parts shares.outputs }
        requires few { vec_len rings ≤ 8 }
        requires room { (room.items ≡ []) × (vec_len rings ≤ vec_capacity room) }
        ensures legal { IsPast self.old.player }
        // It was not done before, so the books are the player's.
        ensures open { self.old.is_settled ≡ false }
        ensures given { self.old.books ≡ self.old.player.present.shared.books }
        ensures sums { AreSumsOf shares self.old.books }
        ensures settles { SettlesInTurn 0 self.old.books rings.items result.items }
        ensures player { (self.new.player ≡ self.old.player) × (self.new.waiting ≡ self.old.waiting) }
        ensures books { self.new.books ≡ settled_books 0 rings.items self.old.books }
        ensures settled { (self.new.is_settled ≡ true) × (self.new.free ≡ self.old.free) }
    {
        // What the lock found is a past's, with its numbers.
        let _window = self.history();
        let mut shares = shares;
        show_open(&mut self.closed, &mut shares.outputs.written);
        audit_all(&mut self.books, &mut shares);
        let results = settle_rings(&mut self.books, &mut shares.outputs, rings, room);
        self.closed = Some(AllShares { shares });
        results
    }
}
