//! The settlement of all outputs, once their threads have ended.
//!
//! At the end it is asked of each output whether its frames add up: those decoded for it are those that it
//! wrote or discarded, in order, and those left in its ring. Nobody counted them alone. The decoder, the
//! outputs and the player's books each have parts of three ledgers, and a ledger's tokens cannot be copied
//! or lost: whoever adds to his share adds to the total. Once the threads are joined and all parts are
//! back, the books that the player kept are the sums of what the threads did, and not what somebody says of
//! them.
//!
//! So a settlement compares two things that were made apart: the books, which went through the player's
//! events, and the ring's own ends, which know what was pushed and popped. Fates that no turn told of any
//! more are counted first. An answer of `Unsettled` then means that a token is missing, and one of another
//! book that a step was wrong; neither can be hidden by a count that was kept twice by the same hand.
ghost use Rattle.std.specs.Prelude.{◌≡◌, ◌<◌, ◌≤◌, [], None, vec_len, vec_capacity};
ghost use Rattle.frame_ledger.specs.Shares.{HasAllParts, KeepsParts};
ghost use Rattle.house.specs.Settling.{AreSumsOf, HaveAllOutputs, SettlesInTurn, SettlesRing};
ghost use Rattle.house.specs.Settling.{numbers_in, settled_books, with_fates};

use crate::all_shares::AllShares;
use crate::ended_ring::EndedRing;
use crate::held::CrewShares;
use crate::ledgers::{Decoded, Discarded, Ledgers, Written};
use frame_ledger::{Books, OutputShares, SettleFault, Settled, settle};
use output_ring::{Drainer, FeederEnd};
use std::snapshot::Snapshot;
use std::sync::ledger::Share;

/// What a settlement answered, with what it compared. That has no bytes, and contracts alone read it: it
/// names the very ends and books, so that a refusal has to be theirs.
pub struct Settlement<L: Ledgers> {
    pub result: Result<Settled, SettleFault>,
    pub end: Snapshot<FeederEnd>,
    pub drainer: Snapshot<Drainer>,
    /// The books before the fates that no turn told of were counted in them.
    pub books: Snapshot<Books<Decoded<L>, Written<L>, Discarded<L>>>,
}

impl<L: Ledgers> Drop for Settlement<L> {
    fn drop(self) {
        let Settlement {
            result: _,
            end: _,
            drainer: _,
            books: _,
        } = self;
    }
}

/// Shows that the books are open to whoever has a part of the written frames: once they are closed, the house
/// has all parts itself. Nothing changes.
pub(crate) fn show_open<L: Ledgers>(
    closed: &mut Option<AllShares<L>>,
    written: &mut Share<Written<L>>,
)
    requires { 0 < written.old.parts }
    ensures open { (closed.old ≡ None) × (closed.new ≡ None) }
    ensures same { written.new ≡ written.old }
{
    if let Some(all) = closed {
        all.shares.outputs.written.give(written, 0, 0);
        unreachable!()
    }
}

/// Shows that the books sum to the shares, which are whole. Nothing changes.
pub(crate) fn audit_all<L: Ledgers>(
    books: &mut Books<Decoded<L>, Written<L>, Discarded<L>>,
    shares: &mut CrewShares<L>,
)
    requires { HasAllParts shares.old.decoded.parts shares.old.outputs }
    ensures sums { AreSumsOf shares.old (numbers_in books.old) }
    ensures books { numbers_in books.new ≡ numbers_in books.old }
    ensures parts { HasAllParts shares.new.decoded.parts shares.new.outputs }
{
    books.decoded.audit(&mut shares.decoded);
    books.written.audit(&mut shares.outputs.written);
    books.discarded.audit(&mut shares.outputs.discarded);
}

/// Settles an output's ring against the books, once the fates that no turn told of are counted in them.
fn settle_ring<L: Ledgers>(
    books: &mut Books<Decoded<L>, Written<L>, Discarded<L>>,
    shares: &mut OutputShares<Written<L>, Discarded<L>>,
    ring: EndedRing,
    output: usize,
) -> Settlement<L>
    requires output { output < 8 }
    requires outputs { HaveAllOutputs (numbers_in books.old) }
    requires parts { (0 < shares.old.written.parts) × (0 < shares.old.discarded.parts) }
    ensures settles { SettlesRing output (numbers_in books.old) ring result }
    ensures books { numbers_in books.new ≡ with_fates ring.drainer output (numbers_in books.old) }
    ensures outputs { HaveAllOutputs (numbers_in books.new) }
    ensures decoded { books.new.decoded ≡ books.old.decoded }
    ensures parts { KeepsParts shares.old shares.new }
{
    let found = Snapshot::of(&*books);
    let EndedRing { end, drainer } = ring;
    let (seen_end, seen_drainer) = (Snapshot::of(&end), Snapshot::of(&drainer));
    let result = settle(end, drainer, books, output, shares);
    Settlement {
        result,
        end: seen_end,
        drainer: seen_drainer,
        books: found,
    }
}

/// Settles each ring against the books that the settlements before it left. There is room for the results.
pub(crate) fn settle_rings<L: Ledgers>(
    books: &mut Books<Decoded<L>, Written<L>, Discarded<L>>,
    shares: &mut OutputShares<Written<L>, Discarded<L>>,
    rings: Vec<EndedRing>,
    room: Vec<Settlement<L>>,
) -> Vec<Settlement<L>>
    requires few { vec_len rings ≤ 8 }
    requires outputs { HaveAllOutputs (numbers_in books.old) }
    requires parts { (0 < shares.old.written.parts) × (0 < shares.old.discarded.parts) }
    requires room { (room.items ≡ []) × (vec_len rings ≤ vec_capacity room) }
    ensures settles { SettlesInTurn 0 (numbers_in books.old) rings.items result.items }
    ensures books { numbers_in books.new ≡ settled_books 0 rings.items (numbers_in books.old) }
    ensures outputs { HaveAllOutputs (numbers_in books.new) }
    ensures decoded { books.new.decoded ≡ books.old.decoded }
    ensures parts { KeepsParts shares.old shares.new }
{
    let mut results = room;
    for ring in rings {
        let output = results.len();
        results.push_reserved(settle_ring(books, shares, ring, output));
    }
    results
}
