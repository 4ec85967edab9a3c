//! The books against the rings.
ghost use Rattle.std.specs.Prelude.{◌≡◌, ◌+◌, ◌^◌, ◌<◌, ◌↔◌, length, IfOk, IfSome, IsNone, IsSome};
ghost use Rattle.output_ring.specs.Rings.{AreEndsAfter, end_owed, hand_of};
ghost use Rattle.frame_ledger.specs.declared.settlement.SettleFault.TheVariants.{Unsettled};
ghost use Rattle.frame_ledger.specs.Balance.{Balances};
ghost use Rattle.frame_ledger.specs.Books.{HaveOutput, HaveNumbers, IsSettledIfBooksAgree, written_after, discarded_after, GrowByUnreported, KeepParts, AgreesWithTotals, settled_numbers};

use crate::books::{Books, OutputShares};
use output_ring::{Drainer, FeederEnd, Totals};
use std::sync::ledger::Ledger;

/// What became of all frames of one output.
#[derive(Clone, Copy, PartialEq, Eq)]
pub struct Settled {
    /// Frames that the feeder took.
    pub decoded: u64,
    pub written: u64,
    pub discarded: u64,
    /// Frames without a fate: in the hand, in the ring, or owed.
    pub left: u64,
    /// Bytes, 0 to 3, that were written of a discarded frame.
    pub torn: u8,
}

/// Why an output was not settled.
#[derive(Clone, Copy, PartialEq, Eq)]
pub enum SettleFault {
    /// The feeder's end has no token, so what it sent is not known.
    Unsettled,
    /// A book says otherwise than the ring, or would pass 2^63-1.
    Mismatch,
}

/// Compares an output's books with its ring, once the fates that were not reported are counted in them. It
/// takes no memory.
pub fn settle<E: Ledger, W: Ledger, X: Ledger>(
    end: FeederEnd,
    drainer: Drainer,
    books: &mut Books<E, W, X>,
    output: usize,
    shares: &mut OutputShares<W, X>,
) -> Result<Settled, SettleFault>
    requires ends { AreEndsAfter end drainer }
    requires output { HaveOutput books.old output }
    requires parts { (0 < shares.old.written.parts) × (0 < shares.old.discarded.parts) }

    // At `Ok` the numbers are the ring's and the books'.
    ensures balances { IfOk result (λ s. Balances end drainer s) }
    ensures books { IfOk result (λ s. HaveNumbers books.new output s) }

    // It fails only for lack of the token, or where the books differ.
    ensures unsettled { (result ≡ Err Unsettled) ↔ IsNone end.finished }
    ensures agrees { IsSettledIfBooksAgree end drainer books.old output result }

    // The unreported fates are counted, in both books or in none.
    ensures decoded { books.new.decoded ≡ books.old.decoded }
    ensures written { books.new.written ≡ written_after books.old drainer output }
    ensures discarded { books.new.discarded ≡ discarded_after books.old drainer output }
    ensures amounts { GrowByUnreported books.old drainer shares.old shares.new }
    ensures parts { KeepParts shares.old shares.new }
{
    let mut end = end;
    let mut drainer = drainer;
    let counted = books.count_fates(output, shares, drainer.fates());
    let Some(ring) = drainer.after(&mut end) else {
        return Err(SettleFault::Unsettled);
    };
    if counted.is_err() {
        return Err(SettleFault::Mismatch);
    }
    let left = left_of(&end, &drainer, ring);
    let booked = Booked {
        decoded: books.decoded.number(output),
        written: books.written.number(output),
        discarded: books.discarded.number(output),
    };
    match compare(drainer.totals(), left, booked) {
        Some(settled) => Ok(settled),
        None => Err(SettleFault::Mismatch),
    }
}

// An output's numbers in the three books.
#[derive(Clone, Copy)]
struct Booked {
    decoded: u64,
    written: u64,
    discarded: u64,
}

// How many frames have no fate: those in the hand, in the ring, and owed.
fn left_of(end: &FeederEnd, drainer: &Drainer, ring: usize) -> u64
    requires { (length (hand_of drainer.now) + ring) + length (end_owed end.now) < 2 ^ 64 }
    ensures { result ≡ (length (hand_of drainer.now) + ring) + length (end_owed end.now) }
{
    drainer.held() as u64 + ring as u64 + end.owed() as u64
}

// The settled numbers, if the books agree with the drainer's totals and what is left.
fn compare(totals: Totals, left: u64, booked: Booked) -> Option<Settled>
    requires { totals.written + totals.discarded < 2 ^ 64 }
    ensures agrees { IsSome result ↔ AgreesWithTotals booked totals left }
    ensures numbers { IfSome result (λ s. s ≡ settled_numbers totals left) }
{
    let decoded = (totals.written + totals.discarded).checked_add(left)?;
    if decoded != booked.decoded
        || totals.written != booked.written
        || totals.discarded != booked.discarded
    {
        return None;
    }
    Some(Settled {
        decoded,
        written: totals.written,
        discarded: totals.discarded,
        left,
        torn: totals.torn,
    })
}
