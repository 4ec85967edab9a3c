//! The fates of frames, as the ledgers keep them.
ghost use Rattle.house.specs.Settling.{numbers_in};
ghost use Rattle.house.specs.Views.{GrowAsBooks, AreNoFewer};
ghost use Rattle.frame_ledger.specs.Shares.{KeepsParts};
ghost use Rattle.std.specs.Prelude.{◌≡◌, ◌+◌, ◌<◌, ◌≤◌, ◌^◌, length, sum};

use crate::ledgers::{Decoded, Discarded, Ledgers, Written};
use frame_ledger::{Books as Tallies, OutputShares};

/// The fates that a turn told of join the books.
pub(crate) fn book_fates<L: Ledgers>(
    books: &mut Tallies<Decoded<L>, Written<L>, Discarded<L>>,
    shares: &mut OutputShares<Written<L>, Discarded<L>>,
    written: [u64; 8],
    discarded: [u64; 8],
)
    requires outputs { (length books.old.written ≡ 8) × (length books.old.discarded ≡ 8) }
    requires grown { AreNoFewer (numbers_in books.old) written discarded }
    requires room { (sum written < 2 ^ 63) × (sum discarded < 2 ^ 63) }
    requires parts { (0 < shares.old.written.parts) × (0 < shares.old.discarded.parts) }
    ensures decoded { books.new.decoded ≡ books.old.decoded }
    ensures written { books.new.written ≡ written }
    ensures discarded { books.new.discarded ≡ discarded }
    ensures shares { GrowAsBooks shares.old shares.new (numbers_in books.old) (numbers_in books.new) }
    ensures parts { KeepsParts shares.old shares.new }
{
    books.written.raise_to(&mut shares.written, &written);
    books.discarded.raise_to(&mut shares.discarded, &discarded);
}
