//! The books of decoded, written and discarded frames.
use crate::tally::{AtLimit, Tally};
use output_ring::Fates;
use std::alloc::{AllocError, Global};
use std::sync::ledger::{Blank, Ledger, Share};

/// What books are opened with: a ledger for each quantity.
#[derive(Drop)]
pub struct Blanks {
    pub decoded: Blank,
    pub written: Blank,
    pub discarded: Blank,
}

/// For each quantity, a number for each output.
pub struct Books<E: Ledger, W: Ledger, X: Ledger> {
    /// Frames that were given to the output's feeder.
    pub decoded: Tally<E>,
    /// Frames that the output wrote.
    pub written: Tally<W>,
    /// Frames that the output discarded.
    pub discarded: Tally<X>,
}

impl<E: Ledger, W: Ledger, X: Ledger> Drop for Books<E, W, X> {
    fn drop(self) {
        let Books {
            decoded: _,
            written: _,
            discarded: _,
        } = self;
    }
}

/// The shares of those who drain an output.
#[derive(Drop)]
pub struct OutputShares<W: Ledger, X: Ledger> {
    pub written: Share<W>,
    pub discarded: Share<X>,
}

impl<E: Ledger, W: Ledger, X: Ledger> Books<E, W, X> {
    ghost use Rattle.std.specs.Prelude.{◌≡◌, ◌<◌, length, is_ok, IfOk, OnOk, OnErr};
    ghost use Rattle.frame_ledger.specs.Balance.{has_room, IsBlankOf};
    ghost use Rattle.frame_ledger.specs.Books.{AreEmptyFor, HaveParts, CountFates, GrowByFates, KeepParts};

    /// Books with a number of 0 for each output, and the shares that have all parts.
    pub fn open(
        alloc: Global,
        blanks: Blanks,
        outputs: usize,
    ) -> Result<(Books<E, W, X>, Share<E>, OutputShares<W, X>), AllocError>
        requires decoded { IsBlankOf blanks.decoded E.name E.parts }
        requires written { IsBlankOf blanks.written W.name W.parts }
        requires discarded { IsBlankOf blanks.discarded X.name X.parts }
        ensures books { IfOk result (λ r. AreEmptyFor r.0 outputs) }
        ensures parts { IfOk result (λ r. HaveParts r.1 r.2 E.parts W.parts X.parts) }
        ensures amounts { IfOk result (λ r. (r.1.amount ≡ 0) × (r.2.written.amount ≡ 0) × (r.2.discarded.amount ≡ 0)) }
    {
        let (decoded, share) = Tally::<E>::open(alloc, blanks.decoded, outputs)?;
        let (written, written_share) = Tally::<W>::open(alloc, blanks.written, outputs)?;
        let (discarded, discarded_share) = Tally::<X>::open(alloc, blanks.discarded, outputs)?;
        let books = Books {
            decoded,
            written,
            discarded,
        };
        let shares = OutputShares {
            written: written_share,
            discarded: discarded_share,
        };
        Ok((books, share, shares))
    }

    /// Adds an output's fates to its written and its discarded, or to neither. It takes no memory.
    pub fn count_fates(
        &mut self,
        output: usize,
        shares: &mut OutputShares<W, X>,
        fates: Fates,
    ) -> Result<(), AtLimit>
        requires output { (output < length self.old.written) × (output < length self.old.discarded) }
        requires parts { (0 < shares.old.written.parts) × (0 < shares.old.discarded.parts) }
        ensures room { is_ok result ≡ has_room self.old.written self.old.discarded fates }
        ensures books { OnOk result (CountFates self.old self.new output fates) }
        ensures amounts { OnOk result (GrowByFates shares.old shares.new fates) }
        ensures err { OnErr result ((self.new ≡ self.old) × (shares.new ≡ shares.old)) }
        ensures decoded { self.new.decoded ≡ self.old.decoded }
        ensures parts { KeepParts shares.old shares.new }
    {
        if !self.written.has_room(fates.written) || !self.discarded.has_room(fates.discarded) {
            return Err(AtLimit);
        }
        self.written
            .raise(output, &mut shares.written, fates.written)?;
        self.discarded
            .raise(output, &mut shares.discarded, fates.discarded)
    }
}
