//! The books and seats of a new house.
ghost use Rattle.house.specs.Settling.{AreNumbersOf};
ghost use Rattle.frame_ledger.specs.Shares.{HasAllParts, HasNoFrames};
ghost use Rattle.std.specs.Prelude.{◌≡◌, [], ◌∷◌, All, IfOk, vec_len};
ghost use Rattle.house.specs.Seats.{IsUnused};
ghost use Rattle.house.specs.Blanks.{AreFor};
ghost use Rattle.player_state.specs.Outputs.{empty_books};

use crate::held::{Blanks, CrewShares};
use crate::ledgers::{Decoded, Discarded, Ledgers, Written};
use crate::seat::{Seat, SeatBooks};
use frame_ledger::Books;
use player_state::MAX_OUTPUTS;
use std::alloc::{AllocError, Global};

/// The books of a house in which nothing happened, the seats that callers are given, and the shares of the
/// house's own threads.
#[derive(Drop)]
pub(crate) struct NewBooks<L: Ledgers> {
    pub(crate) seats: SeatBooks<L>,
    pub(crate) free: Vec<Seat<L>>,
    pub(crate) books: Books<Decoded<L>, Written<L>, Discarded<L>>,
    pub(crate) shares: CrewShares<L>,
}

/// Opens all ledgers.
pub(crate) fn new_books<L: Ledgers>(
    alloc: Global,
    blanks: Blanks,
) -> Result<NewBooks<L>, AllocError>
    requires blanks { AreFor L.names blanks }
    ensures seats { IfOk result (λ n. n.seats ≡ 0 ∷ 0 ∷ 0 ∷ 0 ∷ []) }
    ensures free { IfOk result (λ n. All IsUnused n.free.items × (vec_len n.free ≡ 4)) }
    ensures books { IfOk result (λ n. AreNumbersOf n.books empty_books) }
    ensures parts { IfOk result (λ n. HasAllParts n.shares.decoded.parts n.shares.outputs) }
    ensures amounts { IfOk result (λ n. HasNoFrames n.shares.decoded.amount n.shares.outputs) }
{
    let Blanks {
        first,
        second,
        third,
        fourth,
        frames,
    } = blanks;
    let mut free = Vec::new(alloc);
    free.reserve(4)?;
    let (books, decoded, outputs) = Books::<Decoded<L>, Written<L>, Discarded<L>>::open(
        alloc,
        frames,
        MAX_OUTPUTS,
    )?;
    let seats = SeatBooks::open(first, second, third, fourth, &mut free);
    Ok(NewBooks {
        seats,
        free,
        books,
        shares: CrewShares { decoded, outputs },
    })
}
