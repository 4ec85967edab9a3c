//! A house with nobody in it yet.
ghost use Rattle.frame_ledger.specs.Shares.{AreEmpty, HasAllParts};
ghost use Rattle.house.specs.Blanks.{AreFor};
ghost use Rattle.house.specs.Counts.{IsFresh};

use house::{Blanks, CrewShares, House, Ledgers, Seat};
use partition::Partition;
use std::alloc::{AllocError, Global};
use std::sync::{Arc, Wait};

/// A house, the seat of the thread that serves, and the shares of those that decode and write.
#[derive(Drop)]
pub(crate) struct PlayerHandles<L: Ledgers> {
    pub(crate) house: Arc<House<L>, Global>,
    pub(crate) seat: Seat<L>,
    pub(crate) shares: CrewShares<L>,
    ghost parts: { HasAllParts shares.decoded.parts shares.outputs },
    ghost empty: { AreEmpty shares.outputs },
}

/// The house of a player to which nothing happened.
pub(crate) fn open_player_handles<L: Ledgers, R: Wait>(
    rt: &R,
    alloc: Global,
    blanks: Blanks,
    player: Partition,
) -> Result<PlayerHandles<L>, AllocError>
    requires fresh { IsFresh player.present }
    requires blanks { AreFor L.names blanks }
{
    let (house, shares) = House::<L>::open(alloc, blanks, player)?;
    match seated(rt, alloc, house) {
        Ok((house, seat)) => Ok(PlayerHandles {
            house,
            seat,
            shares,
        }),
        Err(fault) => Err(fault),
    }
}

/// The house, which several threads own from now on, and a seat in it.
fn seated<L: Ledgers, R: Wait>(
    rt: &R,
    alloc: Global,
    house: House<L>,
) -> Result<(Arc<House<L>, Global>, Seat<L>), AllocError> {
    let house = shared(alloc, house)?;
    match house.seat(rt) {
        Ok(seat) => Ok((house, seat)),
        // A new house has all its seats.
        Err(_) => Err(AllocError),
    }
}

/// A value that several threads own.
pub(crate) fn shared<T: Drop>(alloc: Global, value: T) -> Result<Arc<T, Global>, AllocError> {
    Ok(Arc::new(alloc, value)?)
}
