//! The shares that a house keeps once its books are closed.
ghost use Rattle.frame_ledger.specs.Shares.{HasAllParts};

use crate::held::CrewShares;
use crate::ledgers::Ledgers;

/// All shares of the books of frames, so that nobody else has one.
#[derive(Drop)]
pub(crate) struct AllShares<L: Ledgers> {
    pub(crate) shares: CrewShares<L>,
    ghost whole: { HasAllParts shares.decoded.parts shares.outputs },
}
