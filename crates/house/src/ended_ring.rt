//! What is left of a ring.
ghost use Rattle.output_ring.specs.Rings.{AreEndsAfter};
ghost use Rattle.std.proofs.Props.{props};

use output_ring::{Drainer, FeederEnd};

/// The two ends of an output's ring, whose threads have ended.
#[derive(Drop)]
pub struct EndedRing {
    pub end: FeederEnd,
    pub drainer: Drainer,
    ghost ends: { AreEndsAfter end drainer } by { Prim.hlevel props },
}
