//! What an output is started with.
ghost use Rattle.std.specs.Prelude.{◌≡◌, false};
ghost use Rattle.output_ring.specs.Rings.{AreEnds, has_failed};

use output_ring::{Drainer, Feeder};

/// The two ends of a ring, and what its output writes to.
#[derive(Drop)]
pub struct OutputSetup<O> {
    pub feeder: Feeder,
    pub drainer: Drainer,
    pub writer: O,
    ghost ends: { AreEnds feeder drainer },
    ghost unused: { has_failed drainer ≡ false },
}
