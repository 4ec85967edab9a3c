//! Frames in a ring in runs of one cut: bare frames in one ring, and in another how many of them have which
//! cut.
ghost use Rattle.std.specs.Prelude.{◌<◌};

use crate::frames::Cut;

/// So many frames that follow one another, at least one, have this cut.
#[derive(Clone, Copy)]
pub(crate) struct Run {
    pub(crate) count: usize,
    pub(crate) cut: Cut,
    ghost some: { 0 < count },
}
