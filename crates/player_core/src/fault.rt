//! Why a step is refused.
use std::alloc::AllocError;

/// Why a step is refused. Where both apply, the first here is answered.
#[derive(Clone, Copy, PartialEq, Eq)]
pub enum PlayerFault {
    /// A number of cuts, starts or jobs would be above the greatest.
    CutsAtLimit,
    /// A growth was refused.
    NoMemory,
}

impl From<AllocError> for PlayerFault {
    ghost use Rattle.player_core.specs.declared.fault.PlayerFault.{PlayerFault};
    ghost use Rattle.std.specs.Prelude.{◌≡◌};

    ghost from_gives = { λ _ fault. fault ≡ PlayerFault.NoMemory };

    fn from(_: AllocError) -> Self {
        PlayerFault::NoMemory
    }
}
