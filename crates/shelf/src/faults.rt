//! Why a call of a shelf is refused, and what its listings hold.

ghost use Rattle.std.specs.Prelude.{◌≡◌};
ghost use Rattle.shelf.specs.declared.faults.ShelfFault.TheVariants.{NoMemory};

use std::alloc::{AllocError, AllocFailed};

/// Why a call of a shelf is refused. The first cause in this order is answered; want of memory comes last and
/// may take the place of another.
#[derive(Clone, Copy, Debug, PartialEq, Eq, Drop)]
pub enum ShelfFault {
    /// No stored playlist has the name.
    NoSuchList,
    /// A stored playlist has the name already.
    Exists,
    /// The name cannot be that of a stored playlist, or of a sticker.
    BadName,
    /// No sticker is there.
    NoSticker,
    /// The store answered an error, or its tables are of another profile.
    StoreFault,
    /// There was no memory.
    NoMemory,
}

/// A key of a map from texts to texts, and the text that it has.
#[derive(Drop)]
pub struct Entry {
    /// A sticker's name, or the URI that has it.
    pub key: String,
    /// The sticker's text.
    pub value: String,
}

impl From<AllocError> for ShelfFault {
    ghost from_gives = { λ _ e. e ≡ NoMemory };

    fn from(_e: AllocError) -> ShelfFault {
        ShelfFault::NoMemory
    }
}

impl<T: Drop> From<AllocFailed<T>> for ShelfFault {
    ghost from_gives = { λ _ e. e ≡ NoMemory };

    fn from(_e: AllocFailed<T>) -> ShelfFault {
        ShelfFault::NoMemory
    }
}
