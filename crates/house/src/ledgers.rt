//! The ledgers that the books of a house stand on.
ghost use Rattle.std.specs.Prelude.{ℕ};

use std::marker::{Brand, PhantomData};
use std::sync::ledger::Ledger;

/// Which ledgers they are: the name of that at each index.
pub trait Ledgers {
    ghost names: { ℕ → ℕ };
}

impl Ledgers for Brand {
    ghost names = { λ _. 0 };
}

/// The ledger at an index.
pub struct At<L, const INDEX: u8> {
    of: PhantomData<L>,
}

impl<L: Ledgers, const INDEX: u8> Ledger for At<L, INDEX> {
    ghost use Rattle.house.specs.Ledgers.{parts_at};

    ghost name = { L.names INDEX };

    ghost parts = { parts_at INDEX };
}

// The events of the four seats of callers.
pub type First<L> = At<L, 0>;

pub type Second<L> = At<L, 1>;

pub type Third<L> = At<L, 2>;

pub type Fourth<L> = At<L, 3>;

// Frames.
pub type Decoded<L> = At<L, 4>;

pub type Written<L> = At<L, 5>;

pub type Discarded<L> = At<L, 6>;
