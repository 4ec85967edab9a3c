//! The numbers of eight outputs, as the player keeps them.
ghost use Rattle.std.specs.Prelude.{◌≡◌, length};

use player_state::FrameCounts;

/// The frames that each of eight outputs was given.
#[tactic(auto, using(crate::proofs::Eight::eight))]
pub(crate) fn decoded_in(books: &FrameCounts) -> [u64; 8]
    requires { length books.now.decoded ≡ 8 }
    ensures { result ≡ books.now.decoded }
{
    [
        books.decoded(0),
        books.decoded(1),
        books.decoded(2),
        books.decoded(3),
        books.decoded(4),
        books.decoded(5),
        books.decoded(6),
        books.decoded(7),
    ]
}

/// The frames that each of eight outputs wrote.
#[tactic(auto, using(crate::proofs::Eight::eight))]
pub(crate) fn written_in(books: &FrameCounts) -> [u64; 8]
    requires { length books.now.written ≡ 8 }
    ensures { result ≡ books.now.written }
{
    [
        books.written(0),
        books.written(1),
        books.written(2),
        books.written(3),
        books.written(4),
        books.written(5),
        books.written(6),
        books.written(7),
    ]
}

/// The frames that each of eight outputs discarded.
#[tactic(auto, using(crate::proofs::Eight::eight))]
pub(crate) fn discarded_in(books: &FrameCounts) -> [u64; 8]
    requires { length books.now.discarded ≡ 8 }
    ensures { result ≡ books.now.discarded }
{
    [
        books.discarded(0),
        books.discarded(1),
        books.discarded(2),
        books.discarded(3),
        books.discarded(4),
        books.discarded(5),
        books.discarded(6),
        books.discarded(7),
    ]
}
