//! Seats, and the books that count their events.
ghost use Rattle.std.specs.Prelude.{◌≡◌, ◌+◌, ◌<◌, ◌≤◌, ◌^◌, [], ◌∷◌};
ghost use Rattle.std.specs.Prelude.{slice_index, slice_set, vec_len, vec_capacity};
ghost use Rattle.house.specs.Ledgers.{IsAt};
ghost use Rattle.house.specs.Seats.{after_events, seat_count, with_four_seats};

use crate::ledgers::{First, Fourth, Ledgers, Second, Third};
use crate::token::Token;
use std::marker::Model;
use std::sync::ledger::{Blank, Book};

/// All four seats are given.
#[derive(Clone, Copy, PartialEq, Eq)]
pub struct NoSeat;

/// A seat. Contracts see its number and how many events it made.
pub struct Seat<L: Ledgers> {
    made: u64,
    token: Token<L>,
}

impl<L: Ledgers> Drop for Seat<L> {
    fn drop(self) {
        let Seat { made: _, token: _ } = self;
    }
}

impl<L: Ledgers> Model for Seat<L> {
    ghost use Rattle.std.specs.Prelude.{◌<◌, ◌^◌};
    ghost use Rattle.house.specs.Seats.{SeatCount, seat_count, number_of, IsWhole};

    ghost Value = { SeatCount };

    ghost view = { λ s. seat_count (number_of s.token) s.made };

    ghost invariant = { λ s. IsWhole s.made s.token × (s.made < 2 ^ 63) };
}

impl<L: Ledgers> Seat<L> {
    /// The seat of a thread of the house's own.
    pub fn of_crew(n: u8) -> Self
        requires { n < 12 }
        ensures { result ≡ seat_count (4 + n) 0 }
    {
        Seat {
            made: 0,
            token: Token::Crew(n),
        }
    }

    /// How many events its caller made with it.
    pub fn made(&self) -> u64
        ensures { result ≡ self.now.made }
    {
        self.made
    }

    /// Its number.
    pub fn number(&self) -> u8
        ensures number { result ≡ self.now.number }
        ensures seat { result < 16 }
    {
        match &self.token {
            Token::First(_) => 0,
            Token::Second(_) => 1,
            Token::Third(_) => 2,
            Token::Fourth(_) => 3,
            Token::Crew(n) => 4 + *n,
        }
    }
}

/// The books of the four seats. Contracts see their totals.
pub struct SeatBooks<L: Ledgers> {
    first: Book<First<L>>,
    second: Book<Second<L>>,
    third: Book<Third<L>>,
    fourth: Book<Fourth<L>>,
}

impl<L: Ledgers> Drop for SeatBooks<L> {
    fn drop(self) {
        let SeatBooks {
            first: _,
            second: _,
            third: _,
            fourth: _,
        } = self;
    }
}

impl<L: Ledgers> Model for SeatBooks<L> {
    ghost use Rattle.std.specs.Prelude.{ℕ, List, [], ◌∷◌};

    ghost Value = { List ℕ };

    ghost view = { λ b. b.first.total ∷ b.second.total ∷ b.third.total ∷ b.fourth.total ∷ [] };
}

impl<L: Ledgers> SeatBooks<L> {
    /// The books of four new ledgers, and their seats.
    pub fn open(
        first: Blank,
        second: Blank,
        third: Blank,
        fourth: Blank,
        free: &mut Vec<Seat<L>>,
    ) -> Self
        requires first { IsAt L.names 0 first }
        requires second { IsAt L.names 1 second }
        requires third { IsAt L.names 2 third }
        requires fourth { IsAt L.names 3 fourth }
        requires room { vec_len free.old + 4 ≤ vec_capacity free.old }
        ensures books { result ≡ 0 ∷ 0 ∷ 0 ∷ 0 ∷ [] }
        ensures free { free.new.items ≡ with_four_seats free.old.items }
    {
        let (first, share) = first.open::<First<L>>();
        free.push_reserved(Seat {
            made: 0,
            token: Token::First(share),
        });
        let (second, share) = second.open::<Second<L>>();
        free.push_reserved(Seat {
            made: 0,
            token: Token::Second(share),
        });
        let (third, share) = third.open::<Third<L>>();
        free.push_reserved(Seat {
            made: 0,
            token: Token::Third(share),
        });
        let (fourth, share) = fourth.open::<Fourth<L>>();
        free.push_reserved(Seat {
            made: 0,
            token: Token::Fourth(share),
        });
        SeatBooks {
            first,
            second,
            third,
            fourth,
        }
    }

    /// The seat's book has the seat's count.
    pub(crate) fn audit(&mut self, seat: &mut Seat<L>)
        ensures few { seat.old.made < 2 ^ 63 }
        ensures found { seat.old.number < 4 → slice_index self.old seat.old.number ≡ seat.old.made }
        ensures seat { seat.new ≡ seat.old }
        ensures books { self.new ≡ self.old }
    {
        let SeatBooks {
            first,
            second,
            third,
            fourth,
        } = self;
        let Seat { made: _, token } = seat;
        match token {
            Token::First(share) => first.audit(share),
            Token::Second(share) => second.audit(share),
            Token::Third(share) => third.audit(share),
            Token::Fourth(share) => fourth.audit(share),
            Token::Crew(_) => {}
        }
    }

    /// Counts events of the seat. Its book had the seat's count. Those of the house's own threads are not
    /// counted.
    pub(crate) fn count(&mut self, seat: &mut Seat<L>, events: u64)
        requires { seat.old.number < 4 → seat.old.made + events < 2 ^ 63 }
        ensures found { seat.old.number < 4 → slice_index self.old seat.old.number ≡ seat.old.made }
        ensures seat { seat.new ≡ after_events seat.old events }
        ensures books { self.new ≡ slice_set self.old seat.old.number (seat.old.made + events) }
    {
        let SeatBooks {
            first,
            second,
            third,
            fourth,
        } = self;
        let Seat { made, token } = seat;
        match token {
            Token::First(share) => {
                first.audit(share);
                first.add(share, events);
                *made += events;
            }
            Token::Second(share) => {
                second.audit(share);
                second.add(share, events);
                *made += events;
            }
            Token::Third(share) => {
                third.audit(share);
                third.add(share, events);
                *made += events;
            }
            Token::Fourth(share) => {
                fourth.audit(share);
                fourth.add(share, events);
                *made += events;
            }
            Token::Crew(_) => {}
        }
    }
}
