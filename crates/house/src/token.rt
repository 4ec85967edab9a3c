//! The token of a seat.
use crate::ledgers::{First, Fourth, Ledgers, Second, Third};
use std::sync::ledger::Share;

/// The share of one of the four seats that callers have, or the number of a thread of the house's own.
pub enum Token<L: Ledgers> {
    First(Share<First<L>>),
    Second(Share<Second<L>>),
    Third(Share<Third<L>>),
    Fourth(Share<Fourth<L>>),
    Crew(u8),
}

impl<L: Ledgers> Drop for Token<L> {
    fn drop(self) {
        match self {
            Token::First(_) => {}
            Token::Second(_) => {}
            Token::Third(_) => {}
            Token::Fourth(_) => {}
            Token::Crew(_) => {}
        }
    }
}
