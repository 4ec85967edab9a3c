//! What a server of sockets does next, apart from the sockets: who has a turn, who is let in, who is gone, and
//! how long to sleep.
#![tactic(auto)]

mod inbox;
mod rounds;
mod slot;
mod step;

pub use inbox::Inbox;
pub use rounds::Rounds;
pub use slot::{Arrival, ClosedTurn, OpenTurn, Turn};
pub use step::Step;
