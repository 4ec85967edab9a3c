//! Which song comes next: the order of the queue, which goes in rounds where it is random.
#![tactic(auto)]

mod ending;
mod laws;
mod modes;
mod played;
mod ranks;
mod round;
mod scan;
mod waiting;

pub use ending::Ending;
pub use laws::{
    chooses_unplayed, consumes_one, follows_positions, one_follows, precedes_is_order,
    rounds_forget_gone, rounds_go_on,
};
pub use modes::{Consume, Modes, Rank, Single};
pub use round::Round;
pub use scan::entry_with;
