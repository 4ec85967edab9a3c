//! Books of frames: how many each output was given, wrote and discarded, and their settlement against the
//! rings.
#![tactic(auto)]

pub mod books;
pub mod settlement;
pub mod tally;

pub use books::{Blanks, Books, OutputShares};
pub use settlement::{SettleFault, Settled, settle};
pub use tally::{AtLimit, Tally};
