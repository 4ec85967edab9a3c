//! The players of one daemon, each with a number and a name, and what passes between them.
#![tactic(auto)]

mod crossing;
mod openings;
mod parts;

pub use crossing::{Crossing, NewPart};
pub use openings::{Greatest, Openings, opened};
pub use parts::{MAX_PARTS, Parts};
