//! The slots of the song queue in blocks, so that an edit writes one flag for each block behind it.
#![tactic(auto)]

mod block;
mod blocks;
mod entry;
mod index;
mod made;
mod many;
mod shows;
mod slots;

pub use blocks::Blocks;
pub use entry::{Entry, Slot};
