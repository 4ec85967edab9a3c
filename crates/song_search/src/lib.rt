//! What is asked of a song library: the songs that meet a filter, the texts of a tag, and what lies in a
//! folder.
#![tactic(auto)]

mod folders;
mod search;

pub use folders::{Listing, is_folder, list_folder, under};
pub use search::{Count, counted, does_meet, find, meets_is_truth, millis_of};
