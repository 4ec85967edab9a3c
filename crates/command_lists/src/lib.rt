//! The lines of a client's command list (MPD protocol reference, Command lists).
#![tactic(auto)]

mod collector;
mod laws;
mod list;
mod word;

pub use collector::{ListCollector, Taken};
pub use laws::{any_cut, lines_are_parts, parts_are_taken, words_are_alone};
pub use list::{CommandList, ListLine, MAX_LIST};
pub use word::ListForm;
