//! Events, what they make clients hear, and how many bytes both have.
#![tactic(auto)]

mod event;
mod logged;
mod sizes;

pub use event::{Event, LogEntry, Outcome};
pub use logged::Logged;
