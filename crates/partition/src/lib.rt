//! The player of one thread: its events, its replies, and its history.
#![tactic(auto)]

mod event_transitions;
mod happen;
mod laws;
mod lent;
mod lists;
mod partition;
mod prepare;
mod state;

pub use laws::{entries_are_whole, folds_are_unseen, reads_pending, replays_worlds};
pub use lists::{ListFault, ListOutcome};
pub use partition::{Partition, PartitionFault, first_name};
pub use state::{Limits, MAX_CLIENTS, MAX_OWN, Setup};
