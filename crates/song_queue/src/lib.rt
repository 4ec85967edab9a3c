//! The song queue: its entries, their ids, and the version at which each slot last changed.
#![tactic(auto)]

mod edit;
pub mod entry;
mod laws;
mod queue;
mod slots;

pub use edit::Edit;
pub use entry::{Entry, Slot};
pub use laws::{
    edits_follow_past, ids_are_distinct, ids_never_return, moves_keep_entries,
    parity_tells_changes, pasts_keep_queues, patches_give_present, shuffles_permute,
    states_follow_pasts,
};
pub use queue::{Queue, QueueFault};
