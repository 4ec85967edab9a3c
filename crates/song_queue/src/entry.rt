//! What the queue holds. The types are those of its slots, which stand in a crate of their own.

pub use queue_slots::{Entry, Slot};
