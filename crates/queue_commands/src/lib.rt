//! The commands of the queue and of playback.
#![tactic(auto)]

pub mod playback;
pub mod queue;
pub mod queue_edits;
mod queue_songs;
