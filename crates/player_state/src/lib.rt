//! The state of one player, and what an event does to it.
#![tactic(auto)]

mod effect;
mod frame_counts;
mod outputs;
mod report;
mod same;
mod scan;
mod state;

pub use effect::{AudioStep, CommandEffect, Effect, apply_effect, done};
pub use frame_counts::FrameCounts;
pub use outputs::{Carried, MAX_OUTPUTS, Outputs};
pub use report::{Feed, Heard, Report};
pub use same::same_songs;
pub use scan::{Scan, ScanMove};
pub use state::{Client, Library, Part};
