//! What the daemon's own clients say, and what they are answered.
#![tactic(auto)]

mod lines;

pub use lines::{answers_of, requests_of};
