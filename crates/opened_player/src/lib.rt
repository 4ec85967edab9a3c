//! What the settings say is what the daemon's player opens with, and what its clients may say.
#![tactic(auto)]

mod player;

pub use player::{commands_of, player_of};
