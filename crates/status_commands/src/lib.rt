//! The commands that show the player, and those of options, outputs, messages and the connection.
#![tactic(auto)]

pub mod connection;
pub mod messages;
pub mod options;
pub mod outputs;
mod stats;
pub mod status;
