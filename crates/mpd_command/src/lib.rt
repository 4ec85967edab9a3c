//! Commands with their arguments, and the refusals that come before any effect.
#![tactic(auto)]

mod command;
mod command_set;
mod connection;
mod database;
mod messages;
mod name;
mod options;
mod outputs;
mod partitions;
mod playback;
mod playlists;
mod queue;
mod request;
mod status;
mod sticker;

pub use command::Command;
pub use command_set::CommandSet;
pub use connection::ConnectionCommand;
pub use database::DatabaseCommand;
pub use messages::MessageCommand;
pub use name::{Name, is_forbidden, is_there, names};
pub use options::OptionCommand;
pub use outputs::OutputCommand;
pub use partitions::PartitionCommand;
pub use playback::PlaybackCommand;
pub use playlists::PlaylistCommand;
pub use queue::QueueCommand;
pub use request::{Ack, CommandFault, Request};
pub use status::StatusCommand;
pub use sticker::{Comparison, Operator, StickerCommand, Target};
