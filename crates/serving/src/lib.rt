//! The daemon: its start, its run and its end, with the files of the system and its sockets, as a file of
//! settings says, and with the shelf that they name: one that is kept in a file, or in memory alone.
#![tactic(auto)]

mod address;
mod by_file;
mod checked;
mod fault;
mod folder;
mod keeper;
mod on_database;
mod on_file;
mod player_handles;
mod questions;
mod resources;
mod restoring;
mod run;
mod serving;
mod state_file;
mod summary;

pub use by_file::serve_by_file;
pub use fault::DaemonFault;
pub use serving::{Launch, Purpose, serve};
