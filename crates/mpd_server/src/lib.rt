//! The daemon on the network: a loop over the sockets of the clients, each with its session.
#![tactic(auto)]

mod connection;
mod slot;
mod sockets;
mod waking;

pub use sockets::{ServeFault, Server, bind};
pub use waking::start_waker;
