//! Scripts: numbered client lines and steps in, answers out.
#![tactic(auto)]

mod client_lines;
mod laws;
mod lists;
mod memory;
mod player;
mod reports;
mod run;
mod script;

pub use laws::runs_are_traced;
pub use memory::Memory;
pub use run::{MAX_READS, ScriptFault, run_script};
