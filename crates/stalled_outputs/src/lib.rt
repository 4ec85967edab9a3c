//! Outputs that may have patience: what each of them writes to, what lets it go on, and the daemon's own client that
//! switches it off and on.
#![tactic(auto)]

mod gates;
mod output_file;
mod own_client;
mod paths;

pub use gates::{Gates, gates_of};
pub use output_file::{OutputFile, OutputPath};
pub use paths::{OutputPaths, PatientPath, output_paths};
