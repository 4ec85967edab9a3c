//! The house's own threads: one that decodes songs, one for each output, and one that scans.
#![tactic(auto)]

mod ending;
mod output;
mod output_runs;
mod output_start;
mod outputs;
mod scanner;
mod settling;
mod start;

pub use ending::{close, let_go};
pub use output::OutputRun;
pub use output_runs::OutputRuns;
pub use outputs::start_outputs;
pub use scanner::{Scanner, second_now, start_scanner};
pub use start::{Crew, start_decoder};
