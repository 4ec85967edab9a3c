//! The program's command line.
#![tactic(auto)]

mod arguments;
mod laws;
mod line;
mod program;

pub use arguments::VERSION;
pub use laws::readings;
pub use line::command_line;
pub use program::{LineFault, Program};
