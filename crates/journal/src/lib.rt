//! The lines that the daemon writes on standard error, which systemd puts into the journal.
#![tactic(auto)]

mod end;
mod outputs;
mod scans;
mod telling;

pub use end::end_text;
pub use outputs::{failure_text, silence_text};
pub use scans::{rescan_text, start_text};
pub use telling::tell;
