//! What a scan prints, and what a daemon tells of one.
#![tactic(auto)]

mod found;
mod progress;
mod report;

pub use found::{commonest, count_of, found_text, rate_text};
pub use progress::{Progress, per_second};
pub use report::{Report, report_of};
