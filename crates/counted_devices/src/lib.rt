//! Devices that count how their calls end: sources, sinks, and media that seek.
#![tactic(auto)]

mod call_counts;
mod counting;
mod device;
mod fail_at;
mod read_seek;

pub use call_counts::CallCounts;
pub use counting::Counting;
pub use device::{Failing, Media, Sink, Source};
pub use fail_at::{FailAt, FailurePoint};
pub use read_seek::ReadSeek;
