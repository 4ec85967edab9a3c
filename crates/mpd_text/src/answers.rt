//! Numbers and texts, and the answers that hold them.
mod answer;
mod numbers;
mod ranges;
mod sequence;
mod text;
mod times;

pub use answer::{Answer, ErrorNumber};
pub use numbers::number;
pub use ranges::Range;
pub use sequence::Sequence;
pub use text::{SharedText, Text};
pub use times::Millis;
