//! Songs and their tags.
mod song;
mod tags;
mod text_bytes;

pub use song::{Song, Tag, TagName};
pub use tags::{BASE_TAG_NAMES, TAG_NAMES, text_of_tag};
pub use text_bytes::{has_no_control, up_to_zero};
