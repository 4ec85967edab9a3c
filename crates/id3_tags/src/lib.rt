//! ID3v2 tags (versions 2.2, 2.3 and 2.4): the texts that a tag gives, whatever the bytes are.
#![tactic(auto)]

mod encoding;
mod frame;
mod tag;
mod texts;
mod utf16;
mod windows;

pub use frame::frames_are_those_of_the_bytes;
pub use tag::tag_len;
pub use texts::{Id3Texts, bytes_after_the_tag_do_not_matter, no_texts, texts_of};
pub use windows::windows_1252;
