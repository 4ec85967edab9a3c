//! The order of songs: a tag, and a minus in front of it where the greatest text comes first.
ghost use Rattle.selections.specs.Options.{sort_of};

use command_arguments::{Form, after_sign};
use known_tags::KnownTag;
use std::alloc::{AllocError, Global};

/// By which tag songs are ordered, and whether from the greatest text down.
#[derive(Clone, Copy, PartialEq, Eq)]
pub struct SortBy {
    pub tag: KnownTag,
    pub falling: bool,
}

/// `TAG` or `-TAG`.
impl Form for SortBy {
    ghost read_gives = { sort_of };

    fn read(_alloc: Global, word: &str) -> Result<Option<SortBy>, AllocError> {
        if let Some(tag) = after_sign(word, '-') {
            return Ok(KnownTag::of_word(tag).map(|tag| SortBy { tag, falling: true }));
        }
        Ok(KnownTag::of_word(word).map(|tag| SortBy {
            tag,
            falling: false,
        }))
    }
}
