//! The tags that clients know, the sets of tags that they choose, and the lines of songs with those tags.
#![tactic(auto)]

mod known_tag;
mod song_lines;
mod tag_set;

pub use known_tag::{KNOWN_TAGS, KnownTag, each_name_is_read_back, same_word};
pub use song_lines::{
    all_tags_show_the_whole_song, push_shared_with, push_song_with, push_tagtypes,
};
pub use tag_set::TagSet;
