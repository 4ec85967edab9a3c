//! The byte edges of the player: lines, words, answers and songs, and texts in order.
#![tactic(auto)]

mod answers;
mod lines;
mod songs;
mod texts;

pub use answers::{Answer, ErrorNumber, Millis, Range, Sequence, SharedText, Text, number};
pub use lines::{
    Line, MAX_LINE, MAX_WORDS, SplitFault, Splitter, WordsFault, any_cut, lines_make_the_stream,
    one_reading, pieces_do_not_matter, quote, some_reading, words, words_read_quotes,
};
pub use songs::{
    BASE_TAG_NAMES, Song, TAG_NAMES, Tag, TagName, has_no_control, text_of_tag, up_to_zero,
};
pub use texts::{ascending_has_each_once, sort_once};
