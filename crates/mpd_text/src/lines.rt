//! A stream as lines, and a line as words.
mod quoted;
mod quoting;
mod splitter;

pub use quoted::{quote, words_read_quotes};
pub use quoting::{MAX_WORDS, WordsFault, one_reading, some_reading, words};
pub use splitter::{
    Line, MAX_LINE, SplitFault, Splitter, any_cut, lines_make_the_stream, pieces_do_not_matter,
};
