//! What the commands over a shelf show, and how its lists are edited.
#![tactic(auto)]

mod edits;
mod found;
mod shown;
mod songs;
mod walk;

pub use edits::{moved, uris_of_queue, with_songs, without};
pub use found::{found_lines, found_list_line, found_list_lines};
pub use shown::{list_info_lines, list_lines, name_lines, push_names, sticker_line, sticker_lines};
pub use songs::loaded;
