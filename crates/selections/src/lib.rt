//! What a command asks for of the songs in the everyday profile: a filter, an order, a window of the answer,
//! and where the songs go. The options are read from the right (MPD protocol reference, The music database).
#![tactic(auto)]

mod asked;
mod groupings;
mod options;
mod selections;
mod sort_by;

pub use asked::{Counting, Grouping, Selection};
pub use groupings::{counting, grouping, no_tag_is_there_twice};
pub use selections::{
    name_selection, options_are_read_from_the_right, placed_selection, selection,
};
pub use sort_by::SortBy;
