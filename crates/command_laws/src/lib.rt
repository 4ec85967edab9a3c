//! What commands ask for and show, said once more and proved of the definitions.
#![tactic(auto)]

mod answering;
mod asking;
mod showing;
mod status;

pub use answering::{base_list_has_the_texts, base_profile_shows_all_tags};
pub use asking::base_profile_asks_for_no_more;
pub use showing::hidden_tags_are_left_out;
pub use status::status_shows_world;
