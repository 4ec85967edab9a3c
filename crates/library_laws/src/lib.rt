//! What the commands of the library, of stored playlists, of stickers and of messages promise to clients, said
//! once more and proved of the definitions.
#![tactic(auto)]

mod found;
mod messages;
mod playlists;
mod stickers;

pub use found::{find_and_add_the_same, found_songs_are_counted, found_texts_are_listed};
pub use messages::messages_are_read_once;
pub use playlists::{entries_stay_in_order, lists_are_kept_whole, saved_lists_are_loaded};
pub use stickers::stickers_are_as_set;
