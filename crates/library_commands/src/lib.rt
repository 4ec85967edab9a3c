//! The commands of the library, of stored playlists and of stickers, and what they ask of a shelf.
#![tactic(auto)]

pub mod asking;
pub mod database;
pub mod playlist_stickers;
pub mod playlists;
pub mod stickers;
