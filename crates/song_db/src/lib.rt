//! The song library: its songs in byte order of URI, and handles that share them.
#![tactic(auto)]

mod db;
mod rate;
mod shared_db;
mod shared_song;
mod song_lines;

pub use db::{Db, DbFault, MAX_SONGS};
pub use rate::Rate;
pub use shared_db::SharedDb;
pub use shared_song::SharedSong;
pub use song_lines::{
    duration, first_tag, length_of, push_length, push_song, push_tag, rounded,
    texts_and_length_are_the_song,
};
