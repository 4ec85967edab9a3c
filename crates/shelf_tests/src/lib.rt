//! Tests of a shelf of any kind, as functions that answer an error in place of stopping. They run in the
//! crate `shelf_database_tests`, over the shelf in memory and over a database: so this crate is proved once,
//! without tests.
#![tactic(auto)]

pub mod calls;
pub mod cases;
pub mod playlist_stickers;
pub mod playlists;
pub mod stickers;
