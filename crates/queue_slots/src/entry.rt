//! What the queue holds.

use song_db::SharedSong;

/// A song in the queue (MPD protocol reference, The queue).
#[derive(Drop)]
pub struct Entry {
    pub song: SharedSong,
    pub id: u32,
    pub priority: u8,
}

/// An entry, with the version at which it came into its slot, and whether its slot is shown to every client.
#[derive(Drop)]
pub struct Slot {
    pub entry: Entry,
    pub stamp: u32,
    pub marked: bool,
}
