//! What a scan finds.
use crate::content::Refusal;
use mpd_text::{Song, Text};

/// A file that is no song.
#[derive(Drop)]
pub struct Refused {
    /// Where it lies.
    pub uri: Text,
    /// Why it is none.
    pub refusal: Refusal,
}

/// What a scan finds, each in byte order of URI and no URI twice.
#[derive(Drop)]
pub struct Scanned {
    /// The songs.
    pub songs: Vec<Song>,
    /// The files that are none.
    pub refused: Vec<Refused>,
}
