//! Songs that tests make, and the library of some.
//!
//! What a test needs and cannot make counts as want of memory.
#![tactic(auto)]

use mpd_text::{Song, Tag, TagName};
use song_db::Db;
use std::alloc::{AllocError, Global};

/// Names of tags and texts.
pub type Tags = &'static [(TagName, &'static str)];

fn add_tag(
    tags: &mut Vec<Tag>,
    alloc: Global,
    name: TagName,
    text: &str,
    times: usize,
) -> Result<(), AllocError> {
    let tag = Tag::new(name, text.repeat(alloc, times)?);
    tags.push(tag).map_err(AllocError::from)
}

/// A song whose URI and texts are these so many times. The URI holds no newline.
pub fn repeated_song(
    alloc: Global,
    uri: &str,
    given: &[(TagName, &str)],
    times: usize,
    frames: u64,
) -> Result<Song, AllocError> {
    let mut tags = Vec::new(alloc);
    for (name, text) in given {
        add_tag(&mut tags, alloc, *name, text, times)?;
    }
    Song::new(uri.repeat(alloc, times)?, tags, frames).ok_or(AllocError)
}

/// A song of a URI without a newline.
pub fn song(
    alloc: Global,
    uri: &str,
    given: &[(TagName, &str)],
    frames: u64,
) -> Result<Song, AllocError> {
    repeated_song(alloc, uri, given, 1, frames)
}

/// The library of these songs.
pub fn library(alloc: Global, songs: Vec<Song>) -> Result<Db, AllocError> {
    Db::of_songs(alloc, songs).ok().ok_or(AllocError)
}
