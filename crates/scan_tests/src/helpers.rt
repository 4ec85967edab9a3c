//! What several tests of this crate use.
//!
//! What a test needs and cannot make counts as want of memory.
use library_scan::{ScanFault, Scanned};
use mpd_text::{Song, TagName};
use std::alloc::{AllocError, Global};
use test_texts::Recorder;

/// A song of this URI, so many frames, and one tag, its artist.
pub fn song(alloc: Global, uri: &str, frames: u64, artist: &str) -> Result<Song, AllocError> {
    test_songs::song(alloc, uri, &[(TagName::Artist, artist)], frames)
}

/// Adds the songs of a scan with their frames and how many tags they have, then the files that are none with
/// their refusals; or why there is no scan.
pub fn add_scan(recorder: &mut Recorder, scanned: &Result<Scanned, ScanFault>) {
    match scanned {
        Ok(scanned) => add_found(recorder, scanned),
        Err(fault) => recorder.add(format_args!("{fault:?} ")),
    }
}

fn add_found(recorder: &mut Recorder, scanned: &Scanned) {
    for song in &scanned.songs {
        let (uri, frames, tags) = (song.uri(), song.frames(), song.tags().len());
        recorder.add(format_args!("{uri}={frames}+{tags} "));
    }
    for file in &scanned.refused {
        let (uri, name) = (file.uri.as_str(), file.refusal.name());
        recorder.add(format_args!("{uri}:{name} "));
    }
}

/// How many songs a scan found, how long the URI of the last is, and how many files are not songs; or why there is
/// no scan.
pub fn size_of(alloc: Global, scanned: &Result<Scanned, ScanFault>) -> Result<String, AllocError> {
    match scanned {
        Ok(scanned) => {
            let (songs, refused) = (scanned.songs.len(), scanned.refused.len());
            let last = last_length(&scanned.songs);
            format!(in alloc; "{songs} songs, the last of {last} bytes, {refused} refused")
        }
        Err(fault) => format!(in alloc; "{fault:?}"),
    }
}

fn last_length(songs: &[Song]) -> usize {
    match songs.last() {
        Some(song) => song.uri().len(),
        None => 0,
    }
}
