//! Folders of a library (MPD protocol reference, The music database: `lsinfo`, `listall`, and folders in
//! `add`).
ghost use Rattle.std.specs.Prelude.{◌≡◌, ◌++◌, ◌∷◌, [], IfOk, MatchOption, length, drop, nat_eq, false, ◌≤◌};
ghost use Rattle.std.specs.List.{starts_with, prefix_len};
ghost use Rattle.std.specs.List.Sorted.{IsPartitionedBy};
ghost use Rattle.std.specs.Option.{option_copied};
ghost use Rattle.std.specs.Ordering.{is_lt};
ghost use Rattle.mpd_text.specs.Songs.Song.{SongData};
ghost use Rattle.song_db.specs.Library.{InByteOrder};
ghost use Rattle.mpd_text.specs.Texts.{by_bytes, values_now};
ghost use Rattle.song_search.specs.Truth.{front_of, is_under as is_under_lem};
ghost use Rattle.song_search.specs.Folders.{under as under_lem, is_folder as is_folder_lem, folder_below as folder_below_lem, direct_songs, direct_folders, lies_in, has_slash, IsPathStart, IsFirstSlash, IsFirstSlashFrom};

use filters::after_prefix;
use mpd_text::sort_once;
use song_db::{Db, SharedSong};
use std::alloc::{AllocError, Global};

/// The songs under a folder, in byte order of URI; all of them under the empty one. They stand side by side
/// and are searched by halves. Takes no memory.
pub fn under<'a>(db: &'a Db, folder: &str) -> &'a [SharedSong]
    ensures songs { result.now ≡ under_lem folder.now db.now }
    ensures order { InByteOrder result.now }
{
    under_in(db.songs(), folder)
}

/// Whether there is a folder of this URI: the empty one always is.
pub fn is_folder(db: &Db, folder: &str) -> bool
    ensures { result ≡ is_folder_lem folder.now db.now }
{
    folder.is_empty() || !under(db, folder).is_empty()
}

/// What lies right in a folder, in none of the folders below.
#[derive(Drop)]
pub struct Listing<'a> {
    /// The URIs of the folders right below, in byte order.
    pub folders: Vec<&'a str>,
    /// The songs, in byte order of URI.
    pub songs: Vec<&'a SharedSong>,
}

/// What lies right in a folder. Each folder below is passed over by halves, and neither songs nor texts are
/// copied.
pub fn list_folder<'a>(alloc: Global, db: &'a Db, folder: &str) -> Result<Listing<'a>, AllocError>
    ensures folders { IfOk result (λ found. values_now found.folders.items ≡ direct_folders folder.now db.now) }
    ensures songs { IfOk result (λ found. values_now found.songs.items ≡ direct_songs folder.now db.now) }
{
    let mut folders = Vec::new(alloc);
    let mut songs = Vec::new(alloc);
    let mut rest = under(db, folder);
    while let Some((first, others)) = rest.split_first() {
        match folder_below(first.song().uri(), folder) {
            Some(below) => {
                folders.push(below).map_err(AllocError::from)?;
                rest = after_folder(others, below);
            }
            None => {
                songs.push(first).map_err(AllocError::from)?;
                rest = others;
            }
        }
    }
    sort_once(&mut folders);
    Ok(Listing { folders, songs })
}

/// The songs after those that stand first and lie in a folder.
fn after_folder<'a>(songs: &'a [SharedSong], folder: &str) -> &'a [SharedSong]
    requires { IsPartitionedBy (λ (song : SongData). lies_in folder.now song.uri) songs.now }
    ensures { result.now ≡ drop (prefix_len (λ (song : SongData). lies_in folder.now song.uri) songs.now) songs.now }
{
    let end = songs.partition_point(|song| is_in(song.song().uri(), folder));
    &songs[end..]
}

/// The folder right below a folder in which a URI lies, if it lies in one.
fn folder_below<'a>(uri: &'a str, folder: &str) -> Option<&'a str>
    ensures { option_copied result ≡ folder_below_lem folder.now uri.now }
{
    let start = path_start(uri, folder)?;
    let slash = slash_from(uri, start)?;
    Some(&uri[..slash])
}

/// Where the path of a URI from a folder on begins, if it lies under the folder.
fn path_start(uri: &str, folder: &str) -> Option<usize>
    ensures { MatchOption result (is_under_lem folder.now uri.now ≡ false) (IsPathStart folder.now uri.now) }
{
    if folder.is_empty() {
        return Some(0);
    }
    if is_in(uri, folder) {
        Some(folder.len() + 1)
    } else {
        None
    }
}

/// The offset of the first slash from an offset on.
fn slash_from(uri: &str, start: usize) -> Option<usize>
    requires { start ≤ length uri.now }
    ensures { MatchOption result (has_slash (drop start uri.now) ≡ false) (IsFirstSlashFrom start uri.now) }
{
    let bytes = uri.as_bytes();
    let offset = slash_in(&bytes[start..])?;
    Some(start + offset)
}

/// The offset of the first slash.
fn slash_in(path: &[u8]) -> Option<usize>
    ensures { MatchOption result (has_slash path.now ≡ false) (IsFirstSlash path.now) }
{
    for (offset, b) in path.iter().enumerate() {
        if *b == b'/' {
            return Some(offset);
        }
    }
    None
}

fn under_in<'a>(songs: &'a [SharedSong], folder: &str) -> &'a [SharedSong]
    requires { InByteOrder songs.now }
    ensures songs { result.now ≡ under_lem folder.now songs.now }
    ensures order { InByteOrder result.now }
{
    let start = songs.partition_point(|song| is_before(song.song().uri(), folder));
    let rest = &songs[start..];
    let end = rest.partition_point(|song| is_under(song.song().uri(), folder));
    &rest[..end]
}

/// Whether a URI comes before all that lie under a folder.
fn is_before(uri: &str, folder: &str) -> bool
    ensures { result ≡ is_lt (by_bytes uri.now (front_of folder.now)) }
{
    if folder.is_empty() {
        return false;
    }
    comes_before(uri, folder)
}

/// Whether a URI comes before the text of a folder and a slash.
fn comes_before(uri: &str, folder: &str) -> bool
    ensures { result ≡ is_lt (by_bytes uri.now (folder.now ++ 47 ∷ [])) }
{
    match after_prefix(uri.as_bytes(), folder.as_bytes()) {
        None => uri.cmp(folder).is_lt(),
        Some(rest) => is_before_slash(rest),
    }
}

fn is_before_slash(rest: &[u8]) -> bool
    ensures { result ≡ is_lt (by_bytes rest.now (47 ∷ [])) }
{
    match rest {
        [] => true,
        [first, ..] => *first < b'/',
    }
}

/// Whether a URI lies under a folder; each lies under the empty one.
fn is_under(uri: &str, folder: &str) -> bool
    ensures { result ≡ is_under_lem folder.now uri.now }
{
    if folder.is_empty() {
        return true;
    }
    is_in(uri, folder)
}

/// Whether a URI goes on with a slash after a folder.
fn is_in(uri: &str, folder: &str) -> bool
    ensures { result ≡ lies_in folder.now uri.now }
{
    match after_prefix(uri.as_bytes(), folder.as_bytes()) {
        None => false,
        Some(rest) => begins_with_slash(rest),
    }
}

fn begins_with_slash(rest: &[u8]) -> bool
    ensures { result ≡ starts_with nat_eq rest.now (47 ∷ []) }
{
    match rest {
        [] => false,
        [first, ..] => *first == b'/',
    }
}
