//! The songs that a list has in a library (MPD protocol reference, Stored playlists: `load`).

ghost use Rattle.std.specs.Prelude.{◌≡◌, ◌≤◌, ◌++◌, IfOk, OnOk, length, take};
ghost use Rattle.std.specs.List.{filter_map};
ghost use Rattle.std.specs.Option.{option_to_list};
ghost use Rattle.shelf.specs.Lines.{lines_of};
ghost use Rattle.song_db.specs.Library.{song_of};
ghost use Rattle.shelf_contents.specs.Edits.{loaded as loaded_lem};

use crate::walk::behind;
use shelf::{UriList, next_uri};
use song_db::{Db, SharedSong};
use std::alloc::{AllocError, Global};

/// The songs of the entries from `start` up to `end`, in order. An entry whose song is gone is passed over;
/// the range counts it.
pub fn loaded(
    alloc: Global,
    db: &Db,
    list: &UriList,
    start: usize,
    end: usize,
) -> Result<Vec<SharedSong>, AllocError>
    requires rises { start ≤ end }
    requires within { end ≤ length list.now }
    ensures { IfOk result (λ songs. songs.items ≡ loaded_lem db.now list.now start end) }
{
    first_songs(alloc, db, behind(list.text(), start), end - start)
}

/// The songs of the first lines, so many of them.
fn first_songs(
    alloc: Global,
    db: &Db,
    text: &str,
    count: usize,
) -> Result<Vec<SharedSong>, AllocError>
    ensures { IfOk result (λ songs. songs.items ≡ filter_map (song_of db.now) (take count (lines_of text.now))) }
{
    let mut songs = Vec::new(alloc);
    let mut rest = text;
    let mut left = count;
    while left > 0 {
        let Some((uri, more)) = next_uri(rest) else {
            return Ok(songs);
        };
        push_song_at(&mut songs, db, uri)?;
        rest = more;
        left -= 1;
    }
    Ok(songs)
}

/// Puts the song at a URI after others, where the library has one.
fn push_song_at(songs: &mut Vec<SharedSong>, db: &Db, uri: &str) -> Result<(), AllocError>
    ensures { OnOk result (songs.new.items ≡ songs.old.items ++ option_to_list (song_of db.now uri.now)) }
{
    if let Some(song) = db.share(uri)? {
        songs.push(song).map_err(AllocError::from)?;
    }
    Ok(())
}
