//! Lists made of others (MPD protocol reference, Stored playlists: `playlistadd`, `playlistdelete`,
//! `playlistmove`, `save`).

ghost use Rattle.std.specs.Prelude.{◌≡◌, ◌++◌, ◌∷◌, ◌<◌, IfOk, OnOk, length, take, drop};
ghost use Rattle.std.specs.List.{insert, remove};
ghost use Rattle.shelf.specs.Lines.{HasNoNewline};
ghost use Rattle.song_queue.specs.State.{entries_of, queue_of};
ghost use Rattle.shelf_contents.specs.Edits.{uris_in, uris_of, moved as moved_lem};

use crate::walk::{behind, behind_first, push_all, push_first};
use shelf::{UriList, next_uri};
use song_db::SharedSong;
use song_queue::{Queue, Slot};
use std::alloc::{AllocError, Global};

/// The URIs of a queue's entries, in order.
pub fn uris_of_queue(alloc: Global, queue: &Queue) -> Result<UriList, AllocError>
    ensures { IfOk result (λ uris. uris ≡ uris_in (queue_of queue.now)) }
{
    let mut uris = UriList::new(alloc);
    let end = queue.len();
    let mut at = 0;
    while at < end {
        let run = queue.run(at, end);
        push_uris(&mut uris, run)?;
        at += run.len();
    }
    Ok(uris)
}

fn push_uris(uris: &mut UriList, run: &[Slot]) -> Result<(), AllocError>
    ensures { OnOk result (uris.new ≡ uris.old ++ uris_in (entries_of run.now)) }
{
    for slot in run {
        uris.push(slot.entry.song.song().uri())?;
    }
    Ok(())
}

/// The list with the URIs of these songs after it.
pub fn with_songs(list: &UriList, songs: &[SharedSong]) -> Result<UriList, AllocError>
    ensures { IfOk result (λ longer. longer ≡ list.now ++ uris_of songs.now) }
{
    let mut longer = list.clone()?;
    for song in songs {
        longer.push(song.song().uri())?;
    }
    Ok(longer)
}

/// The list without the entry at a position.
pub fn without(alloc: Global, list: &UriList, position: usize) -> Result<UriList, AllocError>
    requires { position < length list.now }
    ensures { IfOk result (λ rest. rest ≡ remove list.now position) }
{
    let mut rest = UriList::new(alloc);
    push_first(&mut rest, list.text(), position)?;
    push_all(&mut rest, behind_first(behind(list.text(), position)))?;
    Ok(rest)
}

/// The list with the entry at one position taken out, and put into the rest at another.
pub fn moved(alloc: Global, list: &UriList, from: usize, to: usize) -> Result<UriList, AllocError>
    requires from_within { from < length list.now }
    requires to_within { to < length list.now }
    ensures { IfOk result (λ moved. moved ≡ moved_lem list.now from to) }
{
    let rest = without(alloc, list, from)?;
    match next_uri(behind(list.text(), from)) {
        Some((uri, _)) => with_uri(alloc, &rest, to, uri),
        None => Ok(rest),
    }
}

/// The list with a URI put in at a position.
fn with_uri(
    alloc: Global,
    list: &UriList,
    position: usize,
    uri: &str,
) -> Result<UriList, AllocError>
    requires { HasNoNewline uri.now }
    ensures { IfOk result (λ longer. longer ≡ insert list.now position uri.now) }
{
    let mut longer = UriList::new(alloc);
    push_first(&mut longer, list.text(), position)?;
    longer.push(uri)?;
    push_all(&mut longer, behind(list.text(), position))?;
    Ok(longer)
}
