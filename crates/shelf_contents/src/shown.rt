//! The lines that show stored playlists and stickers (MPD protocol reference, Stored playlists, Stickers).

ghost use Rattle.std.specs.Prelude.{◌≡◌, ◌++◌, IfOk, OnOk, map, string_bytes};
ghost use Rattle.shelf.specs.Entries.{entry_texts};
ghost use Rattle.song_db.specs.Library.{song_of};
ghost use Rattle.shelf_contents.specs.Shown.{uri_lines, info, info_lines, playlist_lines, sticker_of, stickers_of};

use known_tags::{TagSet, push_shared_with};
use mpd_text::Answer;
use shelf::{Entry, UriList, next_uri};
use song_db::{Db, Rate};
use std::alloc::{AllocError, Global};

/// The URIs of a list (`listplaylist`).
pub fn list_lines(alloc: Global, list: &UriList) -> Result<Answer, AllocError>
    ensures { IfOk result (λ answer. answer ≡ uri_lines list.now) }
{
    let mut answer = Answer::new(alloc);
    let mut rest = list.text();
    while let Some((uri, more)) = next_uri(rest) {
        answer.pair("file", uri)?;
        rest = more;
    }
    Ok(answer)
}

/// The songs of a list with the tags of a set, and the URI alone where the library has no song
/// (`listplaylistinfo`).
pub fn list_info_lines(
    alloc: Global,
    list: &UriList,
    db: &Db,
    rate: &Rate,
    tags: TagSet,
) -> Result<Answer, AllocError>
    ensures { IfOk result (λ answer. answer ≡ info_lines tags rate.now db.now list.now) }
{
    let mut answer = Answer::new(alloc);
    let mut rest = list.text();
    while let Some((uri, more)) = next_uri(rest) {
        push_info(&mut answer, uri, db, rate, tags)?;
        rest = more;
    }
    Ok(answer)
}

/// The lines of the song that the library has at a URI, or the URI alone.
fn push_info(
    answer: &mut Answer,
    uri: &str,
    db: &Db,
    rate: &Rate,
    tags: TagSet,
) -> Result<(), AllocError>
    ensures { OnOk result (answer.new ≡ answer.old ++ info tags rate.now uri.now (song_of db.now uri.now)) }
{
    match db.handle(uri) {
        Some(song) => push_shared_with(answer, song, rate, tags),
        None => answer.pair("file", uri),
    }
}

/// The names of lists (`listplaylists`).
pub fn name_lines(alloc: Global, names: &[String]) -> Result<Answer, AllocError>
    ensures { IfOk result (λ answer. answer ≡ playlist_lines (map string_bytes names.now)) }
{
    let mut answer = Answer::new(alloc);
    push_names(&mut answer, names)?;
    Ok(answer)
}

/// Appends the names of lists to an answer. Where memory runs out, the answer may have some of them.
pub fn push_names(answer: &mut Answer, names: &[String]) -> Result<(), AllocError>
    ensures { OnOk result (answer.new ≡ answer.old ++ playlist_lines (map string_bytes names.now)) }
{
    for name in names {
        answer.pair("playlist", name.as_str())?;
    }
    Ok(())
}

/// A sticker (`sticker get`).
pub fn sticker_line(alloc: Global, name: &str, value: &str) -> Result<Answer, AllocError>
    ensures { IfOk result (λ answer. answer ≡ sticker_of name.now value.now) }
{
    let mut answer = Answer::new(alloc);
    push_sticker(alloc, &mut answer, name, value)?;
    Ok(answer)
}

/// The stickers of a song or a stored playlist, by their names (`sticker list`).
pub fn sticker_lines(alloc: Global, entries: &[Entry]) -> Result<Answer, AllocError>
    ensures { IfOk result (λ answer. answer ≡ stickers_of (map entry_texts entries.now)) }
{
    let mut answer = Answer::new(alloc);
    for entry in entries {
        push_sticker(alloc, &mut answer, entry.key.as_str(), entry.value.as_str())?;
    }
    Ok(answer)
}

pub(crate) fn push_sticker(
    alloc: Global,
    answer: &mut Answer,
    name: &str,
    value: &str,
) -> Result<(), AllocError>
    ensures { OnOk result (answer.new ≡ answer.old ++ sticker_of name.now value.now) }
{
    let text = format!(in alloc; "{name}={value}")?;
    answer.pair("sticker", text.as_str())
}
