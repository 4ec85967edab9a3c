//! The songs and the stored playlists that have a sticker (MPD protocol reference, Stickers: `sticker find`).

ghost use Rattle.std.specs.Prelude.{◌≡◌, ◌++◌, IfOk, OnOk, string_bytes};
ghost use Rattle.std.specs.Option.{option_copied};
ghost use Rattle.shelf.specs.Entries.{entry_texts};
ghost use Rattle.song_search.specs.Truth.{front_of};
ghost use Rattle.shelf_contents.specs.Found.{compares as compares_lem, meets as meets_lem, is_asked as is_asked_lem, found_in_list as in_list, found_line, ShowsFound, ShowsFoundLists};

use crate::shown::push_sticker;
use mpd_command::{Comparison, Operator};
use mpd_text::Answer;
use shelf::Entry;
use song_db::Db;
use std::alloc::{AllocError, Global};

/// Of these stickers with a name, each under its URI: those of the song with `uri` or, where it is none, of
/// the songs under it, whose values meet the test. Each is shown by its URI and the sticker, in the given
/// order. All songs lie under the empty `uri`.
pub fn found_lines(
    alloc: Global,
    db: &Db,
    uri: &str,
    name: &str,
    entries: &[Entry],
    test: Option<&Comparison>,
) -> Result<Answer, AllocError>
    ensures { IfOk result (ShowsFound db.now uri.now name.now (option_copied test.entry) entries.now) }
{
    let is_song = db.get(uri).is_some();
    let front = front(alloc, uri)?;
    let mut answer = Answer::new(alloc);
    for entry in entries {
        let key = entry.key.as_str();
        let is_asked_for = is_asked(is_song, uri, front.as_str(), key)
            && meets(test, entry.value.as_str());
        if is_asked_for && db.get(key).is_some() {
            push_found(alloc, &mut answer, name, entry)?;
        }
    }
    Ok(answer)
}

/// What the URIs under a folder begin with.
fn front(alloc: Global, folder: &str) -> Result<String, AllocError>
    ensures { IfOk result (λ front. string_bytes front ≡ front_of folder.now) }
{
    if folder.is_empty() {
        return Ok(String::new(alloc));
    }
    format!(in alloc; "{folder}/")
}

/// Whether a URI is the one of the song that is asked for, or lies under the folder.
fn is_asked(is_song: bool, asked: &str, front: &str, uri: &str) -> bool
    requires { front.now ≡ front_of asked.now }
    ensures { result ≡ is_asked_lem is_song asked.now uri.now }
{
    if is_song {
        uri == asked
    } else {
        uri.starts_with(front)
    }
}

fn meets(test: Option<&Comparison>, value: &str) -> bool
    ensures { result ≡ meets_lem (option_copied test.entry) value.now }
{
    match test {
        Some(test) => compares(test.operator, value, test.value.as_str()),
        None => true,
    }
}

/// Whether a value is equal to another, less or greater, by bytes.
fn compares(operator: Operator, value: &str, other: &str) -> bool
    ensures { result ≡ compares_lem operator value.now other.now }
{
    let order = value.cmp(other);
    match operator {
        Operator::Equals => order.is_eq(),
        Operator::Less => order.is_lt(),
        Operator::Greater => order.is_gt(),
    }
}

fn push_found(
    alloc: Global,
    answer: &mut Answer,
    name: &str,
    entry: &Entry,
) -> Result<(), AllocError>
    ensures { OnOk result (answer.new ≡ answer.old ++ found_line name.now (entry_texts entry.now)) }
{
    answer.pair("file", entry.key.as_str())?;
    push_sticker(alloc, answer, name, entry.value.as_str())
}

/// Of these stickers with a name, each under its stored playlist: those whose values meet the test. Each is
/// shown by the playlist and the sticker, in the given order.
pub fn found_list_lines(
    alloc: Global,
    name: &str,
    entries: &[Entry],
    test: Option<&Comparison>,
) -> Result<Answer, AllocError>
    ensures { IfOk result (ShowsFoundLists name.now (option_copied test.entry) entries.now) }
{
    let mut answer = Answer::new(alloc);
    for entry in entries {
        let list = entry.key.as_str();
        push_found_list(alloc, &mut answer, list, name, entry.value.as_str(), test)?;
    }
    Ok(answer)
}

/// The same of the sticker of one stored playlist.
pub fn found_list_line(
    alloc: Global,
    list: &str,
    name: &str,
    value: &str,
    test: Option<&Comparison>,
) -> Result<Answer, AllocError>
    ensures { IfOk result (λ answer. answer ≡ in_list list.now name.now (option_copied test.entry) value.now) }
{
    let mut answer = Answer::new(alloc);
    push_found_list(alloc, &mut answer, list, name, value, test)?;
    Ok(answer)
}

/// Appends a stored playlist and its sticker, if the value meets the test.
fn push_found_list(
    alloc: Global,
    answer: &mut Answer,
    list: &str,
    name: &str,
    value: &str,
    test: Option<&Comparison>,
) -> Result<(), AllocError>
    ensures { OnOk result (answer.new ≡ answer.old ++ in_list list.now name.now (option_copied test.entry) value.now) }
{
    if meets(test, value) {
        answer.pair("playlist", list)?;
        push_sticker(alloc, answer, name, value)?;
    }
    Ok(())
}
