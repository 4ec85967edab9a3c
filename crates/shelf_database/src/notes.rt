//! Stickers, as rows of the table note. A call looks first whether their target is there.

ghost use Rattle.std.specs.Prelude.{◌≡◌, OnOk, IfErr};
ghost use Rattle.sqlite.specs.Held.{state};
ghost use Rattle.shelf_database.specs.Tables.{Reads, kind_text as text_of_kind};
ghost use Rattle.shelf_database.specs.Finds.{FailsToName, FindsNote, FindsNotes, FindsTarget, MissesNotes, ReadsAtMost, RefusesAsFailed};
ghost use Rattle.shelf_database.specs.Notes.{AnswersDeleteSticker, AnswersDeleteStickers, AnswersSetting, AnswersSticker, AnswersStickersOf, TellsSticker, TellsStickersOf, ChangesDeleteSticker, ChangesDeleteStickers, ChangesSetting, ChangesSticker, ChangesStickersOf};

use crate::asks::{ask, change, first_text};
use crate::lists::has_list;
use crate::rows::entries_of;
use shelf::{Entry, ShelfFault, StickerKind, is_sticker_name};
use sqlite::{Alter, Connection, params};
use std::alloc::Global;

/// How a kind is written in a row.
pub(crate) fn kind_text(kind: StickerKind) -> &'static str
    ensures { result.now ≡ text_of_kind kind }
{
    match kind {
        StickerKind::Song => "song",
        StickerKind::Playlist => "playlist",
    }
}

/// Whether what a sticker is of may have one: a song always, a stored playlist where it is there.
pub(crate) fn has_target<S: Alter>(
    connection: &mut Connection<S>,
    kind: StickerKind,
    target: &str,
) -> Result<bool, ShelfFault>
    ensures reads { OnOk result (ReadsAtMost S.Store connection.old connection.new) }
    ensures found { FindsTarget S.Store connection.old connection.new kind target.now result }
    ensures refused { IfErr result (RefusesAsFailed S.Store connection.old connection.new) }
{
    match kind {
        StickerKind::Song => Ok(true),
        StickerKind::Playlist => has_list(connection, target),
    }
}

/// Whether the target has a sticker of the name. A query that fails leaves the maps, whatever the call was
/// to do.
fn has_note<S: Alter>(
    connection: &mut Connection<S>,
    kind: StickerKind,
    target: &str,
    name: &str,
) -> Result<bool, ShelfFault>
    ensures reads { OnOk result (Reads (state S.Store connection.old) (state S.Store connection.new)) }
    ensures found { FindsNote S.Store connection.old connection.new kind target.now name.now result }
    ensures refused { IfErr result (RefusesAsFailed S.Store connection.old connection.new) }
{
    let find = "SELECT value FROM note WHERE kind = ?1 AND target = ?2 AND name = ?3";
    let word = kind_text(kind);
    let rows = ask(connection, find, params![word, target, name])?;
    Ok(rows.first().is_some())
}

/// Whether the target has a sticker. A query that fails, or a name that is no text, leaves the maps, whatever
/// the call was to do.
fn has_notes<S: Alter>(
    connection: &mut Connection<S>,
    kind: StickerKind,
    target: &str,
) -> Result<bool, ShelfFault>
    ensures reads { OnOk result (Reads (state S.Store connection.old) (state S.Store connection.new)) }
    ensures found { FindsNotes S.Store connection.old connection.new kind target.now result }
    ensures missing { MissesNotes S.Store connection.old connection.new kind target.now result }
    ensures refused { IfErr result (FailsToName S.Store connection.old connection.new kind target.now) }
{
    let find = "SELECT name FROM note WHERE kind = ?1 AND target = ?2 ORDER BY name";
    let word = kind_text(kind);
    let name = first_text(connection, find, params![word, target])?;
    Ok(name.is_some())
}

/// The text of a sticker.
pub(crate) fn note<S: Alter>(
    connection: &mut Connection<S>,
    kind: StickerKind,
    target: &str,
    name: &str,
) -> Result<String, ShelfFault>
    ensures answers { AnswersSticker S.Store connection.old connection.new kind target.now name.now result }
    ensures value { TellsSticker S.Store connection.old connection.new kind target.now name.now result }
    ensures changes { ChangesSticker S.Store connection.old connection.new kind target.now name.now result }
{
    let find = "SELECT value FROM note WHERE kind = ?1 AND target = ?2 AND name = ?3";
    let word = kind_text(kind);
    match first_text(connection, find, params![word, target, name])? {
        Some(value) => Ok(value),
        None => Err(ShelfFault::NoSticker),
    }
}

/// Keeps a text under the target and the name.
pub(crate) fn set_note<S: Alter>(
    connection: &mut Connection<S>,
    kind: StickerKind,
    target: &str,
    name: &str,
    value: &str,
) -> Result<(), ShelfFault>
    ensures answers { AnswersSetting S.Store connection.old connection.new kind target.now name.now value.now result }
    ensures changes { ChangesSetting S.Store connection.old connection.new kind target.now name.now value.now result }
{
    if !is_sticker_name(name) {
        return Err(ShelfFault::BadName);
    }
    let set = "INSERT OR REPLACE INTO note (kind, target, name, value) VALUES (?1, ?2, ?3, ?4)";
    let word = kind_text(kind);
    change(connection, set, params![word, target, name, value])
}

/// Takes a sticker away.
pub(crate) fn delete_note<S: Alter>(
    connection: &mut Connection<S>,
    kind: StickerKind,
    target: &str,
    name: &str,
) -> Result<(), ShelfFault>
    ensures answers { AnswersDeleteSticker S.Store connection.old connection.new kind target.now name.now result }
    ensures changes { ChangesDeleteSticker S.Store connection.old connection.new kind target.now name.now result }
{
    if !has_note(connection, kind, target, name)? {
        return Err(ShelfFault::NoSticker);
    }
    let delete = "DELETE FROM note WHERE kind = ?1 AND target = ?2 AND name = ?3";
    let word = kind_text(kind);
    change(connection, delete, params![word, target, name])
}

/// Takes all stickers of a target away.
pub(crate) fn delete_notes<S: Alter>(
    connection: &mut Connection<S>,
    kind: StickerKind,
    target: &str,
) -> Result<(), ShelfFault>
    ensures answers { AnswersDeleteStickers S.Store connection.old connection.new kind target.now result }
    ensures changes { ChangesDeleteStickers S.Store connection.old connection.new kind target.now result }
{
    if !has_notes(connection, kind, target)? {
        return Err(ShelfFault::NoSticker);
    }
    let delete = "DELETE FROM note WHERE kind = ?1 AND target = ?2";
    let word = kind_text(kind);
    change(connection, delete, params![word, target])
}

/// The names and texts of a target's stickers.
pub(crate) fn notes_of<S: Alter>(
    alloc: Global,
    connection: &mut Connection<S>,
    kind: StickerKind,
    target: &str,
) -> Result<Vec<Entry>, ShelfFault>
    ensures answers { AnswersStickersOf S.Store connection.old connection.new kind target.now result }
    ensures entries { TellsStickersOf S.Store connection.old connection.new kind target.now result }
    ensures changes { ChangesStickersOf S.Store connection.old connection.new kind target.now result }
{
    let find = "SELECT name, value FROM note WHERE kind = ?1 AND target = ?2 ORDER BY name";
    let word = kind_text(kind);
    let rows = ask(connection, find, params![word, target])?;
    entries_of(alloc, &rows)
}
