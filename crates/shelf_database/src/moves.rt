//! Changes of a list and of its stickers, each in one transaction.

ghost use Rattle.std.specs.Prelude.{◌≡◌, IfErr};
ghost use Rattle.sqlite.specs.Held.{state};
ghost use Rattle.shelf_database.specs.Tables.{IsShelf};
ghost use Rattle.shelf_database.specs.Moves.{AreCleared, AreCopied, BlamesRemove, BlamesRename, IsLaterThan, IsNameKept, IsRemoved, IsRenamed, IsRowKept, IsRowNamed, IsRowRemoved, IsUncopied, Removes, Renames, StopsRemove, StopsRename};
ghost use Rattle.shelf_database.specs.Opens.{IsStoppedOn};

use crate::database::fault;
use crate::notes::kind_text;
use shelf::{ShelfFault, StickerKind};
use sqlite::{Alter, Connection, Error, Transaction, params};

/// Gives the list another name, and its stickers with it.
pub(crate) fn rename_list<S: Alter>(
    connection: &mut Connection<S>,
    name: &str,
    new_name: &str,
) -> Result<(), ShelfFault>
    ensures changes { Renames S.Store connection.old connection.new name.now new_name.now result }
    ensures survives { IsLaterThan (state S.Store connection.old) (state S.Store connection.new) }
    ensures blamed { BlamesRename S.Store connection.old connection.new name.now new_name.now result }
{
    match rename_in_one(connection, name, new_name) {
        Ok(()) => Ok(()),
        Err(error) => Err(fault(error)),
    }
}

fn rename_in_one<S: Alter>(
    connection: &mut Connection<S>,
    name: &str,
    new_name: &str,
) -> Result<(), Error>
    ensures changes { Renames S.Store connection.old connection.new name.now new_name.now result }
    ensures survives { IsLaterThan (state S.Store connection.old) (state S.Store connection.new) }
    ensures blamed { StopsRename S.Store connection.old connection.new name.now new_name.now result }
{
    if !connection.is_autocommit() {
        return Err(Error::InvalidQuery);
    }
    let mut transaction = connection.transaction();
    rename_rows(&mut transaction, name, new_name)?;
    transaction.commit()
}

/// What the other name had, as left by others, goes first.
fn rename_rows<S: Alter>(
    transaction: &mut Transaction<'_, S>,
    name: &str,
    new_name: &str,
) -> Result<(), Error>
    ensures same_reference { transaction.new.conn.ghost_name ≡ transaction.old.conn.ghost_name }
    ensures leads { IsRenamed S.Store transaction.old.conn.now transaction.new.conn.now name.now new_name.now result }
    ensures blamed { IsNameKept S.Store transaction.old.conn.now transaction.new.conn.now name.now new_name.now result }
{
    rename_row(transaction, name, new_name)?;
    clear_notes(transaction, new_name)?;
    copy_notes(transaction, name, new_name)?;
    clear_notes(transaction, name)
}

fn rename_row<S: Alter>(
    transaction: &mut Transaction<'_, S>,
    name: &str,
    new_name: &str,
) -> Result<(), Error>
    ensures same_reference { transaction.new.conn.ghost_name ≡ transaction.old.conn.ghost_name }
    ensures leads { IsRowNamed S.Store transaction.old.conn.now transaction.new.conn.now name.now new_name.now result }
    ensures blamed { IsRowKept S.Store transaction.old.conn.now transaction.new.conn.now name.now new_name.now result }
{
    let rename = "UPDATE list SET name = ?2 WHERE name = ?1";
    transaction.execute(rename, params![name, new_name])?;
    Ok(())
}

/// Gives the stickers of a list to another name too, which has none.
fn copy_notes<S: Alter>(
    transaction: &mut Transaction<'_, S>,
    name: &str,
    new_name: &str,
) -> Result<(), Error>
    ensures same_reference { transaction.new.conn.ghost_name ≡ transaction.old.conn.ghost_name }
    ensures leads { AreCopied S.Store transaction.old.conn.now transaction.new.conn.now name.now new_name.now result }
    ensures blamed { IsUncopied S.Store transaction.old.conn.now transaction.new.conn.now name.now new_name.now result }
{
    let copy =
        "INSERT OR REPLACE INTO note (kind, target, name, value) SELECT kind, ?3, name, value FROM note WHERE kind = ?1 AND target = ?2";
    let word = kind_text(StickerKind::Playlist);
    transaction.execute(copy, params![word, name, new_name])?;
    Ok(())
}

/// Takes the stickers of a list away.
fn clear_notes<S: Alter>(transaction: &mut Transaction<'_, S>, name: &str) -> Result<(), Error>
    ensures same_reference { transaction.new.conn.ghost_name ≡ transaction.old.conn.ghost_name }
    ensures leads { AreCleared S.Store transaction.old.conn.now transaction.new.conn.now name.now result }
    ensures blamed { IfErr result (IsStoppedOn S.Store IsShelf transaction.old.conn.now transaction.new.conn.now) }
{
    let delete = "DELETE FROM note WHERE kind = ?1 AND target = ?2";
    let word = kind_text(StickerKind::Playlist);
    transaction.execute(delete, params![word, name])?;
    Ok(())
}

/// Takes the list away, and its stickers with it.
pub(crate) fn remove_list<S: Alter>(
    connection: &mut Connection<S>,
    name: &str,
) -> Result<(), ShelfFault>
    ensures changes { Removes S.Store connection.old connection.new name.now result }
    ensures blamed { BlamesRemove S.Store connection.old connection.new name.now result }
{
    match remove_in_one(connection, name) {
        Ok(()) => Ok(()),
        Err(error) => Err(fault(error)),
    }
}

fn remove_in_one<S: Alter>(connection: &mut Connection<S>, name: &str) -> Result<(), Error>
    ensures changes { Removes S.Store connection.old connection.new name.now result }
    ensures blamed { StopsRemove S.Store connection.old connection.new name.now result }
{
    if !connection.is_autocommit() {
        return Err(Error::InvalidQuery);
    }
    let mut transaction = connection.transaction();
    remove_rows(&mut transaction, name)?;
    transaction.commit()
}

fn remove_rows<S: Alter>(transaction: &mut Transaction<'_, S>, name: &str) -> Result<(), Error>
    ensures same_reference { transaction.new.conn.ghost_name ≡ transaction.old.conn.ghost_name }
    ensures leads { IsRemoved S.Store transaction.old.conn.now transaction.new.conn.now name.now result }
    ensures blamed { IfErr result (IsStoppedOn S.Store IsShelf transaction.old.conn.now transaction.new.conn.now) }
{
    remove_row(transaction, name)?;
    clear_notes(transaction, name)
}

fn remove_row<S: Alter>(transaction: &mut Transaction<'_, S>, name: &str) -> Result<(), Error>
    ensures same_reference { transaction.new.conn.ghost_name ≡ transaction.old.conn.ghost_name }
    ensures leads { IsRowRemoved S.Store transaction.old.conn.now transaction.new.conn.now name.now result }
    ensures blamed { IfErr result (IsStoppedOn S.Store IsShelf transaction.old.conn.now transaction.new.conn.now) }
{
    transaction.execute("DELETE FROM list WHERE name = ?1", params![name])?;
    Ok(())
}
