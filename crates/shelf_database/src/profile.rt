//! The tables of a shelf in a database: read where they are, made where there are none, and moved where they
//! are those of profile 1.

ghost use Rattle.std.specs.Prelude.{◌≡◌, ◌⊎◌, ◌↔◌, [], ◌∷◌, pos, Some, IsTrue, IfErr, OnOk, OnErr, is_ok, false};
ghost use Rattle.sqlite.specs.Held.{state};
ghost use Rattle.shelf.specs.declared.faults.ShelfFault.{ShelfFault};
ghost use Rattle.shelf_database.specs.Asks.{TellsRows};
ghost use Rattle.shelf_database.specs.Tables.{no_schema, number_of, has_tables, MayHoldShelf, Reads};
ghost use Rattle.shelf_database.specs.Opens.{BlamesMove, BlamesNumber, BlamesQuery, BlamesTables, Clears, CopiesStickers, HasBoth, HasFormer, HasLists, HasMoved, HasNoNotes, HasNoNumber, HasNothing, HasProfile, HasRows, HasStickers, HasTables, IsBlamed, IsFormerShelf, IsStoppedOn, IsStuck, IsStuckOn, IsUnasked, IsUnmade, IsUnmoved, IsUnread, LeadsBy, LeadsFrom, MakesNotes, Moves, NotesNumber, Opens, OpensEmpty, OpensFilled, OpensFormer, OpensNoted, ReadsFormer, Renumbers, RunInside, StopsMove, TellsNumber, clear_query, copy_query, forget_query, insert_query, move_texts, note_query, number_query, renumber_texts};

use crate::database::fault;
use crate::tables::{are_tables, has_notes};
use shelf::ShelfFault;
use sqlite::{Alter, Connection, Error, ErrorCode, Row, Transaction};

/// Makes the tables where there are none, or reads the number of the profile.
pub(crate) fn make_ready<S: Alter>(connection: &mut Connection<S>) -> Result<(), ShelfFault>
    ensures opens { Opens (state S.Store connection.old) (state S.Store connection.new) (is_ok result) }
    ensures named { IfErr result (λ fault. (fault ≡ ShelfFault.NoMemory) ⊎ (fault ≡ ShelfFault.StoreFault)) }
    ensures blamed { IfErr result (IsBlamed S.Store connection.old connection.new) }
    ensures outside { OnOk result ((state S.Store connection.old).in_transaction ≡ false) }
    ensures taken { OnOk result (MayHoldShelf (state S.Store connection.old)) }
{
    if !connection.is_autocommit() {
        return Err(ShelfFault::StoreFault);
    }
    if !is_blank(connection) {
        return read_profile(connection);
    }
    match make_tables(connection) {
        Ok(()) => Ok(()),
        Err(error) => Err(fault(error)),
    }
}

/// Whether the database has no table, nor anything else.
fn is_blank<S: Alter>(connection: &Connection<S>) -> bool
    ensures { IsTrue result ↔ ((state S.Store connection.now).now.schema ≡ no_schema) }
{
    let schema = connection.schema();
    schema.tables.is_empty() && schema.indexes.is_empty() && schema.views.is_empty()
}

/// Looks for the tables, and reads the number of the profile; tables of profile 1 are moved.
fn read_profile<S: Alter>(connection: &mut Connection<S>) -> Result<(), ShelfFault>
    ensures opens { OpensFilled (state S.Store connection.old) (state S.Store connection.new) (is_ok result) }
    ensures named { IfErr result (λ fault. (fault ≡ ShelfFault.NoMemory) ⊎ (fault ≡ ShelfFault.StoreFault)) }
    ensures blamed { IfErr result (IsUnread (state S.Store connection.old) (state S.Store connection.new)) }
    ensures unmoved { IfErr result (IsUnmoved (state S.Store connection.old) (state S.Store connection.new)) }
    ensures other { BlamesTables S.Store connection.old connection.new result }
    ensures taken { OnOk result (IsTrue (has_tables (state S.Store connection.old).now.schema)) }
{
    if !are_tables(connection.schema()) {
        return Err(ShelfFault::StoreFault);
    }
    if has_notes(connection.schema()) {
        return read_number(connection);
    }
    move_profile(connection)
}

/// Reads the number of the profile, which has to be 2.
fn read_number<S: Alter>(connection: &mut Connection<S>) -> Result<(), ShelfFault>
    ensures opens { OpensNoted (state S.Store connection.old) (state S.Store connection.new) (is_ok result) }
    ensures named { IfErr result (λ fault. (fault ≡ ShelfFault.NoMemory) ⊎ (fault ≡ ShelfFault.StoreFault)) }
    ensures blamed { IfErr result (IsUnread (state S.Store connection.old) (state S.Store connection.new)) }
    ensures other { BlamesNumber (state S.Store connection.old) (state S.Store connection.new) (pos 2) result }
{
    let rows = numbers(connection)?;
    is_number(&rows, 2)
}

/// What the rows of the profile show.
fn numbers<S: Alter>(connection: &mut Connection<S>) -> Result<Vec<Row>, ShelfFault>
    ensures reads { OnOk result (Reads (state S.Store connection.old) (state S.Store connection.new)) }
    ensures spares { OnOk result (ReadsFormer (state S.Store connection.old) (state S.Store connection.new)) }
    ensures shown { TellsNumber (state S.Store connection.old) (state S.Store connection.new) result }
    ensures failed { OnErr result (OpensFilled (state S.Store connection.old) (state S.Store connection.new) false) }
    ensures named { IfErr result (λ fault. (fault ≡ ShelfFault.NoMemory) ⊎ (fault ≡ ShelfFault.StoreFault)) }
    ensures blamed { IfErr result (IsUnasked (state S.Store connection.old) (state S.Store connection.new)) }
    ensures told { TellsRows S.Store connection.old connection.new number_query [] result }
    ensures other { BlamesQuery (state S.Store connection.old) (state S.Store connection.new) result }
{
    match connection.query_all("SELECT number FROM profile", &[]) {
        Ok(rows) => Ok(rows),
        Err(error) => Err(fault(error)),
    }
}

/// Whether the one row shows the number.
fn is_number(rows: &[Row], number: i64) -> Result<(), ShelfFault>
    ensures refused { number_of 0 rows.now ≡ Some number → IfErr result (λ fault. fault ≡ ShelfFault.NoMemory) }
    ensures accepted { OnOk result (number_of 0 rows.now ≡ Some number) }
    ensures named { IfErr result (λ fault. (fault ≡ ShelfFault.NoMemory) ⊎ (fault ≡ ShelfFault.StoreFault)) }
{
    if rows.len() != 1 {
        return Err(ShelfFault::StoreFault);
    }
    let Some(row) = rows.first() else {
        return Err(ShelfFault::StoreFault);
    };
    match row.get::<i64>(0) {
        Ok(found) => same_number(found, number),
        Err(error) => Err(fault(error)),
    }
}

fn same_number(found: i64, number: i64) -> Result<(), ShelfFault>
    ensures refused { found ≡ number → IfErr result (λ fault. fault ≡ ShelfFault.NoMemory) }
    ensures accepted { OnOk result (found ≡ number) }
    ensures named { IfErr result (λ fault. (fault ≡ ShelfFault.NoMemory) ⊎ (fault ≡ ShelfFault.StoreFault)) }
{
    if found == number {
        return Ok(());
    }
    Err(ShelfFault::StoreFault)
}

/// Makes the tables, in one transaction.
fn make_tables<S: Alter>(connection: &mut Connection<S>) -> Result<(), Error>
    ensures opens { OpensEmpty (state S.Store connection.old) (state S.Store connection.new) (is_ok result) }
    ensures blamed { IfErr result (IsUnmade (state S.Store connection.old) (state S.Store connection.new)) }
{
    if !connection.is_autocommit() {
        return Err(Error::InvalidQuery);
    }
    let mut transaction = connection.transaction();
    fill(&mut transaction)?;
    transaction.commit()
}

/// The number is noted last.
fn fill<S: Alter>(transaction: &mut Transaction<'_, S>) -> Result<(), Error>
    ensures same_reference { transaction.new.conn.ghost_name ≡ transaction.old.conn.ghost_name }
    ensures leads { LeadsFrom S.Store HasNothing HasTables transaction.old.conn.now transaction.new.conn.now result }
    ensures blamed { IfErr result (IsStoppedOn S.Store HasNothing transaction.old.conn.now transaction.new.conn.now) }
{
    make_former(transaction)?;
    make_notes(transaction)?;
    note_number(transaction)
}

/// The tables that profile 1 has too.
fn make_former<S: Alter>(transaction: &mut Transaction<'_, S>) -> Result<(), Error>
    ensures same_reference { transaction.new.conn.ghost_name ≡ transaction.old.conn.ghost_name }
    ensures leads { LeadsFrom S.Store HasNothing HasStickers transaction.old.conn.now transaction.new.conn.now result }
    ensures blamed { IfErr result (IsStoppedOn S.Store HasNothing transaction.old.conn.now transaction.new.conn.now) }
{
    make_profile(transaction)?;
    make_lists(transaction)?;
    make_stickers(transaction)
}

fn make_profile<S: Alter>(transaction: &mut Transaction<'_, S>) -> Result<(), Error>
    ensures same_reference { transaction.new.conn.ghost_name ≡ transaction.old.conn.ghost_name }
    ensures leads { LeadsFrom S.Store HasNothing HasProfile transaction.old.conn.now transaction.new.conn.now result }
    ensures blamed { IfErr result (IsStoppedOn S.Store HasNothing transaction.old.conn.now transaction.new.conn.now) }
{
    transaction.execute(
        "CREATE TABLE profile (one INTEGER PRIMARY KEY CHECK (one = 1), number INTEGER NOT NULL)",
        &[],
    )?;
    Ok(())
}

fn make_lists<S: Alter>(transaction: &mut Transaction<'_, S>) -> Result<(), Error>
    ensures same_reference { transaction.new.conn.ghost_name ≡ transaction.old.conn.ghost_name }
    ensures leads { LeadsFrom S.Store HasProfile HasLists transaction.old.conn.now transaction.new.conn.now result }
    ensures blamed { IfErr result (IsStoppedOn S.Store HasProfile transaction.old.conn.now transaction.new.conn.now) }
{
    transaction.execute(
        "CREATE TABLE list (name TEXT NOT NULL PRIMARY KEY, uris TEXT NOT NULL)",
        &[],
    )?;
    Ok(())
}

fn make_stickers<S: Alter>(transaction: &mut Transaction<'_, S>) -> Result<(), Error>
    ensures same_reference { transaction.new.conn.ghost_name ≡ transaction.old.conn.ghost_name }
    ensures leads { LeadsFrom S.Store HasLists HasStickers transaction.old.conn.now transaction.new.conn.now result }
    ensures blamed { IfErr result (IsStoppedOn S.Store HasLists transaction.old.conn.now transaction.new.conn.now) }
{
    transaction.execute(
        "CREATE TABLE sticker (uri TEXT NOT NULL, name TEXT NOT NULL, value TEXT NOT NULL, PRIMARY KEY (uri, name))",
        &[],
    )?;
    Ok(())
}

fn make_notes<S: Alter>(transaction: &mut Transaction<'_, S>) -> Result<(), Error>
    ensures same_reference { transaction.new.conn.ghost_name ≡ transaction.old.conn.ghost_name }
    ensures leads { LeadsBy S.Store HasFormer MakesNotes transaction.old.conn.now transaction.new.conn.now result }
    ensures blamed { IfErr result (IsStoppedOn S.Store HasFormer transaction.old.conn.now transaction.new.conn.now) }
    ensures ran { RunInside S.Store transaction.old.conn.now transaction.new.conn.now (note_query ∷ []) result }
{
    transaction.execute(
        "CREATE TABLE note (kind TEXT NOT NULL, target TEXT NOT NULL, name TEXT NOT NULL, value TEXT NOT NULL, PRIMARY KEY (kind, target, name))",
        &[],
    )?;
    Ok(())
}

fn note_number<S: Alter>(transaction: &mut Transaction<'_, S>) -> Result<(), Error>
    ensures same_reference { transaction.new.conn.ghost_name ≡ transaction.old.conn.ghost_name }
    ensures leads { LeadsBy S.Store HasNoNumber NotesNumber transaction.old.conn.now transaction.new.conn.now result }
    ensures blamed { IfErr result (IsStoppedOn S.Store HasNoNumber transaction.old.conn.now transaction.new.conn.now) }
    ensures ran { RunInside S.Store transaction.old.conn.now transaction.new.conn.now (insert_query ∷ []) result }
{
    transaction.execute("INSERT INTO profile (one, number) VALUES (1, 2)", &[])?;
    Ok(())
}

/// Moves tables of profile 1, whose number has to be 1, to profile 2.
fn move_profile<S: Alter>(connection: &mut Connection<S>) -> Result<(), ShelfFault>
    ensures opens { OpensFormer (state S.Store connection.old) (state S.Store connection.new) (is_ok result) }
    ensures named { IfErr result (λ fault. (fault ≡ ShelfFault.NoMemory) ⊎ (fault ≡ ShelfFault.StoreFault)) }
    ensures unmoved { IfErr result (IsUnmoved (state S.Store connection.old) (state S.Store connection.new)) }
    ensures other { BlamesMove S.Store connection.old connection.new result }
{
    let rows = numbers(connection)?;
    is_number(&rows, 1)?;
    match move_in_one(connection) {
        Ok(()) => Ok(()),
        Err(error) => Err(fault(error)),
    }
}

/// Makes the table note, and each row of sticker one of a song there, in one transaction.
fn move_in_one<S: Alter>(connection: &mut Connection<S>) -> Result<(), Error>
    ensures moves { Moves S.Store connection.old connection.new result }
    ensures blamed { IfErr result (IsStuck (state S.Store connection.old) (state S.Store connection.new)) }
    ensures other { IfErr result (StopsMove S.Store connection.old connection.new) }
{
    if !connection.is_autocommit() {
        return Err(Error::InvalidQuery);
    }
    let mut transaction = connection.transaction();
    move_rows(&mut transaction)?;
    transaction.commit()
}

fn move_rows<S: Alter>(transaction: &mut Transaction<'_, S>) -> Result<(), Error>
    ensures same_reference { transaction.new.conn.ghost_name ≡ transaction.old.conn.ghost_name }
    ensures leads { LeadsBy S.Store IsFormerShelf HasMoved transaction.old.conn.now transaction.new.conn.now result }
    ensures blamed { IfErr result (IsStuckOn S.Store transaction.old.conn.now transaction.new.conn.now IsFormerShelf) }
    ensures ran { RunInside S.Store transaction.old.conn.now transaction.new.conn.now move_texts result }
{
    make_notes(transaction)?;
    copy_stickers(transaction)?;
    renumber(transaction)
}

/// Each sticker is one of a song.
fn copy_stickers<S: Alter>(transaction: &mut Transaction<'_, S>) -> Result<(), Error>
    ensures same_reference { transaction.new.conn.ghost_name ≡ transaction.old.conn.ghost_name }
    ensures leads { LeadsBy S.Store HasNoNotes CopiesStickers transaction.old.conn.now transaction.new.conn.now result }
    ensures blamed { IfErr result (IsStuckOn S.Store transaction.old.conn.now transaction.new.conn.now HasNoNotes) }
    ensures ran { RunInside S.Store transaction.old.conn.now transaction.new.conn.now (copy_query ∷ []) result }
{
    transaction.execute(
        "INSERT OR REPLACE INTO note (kind, target, name, value) SELECT 'song', uri, name, value FROM sticker",
        &[],
    )?;
    Ok(())
}

/// Empties the table sticker, and notes the number 2 in place of the one that is there.
fn renumber<S: Alter>(transaction: &mut Transaction<'_, S>) -> Result<(), Error>
    ensures same_reference { transaction.new.conn.ghost_name ≡ transaction.old.conn.ghost_name }
    ensures leads { LeadsBy S.Store HasBoth Renumbers transaction.old.conn.now transaction.new.conn.now result }
    ensures blamed { IfErr result (IsStoppedOn S.Store HasBoth transaction.old.conn.now transaction.new.conn.now) }
    ensures ran { RunInside S.Store transaction.old.conn.now transaction.new.conn.now renumber_texts result }
{
    clear_stickers(transaction)?;
    clear_number(transaction)?;
    note_number(transaction)
}

fn clear_stickers<S: Alter>(transaction: &mut Transaction<'_, S>) -> Result<(), Error>
    ensures same_reference { transaction.new.conn.ghost_name ≡ transaction.old.conn.ghost_name }
    ensures leads { LeadsBy S.Store (HasRows 3) (Clears 3) transaction.old.conn.now transaction.new.conn.now result }
    ensures blamed { IfErr result (IsStoppedOn S.Store (HasRows 3) transaction.old.conn.now transaction.new.conn.now) }
    ensures ran { RunInside S.Store transaction.old.conn.now transaction.new.conn.now (clear_query ∷ []) result }
{
    transaction.execute("DELETE FROM sticker", &[])?;
    Ok(())
}

fn clear_number<S: Alter>(transaction: &mut Transaction<'_, S>) -> Result<(), Error>
    ensures same_reference { transaction.new.conn.ghost_name ≡ transaction.old.conn.ghost_name }
    ensures leads { LeadsBy S.Store (HasRows 0) (Clears 0) transaction.old.conn.now transaction.new.conn.now result }
    ensures blamed { IfErr result (IsStoppedOn S.Store (HasRows 0) transaction.old.conn.now transaction.new.conn.now) }
    ensures ran { RunInside S.Store transaction.old.conn.now transaction.new.conn.now (forget_query ∷ []) result }
{
    transaction.execute("DELETE FROM profile", &[])?;
    Ok(())
}
