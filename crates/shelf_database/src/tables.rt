//! Whether a database has the tables of a shelf.

ghost use Rattle.std.specs.Prelude.{◌≡◌};
ghost use Rattle.std.specs.List.{list_any};
ghost use Rattle.shelf_database.specs.Tables.{has_tables, is_keyed as keyed, has_column as column_named, is_profile as is_profile_table, is_list as is_list_table, is_sticker as is_sticker_table, is_note as is_note_table, has_notes as has_note_tables};

use sqlite_schema::schema::{Schema, Table};

/// Whether the tables of profile 1 are there. Others, indexes and views may be there too.
pub(crate) fn are_tables(schema: &Schema) -> bool
    ensures { result ≡ has_tables schema.now }
{
    let tables = schema.tables.as_slice();
    has_profile(tables) && has_list(tables) && has_sticker(tables)
}

/// Whether the table is there that profile 2 has more.
pub(crate) fn has_notes(schema: &Schema) -> bool
    ensures { result ≡ has_note_tables schema.now }
{
    schema.tables.as_slice().iter().any(is_note)
}

fn has_profile(tables: &[Table]) -> bool
    ensures { result ≡ list_any is_profile_table tables.now }
{
    tables.iter().any(is_profile)
}

fn has_list(tables: &[Table]) -> bool
    ensures { result ≡ list_any is_list_table tables.now }
{
    tables.iter().any(is_list)
}

fn has_sticker(tables: &[Table]) -> bool
    ensures { result ≡ list_any is_sticker_table tables.now }
{
    tables.iter().any(is_sticker)
}

fn is_profile(table: &Table) -> bool
    ensures { result ≡ is_profile_table table.now }
{
    is_keyed(table, "profile", &[0])
        && has_column(table, 0, "one")
        && has_column(table, 1, "number")
}

fn is_list(table: &Table) -> bool
    ensures { result ≡ is_list_table table.now }
{
    is_keyed(table, "list", &[1]) && has_column(table, 0, "name") && has_column(table, 1, "uris")
}

fn is_sticker(table: &Table) -> bool
    ensures { result ≡ is_sticker_table table.now }
{
    is_keyed(table, "sticker", &[1, 2])
        && has_column(table, 0, "uri")
        && has_column(table, 1, "name")
        && has_column(table, 2, "value")
}

fn is_note(table: &Table) -> bool
    ensures { result ≡ is_note_table table.now }
{
    is_keyed(table, "note", &[1, 2, 3])
        && has_column(table, 0, "kind")
        && has_column(table, 1, "target")
        && has_column(table, 2, "name")
        && has_column(table, 3, "value")
}

/// Whether the table has the name, and a primary key of these columns, which are counted from 1.
fn is_keyed(table: &Table, name: &str, primary: &[usize]) -> bool
    ensures { result ≡ keyed name.now primary.now table.now }
{
    table.name.as_slice() == name.as_bytes() && table.primary.as_slice() == primary
}

/// Whether the column at the index, counted from 0, has the name.
fn has_column(table: &Table, at: usize, name: &str) -> bool
    ensures { result ≡ column_named table.now at name.now }
{
    match table.columns.get(at) {
        Some(column) => column.name.as_slice() == name.as_bytes(),
        None => false,
    }
}
