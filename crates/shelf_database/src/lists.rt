//! Stored playlists, as rows of the table list.

ghost use Rattle.std.specs.Prelude.{OnOk, IfErr};
ghost use Rattle.sqlite.specs.Held.{state};
ghost use Rattle.shelf_database.specs.Tables.{Reads};
ghost use Rattle.shelf_database.specs.Finds.{FindsList, RefusesAsFailed};

use crate::asks::ask;
use shelf::ShelfFault;
use sqlite::{Alter, Connection, params};

/// Whether a list has the name. A query that fails leaves the maps, whatever the call was to do.
pub(crate) fn has_list<S: Alter>(
    connection: &mut Connection<S>,
    name: &str,
) -> Result<bool, ShelfFault>
    ensures reads { OnOk result (Reads (state S.Store connection.old) (state S.Store connection.new)) }
    ensures found { FindsList S.Store connection.old connection.new name.now result }
    ensures refused { IfErr result (RefusesAsFailed S.Store connection.old connection.new) }
{
    let find = "SELECT name FROM list WHERE name = ?1";
    let rows = ask(connection, find, params![name])?;
    Ok(rows.first().is_some())
}
