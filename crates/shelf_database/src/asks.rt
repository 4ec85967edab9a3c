//! One statement run on a connection.

ghost use Rattle.sqlite.specs.Values.{bound};
ghost use Rattle.shelf_database.specs.Asks.{SurvivesChange, SurvivesQuery, TellsFirst, TellsNoFirst, TellsRefusal, TellsRows, TellsRun};

use crate::database::fault;
use crate::rows::text_at;
use shelf::ShelfFault;
use sqlite::{Alter, Connection, Row};
use sqlite_value::value::ValueRef;

/// The rows that a query shows.
pub(crate) fn ask<S: Alter>(
    connection: &mut Connection<S>,
    query: &str,
    values: &[ValueRef<'_>],
) -> Result<Vec<Row>, ShelfFault>
    ensures shown { TellsRows S.Store connection.old connection.new query.now (bound values.now) result }
    ensures refused { TellsRefusal S.Store connection.old connection.new query.now (bound values.now) result }
    ensures survives { SurvivesQuery S.Store connection.old connection.new query.now (bound values.now) }
{
    match connection.query_all(query, values) {
        Ok(rows) => Ok(rows),
        Err(error) => Err(fault(error)),
    }
}

/// The text in the first column of the first row that a query shows, if it shows one.
pub(crate) fn first_text<S: Alter>(
    connection: &mut Connection<S>,
    query: &str,
    values: &[ValueRef<'_>],
) -> Result<Option<String>, ShelfFault>
    ensures shown { TellsFirst S.Store connection.old connection.new query.now (bound values.now) result }
    ensures refused { TellsNoFirst S.Store connection.old connection.new query.now (bound values.now) result }
    ensures survives { SurvivesQuery S.Store connection.old connection.new query.now (bound values.now) }
{
    let rows = ask(connection, query, values)?;
    match rows.first() {
        Some(row) => Ok(Some(text_at(row, 0)?)),
        None => Ok(None),
    }
}

/// Makes a change.
pub(crate) fn change<S: Alter>(
    connection: &mut Connection<S>,
    statement: &str,
    values: &[ValueRef<'_>],
) -> Result<(), ShelfFault>
    ensures ran { TellsRun S.Store connection.old connection.new statement.now (bound values.now) result }
    ensures survives { SurvivesChange S.Store connection.old connection.new statement.now (bound values.now) }
{
    match connection.execute(statement, values) {
        Ok(_) => Ok(()),
        Err(error) => Err(fault(error)),
    }
}
