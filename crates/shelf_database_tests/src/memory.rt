//! A shelf over a database in memory.

use shelf::ShelfFault;
use shelf_database::SqlShelf;
use shelf_tests::cases::{CASES, Case, look_at};
use sqlite::{Connection, MemStore, params};
use std::alloc::Global;
use std::test::Fail;
use test_texts::{Recorder, wants};

pub(crate) fn over(
    alloc: Global,
    connection: Connection<MemStore>,
) -> Result<SqlShelf<MemStore>, ShelfFault> {
    match SqlShelf::over(alloc, connection) {
        Ok(shelf) => Ok(shelf),
        Err((fault, _)) => Err(fault),
    }
}

/// A database in memory, empty or with the tables of a shelf, that these statements were run on.
pub(crate) fn after(
    alloc: Global,
    is_shelf: bool,
    statements: &str,
) -> Result<Connection<MemStore>, Fail> {
    let mut connection = Connection::open_in_memory(alloc)?;
    if is_shelf {
        connection = over(alloc, connection)?.into_connection();
    }
    connection.execute_batch(statements)?;
    Ok(connection)
}

/// Looks at a shelf in these cases, one after the other. Here alone it is proved that this is a shelf: once,
/// and not in each test.
fn look_at_database(
    alloc: Global,
    shelf: &mut SqlShelf<MemStore>,
    cases: &[Case],
) -> Result<(), Fail> {
    for case in cases {
        look_at(alloc, shelf, *case)?;
    }
    Ok(())
}

/// Looks at an empty shelf over a database that these statements were run on.
fn look(alloc: Global, is_shelf: bool, statements: &str, cases: &[Case]) -> Result<(), Fail> {
    let Ok(mut shelf) = over(alloc, after(alloc, is_shelf, statements)?) else {
        return Err(Fail::new(statements));
    };
    look_at_database(alloc, &mut shelf, cases)
}

#[test]
fn every_case_over_a_database(rt: HostRuntime) -> Result<(), Fail> {
    for case in CASES.iter() {
        look(rt.alloc(), false, "", &[*case])?;
    }
    Ok(())
}

/// What is run on the tables of a shelf, each line on its own, so that they are refused.
const REFUSED_CHANGES: &str = "UPDATE profile SET number = 1
UPDATE profile SET number = 3
DELETE FROM profile
DROP TABLE list
DROP TABLE sticker
DROP TABLE note
DROP TABLE note; CREATE TABLE note (kind TEXT NOT NULL, target TEXT NOT NULL, name TEXT NOT NULL, value TEXT NOT NULL, PRIMARY KEY (kind, target))
DROP TABLE list; CREATE TABLE lists (name TEXT NOT NULL PRIMARY KEY, uris TEXT NOT NULL)
DROP TABLE list; CREATE TABLE list (name TEXT NOT NULL PRIMARY KEY, text TEXT NOT NULL)
DROP TABLE sticker; CREATE TABLE sticker (uri TEXT NOT NULL PRIMARY KEY, name TEXT NOT NULL, value TEXT NOT NULL)";

/// What is run on a database without tables, each line on its own, so that it is refused.
const REFUSED_TABLES: &str = "CREATE TABLE other (a INTEGER)
CREATE TABLE profile (one INTEGER PRIMARY KEY, number INTEGER); INSERT INTO profile VALUES (1, 1)
BEGIN";

fn is_refused(alloc: Global, is_shelf: bool, statements: &str) -> Result<(), Fail> {
    match over(alloc, after(alloc, is_shelf, statements)?) {
        Err(ShelfFault::StoreFault) => Ok(()),
        _ => Err(Fail::new(statements)),
    }
}

fn are_refused(alloc: Global, is_shelf: bool, lines: &str) -> Result<(), Fail> {
    for statements in lines.lines() {
        is_refused(alloc, is_shelf, statements)?;
    }
    Ok(())
}

#[test]
fn other_tables_are_refused(rt: HostRuntime) -> Result<(), Fail> {
    are_refused(rt.alloc(), true, REFUSED_CHANGES)?;
    are_refused(rt.alloc(), false, REFUSED_TABLES)
}

/// The profile's tables, made in another order.
const OTHER_ORDER: &str =
    "CREATE TABLE note (kind TEXT NOT NULL, target TEXT NOT NULL, name TEXT NOT NULL, value TEXT NOT NULL, PRIMARY KEY (kind, target, name));
    CREATE TABLE sticker (uri TEXT NOT NULL, name TEXT NOT NULL, value TEXT NOT NULL, PRIMARY KEY (uri, name));
    CREATE TABLE list (name TEXT NOT NULL PRIMARY KEY, uris TEXT NOT NULL);
    CREATE TABLE profile (one INTEGER PRIMARY KEY CHECK (one = 1), number INTEGER NOT NULL);
    INSERT INTO profile (one, number) VALUES (1, 2)";

/// The tables of profile 1, made in another order and with nothing in them.
const EMPTY_FIRST_PROFILE: &str =
    "CREATE TABLE sticker (uri TEXT NOT NULL, name TEXT NOT NULL, value TEXT NOT NULL, PRIMARY KEY (uri, name));
    CREATE TABLE list (name TEXT NOT NULL PRIMARY KEY, uris TEXT NOT NULL);
    CREATE TABLE profile (one INTEGER PRIMARY KEY CHECK (one = 1), number INTEGER NOT NULL);
    INSERT INTO profile (one, number) VALUES (1, 1)";

/// Whether there are tables of a shelf before, and what is run, so that an empty shelf is taken: the profile's
/// own number, its tables in another order, an index or a table more, and tables of profile 1, which are moved.
const TAKEN: [(bool, &str); 5] = [
    (true, "UPDATE profile SET number = 2"),
    (false, OTHER_ORDER),
    (true, "CREATE INDEX by_value ON sticker (value)"),
    (true, "CREATE TABLE other (a INTEGER)"),
    (false, EMPTY_FIRST_PROFILE),
];

#[test]
fn tables_of_a_shelf_are_taken(rt: HostRuntime) -> Result<(), Fail> {
    let cases = [Case::ListIsKept, Case::StickersRise];
    for (is_shelf, statements) in TAKEN.iter() {
        look(rt.alloc(), *is_shelf, statements, &cases)?;
    }
    Ok(())
}

/// The tables of profile 1 as the release before made them, with one list and one sticker.
pub(crate) const FIRST_PROFILE: &str =
    "CREATE TABLE profile (one INTEGER PRIMARY KEY CHECK (one = 1), number INTEGER NOT NULL);
    INSERT INTO profile (one, number) VALUES (1, 1);
    CREATE TABLE list (name TEXT NOT NULL PRIMARY KEY, uris TEXT NOT NULL);
    CREATE TABLE sticker (uri TEXT NOT NULL, name TEXT NOT NULL, value TEXT NOT NULL, PRIMARY KEY (uri, name));
    INSERT INTO list (name, uris) VALUES ('x', 's.wav
');
    INSERT INTO sticker (uri, name, value) VALUES ('a.wav', 'r', '5')";

/// The number that the first row of a query shows.
fn number_of(connection: &mut Connection<MemStore>, query: &str) -> Option<i64> {
    let Ok(rows) = connection.query_all(query, &[]) else {
        return None;
    };
    rows.first()?.get::<i64>(0).ok()
}

/// Adds the number that each query shows, with an end of line after it.
fn add_numbers(recorder: &mut Recorder, connection: &mut Connection<MemStore>, queries: &[&str]) {
    for query in queries {
        match number_of(connection, query) {
            Some(number) => recorder.add(format_args!("{number}\n")),
            None => recorder.fail(),
        }
    }
}

/// Whether a sticker was added.
fn add_sticker(alloc: Global, connection: &mut Connection<MemStore>, number: u32) -> bool {
    let insert = "INSERT INTO sticker (uri, name, value) VALUES (?1, 'r', ?1)";
    match format!(in alloc; "{number:05}.wav") {
        Ok(uri) => connection.execute(insert, params![uri.as_str()]).is_ok(),
        Err(_) => false,
    }
}

/// Whether so many stickers were added.
fn add_stickers(alloc: Global, connection: &mut Connection<MemStore>, count: u32) -> bool {
    let mut is_added = connection.execute_batch("BEGIN").is_ok();
    for number in 0..count {
        is_added = is_added && add_sticker(alloc, connection, number);
    }
    is_added && connection.execute_batch("COMMIT").is_ok()
}

/// Fails where queries show other numbers of a store of profile 1 that was moved, with so many stickers more of
/// one name.
fn look_at_moved(alloc: Global, more: u32, queries: &[&str], expected: &str) -> Result<(), Fail> {
    let mut recorder = Recorder::new(alloc);
    let mut connection = after(alloc, false, FIRST_PROFILE)?;
    if !add_stickers(alloc, &mut connection, more) {
        recorder.fail();
    }
    let mut connection = over(alloc, connection)?.into_connection();
    add_numbers(&mut recorder, &mut connection, queries);
    wants(recorder.into_text(), expected)
}

/// The profile is 2, the old table is empty, the sticker is in the new one, and the list stays.
const MOVED: &[&str] = &[
    "SELECT number FROM profile",
    "SELECT count(*) FROM sticker",
    "SELECT count(*) FROM note WHERE kind = 'song' AND target = 'a.wav' AND name = 'r' AND value = '5'",
    "SELECT count(*) FROM list WHERE name = 'x'",
];

/// The old table is empty, and the new one has all stickers, of which the first has another value.
const MANY_MOVED: &[&str] = &[
    "SELECT count(*) FROM sticker",
    "SELECT count(*) FROM note WHERE kind = 'song' AND name = 'r' AND value = target",
    "SELECT count(*) FROM note",
];

#[test]
fn stores_of_profile_1_are_moved(rt: HostRuntime) -> Result<(), Fail> {
    look_at_moved(rt.alloc(), 0, MOVED, "2\n0\n1\n1\n")?;
    look_at_moved(rt.alloc(), 10_000, MANY_MOVED, "0\n10000\n10001\n")
}
