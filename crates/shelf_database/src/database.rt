//! A shelf over a database.

ghost use Rattle.std.specs.Prelude.{◌≡◌, ◌⊎◌, OnOk, IfOk, IfErr, true, false};
ghost use Rattle.sqlite.specs.Held.{state};
ghost use Rattle.shelf.specs.declared.faults.ShelfFault.{ShelfFault};
ghost use Rattle.shelf_database.specs.Tables.{database_standing, MayHoldShelf};
ghost use Rattle.shelf_database.specs.Opens.{Opens, IsBlamed};
ghost use Rattle.shelf_database.specs.Settled.{leaves_what_it_shows};
ghost use Rattle.shelf_database.specs.Faults.{StoreFailed};

use crate::asks::{ask, change, first_text};
use crate::lists::has_list;
use crate::moves::{remove_list, rename_list};
use crate::notes::{delete_note, delete_notes, has_target, kind_text, note, notes_of, set_note};
use crate::profile::make_ready;
use crate::rows::{entries_of, texts_of};
use shelf::{Entry, Shelf, ShelfFault, StickerKind, UriList, is_list_name};
use sqlite::{Alter, Connection, Error, ErrorCode, params};
use std::alloc::Global;

/// A shelf that keeps its maps in the tables of a database.
pub struct SqlShelf<S: Alter + Drop> {
    alloc: Global,
    connection: Connection<S>,
}

// Written out, so that a proof goes through one call where it lets one go (docs/DECISIONS.md).
impl<S: Alter + Drop> Drop for SqlShelf<S> {
    fn drop(self) {
        let SqlShelf {
            alloc: _,
            connection: _,
        } = self;
    }
}

pub(crate) fn fault(error: Error) -> ShelfFault
    ensures named { (result ≡ ShelfFault.NoMemory) ⊎ (result ≡ ShelfFault.StoreFault) }
    ensures memory { error ≡ Error.SqliteFailure ErrorCode.OutOfMemory → result ≡ ShelfFault.NoMemory }
    ensures wanting { result ≡ ShelfFault.NoMemory → error ≡ Error.SqliteFailure ErrorCode.OutOfMemory }
{
    match error {
        Error::SqliteFailure(ErrorCode::OutOfMemory) => ShelfFault::NoMemory,
        _ => ShelfFault::StoreFault,
    }
}

impl<S: Alter + Drop> SqlShelf<S> {
    /// A shelf over the database of a connection outside a transaction. A database without tables gets those
    /// of profile 2, in one transaction. One with the tables of profile 1 and the number 1 is moved to
    /// profile 2, in one transaction too: each sticker becomes one of a song, and the table sticker is left
    /// empty. One that has those of profile 2 is taken where its number is 2; it may have more, in any order.
    /// Its lists and stickers are not read: where others wrote one that is no text, a call that asks for it
    /// answers `StoreFault`. The connection comes back with `StoreFault` where it lacks one of them, where
    /// making or moving them or reading the number is refused, or where it is another number. While it is
    /// open its database is then as it was.
    pub fn over(
        alloc: Global,
        mut connection: Connection<S>,
    ) -> Result<SqlShelf<S>, (ShelfFault, Connection<S>)>
        ensures opened { IfOk result (λ shelf. Opens (state S.Store connection) (state S.Store shelf.connection) true) }
        ensures refused { IfErr result (λ left. Opens (state S.Store connection) (state S.Store left.1) false) }
        ensures named { IfErr result (λ left. (left.0 ≡ ShelfFault.NoMemory) ⊎ (left.0 ≡ ShelfFault.StoreFault)) }
        ensures blamed { IfErr result (λ left. IsBlamed S.Store connection left.1 left.0) }
        ensures outside { OnOk result ((state S.Store connection).in_transaction ≡ false) }
        ensures taken { OnOk result (MayHoldShelf (state S.Store connection)) }
    {
        match make_ready(&mut connection) {
            Ok(()) => Ok(SqlShelf { alloc, connection }),
            Err(fault) => Err((fault, connection)),
        }
    }

    /// The connection, with all that was kept committed.
    pub fn into_connection(self) -> Connection<S>
        ensures { result ≡ self.connection }
    {
        let SqlShelf {
            alloc: _,
            connection,
        } = self;
        connection
    }
}

impl<S: Alter + Drop> Shelf for SqlShelf<S> {
    ghost standing = { λ s. database_standing (state S.Store s.connection) };

    ghost failed = { λ old new call. StoreFailed (state S.Store old.connection) (state S.Store new.connection) call };

    ghost settled = { λ s. leaves_what_it_shows _ (S.Store.settled s.connection.store) };

    fn lists(&mut self) -> Result<Vec<String>, ShelfFault> {
        let rows = ask(
            &mut self.connection,
            "SELECT name FROM list ORDER BY name",
            &[],
        )?;
        texts_of(self.alloc, &rows)
    }

    fn list(&mut self, name: &str) -> Result<UriList, ShelfFault> {
        let find = "SELECT uris FROM list WHERE name = ?1";
        match first_text(&mut self.connection, find, params![name])? {
            Some(text) => Ok(UriList::of_text(text)),
            None => Err(ShelfFault::NoSuchList),
        }
    }

    fn put(&mut self, name: &str, uris: &UriList) -> Result<(), ShelfFault> {
        if !is_list_name(name) {
            return Err(ShelfFault::BadName);
        }
        let put = "INSERT OR REPLACE INTO list (name, uris) VALUES (?1, ?2)";
        change(&mut self.connection, put, params![name, uris.text()])
    }

    fn create(&mut self, name: &str, uris: &UriList) -> Result<(), ShelfFault> {
        if has_list(&mut self.connection, name)? {
            return Err(ShelfFault::Exists);
        }
        self.put(name, uris)
    }

    fn rename(&mut self, name: &str, new_name: &str) -> Result<(), ShelfFault> {
        if !has_list(&mut self.connection, name)? {
            return Err(ShelfFault::NoSuchList);
        }
        if has_list(&mut self.connection, new_name)? {
            return Err(ShelfFault::Exists);
        }
        if !is_list_name(new_name) {
            return Err(ShelfFault::BadName);
        }
        rename_list(&mut self.connection, name, new_name)
    }

    fn remove(&mut self, name: &str) -> Result<(), ShelfFault> {
        if !has_list(&mut self.connection, name)? {
            return Err(ShelfFault::NoSuchList);
        }
        remove_list(&mut self.connection, name)
    }

    fn sticker(
        &mut self,
        kind: StickerKind,
        target: &str,
        name: &str,
    ) -> Result<String, ShelfFault> {
        if !has_target(&mut self.connection, kind, target)? {
            return Err(ShelfFault::NoSuchList);
        }
        note(&mut self.connection, kind, target, name)
    }

    fn set_sticker(
        &mut self,
        kind: StickerKind,
        target: &str,
        name: &str,
        value: &str,
    ) -> Result<(), ShelfFault> {
        if !has_target(&mut self.connection, kind, target)? {
            return Err(ShelfFault::NoSuchList);
        }
        set_note(&mut self.connection, kind, target, name, value)
    }

    fn delete_sticker(
        &mut self,
        kind: StickerKind,
        target: &str,
        name: &str,
    ) -> Result<(), ShelfFault> {
        if !has_target(&mut self.connection, kind, target)? {
            return Err(ShelfFault::NoSuchList);
        }
        delete_note(&mut self.connection, kind, target, name)
    }

    fn delete_stickers(&mut self, kind: StickerKind, target: &str) -> Result<(), ShelfFault> {
        if !has_target(&mut self.connection, kind, target)? {
            return Err(ShelfFault::NoSuchList);
        }
        delete_notes(&mut self.connection, kind, target)
    }

    fn stickers_of(&mut self, kind: StickerKind, target: &str) -> Result<Vec<Entry>, ShelfFault> {
        if !has_target(&mut self.connection, kind, target)? {
            return Err(ShelfFault::NoSuchList);
        }
        notes_of(self.alloc, &mut self.connection, kind, target)
    }

    fn find_stickers(&mut self, kind: StickerKind, name: &str) -> Result<Vec<Entry>, ShelfFault> {
        let find = "SELECT target, value FROM note WHERE kind = ?1 AND name = ?2 ORDER BY target";
        let word = kind_text(kind);
        let rows = ask(&mut self.connection, find, params![word, name])?;
        entries_of(self.alloc, &rows)
    }
}
