//! A library that several owners hold.
ghost use Rattle.std.specs.Prelude.{◌≡◌, IfOk};

use crate::db::Db;
use std::alloc::{AllocError, Global};
use std::marker::Model;
use std::sync::Arc;

/// A handle to a library: a clone holds the same library, and no song is copied.
#[derive(Drop)]
pub struct SharedDb {
    db: Arc<Db, Global>,
}

impl Model for SharedDb {
    ghost use Rattle.std.specs.Prelude.{List};
    ghost use Rattle.std.specs.Arc.{arc_value};
    ghost use Rattle.mpd_text.specs.Songs.Song.{SongData};

    ghost Value = { List SongData };

    ghost view = { λ s. arc_value s.db };
}

impl SharedDb {
    /// The first handle to a library.
    pub fn new(alloc: Global, db: Db) -> Result<SharedDb, AllocError>
        ensures { IfOk result (λ shared. shared ≡ db) }
    {
        let db = Arc::new(alloc, db)?;
        Ok(SharedDb { db })
    }

    /// The library.
    pub fn db(&self) -> &Db
        ensures { result.now ≡ self.now }
    {
        &self.db
    }
}

impl Clone for SharedDb {
    ghost is_clone = { λ s copy. copy ≡ s };

    fn clone(&self) -> Result<SharedDb, AllocError> {
        let db = self.db.clone()?;
        Ok(SharedDb { db })
    }
}
