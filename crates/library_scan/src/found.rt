//! What a scan has found so far, and what it has still to list.
ghost use Rattle.std.specs.Prelude.{◌≡◌, ◌+◌, ◌^◌, ◌≤◌, ◌<◌, [], ◌∷◌, length, All, IsTrue, IfOk, IfErr, IsErrOf, OnOk, slice_get};
ghost use Rattle.library_scan.specs.Scans.{IsFound};
ghost use Rattle.library_scan.specs.Steps.{is_song_uri};

use crate::content::Refusal;
use crate::fault::ScanFault;
use crate::scanned::Refused;
use mpd_text::{Song, Tag, Text};
use song_db::MAX_SONGS;
use std::alloc::{AllocError, Global};

/// The most names that a scan looks at.
pub const MAX_NAMES: u64 = 1 << 32;

/// What a scan has found so far.
#[derive(Drop)]
pub(crate) struct Found {
    pub(crate) songs: Vec<Song>,
    pub(crate) refused: Vec<Refused>,
    // The scanned folder, and each that was found below it.
    folders: Vec<Text>,
    names: u64,
    ghost sound: { All IsFound songs.items },
    ghost few: { length songs.items ≤ 100000 },
    ghost counted: { names ≤ 2 ^ 32 },
}

impl Found {
    // The struct has ghost fields, and so cannot name what these definitions say of it.
    ghost use Rattle.library_scan.specs.Trees.{Keeps, IsLimit, one_song, one_refused, one_folder};

    /// The scanned folder, whose URI is empty, and nothing else yet.
    pub(crate) fn new(alloc: Global) -> Result<Found, AllocError>
        ensures songs { IfOk result (λ found. found.songs.items ≡ []) }
        ensures refused { IfOk result (λ found. found.refused.items ≡ []) }
        ensures folders { IfOk result (λ found. found.folders.items ≡ [] ∷ []) }
        ensures names { IfOk result (λ found. found.names ≡ 0) }
    {
        let mut folders = Vec::new(alloc);
        folders.push(Text::new(alloc, "")?)?;
        Ok(Found {
            songs: Vec::new(alloc),
            refused: Vec::new(alloc),
            folders,
            names: 0,
        })
    }

    /// Counts a name, and gives how many there were; `TooMany` past the last.
    pub(crate) fn count_name(&mut self) -> Result<u64, ScanFault>
        ensures songs { self.new.songs ≡ self.old.songs }
        ensures refused { self.new.refused ≡ self.old.refused }
        ensures folders { self.new.folders ≡ self.old.folders }
        ensures names { IfOk result (λ n. n ≡ self.new.names) }
        ensures counts { OnOk result (self.new.names ≡ self.old.names + 1) }
        ensures over { IsErrOf result ScanFault.TooMany → self.old.names ≡ 2 ^ 32 }
        ensures cause { IfErr result (IsLimit self.new) }
    {
        if self.names >= MAX_NAMES {
            return Err(ScanFault::TooMany);
        }
        self.names += 1;
        Ok(self.names)
    }

    /// Keeps a song of these; `TooMany` where there are 100,000 already.
    pub(crate) fn add(&mut self, uri: Text, tags: Vec<Tag>, frames: u64) -> Result<(), ScanFault>
        requires uri { IsTrue (is_song_uri uri) }
        requires frames { 0 < frames }
        ensures keeps { OnOk result (Keeps (one_song uri tags.items frames) self.old self.new) }
        ensures names { self.new.names ≡ self.old.names }
        ensures over { IsErrOf result ScanFault.TooMany → length self.old.songs.items ≡ 100000 }
        ensures cause { IfErr result (IsLimit self.new) }
    {
        let Some(song) = Song::new(uri.into_string(), tags, frames) else {
            return Ok(());
        };
        if self.songs.len() >= MAX_SONGS {
            return Err(ScanFault::TooMany);
        }
        self.songs.push(song).map_err(AllocError::from)?;
        Ok(())
    }

    /// Keeps a file that is no song.
    pub(crate) fn refuse(&mut self, uri: Text, refusal: Refusal) -> Result<(), ScanFault>
        ensures keeps { OnOk result (Keeps (one_refused uri refusal) self.old self.new) }
        ensures names { self.new.names ≡ self.old.names }
        ensures cause { IfErr result (λ fault. fault ≡ ScanFault.NoMemory) }
    {
        self.refused
            .push(Refused { uri, refusal })
            .map_err(AllocError::from)?;
        Ok(())
    }

    /// Keeps a folder that is still to be listed.
    pub(crate) fn descend(&mut self, uri: Text) -> Result<(), ScanFault>
        ensures keeps { OnOk result (Keeps (one_folder uri) self.old self.new) }
        ensures names { self.new.names ≡ self.old.names }
        ensures cause { IfErr result (λ fault. fault ≡ ScanFault.NoMemory) }
    {
        self.folders.push(uri).map_err(AllocError::from)?;
        Ok(())
    }

    /// The folder of an index, in the order in which they were found.
    pub(crate) fn folder(&self, alloc: Global, at: usize) -> Result<Option<Text>, AllocError>
        ensures { IfOk result (λ folder. folder ≡ slice_get self.now.folders.items at) }
    {
        match self.folders.get(at) {
            Some(uri) => Ok(Some(Text::new(alloc, uri.as_str())?)),
            None => Ok(None),
        }
    }
}
