//! A folder of the system's files.
ghost use Rattle.std.specs.Prelude.{◌≡◌, None, [], IfOk, IfErr, IsTrue, MatchResult, ◌↔◌};
ghost use Rattle.std.specs.IoError.{error_kind};
ghost use Rattle.counted_devices.specs.CallCounts.{no_calls};
ghost use Rattle.library_scan.specs.Seeing.{Shows, IsEntryOf, IsTold, IsShutBy};

use crate::content::{Content, content_if_open};
use crate::disk::{Disk, Entry};
use crate::path::joined;
use crate::step::Kind;
use counted_devices::{CallCounts, Failing, ReadSeek};
use mpd_text::Text;
use song_db::Rate;
use std::alloc::{AllocError, Global};
use std::fs::{DirEntry, Metadata, ReadDir};
use std::io::ErrorKind;
use std::rt::Files;
use std::{fs, io};

/// A folder of the system's files, with counts of how the calls to them end. A name that is no text counts as a
/// failure.
#[derive(Drop)]
pub struct SystemDisk<'a, R: Files + AllocGlobal + Clone + Drop> {
    rt: &'a R,
    root: &'a str,
    listing: Option<ReadDir<R, Global>>,
    call_counts: CallCounts,
}

impl<'a, R: Files + AllocGlobal + Clone + Drop> SystemDisk<'a, R> {
    /// The folder of this path, of which nothing was asked yet.
    pub fn new(rt: &'a R, root: &'a str) -> SystemDisk<'a, R>
        ensures { result.call_counts ≡ no_calls }
    {
        SystemDisk {
            rt,
            root,
            listing: None,
            call_counts: CallCounts::new(),
        }
    }
}

impl<R: Files + AllocGlobal + Clone + Drop> Failing for SystemDisk<'_, R> {
    ghost call_counts = { λ disk. disk.call_counts };

    fn counts(&self) -> CallCounts {
        self.call_counts
    }
}

// No tree of the system's files is known, since others may write there.
impl<R: Files + AllocGlobal + Clone + Drop> Disk for SystemDisk<'_, R>
where
    R::File: ReadSeek,
{
    ghost known_tree = { λ _. None };

    ghost left = { λ _. [] };

    fn open_folder(&mut self, alloc: Global, uri: &str) -> Result<bool, AllocError> {
        let path = joined(alloc, self.root, uri)?;
        let opened = fs::read_dir(self.rt, path.as_str());
        self.call_counts.count_result(&opened);
        match opened {
            Ok(listing) => {
                self.listing = Some(listing);
                Ok(true)
            }
            Err(fault) => shut_by(&fault),
        }
    }

    fn next_entry(&mut self, alloc: Global) -> Result<Option<Entry>, AllocError> {
        let Some(listing) = &mut self.listing else {
            return Ok(None);
        };
        let Some(told) = listing.next() else {
            return Ok(None);
        };
        self.call_counts.count_result(&told);
        Ok(Some(entry_of(alloc, &told)?))
    }

    fn look(&mut self, alloc: Global, uri: &str) -> Result<Kind, AllocError> {
        let path = joined(alloc, self.root, uri)?;
        let told = fs::metadata(self.rt, path.as_str());
        self.call_counts.count_result(&told);
        Ok(kind_of(&told))
    }

    fn read(
        &mut self,
        alloc: Global,
        uri: &str,
        rate: &Rate,
        everyday: bool,
    ) -> Result<Content, AllocError> {
        let path = joined(alloc, self.root, uri)?;
        let opened = fs::open(self.rt, path.as_str());
        content_if_open(alloc, opened, rate, everyday, &mut self.call_counts)
    }
}

/// What an error of an opening says of a folder: it cannot be listed.
fn shut_by(fault: &io::Error) -> Result<bool, AllocError>
    ensures { IsShutBy (error_kind fault.now) result }
{
    match fault.kind() {
        ErrorKind::OutOfMemory => Err(AllocError),
        _ => Ok(false),
    }
}

/// What a folder tells by this: a name, or by an error a name that is no text, or that the listing breaks off.
fn entry_of<R: Files>(
    alloc: Global,
    told: &io::Result<DirEntry<R, Global>>,
) -> Result<Entry, AllocError>
    ensures { IsTold told.now result }
{
    match told {
        Ok(entry) => Ok(Entry::Name(Text::new(alloc, entry.file_name())?)),
        Err(fault) => entry_by(fault),
    }
}

fn entry_by(fault: &io::Error) -> Result<Entry, AllocError>
    ensures { IsEntryOf (error_kind fault.now) result }
{
    match fault.kind() {
        ErrorKind::OutOfMemory => Err(AllocError),
        ErrorKind::InvalidFilename => Ok(Entry::NotText),
        _ => Ok(Entry::Broken),
    }
}

/// What the system says that a path is, by what it told of it.
fn kind_of(told: &io::Result<Metadata>) -> Kind
    ensures { Shows told.now result }
{
    match told {
        Ok(metadata) if metadata.is_dir() => Kind::Folder,
        Ok(metadata) if metadata.is_file() => Kind::File,
        Ok(_) => Kind::Other,
        Err(_) => Kind::Unseen,
    }
}
