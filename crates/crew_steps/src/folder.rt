//! A folder of songs.
ghost use Rattle.std.specs.Prelude.{ℕ, ◌≡◌, List, Result, IfOk, string_bytes};
ghost use Rattle.std.specs.IoError.{error_kind};
ghost use Rattle.counted_devices.specs.CallCounts.{no_calls};
ghost use Rattle.crew_steps.specs.Folders.{AnswersBelow, fault_of, path_below as path_below_lem};
ghost use Rattle.crew_steps.specs.declared.song_source.SongFault.{SongFault};

use crate::song_source::{SongFault, SongSource};
use counted_devices::{Counting, Media, ReadSeek};
use std::alloc::{AllocError, Global};
use std::io::ErrorKind;
use std::rt::Files;
use std::{fs, io};

/// Files that are opened by their paths.
pub trait Paths {
    type File: Media + Drop;

    // What is known where this is answered of a path.
    ghost opens: { Self → List ℕ → Result Self.File SongFault → Type 0 };

    /// The file at a path, which was not called yet.
    fn open_at(&self, path: &str) -> Result<Self::File, SongFault>
        ensures { opens self.now path.now result };
}

// Of the system's files is known only that one that is opened was not called yet: `Files::open_file`, and what of the
// standard library calls it, have no clause that tells one path from another, or a file that is there from one that is
// not. So no clause sees that this hands on its path, and that a fault is the system's.
impl<R: Files> Paths for R
where
    R::File: ReadSeek + Drop,
{
    type File = Counting<R::File>;

    ghost opens = { λ _ _ answer. IfOk answer (λ file. file.call_counts ≡ no_calls) };

    fn open_at(&self, path: &str) -> Result<Counting<R::File>, SongFault> {
        match fs::open(self, path) {
            Ok(file) => Ok(Counting::new(file)),
            Err(fault) => Err(song_fault(&fault)),
        }
    }
}

/// Why a file was not opened.
fn song_fault(fault: &io::Error) -> SongFault
    ensures { result ≡ fault_of (error_kind fault.now) }
{
    match fault.kind() {
        ErrorKind::OutOfMemory => SongFault::NoMemory,
        _ => SongFault::Unopened,
    }
}

/// The files of a folder. A URI is a path below it.
#[derive(Drop)]
pub struct Folder<R: Paths + Drop> {
    rt: R,
    path: String,
}

impl<R: Paths + Drop> Folder<R> {
    /// The folder at this path.
    pub fn new(rt: R, path: String) -> Folder<R>
        ensures { (result.rt ≡ rt) × (result.path ≡ path) }
    {
        Folder { rt, path }
    }
}

impl<R: Paths + Drop> SongSource<R::File> for Folder<R> {
    ghost answers = { λ folder. AnswersBelow R.opens folder.rt (string_bytes folder.path) };

    fn open(&mut self, alloc: Global, uri: &str) -> Result<R::File, SongFault> {
        match path_below(alloc, self.path.as_str(), uri) {
            Ok(path) => self.rt.open_at(path.as_str()),
            Err(_) => Err(SongFault::NoMemory),
        }
    }
}

/// The path of a file below a folder.
fn path_below(alloc: Global, folder: &str, uri: &str) -> Result<String, AllocError>
    ensures { IfOk result (λ path. string_bytes path ≡ path_below_lem folder.now uri.now) }
{
    format!(in alloc; "{folder}/{uri}")
}
