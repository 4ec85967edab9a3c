//! Where the files of songs are had.
ghost use Rattle.std.specs.Prelude.{ℕ, List, Result};
ghost use Rattle.crew_steps.specs.declared.song_source.SongFault.{SongFault};

use counted_devices::Media;
use std::alloc::Global;

/// Why a song's file is not had.
#[derive(Clone, Copy, PartialEq, Eq)]
pub enum SongFault {
    /// It cannot be opened.
    Unopened,
    /// There was no memory.
    NoMemory,
}

/// Gives the files of songs.
pub trait SongSource<M: Media + Drop> {
    // What is known where it answers so of a URI; nothing, where a source does not say.
    ghost answers: { Self → List ℕ → Result M SongFault → Type 0 } = { λ _ _ _. Unit {0} };

    /// The file of the song of this URI.
    fn open(&mut self, alloc: Global, uri: &str) -> Result<M, SongFault>
        ensures { answers self.old uri.now result };
}
