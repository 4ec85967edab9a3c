//! Songs that several owners hold.
ghost use Rattle.std.specs.Prelude.{◌≡◌, IfOk};
ghost use Rattle.song_db.specs.Lines.{text_lines};

use crate::song_lines::texts_of;
use mpd_text::Song;
use std::alloc::{AllocError, Global};
use std::marker::Model;
use std::sync::Arc;

/// A song, and the lines of its texts, which are made once. A clause sees the song.
struct ShownSong {
    song: Song,
    lines: String,
}

// Written out, so that a proof goes through one call where it lets one go (docs/DECISIONS.md).
impl Drop for ShownSong {
    fn drop(self) {
        let ShownSong { song: _, lines: _ } = self;
    }
}

impl Model for ShownSong {
    ghost use Rattle.std.specs.Prelude.{◌≡◌, string_bytes};
    ghost use Rattle.mpd_text.specs.Songs.Song.{SongData};
    ghost use Rattle.song_db.specs.Lines.{text_lines};

    ghost Value = { SongData };

    ghost view = { λ s. s.song };

    ghost invariant = { λ s. string_bytes s.lines ≡ text_lines s.song };
}

impl ShownSong {
    fn new(alloc: Global, song: Song) -> Result<ShownSong, AllocError>
        ensures { IfOk result (λ shown. shown ≡ song) }
    {
        let lines = texts_of(alloc, &song)?;
        Ok(ShownSong { song, lines })
    }

    fn song(&self) -> &Song
        ensures { result.now ≡ self.now }
    {
        &self.song
    }

    fn lines(&self) -> &str
        ensures { result.now ≡ text_lines self.now }
    {
        self.lines.as_str()
    }
}

/// A handle to a song: a clone holds the same song, and no text is copied.
pub struct SharedSong {
    shown: Arc<ShownSong, Global>,
}

// Written out, so that a proof goes through one call where it lets one go (docs/DECISIONS.md).
impl Drop for SharedSong {
    fn drop(self) {
        let SharedSong { shown: _ } = self;
    }
}

impl Model for SharedSong {
    ghost use Rattle.std.specs.Arc.{arc_value};
    ghost use Rattle.mpd_text.specs.Songs.Song.{SongData};

    ghost Value = { SongData };

    ghost view = { λ s. arc_value s.shown };
}

impl SharedSong {
    /// The first handle to a song.
    pub fn new(alloc: Global, song: Song) -> Result<SharedSong, AllocError>
        ensures { IfOk result (λ shared. shared ≡ song) }
    {
        let shown = Arc::new(alloc, ShownSong::new(alloc, song)?)?;
        Ok(SharedSong { shown })
    }

    /// The song.
    pub fn song(&self) -> &Song
        ensures { result.now ≡ self.now }
    {
        self.shown.song()
    }

    /// The lines of its URI and tags, each with its newline, which were made with the first handle.
    pub fn lines(&self) -> &str
        ensures { result.now ≡ text_lines self.now }
    {
        self.shown.lines()
    }
}

impl Clone for SharedSong {
    ghost is_clone = { λ s copy. copy ≡ s };

    fn clone(&self) -> Result<SharedSong, AllocError> {
        let shown = self.shown.clone()?;
        Ok(SharedSong { shown })
    }
}
