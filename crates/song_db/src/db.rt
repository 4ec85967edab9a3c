//! The song library.
ghost use Rattle.std.specs.Prelude.{◌≡◌, ◌↔◌, ◌<◌, IfOk, IfSome, IfNone, IsErrOf, IsTrue, IsPermutation, vec_len, length, slice_get};
ghost use Rattle.std.specs.Option.{option_copied};
ghost use Rattle.std.specs.Bool.{OnFalse};
ghost use Rattle.song_db.specs.Library.{is_twice_named, AreTooMany, are_twins_beside, in_byte_order, song_of, IsLibrary, InByteOrder};

use crate::shared_song::SharedSong;
use mpd_text::Song;
use std::alloc::{AllocError, Global};
use std::marker::Model;

/// The greatest number of songs in a library (this profile's).
pub const MAX_SONGS: usize = 100_000;

/// Why there is no library of some songs.
#[derive(Clone, Copy, Debug, PartialEq, Eq)]
pub enum DbFault {
    /// Two songs have one URI.
    TwiceNamed,
    /// There are more than [`MAX_SONGS`].
    TooMany,
    /// A growth was refused.
    NoMemory,
}

impl From<AllocError> for DbFault {
    ghost use Rattle.song_db.specs.declared.db.DbFault.{DbFault};
    ghost use Rattle.std.specs.Prelude.{◌≡◌};

    ghost from_gives = { λ _ fault. fault ≡ DbFault.NoMemory };

    fn from(_: AllocError) -> Self {
        DbFault::NoMemory
    }
}

/// The song library. Contracts see it as its songs, in byte order of URI.
#[derive(Drop)]
pub struct Db {
    songs: Vec<SharedSong>,
}

impl Model for Db {
    ghost use Rattle.std.specs.Prelude.{List};
    ghost use Rattle.mpd_text.specs.Songs.Song.{SongData};
    ghost use Rattle.song_db.specs.Library.{IsLibrary};

    ghost Value = { List SongData };

    ghost view = { λ db. db.songs.items };

    ghost invariant = { λ db. IsLibrary db.songs.items };
}

impl Db {
    /// The library of these songs, in any order.
    pub fn of_songs(alloc: Global, songs: Vec<Song>) -> Result<Db, DbFault>
        ensures songs { IfOk result (λ db. db ≡ in_byte_order songs.items) }
        ensures permutation { IfOk result (λ db. IsPermutation songs.items db) }
        ensures library { IfOk result (λ db. IsLibrary db) }
        ensures twice_named { IsErrOf result DbFault.TwiceNamed ↔ IsTrue (is_twice_named songs.items) }
        ensures too_many { IsErrOf result DbFault.TooMany ↔ AreTooMany songs }
    {
        let mut songs = songs;
        if sort_finds_twins(&mut songs) {
            return Err(DbFault::TwiceNamed);
        }
        if songs.len() > MAX_SONGS {
            return Err(DbFault::TooMany);
        }
        let songs = shared(alloc, songs)?;
        Ok(Db { songs })
    }

    /// How many songs there are.
    pub fn len(&self) -> usize
        ensures len { result ≡ length self.now }
        ensures library { IsLibrary self.now }
    {
        self.songs.len()
    }

    /// The song with a URI.
    pub fn get(&self, uri: &str) -> Option<&Song>
        ensures { option_copied result ≡ song_of self.now uri.now }
    {
        let index = index_of(&self.songs, uri)?;
        Some(self.songs[index].song())
    }

    /// The library's own handle of the song with a URI.
    pub fn handle(&self, uri: &str) -> Option<&SharedSong>
        ensures { option_copied result ≡ song_of self.now uri.now }
    {
        let index = index_of(&self.songs, uri)?;
        Some(&self.songs[index])
    }

    /// A handle of the song with a URI, for an owner that stays.
    pub fn share(&self, uri: &str) -> Result<Option<SharedSong>, AllocError>
        ensures { IfOk result (λ shared. shared ≡ song_of self.now uri.now) }
    {
        match index_of(&self.songs, uri) {
            Some(index) => Ok(Some(self.songs[index].clone()?)),
            None => Ok(None),
        }
    }

    /// All songs, in byte order of URI.
    pub fn songs(&self) -> &[SharedSong]
        ensures songs { result.now ≡ self.now }
        ensures library { IsLibrary self.now }
    {
        self.songs.as_slice()
    }

    /// A library of the same songs, over handles of its own. No song is copied.
    pub fn image(&self) -> Result<Db, AllocError>
        ensures { IfOk result (λ image. image ≡ self.now) }
    {
        let songs = copies(*self.songs.allocator(), &self.songs)?;
        Ok(Db { songs })
    }
}

/// More handles of the same songs.
fn copies(alloc: Global, songs: &[SharedSong]) -> Result<Vec<SharedSong>, AllocError>
    ensures { IfOk result (λ copies. copies.items ≡ songs.now) }
{
    let mut copies = Vec::with_capacity(alloc, songs.len())?;
    for song in songs {
        copies.push(song.clone()?)?;
    }
    Ok(copies)
}

/// The index of the song with a URI.
fn index_of(songs: &[SharedSong], uri: &str) -> Option<usize>
    requires { InByteOrder songs.now }
    ensures found { IfSome result (λ index. slice_get songs.now index ≡ song_of songs.now uri.now) }
    ensures within { IfSome result (λ index. index < length songs.now) }
    ensures none { IfNone result (song_of songs.now uri.now ≡ None) }
{
    songs
        .binary_search_by(|song| song.song().uri().cmp(uri))
        .ok()
}

/// Puts songs in byte order of URI, and says whether two of them have the same one.
fn sort_finds_twins(songs: &mut Vec<Song>) -> bool
    ensures twice_named { result ≡ is_twice_named songs.old.items }
    ensures order { OnFalse result (songs.new.items ≡ in_byte_order songs.old.items) }
    ensures rises { OnFalse result (InByteOrder songs.new.items) }
    ensures permutation { IsPermutation songs.old.items songs.new.items }
    ensures len { vec_len songs.new ≡ vec_len songs.old }
{
    songs.sort_unstable_by(|a, b| a.uri().cmp(b.uri()));
    has_twins(songs)
}

/// Whether two songs side by side have one URI.
fn has_twins(songs: &[Song]) -> bool
    ensures { result ≡ are_twins_beside songs.now }
{
    let mut rest = songs;
    while let [first, others @ ..] = rest {
        if let [second, ..] = others {
            if first.uri() == second.uri() {
                return true;
            }
        }
        rest = others;
    }
    false
}

/// A handle for each song.
fn shared(alloc: Global, songs: Vec<Song>) -> Result<Vec<SharedSong>, AllocError>
    ensures { IfOk result (λ shared. shared.items ≡ songs.items) }
{
    let mut handles = Vec::with_capacity(alloc, songs.len())?;
    for song in songs {
        handles
            .push(SharedSong::new(alloc, song)?)
            .map_err(AllocError::from)?;
    }
    Ok(handles)
}
