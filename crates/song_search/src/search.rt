//! Songs that meet a filter (MPD protocol reference, The music database: `find`, `search`, `count`).
ghost use Rattle.std.specs.Prelude.{◌≡◌, ◌↔◌, ◌≤◌, ◌^◌, IfOk, IsTrue, length};
ghost use Rattle.mpd_text.specs.Songs.Song.{SongData};
ghost use Rattle.filters.specs.Expressions.{Expression};
ghost use Rattle.filters.specs.Truth.{Holds};
ghost use Rattle.filters.specs.declared.matching.Case.TheVariants.{Heeded};
ghost use Rattle.song_db.specs.Lines.{millis};
ghost use Rattle.song_search.specs.Truth.{meets};
ghost use Rattle.song_search.specs.Answers.{found, playtime};
ghost use Rattle.mpd_text.specs.Texts.{values_now};

use filters::{Case, Filter};
use mpd_text::Song;
use song_db::{Db, Rate, SharedSong};
use std::alloc::{AllocError, Global};

/// The law that `meets` is the truth of a filter on a song, as `Filter::matches` has it.
pub fn meets_is_truth()
    ensures { (case : Case) (e : Expression) (song : SongData) → IsTrue (meets case e song) ↔ Holds case e song }
{}

/// The songs that meet a filter, in byte order of URI. No song is copied.
pub fn find<'a>(
    alloc: Global,
    db: &'a Db,
    filter: &Filter,
    case: Case,
) -> Result<Vec<&'a SharedSong>, AllocError>
    ensures { IfOk result (λ songs. values_now songs.items ≡ found case filter.now db.now) }
{
    let mut songs = Vec::new(alloc);
    for song in db.songs() {
        if does_meet(song.song(), filter, case)? {
            songs.push(song).map_err(AllocError::from)?;
        }
    }
    Ok(songs)
}

/// Whether a song meets a filter.
pub fn does_meet(song: &Song, filter: &Filter, case: Case) -> Result<bool, AllocError>
    ensures { IfOk result (λ met. met ≡ meets case filter.now song.now) }
{
    match filter.matches(song, case) {
        Ok(met) => Ok(met),
        Err(fault) => Err(fault),
    }
}

/// Whether a song meets a filter, where case is heeded. Takes no memory.
fn is_met(song: &Song, filter: &Filter) -> bool
    ensures { result ≡ meets Heeded filter.now song.now }
{
    match filter.matches(song, Case::Heeded) {
        Ok(met) => met,
        Err(_) => unreachable!(),
    }
}

/// How many songs there are, and how many whole seconds they play.
#[derive(Clone, Copy, PartialEq, Eq)]
pub struct Count {
    /// How many songs.
    pub songs: usize,
    /// How many seconds: of each song its thousandths, cut, and of their sum the seconds, cut.
    pub seconds: u128,
}

/// How many songs meet a filter, where case is heeded, and how long they play. Takes no memory.
pub fn counted(db: &Db, filter: &Filter, rate: &Rate) -> Count
    ensures songs { result.songs ≡ length (found Heeded filter.now db.now) }
    ensures seconds { result.seconds ≡ playtime rate.now (found Heeded filter.now db.now) }
{
    let mut songs: usize = 0;
    let mut millis: u128 = 0;
    for song in db.songs() {
        if is_met(song.song(), filter) {
            songs += 1;
            millis += millis_of(song.song(), rate);
        }
    }
    Count {
        songs,
        seconds: millis / 1000,
    }
}

/// How many thousandths of a second a song plays, cut.
pub fn millis_of(song: &Song, rate: &Rate) -> u128
    ensures value { result ≡ millis rate.now song.now.frames }
    ensures bound { result ≤ 2 ^ 61 }
{
    u128::from(song.frames()) * 1000 / u128::from(rate.frames())
}
