//! The command that asks how long the daemon has been running, how long was played, and how much there is to
//! play (MPD protocol reference, Querying MPD's status: `stats`).
ghost use Rattle.std.specs.Prelude.{◌≡◌, ◌++◌, ◌/◌, OnOk};
ghost use Rattle.song_search.specs.Answers.{playtime};
ghost use Rattle.status_commands.specs.Stats.{library_lines, stats as stats_lem, song_lines, tag_lines, uptime_line};
ghost use Rattle.transitions.specs.Transitions.{IsDecidedBy};

use mpd_text::{Answer, TagName};
use player_state::{Library, Part};
use song_db::{Rate, SharedSong};
use song_groups::distinct;
use song_search::millis_of;
use std::alloc::{AllocError, Global};
use transitions::{Asked, Transition};

pub(crate) fn stats(
    alloc: Global,
    asked: Asked,
    part: &Part,
    library: &Library,
    uptime: Option<u32>,
) -> Result<Transition, AllocError>
    ensures { IsDecidedBy result (stats_lem asked part.now library.now uptime) }
{
    let mut lines = Answer::new(alloc);
    push_uptime(&mut lines, uptime)?;
    lines.pair("playtime", played_seconds(part.played, &library.rate))?;
    push_library(alloc, &mut lines, library)?;
    Transition::shows(asked, lines)
}

/// How many seconds the daemon has been running, where that is known.
fn push_uptime(lines: &mut Answer, uptime: Option<u32>) -> Result<(), AllocError>
    ensures { OnOk result (lines.new ≡ lines.old ++ uptime_line uptime) }
{
    match uptime {
        Some(seconds) => lines.pair("uptime", seconds),
        None => Ok(()),
    }
}

/// How many whole seconds so many frames take, cut.
fn played_seconds(frames: u64, rate: &Rate) -> u64
    ensures { result ≡ frames / rate.now }
{
    frames / u64::from(rate.frames())
}

/// What there is to play.
fn push_library(alloc: Global, lines: &mut Answer, library: &Library) -> Result<(), AllocError>
    ensures { OnOk result (lines.new ≡ lines.old ++ library_lines library.now) }
{
    let songs = library.songs.db().songs();
    push_tags(alloc, lines, songs)?;
    push_songs(lines, songs.len(), seconds_of(songs, &library.rate))?;
    lines.pair("db_update", library.updated)
}

/// How many artists and albums there are.
#[tactic(auto, unfolding(crate::specs::Stats::tag_lines))]
fn push_tags(alloc: Global, lines: &mut Answer, songs: &[SharedSong]) -> Result<(), AllocError>
    ensures { OnOk result (lines.new ≡ lines.old ++ tag_lines songs.now) }
{
    lines.pair("artists", distinct(alloc, songs, TagName::Artist)?)?;
    lines.pair("albums", distinct(alloc, songs, TagName::Album)?)
}

/// How many songs there are, and how long they play.
#[tactic(auto, unfolding(crate::specs::Stats::song_lines))]
fn push_songs(lines: &mut Answer, songs: usize, seconds: u128) -> Result<(), AllocError>
    ensures { OnOk result (lines.new ≡ lines.old ++ song_lines songs seconds) }
{
    lines.pair("songs", songs)?;
    lines.pair("db_playtime", seconds)
}

/// How many whole seconds some songs play: of each its thousandths, cut, and of their sum the seconds, cut.
fn seconds_of(songs: &[SharedSong], rate: &Rate) -> u128
    ensures { result ≡ playtime rate.now songs.now }
{
    let mut millis: u128 = 0;
    for song in songs {
        millis += millis_of(song.song(), rate);
    }
    millis / 1000
}
