//! The commands that control what is played (MPD protocol reference, Controlling playback; `currentsong` and
//! `clearerror`: Querying MPD's status).
ghost use Rattle.std.specs.Prelude.{◌≡◌, ◌≤◌, ◌++◌, Some, IfOk, OnOk};
ghost use Rattle.player_core.specs.Player.{is_stopped as is_stopped_lem};
ghost use Rattle.queue_commands.specs.Playback.{clear_error as clear_error_lem, current_song as current_song_lem, elapsed as elapsed_lem, frame_at as frame_at_lem, lines_at, next as next_lem, pause as pause_lem, play as play_lem, play_id as play_id_lem, previous as previous_lem, seek as seek_lem, seek_cur as seek_cur_lem, result_of, seek_id as seek_id_lem, stop as stop_lem, time_of as time_of_lem};
ghost use Rattle.player_state.specs.Fits.{Fits};
ghost use Rattle.transitions.specs.Transitions.{IsDecidedBy};

use crate::queue_edits::current_position;
use crate::queue_songs::push_entry;
use command_arguments::Seeking;
use known_tags::TagSet;
use mpd_command::PlaybackCommand;
use mpd_text::{Answer, Millis};
use player_core::Playback;
use player_state::{CommandEffect, Library, Part};
use song_db::{Rate, length_of};
use std::alloc::{AllocError, Global};
use transitions::{Asked, Transition};

/// The rows: what each command asks of the player.
#[rattlefmt::skip]
#[tactic(auto, unfolding(crate::specs::Playback::result_of))]
pub fn run(alloc: Global, asked: Asked, part: &Part, library: &Library, command: &PlaybackCommand) -> Result<Transition, AllocError>
    ensures transition { IsDecidedBy result (result_of asked part.now library.now command.now) }
    ensures fits { IfOk result (λ transition. Fits part.now transition.effect) }
{
    match command {
        PlaybackCommand::Next => next(alloc, asked, part),
        PlaybackCommand::Pause(on) => pause(alloc, asked, *on),
        PlaybackCommand::Play(position) => play(alloc, asked, part, *position),
        PlaybackCommand::PlayId(id) => play_id(alloc, asked, part, *id),
        PlaybackCommand::Previous => previous(alloc, asked, part),
        PlaybackCommand::Seek(position, time) => seek(alloc, asked, part, library, *position, *time),
        PlaybackCommand::SeekCur(seeking) => seek_cur(alloc, asked, part, library, *seeking),
        PlaybackCommand::SeekId(id, time) => seek_id(alloc, asked, part, library, *id, *time),
        PlaybackCommand::Stop => stop(alloc, asked),
    }
}

fn play(
    alloc: Global,
    asked: Asked,
    part: &Part,
    position: Option<u32>,
) -> Result<Transition, AllocError>
    ensures { IsDecidedBy result (play_lem asked part.now position) }
{
    let Some(position) = position else {
        return Transition::does(alloc, asked, CommandEffect::Plays);
    };
    let position = position as usize;
    if position >= part.queue.len() {
        return Transition::bad_index(alloc, asked);
    }
    Transition::does(alloc, asked, CommandEffect::PlaysPosition(position))
}

fn play_id(
    alloc: Global,
    asked: Asked,
    part: &Part,
    id: Option<u32>,
) -> Result<Transition, AllocError>
    ensures { IsDecidedBy result (play_id_lem asked part.now id) }
{
    let Some(id) = id else {
        return Transition::does(alloc, asked, CommandEffect::Plays);
    };
    match part.queue.position_of(id) {
        Some(position) => Transition::does(alloc, asked, CommandEffect::PlaysPosition(position)),
        None => Transition::no_such_song(alloc, asked),
    }
}

fn pause(alloc: Global, asked: Asked, on: Option<bool>) -> Result<Transition, AllocError>
    ensures { IsDecidedBy result (pause_lem asked on) }
{
    match on {
        Some(on) => Transition::does(alloc, asked, CommandEffect::Pauses(on)),
        None => Transition::does(alloc, asked, CommandEffect::TogglesPause),
    }
}

fn stop(alloc: Global, asked: Asked) -> Result<Transition, AllocError>
    ensures { IsDecidedBy result (stop_lem asked) }
{
    Transition::does(alloc, asked, CommandEffect::Stops)
}

fn next(alloc: Global, asked: Asked, part: &Part) -> Result<Transition, AllocError>
    ensures { IsDecidedBy result (next_lem asked part.now) }
{
    if is_stopped(part) {
        return Transition::not_playing(alloc, asked);
    }
    Transition::does(alloc, asked, CommandEffect::GoesOn)
}

fn previous(alloc: Global, asked: Asked, part: &Part) -> Result<Transition, AllocError>
    ensures { IsDecidedBy result (previous_lem asked part.now) }
{
    if is_stopped(part) {
        return Transition::not_playing(alloc, asked);
    }
    Transition::does(alloc, asked, CommandEffect::GoesBack)
}

pub fn is_stopped(part: &Part) -> bool
    ensures { result ≡ is_stopped_lem part.now.player.playback }
{
    match part.player.playback() {
        Playback::Stop => true,
        Playback::Play | Playback::Pause => false,
    }
}

/// To a time in the song at a position.
fn seek(
    alloc: Global,
    asked: Asked,
    part: &Part,
    library: &Library,
    position: u32,
    time: Millis,
) -> Result<Transition, AllocError>
    ensures { IsDecidedBy result (seek_lem asked part.now library.now position time.0) }
{
    let position = position as usize;
    if position >= part.queue.len() {
        return Transition::bad_index(alloc, asked);
    }
    let frame = frame_at(&library.rate, u128::from(time.0));
    Transition::does(alloc, asked, CommandEffect::Seeks(position, frame))
}

/// To a time in the song with an id.
fn seek_id(
    alloc: Global,
    asked: Asked,
    part: &Part,
    library: &Library,
    id: u32,
    time: Millis,
) -> Result<Transition, AllocError>
    ensures { IsDecidedBy result (seek_id_lem asked part.now library.now id time.0) }
{
    let Some(position) = part.queue.position_of(id) else {
        return Transition::no_such_song(alloc, asked);
    };
    let frame = frame_at(&library.rate, u128::from(time.0));
    Transition::does(alloc, asked, CommandEffect::Seeks(position, frame))
}

/// To a time in the current song, which may count from the time that has elapsed.
fn seek_cur(
    alloc: Global,
    asked: Asked,
    part: &Part,
    library: &Library,
    seeking: Seeking,
) -> Result<Transition, AllocError>
    ensures { IsDecidedBy result (seek_cur_lem asked part.now library.now seeking) }
{
    if is_stopped(part) {
        return Transition::not_playing(alloc, asked);
    }
    let Some(position) = current_position(part) else {
        return Transition::not_playing(alloc, asked);
    };
    let time = time_of(elapsed(part, library), seeking);
    let frame = frame_at(&library.rate, time);
    Transition::does(alloc, asked, CommandEffect::Seeks(position, frame))
}

/// The time that an offset in a song is counted from, in thousandths of a second.
fn elapsed(part: &Part, library: &Library) -> u128
    ensures time { result ≡ elapsed_lem part.now library.now }
    ensures short { result ≤ 18446744073709551615000 }
{
    length_of(part.player.offset(), &library.rate)
}

/// A time that may count from another, in thousandths of a second.
fn time_of(from: u128, seeking: Seeking) -> u128
    requires { from ≤ 18446744073709551615000 }
    ensures time { result ≡ time_of_lem from seeking }
    ensures short { result ≤ 18465190817783261166615 }
{
    match seeking {
        Seeking::To(time) => u128::from(time.0),
        Seeking::Forward(time) => from + u128::from(time.0),
        Seeking::Back(time) => from.saturating_sub(u128::from(time.0)),
    }
}

/// The frame at a time in thousandths of a second, as far as frames can be counted.
fn frame_at(rate: &Rate, time: u128) -> u64
    requires { time ≤ 18465190817783261166615 }
    ensures { result ≡ frame_at_lem rate.now time }
{
    let frame = time * u128::from(rate.frames()) / 1000;
    frame.min(u128::from(u64::MAX)) as u64
}

/// The lines of the current song, if there is one.
pub fn current_song(
    alloc: Global,
    asked: Asked,
    part: &Part,
    library: &Library,
) -> Result<Transition, AllocError>
    ensures { IsDecidedBy result (current_song_lem asked part.now library.now) }
{
    let mut lines = Answer::new(alloc);
    let tags = asked.tags;
    if let Some(position) = current_position(part) {
        push_position_lines(&mut lines, part, library, position, tags)?;
    }
    Transition::shows(asked, lines)
}

fn push_position_lines(
    lines: &mut Answer,
    part: &Part,
    library: &Library,
    position: usize,
    tags: TagSet,
) -> Result<(), AllocError>
    ensures { OnOk result (lines.new ≡ lines.old ++ lines_at tags library.now.rate part.now.queue (Some position)) }
{
    match part.queue.get(position) {
        Some(entry) => push_entry(lines, library, position, entry, tags),
        None => Ok(()),
    }
}

pub fn clear_error(alloc: Global, asked: Asked) -> Result<Transition, AllocError>
    ensures { IsDecidedBy result (clear_error_lem asked) }
{
    Transition::does(alloc, asked, CommandEffect::ClearsError)
}
