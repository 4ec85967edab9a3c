//! The commands that edit the queue (MPD protocol reference, The queue).
ghost use Rattle.player_state.specs.declared.effect.Effect.TheVariants.{ByCommand};
ghost use Rattle.player_state.specs.declared.effect.CommandEffect.TheVariants.{Rests};
ghost use Rattle.std.specs.Prelude.{◌≡◌, ◌≤◌, ◌<◌, [], ◌∷◌, IfOk, IfSome, IfNone, length, map};
ghost use Rattle.std.specs.Option.{option_copied};
ghost use Rattle.song_queue.specs.State.{queue_of};
ghost use Rattle.player_state.specs.declared.effect.CommandEffect.{CommandEffect};
ghost use Rattle.queue_commands.specs.Queue.{AllLieIn, CanAdd, LieIn, add as add_lem, add_folder as add_folder_lem, add_songs as add_songs_lem, lack as lack_lem, add_id as add_id_lem, insert as insert_lem, insert_song as insert_song_lem, refused_position as refused_position_lem, position_after as position_after_lem, position_before as position_before_lem, position_in as position_in_lem, within_queue as within_queue_lem, current_position as current_position_lem, no_current_song as no_current_song_lem, shuffle as shuffle_lem, clear as clear_lem, delete as delete_lem, delete_id as delete_id_lem, move as move_lem, move_id as move_id_lem, swap as swap_lem, swap_id as swap_id_lem, prio as prio_lem, prio_id as prio_id_lem, all_within, all_with_ids, position_with};
ghost use Rattle.transitions.specs.Transitions.{IsDecidedBy};
ghost use Rattle.player_state.specs.Fits.{Fits};

use crate::queue_songs::positions_of;
use command_arguments::{Position, Uri};
use mpd_text::{Answer, ErrorNumber, Range, Sequence};
use player_state::{CommandEffect, Library, Part};
use song_db::SharedSong;
use song_queue::{Edit, Queue};
use song_search::{is_folder, under};
use std::alloc::{AllocError, Global};
use std::ops;
use transitions::{Asked, Transition};

/// Adds a song, or all songs under a folder, at a position or at the end.
pub(crate) fn add(
    alloc: Global,
    asked: Asked,
    part: &Part,
    library: &Library,
    uri: &Uri,
    position: Option<Position>,
) -> Result<Transition, AllocError>
    ensures transition { IsDecidedBy result (add_lem asked part.now library.now uri.now.0 position) }
    ensures fits { IfOk result (λ transition. Fits part.now transition.effect) }
{
    match library.songs.db().share(uri.0.as_str())? {
        Some(song) => add_songs(alloc, asked, part, one_song(alloc, song)?, position),
        None => add_folder(alloc, asked, part, library, uri.0.as_str(), position),
    }
}

/// Adds all songs under a folder.
fn add_folder(
    alloc: Global,
    asked: Asked,
    part: &Part,
    library: &Library,
    folder: &str,
    position: Option<Position>,
) -> Result<Transition, AllocError>
    ensures transition { IsDecidedBy result (add_folder_lem asked part.now library.now folder.now position) }
    ensures fits { IfOk result (λ transition. Fits part.now transition.effect) }
{
    if !is_folder(library.songs.db(), folder) {
        return Transition::no_such_song(alloc, asked);
    }
    let songs = shares(alloc, under(library.songs.db(), folder))?;
    add_songs(alloc, asked, part, songs, position)
}

/// A song alone.
fn one_song(alloc: Global, song: SharedSong) -> Result<Sequence<SharedSong>, AllocError>
    ensures { IfOk result (λ songs. songs ≡ song ∷ []) }
{
    let mut songs = Sequence::new(alloc);
    songs.push(song).map_err(AllocError::from)?;
    Ok(songs)
}

/// A handle to each of some songs.
pub fn shares(alloc: Global, songs: &[SharedSong]) -> Result<Sequence<SharedSong>, AllocError>
    ensures { IfOk result (λ shared. shared ≡ songs.now) }
{
    let mut shared = Sequence::new(alloc);
    for song in songs {
        shared.push(song.clone()?).map_err(AllocError::from)?;
    }
    Ok(shared)
}

/// A handle to each of some songs that were found.
pub fn shares_of_found(
    alloc: Global,
    songs: &[&SharedSong],
) -> Result<Sequence<SharedSong>, AllocError>
    ensures { IfOk result (λ shared. shared ≡ map (λ song. song.now) songs.now) }
{
    let mut shared = Sequence::new(alloc);
    for song in songs {
        shared.push((*song).clone()?).map_err(AllocError::from)?;
    }
    Ok(shared)
}

/// Adds songs at a position or at the end: all of them, or none.
pub fn add_songs(
    alloc: Global,
    asked: Asked,
    part: &Part,
    songs: Sequence<SharedSong>,
    position: Option<Position>,
) -> Result<Transition, AllocError>
    ensures transition { IsDecidedBy result (add_songs_lem asked part.now songs position) }
    ensures fits { IfOk result (λ transition. Fits part.now transition.effect) }
{
    match position_in(part, position) {
        Ok(position) => insert(alloc, asked, part, songs, position, Answer::new(alloc)),
        Err(fault) => refused_position(alloc, asked, fault),
    }
}

/// Why there is no such position in the queue.
#[derive(Clone, Copy)]
enum PositionFault {
    /// It counts from the current song, and there is none.
    NoCurrentSong,
    /// It lies outside of the queue.
    OutOfRange,
}

/// The position in the queue that is meant: without one its end.
fn position_in(part: &Part, position: Option<Position>) -> Result<usize, PositionFault>
    ensures position { result ≡ position_in_lem part.now position }
    ensures inside { IfOk result (λ position. position ≤ length (queue_of part.now.queue)) }
{
    match position {
        None => Ok(part.queue.len()),
        Some(Position::At(position)) => within_queue(part, position as usize),
        Some(Position::After(steps)) => position_after(part, steps as usize),
        Some(Position::Before(steps)) => position_before(part, steps as usize),
    }
}

/// A position, where it is not behind the end of the queue.
fn within_queue(part: &Part, position: usize) -> Result<usize, PositionFault>
    ensures position { result ≡ within_queue_lem part.now position }
    ensures inside { IfOk result (λ position. position ≤ length (queue_of part.now.queue)) }
{
    if position > part.queue.len() {
        return Err(PositionFault::OutOfRange);
    }
    Ok(position)
}

/// The position so many steps after the one that follows the current song.
fn position_after(part: &Part, steps: usize) -> Result<usize, PositionFault>
    ensures position { result ≡ position_after_lem part.now (current_position_lem part.now) steps }
    ensures inside { IfOk result (λ position. position ≤ length (queue_of part.now.queue)) }
{
    let Some(position) = current_position(part) else {
        return Err(PositionFault::NoCurrentSong);
    };
    if steps >= part.queue.len() - position {
        return Err(PositionFault::OutOfRange);
    }
    Ok(position + 1 + steps)
}

/// The position so many steps before the current song.
fn position_before(part: &Part, steps: usize) -> Result<usize, PositionFault>
    ensures position { result ≡ position_before_lem (current_position_lem part.now) steps }
    ensures inside { IfOk result (λ position. position ≤ length (queue_of part.now.queue)) }
{
    let Some(position) = current_position(part) else {
        return Err(PositionFault::NoCurrentSong);
    };
    if position < steps {
        return Err(PositionFault::OutOfRange);
    }
    Ok(position - steps)
}

/// There is no such position.
fn refused_position(
    alloc: Global,
    asked: Asked,
    fault: PositionFault,
) -> Result<Transition, AllocError>
    ensures transition { IsDecidedBy result (refused_position_lem asked fault) }
    ensures rests { IfOk result (λ transition. transition.effect ≡ ByCommand Rests) }
{
    match fault {
        PositionFault::NoCurrentSong => no_current_song(alloc, asked),
        PositionFault::OutOfRange => Transition::bad_index(alloc, asked),
    }
}

/// Why so many songs cannot be added, if they cannot.
fn lack(part: &Part, songs: usize) -> Option<&'static str>
    ensures text { option_copied result ≡ lack_lem part.now songs }
    ensures room { IfNone result (CanAdd part.now songs) }
{
    if !part.queue.has_room(songs) {
        return Some("playlist is full");
    }
    if !part.queue.has_ids(songs) {
        return Some("no more song ids");
    }
    None
}

/// Puts songs in where there is room and an id for each, and shows these lines.
fn insert(
    alloc: Global,
    asked: Asked,
    part: &Part,
    songs: Sequence<SharedSong>,
    position: usize,
    lines: Answer,
) -> Result<Transition, AllocError>
    requires { position ≤ length (queue_of part.now.queue) }
    ensures transition { IsDecidedBy result (insert_lem asked part.now songs position lines) }
    ensures fits { IfOk result (λ transition. Fits part.now transition.effect) }
{
    if let Some(text) = lack(part, songs.items().len()) {
        return Transition::refuses(alloc, asked, ErrorNumber::PlaylistMax, text);
    }
    Transition::edits(asked, Edit::Insert(position, songs), lines)
}

pub(crate) fn add_id(
    alloc: Global,
    asked: Asked,
    part: &Part,
    library: &Library,
    uri: &Uri,
    position: Option<Position>,
) -> Result<Transition, AllocError>
    ensures transition { IsDecidedBy result (add_id_lem asked part.now library.now uri.now.0 position) }
    ensures fits { IfOk result (λ transition. Fits part.now transition.effect) }
{
    match library.songs.db().share(uri.0.as_str())? {
        Some(song) => insert_song(alloc, asked, part, song, position),
        None => Transition::no_such_song(alloc, asked),
    }
}

/// Puts a song in at a position, and tells its id.
fn insert_song(
    alloc: Global,
    asked: Asked,
    part: &Part,
    song: SharedSong,
    position: Option<Position>,
) -> Result<Transition, AllocError>
    ensures transition { IsDecidedBy result (insert_song_lem asked part.now song position) }
    ensures fits { IfOk result (λ transition. Fits part.now transition.effect) }
{
    match position_in(part, position) {
        Ok(position) => {
            let mut lines = Answer::new(alloc);
            lines.pair("Id", u64::from(part.queue.greatest_id()) + 1)?;
            insert(alloc, asked, part, one_song(alloc, song)?, position, lines)
        }
        Err(fault) => refused_position(alloc, asked, fault),
    }
}

/// The position of the current song, if there is one.
pub(crate) fn current_position(part: &Part) -> Option<usize>
    ensures position { result ≡ current_position_lem part.now }
    ensures within { IfSome result (λ position. position < length (queue_of part.now.queue)) }
{
    part.queue.position_of(part.player.current()?)
}

fn no_current_song(alloc: Global, asked: Asked) -> Result<Transition, AllocError>
    ensures transition { IsDecidedBy result (no_current_song_lem asked) }
    ensures rests { IfOk result (λ transition. transition.effect ≡ ByCommand Rests) }
{
    Transition::refuses(alloc, asked, ErrorNumber::PlayerSync, "no current song")
}

pub(crate) fn clear(alloc: Global, asked: Asked, part: &Part) -> Result<Transition, AllocError>
    ensures transition { IsDecidedBy result (clear_lem asked part.now) }
    ensures fits { IfOk result (λ transition. Fits part.now transition.effect) }
{
    let edit = Edit::Remove(0, part.queue.len());
    Transition::edits(asked, edit, Answer::new(alloc))
}

pub(crate) fn delete(
    alloc: Global,
    asked: Asked,
    part: &Part,
    range: Range,
) -> Result<Transition, AllocError>
    ensures transition { IsDecidedBy result (delete_lem asked part.now range) }
    ensures fits { IfOk result (λ transition. Fits part.now transition.effect) }
{
    let Some(positions) = range.within(part.queue.len()) else {
        return Transition::bad_index(alloc, asked);
    };
    let edit = Edit::Remove(positions.start, positions.end);
    Transition::edits(asked, edit, Answer::new(alloc))
}

pub(crate) fn delete_id(
    alloc: Global,
    asked: Asked,
    part: &Part,
    id: u32,
) -> Result<Transition, AllocError>
    ensures transition { IsDecidedBy result (delete_id_lem asked part.now id) }
    ensures fits { IfOk result (λ transition. Fits part.now transition.effect) }
{
    let Some(position) = part.queue.position_of(id) else {
        return Transition::no_such_song(alloc, asked);
    };
    let edit = Edit::Remove(position, position + 1);
    Transition::edits(asked, edit, Answer::new(alloc))
}

pub(crate) fn move_range(
    alloc: Global,
    asked: Asked,
    part: &Part,
    range: Range,
    to: u32,
) -> Result<Transition, AllocError>
    ensures transition { IsDecidedBy result (move_lem asked part.now range to) }
    ensures fits { IfOk result (λ transition. Fits part.now transition.effect) }
{
    let len = part.queue.len();
    let to = to as usize;
    let Some(positions) = range.within(len) else {
        return Transition::bad_index(alloc, asked);
    };
    let ops::Range { start, end } = positions;
    if start < end && to > len - (end - start) {
        return Transition::bad_index(alloc, asked);
    }
    Transition::edits(asked, Edit::Move(start, end, to), Answer::new(alloc))
}

pub(crate) fn move_id(
    alloc: Global,
    asked: Asked,
    part: &Part,
    id: u32,
    to: u32,
) -> Result<Transition, AllocError>
    ensures transition { IsDecidedBy result (move_id_lem asked part.now id to) }
    ensures fits { IfOk result (λ transition. Fits part.now transition.effect) }
{
    let to = to as usize;
    if to >= part.queue.len() {
        return Transition::bad_index(alloc, asked);
    }
    let Some(position) = part.queue.position_of(id) else {
        return Transition::no_such_song(alloc, asked);
    };
    let edit = Edit::Move(position, position + 1, to);
    Transition::edits(asked, edit, Answer::new(alloc))
}

/// Shuffles the songs of a range, or all.
pub(crate) fn shuffle(
    alloc: Global,
    asked: Asked,
    part: &Part,
    range: Option<Range>,
) -> Result<Transition, AllocError>
    ensures transition { IsDecidedBy result (shuffle_lem asked part.now range) }
    ensures fits { IfOk result (λ transition. Fits part.now transition.effect) }
{
    let len = part.queue.len();
    let Some(positions) = positions_of(range, len) else {
        return Transition::bad_index(alloc, asked);
    };
    Transition::does(
        alloc,
        asked,
        CommandEffect::Shuffles(positions.start, positions.end),
    )
}

pub(crate) fn swap(
    alloc: Global,
    asked: Asked,
    part: &Part,
    first: u32,
    second: u32,
) -> Result<Transition, AllocError>
    ensures transition { IsDecidedBy result (swap_lem asked part.now first second) }
    ensures fits { IfOk result (λ transition. Fits part.now transition.effect) }
{
    let (first, second) = (first as usize, second as usize);
    let len = part.queue.len();
    if first >= len || second >= len {
        return Transition::bad_index(alloc, asked);
    }
    let edit = Edit::Swap(first, second);
    Transition::edits(asked, edit, Answer::new(alloc))
}

pub(crate) fn swap_id(
    alloc: Global,
    asked: Asked,
    part: &Part,
    first: u32,
    second: u32,
) -> Result<Transition, AllocError>
    ensures transition { IsDecidedBy result (swap_id_lem asked part.now first second) }
    ensures fits { IfOk result (λ transition. Fits part.now transition.effect) }
{
    let Some(first) = part.queue.position_of(first) else {
        return Transition::no_such_song(alloc, asked);
    };
    let Some(second) = part.queue.position_of(second) else {
        return Transition::no_such_song(alloc, asked);
    };
    let edit = Edit::Swap(first, second);
    Transition::edits(asked, edit, Answer::new(alloc))
}

pub(crate) fn prio(
    alloc: Global,
    asked: Asked,
    part: &Part,
    priority: u8,
    ranges: &[Range],
) -> Result<Transition, AllocError>
    ensures transition { IsDecidedBy result (prio_lem asked part.now priority ranges.now) }
    ensures fits { IfOk result (λ transition. Fits part.now transition.effect) }
{
    let Some(positions) = positions_of_ranges(alloc, ranges, part.queue.len())? else {
        return Transition::bad_index(alloc, asked);
    };
    let edit = Edit::Prioritize(positions, priority);
    Transition::edits(asked, edit, Answer::new(alloc))
}

/// The positions of ranges, if all of them are in a list of so many items.
fn positions_of_ranges(
    alloc: Global,
    ranges: &[Range],
    len: usize,
) -> Result<Option<Sequence<ops::Range<usize>>>, AllocError>
    ensures positions { IfOk result (λ positions. positions ≡ all_within len ranges.now) }
    ensures inside { IfOk result (λ positions. IfSome positions (AllLieIn len)) }
{
    let mut positions = Sequence::new(alloc);
    for range in ranges {
        let Some(within) = range.within(len) else {
            return Ok(None);
        };
        positions.push(within).map_err(AllocError::from)?;
    }
    Ok(Some(positions))
}

pub(crate) fn prio_id(
    alloc: Global,
    asked: Asked,
    part: &Part,
    priority: u8,
    ids: &[u32],
) -> Result<Transition, AllocError>
    ensures transition { IsDecidedBy result (prio_id_lem asked part.now priority ids.now) }
    ensures fits { IfOk result (λ transition. Fits part.now transition.effect) }
{
    let Some(positions) = positions_of_ids(alloc, &part.queue, ids)? else {
        return Transition::no_such_song(alloc, asked);
    };
    let edit = Edit::Prioritize(positions, priority);
    Transition::edits(asked, edit, Answer::new(alloc))
}

/// The positions of the songs with these ids, if all of them are in the queue.
fn positions_of_ids(
    alloc: Global,
    queue: &Queue,
    ids: &[u32],
) -> Result<Option<Sequence<ops::Range<usize>>>, AllocError>
    ensures positions { IfOk result (λ positions. positions ≡ all_with_ids queue.now ids.now) }
    ensures inside { IfOk result (λ positions. IfSome positions (AllLieIn (length (queue_of queue.now)))) }
{
    let mut positions = Sequence::new(alloc);
    for id in ids {
        let Some(position) = position_of_id(queue, *id) else {
            return Ok(None);
        };
        positions.push(position).map_err(AllocError::from)?;
    }
    Ok(Some(positions))
}

/// The position of the song with an id, as a range.
#[tactic(auto, unfolding(crate::specs::Queue::position_with))]
fn position_of_id(queue: &Queue, id: u32) -> Option<ops::Range<usize>>
    ensures position { result ≡ position_with queue.now id }
    ensures inside { IfSome result (LieIn (length (queue_of queue.now))) }
{
    let position = queue.position_of(id)?;
    Some(position..position + 1)
}
