//! The commands that show the queue (MPD protocol reference, The queue).
ghost use Rattle.std.specs.Prelude.{◌≡◌, ◌<◌, ◌+◌, ◌++◌, Some, IfOk, IfSome, OnOk, length};
ghost use Rattle.std.specs.Option.{option_copied};
ghost use Rattle.song_queue.specs.State.{entries_of, queue_of};
ghost use Rattle.queue_commands.specs.Queue.{LieIn, changed_between, changed_positions as changed_positions_lem, changes as changes_lem, entry_lines, meeting, meets_at as meets_at_lem, playlist as playlist_lem, playlist_find as playlist_find_lem, playlist_id as playlist_id_lem, playlist_info as playlist_info_lem, position_lines, priority_line, range_or_all, rows_in, uri_line};
ghost use Rattle.queue_commands.specs.Shown.{changes_as, row_as, rows_as, rows_of_positions, rows_of_run, positions_as};
ghost use Rattle.transitions.specs.Transitions.{IsDecidedBy};

use command_arguments::Criteria;
use filters::{Case, Filter};
use known_tags::{TagSet, push_shared_with};
use mpd_text::{Answer, ErrorNumber, Range};
use player_state::{Library, Part};
use song_queue::{Entry, Queue, Slot};
use song_search::does_meet;
use std::alloc::{AllocError, Global};
use std::ops;
use transitions::{Asked, Transition};

/// What is shown of an entry.
#[derive(Clone, Copy)]
enum Shown {
    /// Its song, position, id and priority.
    Song,
    /// Its position and id.
    Position,
    /// Its position and URI.
    Uri,
}

pub(crate) fn playlist(
    alloc: Global,
    asked: Asked,
    part: &Part,
    library: &Library,
) -> Result<Transition, AllocError>
    ensures { IsDecidedBy result (playlist_lem asked part.now) }
{
    let positions = 0..part.queue.len();
    show_positions(alloc, asked, part, library, Shown::Uri, positions)
}

pub(crate) fn playlist_info(
    alloc: Global,
    asked: Asked,
    part: &Part,
    library: &Library,
    range: Option<Range>,
) -> Result<Transition, AllocError>
    ensures { IsDecidedBy result (playlist_info_lem asked part.now library.now range) }
{
    match positions_of(range, part.queue.len()) {
        Some(positions) => show_positions(alloc, asked, part, library, Shown::Song, positions),
        None => Transition::bad_index(alloc, asked),
    }
}

pub(crate) fn playlist_id(
    alloc: Global,
    asked: Asked,
    part: &Part,
    library: &Library,
    id: Option<u32>,
) -> Result<Transition, AllocError>
    ensures { IsDecidedBy result (playlist_id_lem asked part.now library.now id) }
{
    let Some(id) = id else {
        return playlist_info(alloc, asked, part, library, None);
    };
    match part.queue.position_of(id) {
        Some(position) => {
            show_positions(
                alloc,
                asked,
                part,
                library,
                Shown::Song,
                position..position + 1,
            )
        }
        None => Transition::no_such_song(alloc, asked),
    }
}

/// Shows the songs of the queue that meet a filter.
pub(crate) fn playlist_find(
    alloc: Global,
    asked: Asked,
    part: &Part,
    library: &Library,
    case: Case,
    criteria: &Criteria,
) -> Result<Transition, AllocError>
    ensures { IsDecidedBy result (playlist_find_lem asked part.now library.now case criteria.now) }
{
    match criteria {
        Criteria::Meeting(filter) => {
            let positions = positions_meeting(alloc, &part.queue, filter, case)?;
            let shown = Shown::Song;
            let lines = rows(alloc, &part.queue, library, &positions, shown, asked.tags)?;
            Transition::shows(asked, lines)
        }
        Criteria::Refused(text) => {
            Transition::refuses(alloc, asked, ErrorNumber::Argument, text.as_str())
        }
    }
}

/// The positions whose songs meet a filter, rising.
fn positions_meeting(
    alloc: Global,
    queue: &Queue,
    filter: &Filter,
    case: Case,
) -> Result<Vec<usize>, AllocError>
    ensures { IfOk result (λ positions. rows_in queue.now positions.items ≡ meeting queue.now case filter.now) }
{
    let mut positions = Vec::new(alloc);
    for position in 0..queue.len() {
        if meets_at(queue, position, filter, case)? {
            positions.push(position)?;
        }
    }
    Ok(positions)
}

/// Whether there is a song at a position that meets a filter.
fn meets_at(queue: &Queue, position: usize, filter: &Filter, case: Case) -> Result<bool, AllocError>
    ensures { IfOk result (λ met. met ≡ meets_at_lem queue.now case filter.now position) }
{
    match queue.get(position) {
        Some(entry) => does_meet(entry.song.song(), filter, case),
        None => Ok(false),
    }
}

/// The positions of a range, or all, if they are in a list of so many items.
pub(crate) fn positions_of(range: Option<Range>, len: usize) -> Option<ops::Range<usize>>
    ensures positions { result ≡ range_or_all range len }
    ensures inside { IfSome result (LieIn len) }
{
    match range {
        Some(range) => range.within(len),
        None => Some(0..len),
    }
}

fn show_positions(
    alloc: Global,
    asked: Asked,
    part: &Part,
    library: &Library,
    shown: Shown,
    positions: ops::Range<usize>,
) -> Result<Transition, AllocError>
    requires { LieIn (length (queue_of part.now.queue)) positions }
    ensures { IsDecidedBy result (positions_as asked part.now library.now shown positions) }
{
    let lines = rows_between(alloc, &part.queue, library, &positions, shown, asked.tags)?;
    Transition::shows(asked, lines)
}

pub(crate) fn changes(
    alloc: Global,
    asked: Asked,
    part: &Part,
    library: &Library,
    version: u32,
    range: Option<Range>,
) -> Result<Transition, AllocError>
    ensures { IsDecidedBy result (changes_lem asked part.now library.now version range) }
{
    show_changed(alloc, asked, part, library, version, range, Shown::Song)
}

pub(crate) fn changed_positions(
    alloc: Global,
    asked: Asked,
    part: &Part,
    library: &Library,
    version: u32,
    range: Option<Range>,
) -> Result<Transition, AllocError>
    ensures { IsDecidedBy result (changed_positions_lem asked part.now version range) }
{
    show_changed(alloc, asked, part, library, version, range, Shown::Position)
}

/// Shows the entries of a range whose positions changed since a version.
fn show_changed(
    alloc: Global,
    asked: Asked,
    part: &Part,
    library: &Library,
    version: u32,
    range: Option<Range>,
    shown: Shown,
) -> Result<Transition, AllocError>
    ensures { IsDecidedBy result (changes_as asked part.now library.now shown version range) }
{
    let Some(positions) = positions_of(range, part.queue.len()) else {
        return Transition::bad_index(alloc, asked);
    };
    let changed = changed_within(alloc, &part.queue, version, &positions)?;
    let lines = rows(alloc, &part.queue, library, &changed, shown, asked.tags)?;
    Transition::shows(asked, lines)
}

/// The changed positions that lie in a range, rising.
fn changed_within(
    alloc: Global,
    queue: &Queue,
    version: u32,
    within: &ops::Range<usize>,
) -> Result<Vec<usize>, AllocError>
    ensures { IfOk result (λ positions. rows_in queue.now positions.items ≡ changed_between queue.now version within.now) }
{
    let changed = queue.changed_since(version)?;
    let mut positions = Vec::new(alloc);
    for position in &changed {
        if within.start <= *position && *position < within.end {
            positions.push(*position)?;
        }
    }
    Ok(positions)
}

/// The lines of the entries from a position up to another.
fn rows_between(
    alloc: Global,
    queue: &Queue,
    library: &Library,
    positions: &ops::Range<usize>,
    shown: Shown,
    tags: TagSet,
) -> Result<Answer, AllocError>
    requires { LieIn (length (queue_of queue.now)) positions.now }
    ensures { IfOk result (λ lines. lines ≡ rows_of_positions shown tags library.now queue.now positions.now) }
{
    let mut lines = Answer::new(alloc);
    let mut at = positions.start;
    while at < positions.end {
        let run = queue.run(at, positions.end);
        push_run(alloc, &mut lines, library, at, run, shown, tags)?;
        at += run.len();
    }
    Ok(lines)
}

/// Appends the lines of entries that stand one after the other, the first of them at a position.
fn push_run(
    alloc: Global,
    lines: &mut Answer,
    library: &Library,
    first: usize,
    run: &[Slot],
    shown: Shown,
    tags: TagSet,
) -> Result<(), AllocError>
    requires { first + length run.now < 18446744073709551616 }
    ensures { OnOk result (lines.new ≡ lines.old ++ rows_of_run shown tags library.now first (entries_of run.now)) }
{
    let mut position = first;
    for slot in run {
        push_row(
            alloc,
            lines,
            library,
            position,
            Some(&slot.entry),
            shown,
            tags,
        )?;
        position += 1;
    }
    Ok(())
}

/// The lines of the entries at these positions.
fn rows(
    alloc: Global,
    queue: &Queue,
    library: &Library,
    positions: &[usize],
    shown: Shown,
    tags: TagSet,
) -> Result<Answer, AllocError>
    ensures { IfOk result (λ lines. lines ≡ rows_as shown tags library.now (rows_in queue.now positions.now)) }
{
    let mut lines = Answer::new(alloc);
    for position in positions {
        let entry = queue.get(*position);
        push_row(alloc, &mut lines, library, *position, entry, shown, tags)?;
    }
    Ok(lines)
}

fn push_row(
    alloc: Global,
    lines: &mut Answer,
    library: &Library,
    position: usize,
    entry: Option<&Entry>,
    shown: Shown,
    tags: TagSet,
) -> Result<(), AllocError>
    ensures { OnOk result (lines.new ≡ lines.old ++ row_as shown tags library.now position (option_copied entry.entry)) }
{
    let Some(entry) = entry else {
        return Ok(());
    };
    match shown {
        Shown::Song => push_entry(lines, library, position, entry, tags),
        Shown::Position => push_position(lines, position, entry),
        Shown::Uri => push_uri(alloc, lines, position, entry),
    }
}

pub(crate) fn push_entry(
    lines: &mut Answer,
    library: &Library,
    position: usize,
    entry: &Entry,
    tags: TagSet,
) -> Result<(), AllocError>
    ensures { OnOk result (lines.new ≡ lines.old ++ entry_lines tags library.now.rate (position, entry.now)) }
{
    push_shared_with(lines, &entry.song, &library.rate, tags)?;
    lines.pair_number("Pos", position as u64)?;
    lines.pair_number("Id", u64::from(entry.id))?;
    push_priority(lines, entry.priority)
}

fn push_priority(lines: &mut Answer, priority: u8) -> Result<(), AllocError>
    ensures { OnOk result (lines.new ≡ lines.old ++ priority_line priority) }
{
    if priority == 0 {
        return Ok(());
    }
    lines.pair("Prio", priority)
}

fn push_position(lines: &mut Answer, position: usize, entry: &Entry) -> Result<(), AllocError>
    ensures { OnOk result (lines.new ≡ lines.old ++ position_lines (position, entry.now)) }
{
    lines.pair_number("cpos", position as u64)?;
    lines.pair_number("Id", u64::from(entry.id))
}

fn push_uri(
    alloc: Global,
    lines: &mut Answer,
    position: usize,
    entry: &Entry,
) -> Result<(), AllocError>
    ensures { OnOk result (lines.new ≡ lines.old ++ uri_line (position, entry.now)) }
{
    let key = format!(in alloc; "{position}:file")?;
    lines.pair(key.as_str(), entry.song.song().uri())
}
