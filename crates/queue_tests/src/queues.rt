//! Queues that are edited by steps.
//!
//! A step is a line, of a word and numbers, and adds what is answered and what is left. So few functions hold
//! a queue.
use crate::steps::{entry, first_word, number_of};
use song_db::SharedSong;
use song_queue::{Queue, QueueFault};
use std::alloc::{AllocError, Global};
use std::ops::Range;
use std::test::Fail;
use test_songs::song;
use test_texts::{Recorder, wants};

fn songs(alloc: Global, count: usize) -> Result<Vec<SharedSong>, AllocError> {
    let mut songs = Vec::new(alloc);
    for _ in 0..count {
        songs.push(SharedSong::new(alloc, song(alloc, "a.wav", &[], 8_000)?)?)?;
    }
    Ok(songs)
}

fn word_of(answer: Result<(), QueueFault>) -> &'static str {
    match answer {
        Ok(()) => "ok",
        Err(QueueFault::NoSuchSong) => "no such song",
        Err(QueueFault::BadIndex) => "bad index",
        Err(QueueFault::Full) => "full",
        Err(QueueFault::NoMoreIds) => "no more ids",
        Err(QueueFault::NoMemory) => "no memory",
    }
}

/// What is answered to an insertion of so many songs. That there are no songs is kept.
fn insert(
    all: &mut Recorder,
    queue: &mut Queue,
    alloc: Global,
    at: usize,
    count: usize,
) -> &'static str {
    match songs(alloc, count) {
        Ok(songs) => word_of(queue.insert(at, songs)),
        Err(_) => {
            all.fail();
            "no songs"
        }
    }
}

/// The range of two numbers with a colon between them.
fn range_of(text: &str) -> Range<usize> {
    match text.split_once(':') {
        Some((start, end)) => number_of(start) as usize..number_of(end) as usize,
        None => 0..0,
    }
}

fn ranges(alloc: Global, text: &str) -> Result<Vec<Range<usize>>, AllocError> {
    let mut ranges = Vec::new(alloc);
    if text.is_empty() {
        return Ok(ranges);
    }
    for range in text.split(' ') {
        ranges.push(range_of(range))?;
    }
    Ok(ranges)
}

/// What is answered to a priority for ranges. That there are no ranges is kept.
fn prioritize(all: &mut Recorder, queue: &mut Queue, alloc: Global, rest: &str) -> &'static str {
    let (priority, rest) = first_word(rest);
    let priority = (number_of(priority) % 256) as u8;
    match ranges(alloc, rest) {
        Ok(ranges) => word_of(queue.set_prio(ranges.as_slice(), priority)),
        Err(_) => {
            all.fail();
            "no ranges"
        }
    }
}

/// The first three numbers of a text; 0 for each that is not there.
fn three_numbers(text: &str) -> (usize, usize, usize) {
    let (first, rest) = first_word(text);
    let (second, rest) = first_word(rest);
    let (third, _) = first_word(rest);
    (
        number_of(first) as usize,
        number_of(second) as usize,
        number_of(third) as usize,
    )
}

/// What is answered to an edit, by its word: `insert` at a position so many, `remove` from a position to one,
/// `swap` a position and another, `move` from a position to one to a position, and `prio` of a priority and any number
/// of ranges.
fn edit(
    all: &mut Recorder,
    queue: &mut Queue,
    alloc: Global,
    word: &str,
    rest: &str,
) -> &'static str {
    let (first, second, third) = three_numbers(rest);
    match word {
        "insert" => insert(all, queue, alloc, first, second),
        "remove" => word_of(queue.remove(first..second)),
        "swap" => word_of(queue.swap(first, second)),
        "move" => word_of(queue.move_range(first..second, third)),
        _ => prioritize(all, queue, alloc, rest),
    }
}

/// Adds positions, with a space before each; of many how many these are, and the first and the last.
fn add_positions(all: &mut Recorder, positions: &[usize]) {
    let (Some(first), Some(last)) = (positions.first(), positions.last()) else {
        return;
    };
    let count = positions.len();
    if count > 100 {
        return all.add(format_args!(" {count} places from {first} to {last}"));
    }
    for position in positions {
        all.add(format_args!(" {position}"));
    }
}

/// Adds the positions that changed since a version.
fn add_changed(all: &mut Recorder, queue: &Queue, since: u32) {
    match queue.changed_since(since) {
        Ok(positions) => add_positions(all, positions.as_slice()),
        Err(_) => all.fail(),
    }
}

/// Adds an answer, the version, the length, and whether the parity was flipped.
fn add_note(all: &mut Recorder, queue: &Queue, answer: &str, parity: bool) {
    let (version, len) = (queue.version(), queue.len());
    let flipped = if queue.parity() == parity {
        "stays"
    } else {
        "flips"
    };
    all.add(format_args!("{answer} {version} {len} {flipped}"));
}

/// Whether a position is listed: each, or those at the ends and in the middle of a queue of 16,384.
fn is_listed(position: usize, len: usize) -> bool {
    len <= 100 || position <= 1 || position == 8_191 || position == 8_192 || position == 16_383
}

/// Adds an answer, the version and the parity, each entry's id and priority, and the positions that changed since
/// a version.
fn add_whole(all: &mut Recorder, queue: &Queue, answer: &str, since: u32) {
    let (version, parity, len) = (queue.version(), queue.parity(), queue.len());
    all.add(format_args!("{answer} {version} {parity}:"));
    for position in 0..len {
        if is_listed(position, len) {
            let (id, priority) = entry(queue, position);
            all.add(format_args!(" {id}/{priority}"));
        }
    }
    all.add(" new:");
    add_changed(all, queue, since);
}

/// Adds what an edit answers and leaves.
fn add_edit(all: &mut Recorder, queue: &mut Queue, alloc: Global, line: &str, is_whole: bool) {
    let (word, rest) = first_word(line);
    let (version, parity) = (queue.version(), queue.parity());
    let answer = edit(all, queue, alloc, word, rest);
    if is_whole {
        add_whole(all, queue, answer, version);
    } else {
        add_note(all, queue, answer, parity);
    }
}

/// Adds the position of an id, or that it is at none.
fn add_position(all: &mut Recorder, queue: &Queue, id: u32) {
    match queue.position_of(id) {
        Some(position) => all.add(position),
        None => all.add("nowhere"),
    }
}

/// Adds the id at a position, and the position that is found for it, after a space.
fn add_id(all: &mut Recorder, queue: &Queue, position: usize) {
    let (id, _) = entry(queue, position);
    all.add(format_args!(" {id}@"));
    add_position(all, queue, id);
}

/// Adds what is shown where a step asks for it: `ids`, from position to position, or, with a number, `new` or `whole`
/// since a version, `place` or `id`.
fn show(all: &mut Recorder, queue: &Queue, rest: &str) {
    let (what, number) = first_word(rest);
    let number = number_of(number);
    match what {
        "new" => add_changed(all, queue, number),
        "whole" => add_whole(all, queue, "shown", number),
        "place" => add_position(all, queue, number),
        "id" => add_id(all, queue, number as usize),
        _ => {
            for position in 0..queue.len() {
                add_id(all, queue, position);
            }
        }
    }
}

/// Adds what each step tells: an edit, alone or after `whole`, or `show` and what is asked for.
fn add_steps(all: &mut Recorder, queue: &mut Queue, alloc: Global, steps: &str) {
    for line in steps.lines() {
        let (word, rest) = first_word(line);
        match word {
            "show" => show(all, queue, rest),
            "whole" => add_edit(all, queue, alloc, rest, true),
            _ => add_edit(all, queue, alloc, line, false),
        }
        all.add("\n");
    }
}

/// The most entries, the greatest version and the greatest id of a queue; how many songs were added to it one
/// by one; the steps, and what they tell, with a line for each.
pub type Row<'a> = ((usize, u32, u32), usize, &'a str, &'a str);

pub const GREATEST: (usize, u32, u32) = (16_384, 2_147_483_647, 2_147_483_647);

/// What the steps of a row tell, after so many songs were put into the empty queue, one by one.
fn observed(alloc: Global, row: &Row<'_>) -> Result<String, AllocError> {
    let ((max_len, max_version, max_id), count, steps, _) = *row;
    let mut all = Recorder::new(alloc);
    let mut queue = Queue::new(alloc, max_len, max_version.max(1), max_id);
    for at in 0..count {
        let _ok = insert(&mut all, &mut queue, alloc, at, 1);
    }
    add_steps(&mut all, &mut queue, alloc, steps);
    all.into_text()
}

/// Fails where the steps of a row tell something else.
pub fn check_rows(alloc: Global, rows: &[Row<'_>]) -> Result<(), Fail> {
    for row in rows {
        wants(observed(alloc, row), row.3)?;
    }
    Ok(())
}
