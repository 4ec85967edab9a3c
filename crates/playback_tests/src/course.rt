//! A round and the queue that it orders, led by steps.
//!
//! A step is a line, of a word and numbers, and tells what starts. These functions are the only ones that
//! hold a round.
use crate::tables::{Led, consume_of, observed_of_two, single_of, songs};
use play_order::{Consume, Ending, Modes, Round, Single};
use queue_tests::steps::{first_word, number_of, two_numbers};
use song_queue::{Entry, Queue};
use std::alloc::{AllocError, Global};
use std::collections::HashSet;
use test_texts::Recorder;

#[derive(Drop)]
struct Course {
    round: Round,
    queue: Queue,
    modes: Modes,
}

/// An empty queue in its own order, and a generator that was made of the seed 0.
fn opened(alloc: Global) -> Course {
    Course {
        round: Round::new(alloc, 0),
        queue: Queue::new(alloc, 16384, 2147483647, 2147483647),
        modes: Modes {
            repeat: false,
            random: false,
            single: Single::Off,
            consume: Consume::Off,
        },
    }
}

/// What is answered to what only changes something. That there was no memory for it is kept.
fn done(observed: &mut Recorder, changed: Result<(), AllocError>) -> &'static str {
    if changed.is_err() {
        observed.fail();
    }
    "ok"
}

/// Puts so many songs at the end.
fn add(observed: &mut Recorder, course: &mut Course, alloc: Global, count: usize) -> &'static str {
    let Ok(songs) = songs(alloc, "a", count) else {
        return done(observed, Err(AllocError));
    };
    let len = songs.items().len();
    if !course.queue.has_room(len) || !course.queue.has_ids(len) {
        return "full";
    }
    let at = course.queue.len();
    done(observed, course.round.insert(&mut course.queue, at, songs))
}

/// Sets the modes from four numbers: repeat, random, single and consume, where 2 is oneshot.
fn set_modes(course: &mut Course, given: &str) {
    let (repeat, rest) = first_word(given);
    let (random, rest) = first_word(rest);
    let (single, consume) = two_numbers(rest);
    course.modes = Modes {
        repeat: repeat == "1",
        random: random == "1",
        single: single_of(single),
        consume: consume_of(consume),
    };
}

/// Turns random order on, with a current song or none.
fn randomize(observed: &mut Recorder, course: &mut Course, current: Option<u32>) -> &'static str {
    course.modes.random = true;
    done(observed, course.round.randomized(&course.queue, current))
}

fn prioritize(course: &mut Course, given: &str) -> &'static str {
    let (priority, position) = two_numbers(given);
    let position = position as usize;
    let priority = (priority % 256) as u8;
    match course.queue.set_prio(&[position..position + 1], priority) {
        Ok(()) => "ok",
        Err(_) => "refused",
    }
}

/// Shuffles the entries of a range, or takes them out, of which none is current.
fn change_range(
    observed: &mut Recorder,
    course: &mut Course,
    word: &str,
    given: &str,
) -> &'static str {
    let (start, end) = two_numbers(given);
    let (start, end) = (start as usize, end as usize);
    if start > end || end > course.queue.len() {
        return "bad index";
    }
    let changed = if word == "shuffle" {
        course.round.shuffle(&mut course.queue, start..end)
    } else {
        course.round.remove(&mut course.queue, start..end)
    };
    done(observed, changed)
}

/// What is answered to a step that changes something and starts nothing; an empty text to another step.
fn change(
    observed: &mut Recorder,
    course: &mut Course,
    alloc: Global,
    word: &str,
    given: &str,
) -> &'static str {
    let number = number_of(given);
    match word {
        "add" => return add(observed, course, alloc, number as usize),
        "shuffle" | "delete" => return change_range(observed, course, word, given),
        "prio" => return prioritize(course, given),
        "random" => return randomize(observed, course, None),
        "random-at" => return randomize(observed, course, Some(number)),
        "start" => return done(observed, course.round.started(course.modes, number)),
        "modes" => set_modes(course, given),
        "in-order" => {
            course.modes.random = false;
            course.round.emptied();
        }
        _ => return "",
    }
    "ok"
}

/// Adds an id, or that there is none.
fn add_id(observed: &mut Recorder, id: Option<u32>) {
    match id {
        Some(id) => observed.add(id),
        None => observed.add("none"),
    }
}

fn add_entry(observed: &mut Recorder, entry: Option<&Entry>) {
    match entry {
        Some(entry) => observed.add(entry.id),
        None => observed.add("none"),
    }
}

/// Adds what was found to start.
fn add_found(observed: &mut Recorder, found: Result<Option<u32>, AllocError>) {
    match found {
        Ok(id) => add_id(observed, id),
        Err(_) => observed.fail(),
    }
}

fn single_text(single: Single) -> &'static str {
    match single {
        Single::Off => "off",
        Single::On => "on",
        Single::Oneshot => "oneshot",
    }
}

fn consume_text(consume: Consume) -> &'static str {
    match consume {
        Consume::Off => "off",
        Consume::On => "on",
        Consume::Oneshot => "oneshot",
    }
}

/// Adds what an end led to; the modes that it left are those of the next step.
fn add_ending(observed: &mut Recorder, course: &mut Course, ending: Ending) {
    course.modes = ending.modes;
    add_id(observed, ending.starts);
    observed.add(", current ");
    add_id(observed, ending.current);
    let single = single_text(ending.modes.single);
    let consume = consume_text(ending.modes.consume);
    let len = course.queue.len();
    observed.add(format_args!(", single {single}, consume {consume}, {len} left"));
}

/// Adds what a song's end by itself or by `next` leads to, which has to be as foretold.
fn add_end(observed: &mut Recorder, course: &mut Course, word: &str, id: u32) {
    let modes = course.modes;
    let (foretold, ending) = if word == "next" {
        let starts = course.round.starts_after_next(modes, &course.queue, id);
        let ending = course.round.after_next(modes, &mut course.queue, id);
        (starts, ending)
    } else {
        let starts = course.round.starts_after_end(modes, &course.queue, id);
        let ending = course.round.after_end(modes, &mut course.queue, id);
        (starts, ending)
    };
    match ending {
        Ok(ending) => {
            if foretold == ending.starts.is_some() {
                add_ending(observed, course, ending);
            } else {
                observed.add("not as foretold");
            }
        }
        Err(_) => observed.fail(),
    }
}

/// Takes the entries of a range out, of which one is current, and adds what starts, where it was said before
/// that something does.
fn add_removal(observed: &mut Recorder, course: &mut Course, given: &str) {
    let (start, end) = two_numbers(given);
    let (start, end) = (start as usize, end as usize);
    if start > end || end > course.queue.len() {
        return observed.add("bad index");
    }
    let starts = course
        .round
        .starts_after_removal(course.modes, &course.queue, start..end);
    let found = course
        .round
        .after_removal(course.modes, &mut course.queue, start..end);
    match found {
        Ok(id) => {
            if starts == id.is_some() {
                add_id(observed, id);
            } else {
                observed.add("not as foretold");
            }
        }
        Err(_) => observed.fail(),
    }
}

/// Adds the ids of the queue, with a space before each.
fn add_ids(observed: &mut Recorder, course: &Course) {
    for position in 0..course.queue.len() {
        if let Some(entry) = course.queue.get(position) {
            let id = entry.id;
            observed.add(format_args!(" {id}"));
        }
    }
}

/// Adds version and parity of the queue, the positions that changed since a version, and the ids.
fn add_queue(observed: &mut Recorder, course: &Course, version: u32) {
    let now = course.queue.version();
    let parity = course.queue.parity();
    observed.add(format_args!("version {now}, parity {parity}, changed"));
    let Ok(positions) = course.queue.changed_since(version) else {
        return observed.fail();
    };
    for position in positions.as_slice() {
        observed.add(format_args!(" {position}"));
    }
    observed.add(", ids");
    add_ids(observed, course);
}

/// How many different songs, from the one on that opens, `next` starts until none is left; 0 where more than so
/// many come.
fn count_started(course: &mut Course, alloc: Global, count: usize) -> Result<usize, AllocError> {
    let mut current = course.round.opening(course.modes, &course.queue)?;
    let mut seen = HashSet::new(alloc);
    for _ in 0..count {
        if let Some(id) = current {
            let _new = seen.insert(id)?;
            let ending = course
                .round
                .after_next(course.modes, &mut course.queue, id)?;
            current = ending.starts;
        }
    }
    Ok(if current.is_some() { 0 } else { seen.len() })
}

fn add_count(observed: &mut Recorder, course: &mut Course, alloc: Global, count: usize) {
    match count_started(course, alloc, count) {
        Ok(count) => observed.add(count),
        Err(_) => observed.fail(),
    }
}

/// Adds what a step shows, or what it starts.
fn show(observed: &mut Recorder, course: &mut Course, alloc: Global, word: &str, given: &str) {
    let id = number_of(given);
    match word {
        "ids" => add_ids(observed, course),
        "queue" => add_queue(observed, course, id),
        "peek" => add_entry(observed, course.round.peek(course.modes, &course.queue, id)),
        "before" => add_entry(
            observed,
            course.round.before(course.modes, &course.queue, id),
        ),
        "open" => add_found(observed, course.round.opening(course.modes, &course.queue)),
        "previous" => {
            let found = course.round.after_previous(course.modes, &course.queue, id);
            add_found(observed, found);
        }
        "delete-current" => add_removal(observed, course, given),
        "count" => add_count(observed, course, alloc, id as usize),
        _ => add_end(observed, course, word, id),
    }
}

impl Led for Course {
    /// The image of a round, and a copy of its queue.
    fn image(&self) -> Result<Course, AllocError> {
        Ok(Course {
            round: self.round.image()?,
            queue: self.queue.try_clone()?,
            modes: self.modes,
        })
    }

    /// Adds a step and what it tells, on a line each, where that is more than `ok`.
    fn step(&mut self, observed: &mut Recorder, alloc: Global, line: &str) {
        let (word, given) = first_word(line);
        let answer = change(observed, self, alloc, word, given);
        if answer == "ok" {
            return;
        }
        observed.add(format_args!("{line}\n{answer}"));
        if answer.is_empty() {
            show(observed, self, alloc, word, given);
        }
        observed.add("\n");
    }
}

/// What the steps tell, with each step that tells more than `ok` and a line for what it tells.
pub fn observed(alloc: Global, steps: &str) -> Result<String, AllocError> {
    observed_of_two(alloc, opened(alloc), opened(alloc), steps)
}
