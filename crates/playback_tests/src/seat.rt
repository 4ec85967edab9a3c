//! A player and its queue, led by steps.
//!
//! A step is a line, of a word and numbers, and tells what is answered. These functions are the only ones
//! that hold a player.
use crate::tables::{Led, consume_of, observed_of_two, single_of, songs};
use player_core::{Job, Playback, Player, PlayerFault};
use queue_tests::steps::{first_word, number_of, two_numbers};
use song_queue::Queue;
use std::alloc::{AllocError, Global};
use test_texts::Recorder;

/// Frames a second.
const RATE: u32 = 8000;

#[derive(Drop)]
struct Seat {
    player: Player,
    queue: Queue,
}

/// Puts the song of a letter at the end. That there was no memory for it is kept.
fn add(observed: &mut Recorder, seat: &mut Seat, alloc: Global, letter: &str) -> &'static str {
    let Ok(songs) = songs(alloc, letter, 1) else {
        observed.fail();
        return "no songs";
    };
    let count = songs.items().len();
    if !seat.queue.has_room(count) || !seat.queue.has_ids(count) {
        return "full";
    }
    let at = seat.queue.len();
    if seat.player.insert(&mut seat.queue, at, songs).is_err() {
        observed.fail();
    }
    "ok"
}

fn word(answer: Result<(), PlayerFault>) -> &'static str {
    match answer {
        Ok(()) => "ok",
        Err(PlayerFault::CutsAtLimit) => "limit",
        Err(PlayerFault::NoMemory) => "no memory",
    }
}

fn remove(seat: &mut Seat, start: usize, end: usize) -> &'static str {
    if start > end || end > seat.queue.len() {
        return "bad index";
    }
    word(seat.player.remove(&mut seat.queue, start..end))
}

/// Plays the entry at a position, or with no position.
fn play(seat: &mut Seat, given: &str) -> &'static str {
    if given.is_empty() {
        return word(seat.player.play(&seat.queue));
    }
    match seat.queue.get(number_of(given) as usize) {
        Some(entry) => word(seat.player.play_entry(entry)),
        None => "bad index",
    }
}

fn seek(seat: &mut Seat, position: u32, frame: u32) -> &'static str {
    match seat.queue.get(position as usize) {
        Some(entry) => word(seat.player.seek(entry, u64::from(frame))),
        None => "bad index",
    }
}

fn random(seat: &mut Seat, on: bool) -> &'static str {
    match seat.player.set_random(&seat.queue, on) {
        Ok(()) => "ok",
        Err(_) => "no memory",
    }
}

/// What only sets something.
fn set(player: &mut Player, word_of: &str, number: u32) -> &'static str {
    match word_of {
        "repeat" => player.set_repeat(number == 1),
        "single" => player.set_single(single_of(number)),
        "consume" => player.set_consume(consume_of(number)),
        "crossfade" => player.set_crossfade(number),
        "pause" => player.pause(number == 1),
        "toggle" => player.toggle_pause(),
        "clearerror" => player.clear_error(),
        _ => return "no such step",
    }
    "ok"
}

/// What is answered to a step that moves, adds, takes out or sets something.
fn answer(
    observed: &mut Recorder,
    seat: &mut Seat,
    alloc: Global,
    word_of: &str,
    given: &str,
) -> &'static str {
    let (first, second) = two_numbers(given);
    match word_of {
        "add" => add(observed, seat, alloc, given),
        "play" => play(seat, given),
        "stop" => word(seat.player.stop()),
        "next" => word(seat.player.next(&mut seat.queue)),
        "previous" => word(seat.player.previous(&seat.queue)),
        "seek" => seek(seat, first, second),
        "delete" => remove(seat, first as usize, second as usize),
        "random" => random(seat, first == 1),
        "failed" => {
            let partner = second == 1;
            word(seat.player.failed(&seat.queue, u64::from(first), partner))
        }
        _ => set(&mut seat.player, word_of, first),
    }
}

/// Adds number, id, first frame and count of a job, and its part of a fade.
fn add_job(observed: &mut Recorder, job: Job) {
    let (number, id, from, count) = (job.number, job.id, job.from, job.count);
    observed.add(format_args!("job {number} {id} {from} {count}"));
    if let Some(part) = job.fade {
        let (partner, index, len) = (part.partner, part.index, part.len);
        observed.add(format_args!(" fade {partner} {index} {len}"));
    }
}

fn want(observed: &mut Recorder, seat: &mut Seat, enabled: bool, owes: bool) {
    match seat.player.want(RATE, &mut seat.queue, enabled, owes) {
        Ok(Some(job)) => add_job(observed, job),
        Ok(None) => observed.add("none"),
        Err(fault) => observed.add(word(Err(fault))),
    }
}

fn have(observed: &mut Recorder, seat: &mut Seat, number: u32, count: u32) {
    match seat
        .player
        .have(&mut seat.queue, u64::from(number), u64::from(count))
    {
        Ok(Some(cut)) => observed.add(format_args!("feed {cut}")),
        Ok(None) => observed.add("stale"),
        Err(fault) => observed.add(word(Err(fault))),
    }
}

/// The id of what would come next, or 0 for none.
fn next_id(seat: &Seat) -> u32 {
    match seat.player.peek(&seat.queue) {
        Some(entry) => entry.id,
        None => 0,
    }
}

/// Adds state, current song, or 0 for none, offset, starts, cuts, what would come next, how many entries, and the
/// error.
fn show(observed: &mut Recorder, seat: &Seat) {
    let state = match seat.player.playback() {
        Playback::Stop => "stop",
        Playback::Play => "play",
        Playback::Pause => "pause",
    };
    let current = seat.player.current().unwrap_or(0);
    let offset = seat.player.offset();
    let starts = seat.player.starts();
    let cuts = seat.player.cuts();
    let next = next_id(seat);
    let len = seat.queue.len();
    let error = seat.player.error().unwrap_or("no error");
    observed.add(format_args!(
        "{state} {current} at {offset}, {starts} starts, {cuts} cuts, next {next}, {len} entries, {error}"
    ));
}

impl Led for Seat {
    /// The image of a player, and a copy of its queue.
    fn image(&self) -> Result<Seat, AllocError> {
        Ok(Seat {
            player: self.player.image()?,
            queue: self.queue.try_clone()?,
        })
    }

    /// Adds what a step tells, on a line, where that is more than `ok`.
    fn step(&mut self, observed: &mut Recorder, alloc: Global, line: &str) {
        let (word_of, given) = first_word(line);
        let (first, second) = two_numbers(given);
        match word_of {
            "show" => show(observed, self),
            "want" => want(observed, self, first == 0, second == 1),
            "have" => have(observed, self, first, second),
            _ => {
                let answer = answer(observed, self, alloc, word_of, given);
                if answer == "ok" {
                    return;
                }
                observed.add(answer);
            }
        }
        observed.add("\n");
    }
}

/// What the steps tell, with a line for each that tells more than `ok`. The player's numbers go up to a
/// greatest one.
pub fn observed(alloc: Global, max_cut: u32, steps: &str) -> Result<String, AllocError> {
    let seat = Seat {
        player: Player::new(alloc, 0, u64::from(max_cut)),
        queue: Queue::new(alloc, 16384, 2147483647, 2147483647),
    };
    let kept = seat.image()?;
    observed_of_two(alloc, seat, kept, steps)
}
