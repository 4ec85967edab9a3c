//! A player that is lent a shelf.
use command_lists::ListForm;
use mpd_command::{CommandSet, Request};
use partition::Partition;
use player_events::Event;
use player_state::Outputs;
use shelf::Shelf;
use std::alloc::{AllocError, Global};
use test_players::{library, list_answer, player, requests};
use test_songs::song;
use test_texts::Recorder;
use transitions::ListPlace;

/// A player over a song of one second and one of four frames, without outputs, whose window has at most two events.
fn opened(alloc: Global) -> Result<Partition, AllocError> {
    let mut songs = Vec::new(alloc);
    songs.push(song(alloc, "a.wav", &[], 8_000)?)?;
    songs.push(song(alloc, "s.wav", &[], 4)?)?;
    player(alloc, 2, Outputs::none(alloc), library(alloc, songs)?)
}

/// Applies an event, and adds what the client hears of it.
fn happens<S: Shelf>(recorder: &mut Recorder, player: &mut Partition, shelf: &mut S, event: Event) {
    match player.apply(3, shelf, event) {
        Ok(outcome) => recorder.add(outcome.reply().text()),
        Err(_) => recorder.add("not applied\n"),
    }
}

/// Says a line that is no list, and adds what the client hears.
fn says<S: Shelf>(
    recorder: &mut Recorder,
    alloc: Global,
    player: &mut Partition,
    shelf: &mut S,
    line: &str,
) {
    match Request::of_line(alloc, line, CommandSet::base()) {
        Ok(request) => happens(
            recorder,
            player,
            shelf,
            Event::line(1, ListPlace::Alone, request),
        ),
        Err(_) => recorder.fail(),
    }
}

/// Runs a list of the commands between semicolons, and adds what the client hears before its end.
fn lists<S: Shelf>(
    recorder: &mut Recorder,
    alloc: Global,
    player: &mut Partition,
    shelf: &mut S,
    commands: &str,
) {
    let Ok(requests) = requests(alloc, commands) else {
        return recorder.fail();
    };
    match player.run_list(3, shelf, 1, ListForm::ListOk, requests) {
        Ok(outcome) => recorder.add_made(list_answer(alloc, &outcome)),
        Err(_) => recorder.add("not run\n"),
    }
}

/// Adds what a client hears that comes to a new player and says these lines. A line with semicolons is a list.
pub fn session<S: Shelf>(recorder: &mut Recorder, alloc: Global, shelf: &mut S, lines: &str) {
    let Ok(mut player) = opened(alloc) else {
        return recorder.fail();
    };
    happens(recorder, &mut player, shelf, Event::Connect(1));
    for line in lines.lines() {
        if line.contains(';') {
            lists(recorder, alloc, &mut player, shelf, line);
        } else {
            says(recorder, alloc, &mut player, shelf, line);
        }
    }
}
