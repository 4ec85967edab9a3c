//! Two threads add songs by turns, and each looks up the id that it was given.
use crate::rooms::seat_of;
use house::{House, Ledgers, Seat};
use mpd_text::number;
use std::alloc::Global;
use std::sync::Wait;
use std::thread;
use std::thread::Threads;
use test_houses::{comes, hears};
use test_texts::Recorder;

/// How often a thread found its own song by the id that it was given, and these ids.
#[derive(Drop)]
struct Found {
    times: u32,
    ids: Vec<u32>,
}

/// The id that an answer to `addid` tells; 0 where it tells none.
fn id_in(answer: &str) -> u32 {
    let Some(rest) = answer.strip_prefix("Id: ") else {
        return 0;
    };
    let Some((id, _)) = rest.split_once('\n') else {
        return 0;
    };
    number(id).unwrap_or(0)
}

/// Who looks up its songs, each by a command or by a list of one command.
#[derive(Drop)]
struct Caller<L: Ledgers> {
    seat: Seat<L>,
    in_list: bool,
}

/// Adds a song, and gives its id; 0, which no song has, after a fault.
fn adds<L: Ledgers>(
    rt: &impl Wait,
    alloc: Global,
    house: &House<L>,
    caller: &mut Caller<L>,
    client: u32,
    uri: &str,
) -> u32 {
    let Caller { seat, in_list } = caller;
    let Ok(line) = format!(in alloc; "addid {uri}") else {
        return 0;
    };
    match hears(rt, alloc, house, seat, client, line.as_str(), *in_list) {
        Ok(added) => id_in(added.as_str()),
        Err(_) => 0,
    }
}

/// Whether an answer to `playlistid` begins with this song.
fn begins_with(answer: &str, uri: &str) -> bool {
    let Some(rest) = answer.strip_prefix("file: ") else {
        return false;
    };
    match rest.strip_prefix(uri) {
        Some(rest) => rest.starts_with('\n'),
        None => false,
    }
}

/// Whether the id is this song's; not so after a fault.
fn is_own<L: Ledgers>(
    rt: &impl Wait,
    alloc: Global,
    house: &House<L>,
    caller: &mut Caller<L>,
    client: u32,
    id: u32,
    uri: &str,
) -> bool {
    let Caller { seat, in_list } = caller;
    let Ok(line) = format!(in alloc; "playlistid {id}") else {
        return false;
    };
    match hears(rt, alloc, house, seat, client, line.as_str(), *in_list) {
        Ok(shown) => begins_with(shown.as_str(), uri),
        Err(_) => false,
    }
}

/// Adds a song and looks up its id.
fn looks_up_once<L: Ledgers>(
    rt: &impl Wait,
    alloc: Global,
    house: &House<L>,
    caller: &mut Caller<L>,
    client: u32,
    uri: &str,
    found: &mut Found,
) {
    let id = adds(rt, alloc, house, caller, client, uri);
    let is_own = is_own(rt, alloc, house, caller, client, id, uri);
    found.times = found.times.saturating_add(u32::from(is_own));
    found.ids.push(id).ok();
}

/// Adds a song a hundred times, and looks up the id each time. A fault makes what is found less.
fn looks_up<L: Ledgers>(
    rt: &impl Wait,
    alloc: Global,
    house: &House<L>,
    caller: Caller<L>,
    client: u32,
    uri: &str,
) -> Found {
    let mut caller = caller;
    let mut found = Found {
        times: 0,
        ids: Vec::new(alloc),
    };
    if comes(rt, house, &mut caller.seat, client).is_ok() {
        for _ in 0..100u32 {
            looks_up_once(rt, alloc, house, &mut caller, client, uri, &mut found);
        }
    }
    found
}

/// How many of the ids from 1 to 200 were given once.
fn given_once(one: &[u32], two: &[u32]) -> u32 {
    let mut once = 0u32;
    for id in 1..201u32 {
        let ones = one.iter().filter(|given| **given == id).count();
        let twos = two.iter().filter(|given| **given == id).count();
        if ones.saturating_add(twos) == 1 {
            once = once.saturating_add(1);
        }
    }
    once
}

/// Both clients look up their songs, each in a thread of its own.
fn look_up_at_once<L: Ledgers + Send + Sync, R: Threads + Wait + Sync>(
    rt: &R,
    alloc: Global,
    house: &House<L>,
    one: Seat<L>,
    two: Seat<L>,
    in_list: bool,
) -> (Found, Found) {
    let one = Caller { seat: one, in_list };
    let two = Caller { seat: two, in_list };
    thread::join(
        rt,
        move || looks_up(rt, alloc, house, one, 1, "a.wav"),
        move || looks_up(rt, alloc, house, two, 2, "b.wav"),
    )
}

/// Adds how often each of two callers found its own song that look up their songs side by side, and how many ids
/// were given once.
pub(crate) fn race<L: Ledgers + Send + Sync, R: Threads + Wait + Sync>(
    rt: &R,
    alloc: Global,
    house: &House<L>,
    in_list: bool,
    recorder: &mut Recorder,
) {
    let (Ok(one), Ok(two)) = (seat_of(rt, house), seat_of(rt, house)) else {
        recorder.fail();
        return;
    };
    let (one, two) = look_up_at_once(rt, alloc, house, one, two, in_list);
    let once = given_once(&one.ids, &two.ids);
    let (ones, twos) = (one.times, two.times);
    recorder.add(format_args!("found {ones} and {twos}, given once {once}\n"));
}

/// What is observed of them.
pub(crate) const TELLS: &str = "found 100 and 100, given once 200\n";
