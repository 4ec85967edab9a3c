//! The longest queue and the longest stored playlist.
use crate::session::session;
use std::alloc::{AllocError, Global};
use std::test::Fail;
use test_texts::{Recorder, wants_made};

/// Adds steps after which the queue has 16,384 entries: it is saved and loaded 14 times, and so doubles each
/// time.
pub(crate) fn add_doubling(steps: &mut Recorder) {
    steps.add("comes 1\n1 add a.wav\n");
    for number in 0..14u32 {
        steps.add(format_args!("1 save p{number}\n1 load p{number}\n"));
    }
}

/// Adds what they tell.
pub(crate) fn add_doubled(recorder: &mut Recorder, alloc: Global) {
    recorder.add("OK MPD 0.23.0\n");
    recorder.add_made("OK\n".repeat(alloc, 29));
}

/// What these steps tell after those.
fn doubled(alloc: Global, after: &str) -> Result<String, AllocError> {
    let mut steps = Recorder::new(alloc);
    add_doubling(&mut steps);
    steps.add(after);
    session(alloc, steps.into_text()?.as_str())
}

const LONGEST: &str = "show counts
1 save full
1 load full 0
1 clear
1 load full
show counts
1 delete 1:
1 load full
show counts
1 load full 16383:
show counts
1 load full 16384:
1 load full 16385:";

const LONGEST_TELLS: &str =
    "seat 15: 1, seat 3: 29, all: 30, entries: 16384, clients: 1, volume: 100
OK
ACK [51@0] {load} playlist is full
OK
OK
seat 15: 1, seat 3: 33, all: 34, entries: 16384, clients: 1, volume: 100
OK
ACK [51@0] {load} playlist is full
seat 15: 1, seat 3: 35, all: 36, entries: 1, clients: 1, volume: 100
OK
seat 15: 1, seat 3: 36, all: 37, entries: 2, clients: 1, volume: 100
OK
ACK [2@0] {load} bad song index
";

fn longest_tells(alloc: Global) -> Result<String, AllocError> {
    let mut recorder = Recorder::new(alloc);
    add_doubled(&mut recorder, alloc);
    recorder.add(LONGEST_TELLS);
    recorder.into_text()
}

const FULL_LIST: &str = "1 save full
1 playlistadd full a.wav
1 playlistadd full \"\"
1 playlistdelete full 16384
1 playlistdelete full 16383
1 playlistadd full a.wav
1 playlistadd full a.wav
1 playlistmove full 16383 0
1 playlistmove full 0 16384
1 listplaylist full";

const FULL_LIST_TELLS: &str = "OK
ACK [51@0] {playlistadd} playlist is full
ACK [51@0] {playlistadd} playlist is full
ACK [2@0] {playlistdelete} bad song index
OK
OK
ACK [51@0] {playlistadd} playlist is full
OK
ACK [2@0] {playlistmove} bad song index
";

fn full_list_tells(alloc: Global) -> Result<String, AllocError> {
    let mut recorder = Recorder::new(alloc);
    add_doubled(&mut recorder, alloc);
    recorder.add(FULL_LIST_TELLS);
    recorder.add_made("file: a.wav\n".repeat(alloc, 16_384));
    recorder.add("OK\n");
    recorder.into_text()
}

/// The longest queue is saved and loaded, and the longest list takes no more.
#[test]
fn the_longest_queue_and_list(rt: HostRuntime) -> Result<(), Fail> {
    let alloc = rt.alloc();
    wants_made(doubled(alloc, LONGEST), longest_tells(alloc))?;
    wants_made(doubled(alloc, FULL_LIST), full_list_tells(alloc))
}
