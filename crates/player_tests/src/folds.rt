//! Folds of the history: a session tells the same in a window of any size, and with a fold by hand between
//! any two events. The worked rows show the former of each command.
use crate::session::{session, session_over, session_within};
use crate::sessions::{ROOMS, ROOMS_TELL, SCANS, SCANS_TELL, add_numbered};
use crate::shelf_sizes::{add_doubled, add_doubling};
use std::alloc::{AllocError, Global};
use std::test::Fail;
use test_texts::{Recorder, wants, wants_made};

/// The most events of the windows in which each session is run.
const WINDOWS: [u32; 4] = [1, 2, 3, 4096];

/// What a session tells with a fold before the step at an index; indices count from 0.
fn with_fold(alloc: Global, uris: &str, steps: &str, index: usize) -> Result<String, AllocError> {
    let mut folded = Recorder::new(alloc);
    for (number, line) in steps.lines().enumerate() {
        if number == index {
            folded.add("folds\n");
        }
        folded.add(format_args!("{line}\n"));
    }
    session_over(alloc, uris, folded.into_text()?.as_str())
}

/// Adds where a session was, where it told something else than is expected.
fn add_odd(
    recorder: &mut Recorder,
    session: Result<String, AllocError>,
    expected: &str,
    at: &str,
    number: usize,
) {
    match session {
        Ok(text) => {
            if text.as_str() != expected {
                recorder.add(format_args!("{at} {number}\n"));
            }
        }
        Err(_) => recorder.fail(),
    }
}

/// The numbers of the windows in which a session tells something else than is expected, and the indices of the
/// steps before which a fold makes it do so, each in a line.
fn oddities(alloc: Global, uris: &str, steps: &str, expected: &str) -> Result<String, AllocError> {
    let mut recorder = Recorder::new(alloc);
    for most in WINDOWS.iter() {
        let session = session_within(alloc, *most, uris, steps);
        add_odd(
            &mut recorder,
            session,
            expected,
            "in a window of",
            *most as usize,
        );
    }
    for index in 0..steps.lines().count() {
        let session = with_fold(alloc, uris, steps, index);
        add_odd(
            &mut recorder,
            session,
            expected,
            "with a fold before step",
            index,
        );
    }
    recorder.into_text()
}

/// A session that leaves something in each part of the state, and then shows all of it.
const HOUSE: &str = "comes 1
comes 2
1 add a.wav
1 add b.wav
1 addid c.wav 1
1 prioid 3 2
1 swap 0 1
2 idle mixer
1 setvol 40
1 play 1
decoder wants
decoder 1 1024
turn 0 500 24
1 subscribe news
2 sendmessage news hello
1 update
scan fails
1 playlistadd x b.wav
show pending
show entries
show books
show counts
2 idle
1 readmessages
1 plchangesposid 5
1 status
goes 2
comes 2
show pending
1 idle
1 playlistdelete x 0
show counts";

const HOUSE_TELLS: &str = "OK MPD 0.23.0
OK MPD 0.23.0
OK
OK
Id: 3
OK
OK
OK
waits
OK
2: changed: mixer
OK
job 1 1 0 1024
feed 1 40
live 1 true false
OK
OK
updating_db: 1
OK
ended
OK
client: 1
changed: update
changed: stored_playlist
changed: playlist
changed: player
changed: mixer
changed: subscription
changed: message
client: 2
changed: update
changed: stored_playlist
changed: player
changed: subscription
id 3, priority 0
id 1, priority 0
id 2, priority 3
decoded 1024, written 500, discarded 24
decoded 1024, written 0, discarded 0
decoded 0, written 0, discarded 0
decoded 0, written 0, discarded 0
seat 15: 2, seat 3: 12, all: 18, entries: 3, clients: 2, volume: 40
changed: update
changed: stored_playlist
changed: player
changed: subscription
OK
channel: news
message: hello
OK
cpos: 0
Id: 3
cpos: 1
Id: 1
OK
volume: 40
repeat: 0
random: 0
single: 0
consume: 0
partition: default
playlist: 6
playlistlength: 3
state: play
song: 1
songid: 1
nextsong: 2
nextsongid: 2
elapsed: 0.128
duration: 1.000
audio: 8000:16:2
OK
closed
OK MPD 0.23.0
client: 1
changed: update
changed: stored_playlist
changed: playlist
changed: player
changed: mixer
changed: subscription
changed: message
client: 2
changed: update
changed: stored_playlist
changed: playlist
changed: player
changed: mixer
changed: subscription
changed: message
OK
OK
seat 15: 4, seat 3: 18, all: 26, entries: 3, clients: 2, volume: 40
";

const THREE: &str = "a.wav
b.wav
c.wav";

/// Outputs and scans, and a session that leaves something in each part.
#[test]
fn folds_keep_each_part(rt: HostRuntime) -> Result<(), Fail> {
    let alloc = rt.alloc();
    wants(oddities(alloc, "a.wav", ROOMS, ROOMS_TELL), "")?;
    wants(oddities(alloc, "a.wav", SCANS, SCANS_TELL), "")?;
    wants(session_over(alloc, THREE, HOUSE), HOUSE_TELLS)?;
    wants(oddities(alloc, THREE, HOUSE, HOUSE_TELLS), "")
}

/// What is shown of the window after each of four events.
const FOUR_EVENTS: &str = "comes 1
show window
1 ping
show window
1 nosuch
show window
turn 0 0 0
show window";

/// What is observed of four events, with what is shown after each, in a window of one event: the events of the
/// window, their bytes, and all events.
const IN_ONE: &str = "OK MPD 0.23.0
events: 1, bytes: 14, all: 1
OK
events: 1, bytes: 3, all: 2
ACK [5@0] {} unknown command \"nosuch\"
events: 1, bytes: 38, all: 3
live 0 true false
events: 1, bytes: 0, all: 4
";

const IN_TWO: &str = "OK MPD 0.23.0
events: 1, bytes: 14, all: 1
OK
events: 2, bytes: 17, all: 2
ACK [5@0] {} unknown command \"nosuch\"
events: 1, bytes: 38, all: 3
live 0 true false
events: 2, bytes: 38, all: 4
";

const IN_THREE: &str = "OK MPD 0.23.0
events: 1, bytes: 14, all: 1
OK
events: 2, bytes: 17, all: 2
ACK [5@0] {} unknown command \"nosuch\"
events: 3, bytes: 55, all: 3
live 0 true false
events: 1, bytes: 0, all: 4
";

/// What the shelf answers counts too: a list of one URI and its newline, a name of one letter, a value of
/// one, a sticker of two, and a sticker of six with its URI. Where it refused, nothing does.
const BYTES: &str = "comes 1
1 playlistadd x a.wav
show window
1 listplaylist x
show window
1 listplaylists
show window
1 sticker set song a.wav r 5
show window
1 sticker get song a.wav r
show window
1 sticker list song a.wav
show window
1 sticker find song \"\" r
show window
folds
show window
1 ping
show window";

const BYTES_TELL: &str = "OK MPD 0.23.0
OK
events: 2, bytes: 17, all: 2
file: a.wav
OK
events: 3, bytes: 38, all: 3
playlist: x
OK
events: 4, bytes: 54, all: 4
OK
events: 5, bytes: 57, all: 5
sticker: r=5
OK
events: 6, bytes: 74, all: 6
sticker: r=5
OK
events: 7, bytes: 92, all: 7
file: a.wav
sticker: r=5
OK
events: 8, bytes: 126, all: 8
events: 0, bytes: 0, all: 8
OK
events: 1, bytes: 3, all: 9
";

/// A full window is folded before the next event, and the bytes of a window are counted.
#[test]
fn windows_are_counted_and_folded(rt: HostRuntime) -> Result<(), Fail> {
    let alloc = rt.alloc();
    wants(session_within(alloc, 1, "a.wav", FOUR_EVENTS), IN_ONE)?;
    wants(session_within(alloc, 2, "a.wav", FOUR_EVENTS), IN_TWO)?;
    wants(session_within(alloc, 3, "a.wav", FOUR_EVENTS), IN_THREE)?;
    wants(session(alloc, BYTES), BYTES_TELL)
}

/// What is observed where the greatest window is filled, and two more events come.
fn greatest_window(alloc: Global) -> Result<String, AllocError> {
    let mut steps = Recorder::new(alloc);
    steps.add("comes 1\n");
    steps.add_made("1 ping\n".repeat(alloc, 4095));
    steps.add("show window\n1 ping\nshow window\n1 ping\nshow window\n");
    session(alloc, steps.into_text()?.as_str())
}

fn greatest_window_tells(alloc: Global) -> Result<String, AllocError> {
    let mut recorder = Recorder::new(alloc);
    recorder.add("OK MPD 0.23.0\n");
    recorder.add_made("OK\n".repeat(alloc, 4095));
    recorder.add(
        "events: 4096, bytes: 12299, all: 4096\nOK\nevents: 1, bytes: 3, all: 4097\nOK\nevents: 2, bytes: 6, all: 4098\n",
    );
    recorder.into_text()
}

/// The window of 93 events is full, is folded by the next event, and then by hand. The order of play is the
/// one of a round over as many songs.
const GREATEST: &str = "show window
show counts
1 random 1
show window
1 play
1 currentsong
folds
1 next
1 currentsong
1 delete 16383
1 prio 7 5
1 plchangesposid 17
64 idle
show counts";

const GREATEST_TELLS: &str = "events: 93, bytes: 99281, all: 93
seat 15: 64, seat 3: 29, all: 93, entries: 16384, clients: 64, volume: 100
OK
events: 1, bytes: 3, all: 94
OK
file: a.wav
Time: 1
duration: 1.000
Pos: 1148
Id: 1149
OK
OK
file: a.wav
Time: 1
duration: 1.000
Pos: 15849
Id: 15850
OK
OK
OK
cpos: 5
Id: 6
OK
changed: playlist
changed: player
changed: options
OK
seat 15: 64, seat 3: 38, all: 102, entries: 16383, clients: 64, volume: 100
";

/// What is observed where the state is the greatest: 16,384 entries and 64 clients.
fn greatest(alloc: Global) -> Result<String, AllocError> {
    let mut steps = Recorder::new(alloc);
    add_doubling(&mut steps);
    add_numbered(&mut steps, "comes ", 2, "");
    steps.add(GREATEST);
    session_within(alloc, 93, "a.wav", steps.into_text()?.as_str())
}

fn greatest_tells(alloc: Global) -> Result<String, AllocError> {
    let mut recorder = Recorder::new(alloc);
    add_doubled(&mut recorder, alloc);
    recorder.add_made("OK MPD 0.23.0\n".repeat(alloc, 63));
    recorder.add(GREATEST_TELLS);
    recorder.into_text()
}

#[test]
fn the_greatest_window_and_state_are_folded(rt: HostRuntime) -> Result<(), Fail> {
    let alloc = rt.alloc();
    wants_made(greatest_window(alloc), greatest_window_tells(alloc))?;
    wants_made(greatest(alloc), greatest_tells(alloc))
}
