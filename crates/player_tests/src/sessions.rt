//! Worked sessions of the player of one thread, and what they tell.
use crate::session::{session, session_over};
use command_arguments::Volume;
use mpd_command::{CommandSet, Name, Request, names};
use notice_laws::{
    answers_are_told_of, events_are_client_steps, lines_are_told_of, messages_are_told_of,
};
use partition::{PartitionFault, folds_are_unseen, reads_pending, replays_worlds};
use partition_laws::{
    daemons_stay_legal, equal_views_hear_the_same, feeds_no_newcomer, feeds_owe_nothing,
    moves_rise, others_may_be_left_out, reports_tell_moves,
};
use std::alloc::{AllocError, Global};
use std::test::Fail;
use test_texts::{Recorder, wants, wants_made};

const WAITING: &str = "comes 2
comes 1
2 idle mixer options
1 add a.wav
1 setvol 40
1 repeat 1
2 idle
2 idle
2 noidle
2 idle
2 ping
show counts
show 2
show pending";

const WAITING_TELLS: &str = "OK MPD 0.23.0
OK MPD 0.23.0
waits
OK
OK
2: changed: mixer
OK
changed: options
OK
waits
OK
waits
closed
seat 15: 2, seat 3: 9, all: 11, entries: 1, clients: 1, volume: 40
not there
client: 1
changed: playlist
changed: mixer
changed: options
";

const ENDED: &str = "comes 1
1 add a.wav
1 play
decoder wants
ends
decoder 1 1024
decoder wants
scan asks
turn 0 5 6
turn 9 0 0
1 ping
1 idle
folds
decoder wants
show books";

const ENDED_TELLS: &str = "OK MPD 0.23.0
OK
OK
job 1 1 0 1024
stale
the end
the end
the end
the end
OK
changed: playlist
changed: player
OK
the end
decoded 0, written 5, discarded 6
decoded 0, written 0, discarded 0
decoded 0, written 0, discarded 0
decoded 0, written 0, discarded 0
";

pub(crate) const ROOMS: &str = "comes 1
comes 2
2 idle player output
1 add a.wav
decoder wants
1 play
decoder wants
1 setvol 40
decoder 1 1024
decoder 1 1024
1 disableoutput 6
decoder wants
decoder 2 24
turn 0 1000 24
turn 6 24 1000
turn 8 5 5
2 idle output
2 idle output
turn 0 0 4294967295
1 enableoutput 0
1 enableoutput 8
show books
show counts";

pub(crate) const ROOMS_TELL: &str = "OK MPD 0.23.0
OK MPD 0.23.0
waits
OK
no job
OK
2: changed: player
job 1 1 0 1024
OK
feed 1 40
stale
OK
job 2 1 1024 1024
feed 1 40
live 1 true false
live 1 false false
live 0 false false
changed: output
OK
waits
2: changed: output
live 1 false false
ACK [52@0] {enableoutput} output has failed
ACK [50@0] {enableoutput} no such output
decoded 1048, written 1000, discarded 4294967319
decoded 1024, written 24, discarded 1000
decoded 0, written 0, discarded 0
decoded 0, written 0, discarded 0
seat 15: 2, seat 3: 9, all: 21, entries: 1, clients: 2, volume: 40
";

/// And after the end nothing is decoded.
#[test]
fn eight_rooms_have_their_books(rt: HostRuntime) -> Result<(), Fail> {
    wants(session(rt.alloc(), ENDED), ENDED_TELLS)?;
    wants(session(rt.alloc(), ROOMS), ROOMS_TELL)
}

pub(crate) const SCANS: &str = "comes 1
scan asks
1 update
scan asks
comes 2
2 idle database update
scan fails
1 add a.wav
1 rescan
2 idle database
scan b.wav
1 add a.wav
1 add b.wav
scan b.wav
show counts";

pub(crate) const SCANS_TELL: &str = "OK MPD 0.23.0
no scan
updating_db: 1
OK
scan 1
OK MPD 0.23.0
waits
2: changed: update
ended
OK
updating_db: 2
OK
waits
2: changed: database
ended
ACK [50@0] {add} no such song
OK
none ran
seat 15: 2, seat 3: 7, all: 14, entries: 2, clients: 2, volume: 100
";

/// Of a change once, and of a scan that ends.
#[test]
fn waiting_clients_are_told(rt: HostRuntime) -> Result<(), Fail> {
    wants(session(rt.alloc(), WAITING), WAITING_TELLS)?;
    wants(session(rt.alloc(), SCANS), SCANS_TELL)
}

fn is_read_back(name: &str) -> bool {
    match Name::of_word(name) {
        Some(read) => read.text() == name,
        None => false,
    }
}

/// The name of a request.
fn name_of(alloc: Global, line: &str) -> Result<String, AllocError> {
    let request = Request::of_line(alloc, line, CommandSet::base())?;
    String::from_str(alloc, request.name())
}

#[test]
fn each_name_is_read_back(rt: HostRuntime) -> Result<(), Fail> {
    for name in names() {
        assert!(rt; is_read_back(*name));
    }
    wants(name_of(rt.alloc(), "swap 0 1"), "swap")
}

/// Adds a line for each number from this one to 64, between two texts.
pub(crate) fn add_numbered(recorder: &mut Recorder, before: &str, first: u32, after: &str) {
    for number in first..65 {
        recorder.add(format_args!("{before}{number}{after}\n"));
    }
}

/// What is observed where 64 clients come, then another, then one goes and that other one comes.
fn crowd(alloc: Global) -> Result<String, AllocError> {
    let mut steps = Recorder::new(alloc);
    add_numbered(&mut steps, "comes ", 1, "");
    steps.add("comes 65\nshow 65\nshow counts\ngoes 7\ncomes 65\n");
    session(alloc, steps.into_text()?.as_str())
}

fn crowd_tells(alloc: Global) -> Result<String, AllocError> {
    let mut recorder = Recorder::new(alloc);
    recorder.add_made("OK MPD 0.23.0\n".repeat(alloc, 64));
    recorder.add(
        "closed\nnot there\nseat 15: 65, seat 3: 0, all: 65, entries: 0, clients: 64, volume: 100\nclosed\nOK MPD 0.23.0\n",
    );
    recorder.into_text()
}

/// What is observed where 63 clients wait for a change of the queue, and another makes one.
fn waiting_crowd(alloc: Global) -> Result<String, AllocError> {
    let mut steps = Recorder::new(alloc);
    add_numbered(&mut steps, "comes ", 1, "");
    add_numbered(&mut steps, "", 2, " idle playlist");
    steps.add("1 add a.wav\n");
    session(alloc, steps.into_text()?.as_str())
}

fn waiting_crowd_tells(alloc: Global) -> Result<String, AllocError> {
    let mut recorder = Recorder::new(alloc);
    recorder.add_made("OK MPD 0.23.0\n".repeat(alloc, 64));
    recorder.add_made("waits\n".repeat(alloc, 63));
    recorder.add("OK\n");
    add_numbered(&mut recorder, "", 2, ": changed: playlist");
    recorder.into_text()
}

/// A sixty-fifth client is closed, and all are told at once.
#[test]
fn the_most_clients(rt: HostRuntime) -> Result<(), Fail> {
    wants_made(crowd(rt.alloc()), crowd_tells(rt.alloc()))?;
    wants_made(waiting_crowd(rt.alloc()), waiting_crowd_tells(rt.alloc()))
}

const PLAIN_LIST: &str = "comes 1
plain_list 0 add a.wav
plain_list 1 ping
plain_list 2 nosuch";

const PLAIN_LIST_TELLS: &str = "OK MPD 0.23.0
ACK [5@2] {} unknown command \"nosuch\"
";

const OK_LIST: &str = "comes 1
ok_list 0 add a.wav
ok_list 1 ping
ok_list 2 nosuch";

const OK_LIST_TELLS: &str = "OK MPD 0.23.0
list_OK
list_OK
ACK [5@2] {} unknown command \"nosuch\"
";

/// Four songs, two of which are in a folder.
const FOUR: &str = "a.wav
b.wav
folder/c.wav
folder/d.wav";

const GONE_SONGS: &str = "comes 1
1 playlistadd x
1 playlistadd x a.wav
1 playlistadd x b.wav
1 update
scan b.wav
1 listplaylist x
1 listplaylistinfo x
1 load x
1 load x 0
1 load x 2
1 load x 3:
1 playlistid";

const GONE_SONGS_TELL: &str = "OK MPD 0.23.0
ACK [2@0] {playlistadd} wrong number of arguments for \"playlistadd\"
OK
OK
updating_db: 1
OK
ended
file: a.wav
file: b.wav
OK
file: a.wav
file: b.wav
Time: 1
duration: 1.000
OK
OK
OK
ACK [2@0] {load} bad song index
ACK [2@0] {load} bad song index
file: b.wav
Time: 1
duration: 1.000
Pos: 0
Id: 1
OK
";

const WITH_LEAVE: &str = "comes 1
1 notcommands
with_leave notcommands";

const WITH_LEAVE_TELLS: &str = "OK MPD 0.23.0
command: kill
OK
OK
";

/// An answer in a list has no `OK`, a stored list keeps songs that are gone, and `kill` is among the commands
/// with leave.
#[test]
fn answers_in_lists_and_with_leave(rt: HostRuntime) -> Result<(), Fail> {
    wants(session(rt.alloc(), PLAIN_LIST), PLAIN_LIST_TELLS)?;
    wants(session(rt.alloc(), OK_LIST), OK_LIST_TELLS)?;
    wants(session_over(rt.alloc(), FOUR, GONE_SONGS), GONE_SONGS_TELL)?;
    wants(session(rt.alloc(), WITH_LEAVE), WITH_LEAVE_TELLS)
}

/// What is said of an event that is refused.
fn said_of(fault: PartitionFault) -> &'static str {
    fault.text()
}

#[test]
fn a_refusal_says_why(rt: HostRuntime) {
    assert_eq!(rt; said_of(PartitionFault::HistoryFull), "history full");
    assert_eq!(rt; said_of(PartitionFault::NoMemory), "out of memory");
}

#[test]
fn laws_can_be_called(_rt: HostRuntime) {
    replays_worlds();
    folds_are_unseen();
    reads_pending();
    events_are_client_steps();
    answers_are_told_of();
    lines_are_told_of();
    messages_are_told_of();
}

#[test]
fn laws_of_partitions_can_be_called(_rt: HostRuntime) {
    daemons_stay_legal();
    equal_views_hear_the_same();
    others_may_be_left_out();
    moves_rise();
    reports_tell_moves();
    feeds_owe_nothing();
    feeds_no_newcomer();
}

/// What a volume is kept as; 1,000 where there is none.
fn kept_as(percent: u32) -> u32 {
    match Volume::new(percent) {
        Some(volume) => u32::from(volume.percent()),
        None => 1_000,
    }
}

fn full() -> u8 {
    Volume::full().copied().percent()
}

#[test]
fn a_volume_is_at_most_100(rt: HostRuntime) {
    assert!(rt; kept_as(0) == 0 && kept_as(100) == 100);
    assert!(rt; kept_as(101) == 1_000 && full() == 100);
}
