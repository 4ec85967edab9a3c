//! Worked sessions of a player that is lent a shelf over a database: in memory, on files that are opened
//! again, and on files of which one fails.
use crate::memory::{after, over};
use crate::stops::{Call, Disks, Side, Step, Visit, disks_before, look_again, visited};
use std::alloc::{AllocError, Global};
use std::test::Fail;
use test_texts::{Recorder, wants};

const LISTS: &str = "add s.wav
save x
save x
listplaylist x
load x
status
rename x y
rm x
sticker set song a.wav r 5
sticker get song a.wav r
sticker find song \"\" r > 4
sticker delete song a.wav q";

const LISTS_TELL: &str = "OK MPD 0.23.0
OK
OK
ACK [56@0] {save} playlist exists
file: s.wav
OK
OK
volume: 100
repeat: 0
random: 0
single: 0
consume: 0
partition: default
playlist: 3
playlistlength: 2
state: stop
OK
OK
ACK [50@0] {rm} no such playlist
OK
sticker: r=5
OK
file: a.wav
sticker: r=5
OK
ACK [50@0] {sticker} no such sticker
";

const BROKEN: &str = "listplaylist x
ping;listplaylist y;listplaylist x;ping
load x
listplaylist y
listplaylists";

const BROKEN_TELLS: &str = "OK MPD 0.23.0
ACK [52@0] {listplaylist} store fault
list_OK
list_OK
ACK [52@2] {listplaylist} store fault
ACK [52@0] {load} store fault
OK
playlist: x
playlist: y
OK
";

/// Fails where a session tells something else over a shelf in memory, on a database that statements were run on.
fn tell_in_memory(
    alloc: Global,
    is_shelf: bool,
    statements: &str,
    (lines, expected): (&str, &str),
) -> Result<(), Fail> {
    let mut recorder = Recorder::new(alloc);
    let mut shelf = over(alloc, after(alloc, is_shelf, statements)?)?;
    if !visited(alloc, &mut shelf, Visit::Say(lines), &mut recorder) {
        recorder.add("not told\n");
    }
    wants(recorder.into_text(), expected)
}

/// Lists and stickers are kept. A list that another wrote, and that is no text, is the store's fault and no
/// want of memory; other lists are read.
#[test]
fn sessions_in_memory(rt: HostRuntime) -> Result<(), Fail> {
    tell_in_memory(rt.alloc(), false, "", (LISTS, LISTS_TELL))?;
    let no_text = "INSERT INTO list VALUES ('x', x'ff'), ('y', '')";
    tell_in_memory(rt.alloc(), true, no_text, (BROKEN, BROKEN_TELLS))
}

/// What is observed of a session beside what the client hears: where no player was lent the shelf, and where the
/// session ended before its last line.
fn words_of(step: Option<Step>) -> &'static str {
    match step {
        Some(Step::Open) => "not opened\n",
        Some(Step::Over) => "no shelf\n",
        Some(Step::Call) => "not told\n",
        Some(Step::Close) | None => "",
    }
}

/// What a session tells over a shelf on files.
fn on_disks(alloc: Global, disks: &mut Disks, lines: &str) -> Result<String, AllocError> {
    let mut recorder = Recorder::new(alloc);
    let step = disks.run(alloc, Visit::Say(lines), &mut recorder);
    recorder.add(words_of(step));
    recorder.into_text()
}

const AGAIN: &str = "listplaylists
listplaylist y
sticker list song a.wav
load y
playlistid
save y
idle stored_playlist
noidle
sticker delete song a.wav
rm y
idle";

const AGAIN_TELLS: &str = "OK MPD 0.23.0
playlist: y
OK
file: s.wav
OK
sticker: r=5
OK
OK
file: s.wav
Time: 0
duration: 0.000
Pos: 0
Id: 1
OK
ACK [56@0] {save} playlist exists
OK
OK
OK
changed: stored_playlist
changed: playlist
changed: sticker
OK
";

const GONE: &str = "listplaylists
sticker list song a.wav";

const GONE_TELLS: &str = "OK MPD 0.23.0
OK
OK
";

/// Sessions on the same files, one after the other, and what each tells.
const ON_FILES: [(&str, &str); 3] = [
    (LISTS, LISTS_TELL),
    (AGAIN, AGAIN_TELLS),
    (GONE, GONE_TELLS),
];

/// Fails where one of these sessions over the files tells something else.
fn tell(alloc: Global, disks: &mut Disks) -> Result<(), Fail> {
    for (lines, expected) in ON_FILES.iter() {
        wants(on_disks(alloc, disks, lines), expected)?;
    }
    Ok(())
}

#[test]
fn files_keep_lists_and_stickers(rt: HostRuntime) -> Result<(), Fail> {
    tell(rt.alloc(), &mut Disks::empty(rt.alloc()))
}

const SAVING: &str = "add a.wav
save y
idle stored_playlist
noidle
status
add s.wav
plchangesposid 0";

/// The save is refused, and nobody hears of it; the queue is as it was, and takes another song.
const STORE_FAILS: &str = "OK MPD 0.23.0
OK
ACK [52@0] {save} store fault
OK
volume: 100
repeat: 0
random: 0
single: 0
consume: 0
partition: default
playlist: 2
playlistlength: 1
state: stop
OK
OK
cpos: 0
Id: 1
cpos: 1
Id: 2
OK
";

const SAVED: &str = "OK MPD 0.23.0
OK
OK
changed: stored_playlist
OK
volume: 100
repeat: 0
random: 0
single: 0
consume: 0
partition: default
playlist: 2
playlistlength: 1
state: stop
OK
OK
cpos: 0
Id: 1
cpos: 1
Id: 2
OK
";

const BEFORE: &str = "x=s.wav,;a.wav:5;x:7;";

const AFTER: &str = "x=s.wav,;y=a.wav,;a.wav:5;x:7;";

/// What a run told whose log failed from some call on.
#[derive(Clone, Copy)]
enum Run {
    NotOpened,
    Fault,
    Saved,
    /// None of these.
    Other,
}

fn run_of(observed: &str) -> Run {
    match observed {
        "not opened\n" => Run::NotOpened,
        STORE_FAILS => Run::Fault,
        SAVED => Run::Saved,
        _ => Run::Other,
    }
}

/// What a session that saves a list told, where the files' log fails. What a shelf then shows is looked at
/// where the files were opened; what the session told is added where it is none of the three that may be.
fn saving(recorder: &mut Recorder, alloc: Global, disks: &mut Disks) -> Run {
    let Ok(heard) = on_disks(alloc, disks, SAVING) else {
        recorder.fail();
        return Run::Other;
    };
    let run = run_of(heard.as_str());
    match run {
        Run::NotOpened => {}
        Run::Fault => look_again(recorder, alloc, disks, (BEFORE, AFTER)),
        Run::Saved => look_again(recorder, alloc, disks, (AFTER, AFTER)),
        Run::Other => recorder.add(heard.as_str()),
    }
    run
}

/// Adds how many calls of the log fail in the save, counting upwards until one comes after it.
fn add_faults(recorder: &mut Recorder, alloc: Global) {
    let Some(disks) = disks_before(alloc, Call::Put) else {
        return recorder.add("the files are not filled");
    };
    let mut faults = 0u32;
    for calls in 0..1_000u64 {
        let Some(mut copy) = disks.copied(alloc, Side::Log, calls) else {
            return recorder.fail();
        };
        match saving(recorder, alloc, &mut copy) {
            Run::Saved => return recorder.add(format_args!("{faults} faults")),
            Run::Fault => faults = faults.saturating_add(1),
            Run::NotOpened => {}
            Run::Other => return recorder.add("not as a save may end"),
        }
    }
    recorder.add("no run saved the list");
}

fn faults(alloc: Global) -> Result<String, AllocError> {
    let mut recorder = Recorder::new(alloc);
    add_faults(&mut recorder, alloc);
    recorder.into_text()
}

/// A commit makes six calls of the log, of which each fails in turn: see [`crate::stops`].
#[test]
fn a_save_whose_store_fails(rt: HostRuntime) -> Result<(), Fail> {
    wants(faults(rt.alloc()), "6 faults")
}
