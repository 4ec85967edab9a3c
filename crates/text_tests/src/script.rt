//! Lines of a script.
use crate::songs;
use crate::tables::{Reads, all_agree, read, repeated};
use script_lines::{JobStep, LimitName, ScriptLine, Step};
use std::alloc::{AllocError, Global};
use std::test::Fail;
use test_texts::{Recorder, wants, wants_made};

/// Adds whose line it is, and what follows in brackets.
pub fn add_head(recorder: &mut Recorder, line: &str) {
    match ScriptLine::of(line) {
        ScriptLine::Client(client, text) => recorder.add(format_args!("client {client} [{text}]")),
        ScriptLine::Step(text) => recorder.add(format_args!("step [{text}]")),
        ScriptLine::Bad => recorder.add("neither"),
    }
}

const HEADS: &str = "1 ping => client 1 [ping]
9 => client 9 []
2  ping => client 2 [ ping]
! want => step [want]
! => step []
!   want   => step [  want  ]
 => neither
hello => neither
0 ping => neither
10 ping => neither
!want => neither
 1 ping => neither
 ! want => neither
1\tping => neither";

#[test]
fn heads(rt: HostRuntime) -> Result<(), Fail> {
    all_agree(rt.alloc(), Reads::Head, HEADS)
}

/// Adds what a step says, or that it is bad.
pub fn add_step(recorder: &mut Recorder, alloc: Global, rest: &str) {
    match Step::of_line(alloc, false, rest) {
        Ok(Some(step)) => add_said(recorder, &step),
        Ok(None) => recorder.add("bad"),
        Err(_) => recorder.fail(),
    }
}

fn add_said(recorder: &mut Recorder, step: &Step) {
    match step {
        Step::Song(song) => songs::add_song(recorder, song),
        Step::Limit(name, value) => recorder.add(format_args!("{name:?} {value}")),
        Step::Gone(number) => recorder.add(format_args!("gone {number}")),
        Step::Scanned => recorder.add("scanned"),
        Step::Window => recorder.add("window"),
        Step::Job(job) => add_job(recorder, job),
        Step::JobIn(name, job) => {
            recorder.add(format_args!("in {} ", name.as_str()));
            add_job(recorder, job);
        }
        Step::Turn(written, discarded, failed) => {
            recorder.add(format_args!("turn {written} {discarded} {failed}"));
        }
    }
}

/// Adds what a step of the decoder says.
fn add_job(recorder: &mut Recorder, step: &JobStep) {
    match step {
        JobStep::Want => recorder.add("want"),
        JobStep::Have(job, count) => recorder.add(format_args!("have {job} {count}")),
        JobStep::Failed(job, of_partner) => recorder.add(format_args!("failed {job} {of_partner}")),
    }
}

const SONGS: &str = "song a.wav 8000 => a.wav 8000
song a.wav 8 Title= title=One Title=Two ARTIST=Me \"Comment=a=b\"  => a.wav 8|Title=One|Artist=Me|Comment=a=b
song b.wav 4000 \"Album=a\tb\" \"Genre=ab\0cd\" => b.wav 4000|Genre=ab
song b.wav 16000 Artist=Zoë Title=Bee => b.wav 16000|Title=Bee|Artist=Zoë
song a.wav 8000 \"Artist=foo'bar\\\"\" => a.wav 8000|Artist=foo'bar\"
  \"song\"\td/ 4294967295  => d/ 4294967295
song b.wav 0 => bad
song \"\" 5 => bad
song b.wav 8 Colour=red => bad
song b.wav => bad
song b.wav x => bad
song b.wav 4294967296 => bad
song c.wav 8 Title => bad
song c.wav 8 =v => bad
song c.wav 8 Title=x \"Foo=y\" => bad
song a.wav \"8 => bad
Song a.wav 8 => bad
nosuch => bad
 => bad";

const LIMITS: &str = "limit max_queue 1 => MaxQueue 1
limit max_queue 16384 => MaxQueue 16384
limit max_version 2147483647 => MaxVersion 2147483647
limit max_id 2147483647 => MaxId 2147483647
limit max_queue 0 => bad
limit max_queue 16385 => bad
limit max_version 0 => bad
limit max_version 2147483648 => bad
limit max_id 0 => bad
limit max_id 2147483648 => bad
limit max_cut 1 => MaxCut 1
limit max_cut 4294967295 => MaxCut 4294967295
limit max_cut 0 => bad
limit max_cut 4294967296 => bad
limit max_cut => bad
limit max_cut 5 5 => bad
limit history 1 => History 1
limit history 4096 => History 4096
limit history 0 => bad
limit history 4097 => bad
limit everyday 1 => Everyday 1
limit everyday 2 => bad
limit everyday 0 => bad
limit everyday => bad
limit History 5 => bad
limit Max_cut 5 => bad
limit max_line 5 => bad
limit max_queue => bad
limit max_queue 5 5 => bad
limit MAX_QUEUE 5 => bad
gone 9 => gone 9
gone 0 => bad
gone 10 => bad
gone 1 2 => bad
scanned => scanned
scanned now => bad
Scanned => bad
window => window
window 1 => bad
window \"\" => bad
Window => bad";

const NAMES: &str = "everyday|history|max_cut|max_id|max_queue|max_version";

/// The limits that words name, each with its greatest value.
fn greatest(alloc: Global) -> Result<String, AllocError> {
    let mut recorder = Recorder::new(alloc);
    for word in NAMES.split('|') {
        match LimitName::of_word(word) {
            Some(name) => recorder.add(format_args!("{name:?} {}|", name.greatest())),
            None => recorder.add("none"),
        }
    }
    recorder.into_text()
}

const JOBS: &str = "want => want
want now => bad
Want => bad
have 0 0 => have 0 0
have 1 1024 => have 1 1024
have 007 08 => have 7 8
have 4294967295 4294967295 => have 4294967295 4294967295
have 4294967296 0 => bad
have 0 4294967296 => bad
have => bad
have 1 => bad
have 1 2 3 => bad
have x 2 => bad
have 1 -2 => bad
have 1 \"\" => bad
Have 1 2 => bad
failed 0 => failed 0 false
failed 3 partner => failed 3 true
failed 4294967295 => failed 4294967295 false
failed 4294967295 partner => failed 4294967295 true
failed 4294967296 => bad
failed 4294967296 partner => bad
failed => bad
failed partner => bad
failed x => bad
failed 1 2 => bad
failed 1 Partner => bad
failed 1 partners => bad
failed 1 failed => bad
failed 1 \"\" => bad
failed 1 partner partner => bad
Failed 1 => bad";

const JOBS_IN: &str = "in k want => in k want
in \"k\" have 1 1024 => in k have 1 1024
in up_stairs-2 failed 3 partner => in up_stairs-2 failed 3 true
in default failed 3 => in default failed 3 false
in k want now => bad
in k have 1 => bad
in k => bad
in => bad
in k window => bad
in k turn 0 0 0 => bad
in k in k want => bad
in k scanned => bad
In k want => bad";

const TURNS: &str = "turn 0 0 0 => turn 0 0 false
turn 0 5 6 => turn 5 6 false
turn 0 5 6 failed => turn 5 6 true
turn 00 5 6 => turn 5 6 false
turn 0 4294967295 4294967295 => turn 4294967295 4294967295 false
turn 0 4294967295 4294967295 failed => turn 4294967295 4294967295 true
turn 0 4294967296 0 => bad
turn 0 0 4294967296 => bad
turn 0 0 4294967296 failed => bad
turn 1 0 0 => bad
turn 4294967296 0 0 => bad
turn x 0 0 => bad
turn => bad
turn 0 => bad
turn 0 1 => bad
turn 0 failed => bad
turn 0 1 failed => bad
turn 0 x 2 => bad
turn 0 1 x => bad
turn 0 1 2 3 => bad
turn 0 1 2 Failed => bad
turn 0 1 2 partner => bad
turn 0 1 2 \"\" => bad
turn 0 1 2 failed failed => bad
Turn 0 1 2 => bad";

/// Songs, limits, jobs, jobs in a partition, and turns.
#[test]
fn steps(rt: HostRuntime) -> Result<(), Fail> {
    all_agree(rt.alloc(), Reads::Step, SONGS)?;
    wants(read(rt.alloc(), Reads::Step, "song \"a\nb\" 8"), "bad")?;
    all_agree(rt.alloc(), Reads::Step, LIMITS)?;
    wants(
        greatest(rt.alloc()),
        "Everyday 1|History 4096|MaxCut 4294967295|MaxId 2147483647|MaxQueue 16384|MaxVersion 2147483647|",
    )?;
    all_agree(rt.alloc(), Reads::Step, JOBS)?;
    all_agree(rt.alloc(), Reads::Step, JOBS_IN)?;
    all_agree(rt.alloc(), Reads::Step, TURNS)
}

/// A URI and another text of so many bytes, with this before and between them.
fn with_long(
    alloc: Global,
    before: &str,
    uri: usize,
    between: &str,
    text: usize,
) -> Result<String, AllocError> {
    let start = repeated(alloc, before, "u", uri, between)?;
    repeated(alloc, start.as_str(), "x", text, "")
}

/// What a step says whose song has a URI and a tag's text of so many bytes.
fn long_song(alloc: Global, uri: usize, text: usize) -> Result<String, AllocError> {
    let step = with_long(alloc, "song ", uri, " 8 Album=", text)?;
    read(alloc, Reads::Step, step.as_str())
}

#[test]
fn the_longest_song(rt: HostRuntime) -> Result<(), Fail> {
    wants_made(
        long_song(rt.alloc(), 1_024, 1_024),
        with_long(rt.alloc(), "", 1_024, " 8|Album=", 1_024),
    )?;
    wants(long_song(rt.alloc(), 1_025, 1), "bad")?;
    wants(long_song(rt.alloc(), 1, 1_025), "u 8")
}
