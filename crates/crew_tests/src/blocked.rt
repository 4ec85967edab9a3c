//! An output that stands in a write delays no caller and no other output, and what it is not yet rid of is
//! left at the end.
use crate::door::behind_a_door;
use crate::rooms::Host;
use crate::tunes::{Tone, saw_alone, saw_and_steps};
use crate::wire::add_right;
use crate::wired::observed_with_lines;
use std::alloc::{AllocError, Global};
use std::test::Fail;
use test_texts::wants;

fn write_observed<R: Host>(rt: R, alloc: Global) -> Result<String, AllocError> {
    let script = "add a.wav
play
~ an output stands in its write
ping
setvol 100
~ attic 8000
ping
~ the door opens
~ hall 8000";
    let (day, mut rooms) = behind_a_door(
        rt,
        alloc,
        saw_alone(alloc, 8_000),
        &[true, false],
        20_000,
        script,
    )?;
    observed_with_lines(day, &mut rooms.wires, Tone::Saw)
}

/// The song has fewer frames than a ring, so that the attic gets all of them though the hall takes none.
const A_WRITE_WITHOUT_THE_LOCK: &str = "OK
OK
an output stands in its write: true
OK
OK
attic 8000: true
OK
the door opens: true
hall 8000: true
files opened: 1
decoded 8000, written 8000, discarded 0, left 0, torn 0
decoded 8000, written 8000, discarded 0, left 0, torn 0
right frames in the hall 8000, in the attic 8000
";

fn pause_observed<R: Host>(rt: R, alloc: Global) -> Result<String, AllocError> {
    let script = "add a.wav
play
~ an output stands in its write
~ attic 10240
~ only 10240
pause 1
~ the door opens";
    let (day, _rooms) = behind_a_door(
        rt,
        alloc,
        saw_alone(alloc, 20_000),
        &[true, false],
        20_000,
        script,
    )?;
    day.observed().into_text()
}

/// The hall has 1,024 frames in its hand and 8,192 in its ring, and 1,024 are owed to it, so nothing more is
/// decoded. It writes its hand, and at the pause it keeps the rest.
const FRAMES_ARE_LEFT_AT_THE_END: &str = "OK
OK
an output stands in its write: true
attic 10240: true
only 10240: true
OK
the door opens: true
files opened: 1
decoded 10240, written 1024, discarded 0, left 9216, torn 0
decoded 10240, written 10240, discarded 0, left 0, torn 0
";

/// What its first output wrote, and whether frames of its second are left.
fn late_observed<R: Host>(rt: R, alloc: Global) -> Result<String, AllocError> {
    let script = "add a.wav
play
~ hall 3000
~ an output stands in its write";
    let (mut day, _rooms) = behind_a_door(
        rt,
        alloc,
        saw_alone(alloc, 3_000),
        &[false, true],
        2_000,
        script,
    )?;
    day.balance(0);
    day.rest(1);
    day.into_heard()
}

/// The attic has its last turn long after the hall has ended.
const A_LATE_OUTPUT_IS_SETTLED: &str = "OK
OK
hall 3000: true
an output stands in its write: true
written 3000 torn 0 balanced true
left true balanced true
";

fn stop_observed<R: Host>(rt: R, alloc: Global) -> Result<String, AllocError> {
    let script = "add a.wav
add b.wav
play
~ an output stands in its write
~ attic 8192
stop
play 1
~ the door opens
~ hall 4024";
    let (mut day, mut rooms) = behind_a_door(
        rt,
        alloc,
        saw_and_steps(alloc, 20_000, 3_000),
        &[true, false],
        20_000,
        script,
    )?;
    day.balance(0);
    add_right(&mut rooms.wires, &[Tone::HandThenSteps], &mut day.heard);
    day.into_heard()
}

/// The hall was in the write of its first hand of 1,024 frames. All else of the first song is of an old cut,
/// and is discarded.
const FRAMES_OF_AN_OLD_CUT: &str = "OK
OK
OK
an output stands in its write: true
attic 8192: true
OK
OK
the door opens: true
hall 4024: true
written 4024 torn 0 balanced true
right frames in the hall 4024
";

#[test]
fn outputs_that_stand_in_a_write(rt: HostRuntime) -> Result<(), Fail> {
    wants(write_observed(rt, rt.alloc()), A_WRITE_WITHOUT_THE_LOCK)?;
    wants(pause_observed(rt, rt.alloc()), FRAMES_ARE_LEFT_AT_THE_END)?;
    wants(late_observed(rt, rt.alloc()), A_LATE_OUTPUT_IS_SETTLED)?;
    wants(stop_observed(rt, rt.alloc()), FRAMES_OF_AN_OLD_CUT)
}
