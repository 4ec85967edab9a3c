//! A writer that fails: its output is switched off, its frames are discarded, and the other output goes on.
use crate::rooms::Host;
use crate::tunes::{Tone, saw_alone};
use crate::wire::add_right;
use crate::wired::wired_day;
use std::alloc::{AllocError, Global};
use std::test::Fail;
use test_texts::wants;

fn observed<R: Host>(rt: R, alloc: Global, room: usize) -> Result<String, AllocError> {
    let script = "add a.wav
play
outputs ~ outputenabled: 0
enableoutput 0
outputs
~ attic 12000";
    let (mut day, mut wires) = wired_day(rt, alloc, saw_alone(alloc, 12_000), room, script)?;
    day.balance(0);
    day.balance(1);
    add_right(&mut wires, &[Tone::Saw, Tone::Saw], &mut day.heard);
    day.into_heard()
}

// Six bytes are a frame and a half.
#[test]
fn a_failing_writer(rt: HostRuntime) -> Result<(), Fail> {
    wants(
        observed(rt, rt.alloc(), 6),
        "OK
OK
outputenabled: 0: true
ACK [52@0] {enableoutput} output has failed
outputid: 0
outputname: hall
plugin: raw
outputenabled: 0
outputid: 1
outputname: attic
plugin: raw
outputenabled: 1
OK
attic 12000: true
written 1 torn 2 balanced true
written 12000 torn 0 balanced true
right frames in the hall 1, in the attic 12000
",
    )
}
