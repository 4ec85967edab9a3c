//! Two songs that fade into each other, at half the volume, through two outputs: the bytes are those of the
//! formulas.
use crate::rooms::Host;
use crate::tunes::{Tone, saw_and_steps};
use crate::wired::{observed_with_lines, wired_day};
use std::alloc::{AllocError, Global};
use std::test::Fail;
use test_texts::wants;

fn observed<R: Host>(rt: R, alloc: Global) -> Result<String, AllocError> {
    let script = "crossfade 1\nsetvol 50\nadd a.wav\nadd b.wav\nplay\n~ hall 14000\n~ attic 14000";
    let tunes = saw_and_steps(alloc, 12_000, 10_000);
    let (day, mut wires) = wired_day(rt, alloc, tunes, 100_000, script)?;
    observed_with_lines(day, &mut wires, Tone::Faded)
}

#[test]
fn bytes_through_the_threads(rt: HostRuntime) -> Result<(), Fail> {
    wants(
        observed(rt, rt.alloc()),
        "OK
OK
OK
OK
OK
hall 14000: true
attic 14000: true
files opened: 2
decoded 14000, written 14000, discarded 0, left 0, torn 0
decoded 14000, written 14000, discarded 0, left 0, torn 0
right frames in the hall 14000, in the attic 14000
",
    )
}
