//! Songs whose files are not there, or are shorter than the library says.
use crate::rooms::Host;
use crate::tunes::{Tone, Tune, listed, lost_tune, tune_of};
use crate::wired::{observed_with_lines, wired_day};
use std::alloc::{AllocError, Global};
use std::test::Fail;
use test_texts::wants;

fn observed<R: Host>(
    rt: R,
    alloc: Global,
    first: Tune,
    second: Tune,
    script: &str,
    tone: Tone,
) -> Result<String, AllocError> {
    let tunes = listed(alloc, first, Some(second));
    let (day, mut wires) = wired_day(rt, alloc, tunes, 100_000, script)?;
    observed_with_lines(day, &mut wires, tone)
}

fn after_a_lost_song<R: Host>(rt: R, alloc: Global) -> Result<String, AllocError> {
    let lost = lost_tune(alloc, "a.wav", 12_000);
    let next = tune_of(alloc, "b.wav", 3_000, 3_000, Tone::Steps)?;
    let script = "add a.wav
add b.wav
play
status ~ error: Failed to decode a.wav
play 1
~ hall 3000
~ attic 3000";
    observed(rt, alloc, lost, next, script, Tone::Steps)
}

const A_MISSING_FILE: &str = "OK
OK
OK
error: Failed to decode a.wav: true
OK
hall 3000: true
attic 3000: true
files opened: 1
decoded 3000, written 3000, discarded 0, left 0, torn 0
decoded 3000, written 3000, discarded 0, left 0, torn 0
right frames in the hall 3000, in the attic 3000
";

fn into_a_short_partner<R: Host>(rt: R, alloc: Global) -> Result<String, AllocError> {
    let first = tune_of(alloc, "a.wav", 12_000, 12_000, Tone::Saw)?;
    let short = tune_of(alloc, "b.wav", 10_000, 100, Tone::Steps)?;
    let script = "crossfade 1
add a.wav
add b.wav
play
~ hall 12100
~ attic 12100";
    observed(rt, alloc, first, short, script, Tone::SawThenSteps)
}

/// The partner has 100 frames of the 8,000 of its fade, so the first song is played to its end alone, and then
/// what there is of the second, whose file is opened once more.
const A_PARTNER_THAT_FAILS: &str = "OK
OK
OK
OK
hall 12100: true
attic 12100: true
files opened: 3
decoded 12100, written 12100, discarded 0, left 0, torn 0
decoded 12100, written 12100, discarded 0, left 0, torn 0
right frames in the hall 12100, in the attic 12100
";

#[test]
fn songs_that_cannot_be_read(rt: HostRuntime) -> Result<(), Fail> {
    wants(after_a_lost_song(rt, rt.alloc()), A_MISSING_FILE)?;
    wants(into_a_short_partner(rt, rt.alloc()), A_PARTNER_THAT_FAILS)
}
