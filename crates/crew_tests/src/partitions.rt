//! Partitions play apart, each to its own outputs, and an output that is moved writes nothing more of the
//! partition that it left.
use crate::door::behind_a_door;
use crate::rooms::Host;
use crate::tunes::{Tone, Tune, listed, saw_and_steps, scarce_tune, tune_of};
use crate::wire::add_right;
use crate::wired::observed_apart;
use std::alloc::{AllocError, Global};
use std::test::Fail;
use test_texts::wants;

fn apart<R: Host>(rt: R, alloc: Global) -> Result<String, AllocError> {
    let script = "newpartition k
partition k
moveoutput attic
add b.wav
partition default
add a.wav
play
partition k
play
~ hall 6000
~ attic 5000";
    // No output is behind the door.
    let (day, mut rooms) = behind_a_door(
        rt,
        alloc,
        saw_and_steps(alloc, 6_000, 5_000),
        &[false, false],
        0,
        script,
    )?;
    observed_apart(day, &mut rooms.wires, Tone::Saw, Tone::Steps)
}

/// Both entries have the id 1 in their own queues. Each file is opened once, though jobs of the partitions take
/// turns.
const PARTITIONS_PLAY_APART: &str = "OK
OK
OK
OK
OK
OK
OK
OK
OK
hall 6000: true
attic 5000: true
files opened: 2
decoded 6000, written 6000, discarded 0, left 0, torn 0
decoded 5000, written 5000, discarded 0, left 0, torn 0
right frames in the hall 6000, in the attic 5000
";

fn beside_one_without_memory<R: Host>(rt: R, alloc: Global) -> Result<String, AllocError> {
    let script = "newpartition k
partition k
moveoutput attic
add b.wav
play
partition default
add a.wav
play
~ hall 6000";
    let first = tune_of(alloc, "a.wav", 6_000, 6_000, Tone::Saw)?;
    let tunes = listed(alloc, first, Some(scarce_tune(alloc, "b.wav", 5_000)?));
    // No output is behind the door.
    let (day, mut rooms) = behind_a_door(rt, alloc, tunes, &[false, false], 0, script)?;
    observed_apart(day, &mut rooms.wires, Tone::Saw, Tone::Steps)
}

/// The job for which there is no memory is asked for again and again, and the other partition goes on. At the end the
/// decoder does not wait for memory.
const MEMORY_FOR_ONE_ALONE: &str = "OK
OK
OK
OK
OK
OK
OK
OK
hall 6000: true
files opened: 1
decoded 6000, written 6000, discarded 0, left 0, torn 0
decoded 0, written 0, discarded 0, left 0, torn 0
right frames in the hall 6000, in the attic 0
";

fn moved<R: Host>(rt: R, alloc: Global) -> Result<String, AllocError> {
    let script = "add a.wav
play
~ an output stands in its write
~ hall 10240
newpartition k
partition k
moveoutput attic
add b.wav
play
~ hall 20000
~ the door opens
~ attic 4024";
    let (day, mut rooms) = behind_a_door(
        rt,
        alloc,
        saw_and_steps(alloc, 20_000, 3_000),
        &[false, true],
        20_000,
        script,
    )?;
    observed_apart(day, &mut rooms.wires, Tone::Saw, Tone::HandThenSteps)
}

/// The attic has 1,024 frames in its hand, which it writes, and 8,192 in its ring, and 1,024 are owed to it. It is
/// moved with them, so that the hall gets all of its song though the attic takes nothing; and it discards all but
/// its hand, since they are of the partition that it left.
const A_MOVED_OUTPUT: &str = "OK
OK
an output stands in its write: true
hall 10240: true
OK
OK
OK
OK
OK
hall 20000: true
the door opens: true
attic 4024: true
files opened: 2
decoded 20000, written 20000, discarded 0, left 0, torn 0
decoded 13240, written 4024, discarded 9216, left 0, torn 0
right frames in the hall 20000, in the attic 4024
";

/// Four songs, of which the last begins as the second does.
fn four_songs(alloc: Global) -> Result<Vec<Tune>, AllocError> {
    let mut tunes = saw_and_steps(alloc, 20_000, 20_000)?;
    tunes.push(tune_of(alloc, "c.wav", 20_000, 20_000, Tone::Ramp)?)?;
    tunes.push(tune_of(alloc, "d.wav", 3_000, 3_000, Tone::Steps)?)?;
    Ok(tunes)
}

/// Three partitions get two outputs and a song each, and then each gets an output of another one.
const MOVES_IN_TURN: &str = "newpartition k
newpartition m
partition k
moveoutput bath
moveoutput porch
partition m
moveoutput den
moveoutput loft
add c.wav
play
~ den 10240
partition k
add b.wav
play
~ bath 10240
partition default
add a.wav
play
~ hall 10240
partition m
moveoutput porch
partition default
moveoutput loft
partition k
~ bath 20000
moveoutput attic
add d.wav
play 1
~ the door opens
~ bath 23000
~ attic 4024
~ porch 10784
~ loft 10784
~ hall 20000
~ den 20000";

fn in_turn<R: Host>(rt: R, alloc: Global) -> Result<String, AllocError> {
    let (day, mut rooms) = behind_a_door(
        rt,
        alloc,
        four_songs(alloc),
        &[false, true, false, true, false, true],
        20_000,
        MOVES_IN_TURN,
    )?;
    let mut observed = day.observed();
    let tones = [
        Tone::Saw,
        Tone::HandThenSteps,
        Tone::Steps,
        Tone::StepsThenRamp,
        Tone::Ramp,
        Tone::RampThenSaw,
    ];
    add_right(&mut rooms.wires, &tones, &mut observed);
    observed.into_text()
}

/// Three partitions with two outputs each: `a.wav` is played in the hall and the attic, `b.wav` in the bath and the
/// porch, `c.wav` in the den and the loft. Attic, porch and loft have 1,024 frames in a hand, 8,192 in the ring, and
/// 1,024 are owed to each, when each is moved to another partition. They write the hand and discard the rest. Then
/// they have what is decoded there: the porch and the loft from frame 10,240 of the song that is played, the attic
/// another song from its first frame on.
const OUTPUTS_ARE_MOVED_IN_TURN: &str = "OK
OK
OK
OK
OK
OK
OK
OK
OK
OK
den 10240: true
OK
OK
OK
bath 10240: true
OK
OK
OK
hall 10240: true
OK
OK
OK
OK
OK
bath 20000: true
OK
OK
OK
the door opens: true
bath 23000: true
attic 4024: true
porch 10784: true
loft 10784: true
hall 20000: true
den 20000: true
files opened: 4
decoded 20000, written 20000, discarded 0, left 0, torn 0
decoded 13240, written 4024, discarded 9216, left 0, torn 0
decoded 23000, written 23000, discarded 0, left 0, torn 0
decoded 20000, written 10784, discarded 9216, left 0, torn 0
decoded 20000, written 20000, discarded 0, left 0, torn 0
decoded 20000, written 10784, discarded 9216, left 0, torn 0
right frames in the hall 20000, in the attic 4024, in the bath 23000, \
in the porch 10784, in the den 20000, in the loft 10784
";

#[test]
fn partitions_and_their_outputs(rt: HostRuntime) -> Result<(), Fail> {
    wants(apart(rt, rt.alloc()), PARTITIONS_PLAY_APART)?;
    wants(
        beside_one_without_memory(rt, rt.alloc()),
        MEMORY_FOR_ONE_ALONE,
    )?;
    wants(moved(rt, rt.alloc()), A_MOVED_OUTPUT)?;
    wants(in_turn(rt, rt.alloc()), OUTPUTS_ARE_MOVED_IN_TURN)
}
