//! Rings of frames: worked runs, faults of the writer, all orders of calls, and the greatest sizes.
ghost use Rattle.std.specs.Prelude.{◌≡◌, length};

use counted_devices::{Counting, FailAt, Failing, FailurePoint};
use output_ring::{Cut, Drainer, Fates, Feeder, Live, Totals, WriteFault, ring};
use pcm_mix::Frame;
use std::alloc::{AllocError, Global};
use std::io;
use std::io::{ErrorKind, Write};
use std::test::Fail;
use test_texts::{Recorder, wants, wants_made};

const FIRST: Cut = Cut {
    moves: 0,
    number: 1,
};

const SECOND: Cut = Cut {
    moves: 0,
    number: 2,
};

// The cuts of an output that was moved twice in between, of which the earlier one has the greater number.
const BEFORE_MOVES: Cut = Cut {
    moves: 1,
    number: 9,
};

const AFTER_MOVES: Cut = Cut {
    moves: 3,
    number: 2,
};

// A call. `Play`, `Pause` and `Off` write out a hand.
#[derive(Clone, Copy)]
enum Step {
    Take(Cut, &'static [Frame]),
    Push,
    Pop,
    Play(Cut),
    Pause,
    Off,
}

const fn live(cut: Cut, enabled: bool, paused: bool) -> Live {
    Live {
        cut,
        enabled,
        paused,
        ended: false,
    }
}

fn offer(feeder: &mut Feeder, frames: &[Frame], cut: Cut) {
    if feeder.owed() == 0 && frames.len() <= 1024 {
        feeder.take(frames, cut);
    }
}

// What a hand that is written out gives. Here alone it is proved that this device can be written to.
fn written_out(
    drainer: &mut Drainer,
    out: &mut FailAt,
    cut: Cut,
    enabled: bool,
    paused: bool,
) -> Result<Fates, WriteFault> {
    drainer.write_out(out, live(cut, enabled, paused))
}

fn push(feeder: &mut Feeder) -> usize {
    feeder.push()
}

fn pop(drainer: &mut Drainer) -> usize {
    drainer.pop()
}

// Adds the fates of a hand, or those at a fault, with the bytes of a torn frame.
fn tell_fates(recorder: &mut Recorder, found: Result<Fates, WriteFault>) {
    match found {
        Ok(fates) => {
            let (written, discarded) = (fates.written, fates.discarded);
            recorder.add(format_args!("{written} written, {discarded} discarded\n"));
        }
        Err(fault) => {
            let (written, discarded) = (fault.fates.written, fault.fates.discarded);
            let torn = fault.torn;
            recorder.add(format_args!(
                "fault: {written} written, {discarded} discarded, {torn} torn\n"
            ));
        }
    }
}

// Adds what a call answers.
fn tell_step(recorder: &mut Recorder, ends: &mut (Feeder, Drainer), out: &mut FailAt, step: &Step) {
    match *step {
        Step::Take(cut, frames) => offer(&mut ends.0, frames, cut),
        Step::Push => recorder.add(format_args!("{} pushed\n", push(&mut ends.0))),
        Step::Pop => recorder.add(format_args!("{} popped\n", pop(&mut ends.1))),
        Step::Play(cut) => tell_fates(recorder, written_out(&mut ends.1, out, cut, true, false)),
        Step::Pause => tell_fates(recorder, written_out(&mut ends.1, out, FIRST, false, true)),
        Step::Off => tell_fates(recorder, written_out(&mut ends.1, out, FIRST, false, false)),
    }
}

// Adds all bytes that were written, and the totals.
fn tell_totals(recorder: &mut Recorder, drainer: &Drainer, out: &FailAt) {
    let Totals {
        written,
        discarded,
        torn,
    } = drainer.totals();
    recorder.add(format_args!(
        "{:?}: {written} written, {discarded} discarded, {torn} bytes torn\n",
        out.bytes()
    ));
}

// What all steps answer, with a ring and a hand of these sizes, and what was written in the end.
fn observed_of(
    alloc: Global,
    sizes: (usize, usize),
    point: FailurePoint,
    steps: &[Step],
) -> Result<String, AllocError> {
    let mut out = FailAt::new(Vec::new(alloc), point);
    let mut ends = ring(alloc, sizes.0, sizes.1)?;
    let mut recorder = Recorder::new(alloc);
    for step in steps {
        tell_step(&mut recorder, &mut ends, &mut out, step);
    }
    tell_totals(&mut recorder, &ends.1, &out);
    recorder.into_text()
}

const OLD_CUT: &[Step] = &[
    Step::Take(FIRST, &[[1, -1]; 12]),
    Step::Push,
    Step::Pop,
    Step::Play(FIRST),
    Step::Pop,
    Step::Play(SECOND),
    Step::Pop,
    Step::Play(SECOND),
    Step::Push,
];

const OLD_CUT_TOLD: &str = "8 pushed
3 popped
3 written, 0 discarded
3 popped
0 written, 3 discarded
2 popped
0 written, 2 discarded
4 pushed
[1, 0, 255, 255, 1, 0, 255, 255, 1, 0, 255, 255]: 3 written, 5 discarded, 0 bytes torn
";

// Of an output that was moved, no frame comes out that it took before.
const MOVED: &[Step] = &[
    Step::Take(BEFORE_MOVES, &[[1, 2], [3, 4], [5, 6]]),
    Step::Push,
    Step::Take(AFTER_MOVES, &[[7, 8], [9, 10]]),
    Step::Push,
    Step::Pop,
    Step::Play(AFTER_MOVES),
    Step::Pop,
    Step::Play(AFTER_MOVES),
];

const MOVED_TOLD: &str = "3 pushed
2 pushed
4 popped
1 written, 3 discarded
1 popped
1 written, 0 discarded
[7, 0, 8, 0, 9, 0, 10, 0]: 2 written, 3 discarded, 0 bytes torn
";

const FAILS_WITHIN: &[Step] = &[
    Step::Take(FIRST, &[[1, -1], [2, -2], [3, -3], [4, -4]]),
    Step::Push,
    Step::Pop,
    Step::Play(FIRST),
    Step::Pop,
    Step::Play(FIRST),
];

const FAILS_WITHIN_TOLD: &str = "4 pushed
3 popped
fault: 1 written, 2 discarded, 2 torn
1 popped
0 written, 1 discarded
[1, 0, 255, 255, 2, 0]: 1 written, 3 discarded, 2 bytes torn
";

const ORDER: &[Step] = &[
    Step::Take(FIRST, &[[1, 2]; 4]),
    Step::Push,
    Step::Pop,
    Step::Pause,
    Step::Off,
    Step::Pop,
    Step::Play(FIRST),
    Step::Take(FIRST, &[[1, 2]]),
    Step::Push,
    Step::Pop,
    Step::Pause,
];

const ORDER_TOLD: &str = "4 pushed
2 popped
0 written, 0 discarded
0 written, 2 discarded
2 popped
fault: 0 written, 2 discarded, 0 torn
1 pushed
1 popped
0 written, 1 discarded
[]: 0 written, 5 discarded, 0 bytes torn
";

// The sizes of a ring and of a hand, where the writer fails, steps, and what they tell.
type Row = ((usize, usize), FailurePoint, &'static [Step], &'static str);

const ROWS: &[Row] = &[
    ((8, 3), FailurePoint::Never, OLD_CUT, OLD_CUT_TOLD),
    ((8, 4), FailurePoint::Never, MOVED, MOVED_TOLD),
    (
        (8, 3),
        FailurePoint::Byte(6),
        FAILS_WITHIN,
        FAILS_WITHIN_TOLD,
    ),
    ((8, 2), FailurePoint::Byte(0), ORDER, ORDER_TOLD),
];

const THREE_FRAMES: &[Step] = &[
    Step::Take(FIRST, &[[1, 2], [3, 4], [5, 6]]),
    Step::Push,
    Step::Pop,
    Step::Play(FIRST),
];

// What is expected where a writer of three frames fails after so many bytes.
fn failed_after_expected(alloc: Global, offset: u64) -> Result<String, AllocError> {
    let all = [1u8, 0, 2, 0, 3, 0, 4, 0, 5, 0, 6, 0];
    let bytes = all.get(..offset as usize).unwrap_or(&[]);
    let (written, torn) = (offset / 4, offset % 4);
    let discarded = 3u64.saturating_sub(written);
    format!(in alloc;
        "3 pushed\n3 popped\nfault: {written} written, {discarded} discarded, {torn} torn\n\
         {bytes:?}: {written} written, {discarded} discarded, {torn} bytes torn\n"
    )
}

// A writer that answers its first call so, and takes all at the others.
#[derive(Drop)]
struct Once {
    answer: Option<ErrorKind>,
    first: bool,
}

impl Write for Once {
    fn write(&mut self, buf: &[u8]) -> io::Result<usize> {
        if self.first {
            self.first = false;
            match self.answer {
                Some(kind) => return Err(io::Error::from(kind)),
                None => return Ok(0),
            }
        }
        Ok(buf.len())
    }

    fn flush(&mut self) -> io::Result<()> {
        Ok(())
    }
}

// What a hand of one frame gives with a writer that answers its first call so.
fn first_call_observed(alloc: Global, answer: Option<ErrorKind>) -> Result<String, AllocError> {
    let mut out = Counting::new(Once {
        answer,
        first: true,
    });
    let (mut feeder, mut drainer) = ring(alloc, 2, 2)?;
    offer(&mut feeder, &[[1, 2]], FIRST);
    let _pushed = push(&mut feeder);
    let _popped = pop(&mut drainer);
    let mut recorder = Recorder::new(alloc);
    tell_fates(
        &mut recorder,
        drainer.write_out(&mut out, live(FIRST, true, false)),
    );
    recorder.into_text()
}

const FIRST_ANSWERS: [Option<ErrorKind>; 3] = [
    Some(ErrorKind::Interrupted),
    Some(ErrorKind::WouldBlock),
    None,
];

// A writer that fails after each byte; and interrupted, blocked and empty writes, which are faults.
#[test]
fn writers_that_fail(rt: HostRuntime) -> Result<(), Fail> {
    for offset in 0..12 {
        wants_made(
            observed_of(rt.alloc(), (3, 3), FailurePoint::Byte(offset), THREE_FRAMES),
            failed_after_expected(rt.alloc(), offset),
        )?;
    }
    for answer in FIRST_ANSWERS.iter() {
        wants(
            first_call_observed(rt.alloc(), *answer),
            "fault: 0 written, 1 discarded, 0 torn\n",
        )?;
    }
    Ok(())
}

// What a ring of four answers: to a push and a pop of seven frames, how many are in the ring, how many are
// owed at the end and are in the ring after it, how many are held, and what fates are unreported.
fn both_ends(alloc: Global) -> Result<String, AllocError> {
    let (mut feeder, mut drainer) = ring(alloc, 4, 2)?;
    feeder.take(&[[1, 2]; 7], FIRST);
    let pushed = feeder.push();
    let popped = drainer.pop();
    let beside = drainer.beside(&mut feeder);
    let mut end = feeder.finish();
    let owed = end.owed();
    let after = drainer.after(&mut end);
    let held = drainer.held();
    drainer.reported();
    let Fates { written, discarded } = drainer.fates();
    format!(in alloc;
        "{pushed} pushed, {popped} popped, {beside} in the ring\n\
         {owed} owed at the end, {after:?} in the ring after it, {held} held\n\
         {written} written, {discarded} discarded not reported"
    )
}

const BOTH_ENDS: &str = "4 pushed, 2 popped, 2 in the ring
3 owed at the end, Some(2) in the ring after it, 2 held
0 written, 0 discarded not reported";

// Two blocks, of three frames of the first cut and two of the second.
fn feed(feeder: &mut Feeder, blocks: u8) -> u8 {
    if feeder.owed() > 0 {
        return blocks;
    }
    match blocks {
        0 => offer(feeder, &[[1, 2], [3, 4], [5, 6]], FIRST),
        1 => offer(feeder, &[[7, 8], [9, 10]], SECOND),
        _ => return blocks,
    }
    blocks + 1
}

fn take_turn(ends: &mut (Feeder, Drainer), out: &mut FailAt, cut: Cut, which: u64) {
    match which {
        0 => {
            let _moved = push(&mut ends.0);
        }
        1 => {
            let _popped = pop(&mut ends.1);
        }
        _ => {
            let _fates = written_out(&mut ends.1, out, cut, true, which == 2);
        }
    }
}

// Whether one order of five calls, and then enough turns that all frames go through, writes these bytes and
// discards so many frames.
fn is_order_as_expected(
    alloc: Global,
    cut: Cut,
    order: u64,
    expected: &[u8],
    skipped: u64,
) -> Result<bool, AllocError> {
    let mut out = FailAt::new(Vec::new(alloc), FailurePoint::Never);
    let mut ends = ring(alloc, 2, 2)?;
    let mut blocks = 0;
    let mut rest = order;
    for _turn in 0..5 {
        blocks = feed(&mut ends.0, blocks);
        take_turn(&mut ends, &mut out, cut, rest % 4);
        rest /= 4;
    }
    for turn in 0..15 {
        blocks = feed(&mut ends.0, blocks);
        take_turn(&mut ends, &mut out, cut, [0, 1, 3][turn % 3]);
    }
    Ok(out.bytes() == expected && ends.1.totals().discarded == skipped)
}

const ALL: [u8; 20] = [1, 0, 2, 0, 3, 0, 4, 0, 5, 0, 6, 0, 7, 0, 8, 0, 9, 0, 10, 0];

// Whatever the order of the calls, the same bytes come out once all has gone through.
#[test]
fn every_order_of_calls(rt: HostRuntime) {
    for order in 0..1024u64 {
        let first = is_order_as_expected(rt.alloc(), FIRST, order, &ALL, 0);
        assert!(rt; first == Ok(true), "order {order}");
        let second = is_order_as_expected(rt.alloc(), SECOND, order, &ALL[12..], 3);
        assert!(rt; second == Ok(true), "order {order} of the second cut");
    }
}

// How many frames are pushed of a block of 1,024, whose left samples are the block's number.
fn push_block(feeder: &mut Feeder, number: i16) -> usize {
    offer(feeder, &[[number, 1]; 1_024], FIRST);
    push(feeder)
}

// How many of the first 64 blocks are pushed whole, before one that is not.
fn blocks_pushed(feeder: &mut Feeder) -> i16 {
    for number in 0..64i16 {
        if push_block(feeder, number) != 1_024 {
            return number;
        }
    }
    64
}

// Whether a whole hand comes and is written, after so many others, by one call, and ends in a frame of its block.
fn is_hand_written(ends: &mut (Feeder, Drainer), out: &mut FailAt, number: u8) -> bool {
    let popped = pop(&mut ends.1);
    let _moved = push(&mut ends.0);
    let _fates = written_out(&mut ends.1, out, FIRST, true, false);
    popped == 1_024
        && out.calls() == u64::from(number).saturating_add(1)
        && out.bytes().ends_with(&[number, 0, 1, 0])
}

// How many hands of 65 are written so, before one that is not.
fn hands_written(ends: &mut (Feeder, Drainer), out: &mut FailAt) -> u8 {
    for number in 0..65u8 {
        if !is_hand_written(ends, out, number) {
            return number;
        }
    }
    65
}

// How many blocks the ring takes, and frames of one more; how many hands are written, and frames come after
// them; how many bytes and frames were written.
fn greatest_ring(alloc: Global) -> Result<String, AllocError> {
    let mut out = FailAt::new(Vec::new(alloc), FailurePoint::Never);
    let mut ends = ring(alloc, 65_536, 1_024)?;
    let blocks = blocks_pushed(&mut ends.0);
    let more = push_block(&mut ends.0, 64);
    let hands = hands_written(&mut ends, &mut out);
    let left = pop(&mut ends.1);
    let (bytes, written) = (out.bytes().len(), ends.1.totals().written);
    format!(in alloc;
        "{blocks} blocks and {more} frames pushed; {hands} hands written and {left} frames left\n\
         {bytes} bytes, {written} frames written"
    )
}

// The greatest ring holds 64 blocks and no frame more, and each hand is one write.
const GREATEST_RING: &str = "64 blocks and 0 frames pushed; 65 hands written and 0 frames left
266240 bytes, 66560 frames written";

// Worked steps, both ends in one thread, and the greatest ring.
#[test]
fn worked_rings(rt: HostRuntime) -> Result<(), Fail> {
    for (sizes, point, steps, tells) in ROWS.iter() {
        wants(observed_of(rt.alloc(), *sizes, *point, steps), tells)?;
    }
    wants(both_ends(rt.alloc()), BOTH_ENDS)?;
    wants(greatest_ring(rt.alloc()), GREATEST_RING)
}
