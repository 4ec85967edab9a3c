//! Books of frames against rings: worked settlements, and the greatest books.
ghost use Rattle.std.specs.Prelude.{◌≡◌, IfOk};
ghost use Rattle.output_ring.specs.Rings.{AreEndsAfter};
ghost use Rattle.frame_ledger.specs.Balance.{IsBlankOf};

use counted_devices::{FailAt, FailurePoint};
use frame_ledger::{AtLimit, Blanks, Books, SettleFault, Settled, Tally, settle};
use output_ring::{Cut, Drainer, Fates, FeederEnd, Live, ring};
use std::alloc::{AllocError, Global};
use std::marker::Brand;
use std::sync::ledger::{Blank, Ledger};
use std::test::Fail;
use test_texts::{Recorder, wants};

// A hand that is filled and written out, and perhaps reported.
#[derive(Clone, Copy)]
struct Turn {
    cut: u64,
    paused: bool,
    reported: bool,
}

// A run of one ring, whose feeder takes so many frames of cut 1.
#[derive(Clone, Copy)]
struct Run<'a> {
    capacity: usize,
    hand: usize,
    frames: usize,
    point: FailurePoint,
    turns: &'a [Turn],
}

fn ends_of(alloc: Global, run: Run<'_>) -> Result<(FeederEnd, Drainer), AllocError>
    ensures { IfOk result (λ r. AreEndsAfter r.0 r.1) }
{
    let mut out = FailAt::new(Vec::new(alloc), run.point);
    let (mut feeder, mut drainer) = ring(alloc, run.capacity, run.hand)?;
    feeder.take(
        &[[1, -1]; 1_024][..run.frames.min(1_024)],
        Cut {
            moves: 0,
            number: 1,
        },
    );
    let _pushed = feeder.push();
    for turn in run.turns {
        let live = Live {
            cut: Cut {
                moves: 0,
                number: turn.cut,
            },
            enabled: true,
            paused: turn.paused,
            ended: false,
        };
        let _popped = drainer.pop();
        let _fates = drainer.write_out(&mut out, live);
        if turn.reported {
            drainer.reported();
        }
    }
    Ok((feeder.finish(), drainer))
}

type Answer = Result<Settled, SettleFault>;

fn settled_at<E: Ledger, W: Ledger, X: Ledger>(
    alloc: Global,
    blanks: Blanks,
    run: Run<'_>,
    decoded: u64,
    fates: Fates,
) -> Result<Answer, AllocError>
    requires decoded { IsBlankOf blanks.decoded E.name E.parts × (E.parts ≡ 1) }
    requires written { IsBlankOf blanks.written W.name W.parts × (W.parts ≡ 1) }
    requires discarded { IsBlankOf blanks.discarded X.name X.parts × (X.parts ≡ 1) }
{
    let (mut books, mut share, mut shares) = Books::<E, W, X>::open(alloc, blanks, 1)?;
    let _raised = books.decoded.raise(0, &mut share, decoded);
    let _counted = books.count_fates(0, &mut shares, fates);
    let (end, drainer) = ends_of(alloc, run)?;
    Ok(settle(end, drainer, &mut books, 0, &mut shares))
}

fn settled(
    alloc: Global,
    run: Run<'_>,
    decoded: u64,
    written: u64,
    discarded: u64,
) -> Result<Answer, AllocError> {
    let blanks = Blanks {
        decoded: Blank::new(1),
        written: Blank::new(1),
        discarded: Blank::new(1),
    };
    let fates = Fates { written, discarded };
    settled_at::<Brand, Brand, Brand>(alloc, blanks, run, decoded, fates)
}

// Adds what is settled: the frames decoded, written, discarded and left, and the bytes of a torn one.
fn tell_answer(recorder: &mut Recorder, answer: Result<Answer, AllocError>) {
    match answer {
        Ok(Ok(found)) => {
            let (decoded, written, discarded) = (found.decoded, found.written, found.discarded);
            let (left, torn) = (found.left, found.torn);
            recorder.add(format_args!(
                "{decoded} decoded: {written} written, {discarded} discarded, {left} left; {torn} bytes torn\n"
            ));
        }
        Ok(Err(SettleFault::Mismatch)) => recorder.add("mismatch\n"),
        Ok(Err(_)) => recorder.add("another fault\n"),
        Err(_) => recorder.fail(),
    }
}

// The same for each of several books: the frames decoded, written and discarded.
fn observed_of(alloc: Global, run: Run<'_>, books: &[[u64; 3]]) -> Result<String, AllocError> {
    let mut recorder = Recorder::new(alloc);
    for book in books {
        tell_answer(
            &mut recorder,
            settled(alloc, run, book[0], book[1], book[2]),
        );
    }
    recorder.into_text()
}

const PLAYED: Turn = Turn {
    cut: 1,
    paused: false,
    reported: true,
};

const CUT_OFF: Turn = Turn {
    cut: 2,
    paused: false,
    reported: true,
};

const UNREPORTED: Turn = Turn {
    cut: 2,
    paused: false,
    reported: false,
};

const PAUSED: Turn = Turn {
    cut: 1,
    paused: true,
    reported: true,
};

// Twelve frames through a ring of eight and a hand of three.
const OLD_CUT: Run<'static> = Run {
    capacity: 8,
    hand: 3,
    frames: 12,
    point: FailurePoint::Never,
    turns: &[PLAYED, CUT_OFF, CUT_OFF],
};

const ONE_UNREPORTED: Run<'static> = Run {
    capacity: 8,
    hand: 3,
    frames: 12,
    point: FailurePoint::Never,
    turns: &[PLAYED, CUT_OFF, UNREPORTED],
};

// A pause and a turn: a ring of four, a hand of two and three frames.
const ONE_PAUSED: Run<'static> = Run {
    capacity: 4,
    hand: 2,
    frames: 3,
    point: FailurePoint::Never,
    turns: &[PAUSED, PLAYED],
};

// A writer that fails within the second of three frames.
const TORN: Run<'static> = Run {
    capacity: 8,
    hand: 3,
    frames: 3,
    point: FailurePoint::Byte(6),
    turns: &[PLAYED],
};

// A block through the greatest ring.
const GREATEST: Run<'static> = Run {
    capacity: 65_536,
    hand: 1_024,
    frames: 1_024,
    point: FailurePoint::Never,
    turns: &[PLAYED],
};

// A run, books of the frames decoded, written and discarded, and how each is settled.
type Row = (Run<'static>, &'static [[u64; 3]], &'static str);

const ROWS: &[Row] = &[
    (
        OLD_CUT,
        &[[12, 3, 5], [12, 3, 6], [12, 2, 5], [11, 3, 5]],
        "12 decoded: 3 written, 5 discarded, 4 left; 0 bytes torn\nmismatch\nmismatch\nmismatch\n",
    ),
    (
        ONE_UNREPORTED,
        &[[12, 3, 3], [12, 3, 5]],
        "12 decoded: 3 written, 5 discarded, 4 left; 0 bytes torn\nmismatch\n",
    ),
    (
        ONE_PAUSED,
        &[[3, 2, 0]],
        "3 decoded: 2 written, 0 discarded, 1 left; 0 bytes torn\n",
    ),
    (
        TORN,
        &[[3, 1, 2]],
        "3 decoded: 1 written, 2 discarded, 0 left; 2 bytes torn\n",
    ),
    (
        GREATEST,
        &[[1_024, 1_024, 0]],
        "1024 decoded: 1024 written, 0 discarded, 0 left; 0 bytes torn\n",
    ),
];

// The first of eight outputs has all that a book can count, and the last one asks for one more.
fn full_at<L: Ledger>(alloc: Global, blank: Blank) -> Result<(Result<(), AtLimit>, u64), AllocError>
    requires { IsBlankOf blank L.name L.parts × (L.parts ≡ 1) }
{
    let (mut tally, mut share) = Tally::<L>::open(alloc, blank, 8)?;
    let _raised = tally.raise(0, &mut share, 0x7fff_ffff_ffff_ffff);
    let answer = tally.raise(7, &mut share, 1);
    tally.audit(&mut share);
    Ok((answer, tally.number(0)))
}

fn full(alloc: Global) -> Result<(Result<(), AtLimit>, u64), AllocError> {
    full_at::<Brand>(alloc, Blank::new(1))
}

#[test]
fn settled_and_full_books(rt: HostRuntime) -> Result<(), Fail> {
    for (run, books, tells) in ROWS.iter() {
        wants(observed_of(rt.alloc(), *run, books), tells)?;
    }
    assert_eq!(rt; full(rt.alloc())?, (Err(AtLimit), 0x7fff_ffff_ffff_ffff));
    Ok(())
}
