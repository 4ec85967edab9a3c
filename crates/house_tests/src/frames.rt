//! Frames of a job under the lock: fed, written, and settled.
ghost use Rattle.frame_ledger.specs.Shares.{HasAllParts, KeepsParts};
ghost use Rattle.std.specs.Prelude.{◌≡◌, ◌<◌, ◌≤◌, [], IfOk, vec_len, vec_capacity};
ghost use Rattle.output_ring.specs.Rings.{SameDrainer};

use crate::rooms::seat_of;
use crate::session::{add_report, session};
use counted_devices::{FailAt, FailurePoint};
use frame_ledger::OutputShares;
use house::{CrewShares, Decoded, Discarded, EndedRing, House, Ledgers, Seat, Settlement, Written};
use output_ring::{Cut, Drainer, Fates, Live, ring};
use partition::PartitionFault;
use std::alloc::{AllocError, Global};
use std::sync::Wait;
use std::sync::ledger::Share;
use std::time::Clock;
use test_texts::Recorder;

/// A song plays, and the decoder wants a job.
const STEPS: &str = "comes 1
1 add a.wav
1 play
wants";

/// The decoder has the frames of the first job.
fn has<L: Ledgers>(
    rt: &impl Wait,
    house: &House<L>,
    seat: &mut Seat<L>,
    share: &mut Share<Decoded<L>>,
    recorder: &mut Recorder,
)
    requires { 0 < share.old.parts }
    ensures { share.new.parts ≡ share.old.parts }
{
    let reported = house.have(rt, seat, 0, 1, 1024, share);
    add_report(&reported, recorder);
}

/// An output has its turn.
fn turns<L: Ledgers>(
    rt: &impl Wait,
    house: &House<L>,
    seat: &mut Seat<L>,
    shares: &mut OutputShares<Written<L>, Discarded<L>>,
    output: usize,
    fates: Fates,
    recorder: &mut Recorder,
)
    requires { (0 < shares.old.written.parts) × (0 < shares.old.discarded.parts) }
    ensures { KeepsParts shares.old shares.new }
{
    let reported = house.turn(rt, seat, output, fates, false, shares);
    add_report(&reported, recorder);
}

/// Fills the hand and writes it out at a cut.
fn writes_out(drainer: &mut Drainer, out: &mut FailAt, cut: u64)
    ensures { SameDrainer drainer.old drainer.new }
{
    let live = Live {
        cut: Cut {
            moves: 0,
            number: cut,
        },
        enabled: true,
        paused: false,
        ended: false,
    };
    let _popped = drainer.pop();
    let _fates = drainer.write_out(out, live);
}

/// Of the frames of a ring 512 are written and told of, and 512 more are discarded after it.
fn writes_twice<L: Ledgers>(
    rt: &impl Wait,
    alloc: Global,
    house: &House<L>,
    seat: &mut Seat<L>,
    shares: &mut OutputShares<Written<L>, Discarded<L>>,
    drainer: &mut Drainer,
    recorder: &mut Recorder,
)
    requires { (0 < shares.old.written.parts) × (0 < shares.old.discarded.parts) }
    ensures parts { KeepsParts shares.old shares.new }
    ensures same { SameDrainer drainer.old drainer.new }
{
    let mut out = FailAt::new(Vec::new(alloc), FailurePoint::Never);
    writes_out(drainer, &mut out, 1);
    turns(rt, house, seat, shares, 0, drainer.fates(), recorder);
    drainer.reported();
    writes_out(drainer, &mut out, 2);
}

/// The ends of a ring of which 512 frames were written and told of, and 512 more were discarded since.
fn ends_observed<L: Ledgers>(
    rt: &impl Wait,
    alloc: Global,
    house: &House<L>,
    seat: &mut Seat<L>,
    shares: &mut OutputShares<Written<L>, Discarded<L>>,
    recorder: &mut Recorder,
) -> Result<EndedRing, PartitionFault>
    requires { (0 < shares.old.written.parts) × (0 < shares.old.discarded.parts) }
    ensures { KeepsParts shares.old shares.new }
{
    let (mut feeder, mut drainer) = ring(alloc, 8192, 512)?;
    feeder.take(
        &[[1, -1]; 1_024],
        Cut {
            moves: 0,
            number: 1,
        },
    );
    let _pushed = feeder.push();
    writes_twice(rt, alloc, house, seat, shares, &mut drainer, recorder);
    Ok(EndedRing {
        end: feeder.finish(),
        drainer,
    })
}

/// This ring and another that took nothing, and room for what both are settled with.
fn two_rings<L: Ledgers>(
    alloc: Global,
    first: EndedRing,
) -> Result<(Vec<EndedRing>, Vec<Settlement<L>>), AllocError>
    ensures rings { IfOk result (λ r. vec_len r.0 ≡ 2) }
    ensures room { IfOk result (λ r. (r.1.items ≡ []) × (2 ≤ vec_capacity r.1)) }
{
    let (feeder, drainer) = ring(alloc, 8192, 512)?;
    let mut rings = Vec::new(alloc);
    rings.push(first)?;
    rings.push(EndedRing {
        end: feeder.finish(),
        drainer,
    })?;
    let mut room = Vec::new(alloc);
    room.reserve(2)?;
    Ok((rings, room))
}

/// Adds what outputs are settled with: of each its frames decoded, written, discarded and left.
fn add_settled<L: Ledgers>(settlements: &[Settlement<L>], recorder: &mut Recorder) {
    for settlement in settlements {
        match &settlement.result {
            Ok(s) => recorder.add(format_args!(
                "decoded {}, written {}, discarded {}, left {}\n",
                s.decoded, s.written, s.discarded, s.left
            )),
            Err(_) => recorder.add("not settled\n"),
        }
    }
}

/// Adds what two outputs are settled with, of which the second took nothing.
fn settles<L: Ledgers>(
    rt: &impl Wait,
    alloc: Global,
    house: &House<L>,
    shares: CrewShares<L>,
    first: EndedRing,
    recorder: &mut Recorder,
)
    requires { HasAllParts shares.decoded.parts shares.outputs }
{
    let Ok((rings, room)) = two_rings::<L>(alloc, first) else {
        recorder.fail();
        return;
    };
    let settlements = house.settle_all(rt, shares, rings, room);
    add_settled(&settlements, recorder);
}

/// A song plays, and its first frames are decoded once.
fn decoded<L: Ledgers, R: Wait + Clock>(
    rt: &R,
    alloc: Global,
    house: &House<L>,
    seat: &mut Seat<L>,
    share: &mut Share<Decoded<L>>,
    recorder: &mut Recorder,
)
    requires { 0 < share.old.parts }
    ensures { share.new.parts ≡ share.old.parts }
{
    session(rt, alloc, house, seat, STEPS, recorder);
    has(rt, house, seat, share, recorder);
    has(rt, house, seat, share, recorder);
}

const NOTHING: Fates = Fates {
    written: 0,
    discarded: 0,
};

/// An output that is not there has its turn, and one that is, which then writes.
fn written<L: Ledgers>(
    rt: &impl Wait,
    alloc: Global,
    house: &House<L>,
    seat: &mut Seat<L>,
    shares: &mut OutputShares<Written<L>, Discarded<L>>,
    recorder: &mut Recorder,
) -> Result<EndedRing, PartitionFault>
    requires { (0 < shares.old.written.parts) × (0 < shares.old.discarded.parts) }
    ensures { KeepsParts shares.old shares.new }
{
    turns(rt, house, seat, shares, 5, NOTHING, recorder);
    turns(rt, house, seat, shares, 0, NOTHING, recorder);
    ends_observed(rt, alloc, house, seat, shares, recorder)
}

/// A song is decoded and two outputs have their turns. The ends of the first one's ring.
fn plays<L: Ledgers, R: Wait + Clock>(
    rt: &R,
    alloc: Global,
    house: &House<L>,
    shares: &mut CrewShares<L>,
    recorder: &mut Recorder,
) -> Result<EndedRing, PartitionFault>
    requires { HasAllParts shares.old.decoded.parts shares.old.outputs }
    ensures { HasAllParts shares.new.decoded.parts shares.new.outputs }
{
    let mut seat = seat_of(rt, house)?;
    decoded(rt, alloc, house, &mut seat, &mut shares.decoded, recorder);
    written(rt, alloc, house, &mut seat, &mut shares.outputs, recorder)
}

/// Adds what is observed of frames, and what the outputs are settled with.
pub(crate) fn frames<L: Ledgers, R: Wait + Clock>(
    rt: &R,
    alloc: Global,
    house: &House<L>,
    shares: CrewShares<L>,
    recorder: &mut Recorder,
)
    requires { HasAllParts shares.decoded.parts shares.outputs }
{
    let mut shares = shares;
    match plays(rt, alloc, house, &mut shares, recorder) {
        Ok(first) => settles(rt, alloc, house, shares, first, recorder),
        Err(_) => recorder.fail(),
    }
}

/// What is observed of them. No step between the two turns of the first output changes how it plays, so both are told
/// the same.
pub(crate) const TELLS: &str = "OK MPD 0.23.0
heard
OK
OK
job 1 from frame 0: 1024 frames
feed at cut 1 and volume 100 to output 0: true, 1: false, 8: false
stale
live at cut 0, enabled false, paused false
live at cut 1, enabled true, paused false
live at cut 1, enabled true, paused false
decoded 1024, written 512, discarded 512, left 0
decoded 0, written 0, discarded 0, left 0
";
