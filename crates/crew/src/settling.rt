//! The end of the outputs: their threads are joined, and their shares come back.
ghost use Rattle.std.specs.Prelude.{◌≡◌, ◌+◌, ◌≤◌, [], map, vec_len, vec_capacity};
ghost use Rattle.frame_ledger.specs.Shares.{HasOnePart, HasPartsBut};
ghost use Rattle.output_ring.specs.Rings.{EndsFeeder};
ghost use Rattle.crew.specs.Closing.{LeavesRun, GainsOnePart};
ghost use Rattle.crew_steps.specs.Each.{Each};
ghost use Rattle.crew.specs.Rows.{first_of_run};

use crate::output::{OutputLeft, OutputRun};
use crew_steps::OutputEnd;
use frame_ledger::OutputShares;
use house::{Discarded, EndedRing, Ledgers, Written};
use output_ring::FeederEnd;
use std::sync::Wait;
use std::thread::Threads;

/// Joins the thread of an output, whose feeder has ended so.
fn join_output<L: Ledgers, R: Threads + Wait>(
    rt: &R,
    run: OutputRun<L>,
    end: FeederEnd,
) -> OutputLeft<L>
    requires { EndsFeeder run.first.value end }
    ensures { LeavesRun run result.ring }
{
    let OutputRun {
        handle,
        first: _first,
    } = run;
    let OutputEnd { drainer, shares } = handle.join(rt);
    OutputLeft {
        ring: EndedRing { end, drainer },
        shares,
    }
}

/// Puts the shares of an output to the others.
fn take_back<L: Ledgers>(
    all: &mut OutputShares<Written<L>, Discarded<L>>,
    one: OutputShares<Written<L>, Discarded<L>>,
)
    requires { HasOnePart one }
    ensures { GainsOnePart all.old all.new }
{
    let OutputShares { written, discarded } = one;
    all.written.merge(written);
    all.discarded.merge(discarded);
}

/// Joins the threads of all outputs. There is room for their rings.
pub(crate) fn join_outputs<L: Ledgers, R: Threads + Wait>(
    rt: &R,
    outputs: Vec<OutputRun<L>>,
    ends: Vec<FeederEnd>,
    shares: &mut OutputShares<Written<L>, Discarded<L>>,
    room: Vec<EndedRing>,
) -> Vec<EndedRing>
    requires ends { Each EndsFeeder (map first_of_run outputs.items) ends.items }
    requires parts { HasPartsBut (vec_len outputs) shares.old }
    requires room { (room.items ≡ []) × (vec_len outputs ≤ vec_capacity room) }
    ensures rings { Each LeavesRun outputs.items result.items }
    ensures parts { HasPartsBut 0 shares.new }
{
    let mut rings = room;
    let mut ends = ends.into_iter();
    for run in outputs {
        let Some(end) = ends.next() else {
            unreachable!()
        };
        let left = join_output(rt, run, end);
        take_back(shares, left.shares);
        rings.push_reserved(left.ring);
    }
    rings
}
