//! The decoder's ends of several rings.
ghost use Rattle.std.specs.Prelude.{◌≡◌, ◌≤◌, [], All, None, false, length, slice_get, slice_index_or, vec_len, vec_capacity};
ghost use Rattle.output_ring.specs.Rings.{EndsFeeder};
ghost use Rattle.crew_steps.specs.Decoding.{EndsAs};
ghost use Rattle.crew_steps.specs.Each.{Each, EachAt};
ghost use Rattle.crew_steps.specs.Feeding.{OwesNothing, TakesItsOwn, TakesNone, fed_frames, owes, owing as owing_lem};

use output_ring::{Cut, Feeder, FeederEnd};
use pcm_mix::Frame;
use player_state::Feed;
use std::sync::Wait;
use std::thread;

/// What came of moving frames into rings.
#[derive(Clone, Copy, PartialEq, Eq)]
pub struct Pushed {
    /// Whether some went.
    pub has_moved: bool,
    /// Whether some still wait for room.
    pub waits: bool,
}

impl Pushed {
    ghost use Rattle.std.specs.Prelude.{◌≡◌, ◌||◌};

    /// What came of it in rings of both.
    fn joined(self, other: Pushed) -> Pushed
        ensures has_moved { result.has_moved ≡ (self.has_moved || other.has_moved) }
        ensures waits { result.waits ≡ (self.waits || other.waits) }
    {
        Pushed {
            has_moved: self.has_moved || other.has_moved,
            waits: self.waits || other.waits,
        }
    }
}

/// Moves frames into each ring as it has room.
pub fn push_all(feeders: &mut Vec<Feeder>) -> Pushed
    ensures kept { Each TakesNone feeders.old.items feeders.new.items }
    ensures waits { result.waits ≡ false → All OwesNothing feeders.new.items }
{
    let mut pushed = Pushed {
        has_moved: false,
        waits: false,
    };
    for i in 0..feeders.len() {
        pushed = pushed.joined(push_one(&mut feeders[i]));
    }
    pushed
}

/// Of the first eight rings those in which frames wait for room.
pub(crate) fn owing(feeders: &[Feeder]) -> [bool; 8]
    ensures { result ≡ owing_lem feeders.now }
{
    [
        owes_at(feeders, 0),
        owes_at(feeders, 1),
        owes_at(feeders, 2),
        owes_at(feeders, 3),
        owes_at(feeders, 4),
        owes_at(feeders, 5),
        owes_at(feeders, 6),
        owes_at(feeders, 7),
    ]
}

/// Whether all rings of the first eight that are named are among some others.
pub(crate) fn are_among(named: [bool; 8], others: [bool; 8]) -> bool {
    named
        .iter()
        .zip(others.iter())
        .all(|(named, other)| !*named || *other)
}

/// Whether frames wait for room in the ring of an output, if it has one.
fn owes_at(feeders: &[Feeder], output: usize) -> bool
    ensures { result ≡ owes (slice_get feeders.now output) }
{
    match feeders.get(output) {
        Some(feeder) => feeder.owed() > 0,
        None => false,
    }
}

/// The ring of each output that the frames are for takes them as a block, of the cut that they are fed with
/// and of the output's moves.
pub fn take_all(rt: &impl Wait, feeders: &mut Vec<Feeder>, frames: &[Frame], feed: &Feed)
    requires { length frames.now ≤ 1024 }
    ensures { EachAt (TakesItsOwn (fed_frames feed.now frames.now)) 0 feeders.old.items feeders.new.items }
{
    for i in 0..feeders.len() {
        take_one(rt, &mut feeders[i], frames, feed, i);
    }
}

/// The ring of an output that the frames are for takes them as a block, once nothing waits for room in it.
#[tactic(auto, using(crate::proofs::Pushes::takes_some, crate::proofs::Pushes::takes_none))]
fn take_one(rt: &impl Wait, feeder: &mut Feeder, frames: &[Frame], feed: &Feed, output: usize)
    requires { length frames.now ≤ 1024 }
    ensures { TakesItsOwn (fed_frames feed.now frames.now) output feeder.old feeder.new }
{
    if let Some(moves) = moves_of(feed, output) {
        let cut = Cut {
            moves,
            number: feed.cut,
        };
        make_room(rt, feeder);
        feeder.take(frames, cut);
    }
}

/// Moves into a ring what waits for room in it, until nothing does. A partition gives a job only where nothing
/// waits at its outputs, and its frames are for no other output, so that one look is enough.
fn make_room(rt: &impl Wait, feeder: &mut Feeder)
    ensures kept { TakesNone feeder.old feeder.new }
    ensures free { OwesNothing feeder.new }
{
    for _ in rt.forever() {
        if !push_one(feeder).waits {
            return;
        }
        thread::yield_now();
    }
    unreachable!()
}

/// How often an output was moved that frames are for; `None` where they are not for it.
fn moves_of(feed: &Feed, output: usize) -> Option<u64>
    ensures { result ≡ slice_index_or feed.now.outputs output None }
{
    match feed.outputs.get(output) {
        Some(moves) => *moves,
        None => None,
    }
}

/// Moves frames into a ring as it has room.
fn push_one(feeder: &mut Feeder) -> Pushed
    ensures kept { TakesNone feeder.old feeder.new }
    ensures waits { result.waits ≡ false → OwesNothing feeder.new }
{
    let moved = feeder.push();
    Pushed {
        has_moved: moved > 0,
        waits: feeder.owed() > 0,
    }
}

/// Finishes all feeders. There is room for their ends.
pub fn finish_all(feeders: Vec<Feeder>, room: Vec<FeederEnd>) -> Vec<FeederEnd>
    requires { (room.items ≡ []) × (vec_len feeders ≤ vec_capacity room) }
    ensures rings { Each EndsFeeder feeders.items result.items }
    ensures ends { Each EndsAs feeders.items result.items }
{
    let mut ends = room;
    for feeder in feeders {
        ends.push_reserved(feeder.finish());
    }
    ends
}
