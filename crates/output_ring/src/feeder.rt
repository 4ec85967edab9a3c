//! The end of a ring that a decoder feeds.
ghost use Rattle.std.specs.Prelude.{◌≡◌, ◌+◌, ◌≤◌, ◌++◌, length, vec_len, vec_capacity};

use crate::frames::Cut;
use crate::inlet::{Inlet, InletEnd};
use pcm_mix::Frame;
use std::alloc::{AllocError, Global};

/// The most frames of a block.
pub const MOST_FRAMES: usize = 1024;

/// Takes blocks of frames, and moves them into the ring as it has room. No call waits, and only its making
/// takes memory.
pub struct Feeder {
    pub(crate) inlet: Inlet,
    block: Vec<Frame>,
    // The cut of the block.
    cut: Cut,
    // How many frames of the block went into the ring.
    sent: usize,
    ghost within: { (sent ≤ vec_len block) × (vec_len block ≤ 1024) },
    ghost room: { 1024 ≤ vec_capacity block },
}

impl Drop for Feeder {
    fn drop(self) {
        let Feeder {
            inlet: _,
            block: _,
            cut: _,
            sent: _,
        } = self;
    }
}

/// What is left of a feeder, with a token of all that it sent.
pub struct FeederEnd {
    pub(crate) finished: Option<InletEnd>,
    block: Vec<Frame>,
    cut: Cut,
    sent: usize,
    ghost within: { (sent ≤ vec_len block) × (vec_len block ≤ 1024) },
}

impl Drop for FeederEnd {
    fn drop(self) {
        let FeederEnd {
            finished: _,
            block: _,
            cut: _,
            sent: _,
        } = self;
    }
}

impl Feeder {
    ghost use Rattle.std.specs.Prelude.{◌≡◌, ◌<◌, ◌≤◌, [], ◌++◌};
    ghost use Rattle.std.specs.Prelude.{IfOk, length, take, drop};
    ghost use Rattle.output_ring.specs.Frames.{with_cut};
    ghost use Rattle.output_ring.specs.Rings.{taken_of, sent_of, owed_of, room_of, end_owed};
    ghost use Rattle.output_ring.specs.Rings.{SameFeeder, EndTook, EndsFeeder};

    pub(crate) fn new(alloc: Global, inlet: Inlet) -> Result<Feeder, AllocError>
        ensures { IfOk result (λ f. (f.inlet ≡ inlet) × (owed_of f ≡ [])) }
    {
        let mut block = Vec::new(alloc);
        block.reserve(MOST_FRAMES)?;
        Ok(Feeder {
            inlet,
            block,
            cut: Cut {
                moves: 0,
                number: 0,
            },
            sent: 0,
        })
    }

    /// Takes a block of frames of one cut. `owed` tells whether the block before is out.
    pub fn take(&mut self, frames: &[Frame], cut: Cut)
        requires nothing_owed { owed_of self.old ≡ [] }
        requires most { length frames.now ≤ 1024 }
        ensures taken { taken_of self.new ≡ taken_of self.old ++ with_cut cut frames.now }
        ensures owed { owed_of self.new ≡ with_cut cut frames.now }
        ensures kept { (sent_of self.new ≡ sent_of self.old) × (room_of self.new ≡ room_of self.old) }
        ensures ring { SameFeeder self.old self.new }
    {
        self.sent = 0;
        self.cut = cut;
        self.block.clear();
        fill(&mut self.block, frames);
    }

    /// Moves owed frames into the ring while it has room, and says how many.
    pub fn push(&mut self) -> usize
        ensures sent { sent_of self.new ≡ sent_of self.old ++ take result (owed_of self.old) }
        ensures owed { owed_of self.new ≡ drop result (owed_of self.old) }
        ensures taken { taken_of self.new ≡ taken_of self.old }

        // All goes where the room is known, and what stays knows of none.
        ensures all { length (owed_of self.old) ≤ room_of self.old → owed_of self.new ≡ [] }
        ensures stops { 0 < length (owed_of self.new) → room_of self.new ≡ 0 }
        ensures count { result ≤ length (owed_of self.old) }
        ensures ring { SameFeeder self.old self.new }
    {
        let moved = self.inlet.push(&self.block[self.sent..], self.cut);
        self.sent += moved;
        moved
    }

    /// How many frames of the block wait for room.
    pub fn owed(&self) -> usize
        ensures { result ≡ length (owed_of self.now) }
    {
        self.block.len() - self.sent
    }

    /// Ends the feeding. There is no token where the drainer was dropped before.
    pub fn finish(self) -> FeederEnd
        ensures took { EndTook result (taken_of self) }
        ensures owed { end_owed result ≡ owed_of self }
        ensures ring { EndsFeeder self result }
    {
        let Feeder {
            inlet,
            block,
            cut,
            sent,
        } = self;
        FeederEnd {
            finished: inlet.finish(),
            block,
            cut,
            sent,
        }
    }
}

fn fill(block: &mut Vec<Frame>, frames: &[Frame])
    requires room { vec_len block.old + length frames.now ≤ vec_capacity block.old }
    ensures items { block.new.items ≡ block.old.items ++ frames.now }
    ensures room { vec_capacity block.old ≤ vec_capacity block.new }
{
    let filled = block.extend_from_slice(frames);
    if filled.is_err() {
        unreachable!()
    }
}

impl FeederEnd {
    ghost use Rattle.std.specs.Prelude.{◌≡◌, length};
    ghost use Rattle.output_ring.specs.Rings.{end_owed};

    /// How many frames waited for room when the feeder finished.
    pub fn owed(&self) -> usize
        ensures { result ≡ length (end_owed self.now) }
    {
        self.block.len() - self.sent
    }
}
