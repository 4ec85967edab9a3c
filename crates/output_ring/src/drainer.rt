//! The end of a ring that an output drains.
ghost use Rattle.std.specs.Prelude.{◌≡◌, ◌+◌, ◌^◌, ◌<◌, ◌≤◌, [], ◌++◌};
ghost use Rattle.std.specs.Prelude.{length, take, drop, vec_len, vec_capacity};
ghost use Rattle.output_ring.specs.Ends.{known_in, popped_from, ComeOut, SameOutlet, WereKnown};
ghost use Rattle.output_ring.specs.Frames.{came_into, settled, AreAmong};
ghost use Rattle.output_ring.specs.Runs.{cuts_of, first_in};
ghost use Rattle.output_ring.specs.Sending.{HasRoom};

use crate::feeder::{Feeder, FeederEnd};
use crate::frames::{Fates, Live, Totals, WriteFault};
use crate::outgoing::Outgoing;
use crate::outlet::Outlet;
use crate::runs::Run;
use counted_devices::Sink;
use pcm_mix::Frame;
use std::alloc::{AllocError, Global};

const NO_FATES: Fates = Fates {
    written: 0,
    discarded: 0,
};

/// Pops frames into its hand, and gives each its fate. No call waits, and only its making takes memory.
pub struct Drainer {
    pub(crate) outlet: Outlet,
    // The hand is the first `held` of these, in these runs.
    pub(crate) slots: Vec<Frame>,
    pub(crate) held: usize,
    pub(crate) runs: Vec<Run>,
    pub(crate) totals: Totals,
    pub(crate) unreported: Fates,
    pub(crate) failed: bool,
    outgoing: Outgoing,
    ghost room: { HasRoom (vec_len slots) outgoing },
    ghost within: { held ≤ vec_len slots },
    ghost runs_room: { (vec_len runs ≤ held) × (vec_len slots ≤ vec_capacity runs) },
    ghost runs_are: { length (cuts_of runs.items) ≡ held },
    ghost hand_long: { length (first_in runs.items slots.items held) ≡ held },
    ghost counted: { settled totals + held ≡ length (popped_from outlet) },
    ghost bounded: { settled totals + held < 2 ^ 64 },
    ghost unreported_within: { AreAmong unreported totals },
    ghost torn: { totals.torn < 4 },
    ghost hand_is: { first_in runs.items slots.items held ≡ drop (settled totals) (popped_from outlet) },
}

impl Drop for Drainer {
    fn drop(self) {
        let Drainer {
            outlet: _,
            slots: _,
            held: _,
            runs: _,
            totals: _,
            unreported: _,
            failed: _,
            outgoing: _,
        } = self;
    }
}

impl Drainer {
    ghost use mathlib.Core.List.{IsPrefix};
    ghost use Rattle.output_ring.specs.Ends.{popped_from};
    ghost use Rattle.std.specs.Prelude.{◌≡◌, ◌+◌, ◌^◌, ◌<◌, ◌≤◌, [], ◌++◌};
    ghost use Rattle.std.specs.Prelude.{◌||◌, ◌↔◌, IfOk, IfSome, IsSome, MatchResult};
    ghost use Rattle.std.specs.Prelude.{OnErr, is_err, length};
    ghost use Rattle.counted_devices.specs.CallCounts.{HasFailed};
    ghost use Rattle.output_ring.specs.Frames.{HearsSinceMove, no_fates, counted, totals_after, fates_in};
    ghost use Rattle.output_ring.specs.Rings.{taken_of, owed_of, fates_of, popped_of, came_of, hand_of};
    ghost use Rattle.output_ring.specs.Rings.{most_of, ring_of, totals_of, unreported_of, has_failed};
    ghost use Rattle.output_ring.specs.Rings.{accounted_of, hand_fates, end_owed, AddsUnreported, HasNoFates};
    ghost use Rattle.output_ring.specs.Rings.{PopsAllKnown, KnowsNoMore, KeepsFates, KeepsPopped};
    ghost use Rattle.output_ring.specs.Rings.{KeepsAllButReport, KeepsAllButRing, KeepsFeeder, AreEnds, AreEndsAfter};
    ghost use Rattle.output_ring.specs.Rings.{AccountsForAll, SameDrainer, Comes};
    ghost use Rattle.output_ring.specs.Turns.{OnFault, OnHold, OnPlay};
    ghost use Rattle.output_ring.specs.Turns.{DiscardsHand, KeepsHand, WritesHand, FailsInHand};

    pub(crate) fn new(alloc: Global, outlet: Outlet, most: usize) -> Result<Drainer, AllocError>
        requires { popped_from outlet ≡ [] }
        ensures outlet { IfOk result (λ d. d.outlet ≡ outlet) }
        ensures empty { IfOk result (λ d. (hand_of d ≡ []) × (most_of d ≡ most) × HasNoFates d) }
    {
        let mut slots: Vec<Frame> = Vec::new(alloc);
        slots.resize(most, [0, 0])?;
        let mut runs = Vec::new(alloc);
        runs.reserve(most)?;
        let outgoing = Outgoing::new(alloc, most)?;
        Ok(Drainer {
            outlet,
            slots,
            held: 0,
            runs,
            totals: Totals {
                written: 0,
                discarded: 0,
                torn: 0,
            },
            unreported: NO_FATES,
            failed: false,
            outgoing,
        })
    }

    /// Fills the hand from the ring, and says by how many frames. Once 2^64-1 frames were popped in all it
    /// pops no more.
    pub fn pop(&mut self) -> usize
        ensures popped { popped_of self.new ≡ popped_of self.old ++ came_of self.old self.new }
        ensures hand { hand_of self.new ≡ hand_of self.old ++ came_of self.old self.new }
        ensures count { length (came_of self.old self.new) ≡ result }

        // The known frames come first, all that have room in the hand, and it stops only where no more are
        // known.
        ensures known { IsPrefix (ring_of self.old) (came_of self.old self.new ++ ring_of self.new) }
        ensures all { PopsAllKnown self.old result }
        ensures stops { KnowsNoMore self.new }
        ensures order { popped_of self.new ≡ fates_of self.new ++ hand_of self.new }
        ensures kept { KeepsFates self.old self.new }
        ensures ring { SameDrainer self.old self.new }
    {
        let mut count = 0;
        loop {
            let more = self.pop_run();
            if more == 0 {
                return count;
            }
            count += more;
        }
    }

    // Takes into the hand frames of one run, and says how many.
    fn pop_run(&mut self) -> usize
        ensures comes { Comes self.old self.new }
        ensures count { result ≡ length (came_of self.old self.new) }
        ensures stops { result ≡ 0 → KnowsNoMore self.new }
        ensures order { popped_of self.new ≡ fates_of self.new ++ hand_of self.new }
    {
        let popped = self.totals.written + self.totals.discarded + self.held as u64;
        let room = (self.slots.len() - self.held) as u64;
        let most = room.min(u64::MAX - popped) as usize;
        let count = pop_after(&mut self.outlet, &mut self.slots, self.held, most);
        if count > 0 {
            self.runs.push_reserved(Run {
                count,
                cut: self.outlet.cut,
            });
            self.held += count;
        }
        count
    }

    /// Gives each frame of the hand its fate, and says how many were written and how many discarded. After a
    /// fault of a writer all is discarded; else a pause or the end keeps the hand; else a frame is written
    /// where the output is enabled and the frame's cut is at least the live one, and discarded otherwise.
    #[tactic(auto, using(crate::proofs::Moves::heard_since))]
    pub fn write_out<W: Sink>(&mut self, writer: &mut W, live: Live) -> Result<Fates, WriteFault>
        ensures after_fault { OnFault self.old (DiscardsHand self.old self.new writer.old writer.new result) }
        ensures held { OnHold self.old live (KeepsHand self.old self.new writer.old writer.new result) }
        ensures played { OnPlay self.old live ((hand_of self.new ≡ []) × MatchResult result
            (λ f. WritesHand live self.old (W.contents writer.old) (W.contents writer.new) f)
            (λ e. FailsInHand live self.old (W.contents writer.old) (W.contents writer.new) e)) }

        // No frame is heard of a block that was accepted before the output was last moved.
        ensures moved { HearsSinceMove live (hand_of self.old) }

        // Only a failure of this writer during this call is a fault.
        ensures fault { OnErr result (HasFailed (W.call_counts writer.old) (W.call_counts writer.new)) }
        ensures failed { has_failed self.new ≡ (has_failed self.old || is_err result) }

        ensures totals { totals_of self.new ≡ totals_after (totals_of self.old) result }
        ensures unreported { AddsUnreported self.old self.new (fates_in result) }
        ensures order { popped_of self.new ≡ fates_of self.new ++ hand_of self.new }
        ensures kept { KeepsPopped self.old self.new }
        ensures ring { SameDrainer self.old self.new }
    {
        if self.failed {
            return Ok(self.settle_hand(0));
        }
        if live.paused || live.ended {
            return Ok(NO_FATES);
        }
        match self.outgoing.send(writer, &self.slots[..self.held], self.runs.as_slice(), live) {
            Ok(written) => Ok(self.settle_hand(written)),
            Err(torn) => {
                self.failed = true;
                self.totals.torn = torn.bytes;
                Err(WriteFault {
                    fates: self.settle_hand(torn.written),
                    torn: torn.bytes,
                })
            }
        }
    }

    // The hand's frames have their fates: so many were written.
    fn settle_hand(&mut self, written: u64) -> Fates
        requires { written ≤ length (hand_of self.old) }
        ensures result { result ≡ hand_fates self.old written }
        ensures hand { hand_of self.new ≡ [] }
        ensures totals { totals_of self.new ≡ counted (totals_of self.old) (hand_fates self.old written) }
        ensures unreported { AddsUnreported self.old self.new (hand_fates self.old written) }
        ensures kept { KeepsPopped self.old self.new × (has_failed self.new ≡ has_failed self.old) }
        ensures ring { SameDrainer self.old self.new }
    {
        let discarded = self.held as u64 - written;
        self.held = 0;
        self.runs.clear();
        self.totals.written += written;
        self.totals.discarded += discarded;
        self.unreported.written += written;
        self.unreported.discarded += discarded;
        Fates { written, discarded }
    }

    /// The fates since the last report.
    pub fn fates(&self) -> Fates
        ensures { result ≡ unreported_of self.now }
    {
        self.unreported
    }

    /// Says that the fates so far were reported.
    pub fn reported(&mut self)
        ensures unreported { unreported_of self.new ≡ no_fates }
        ensures kept { KeepsAllButReport self.old self.new }
        ensures ring { SameDrainer self.old self.new }
    {
        self.unreported = NO_FATES;
    }

    /// The fates of all frames so far, with the bytes of a frame in which a writer failed.
    pub fn totals(&self) -> Totals
        ensures totals { result ≡ totals_of self.now }
        ensures count { result.written + result.discarded ≡ length (fates_of self.now) }
        ensures bound { (result.written + result.discarded) + length (hand_of self.now) < 2 ^ 64 }
        ensures torn { result.torn < 4 }
    {
        let _held = self.held;
        self.totals
    }

    /// How many popped frames have no fate yet.
    pub fn held(&self) -> usize
        ensures { result ≡ length (hand_of self.now) }
    {
        self.held
    }

    /// With both ends of one ring in one thread, the ring's length. What was taken is the fates, then the
    /// hand, the ring and what is owed.
    pub fn beside(&mut self, feeder: &mut Feeder) -> usize
        requires { AreEnds feeder.old self.old }
        ensures all { taken_of feeder.new ≡ accounted_of self.new ++ owed_of feeder.new }
        ensures length { result ≡ length (ring_of self.new) }
        ensures feeder { KeepsFeeder feeder.old feeder.new }
        ensures kept { KeepsAllButRing self.old self.new }
        ensures ring { SameDrainer self.old self.new }
    {
        self.outlet.beside(&mut feeder.inlet)
    }

    /// With the end of this ring's feeder, the ring's length. What was taken is the fates, then the hand, the
    /// ring and what is owed. `None` without the token.
    pub fn after(&mut self, end: &mut FeederEnd) -> Option<usize>
        requires { AreEndsAfter end.old self.old }
        ensures token { IsSome result ↔ IsSome end.old.finished }
        ensures all { IfSome result (λ n. AccountsForAll end.old self.new n) }
        ensures end { (end_owed end.new ≡ end_owed end.old) × AreEndsAfter end.new self.new }
        ensures kept { KeepsAllButRing self.old self.new }
        ensures ring { SameDrainer self.old self.new }
    {
        match &mut end.finished {
            Some(finished) => Some(self.outlet.after(finished)),
            None => None,
        }
    }
}

// Takes frames of one run into the slots after the first `held`, up to `most`, and says how many.
fn pop_after(outlet: &mut Outlet, slots: &mut [Frame], held: usize, most: usize) -> usize
    requires { held + most ≤ length slots.old }
    ensures popped { ComeOut outlet.old outlet.new (came_into slots.new held result) }
    ensures hand { take (held + result) slots.new ≡ take held slots.old ++ came_into slots.new held result }
    ensures length { length slots.new ≡ length slots.old }
    ensures count { (result ≤ most) × (length (came_into slots.new held result) ≡ result) }
    ensures known { WereKnown outlet.old outlet.new (came_into slots.new held result) }
    ensures stops { result ≡ 0 → 0 < most → known_in outlet.new ≡ [] }
    ensures ring { SameOutlet outlet.old outlet.new }
{
    outlet.pop(&mut slots[held..held + most])
}
