//! The end of a ring out of which frames come.
ghost use Rattle.std.specs.Prelude.{◌≡◌, ◌+◌, length, drop, replicate};
ghost use Rattle.rtrb.specs.Ring.{received};
ghost use Rattle.output_ring.specs.Runs.{cuts_of};

use crate::frames::Cut;
use crate::inlet::{Inlet, InletEnd};
use crate::runs::Run;
use pcm_mix::Frame;
use rtrb::Consumer;

/// Where frames come out.
pub(crate) struct Outlet {
    pub(crate) frames: Consumer<Frame>,
    pub(crate) runs: Consumer<Run>,
    /// How many frames of the run that came last are still in the ring.
    pub(crate) rest: usize,
    /// Their cut.
    pub(crate) cut: Cut,
    ghost begun: { length (cuts_of (received runs)) ≡ length (received frames) + rest },
    ghost rest_is: { drop (length (received frames)) (cuts_of (received runs)) ≡ replicate rest cut },
}

impl Drop for Outlet {
    fn drop(self) {
        let Outlet {
            frames: _,
            runs: _,
            rest: _,
            cut: _,
        } = self;
    }
}

impl Outlet {
    ghost use mathlib.Core.List.{IsPrefix};
    ghost use Rattle.std.specs.Prelude.{◌≡◌, ◌<◌, ◌≤◌, [], ◌++◌};
    ghost use Rattle.std.specs.Prelude.{length, take, true, false};
    ghost use Rattle.rtrb.specs.Ring.{received};
    ghost use Rattle.output_ring.specs.Ends.{popped_from, known_in, sent_in, end_sent, ArePair, ArePairAfter};
    ghost use Rattle.output_ring.specs.Ends.{ComeOut, KeepsInlet, KeepsEnd, SameOutlet, WereKnown};

    pub(crate) fn new(frames: Consumer<Frame>, runs: Consumer<Run>) -> Outlet
        requires { (received frames ≡ []) × (received runs ≡ []) }
        ensures ends { (result.frames ≡ frames) × (result.runs ≡ runs) }
        ensures begun { (popped_from result ≡ []) × (result.rest ≡ 0) }
    {
        Outlet {
            frames,
            runs,
            rest: 0,
            cut: Cut {
                moves: 0,
                number: 0,
            },
        }
    }

    /// Fills the slots with frames of one run, those of `cut`, and says how many.
    pub(crate) fn pop(&mut self, slots: &mut [Frame]) -> usize
        ensures popped { ComeOut self.old self.new (take result slots.new) }
        ensures known { WereKnown self.old self.new (take result slots.new) }
        ensures count { (result ≤ length slots.old) × (length slots.new ≡ length slots.old) }
        ensures stops { result ≡ 0 → 0 < length slots.old → known_in self.new ≡ [] }
        ensures ring { SameOutlet self.old self.new }
    {
        if self.rest == 0 && !self.begin() {
            return 0;
        }
        self.pop_rest(slots)
    }

    // Begins with the next run, if there is one.
    fn begin(&mut self) -> bool
        requires { self.old.rest ≡ 0 }
        ensures popped { popped_from self.new ≡ popped_from self.old }
        ensures known { IsPrefix (known_in self.old) (known_in self.new) }
        ensures begun { result ≡ true → 0 < self.new.rest }
        ensures none { result ≡ false → known_in self.new ≡ [] }
        ensures ring { SameOutlet self.old self.new }
    {
        let Ok(run) = self.runs.pop() else {
            return false;
        };
        self.rest = run.count;
        self.cut = run.cut;
        true
    }

    // Fills the slots with frames of the run that was begun, and says how many.
    fn pop_rest(&mut self, slots: &mut [Frame]) -> usize
        requires { 0 < self.old.rest }
        ensures popped { ComeOut self.old self.new (take result slots.new) }
        ensures known { WereKnown self.old self.new (take result slots.new) }
        ensures count { (result ≤ length slots.old) × (length slots.new ≡ length slots.old) }
        ensures stops { result ≡ 0 → 0 < length slots.old → known_in self.new ≡ [] }
        ensures ring { SameOutlet self.old self.new }
    {
        let most = self.rest.min(slots.len());
        let count = self.frames.pop_partial_slice(&mut slots[..most]);
        self.rest -= count;
        count
    }

    /// With both ends of one ring in one thread, how many frames are in it.
    pub(crate) fn beside(&mut self, inlet: &mut Inlet) -> usize
        requires { ArePair inlet.old self.old }
        ensures all { popped_from self.new ++ known_in self.new ≡ sent_in inlet.new }
        ensures length { result ≡ length (known_in self.new) }
        ensures popped { popped_from self.new ≡ popped_from self.old }
        ensures inlet { KeepsInlet inlet.old inlet.new }
        ensures ring { SameOutlet self.old self.new }
    {
        self.runs.slots_beside(&mut inlet.runs);
        self.frames.slots_beside(&mut inlet.frames)
    }

    /// With the token of all that went in, how many frames are in the ring.
    pub(crate) fn after(&mut self, end: &mut InletEnd) -> usize
        requires { ArePairAfter end.old self.old }
        ensures all { popped_from self.new ++ known_in self.new ≡ end_sent end.new }
        ensures length { result ≡ length (known_in self.new) }
        ensures popped { popped_from self.new ≡ popped_from self.old }
        ensures end { KeepsEnd end.old end.new }
        ensures pair { ArePairAfter end.new self.new }
        ensures ring { SameOutlet self.old self.new }
    {
        self.runs.slots_after(&mut end.runs);
        self.frames.slots_after(&mut end.frames)
    }
}
