//! The end of a ring into which frames go.
ghost use Rattle.std.specs.Prelude.{◌≡◌, length};
ghost use Rattle.rtrb.specs.Ring.{sent, all_sent};
ghost use Rattle.output_ring.specs.Runs.{cuts_of};

use crate::frames::Cut;
use crate::runs::Run;
use pcm_mix::Frame;
use rtrb::{Finished, Producer};

/// Where frames go in. A run is sent once its frames were.
pub(crate) struct Inlet {
    pub(crate) frames: Producer<Frame>,
    pub(crate) runs: Producer<Run>,
    ghost whole: { length (cuts_of (sent runs)) ≡ length (sent frames) },
}

impl Drop for Inlet {
    fn drop(self) {
        let Inlet { frames: _, runs: _ } = self;
    }
}

/// The token of all that went in.
pub(crate) struct InletEnd {
    pub(crate) frames: Finished<Frame>,
    pub(crate) runs: Finished<Run>,
    ghost whole: { length (cuts_of (all_sent runs)) ≡ length (all_sent frames) },
}

impl Drop for InletEnd {
    fn drop(self) {
        let InletEnd { frames: _, runs: _ } = self;
    }
}

impl Inlet {
    ghost use Rattle.std.specs.Prelude.{◌≡◌, ◌<◌, ◌≤◌, [], ◌++◌, IfSome, length, take};
    ghost use Rattle.rtrb.specs.Ring.{sent};
    ghost use Rattle.output_ring.specs.Frames.{with_cut};
    ghost use Rattle.output_ring.specs.Ends.{sent_in, room_in, SameInlet, EndsInlet};

    pub(crate) fn new(frames: Producer<Frame>, runs: Producer<Run>) -> Inlet
        requires { (sent frames ≡ []) × (sent runs ≡ []) }
        ensures { (result.frames ≡ frames) × (result.runs ≡ runs) }
    {
        Inlet { frames, runs }
    }

    /// Moves frames of one cut into the ring while it has room, and says how many.
    pub(crate) fn push(&mut self, frames: &[Frame], cut: Cut) -> usize
        ensures sent { sent_in self.new ≡ sent_in self.old ++ with_cut cut (take result frames.now) }
        ensures count { result ≤ length frames.now }
        ensures all { length frames.now ≤ room_in self.old → result ≡ length frames.now }
        ensures stops { result < length frames.now → room_in self.new ≡ 0 }
        ensures ring { SameInlet self.old self.new }
    {
        if self.runs.is_full() {
            return 0;
        }
        let (moved, _) = self.frames.push_partial_slice(frames);
        let count = moved.len();
        if count > 0 {
            self.runs.push_reserved(Run { count, cut });
        }
        count
    }

    /// No frame goes in any more. There is no token where the other end was dropped before.
    pub(crate) fn finish(self) -> Option<InletEnd>
        ensures { IfSome result (λ e. EndsInlet self e) }
    {
        let Inlet { frames, runs } = self;
        match (frames.finish(), runs.finish()) {
            (Some(frames), Some(runs)) => Some(InletEnd { frames, runs }),
            _ => None,
        }
    }
}
