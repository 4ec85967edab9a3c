//! What the thread of an output does.
ghost use Rattle.std.specs.Prelude.{◌≡◌, ◌+◌, ◌<◌, ◌||◌, List, IfSome, min};
ghost use Rattle.frame_ledger.specs.Shares.{HasOnePart};
ghost use Rattle.output_ring.specs.Rings.{SameDrainer, has_failed, popped_of};
ghost use Rattle.output_ring.specs.declared.frames.CutFrame.{CutFrame};
ghost use Rattle.crew_steps.specs.Turns.{GivesFates, PlaysHand, Pops};

use crate::output::{Gate, OutputEnd};
use crate::waiting::pause;
use counted_devices::Sink;
use frame_ledger::OutputShares;
use house::{Discarded, House, Ledgers, Reported, Seat, Written};
use output_ring::{Cut, Drainer, Fates, Live};
use player_state::{Heard, Report};
use std::sync::Wait;
use std::thread;
use std::time::{Clock, Duration};

/// How many milliseconds an enabled output without frames rests at most while a song is played.
const LOOK: u64 = 10;

/// How many milliseconds an output rests at most that is off, or while none is played.
const OFF: u64 = 3_600_000;

/// How many microseconds it waits for frames that may be on their way. Others wait for the slowest output, so
/// a longer sleep would hold up all where frames are taken fast.
const SOON: u64 = 100;

/// How many milliseconds it waits after a fault, or before it asks its gate again.
const PAUSE: u64 = 20;

/// How often it looks at an empty ring before it has its turn, where several hands came without a rest.
const SPINS: u32 = 200;

/// An output that runs: it writes or discards the frames of its ring.
#[derive(Drop)]
pub struct Draining<'h, L: Ledgers, O: Sink + Drop, G: Gate, R: Wait + Clock> {
    rt: &'h R,
    house: &'h House<L>,
    gate: &'h G,
    output: usize,
    seat: Seat<L>,
    writer: O,
    /// Whether the writer failed.
    failed: bool,
    shares: OutputShares<Written<L>, Discarded<L>>,
    /// How often the house had changed when it last looked for frames.
    seen: u64,
    /// How many hands came since its last rest.
    since_rest: u64,
    ghost parts: { HasOnePart shares },
    ghost own: { seat.number ≡ 5 + min output 7 },
}

impl<'h, L: Ledgers, O: Sink + Drop, G: Gate, R: Wait + Clock> Draining<'h, L, O, G, R> {
    ghost use Rattle.std.specs.Prelude.{◌≡◌, ◌<◌, ◌||◌, false, None, IfSome};
    ghost use Rattle.frame_ledger.specs.Shares.{HasOnePart};
    ghost use Rattle.output_ring.specs.Rings.{SameDrainer};
    ghost use Rattle.player_state.specs.declared.report.Report.TheVariants.{Ended};
    ghost use Rattle.crew_steps.specs.Drainings.{DrainsOnce, HasRunTo, KeepsKnowing, KeepsWriter, ObeysTurn, RunsOut, RunsTo};
    ghost use Rattle.crew_steps.specs.Turns.{TellsOutput, goes_on};

    /// The output of this number.
    pub fn new(
        rt: &'h R,
        house: &'h House<L>,
        gate: &'h G,
        output: usize,
        writer: O,
        shares: OutputShares<Written<L>, Discarded<L>>,
    ) -> Self
        requires { HasOnePart shares }
        ensures new { (result.output ≡ output) × (result.writer ≡ writer) × (result.failed ≡ false) }
    {
        Draining {
            rt,
            house,
            gate,
            output,
            seat: Seat::of_crew((output.min(7) as u8) + 1),
            writer,
            failed: false,
            shares,
            seen: 0,
            since_rest: 0,
        }
    }

    /// Has turn after turn until one is told of the end, and obeys each. The ring's end is handed back as the last
    /// turn left it.
    pub fn run(self, drainer: Drainer) -> OutputEnd<L>
        ensures ring { SameDrainer drainer result.drainer }
        ensures runs { RunsOut O.contents self.entry drainer result.drainer }
        ensures known { HasRunTo self.entry drainer result.drainer }
    {
        let mut drainer = drainer;
        let mut draining = self;
        let _told = draining.keep_draining(&mut drainer);
        draining.end(drainer)
    }

    /// Goes on until a turn is told of the end, and says what that one was told.
    fn keep_draining(&mut self, drainer: &mut Drainer) -> Reported
        ensures ring { SameDrainer drainer.old drainer.new }
        ensures runs { RunsTo O.contents result self.old drainer.old self.new drainer.new }
    {
        let rt = self.rt;
        for _ in rt.forever() {
            if let Some(told) = self.drain_once(drainer) {
                return told;
            }
        }
        unreachable!()
    }

    /// Where the gate lets it, pops frames, has a turn, and writes the frames out as it was told. At the end it
    /// says what it was told.
    #[tactic(auto, using(crate::proofs::Turns::still, crate::proofs::Turns::waited))]
    fn drain_once(&mut self, drainer: &mut Drainer) -> Option<Reported>
        ensures ring { SameDrainer drainer.old drainer.new }
        ensures drains { DrainsOnce O.contents result self.old drainer.old self.new drainer.new }
        ensures failed { KeepsKnowing self.old drainer.old self.new drainer.new }
        ensures output { self.new.output ≡ self.old.output }
    {
        if !self.gate.ask(self.output) {
            pause(self.rt, PAUSE);
            return None;
        }
        let popped = fill(drainer, if self.since_rest > 1 { SPINS } else { 1 });
        let Some(told) = self.tell(drainer.fates()) else {
            pause(self.rt, PAUSE);
            return None;
        };
        drainer.reported();
        if self.obey(drainer, popped, &told) {
            None
        } else {
            Some(told)
        }
    }

    /// Gives the frames of the hand the fates that its turn was told. False at the end.
    fn obey(&mut self, drainer: &mut Drainer, popped: usize, told: &Reported) -> bool
        ensures ring { SameDrainer drainer.old drainer.new }
        ensures does { ObeysTurn O.contents told.now.report self.old drainer.old self.new drainer.new }
        ensures failed { KeepsKnowing self.old drainer.old self.new drainer.new }
        ensures output { self.new.output ≡ self.old.output }
        ensures goes { result ≡ goes_on told.now.report }
        ensures ends { result ≡ false → told.now.report ≡ Ended }
    {
        match told.report() {
            Report::ToPlay(heard) => {
                let wrote = write_hand(drainer, &mut self.writer, heard);
                self.go_on(popped, wrote, told.changes(), heard.live.enabled);
                true
            }
            Report::Ended => false,
            _ => {
                pause(self.rt, PAUSE);
                true
            }
        }
    }

    /// Rests where no frame came and none got its fate. Once the writer has failed, the output is switched
    /// off at its next turn.
    fn go_on(&mut self, popped: usize, wrote: Wrote, changes: u64, enabled: bool)
        ensures kept { (self.new.writer ≡ self.old.writer) × (self.new.output ≡ self.old.output) }
        ensures failed { self.new.failed ≡ (self.old.failed || wrote.failed) }
    {
        self.failed = self.failed || wrote.failed;
        if popped > 0 {
            self.since_rest = self.since_rest.saturating_add(1);
        } else if !wrote.some {
            self.rest(changes, enabled);
        }
    }

    /// Tells which fates frames got since the last turn, and whether the writer failed. `None` where the turn was
    /// refused.
    #[tactic(auto, using(crate::proofs::Turns::of_output))]
    fn tell(&mut self, fates: Fates) -> Option<Reported>
        ensures kept { KeepsWriter self.old self.new }
        ensures told { IfSome result (TellsOutput self.old.output fates self.old.failed) }
        ensures untold { result ≡ None → self.new.shares ≡ self.old.shares }
    {
        let turn = self.house.turn(
            self.rt,
            &mut self.seat,
            self.output,
            fates,
            self.failed,
            &mut self.shares,
        );
        match turn {
            Ok(told) => Some(told),
            Err(_) => None,
        }
    }

    /// Rests until something changes. It is woken before new frames are in its ring, so after a change it
    /// looks once more soon.
    fn rest(&mut self, changes: u64, enabled: bool)
        ensures { KeepsWriter self.old self.new }
    {
        self.since_rest = 0;
        if enabled && self.seen != changes {
            self.seen = changes;
            thread::sleep(self.rt, Duration::from_micros(SOON));
            return;
        }
        let look = if enabled { LOOK } else { OFF };
        let (look, idle) = (Duration::from_millis(look), Duration::from_millis(OFF));
        let _ = self.house.rest(self.rt, changes, look, idle);
    }

    /// What is left of it. The frames that it holds are kept.
    fn end(self, drainer: Drainer) -> OutputEnd<L>
        ensures { result.drainer ≡ drainer }
    {
        let Draining {
            rt: _rt,
            house: _house,
            gate: _gate,
            output: _output,
            seat: _seat,
            writer: _writer,
            failed: _failed,
            shares,
            seen: _seen,
            since_rest: _since_rest,
        } = self;
        OutputEnd { drainer, shares }
    }
}

/// Fills the hand from the ring, and says by how many frames. It looks so often before it gives up.
fn fill(drainer: &mut Drainer, spins: u32) -> usize
    ensures { (came : List CutFrame) × Pops drainer.old drainer.new came }
{
    for _ in 0..spins {
        let popped = drainer.pop();
        if popped > 0 {
            return popped;
        }
        thread::yield_now();
    }
    0
}

/// What came of writing a hand out.
#[derive(Clone, Copy)]
struct Wrote {
    /// Whether a frame got its fate.
    some: bool,
    /// Whether the writer failed.
    failed: bool,
}

/// Gives the frames of the hand their fates.
#[tactic(auto, using(crate::proofs::Turns::gives))]
fn write_hand<O: Sink>(drainer: &mut Drainer, writer: &mut O, heard: Heard) -> Wrote
    ensures plays { PlaysHand O.contents heard drainer.old writer.old drainer.new writer.new }
    ensures failed { has_failed drainer.new ≡ (has_failed drainer.old || result.failed) }
    ensures popped { popped_of drainer.new ≡ popped_of drainer.old }
    ensures fates { GivesFates drainer.old drainer.new }
    ensures ring { SameDrainer drainer.old drainer.new }
{
    let before = drainer.held();
    let live = Live {
        cut: Cut {
            moves: heard.moves,
            number: heard.live.cut,
        },
        enabled: heard.live.enabled,
        paused: heard.live.paused,
        ended: false,
    };
    let failed = drainer.write_out(writer, live).is_err();
    Wrote {
        some: drainer.held() < before,
        failed,
    }
}
