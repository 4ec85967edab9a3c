//! The bytes of a hand on their way to a writer.
ghost use Rattle.std.specs.Prelude.{◌≡◌, ◌+◌, ◌*◌, ◌<◌, ◌≤◌, length, take, drop};
ghost use Rattle.std.specs.Io.KnownBytes.{Appends};
ghost use Rattle.counted_devices.specs.CallCounts.{NoFewer};
ghost use Rattle.output_ring.specs.Frames.{heard_run, is_cut_heard, bytes_of};
ghost use Rattle.output_ring.specs.Runs.{cuts_of};
ghost use Rattle.output_ring.specs.Sending.{CountsHeard, CountsOn, FailsIfShort, PutsFrames, heard_in};

use crate::frames::{Cut, Live};
use crate::runs::Run;
use counted_devices::Sink;
use pcm_mix::{Frame, to_bytes};
use std::alloc::{AllocError, Global};

// The writer failed after so many frames, with so many bytes of the next.
#[derive(Clone, Copy)]
pub(crate) struct Torn {
    pub(crate) written: u64,
    pub(crate) bytes: u8,
}

// Room for the bytes of the frames of a hand.
#[derive(Drop)]
pub(crate) struct Outgoing {
    bytes: Vec<u8>,
}

impl Outgoing {
    ghost use Rattle.std.specs.Prelude.{◌≡◌, ◌*◌, ◌≤◌, IfOk, OnErr, length, take};
    ghost use Rattle.counted_devices.specs.CallCounts.{HasFailed};
    ghost use Rattle.output_ring.specs.Runs.{cuts_of};
    ghost use Rattle.output_ring.specs.Sending.{HasRoom, KeepsRoom, Sends, WritesAtMost};

    pub(crate) fn new(alloc: Global, most: usize) -> Result<Outgoing, AllocError>
        ensures { IfOk result (λ o. HasRoom most o) }
    {
        let Some(count) = most.checked_mul(4) else {
            return Err(AllocError);
        };
        let mut bytes = Vec::new(alloc);
        bytes.resize(count, 0)?;
        Ok(Outgoing { bytes })
    }

    // Writes the frames of a hand that are heard, and says how many. Its runs tell their cuts.
    pub(crate) fn send<W: Sink>(
        &mut self,
        writer: &mut W,
        frames: &[Frame],
        runs: &[Run],
        live: Live,
    ) -> Result<u64, Torn>
        requires whole { length (cuts_of runs.now) ≡ length frames.now }
        requires room { HasRoom (length frames.now) self.old }
        ensures sent { Sends (W.contents writer.old) (W.contents writer.new) live runs.now frames.now result }
        ensures most { WritesAtMost (length frames.now) result }
        ensures fault { OnErr result (HasFailed (W.call_counts writer.old) (W.call_counts writer.new)) }
        ensures room { KeepsRoom self.old self.new }
    {
        let count = lay_out(&mut self.bytes, frames, runs, live);
        let done = write_bytes(writer, &self.bytes[..4 * count]);
        if done < 4 * count {
            return Err(Torn {
                written: (done / 4) as u64,
                bytes: (done % 4) as u8,
            });
        }
        Ok(count as u64)
    }
}

// Lays out the bytes of the frames of a hand that are heard, and says how many these are.
fn lay_out(bytes: &mut [u8], frames: &[Frame], runs: &[Run], live: Live) -> usize
    requires whole { length (cuts_of runs.now) ≡ length frames.now }
    requires room { 4 * length frames.now ≤ length bytes.old }
    ensures count { CountsHeard result live runs.now frames.now }
    ensures bytes { take (4 * result) bytes.new ≡ bytes_of (heard_in live runs.now frames.now) }
    ensures length { length bytes.new ≡ length bytes.old }
{
    let mut passed = 0;
    let mut count = 0;
    for run in runs {
        let own = part(frames, passed, run.count);
        count = lay_run(bytes, count, own, run.cut, live);
        passed += run.count;
    }
    count
}

// So many frames from an offset on.
fn part(frames: &[Frame], from: usize, count: usize) -> &[Frame]
    requires { from + count ≤ length frames.now }
    ensures value { result.now ≡ take count (drop from frames.now) }
    ensures count { (length result.now ≡ count) × (from + count ≤ length frames.now) }
{
    &frames[from..from + count]
}

// Lays out the bytes of frames of one cut behind so many other frames, if they are heard, and says how many
// frames there are then.
fn lay_run(bytes: &mut [u8], before: usize, frames: &[Frame], cut: Cut, live: Live) -> usize
    requires { 4 * (before + length frames.now) ≤ length bytes.old }
    ensures count { CountsOn before result live cut frames.now }
    ensures bytes { PutsFrames (4 * before) (4 * result) bytes.old bytes.new (heard_run live cut frames.now) }
    ensures length { length bytes.new ≡ length bytes.old }
{
    if !is_heard(cut, live) {
        return before;
    }
    put_after(bytes, 4 * before, frames);
    before + frames.len()
}

// Lays out the bytes of frames behind so many other bytes.
fn put_after(bytes: &mut [u8], before: usize, frames: &[Frame])
    requires { before + 4 * length frames.now ≤ length bytes.old }
    ensures bytes { PutsFrames before (before + 4 * length frames.now) bytes.old bytes.new frames.now }
    ensures length { length bytes.new ≡ length bytes.old }
{
    to_bytes(frames, &mut bytes[before..before + 4 * frames.len()]);
}

fn is_heard(cut: Cut, live: Live) -> bool
    ensures { result ≡ is_cut_heard live cut }
{
    live.enabled && cut >= live.cut
}

// Writes bytes until all are out or the writer fails, and says how many it took. An interrupted write is a
// failure too.
pub(crate) fn write_bytes<W: Sink>(writer: &mut W, bytes: &[u8]) -> usize
    ensures most { result ≤ length bytes.now }
    ensures bytes { Appends (W.contents writer.old) (W.contents writer.new) (take result bytes.now) }
    ensures fault { FailsIfShort (W.call_counts writer.old) (W.call_counts writer.new) result bytes.now }
    ensures calm { NoFewer (W.call_counts writer.old) (W.call_counts writer.new) }
{
    let mut done = 0;
    while done < bytes.len() {
        match writer.write_some(&bytes[done..]) {
            Ok(0) | Err(_) => return done,
            Ok(more) => done += more,
        }
    }
    done
}
