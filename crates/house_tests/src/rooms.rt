//! Opens a house for a test. Each opening is proved, so all tests open theirs here.
ghost use Rattle.frame_ledger.specs.Shares.{HasAllParts};
ghost use Rattle.std.specs.Prelude.{◌≡◌, ◌<◌, IfOk};
ghost use Rattle.house.specs.Blanks.{AreFor};

use crate::session::session;
use crate::{callers, days, frames, notices, own_songs, rests};
use house::{Blanks, CrewShares, House, Ledgers, Seat};
use partition::PartitionFault;
use std::alloc::{AllocError, Global};
use std::marker::Brand;
use std::sync::Wait;
use std::test::Fail;
use std::thread::Threads;
use std::time::Clock;
use test_houses::opened;
use test_texts::{Recorder, wants};

/// What is done in a house.
#[derive(Clone, Copy)]
pub(crate) enum Day {
    /// Clients come and go, one after the other.
    Clients,
    /// Two threads add songs.
    Callers,
    /// A client waits while another makes changes.
    Notices,
    /// Two threads look up their own songs, by lists where this is so.
    OwnSongs(bool),
    /// Frames are decoded, written and settled.
    Frames,
    /// Threads rest, side by side with who wakes them where this is so.
    Rests(bool),
}

/// One of the four seats of a house.
pub(crate) fn seat_of<L: Ledgers>(
    rt: &impl Wait,
    house: &House<L>,
) -> Result<Seat<L>, PartitionFault>
    ensures { IfOk result (λ s. (s.number < 4) × (s.made ≡ 0)) }
{
    match house.seat(rt) {
        Ok(seat) => Ok(seat),
        Err(_) => Err(PartitionFault::NoMemory),
    }
}

/// Adds what a session tells that has a seat of its own.
pub(crate) fn alone<L: Ledgers, R: Wait + Clock>(
    rt: &R,
    alloc: Global,
    house: &House<L>,
    steps: &str,
    recorder: &mut Recorder,
) {
    match seat_of(rt, house) {
        Ok(mut seat) => session(rt, alloc, house, &mut seat, steps, recorder),
        Err(_) => recorder.fail(),
    }
}

/// Adds what is observed of a day without frames.
fn without_frames<L: Ledgers + Send + Sync, R: Threads + Wait + Clock + Sync>(
    rt: &R,
    alloc: Global,
    house: &House<L>,
    which: Day,
    recorder: &mut Recorder,
) {
    match which {
        Day::Callers => callers::race(rt, alloc, house, recorder),
        Day::Notices => notices::race(rt, alloc, house, recorder),
        Day::OwnSongs(in_list) => own_songs::race(rt, alloc, house, in_list, recorder),
        Day::Rests(on_threads) => rests::rests(rt, alloc, house, on_threads, recorder),
        _ => alone(rt, alloc, house, days::STEPS, recorder),
    }
}

/// Adds what is observed of a day, of which that with frames takes the shares.
fn day_of<L: Ledgers + Send + Sync, R: Threads + Wait + Clock + Sync>(
    rt: &R,
    alloc: Global,
    house: &House<L>,
    shares: CrewShares<L>,
    which: Day,
    recorder: &mut Recorder,
)
    requires { HasAllParts shares.decoded.parts shares.outputs }
{
    match which {
        Day::Frames => frames::frames(rt, alloc, house, shares, recorder),
        _ => without_frames(rt, alloc, house, which, recorder),
    }
}

/// Opens a house, and adds what is observed of a day in it.
fn evening<L: Ledgers + Send + Sync, R: Threads + Wait + Clock + Sync>(
    rt: &R,
    alloc: Global,
    blanks: Blanks,
    history: u32,
    which: Day,
    recorder: &mut Recorder,
)
    requires blanks { AreFor L.names blanks }
{
    let Ok((house, shares)) = opened::<L>(alloc, blanks, history) else {
        recorder.fail();
        return;
    };
    day_of(rt, alloc, &house, shares, which, recorder);
}

/// What is observed of a day in a house over two songs, whose window has at most so many events.
pub(crate) fn observed<R: Threads + Wait + Clock + Sync>(
    rt: &R,
    alloc: Global,
    history: u32,
    which: Day,
) -> Result<String, AllocError> {
    let mut observed = Recorder::new(alloc);
    evening::<Brand, R>(rt, alloc, Blanks::new(), history, which, &mut observed);
    observed.into_text()
}

/// The days, the most events of their windows, and what is observed of each. A test costs a proof of all that it is
/// linked with, so one runs all.
const DAYS: &[(Day, u32, &str)] = &[
    (Day::Clients, 4096, days::TELLS),
    (Day::Callers, 4096, callers::TELLS),
    // A window of three is folded.
    (Day::Callers, 3, callers::TELLS),
    (Day::Notices, 64, notices::TELLS),
    (Day::OwnSongs(false), 4096, own_songs::TELLS),
    (Day::OwnSongs(true), 4096, own_songs::TELLS),
    (Day::Frames, 64, frames::TELLS),
    (Day::Rests(false), 4096, rests::SEEN_TELLS),
    (Day::Rests(true), 4096, rests::WAITS_TELL),
];

#[test]
fn days_tell_what_is_expected(rt: HostRuntime) -> Result<(), Fail> {
    for (day, history, expected) in DAYS {
        wants(observed(&rt, rt.alloc(), *history, *day), expected)?;
    }
    Ok(())
}
