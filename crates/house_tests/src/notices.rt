//! A client waits while another thread makes a hundred changes: each notice is handed out once.
use crate::rooms::seat_of;
use house::{House, Ledgers, Seat};
use std::alloc::Global;
use std::sync::Wait;
use std::sync::atomic::{AtomicU32, Ordering};
use std::thread;
use std::thread::Threads;
use test_houses::{comes, hears, says};
use test_texts::Recorder;

/// How many notices came from the outbox and how many in front of an answer, and how many more than one a
/// change.
#[derive(Drop)]
struct Notices {
    by_outbox: u32,
    in_front: u32,
    again: u32,
}

/// How often the first client has waited, and the other has changed something.
#[derive(Drop)]
struct Counts {
    alloc: Global,
    waiting: AtomicU32,
    changed: AtomicU32,
}

/// Waits for the other thread to come to a number. It gives up after a million looks.
pub(crate) fn meets(meeting: &AtomicU32, number: u32) {
    for _ in 0..1_000_000u32 {
        if meeting.load(Ordering::SeqCst) == number {
            return;
        }
        thread::yield_now();
    }
}

/// Whether the outbox has a notice of the client, looked at up to a million times.
fn comes_by_outbox<L: Ledgers>(rt: &impl Wait, house: &House<L>, client: u32) -> bool {
    for _ in 0..1_000_000u32 {
        if house.outbox(rt, client).is_some() {
            return true;
        }
        thread::yield_now();
    }
    false
}

/// Whether a client that waits hears first of a change that was made, in front of the answer to `noidle`, or
/// to a list.
fn hears_first<L: Ledgers>(
    rt: &impl Wait,
    alloc: Global,
    house: &House<L>,
    seat: &mut Seat<L>,
    in_list: bool,
) -> bool {
    let line = if in_list { "ping" } else { "noidle" };
    match hears(rt, alloc, house, seat, 1, line, in_list) {
        Ok(heard) => heard.as_str().starts_with("told\n"),
        Err(_) => false,
    }
}

/// Waits for a change, of which the client is told from the outbox, or in front of an answer. After a fault no
/// notice is counted.
fn waits_once<L: Ledgers>(
    rt: &impl Wait,
    house: &House<L>,
    seat: &mut Seat<L>,
    counts: &Counts,
    change: u32,
    notices: &mut Notices,
) {
    if says(rt, counts.alloc, house, seat, 1, "idle mixer").is_err() {
        return;
    }
    counts.waiting.store(change, Ordering::SeqCst);
    if change % 2 == 0 {
        let is_told = comes_by_outbox(rt, house, 1);
        notices.by_outbox = notices.by_outbox.saturating_add(u32::from(is_told));
    } else {
        meets(&counts.changed, change);
        let is_told = hears_first(rt, counts.alloc, house, seat, change % 4 == 3);
        notices.in_front = notices.in_front.saturating_add(u32::from(is_told));
    }
    let is_again = house.outbox(rt, 1).is_some();
    notices.again = notices.again.saturating_add(u32::from(is_again));
}

/// A client waits for each of a hundred changes.
fn waits<L: Ledgers>(rt: &impl Wait, house: &House<L>, seat: Seat<L>, counts: &Counts) -> Notices {
    let mut seat = seat;
    let mut notices = Notices {
        by_outbox: 0,
        in_front: 0,
        again: 0,
    };
    if comes(rt, house, &mut seat, 1).is_ok() {
        for change in 1..101u32 {
            waits_once(rt, house, &mut seat, counts, change, &mut notices);
        }
    }
    notices
}

/// Changes the volume once the first client waits for the change of this number. Whether that went well.
fn changes_once<L: Ledgers>(
    rt: &impl Wait,
    house: &House<L>,
    seat: &mut Seat<L>,
    counts: &Counts,
    change: u32,
) -> bool {
    meets(&counts.waiting, change);
    let Ok(line) = format!(in counts.alloc; "setvol {}", change % 100) else {
        return false;
    };
    let is_said = says(rt, counts.alloc, house, seat, 2, line.as_str()).is_ok();
    counts.changed.store(change, Ordering::SeqCst);
    is_said
}

/// Another client changes the volume each time that the first waits. Whether all went well.
fn changes<L: Ledgers>(rt: &impl Wait, house: &House<L>, seat: Seat<L>, counts: &Counts) -> bool {
    let mut seat = seat;
    let mut went_well = comes(rt, house, &mut seat, 2).is_ok();
    for change in 1..101u32 {
        if !changes_once(rt, house, &mut seat, counts, change) {
            went_well = false;
        }
    }
    went_well
}

/// One client waits and the other changes things, each in a thread of its own.
fn meet<L: Ledgers + Send + Sync, R: Threads + Wait + Sync>(
    rt: &R,
    house: &House<L>,
    one: Seat<L>,
    two: Seat<L>,
    counts: &Counts,
) -> (Notices, bool) {
    thread::join(
        rt,
        move || waits(rt, house, one, counts),
        move || changes(rt, house, two, counts),
    )
}

/// Adds how the notices of two clients came, which wait and change things side by side.
pub(crate) fn race<L: Ledgers + Send + Sync, R: Threads + Wait + Sync>(
    rt: &R,
    alloc: Global,
    house: &House<L>,
    recorder: &mut Recorder,
) {
    let (Ok(one), Ok(two)) = (seat_of(rt, house), seat_of(rt, house)) else {
        recorder.fail();
        return;
    };
    let counts = Counts {
        alloc,
        waiting: AtomicU32::new(0),
        changed: AtomicU32::new(0),
    };
    let (notices, went_well) = meet(rt, house, one, two, &counts);
    if !went_well {
        recorder.fail();
    }
    recorder.add(format_args!(
        "by the outbox {}, in front {}, again {}\n",
        notices.by_outbox, notices.in_front, notices.again
    ));
}

/// What is observed of them.
pub(crate) const TELLS: &str = "by the outbox 50, in front 50, again 0\n";
