//! A scan that is made while a song is played.
use crate::rooms::{DaySetup, Host, Watch, is_raised, one_day, shared};
use crate::tunes::{Tone, saw_alone};
use crate::wire::{Wires, wires_of};
use crate::wired::observed_with_lines;
use crew::Scanner;
use crew_steps::Open;
use song_db::SharedDb;
use std::alloc::{AllocError, Global};
use std::sync::Arc;
use std::sync::atomic::{AtomicU32, Ordering};
use std::test::Fail;
use std::thread;
use std::time::{Clock, Duration};
use test_songs::{library, song};
use test_texts::wants;

const SCRIPT: &str = "add a.wav
update
update
~ the scan has begun
play
~ hall 12000
~ attic 12000
lsinfo
~ the scan may end
lsinfo ~ file: new.wav
lsinfo
update";

/// Finds one song more than the library has, once it may end.
#[derive(Drop)]
struct Slow<R: Clock + Drop> {
    rt: R,
    begun: Arc<AtomicU32, Global>,
    may_end: Arc<AtomicU32, Global>,
}

impl<R: Clock + Drop> Scanner for Slow<R> {
    fn scan(&mut self, alloc: Global) -> Option<SharedDb> {
        self.begun.store(1, Ordering::SeqCst);
        let _ended = is_raised(&self.rt, &self.may_end, 10_000);
        found(alloc).ok()
    }
}

/// A library of one song.
fn found(alloc: Global) -> Result<SharedDb, AllocError> {
    let mut songs = Vec::new(alloc);
    songs.push(song(alloc, "new.wav", &[], 8_000)?)?;
    SharedDb::new(alloc, library(alloc, songs)?)
}

/// Finds nothing, a tenth of a second after it has begun.
#[derive(Drop)]
struct Late<R: Clock + Drop> {
    rt: R,
    begun: Arc<AtomicU32, Global>,
    has_ended: Arc<AtomicU32, Global>,
}

impl<R: Clock + Drop> Scanner for Late<R> {
    fn scan(&mut self, _alloc: Global) -> Option<SharedDb> {
        self.begun.store(1, Ordering::SeqCst);
        thread::sleep(&self.rt, Duration::from_millis(100));
        self.has_ended.store(1, Ordering::SeqCst);
        None
    }
}

#[derive(Drop)]
struct Scans {
    wires: Wires,
    begun: Arc<AtomicU32, Global>,
    may_end: Arc<AtomicU32, Global>,
}

impl<R: Clock> Watch<R> for Scans {
    fn does(&mut self, rt: &R, step: &str) -> bool {
        match step {
            "the scan has begun" => is_raised(rt, &self.begun, 10_000),
            "the scan may end" => {
                self.may_end.store(1, Ordering::SeqCst);
                true
            }
            _ => self.wires.does(rt, step),
        }
    }
}

fn observed<R: Host>(rt: R, alloc: Global) -> Result<String, AllocError> {
    let (writers, wires) = wires_of(alloc, &[100_000, 100_000])?;
    let begun = shared(alloc, AtomicU32::new(0))?;
    let may_end = shared(alloc, AtomicU32::new(0))?;
    let mut scans = Scans {
        wires,
        begun: Arc::try_clone(&begun)?,
        may_end: Arc::try_clone(&may_end)?,
    };
    let setup = DaySetup {
        tunes: saw_alone(alloc, 12_000)?,
        writers,
        gate: shared(alloc, Open)?,
        scanner: Slow { rt, begun, may_end },
    };
    let day = one_day(rt, alloc, setup, SCRIPT, &mut scans);
    observed_with_lines(day, &mut scans.wires, Tone::Saw)
}

/// Whether a scan that had begun has ended where the house is closed.
fn late_observed<R: Host>(rt: R, alloc: Global) -> Result<String, AllocError> {
    let (writers, wires) = wires_of(alloc, &[100, 100])?;
    let begun = shared(alloc, AtomicU32::new(0))?;
    let has_ended = shared(alloc, AtomicU32::new(0))?;
    let mut scans = Scans {
        wires,
        begun: Arc::try_clone(&begun)?,
        may_end: Arc::try_clone(&has_ended)?,
    };
    let setup = DaySetup {
        tunes: saw_alone(alloc, 1_000)?,
        writers,
        gate: shared(alloc, Open)?,
        scanner: Late {
            rt,
            begun,
            has_ended,
        },
    };
    let mut day = one_day(rt, alloc, setup, "update\n~ the scan has begun", &mut scans);
    let has_ended = scans.may_end.load(Ordering::SeqCst);
    day.heard
        .add(format_args!("scans that have ended: {has_ended}\n"));
    day.into_heard()
}

/// The close waits for the scanner's thread, which is still in its scan.
const A_CLOSE_WHILE_A_SCAN_IS_MADE: &str = "updating_db: 1
OK
the scan has begun: true
scans that have ended: 1
";

const AN_UPDATE_WHILE_A_SONG_IS_PLAYED: &str = "OK
updating_db: 1
OK
ACK [54@0] {update} already updating
the scan has begun: true
OK
hall 12000: true
attic 12000: true
file: a.wav
Time: 2
duration: 1.500
OK
the scan may end: true
file: new.wav: true
file: new.wav
Time: 1
duration: 1.000
OK
updating_db: 2
OK
files opened: 1
decoded 12000, written 12000, discarded 0, left 0, torn 0
decoded 12000, written 12000, discarded 0, left 0, torn 0
right frames in the hall 12000, in the attic 12000
";

#[test]
fn updates_beside_what_is_played(rt: HostRuntime) -> Result<(), Fail> {
    wants(late_observed(rt, rt.alloc()), A_CLOSE_WHILE_A_SCAN_IS_MADE)?;
    wants(observed(rt, rt.alloc()), AN_UPDATE_WHILE_A_SONG_IS_PLAYED)
}
