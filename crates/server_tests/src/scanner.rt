//! A scanner, which makes a notice that no client's line makes.
use house::{House, Ledgers, News, Seat};
use player_state::Report;
use song_db::{Db, SharedDb};
use std::alloc::{AllocError, Global};
use std::sync::{Arc, Wait};
use std::thread;
use std::thread::{JoinHandle, Threads};
use std::time::{Clock, Duration};

/// How long a scan lasts at least, in milliseconds: until then the loop over the sockets sleeps.
const SCAN: u64 = 100;

/// A library without a song; none where there is no memory.
fn no_songs(alloc: Global) -> Option<SharedDb> {
    let songs = Db::of_songs(alloc, Vec::new(alloc)).ok()?;
    SharedDb::new(alloc, songs).ok()
}

/// Looks whether a scan runs, and ends it a while later; it found no song. False where the daemon has ended.
fn scans_once<L: Ledgers, R: Wait + Clock>(
    rt: &R,
    alloc: Global,
    house: &House<L>,
    seat: &mut Seat<L>,
) -> bool {
    let asked = house.notice(rt, seat, News::AsksToScan);
    thread::sleep(rt, Duration::from_millis(SCAN));
    let Ok(told) = asked else {
        return true;
    };
    let report = told.report();
    if matches!(report, Report::ToScan(Some(_))) {
        if let Some(songs) = no_songs(alloc) {
            // Where there is no memory, the scan goes on, and is ended at a later look.
            let _ended = house.notice(rt, seat, News::Scanned(Some(songs), 0));
        }
    }
    !matches!(report, Report::Ended)
}

fn scans<L: Ledgers, R: Wait + Clock>(rt: &R, alloc: Global, house: &House<L>) {
    let mut seat = Seat::of_crew(9);
    for _ in rt.forever() {
        if !scans_once(rt, alloc, house, &mut seat) {
            return;
        }
    }
}

/// Starts a thread that ends each scan which a client asks for, and that ends with the daemon.
pub(crate) fn start_scanner<
    L: Ledgers + Send + Sync + 'static,
    R: Threads + Wait + Clock + Copy + Send + 'static,
>(rt: R, alloc: Global, house: &Arc<House<L>, Global>) -> Result<JoinHandle<()>, AllocError> {
    let house = Arc::try_clone(house)?;
    let handle = thread::spawn(&rt, move || scans(&rt, alloc, &*house))?;
    Ok(handle)
}
