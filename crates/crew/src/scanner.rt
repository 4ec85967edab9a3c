//! The thread that scans.
ghost use Rattle.std.specs.Prelude.{◌≡◌, IsSome, OnOk};

use crate::start::Crew;
use crew_steps::pause;
use house::{House, Ledgers, News, Reported, Seat};
use player_state::Report;
use song_db::SharedDb;
use std::alloc::{AllocError, Global};
use std::sync::{Arc, Wait};
use std::thread;
use std::thread::{JoinHandle, Threads};
use std::time::{Clock, Duration, SystemTime};

/// How many milliseconds a scanner waits at most; it is woken where a scan is asked for.
const LONGEST_WAIT: u64 = 60_000;

/// How many milliseconds it waits after a fault.
const PAUSE: u64 = 50;

/// Finds the songs of a library anew.
pub trait Scanner {
    /// The songs, or none where the scan fails.
    fn scan(&mut self, alloc: Global) -> Option<SharedDb>;
}

/// A scanner that runs.
#[derive(Drop)]
struct Scanning<'h, L: Ledgers, N: Scanner + Drop, R: Wait + Clock> {
    rt: &'h R,
    alloc: Global,
    house: &'h House<L>,
    seat: Seat<L>,
    scanner: N,
    ghost own: { seat.number ≡ 13 },
}

impl<'h, L: Ledgers, N: Scanner + Drop, R: Wait + Clock> Scanning<'h, L, N, R> {
    ghost use Rattle.std.specs.Prelude.{◌≡◌, IfSome, false};
    ghost use Rattle.player_events.specs.declared.event.Event.TheVariants.{ScanQuestion};
    ghost use Rattle.player_state.specs.declared.report.Report.TheVariants.{Ended};
    ghost use Rattle.house.specs.Views.{TellsSomewhere};
    ghost use Rattle.crew_steps.specs.Turns.{goes_on};

    /// Scans where that is asked for, until it is told of the end. Says what it was told then.
    fn run(self) -> Reported
        ensures { result.report ≡ Ended }
    {
        let mut scanning = self;
        let rt = scanning.rt;
        for _ in rt.forever() {
            if let Some(told) = scanning.scan_once() {
                return told;
            }
        }
        unreachable!()
    }

    /// Scans if that is asked for. At the end it says what it was told.
    fn scan_once(&mut self) -> Option<Reported>
        ensures ended { IfSome result (λ told. told.report ≡ Ended) }
        ensures told { IfSome result (TellsSomewhere self.old.seat ScanQuestion) }
    {
        let Ok(told) = self.house.notice(self.rt, &mut self.seat, News::AsksToScan) else {
            pause(self.rt, PAUSE);
            return None;
        };
        if self.obey(&told) { None } else { Some(told) }
    }

    /// Scans where it was told to, and else waits until a scan is asked for. False at the end.
    fn obey(&mut self, told: &Reported) -> bool
        ensures goes { result ≡ goes_on told.now.report }
        ensures ends { result ≡ false → told.now.report ≡ Ended }
    {
        match told.report() {
            Report::Ended => false,
            Report::ToScan(Some(_)) => {
                let found = self.scanner.scan(self.alloc);
                self.tell(found, second_now(self.rt));
                true
            }
            _ => {
                let most = Duration::from_millis(LONGEST_WAIT);
                let _ = self.house.await_scan(self.rt, most);
                true
            }
        }
    }

    /// Tells what a scan found that ended at this second; where that is refused, again after a while.
    fn tell(&mut self, found: Option<SharedDb>, second: u64) {
        let rt = self.rt;
        for _ in rt.forever() {
            if self.is_told(&found, second) {
                return;
            }
            pause(self.rt, PAUSE);
        }
    }

    fn is_told(&mut self, found: &Option<SharedDb>, second: u64) -> bool {
        let songs = match found {
            Some(songs) => match songs.clone() {
                Ok(songs) => Some(songs),
                Err(_) => return false,
            },
            None => None,
        };
        self.house
            .notice(self.rt, &mut self.seat, News::Scanned(songs, second))
            .is_ok()
    }
}

/// The second that it is, from the beginning of 1970 on; 0 where the clock cannot be read or stands before
/// that.
pub fn second_now<R: Clock>(rt: &R) -> u64 {
    let Ok(now) = SystemTime::now(rt) else {
        return 0;
    };
    match now.duration_since(SystemTime::UNIX_EPOCH) {
        Ok(since) => since.as_secs(),
        Err(_) => 0,
    }
}

/// Starts the thread of a scanner.
fn start_thread<
    L: Ledgers + Send + Sync + 'static,
    N: Scanner + Drop + Send + 'static,
    R: Threads + Wait + Clock + Copy + Send + 'static,
>(
    rt: R,
    alloc: Global,
    house: Arc<House<L>, Global>,
    scanner: N,
) -> Result<JoinHandle<()>, AllocError> {
    let handle = thread::spawn(&rt, move || {
        let scanning = Scanning {
            rt: &rt,
            alloc,
            house: &*house,
            seat: Seat::of_crew(9),
            scanner,
        };
        let _told = scanning.run();
    })?;
    Ok(handle)
}

/// Starts a thread that scans until the end, and joins the crew. A crew that has a scanner keeps that one
/// alone.
///
/// # Errors
///
/// Where there is no memory or no thread; the crew goes on without a scanner.
pub fn start_scanner<
    L: Ledgers + Send + Sync + 'static,
    N: Scanner + Drop + Send + 'static,
    R: Threads + Wait + Clock + Copy + Send + 'static,
>(
    rt: R,
    alloc: Global,
    house: &Arc<House<L>, Global>,
    crew: &mut Crew<L>,
    scanner: N,
) -> Result<(), AllocError>
    ensures outputs { crew.new.outputs ≡ crew.old.outputs }
    ensures runs { OnOk result (IsSome crew.new.scanner) }
{
    if crew.scanner.is_some() {
        return Ok(());
    }
    let house = Arc::try_clone(house)?;
    let handle = start_thread(rt, alloc, house, scanner)?;
    crew.scanner = Some(handle);
    Ok(())
}
