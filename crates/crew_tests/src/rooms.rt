//! A house whose threads run, and a client who says the lines of a script in it.
ghost use Rattle.frame_ledger.specs.Shares.{AreEmpty, HasAllParts, HasPartsBut};
ghost use Rattle.std.specs.Prelude.{◌≡◌, ◌≤◌, IfOk, vec_len};
ghost use Rattle.house.specs.Blanks.{AreFor};
ghost use Rattle.house.specs.Counts.{IsFresh};

use crate::tunes::{Files, Tune, library};
use counted_devices::Sink;
use crew::{Crew, OutputRuns, Scanner, close, let_go, start_decoder, start_outputs, start_scanner};
use crew_steps::{Gate, Open, output_setups};
use frame_ledger::{OutputShares, SettleFault, Settled};
use house::{Blanks, CrewShares, Decoded, Discarded, House, Ledgers, Seat, Settlement, Written};
use mpd_text::SharedText;
use partition::{Partition, PartitionFault};
use player_state::Outputs;
use song_db::SharedDb;
use std::alloc::{AllocError, Global};
use std::marker::Brand;
use std::sync::atomic::{AtomicU32, Ordering};
use std::sync::ledger::Share;
use std::sync::{Arc, Wait};
use std::thread;
use std::thread::Threads;
use std::time::{Clock, Duration};
use test_houses::{comes, says};
use test_texts::Recorder;

/// What a house is opened with: its songs, what its outputs write to (the first of `OUTPUTS`), what lets them go on,
/// and what scans.
#[derive(Drop)]
pub(crate) struct DaySetup<O: Drop, G: Drop, N: Drop> {
    pub(crate) tunes: Vec<Tune>,
    pub(crate) writers: Vec<O>,
    pub(crate) gate: Arc<G, Global>,
    pub(crate) scanner: N,
}

/// What the threads of a house run on.
pub(crate) trait Host: Threads + Wait + Clock + Copy + Drop + Send + Sync + 'static {}

impl<R: Threads + Wait + Clock + Copy + Drop + Send + Sync + 'static> Host for R {}

/// A value that threads share.
pub(crate) fn shared<T: Drop>(alloc: Global, value: T) -> Result<Arc<T, Global>, AllocError> {
    match Arc::new(alloc, value) {
        Ok(shared) => Ok(shared),
        Err(_) => Err(AllocError),
    }
}

/// A scanner that finds nothing.
#[derive(Drop)]
pub(crate) struct Blind;

impl Scanner for Blind {
    fn scan(&mut self, _alloc: Global) -> Option<SharedDb> {
        None
    }
}

/// What a test sees of what its client does not hear.
pub(crate) trait Watch<R> {
    /// Does the step of this name, which may be to wait for something. Whether it was done.
    fn does(&mut self, rt: &R, step: &str) -> bool;
}

/// Waits so many milliseconds at most until a flag is up. Whether it is.
pub(crate) fn is_raised<R: Clock>(rt: &R, flag: &AtomicU32, most: u32) -> bool {
    for _ in 0..most {
        if flag.load(Ordering::SeqCst) == 1 {
            return true;
        }
        thread::sleep(rt, Duration::from_millis(1));
    }
    false
}

/// What came of a day: what was heard and seen, how many files were opened, and how the outputs were settled. What
/// was heard keeps any fault of the day.
#[derive(Drop)]
pub(crate) struct Day {
    pub(crate) heard: Recorder,
    opened: u32,
    settled: Vec<Result<Settled, SettleFault>>,
}

impl Day {
    /// What was heard and seen.
    pub(crate) fn into_heard(self) -> Result<String, AllocError> {
        let Day {
            heard,
            opened: _,
            settled: _,
        } = self;
        heard.into_text()
    }

    /// What was heard and seen, after it the files that were opened, and a line for each output: frames
    /// decoded, written, discarded and left, and bytes torn.
    pub(crate) fn observed(self) -> Recorder {
        let Day {
            heard,
            opened,
            settled,
        } = self;
        let mut observed = heard;
        observed.add(format_args!("files opened: {opened}\n"));
        for one in &settled {
            match one {
                Ok(s) => observed.add(format_args!(
                    "decoded {}, written {}, discarded {}, left {}, torn {}\n",
                    s.decoded, s.written, s.discarded, s.left, s.torn
                )),
                Err(_) => observed.add("not settled\n"),
            }
        }
        observed
    }

    /// Adds the frames that an output wrote, the bytes that were torn, and whether those that were written,
    /// discarded and left are the decoded ones.
    pub(crate) fn balance(&mut self, output: usize) {
        let Some(Ok(s)) = self.settled.get(output) else {
            self.heard.add("not settled\n");
            return;
        };
        let all = s.written.saturating_add(s.discarded).saturating_add(s.left);
        let same = all == s.decoded;
        self.heard.add(format_args!("written {} torn {} balanced {same}\n", s.written, s.torn));
    }

    /// Adds whether some frames of an output are left, and those that were written, discarded and left are the
    /// decoded ones.
    pub(crate) fn rest(&mut self, output: usize) {
        let Some(Ok(s)) = self.settled.get(output) else {
            self.heard.add("not settled\n");
            return;
        };
        let all = s.written.saturating_add(s.discarded).saturating_add(s.left);
        let (some, same) = (s.left > 0, all == s.decoded);
        self.heard
            .add(format_args!("left {some} balanced {same}\n"));
    }
}

/// The names of outputs, a line each.
pub(crate) const OUTPUTS: &str = "hall\nattic\nbath\nporch\nden\nloft";

/// So many outputs, all on.
fn outputs(alloc: Global, count: usize) -> Result<Outputs, AllocError> {
    let mut outputs = Outputs::none(alloc);
    for name in OUTPUTS.lines() {
        if outputs.names().len() >= count.min(8) {
            break;
        }
        let name = SharedText::of(String::from_str(alloc, name)?)?;
        outputs.add(name, true)?;
    }
    Ok(outputs)
}

/// A player over a library of these songs, with so many outputs and a window of 64 events.
fn player(alloc: Global, tunes: &[Tune], count: usize) -> Result<Partition, AllocError>
    ensures { IfOk result (λ player. IsFresh player.present) }
{
    test_players::player(alloc, 64, outputs(alloc, count)?, library(alloc, tunes)?)
}

/// Says a line again and again until its answer has a text, ten seconds at most. Whether it came.
fn says_until<L: Ledgers, R: Wait + Clock>(
    rt: &R,
    alloc: Global,
    house: &House<L>,
    seat: &mut Seat<L>,
    line: &str,
    text: &str,
    recorder: &mut Recorder,
) -> bool {
    for _ in 0..5_000u32 {
        let Ok(heard) = says(rt, alloc, house, seat, 1, line) else {
            recorder.fail();
            return false;
        };
        if heard.contains(text) {
            return true;
        }
        thread::sleep(rt, Duration::from_millis(2));
    }
    false
}

/// Adds what is heard of a line of a script: `~ STEP` is a step of the test's own, `LINE ~ TEXT` is said until its
/// answer has the text, and any other line is said once. Of each wait it is told whether what it is for came.
fn hears<L: Ledgers, V: Watch<R>, R: Wait + Clock>(
    rt: &R,
    alloc: Global,
    house: &House<L>,
    seat: &mut Seat<L>,
    line: &str,
    watch: &mut V,
    recorder: &mut Recorder,
) {
    if let Some(step) = line.strip_prefix("~ ") {
        let done = watch.does(rt, step);
        recorder.add(format_args!("{step}: {done}\n"));
        return;
    }
    if let Some((line, text)) = line.split_once(" ~ ") {
        let came = says_until(rt, alloc, house, seat, line, text, recorder);
        recorder.add(format_args!("{text}: {came}\n"));
        return;
    }
    recorder.add_made(says(rt, alloc, house, seat, 1, line));
}

/// A client comes and goes through a script. Adds what was heard of all its lines.
fn plays<L: Ledgers, V: Watch<R>, R: Wait + Clock>(
    rt: &R,
    alloc: Global,
    house: &House<L>,
    seat: &mut Seat<L>,
    script: &str,
    watch: &mut V,
    recorder: &mut Recorder,
) {
    if comes(rt, house, seat, 1).is_err() {
        recorder.fail();
    }
    for line in script.lines() {
        hears(rt, alloc, house, seat, line, watch, recorder);
    }
}

/// The outputs' threads.
fn outputs_of<
    L: Ledgers + Send + Sync + 'static,
    O: Sink + Drop + Send + 'static,
    G: Gate + Drop + Send + Sync + 'static,
    R: Host,
>(
    rt: R,
    alloc: Global,
    house: &Arc<House<L>, Global>,
    gate: &Arc<G, Global>,
    writers: Vec<O>,
    shares: OutputShares<Written<L>, Discarded<L>>,
) -> Result<OutputRuns<L>, PartitionFault>
    requires parts { HasPartsBut 0 shares }
    requires empty { AreEmpty shares }
    ensures { IfOk result (λ outputs. vec_len outputs.runs ≤ 8) }
{
    let output_setups = output_setups(alloc, 8_192, writers)?;
    // There are at most six, and a part of each book for eight.
    if output_setups.len() > 8 {
        return Err(PartitionFault::NoMemory);
    }
    Ok(start_outputs(rt, alloc, house, gate, output_setups, shares)?)
}

/// The decoder's thread beside these outputs.
fn decoder_of<L: Ledgers + Send + Sync + 'static, R: Host>(
    rt: R,
    alloc: Global,
    house: &Arc<House<L>, Global>,
    files: Files,
    outputs: OutputRuns<L>,
    share: Share<Decoded<L>>,
) -> Result<Crew<L>, PartitionFault>
    requires part { share.parts ≡ 1 }
    requires few { vec_len outputs.runs ≤ 8 }
{
    let (rate, ring) = (8_000, 8_192);
    Ok(start_decoder(rt, alloc, house, files, rate, ring, outputs, share)?)
}

/// The crew with the thread of a scanner.
fn with_scanner<L: Ledgers + Send + Sync + 'static, N: Scanner + Drop + Send + 'static, R: Host>(
    rt: R,
    alloc: Global,
    house: &Arc<House<L>, Global>,
    crew: Crew<L>,
    scanner: N,
) -> Result<Crew<L>, PartitionFault> {
    let mut crew = crew;
    match start_scanner(rt, alloc, house, &mut crew, scanner) {
        Ok(()) => Ok(crew),
        Err(_) => {
            let_go(crew);
            Err(PartitionFault::NoMemory)
        }
    }
}

/// All threads of a house.
fn crew_of<
    L: Ledgers + Send + Sync + 'static,
    O: Sink + Drop + Send + 'static,
    G: Gate + Drop + Send + Sync + 'static,
    N: Scanner + Drop + Send + 'static,
    R: Host,
>(
    rt: R,
    alloc: Global,
    house: &Arc<House<L>, Global>,
    shares: CrewShares<L>,
    setup: DaySetup<O, G, N>,
    opened: Arc<AtomicU32, Global>,
) -> Result<Crew<L>, PartitionFault>
    requires parts { HasAllParts shares.decoded.parts shares.outputs }
    requires empty { AreEmpty shares.outputs }
{
    let DaySetup {
        tunes,
        writers,
        gate,
        scanner,
    } = setup;
    let CrewShares { decoded, outputs } = shares;
    let outputs = outputs_of(rt, alloc, house, &gate, writers, outputs)?;
    let files = Files { tunes, opened };
    let crew = decoder_of(rt, alloc, house, files, outputs, decoded)?;
    with_scanner(rt, alloc, house, crew, scanner)
}

/// Goes through a script beside these threads, and closes the house. Whether all went well but what was heard.
fn day_with<L: Ledgers, V: Watch<R>, R: Host>(
    rt: &R,
    alloc: Global,
    house: &House<L>,
    seat: &mut Seat<L>,
    crew: Crew<L>,
    script: &str,
    watch: &mut V,
    day: &mut Day,
) -> bool {
    plays(rt, alloc, house, seat, script, watch, &mut day.heard);
    match close(rt, house, seat, crew) {
        Ok(settlements) => settles(day, &settlements),
        Err((crew, _)) => {
            let_go(crew);
            false
        }
    }
}

/// Keeps how each output was settled. Whether there was memory for it.
fn settles<L: Ledgers>(day: &mut Day, settlements: &[Settlement<L>]) -> bool {
    let mut is_kept = true;
    for settlement in settlements {
        is_kept = day.settled.push(settlement.result).is_ok() && is_kept;
    }
    is_kept
}

/// Starts the threads of a house, goes through a script in it, and closes it.
fn day_in<
    L: Ledgers + Send + Sync + 'static,
    O: Sink + Drop + Send + 'static,
    G: Gate + Drop + Send + Sync + 'static,
    N: Scanner + Drop + Send + 'static,
    V: Watch<R>,
    R: Host,
>(
    rt: R,
    alloc: Global,
    house: &Arc<House<L>, Global>,
    seat: &mut Seat<L>,
    shares: CrewShares<L>,
    setup: DaySetup<O, G, N>,
    script: &str,
    watch: &mut V,
    day: &mut Day,
) -> bool
    requires parts { HasAllParts shares.decoded.parts shares.outputs }
    requires empty { AreEmpty shares.outputs }
{
    let Ok(opened) = shared(alloc, AtomicU32::new(0)) else {
        return false;
    };
    let Ok(theirs) = Arc::try_clone(&opened) else {
        return false;
    };
    let Ok(crew) = crew_of(rt, alloc, house, shares, setup, theirs) else {
        return false;
    };
    let went_well = day_with(&rt, alloc, house, seat, crew, script, watch, day);
    day.opened = opened.load(Ordering::SeqCst);
    went_well
}

fn day_of_a_seat<
    L: Ledgers + Send + Sync + 'static,
    O: Sink + Drop + Send + 'static,
    G: Gate + Drop + Send + Sync + 'static,
    N: Scanner + Drop + Send + 'static,
    V: Watch<R>,
    R: Host,
>(
    rt: R,
    alloc: Global,
    house: &Arc<House<L>, Global>,
    shares: CrewShares<L>,
    setup: DaySetup<O, G, N>,
    script: &str,
    watch: &mut V,
    day: &mut Day,
) -> bool
    requires parts { HasAllParts shares.decoded.parts shares.outputs }
    requires empty { AreEmpty shares.outputs }
{
    match house.seat(&rt) {
        Ok(mut seat) => day_in(
            rt, alloc, house, &mut seat, shares, setup, script, watch, day,
        ),
        Err(_) => false,
    }
}

fn run_day<
    L: Ledgers + Send + Sync + 'static,
    O: Sink + Drop + Send + 'static,
    G: Gate + Drop + Send + Sync + 'static,
    N: Scanner + Drop + Send + 'static,
    V: Watch<R>,
    R: Host,
>(
    rt: R,
    alloc: Global,
    blanks: Blanks,
    setup: DaySetup<O, G, N>,
    script: &String,
    watch: &mut V,
    day: &mut Day,
) -> bool
    requires blanks { AreFor L.names blanks }
{
    let Ok(player) = player(alloc, &setup.tunes, setup.writers.len()) else {
        return false;
    };
    let Ok((house, shares)) = House::<L>::open(alloc, blanks, player) else {
        return false;
    };
    let Ok(house) = shared(alloc, house) else {
        return false;
    };
    day_of_a_seat(
        rt,
        alloc,
        &house,
        shares,
        setup,
        script.as_str(),
        watch,
        day,
    )
}

/// Opens a house, goes through a script in it, and closes it.
pub(crate) fn one_day<
    O: Sink + Drop + Send + 'static,
    G: Gate + Drop + Send + Sync + 'static,
    N: Scanner + Drop + Send + 'static,
    V: Watch<R>,
    R: Host,
>(rt: R, alloc: Global, setup: DaySetup<O, G, N>, script: &str, watch: &mut V) -> Day {
    let mut day = Day {
        heard: Recorder::new(alloc),
        opened: 0,
        settled: Vec::new(alloc),
    };
    // Ghost members cannot be picked at a call with a `&str`.
    let went_well = match String::from_str(alloc, script) {
        Ok(script) => {
            run_day::<Brand, O, G, N, V, R>(
                rt,
                alloc,
                Blanks::new(),
                setup,
                &script,
                watch,
                &mut day,
            )
        }
        Err(_) => false,
    };
    if !went_well {
        day.heard.fail();
    }
    day
}

/// Goes through a script in a house that plays these songs into the first of two ends, which nothing holds up and
/// where nothing is scanned. The test has the other.
pub(crate) fn day_through<O: Sink + Drop + Send + 'static, V: Watch<R> + Drop, R: Host>(
    rt: R,
    alloc: Global,
    tunes: Result<Vec<Tune>, AllocError>,
    ends: Result<(Vec<O>, V), AllocError>,
    script: &str,
) -> Result<(Day, V), AllocError> {
    let tunes = tunes?;
    let (writers, mut watch) = ends?;
    let setup = DaySetup {
        tunes,
        writers,
        gate: shared(alloc, Open)?,
        scanner: Blind,
    };
    let day = one_day(rt, alloc, setup, script, &mut watch);
    Ok((day, watch))
}
