//! The folder of the music.
use crate::fault::DaemonFault;
use counted_devices::{Counting, ReadSeek};
use crew::Scanner;
use journal::rescan_text;
pub(crate) use journal::tell;
use library_scan::{
    Content, Refusal, Refused, Scanned, SystemDisk, Unwatched, Watcher, content_of, scan,
};
use scan_report::{Progress, found_text, rate_text};
use song_db::{Db, Rate, SharedDb};
use std::alloc::{AllocError, Global};
use std::fs;
use std::io::IsTerminal;
use std::rt::Files;
use std::time::{Clock, Instant};

/// Rates that files are often at, in frames a second.
const COMMON_RATES: [u32; 12] = [
    8_000, 11_025, 16_000, 22_050, 24_000, 32_000, 44_100, 48_000, 88_200, 96_000, 176_400, 192_000,
];

/// What a scan found, and the line that tells of it.
#[derive(Drop)]
pub(crate) struct Found {
    pub(crate) songs: SharedDb,
    pub(crate) report: String,
}

/// The songs of a folder, with the tags of the everyday profile or of the base profile. A long scan shows on a
/// terminal how far it is.
pub(crate) fn songs_of(
    rt: &HostRuntime,
    folder: &str,
    rate: &Rate,
    everyday: bool,
) -> Result<Found, DaemonFault> {
    let mut progress = Progress::new(rt, rt.stderr().is_terminal());
    let scanned = songs_watched(rt, rt.alloc(), folder, rate, everyday, &mut progress);
    progress.end();
    scanned
}

fn songs_watched<R: Files + AllocGlobal + Clone + Drop, W: Watcher>(
    rt: &R,
    alloc: Global,
    folder: &str,
    rate: &Rate,
    everyday: bool,
    watcher: &mut W,
) -> Result<Found, DaemonFault>
where
    R::File: ReadSeek + Drop,
{
    match scan(
        alloc,
        &mut SystemDisk::new(rt, folder),
        rate,
        everyday,
        watcher,
    ) {
        Ok(scanned) => {
            let report = report_of(rt, alloc, folder, &scanned)?;
            match Db::of_songs(alloc, scanned.songs) {
                Ok(songs) => Ok(Found {
                    songs: SharedDb::new(alloc, songs)?,
                    report,
                }),
                // A scan gives each URI once, and no more songs than a library has.
                Err(_) => Err(DaemonFault::NoMemory),
            }
        }
        Err(fault) => Err(DaemonFault::of_scan(fault, String::from_str(alloc, folder)?)),
    }
}

/// The line that tells of a scan: how many songs there are, or where none is, and a file is refused for what
/// may be another rate, that rate.
fn report_of<R: Files + AllocGlobal + Clone + Drop>(
    rt: &R,
    alloc: Global,
    folder: &str,
    scanned: &Scanned,
) -> Result<String, AllocError>
where
    R::File: ReadSeek + Drop,
{
    if scanned.songs.is_empty() {
        if let Some(rate) = rate_of_first(rt, alloc, folder, scanned)? {
            // The scan at that rate says how many files are songs at it, whatever their tags are.
            let mut disk = SystemDisk::new(rt, folder);
            if let Ok(other) = scan(alloc, &mut disk, &rate, false, &mut Unwatched) {
                return rate_text(
                    alloc,
                    other.songs.len(),
                    scanned.refused.len(),
                    rate.frames(),
                );
            }
        }
    }
    found_text(alloc, scanned)
}

/// The first common rate at which the first file is a song that is not refused for other reasons.
fn rate_of_first<R: Files + AllocGlobal + Clone + Drop>(
    rt: &R,
    alloc: Global,
    folder: &str,
    scanned: &Scanned,
) -> Result<Option<Rate>, AllocError>
where
    R::File: ReadSeek + Drop,
{
    let Some(first) = first_unsupported(&scanned.refused) else {
        return Ok(None);
    };
    let path = format!(in alloc; "{folder}/{}", first.uri.as_str())?;
    for frames in COMMON_RATES {
        if let Some(rate) = Rate::new(frames) {
            if is_song_at(rt, alloc, path.as_str(), &rate)? {
                return Ok(Some(rate));
            }
        }
    }
    Ok(None)
}

fn first_unsupported(files: &[Refused]) -> Option<&Refused> {
    for file in files {
        if matches!(&file.refusal, Refusal::Unsupported) {
            return Some(file);
        }
    }
    None
}

fn is_song_at<R: Files + AllocGlobal + Clone + Drop>(
    rt: &R,
    alloc: Global,
    path: &str,
    rate: &Rate,
) -> Result<bool, AllocError>
where
    R::File: ReadSeek + Drop,
{
    let Ok(file) = fs::open(rt, path) else {
        return Ok(false);
    };
    let content = content_of(alloc, &mut Counting::new(file), rate, false)?;
    Ok(matches!(content, Content::Song(_, _)))
}

/// Scans the folder again where clients ask for that, and tells of each scan on standard error.
#[derive(Drop)]
pub(crate) struct FolderScanner<R: Files + Drop> {
    rt: R,
    folder: String,
    rate: Rate,
    everyday: bool,
}

impl<R: Files + Drop> FolderScanner<R> {
    ghost use Rattle.std.specs.Prelude.{◌≡◌};

    pub(crate) fn new(rt: R, folder: String, rate: Rate, everyday: bool) -> FolderScanner<R>
        ensures { (result.folder ≡ folder) × (result.rate ≡ rate) × (result.everyday ≡ everyday) }
    {
        FolderScanner {
            rt,
            folder,
            rate,
            everyday,
        }
    }
}

impl<R: Files + AllocGlobal + Eprint + Clock + Clone + Drop> Scanner for FolderScanner<R>
where
    R::File: ReadSeek + Drop,
{
    fn scan(&mut self, alloc: Global) -> Option<SharedDb> {
        let start = Instant::now(&self.rt).ok();
        let found = songs_watched(
            &self.rt,
            alloc,
            self.folder.as_str(),
            &self.rate,
            self.everyday,
            &mut Unwatched,
        );
        let time = milliseconds_since(&self.rt, start);
        match found {
            Ok(found) => {
                tell_rescan(&self.rt, alloc, found.report.as_str(), time);
                Some(found.songs)
            }
            Err(fault) => {
                if let Ok(why) = format!(in alloc; "{fault}") {
                    tell_rescan(&self.rt, alloc, why.as_str(), time);
                }
                None
            }
        }
    }
}

/// Tells on standard error what came of a scan that a client asked for, and how long it took.
fn tell_rescan<R: Eprint>(rt: &R, alloc: Global, report: &str, time: Option<u128>) {
    if let Ok(line) = rescan_text(alloc, report, time) {
        tell(rt, line.as_str());
    }
}

/// How many milliseconds have passed, where the clock can be read.
fn milliseconds_since<K: Clock>(clock: &K, start: Option<Instant>) -> Option<u128> {
    let passed = start?.elapsed(clock).ok()?;
    Some(passed.as_millis())
}
