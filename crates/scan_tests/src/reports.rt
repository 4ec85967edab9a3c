//! What a scan prints, and what is reported of it.
use crate::helpers::song;
use library_scan::{Refusal, Refused, Scanned};
use mpd_text::{Song, Text};
use scan_report::{found_text, per_second, rate_text, report_of};
use song_db::Rate;
use std::alloc::{AllocError, Global};
use std::test::Fail;
use test_texts::wants;

fn songs(alloc: Global) -> Result<Vec<Song>, AllocError> {
    let mut songs = Vec::new(alloc);
    songs.push(song(alloc, "a/x.wav", 12_001, "Hi")?)?;
    songs.push(song(alloc, "b.wav", 8, "Bee")?)?;
    Ok(songs)
}

/// Files that are none: the first is no RIFF file, the others cannot be read.
fn refused(alloc: Global, uris: &str) -> Result<Vec<Refused>, AllocError> {
    let mut refused = Vec::new(alloc);
    for line in uris.lines() {
        let uri = Text::new(alloc, line)?;
        let refusal = if line == "c.wav" {
            Refusal::NotRiff
        } else {
            Refusal::ReadFault
        };
        refused.push(Refused { uri, refusal })?;
    }
    Ok(refused)
}

fn scanned(alloc: Global, uris: &str) -> Result<Scanned, AllocError> {
    let songs = songs(alloc)?;
    Ok(Scanned {
        songs,
        refused: refused(alloc, uris)?,
    })
}

fn report(alloc: Global) -> Result<String, AllocError> {
    let report = report_of(alloc, &scanned(alloc, "c.wav\nd.wav")?, &Rate::lowest())?;
    let (songs, refused) = (report.songs.as_str(), report.refused.as_str());
    format!(in alloc; "{songs}{refused}")
}

const REPORT: &str = "file: a/x.wav
Artist: Hi
Time: 2
duration: 1.500
file: b.wav
Artist: Bee
Time: 0
duration: 0.001
c.wav: NotRiff
d.wav: ReadFault
";

fn found(alloc: Global, uris: &str) -> Result<String, AllocError> {
    found_text(alloc, &scanned(alloc, uris)?)
}

/// A report. How many songs were found: of reasons as common the first is told, else the commonest, and none where all
/// are songs. At which rate they are, and how fast names were looked at.
#[test]
fn what_is_reported(rt: HostRuntime) -> Result<(), Fail> {
    wants(report(rt.alloc()), REPORT)?;
    wants(
        found(rt.alloc(), "c.wav\nd.wav"),
        "2 songs, 2 other files (NotRiff 1)",
    )?;
    wants(
        found(rt.alloc(), "c.wav\nd.wav\ne.wav"),
        "2 songs, 3 other files (ReadFault 2)",
    )?;
    wants(found(rt.alloc(), ""), "2 songs")?;
    wants(
        rate_text(rt.alloc(), 2, 3, 8_000),
        "2 of 3 files are at 8000 frames a second; set rate = 8000, or see music_daemon scan DIR",
    )?;
    wants(speeds(rt.alloc()), "0 0 3 4294967296000")
}

fn speeds(alloc: Global) -> Result<String, AllocError> {
    let (none, at_once) = (per_second(0, 0), per_second(7, 0));
    let (cut, greatest) = (per_second(7, 2_000), per_second(4_294_967_296, 1));
    format!(in alloc; "{none} {at_once} {cut} {greatest}")
}
