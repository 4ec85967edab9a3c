//! The lines of a scan.
ghost use Rattle.std.specs.Prelude.{◌≡◌, ◌++◌, IfOk, OnOk};
ghost use Rattle.scan_report.specs.Reports.{all_song_lines, all_refused_lines, refused_line};

use library_scan::{Refused, Scanned};
use mpd_text::{Answer, Song};
use song_db::{Rate, push_song};
use std::alloc::{AllocError, Global};

/// What a scan prints.
#[derive(Drop)]
pub struct Report {
    /// The lines of the songs.
    pub songs: Answer,
    /// A line for each file that is none.
    pub refused: Answer,
}

/// What a scan at this rate prints: the lines of each song, and `URI: REFUSAL` for each file that is none,
/// both in the order that the scan gave them.
pub fn report_of(alloc: Global, scanned: &Scanned, rate: &Rate) -> Result<Report, AllocError>
    ensures songs { IfOk result (λ r. r.songs ≡ all_song_lines rate.now scanned.now.songs.items) }
    ensures refused { IfOk result (λ r. r.refused ≡ all_refused_lines scanned.now.refused.items) }
{
    Ok(Report {
        songs: song_lines(alloc, &scanned.songs, rate)?,
        refused: refused_lines(alloc, &scanned.refused)?,
    })
}

fn song_lines(alloc: Global, songs: &[Song], rate: &Rate) -> Result<Answer, AllocError>
    ensures { IfOk result (λ text. text ≡ all_song_lines rate.now songs.now) }
{
    let mut text = Answer::new(alloc);
    for song in songs {
        push_song(&mut text, song, rate)?;
    }
    Ok(text)
}

fn refused_lines(alloc: Global, refused: &[Refused]) -> Result<Answer, AllocError>
    ensures { IfOk result (λ text. text ≡ all_refused_lines refused.now) }
{
    let mut text = Answer::new(alloc);
    for file in refused {
        push_refused(&mut text, file)?;
    }
    Ok(text)
}

fn push_refused(text: &mut Answer, file: &Refused) -> Result<(), AllocError>
    ensures { OnOk result (text.new ≡ text.old ++ refused_line file.now) }
{
    text.pair(file.uri.as_str(), file.refusal.name())
}
