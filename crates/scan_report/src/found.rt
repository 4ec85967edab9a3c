//! What a daemon tells of a scan.
ghost use Rattle.std.specs.Prelude.{◌≡◌, IfOk, length, string_bytes};
ghost use Rattle.scan_report.specs.Found as found;

use library_scan::{Refusal, Refused, Scanned};
use std::alloc::{AllocError, Global};

/// How many songs a scan found, how many files are not songs, and the commonest reason with its number, as
/// `3 songs, 2 other files (NotRiff 2)`.
pub fn found_text(alloc: Global, scanned: &Scanned) -> Result<String, AllocError>
    ensures { IfOk result (λ text. string_bytes text
        ≡ found.found_text (length scanned.now.songs.items) scanned.now.refused.items) }
{
    let songs = scanned.songs.len();
    let refused = refused_text(alloc, &scanned.refused)?;
    format!(in alloc; "{songs} songs{refused}")
}

/// That so many of the files are songs at another rate, in frames a second, and which key says so.
pub fn rate_text(alloc: Global, songs: usize, files: usize, rate: u32) -> Result<String, AllocError>
    ensures { IfOk result (λ text. string_bytes text ≡ found.rate_text songs files rate) }
{
    format!(in alloc;
        "{songs} of {files} files are at {rate} frames a second; set rate = {rate}, or see music_daemon scan DIR"
    )
}

/// The refusal for which most files are refused; of those as common the first.
pub fn commonest(refused: &[Refused]) -> Refusal
    ensures { result ≡ found.commonest refused.now }
{
    let first = commoner(refused, Refusal::NotRiff, Refusal::NoFormat);
    let second = commoner(refused, first, Refusal::Unsupported);
    let third = commoner(refused, second, Refusal::NoData);
    commoner(refused, third, Refusal::ReadFault)
}

/// How many files are refused for this.
pub fn count_of(refused: &[Refused], refusal: Refusal) -> usize
    ensures { result ≡ found.count_of refusal refused.now }
{
    let index = index_of(refusal);
    refused
        .iter()
        .filter(|file| index_of(file.refusal) == index)
        .count()
}

fn commoner(refused: &[Refused], one: Refusal, other: Refusal) -> Refusal
    ensures { result ≡ found.commoner refused.now one other }
{
    if count_of(refused, other) <= count_of(refused, one) {
        one
    } else {
        other
    }
}

fn index_of(refusal: Refusal) -> u8
    ensures { result ≡ found.index_of refusal }
{
    match refusal {
        Refusal::NotRiff => 0,
        Refusal::NoFormat => 1,
        Refusal::Unsupported => 2,
        Refusal::NoData => 3,
        Refusal::ReadFault => 4,
    }
}

#[tactic(auto, unfolding(crate::specs::Found::refused_text))]
fn refused_text(alloc: Global, refused: &[Refused]) -> Result<String, AllocError>
    ensures { IfOk result (λ text. string_bytes text ≡ found.refused_text refused.now) }
{
    let files = refused.len();
    if files == 0 {
        return Ok(String::new(alloc));
    }
    let refusal = commonest(refused);
    let most = count_of(refused, refusal);
    reason_text(alloc, files, refusal, most)
}

fn reason_text(
    alloc: Global,
    files: usize,
    refusal: Refusal,
    most: usize,
) -> Result<String, AllocError>
    ensures { IfOk result (λ text. string_bytes text ≡ found.reason_text files refusal most) }
{
    let name = refusal.name();
    format!(in alloc; ", {files} other files ({name} {most})")
}
