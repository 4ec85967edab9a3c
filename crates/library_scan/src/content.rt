//! What a scan keeps of a file.
ghost use Rattle.std.specs.Prelude.{◌≡◌, Ok, IfOk, IfErr};
ghost use Rattle.counted_devices.specs.CallCounts.{NoFewer};
ghost use Rattle.library_scan.specs.Causes.{with_those_of};
ghost use Rattle.library_scan.specs.Contents.{KeepsBytes, UnreadOnFailure, name_of};

use crate::window::Windowed;
use counted_devices::{CallCounts, Counting, Failing, Media, ReadSeek};
use mpd_text::Tag;
use song_db::Rate;
use std::alloc::{AllocError, Global};
use std::io;
use wave::{WaveFault, read_head};

/// Why a file is no song.
#[derive(Clone, Copy, Debug, PartialEq, Eq)]
pub enum Refusal {
    /// The first twelve bytes are not those of a RIFF WAVE file.
    NotRiff,
    /// No whole format comes before the data, or there is neither.
    NoFormat,
    /// The format is none that is played, or its rate is another.
    Unsupported,
    /// There is no data.
    NoData,
    /// It could not be opened or read.
    ReadFault,
}

impl Refusal {
    /// The name that it is shown by.
    pub fn name(self) -> &'static str
        ensures { result.now ≡ name_of self }
    {
        match self {
            Refusal::NotRiff => "NotRiff",
            Refusal::NoFormat => "NoFormat",
            Refusal::Unsupported => "Unsupported",
            Refusal::NoData => "NoData",
            Refusal::ReadFault => "ReadFault",
        }
    }
}

/// What a scan keeps of a file.
#[derive(Drop)]
pub enum Content {
    /// A song of these tags and so many frames, one at least.
    Song(Vec<Tag>, u64),
    /// Nothing: it has no frames.
    Empty,
    /// Its refusal.
    Refused(Refusal),
}

/// What a scan at this rate keeps of a file, with the tags of the everyday profile or of the base profile.
pub fn content_of<M: Media>(
    alloc: Global,
    media: &mut M,
    rate: &Rate,
    everyday: bool,
) -> Result<Content, AllocError>
    // It is what the whole bytes mean.
    ensures value { KeepsBytes everyday rate.now (M.all_bytes media.old) result }
    // If the device failed, it is unread. If not, it is unread only if the device was called too often.
    ensures cause { UnreadOnFailure (M.call_counts media.old) (M.call_counts media.new) result }
    ensures calm { NoFewer (M.call_counts media.old) (M.call_counts media.new) }
{
    let failures = media.failures();
    let blocked = media.blocked();
    let head = read_head(alloc, media, rate.frames(), everyday);
    // What was read over a failure says nothing of the file.
    if media.failures() > failures || media.blocked() > blocked {
        return Ok(Content::Refused(Refusal::ReadFault));
    }
    match head {
        Ok(head) if head.frames() == 0 => Ok(Content::Empty),
        Ok(head) => {
            let frames = head.frames();
            Ok(Content::Song(head.into_tags(), frames))
        }
        Err(WaveFault::NotRiff) => Ok(Content::Refused(Refusal::NotRiff)),
        Err(WaveFault::NoFormat) => Ok(Content::Refused(Refusal::NoFormat)),
        Err(WaveFault::Unsupported) => Ok(Content::Refused(Refusal::Unsupported)),
        Err(WaveFault::NoData) => Ok(Content::Refused(Refusal::NoData)),
        Err(WaveFault::ReadFault) => Ok(Content::Refused(Refusal::ReadFault)),
        Err(WaveFault::NoMemory) => Err(AllocError),
    }
}

/// What a scan at this rate keeps of a file, which is read some kilobytes at a time. Its calls are added to
/// those that were counted before.
pub(crate) fn content_in<F: ReadSeek + Drop>(
    alloc: Global,
    file: F,
    rate: &Rate,
    everyday: bool,
    call_counts: &mut CallCounts,
) -> Result<Content, AllocError>
    // It is what the whole bytes mean.
    ensures value { KeepsBytes everyday rate.now (F.known_bytes file) result }
    ensures cause { UnreadOnFailure call_counts.old call_counts.new result }
    ensures calm { NoFewer call_counts.old call_counts.new }
{
    // Read once, so that the proof has the range of each count.
    let CallCounts {
        failures: _failures,
        blocked: _blocked,
        calls: _calls,
    } = *call_counts;
    let mut file = Counting::new(file);
    let Ok(len) = file.seek_to_end() else {
        add_calls(call_counts, &file);
        return Ok(Content::Refused(Refusal::ReadFault));
    };
    let mut window = Windowed::new(file, len);
    let content = content_of(alloc, &mut window, rate, everyday);
    add_calls(call_counts, &window);
    content
}

/// Adds the calls of a device to those that were counted before.
fn add_calls<D: Failing>(call_counts: &mut CallCounts, device: &D)
    ensures { call_counts.new ≡ with_those_of call_counts.old (D.call_counts device.now) }
{
    let CallCounts {
        failures,
        blocked,
        calls,
    } = *call_counts;
    *call_counts = CallCounts {
        failures: failures.saturating_add(device.failures()),
        blocked: blocked.saturating_add(device.blocked()),
        calls: calls.saturating_add(device.calls()),
    };
}

/// The same of a file that was to be opened, which is a call too.
pub(crate) fn content_if_open<F: ReadSeek + Drop>(
    alloc: Global,
    opened: io::Result<F>,
    rate: &Rate,
    everyday: bool,
    call_counts: &mut CallCounts,
) -> Result<Content, AllocError>
    ensures open { IfOk opened (λ file. KeepsBytes everyday rate.now (F.known_bytes file) result) }
    ensures shut { IfErr opened (λ _. result ≡ Ok (Content.Refused Refusal.ReadFault)) }
    ensures cause { UnreadOnFailure call_counts.old call_counts.new result }
    ensures calm { NoFewer call_counts.old call_counts.new }
{
    call_counts.count_result(&opened);
    match opened {
        Ok(file) => content_in(alloc, file, rate, everyday, call_counts),
        Err(_) => Ok(Content::Refused(Refusal::ReadFault)),
    }
}
