//! Where the samples of a file lie.
ghost use Rattle.std.specs.Prelude.{◌≡◌, ◌==◌, ◌&&◌, ℕ, ◌≤◌, ◌+◌, List, ◌∷◌, length, true, false, IfErr, IfSome, IfOk, OnErr, IsErrOf, MatchResult, codes, is_none};
ghost use Rattle.std.specs.Str.{bytes_eq};
ghost use Rattle.counted_devices.specs.CallCounts.{NoFewer};
ghost use Rattle.wave.specs.Chunks.{Chunk};
ghost use Rattle.wave.specs.Formats.{layout_of};
ghost use Rattle.wave.specs.Devices.{GivesOfBytes, Ends, KeepsTo, ReadFaultEnds};
ghost use Rattle.wave.specs.Parts.{content_of, format_content, chunk_of};
ghost use Rattle.wave.specs.Heads.{file_sound, Refuses, MeansSound, sound_after, missing};

use crate::device::read_at;
use crate::fault::{Unread, WaveFault};
use crate::format::{Layout, layout_of};
use crate::found_chunk::{FoundChunk, chunk_at};
use counted_devices::Media;

/// How samples lie in the data, and where the data lies.
#[derive(Clone, Copy)]
pub(crate) struct Samples {
    pub(crate) layout: Layout,
    pub(crate) offset: u64,
    pub(crate) len: u64,
}

/// Finds the samples of a file of this many bytes that is played at this rate.
pub(crate) fn find_samples<M: Media>(
    media: &mut M,
    limit: u64,
    end: u64,
    rate: u32,
) -> Result<Samples, WaveFault>
    requires { IfSome (M.all_bytes media.old) (λ bytes. end ≤ length bytes) }
    ensures value { IfSome (M.all_bytes media.old) (λ bytes. MeansSound bytes result (file_sound rate bytes end)) }
    ensures within { IfOk result (λ found. found.offset + found.len ≤ end) }
    ensures fault { IsErrOf result WaveFault.NoMemory → ⊥ }
    ensures ends { ReadFaultEnds limit (M.call_counts media.old) (M.call_counts media.new) result }
    ensures stays { M.all_bytes media.new ≡ M.all_bytes media.old }
    ensures keeps { KeepsTo limit (M.call_counts media.old) (M.call_counts media.new) }
    ensures calm { NoFewer (M.call_counts media.old) (M.call_counts media.new) }
{
    let mut at = 12;
    let mut layout: Option<Layout> = None;
    while let Some(part) = chunk_at(media, limit, at, end)? {
        if part.name == *b"data" {
            return samples_in(part, layout);
        }
        layout = layout_after(media, limit, part, layout, rate)?;
        at = part.next;
    }
    Err(missing(layout))
}

/// Why there are no samples where no chunk is left.
fn missing(layout: Option<Layout>) -> WaveFault
    ensures { result ≡ missing layout }
{
    match layout {
        None => WaveFault::NoFormat,
        Some(_) => WaveFault::NoData,
    }
}

/// The samples of the first data, after the chunks that gave a layout or none.
fn samples_in(part: FoundChunk, layout: Option<Layout>) -> Result<Samples, WaveFault>
    requires { bytes_eq part.name (codes "data") ≡ true }
    ensures value { (bytes : List ℕ) (rate : ℕ) (more : List Chunk) → length (content_of bytes part) ≡ part.len
        → MeansSound bytes result (sound_after rate layout (chunk_of bytes part ∷ more)) }
    ensures offset { IfOk result (λ found. (found.offset ≡ part.offset) × (found.len ≡ part.len)) }
    ensures fault { IfErr result (λ fault. fault ≡ WaveFault.NoFormat) }
{
    match layout {
        None => Err(WaveFault::NoFormat),
        Some(layout) => Ok(Samples {
            layout,
            offset: part.offset,
            len: part.len,
        }),
    }
}

/// Whether a chunk is a whole format, with none before it.
fn is_first_format(part: FoundChunk, layout: Option<Layout>) -> bool
    ensures { result ≡ (is_none layout && (bytes_eq part.name (codes "fmt ") && (part.len == part.size))) }
{
    layout.is_none() && part.name == *b"fmt " && part.is_whole()
}

/// The layout that is known after a chunk that is no data.
fn layout_after<M: Media>(
    media: &mut M,
    limit: u64,
    part: FoundChunk,
    layout: Option<Layout>,
    rate: u32,
) -> Result<Option<Layout>, WaveFault>
    requires chunk { bytes_eq part.name (codes "data") ≡ false }
    requires known { IfSome (M.all_bytes media.old) (λ bytes. length (content_of bytes part) ≡ part.len) }
    ensures value { IfSome (M.all_bytes media.old) (λ bytes. (more : List Chunk) → MatchResult result
        (λ next. sound_after rate layout (chunk_of bytes part ∷ more) ≡ sound_after rate next more)
        (λ fault. Refuses fault (sound_after rate layout (chunk_of bytes part ∷ more)))) }
    ensures fault { IsErrOf result WaveFault.NoMemory → ⊥ }
    ensures ends { ReadFaultEnds limit (M.call_counts media.old) (M.call_counts media.new) result }
    ensures stays { M.all_bytes media.new ≡ M.all_bytes media.old }
    ensures keeps { KeepsTo limit (M.call_counts media.old) (M.call_counts media.new) }
    ensures calm { NoFewer (M.call_counts media.old) (M.call_counts media.new) }
{
    if !is_first_format(part, layout) {
        return Ok(layout);
    }
    match layout_at(media, limit, part, rate)? {
        Some(found) => Ok(Some(found)),
        None => Err(WaveFault::Unsupported),
    }
}

/// The layout that a format's content gives.
fn layout_at<M: Media>(
    media: &mut M,
    limit: u64,
    part: FoundChunk,
    rate: u32,
) -> Result<Option<Layout>, Unread>
    ensures value { GivesOfBytes (M.all_bytes media.old) (λ bytes. layout_of rate (format_content bytes part)) result }
    ensures stays { M.all_bytes media.new ≡ M.all_bytes media.old }
    ensures ends { OnErr result (Ends limit (M.call_counts media.old) (M.call_counts media.new)) }
    ensures keeps { KeepsTo limit (M.call_counts media.old) (M.call_counts media.new) }
    ensures calm { NoFewer (M.call_counts media.old) (M.call_counts media.new) }
{
    let mut content = [0u8; 40];
    let n = read_at(media, limit, part.offset, &mut content)?;
    Ok(layout_of(&content[..n.min(part.len as usize)], rate))
}
