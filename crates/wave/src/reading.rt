//! Heads, read from files.
ghost use Rattle.std.specs.Prelude.{length, ◌≡◌, ◌≤◌, ◌+◌, ◌/◌, ◌^◌, ◌<◌, take, IfSome, IfErr, OnErr};
ghost use Rattle.counted_devices.specs.CallCounts.{NoFewer};
ghost use Rattle.wave.specs.Devices.{Ends, GivesOfBytes, KeepsTo, IsOutside, ReadFaultEnds, ReadFaultHasCause};
ghost use Rattle.wave.specs.Formats.{block};
ghost use Rattle.wave.specs.Waves.{is_riff, wave_of};
ghost use Rattle.wave.specs.Meanings.{GivesHead, GivesHeadUpTo, GivesTagsUpTo};

use crate::device::{last_call, read_at, size};
use crate::fault::{Unread, WaveFault};
use crate::head::Head;
use crate::id3::read_id3;
use crate::samples::{Samples, find_samples};
use crate::texts::read_texts;
use counted_devices::Media;
use mpd_text::Tag;
use std::alloc::Global;

/// Reads the head of a file that is to be played at this rate, in frames a second.
///
/// The whole file is walked through, chunk by chunk, since tags may come after the data. The refusals are
/// those of the bytes, in the order of [`WaveFault`]; `ReadFault` and `NoMemory` say nothing of them.
///
/// In the base profile there are at most the first six tags, of the lists of texts. In the everyday profile
/// there are all ten: a text of a list that is not UTF-8 is read as Windows-1252, and the texts of an ID3v2 tag,
/// in the first chunk `id3 ` or `ID3 `, go before those of the lists.
pub fn read_head<M: Media>(
    alloc: Global,
    media: &mut M,
    rate: u32,
    everyday: bool,
) -> Result<Head, WaveFault>
    // The head is what the whole bytes mean, and each refusal is the one that they mean.
    ensures value { GivesHead (M.all_bytes media.old) (wave_of everyday rate) result }
    // A fault of the device comes only where it failed, or was called too often, or its count is at its
    // greatest value.
    ensures read_fault { ReadFaultHasCause (M.call_counts media.old) (M.call_counts media.new) result }
    ensures few_calls { (M.call_counts media.new).calls ≤ (M.call_counts media.old).calls + 2 ^ 32 }
    ensures stays { M.all_bytes media.new ≡ M.all_bytes media.old }
    ensures calm { NoFewer (M.call_counts media.old) (M.call_counts media.new) }
{
    let limit = last_call(media);
    let end = size(media, limit)?;
    if !is_riff_at(media, limit)? {
        return Err(WaveFault::NotRiff);
    }
    head_of_chunks(alloc, media, limit, end, rate, everyday)
}

/// Reads the head from the chunks after the first twelve bytes, of a file of this many bytes.
fn head_of_chunks<M: Media>(
    alloc: Global,
    media: &mut M,
    limit: u64,
    end: u64,
    rate: u32,
    everyday: bool,
) -> Result<Head, WaveFault>
    requires { IfSome (M.all_bytes media.old) (λ bytes. end ≤ length bytes) }
    ensures value { GivesHeadUpTo (M.all_bytes media.old) end everyday rate result }
    ensures ends { ReadFaultEnds limit (M.call_counts media.old) (M.call_counts media.new) result }
    ensures stays { M.all_bytes media.new ≡ M.all_bytes media.old }
    ensures keeps { KeepsTo limit (M.call_counts media.old) (M.call_counts media.new) }
    ensures calm { NoFewer (M.call_counts media.old) (M.call_counts media.new) }
{
    let samples = find_samples(media, limit, end, rate)?;
    let tags = read_tags(alloc, media, limit, end, everyday)?;
    Ok(head_of(samples, tags))
}

/// Reads the tags, of a file of this many bytes.
fn read_tags<M: Media>(
    alloc: Global,
    media: &mut M,
    limit: u64,
    end: u64,
    everyday: bool,
) -> Result<Vec<Tag>, WaveFault>
    requires { IfSome (M.all_bytes media.old) (λ bytes. end ≤ length bytes) }
    ensures value { GivesTagsUpTo (M.all_bytes media.old) end everyday result }
    ensures fault { IfErr result (IsOutside limit (M.call_counts media.old) (M.call_counts media.new)) }
    ensures stays { M.all_bytes media.new ≡ M.all_bytes media.old }
    ensures keeps { KeepsTo limit (M.call_counts media.old) (M.call_counts media.new) }
    ensures calm { NoFewer (M.call_counts media.old) (M.call_counts media.new) }
{
    let texts = read_texts(alloc, media, limit, end, everyday)?;
    if !everyday {
        return Ok(texts.into_base_tags(alloc)?);
    }
    let id3 = read_id3(alloc, media, limit, end)?;
    Ok(texts.into_everyday_tags(alloc, id3)?)
}

/// Whether the device begins as a RIFF WAVE file does.
fn is_riff_at<M: Media>(media: &mut M, limit: u64) -> Result<bool, Unread>
    ensures value { GivesOfBytes (M.all_bytes media.old) (λ bytes. is_riff (take 12 bytes)) result }
    ensures stays { M.all_bytes media.new ≡ M.all_bytes media.old }
    ensures ends { OnErr result (Ends limit (M.call_counts media.old) (M.call_counts media.new)) }
    ensures keeps { KeepsTo limit (M.call_counts media.old) (M.call_counts media.new) }
    ensures calm { NoFewer (M.call_counts media.old) (M.call_counts media.new) }
{
    let mut start = [0u8; 12];
    let n = read_at(media, limit, 0, &mut start)?;
    Ok(is_riff(&start[..n]))
}

fn is_riff(bytes: &[u8]) -> bool
    ensures { result ≡ is_riff bytes.now }
{
    bytes.len() >= 12 && bytes[..4] == [82, 73, 70, 70] && bytes[8..12] == [87, 65, 86, 69]
}

fn head_of(samples: Samples, tags: Vec<Tag>) -> Head
    requires { samples.offset + samples.len < 2 ^ 64 }
    ensures layout { result.layout ≡ samples.layout }
    ensures frames { result.frames ≡ samples.len / block samples.layout }
    ensures tags { result.tags ≡ tags }
    ensures offset { result.offset ≡ samples.offset }
{
    let Samples {
        layout,
        offset,
        len,
    } = samples;
    Head {
        layout,
        frames: len / layout.block() as u64,
        tags,
        offset,
    }
}
