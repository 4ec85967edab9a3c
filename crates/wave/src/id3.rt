//! The ID3v2 tag of a file.
ghost use Rattle.std.specs.Prelude.{◌≡◌, ◌<◌, ◌+◌, ◌^◌, ◌≤◌, ◌||◌, length, take, min, codes, IfSome, IfOk, IfErr, OnErr};
ghost use Rattle.std.specs.Str.{bytes_eq};
ghost use Rattle.counted_devices.specs.CallCounts.{NoFewer};
ghost use Rattle.id3_tags.specs.Tags.{tag_len};
ghost use Rattle.id3_tags.specs.Texts.{id3_texts};
ghost use Rattle.wave.specs.Devices.{GivesOfBytes, Ends, KeepsTo, IsOutside};
ghost use Rattle.wave.specs.Everyday.{id3_of};
ghost use Rattle.wave.specs.Found.{IsFirstId3};
ghost use Rattle.wave.specs.Parts.{content_of, file_chunks};

use crate::device::read_at;
use crate::fault::{Unread, WaveFault};
use crate::found_chunk::{FoundChunk, chunk_at};
use counted_devices::Media;
use id3_tags::{Id3Texts, no_texts, tag_len, texts_of};
use std::alloc::Global;

/// The texts of the ID3v2 tag of a file of this many bytes.
pub(crate) fn read_id3<M: Media>(
    alloc: Global,
    media: &mut M,
    limit: u64,
    end: u64,
) -> Result<Id3Texts, WaveFault>
    requires { IfSome (M.all_bytes media.old) (λ bytes. end ≤ length bytes) }
    ensures value { GivesOfBytes (M.all_bytes media.old) (λ bytes. id3_of (file_chunks bytes end)) result }
    ensures fault { IfErr result (IsOutside limit (M.call_counts media.old) (M.call_counts media.new)) }
    ensures stays { M.all_bytes media.new ≡ M.all_bytes media.old }
    ensures keeps { KeepsTo limit (M.call_counts media.old) (M.call_counts media.new) }
    ensures calm { NoFewer (M.call_counts media.old) (M.call_counts media.new) }
{
    match first_id3(media, limit, end)? {
        Some(part) if part.is_whole() => texts_at(alloc, media, limit, part),
        _ => Ok(no_texts()),
    }
}

/// Whether a chunk is one for an ID3v2 tag.
fn is_id3(part: FoundChunk) -> bool
    ensures { result ≡ (bytes_eq part.name (codes "id3 ") || bytes_eq part.name (codes "ID3 ")) }
{
    part.name == *b"id3 " || part.name == *b"ID3 "
}

/// The first chunk for an ID3v2 tag.
fn first_id3<M: Media>(media: &mut M, limit: u64, end: u64) -> Result<Option<FoundChunk>, Unread>
    requires { IfSome (M.all_bytes media.old) (λ bytes. end ≤ length bytes) }
    ensures value { IfSome (M.all_bytes media.old) (λ bytes. IfOk result (IsFirstId3 bytes end)) }
    ensures stays { M.all_bytes media.new ≡ M.all_bytes media.old }
    ensures ends { OnErr result (Ends limit (M.call_counts media.old) (M.call_counts media.new)) }
    ensures keeps { KeepsTo limit (M.call_counts media.old) (M.call_counts media.new) }
    ensures calm { NoFewer (M.call_counts media.old) (M.call_counts media.new) }
{
    let mut at = 12;
    while let Some(part) = chunk_at(media, limit, at, end)? {
        if is_id3(part) {
            return Ok(Some(part));
        }
        at = part.next;
    }
    Ok(None)
}

/// The texts of the ID3v2 tag in a chunk, of which no more is read than the tag takes.
fn texts_at<M: Media>(
    alloc: Global,
    media: &mut M,
    limit: u64,
    part: FoundChunk,
) -> Result<Id3Texts, WaveFault>
    ensures value { GivesOfBytes (M.all_bytes media.old) (λ bytes. id3_texts (content_of bytes part)) result }
    ensures fault { IfErr result (IsOutside limit (M.call_counts media.old) (M.call_counts media.new)) }
    ensures stays { M.all_bytes media.new ≡ M.all_bytes media.old }
    ensures keeps { KeepsTo limit (M.call_counts media.old) (M.call_counts media.new) }
    ensures calm { NoFewer (M.call_counts media.old) (M.call_counts media.new) }
{
    let len = tag_len_at(media, limit, part)?;
    let mut bytes = vec![in alloc; 0u8; len as usize]?;
    let n = read_at(media, limit, part.offset, &mut bytes)?;
    Ok(texts_of(alloc, &bytes.as_slice()[..n])?)
}

/// How many bytes of a chunk the ID3v2 tag at its start takes, or how many there are if these are fewer.
fn tag_len_at<M: Media>(media: &mut M, limit: u64, part: FoundChunk) -> Result<u64, Unread>
    ensures value { GivesOfBytes (M.all_bytes media.old)
        (λ bytes. min (tag_len (take 10 (content_of bytes part))) part.len) result }
    ensures bound { IfOk result (λ len. len < 10 + 2 ^ 28) }
    ensures stays { M.all_bytes media.new ≡ M.all_bytes media.old }
    ensures ends { OnErr result (Ends limit (M.call_counts media.old) (M.call_counts media.new)) }
    ensures keeps { KeepsTo limit (M.call_counts media.old) (M.call_counts media.new) }
    ensures calm { NoFewer (M.call_counts media.old) (M.call_counts media.new) }
{
    let mut head = [0u8; 10];
    let n = read_at(media, limit, part.offset, &mut head)?;
    Ok(tag_len(&head[..n.min(part.len as usize)]).min(part.len))
}
