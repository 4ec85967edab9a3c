//! The texts in the lists of a file.
ghost use Rattle.std.specs.Prelude.{◌≡◌, ◌==◌, ◌&&◌, nat_le, codes, ◌≤◌, ◌<◌, ◌^◌, ◌+◌, true, length, IfSome, IfOk, IfErr, OnErr};
ghost use Rattle.std.specs.Str.{bytes_eq};
ghost use Rattle.counted_devices.specs.CallCounts.{NoFewer};
ghost use Rattle.wave.specs.Texts.{is_info};
ghost use Rattle.wave.specs.Devices.{GivesOfBytes, Ends, KeepsTo, IsOutside};
ghost use Rattle.wave.specs.Parts.{content_of, chunk_of};
ghost use Rattle.wave.specs.Found.{file_texts, item_text, GivesWithItem, GivesWithList};

use crate::device::read_at;
use crate::fault::{Unread, WaveFault};
use crate::first_texts::Texts;
use crate::found_chunk::{FoundChunk, chunk_at};
use crate::tag::{MAX_TEXT, name_of, text_in};
use counted_devices::Media;
use mpd_text::Text;
use std::alloc::Global;

/// The first text of each name of items, of all lists of a file of this many bytes.
pub(crate) fn read_texts<M: Media>(
    alloc: Global,
    media: &mut M,
    limit: u64,
    end: u64,
    everyday: bool,
) -> Result<Texts, WaveFault>
    requires { IfSome (M.all_bytes media.old) (λ bytes. end ≤ length bytes) }
    ensures value { GivesOfBytes (M.all_bytes media.old) (λ bytes. file_texts everyday bytes end) result }
    ensures fault { IfErr result (IsOutside limit (M.call_counts media.old) (M.call_counts media.new)) }
    ensures stays { M.all_bytes media.new ≡ M.all_bytes media.old }
    ensures keeps { KeepsTo limit (M.call_counts media.old) (M.call_counts media.new) }
    ensures calm { NoFewer (M.call_counts media.old) (M.call_counts media.new) }
{
    let mut texts = Texts::none();
    let mut at = 12;
    while let Some(part) = chunk_at(media, limit, at, end)? {
        if is_list(media, limit, part)? {
            texts = read_list(alloc, media, limit, part, texts, everyday)?;
        }
        at = part.next;
    }
    Ok(texts)
}

/// Whether a chunk is a whole list with room for its kind.
fn may_be_list(part: FoundChunk) -> bool
    ensures { result ≡ (bytes_eq part.name (codes "LIST") && (part.len == part.size) && nat_le 4 part.len) }
{
    part.name == *b"LIST" && part.is_whole() && part.len >= 4
}

/// Whether a chunk is a whole list of texts.
fn is_list<M: Media>(media: &mut M, limit: u64, part: FoundChunk) -> Result<bool, Unread>
    requires { IfSome (M.all_bytes media.old) (λ bytes. length (content_of bytes part) ≡ part.len) }
    ensures value { GivesOfBytes (M.all_bytes media.old) (λ bytes. is_info (chunk_of bytes part)) result }
    ensures long { IfOk result (λ found. found ≡ true → 4 ≤ part.len) }
    ensures stays { M.all_bytes media.new ≡ M.all_bytes media.old }
    ensures ends { OnErr result (Ends limit (M.call_counts media.old) (M.call_counts media.new)) }
    ensures keeps { KeepsTo limit (M.call_counts media.old) (M.call_counts media.new) }
    ensures calm { NoFewer (M.call_counts media.old) (M.call_counts media.new) }
{
    if !may_be_list(part) {
        return Ok(false);
    }
    let mut kind = [0u8; 4];
    let n = read_at(media, limit, part.offset, &mut kind)?;
    Ok(kind[..n] == [73, 78, 70, 79])
}

/// The texts with those of a list.
fn read_list<M: Media>(
    alloc: Global,
    media: &mut M,
    limit: u64,
    list: FoundChunk,
    mut texts: Texts,
    everyday: bool,
) -> Result<Texts, WaveFault>
    requires long { 4 ≤ list.len }
    requires within { IfSome (M.all_bytes media.old) (λ bytes. list.offset + list.len ≤ length bytes) }
    requires fits { list.offset + list.len < 2 ^ 64 }
    ensures value { GivesWithList (M.all_bytes media.old) everyday list texts result }
    ensures fault { IfErr result (IsOutside limit (M.call_counts media.old) (M.call_counts media.new)) }
    ensures stays { M.all_bytes media.new ≡ M.all_bytes media.old }
    ensures keeps { KeepsTo limit (M.call_counts media.old) (M.call_counts media.new) }
    ensures calm { NoFewer (M.call_counts media.old) (M.call_counts media.new) }
{
    let end = list.offset + list.len;
    let mut at = list.offset + 4;
    while let Some(item) = chunk_at(media, limit, at, end)? {
        texts = take_item(alloc, media, limit, item, texts, everyday)?;
        at = item.next;
    }
    Ok(texts)
}

/// The texts with that of an item of a list, if it counts.
fn take_item<M: Media>(
    alloc: Global,
    media: &mut M,
    limit: u64,
    item: FoundChunk,
    texts: Texts,
    everyday: bool,
) -> Result<Texts, WaveFault>
    requires { IfSome (M.all_bytes media.old) (λ bytes. length (content_of bytes item) ≡ item.len) }
    ensures value { GivesWithItem (M.all_bytes media.old) everyday item texts result }
    ensures fault { IfErr result (IsOutside limit (M.call_counts media.old) (M.call_counts media.new)) }
    ensures stays { M.all_bytes media.new ≡ M.all_bytes media.old }
    ensures keeps { KeepsTo limit (M.call_counts media.old) (M.call_counts media.new) }
    ensures calm { NoFewer (M.call_counts media.old) (M.call_counts media.new) }
{
    let Some(name) = name_of(item.name) else {
        return Ok(texts);
    };
    if !item.is_whole() {
        return Ok(texts);
    }
    match text_at(alloc, media, limit, item, everyday)? {
        Some(text) => Ok(texts.with(name, text)),
        None => Ok(texts),
    }
}

/// The text of an item, if it is not skipped.
fn text_at<M: Media>(
    alloc: Global,
    media: &mut M,
    limit: u64,
    item: FoundChunk,
    everyday: bool,
) -> Result<Option<Text>, WaveFault>
    ensures value { GivesOfBytes (M.all_bytes media.old) (item_text everyday item) result }
    ensures fault { IfErr result (IsOutside limit (M.call_counts media.old) (M.call_counts media.new)) }
    ensures stays { M.all_bytes media.new ≡ M.all_bytes media.old }
    ensures keeps { KeepsTo limit (M.call_counts media.old) (M.call_counts media.new) }
    ensures calm { NoFewer (M.call_counts media.old) (M.call_counts media.new) }
{
    let mut content = [0u8; MAX_TEXT + 1];
    let n = read_at(media, limit, item.offset, &mut content)?;
    Ok(text_in(alloc, &content[..n.min(item.len as usize)], everyday)?)
}
