//! The frames of a tag, and their contents.
ghost use Rattle.std.specs.Prelude.{◌≡◌, ◌≤◌, ◌<◌, ℕ, List, Some, None, MatchOption, IfSome, IfOk, length};
ghost use Rattle.id3_tags.specs.Grammar.{AreFrames};
ghost use Rattle.id3_tags.specs.Frames.{Id3Frame, frames, header_len, identifier_len, is_identifier, frame_size, frame_flags, first_frame, group_len, data_len, before_content, is_unsynchronised, synchronised, content_of};
ghost use Rattle.id3_tags.specs.Views.{frame_data};

use crate::tag::{Version, is_set, plain_at, syncsafe_at};
use std::alloc::{AllocError, Global};

/// A frame of a tag, and where it lies in the bytes.
#[derive(Clone, Copy)]
pub(crate) struct Frame<'a> {
    pub(crate) identifier: &'a [u8],
    /// The second byte of flags, which says how the content is kept; 0 in version 2.2.
    pub(crate) flags: u8,
    /// The bytes after the header.
    pub(crate) body: &'a [u8],
}

fn header_len(version: Version) -> usize
    ensures { result ≡ header_len version }
{
    match version {
        Version::Two => 6,
        Version::Three | Version::Four => 10,
    }
}

fn identifier_len(version: Version) -> usize
    ensures { result ≡ identifier_len version }
{
    match version {
        Version::Two => 3,
        Version::Three | Version::Four => 4,
    }
}

/// Whether all these bytes are ASCII capitals and digits.
fn is_identifier(bytes: &[u8]) -> bool
    ensures { result ≡ is_identifier bytes.now }
{
    bytes
        .iter()
        .all(|byte| byte.is_ascii_uppercase() || byte.is_ascii_digit())
}

/// The size that a header says.
fn frame_size(version: Version, header: &[u8]) -> Option<u32>
    requires { length header.now ≡ header_len version }
    ensures { result ≡ frame_size version header.now }
{
    match version {
        Version::Two => {
            let high = u32::from(header[3]) * 256 + u32::from(header[4]);
            Some(high * 256 + u32::from(header[5]))
        }
        Version::Three => Some(plain_at(header, 4)),
        Version::Four => syncsafe_at(header, 4),
    }
}

fn frame_flags(version: Version, header: &[u8]) -> u8
    requires { length header.now ≡ header_len version }
    ensures { result ≡ frame_flags version header.now }
{
    match version {
        Version::Two => 0,
        Version::Three | Version::Four => header[9],
    }
}

/// The frame at the start of the bytes and what follows it, if one begins there.
#[tactic(auto, unfolding(crate::specs::Frames::first_frame))]
pub(crate) fn first_frame(version: Version, bytes: &[u8]) -> Option<(Frame<'_>, &[u8])>
    ensures value { MatchOption result (first_frame version bytes.now ≡ None)
        (λ found. first_frame version bytes.now ≡ Some (frame_data found.0, found.1.now)) }
    ensures shorter { IfSome result (λ found. length found.1.now < length bytes.now) }
{
    let (header, after) = bytes.split_at_checked(header_len(version))?;
    let size = frame_size(version, header)?;
    let (body, rest) = after.split_at_checked(size as usize)?;
    let identifier = &header[..identifier_len(version)];
    if !is_identifier(identifier) {
        return None;
    }
    let flags = frame_flags(version, header);
    let frame = Frame {
        identifier,
        flags,
        body,
    };
    Some((frame, rest))
}

fn group_len(in_group: bool) -> usize
    ensures value { result ≡ group_len in_group }
    ensures short { result ≤ 1 }
{
    if in_group { 1 } else { 0 }
}

fn data_len(is_said: bool) -> usize
    ensures value { result ≡ data_len is_said }
    ensures short { result ≤ 4 }
{
    if is_said { 4 } else { 0 }
}

/// How many bytes stand before a frame's content, unless it is compressed or encrypted.
fn before_content(version: Version, flags: u8) -> Option<usize>
    ensures { result ≡ before_content version flags }
{
    match version {
        Version::Two => Some(0),
        Version::Three => {
            if is_set(flags, 0x80) || is_set(flags, 0x40) {
                return None;
            }
            Some(group_len(is_set(flags, 0x20)))
        }
        Version::Four => {
            if is_set(flags, 0x08) || is_set(flags, 0x04) {
                return None;
            }
            Some(group_len(is_set(flags, 0x40)) + data_len(is_set(flags, 0x01)))
        }
    }
}

/// Whether a frame's own flags say that its content is unsynchronised.
fn is_unsynchronised(version: Version, flags: u8) -> bool
    ensures { result ≡ is_unsynchronised version flags }
{
    match version {
        Version::Two | Version::Three => false,
        Version::Four => is_set(flags, 0x02),
    }
}

/// The bytes without each 0x00 that stands directly after 0xFF.
fn synchronised(alloc: Global, bytes: &[u8]) -> Result<Vec<u8>, AllocError>
    ensures { IfOk result (λ found. found.items ≡ synchronised bytes.now) }
{
    let mut kept = Vec::new(alloc);
    let mut last = 0;
    for byte in bytes {
        if last != 0xFF || *byte != 0 {
            kept.push(*byte)?;
        }
        last = *byte;
    }
    Ok(kept)
}

/// The content of a frame, if it is read.
#[tactic(auto, unfolding(crate::specs::Frames::content_of))]
pub(crate) fn content_of(
    alloc: Global,
    version: Version,
    unsynchronised: bool,
    frame: Frame<'_>,
) -> Result<Option<Vec<u8>>, AllocError>
    ensures { IfOk result (λ found. MatchOption found
        (content_of version unsynchronised (frame_data frame.entry) ≡ None)
        (λ content. content_of version unsynchronised (frame_data frame.entry) ≡ Some content.items)) }
{
    let Some(before) = before_content(version, frame.flags) else {
        return Ok(None);
    };
    let Some((_, content)) = frame.body.split_at_checked(before) else {
        return Ok(None);
    };
    if unsynchronised || is_unsynchronised(version, frame.flags) {
        return Ok(Some(synchronised(alloc, content)?));
    }
    Ok(Some(Vec::from_slice(alloc, content)?))
}

/// The frames that tags are read by are those that their bytes are made of, and no others.
pub fn frames_are_those_of_the_bytes()
    ensures are { (version : Version) (bytes : List ℕ) → AreFrames version bytes (frames version bytes) }
    ensures only { (version : Version) (bytes : List ℕ) (found : List Id3Frame) →
        AreFrames version bytes found → found ≡ frames version bytes }
{}
