//! The texts that a tag gives.
ghost use Rattle.std.specs.Prelude.{◌≡◌, ◌≤◌, ℕ, List, take, IfOk};
ghost use Rattle.id3_tags.specs.Tags.{tag_len};
ghost use Rattle.id3_tags.specs.Texts.{frame_text, text_named, text_of, by_version, plain_text, time_or_year, date_of, comment_of, no_texts, texts_in, id3_texts};
ghost use Rattle.id3_tags.specs.Views.{tag_data, frame_data};

use crate::encoding::{Kind, content_text};
use crate::frame::{Frame, content_of, first_frame};
use crate::tag::{Tag, Version, tag_in};
use mpd_text::Text;
use std::alloc::{AllocError, Global};

/// The texts that an ID3v2 tag gives: of each tag the first text that is not skipped.
#[derive(Drop)]
pub struct Id3Texts {
    /// From `TT2` or `TIT2`.
    pub title: Option<Text>,
    /// From `TP1` or `TPE1`.
    pub artist: Option<Text>,
    /// From `TAL` or `TALB`.
    pub album: Option<Text>,
    /// From `TP2` or `TPE2`.
    pub album_artist: Option<Text>,
    /// From `TRK` or `TRCK`.
    pub track: Option<Text>,
    /// From `TPA` or `TPOS`.
    pub disc: Option<Text>,
    /// From `TYE`, or from `TDRC` before `TYER`.
    pub date: Option<Text>,
    /// From `TCO` or `TCON`, as it stands.
    pub genre: Option<Text>,
    /// From `TCM` or `TCOM`.
    pub composer: Option<Text>,
    /// From `COM` or `COMM` with an empty description.
    pub comment: Option<Text>,
}

/// The text of a frame, if it is not skipped.
fn frame_text(
    alloc: Global,
    tag: Tag<'_>,
    kind: Kind,
    frame: Frame<'_>,
) -> Result<Option<Text>, AllocError>
    ensures { IfOk result (λ text. text ≡ frame_text (tag_data tag.entry) kind (frame_data frame.entry)) }
{
    match content_of(alloc, tag.version, tag.unsynchronised, frame)? {
        Some(content) => content_text(alloc, kind, &content),
        None => Ok(None),
    }
}

/// The text of a frame that has this identifier.
fn text_named(
    alloc: Global,
    tag: Tag<'_>,
    kind: Kind,
    identifier: &[u8],
    frame: Frame<'_>,
) -> Result<Option<Text>, AllocError>
    ensures { IfOk result (λ text. text ≡
        text_named (tag_data tag.entry) kind identifier.now (frame_data frame.entry)) }
{
    if frame.identifier != identifier {
        return Ok(None);
    }
    frame_text(alloc, tag, kind, frame)
}

/// The first text of the tag's frames with this identifier.
fn text_of(
    alloc: Global,
    tag: Tag<'_>,
    kind: Kind,
    identifier: &[u8],
) -> Result<Option<Text>, AllocError>
    ensures { IfOk result (λ text. text ≡ text_of (tag_data tag.entry) kind identifier.now) }
{
    let mut rest = tag.frames;
    while let Some((frame, after)) = first_frame(tag.version, rest) {
        match text_named(alloc, tag, kind, identifier, frame)? {
            Some(text) => return Ok(Some(text)),
            None => rest = after,
        }
    }
    Ok(None)
}

/// One of two identifiers: that of version 2.2, and that of the later ones.
fn by_version<'a>(version: Version, early: &'a [u8], late: &'a [u8]) -> &'a [u8]
    ensures { result.now ≡ by_version version early.now late.now }
{
    match version {
        Version::Two => early,
        Version::Three | Version::Four => late,
    }
}

fn plain_text(
    alloc: Global,
    tag: Tag<'_>,
    early: &[u8],
    late: &[u8],
) -> Result<Option<Text>, AllocError>
    ensures { IfOk result (λ text. text ≡ plain_text (tag_data tag.entry) early.now late.now) }
{
    text_of(
        alloc,
        tag,
        Kind::Plain,
        by_version(tag.version, early, late),
    )
}

/// The date: from version 2.3 on a recording time counts before a year.
fn date_of(alloc: Global, tag: Tag<'_>) -> Result<Option<Text>, AllocError>
    ensures { IfOk result (λ text. text ≡ date_of (tag_data tag.entry) tag.entry.version) }
{
    match tag.version {
        Version::Two => text_of(alloc, tag, Kind::Plain, b"TYE"),
        Version::Three | Version::Four => time_or_year(alloc, tag),
    }
}

fn time_or_year(alloc: Global, tag: Tag<'_>) -> Result<Option<Text>, AllocError>
    ensures { IfOk result (λ text. text ≡ time_or_year (tag_data tag.entry)) }
{
    match text_of(alloc, tag, Kind::Plain, b"TDRC")? {
        Some(time) => Ok(Some(time)),
        None => text_of(alloc, tag, Kind::Plain, b"TYER"),
    }
}

fn comment_of(alloc: Global, tag: Tag<'_>) -> Result<Option<Text>, AllocError>
    ensures { IfOk result (λ text. text ≡ comment_of (tag_data tag.entry)) }
{
    text_of(
        alloc,
        tag,
        Kind::Comment,
        by_version(tag.version, b"COM", b"COMM"),
    )
}

/// No text of any tag.
pub fn no_texts() -> Id3Texts
    ensures { result ≡ no_texts }
{
    Id3Texts {
        title: None,
        artist: None,
        album: None,
        album_artist: None,
        track: None,
        disc: None,
        date: None,
        genre: None,
        composer: None,
        comment: None,
    }
}

/// The texts of a tag.
#[tactic(auto, unfolding(crate::specs::Texts::texts_in))]
fn tag_texts(alloc: Global, tag: Tag<'_>) -> Result<Id3Texts, AllocError>
    ensures { IfOk result (λ texts. texts ≡ texts_in (tag_data tag.entry)) }
{
    Ok(Id3Texts {
        title: plain_text(alloc, tag, b"TT2", b"TIT2")?,
        artist: plain_text(alloc, tag, b"TP1", b"TPE1")?,
        album: plain_text(alloc, tag, b"TAL", b"TALB")?,
        album_artist: plain_text(alloc, tag, b"TP2", b"TPE2")?,
        track: plain_text(alloc, tag, b"TRK", b"TRCK")?,
        disc: plain_text(alloc, tag, b"TPA", b"TPOS")?,
        date: date_of(alloc, tag)?,
        genre: plain_text(alloc, tag, b"TCO", b"TCON")?,
        composer: plain_text(alloc, tag, b"TCM", b"TCOM")?,
        comment: comment_of(alloc, tag)?,
    })
}

/// The texts that the ID3v2 tag in the content of a chunk gives. There are none where the content is no such
/// tag, or one that is skipped. The only error is a lack of memory.
#[tactic(auto, unfolding(crate::specs::Texts::id3_texts))]
pub fn texts_of(alloc: Global, chunk: &[u8]) -> Result<Id3Texts, AllocError>
    ensures { IfOk result (λ texts. texts ≡ id3_texts chunk.now) }
{
    match tag_in(chunk) {
        Some(tag) => tag_texts(alloc, tag),
        None => Ok(no_texts()),
    }
}

/// The law that no byte after a tag counts: the first ten bytes of a chunk say how many bytes, from its start,
/// are enough.
pub fn bytes_after_the_tag_do_not_matter()
    ensures { (chunk : List ℕ) (n : ℕ) → tag_len (take 10 chunk) ≤ n → id3_texts (take n chunk) ≡ id3_texts chunk }
{}
