//! The text that follows a frame's byte of encoding.
ghost use Rattle.std.specs.Prelude.{◌≡◌, ◌==◌, Some, None, MatchOption, IfOk};
ghost use Rattle.std.specs.Option.{option_map};
ghost use Rattle.std.specs.Str.{encode_utf8_all};
ghost use Rattle.id3_tags.specs.Encodings.{encoding_of, utf8_in, characters, after_zero_byte, after_zero_unit, after_empty, counts, text_in};
ghost use Rattle.id3_tags.specs.Texts.{text_after, content_text};

use crate::tag::from_offset;
use crate::utf16::{ByteOrder, after_mark, order_in, utf16_in};
use mpd_text::{Text, has_no_control, up_to_zero};
use std::alloc::{AllocError, Global};
use std::str;

/// The greatest length of a text, in bytes of UTF-8. A longer text is skipped.
const MAX_TEXT: usize = 1_024;

/// How the characters of a text are spelled.
#[derive(Clone, Copy)]
pub(crate) enum Encoding {
    /// ISO-8859-1.
    Latin1,
    /// UTF-16 whose byte order a mark at the start says.
    Utf16,
    /// UTF-16 with the high byte first, and no mark.
    Utf16Be,
    Utf8,
}

/// What follows a frame's byte of encoding.
#[derive(Clone, Copy)]
pub(crate) enum Kind {
    /// A text.
    Plain,
    /// A language, a description and a text.
    Comment,
}

fn encoding_of(number: u8) -> Option<Encoding>
    ensures { result ≡ encoding_of number }
{
    match number {
        0 => Some(Encoding::Latin1),
        1 => Some(Encoding::Utf16),
        2 => Some(Encoding::Utf16Be),
        3 => Some(Encoding::Utf8),
        _ => None,
    }
}

/// The text whose characters have these bytes as their codes.
fn latin1_in(alloc: Global, bytes: &[u8]) -> Result<Text, AllocError>
    ensures { IfOk result (λ text. text ≡ encode_utf8_all bytes.now) }
{
    let mut text = String::new(alloc);
    for byte in bytes {
        text.push(char::from(*byte))?;
    }
    Ok(Text::of(text))
}

fn utf8_in(alloc: Global, bytes: &[u8]) -> Result<Option<Text>, AllocError>
    ensures { IfOk result (λ text. text ≡ option_map encode_utf8_all (utf8_in bytes.now)) }
{
    match str::from_utf8(bytes) {
        Ok(text) => Ok(Some(Text::new(alloc, text)?)),
        Err(_) => Ok(None),
    }
}

/// The text up to its first zero character, if it is well formed.
#[tactic(auto, unfolding(crate::specs::Encodings::characters))]
fn characters(alloc: Global, encoding: Encoding, bytes: &[u8]) -> Result<Option<Text>, AllocError>
    ensures { IfOk result (λ text. text ≡ option_map encode_utf8_all (characters encoding bytes.now)) }
{
    match encoding {
        Encoding::Latin1 => Ok(Some(latin1_in(alloc, up_to_zero(bytes))?)),
        Encoding::Utf16 => utf16_in(alloc, order_in(bytes), after_mark(bytes)),
        Encoding::Utf16Be => utf16_in(alloc, ByteOrder::Big, bytes),
        Encoding::Utf8 => utf8_in(alloc, up_to_zero(bytes)),
    }
}

/// Whether a text is not skipped.
fn counts(text: &str) -> bool
    ensures { result ≡ counts text.now }
{
    let bytes = text.as_bytes();
    !bytes.is_empty() && bytes.len() <= MAX_TEXT && has_no_control(bytes)
}

/// The text, if it is well formed and not skipped.
#[tactic(auto, unfolding(crate::specs::Encodings::text_in))]
fn text_in(alloc: Global, encoding: Encoding, bytes: &[u8]) -> Result<Option<Text>, AllocError>
    ensures { IfOk result (λ text. text ≡ text_in encoding bytes.now) }
{
    let Some(text) = characters(alloc, encoding, bytes)? else {
        return Ok(None);
    };
    if !counts(text.as_str()) {
        return Ok(None);
    }
    Ok(Some(text))
}

fn after_zero_byte(bytes: &[u8]) -> Option<&[u8]>
    ensures { MatchOption result (after_zero_byte bytes.now ≡ None)
        (λ rest. after_zero_byte bytes.now ≡ Some rest.now) }
{
    if bytes.starts_with(&[0]) {
        return Some(from_offset(bytes, 1));
    }
    None
}

fn after_zero_unit(bytes: &[u8]) -> Option<&[u8]>
    ensures { MatchOption result (after_zero_unit bytes.now ≡ None)
        (λ rest. after_zero_unit bytes.now ≡ Some rest.now) }
{
    if bytes.starts_with(&[0, 0]) {
        return Some(from_offset(bytes, 2));
    }
    None
}

/// The bytes after a description that is empty.
#[tactic(auto, unfolding(crate::specs::Encodings::after_empty))]
fn after_empty(encoding: Encoding, bytes: &[u8]) -> Option<&[u8]>
    ensures { MatchOption result (after_empty encoding bytes.now ≡ None)
        (λ rest. after_empty encoding bytes.now ≡ Some rest.now) }
{
    match encoding {
        Encoding::Latin1 | Encoding::Utf8 => after_zero_byte(bytes),
        Encoding::Utf16 => after_zero_unit(after_mark(bytes)),
        Encoding::Utf16Be => after_zero_unit(bytes),
    }
}

/// The text of a comment, if its description is empty.
fn comment_in(alloc: Global, encoding: Encoding, bytes: &[u8]) -> Result<Option<Text>, AllocError>
    ensures { IfOk result (λ text. text ≡ text_after Kind.Comment encoding bytes.now) }
{
    match after_empty(encoding, from_offset(bytes, 3)) {
        Some(rest) => text_in(alloc, encoding, rest),
        None => Ok(None),
    }
}

/// The text in the content of a frame, if it is not skipped.
#[tactic(auto, unfolding(crate::specs::Texts::content_text))]
pub(crate) fn content_text(
    alloc: Global,
    kind: Kind,
    content: &[u8],
) -> Result<Option<Text>, AllocError>
    ensures { IfOk result (λ text. text ≡ content_text kind content.now) }
{
    let [number, bytes @ ..] = content else {
        return Ok(None);
    };
    let Some(encoding) = encoding_of(*number) else {
        return Ok(None);
    };
    match kind {
        Kind::Plain => text_in(alloc, encoding, bytes),
        Kind::Comment => comment_in(alloc, encoding, bytes),
    }
}
