//! The names of the items of lists, and the texts that they hold.
ghost use Rattle.std.specs.Prelude.{◌≡◌, false, IfOk, MatchOption};
ghost use Rattle.wave.specs.Texts.{counts, CountsAs};
ghost use Rattle.wave.specs.Everyday.{spelled, everyday_text};
ghost use Rattle.wave.specs.Found.{IsBaseText, IsNameOf, text_in};

use id3_tags::windows_1252;
use mpd_text::{Text, has_no_control, up_to_zero};
use std::alloc::{AllocError, Global};
use std::str;

/// The greatest length of a text, in bytes. A longer text is skipped.
pub const MAX_TEXT: usize = 1_024;

/// The names of the items of lists that hold texts of tags.
#[derive(Clone, Copy)]
pub(crate) enum ItemName {
    /// `INAM`, a title.
    Inam,
    /// `IART`, an artist.
    Iart,
    /// `IPRD`, an album.
    Iprd,
    /// `ICRD`, a date.
    Icrd,
    /// `IGNR`, a genre.
    Ignr,
    /// `ICMT`, a comment.
    Icmt,
    /// `ITRK`, the number of a track. The everyday profile alone has it, and those that follow.
    Itrk,
    /// `IPRT`, the number of a track where there is no `ITRK`.
    Iprt,
    /// `IMUS`, a composer.
    Imus,
}

/// The name that these bytes are.
pub(crate) fn name_of(bytes: [u8; 4]) -> Option<ItemName>
    ensures { IsNameOf bytes result }
{
    if bytes == *b"INAM" {
        return Some(ItemName::Inam);
    }
    if bytes == *b"IART" {
        return Some(ItemName::Iart);
    }
    if bytes == *b"IPRD" {
        return Some(ItemName::Iprd);
    }
    if bytes == *b"ICRD" {
        return Some(ItemName::Icrd);
    }
    if bytes == *b"IGNR" {
        return Some(ItemName::Ignr);
    }
    if bytes == *b"ICMT" {
        return Some(ItemName::Icmt);
    }
    if bytes == *b"ITRK" {
        return Some(ItemName::Itrk);
    }
    if bytes == *b"IPRT" {
        return Some(ItemName::Iprt);
    }
    if bytes == *b"IMUS" {
        return Some(ItemName::Imus);
    }
    None
}

/// The text of these bytes, if it is not skipped.
fn counted(bytes: &[u8]) -> Option<&str>
    ensures { MatchOption result (counts bytes.now ≡ false) (λ text. CountsAs bytes.now text.now) }
{
    if bytes.is_empty() || bytes.len() > MAX_TEXT || !has_no_control(bytes) {
        return None;
    }
    match str::from_utf8(bytes) {
        Ok(text) => Some(text),
        Err(_) => None,
    }
}

/// The text of a content in the base profile, if it is not skipped.
fn base_text(content: &[u8]) -> Option<&str>
    ensures { IsBaseText content.now result }
{
    counted(up_to_zero(content))
}

/// The text that bytes spell in UTF-8, or else in Windows-1252.
fn spelled(alloc: Global, bytes: &[u8]) -> Result<Option<Text>, AllocError>
    ensures { IfOk result (λ text. text ≡ spelled bytes.now) }
{
    match str::from_utf8(bytes) {
        Ok(text) => Ok(Some(Text::new(alloc, text)?)),
        Err(_) => windows_1252(alloc, bytes),
    }
}

/// The text of a content in the everyday profile, if it is not skipped.
#[tactic(auto, unfolding(crate::specs::Everyday::everyday_text))]
fn everyday_text(alloc: Global, content: &[u8]) -> Result<Option<Text>, AllocError>
    ensures { IfOk result (λ text. text ≡ everyday_text content.now) }
{
    let Some(text) = spelled(alloc, up_to_zero(content))? else {
        return Ok(None);
    };
    if counted(text.as_str().as_bytes()).is_none() {
        return Ok(None);
    }
    Ok(Some(text))
}

/// The text of a content, if it is not skipped.
pub(crate) fn text_in(
    alloc: Global,
    content: &[u8],
    everyday: bool,
) -> Result<Option<Text>, AllocError>
    ensures { IfOk result (λ text. text ≡ text_in everyday content.now) }
{
    if everyday {
        return everyday_text(alloc, content);
    }
    match base_text(content) {
        Some(text) => Ok(Some(Text::new(alloc, text)?)),
        None => Ok(None),
    }
}
