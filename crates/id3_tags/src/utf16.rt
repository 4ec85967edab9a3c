//! Texts in UTF-16.
ghost use Rattle.std.specs.Prelude.{◌≡◌, Some, None, MatchOption, IfOk};
ghost use Rattle.std.specs.Option.{option_map};
ghost use Rattle.std.specs.Str.{encode_utf8_all};
ghost use Rattle.id3_tags.specs.Encodings.{unit_of, units_in, utf16_in, order_in, after_mark, is_little, is_big};

use crate::tag::from_offset;
use mpd_text::Text;
use std::alloc::{AllocError, Global};

/// Which byte of a unit comes first: the high one (big-endian) or the low one.
#[derive(Clone, Copy)]
pub(crate) enum ByteOrder {
    Big,
    Little,
}

fn unit_of(order: ByteOrder, first: u8, second: u8) -> u16
    ensures { result ≡ unit_of order first second }
{
    match order {
        ByteOrder::Big => u16::from(first) * 256 + u16::from(second),
        ByteOrder::Little => u16::from(second) * 256 + u16::from(first),
    }
}

/// The units up to the first zero unit, unless the bytes end within a unit before that.
fn units_in(alloc: Global, order: ByteOrder, bytes: &[u8]) -> Result<Option<Vec<u16>>, AllocError>
    ensures { IfOk result (λ found. MatchOption found (units_in order bytes.now ≡ None)
        (λ units. units_in order bytes.now ≡ Some units.items)) }
{
    let mut units = Vec::new(alloc);
    let mut rest = bytes;
    while let [first, second, after @ ..] = rest {
        let unit = unit_of(order, *first, *second);
        if unit == 0 {
            return Ok(Some(units));
        }
        units.push(unit)?;
        rest = after;
    }
    if rest.is_empty() {
        return Ok(Some(units));
    }
    Ok(None)
}

/// The text of units of two bytes, up to the first zero unit, if it is well formed.
pub(crate) fn utf16_in(
    alloc: Global,
    order: ByteOrder,
    bytes: &[u8],
) -> Result<Option<Text>, AllocError>
    ensures { IfOk result (λ text. text ≡ option_map encode_utf8_all (utf16_in order bytes.now)) }
{
    let Some(units) = units_in(alloc, order, bytes)? else {
        return Ok(None);
    };
    match String::from_utf16(alloc, &units)? {
        Ok(string) => Ok(Some(Text::of(string))),
        Err(_) => Ok(None),
    }
}

fn is_little(bytes: &[u8]) -> bool
    ensures { result ≡ is_little bytes.now }
{
    bytes.starts_with(&[0xFF, 0xFE])
}

fn is_big(bytes: &[u8]) -> bool
    ensures { result ≡ is_big bytes.now }
{
    bytes.starts_with(&[0xFE, 0xFF])
}

/// The byte order that a mark at the start says, which is big-endian where there is none.
pub(crate) fn order_in(bytes: &[u8]) -> ByteOrder
    ensures { result ≡ order_in bytes.now }
{
    if is_little(bytes) {
        ByteOrder::Little
    } else {
        ByteOrder::Big
    }
}

/// The bytes after the byte order mark at the start, if there is one.
pub(crate) fn after_mark(bytes: &[u8]) -> &[u8]
    ensures { result.now ≡ after_mark bytes.now }
{
    if is_little(bytes) || is_big(bytes) {
        return from_offset(bytes, 2);
    }
    bytes
}
