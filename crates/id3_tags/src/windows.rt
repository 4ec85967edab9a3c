//! Texts in Windows-1252.
ghost use Rattle.std.specs.Prelude.{◌≡◌, IfOk};
ghost use Rattle.id3_tags.specs.Windows.{windows_1252_char, windows_1252};

use mpd_text::Text;
use std::alloc::{AllocError, Global};

/// The characters of the bytes 0x80 to 0x9F, and U+0000 where a byte has none.
const HIGH_CHARACTERS: [char; 32] = [
    '\u{20AC}', '\0', '\u{201A}', '\u{192}', '\u{201E}', '\u{2026}', '\u{2020}', '\u{2021}',
    '\u{2C6}', '\u{2030}', '\u{160}', '\u{2039}', '\u{152}', '\0', '\u{17D}', '\0', '\0',
    '\u{2018}', '\u{2019}', '\u{201C}', '\u{201D}', '\u{2022}', '\u{2013}', '\u{2014}', '\u{2DC}',
    '\u{2122}', '\u{161}', '\u{203A}', '\u{153}', '\0', '\u{17E}', '\u{178}',
];

/// The character of a byte, if it has one.
fn windows_1252_char(byte: u8) -> Option<char>
    ensures { result ≡ windows_1252_char byte }
{
    if byte < 0x80 || byte >= 0xA0 {
        return Some(char::from(byte));
    }
    match HIGH_CHARACTERS[usize::from(byte - 0x80)] {
        '\0' => None,
        code => Some(code),
    }
}

/// The text that bytes spell in Windows-1252. There is none where one of them has no character there: 0x81,
/// 0x8D, 0x8F, 0x90 or 0x9D. The only error is a lack of memory.
pub fn windows_1252(alloc: Global, bytes: &[u8]) -> Result<Option<Text>, AllocError>
    ensures { IfOk result (λ text. text ≡ windows_1252 bytes.now) }
{
    let mut text = String::new(alloc);
    for byte in bytes {
        match windows_1252_char(*byte) {
            Some(code) => text.push(code)?,
            None => return Ok(None),
        }
    }
    Ok(Some(Text::of(text)))
}
