//! What a shelf of any kind answers about stickers of songs.

use crate::calls::{Call, Step, follow};
use shelf::Shelf;
use shelf::StickerKind::Song;
use std::alloc::Global;
use std::test::Fail;

/// A sticker is set, read, found, and missed where it is not there.
pub const KEPT: &[Step<'_>] = &[
    (Call::SetSticker(Song, "a.wav", "r", "5"), "ok"),
    (Call::Sticker(Song, "a.wav", "r"), "5|"),
    (Call::FindStickers(Song, "r"), "a.wav=5|"),
    (Call::DeleteSticker(Song, "a.wav", "q"), "no sticker"),
    (Call::DeleteSticker(Song, "b.wav", "r"), "no sticker"),
    (Call::DeleteSticker(Song, "a.wav", "r"), "ok"),
    (Call::Sticker(Song, "a.wav", "r"), "no sticker"),
    (Call::DeleteStickers(Song, "a.wav"), "no sticker"),
];

/// Stickers are listed by bytes, of one URI or of one name, and all of a URI go together.
pub const RISING: &[Step<'_>] = &[
    (Call::SetSticker(Song, "b.wav", "r", "1"), "ok"),
    (Call::SetSticker(Song, "é.wav", "r", "2"), "ok"),
    (Call::SetSticker(Song, "B.wav", "r", "3"), "ok"),
    (Call::SetSticker(Song, "b.wav", "Z", "4"), "ok"),
    (Call::SetSticker(Song, "b.wav", "r", "5"), "ok"),
    (Call::FindStickers(Song, "r"), "B.wav=3|b.wav=5|é.wav=2|"),
    (Call::StickersOf(Song, "b.wav"), "Z=4|r=5|"),
    (Call::DeleteStickers(Song, "b.wav"), "ok"),
    (Call::StickersOf(Song, "b.wav"), ""),
    (Call::FindStickers(Song, "r"), "B.wav=3|é.wav=2|"),
];

/// Control bytes, a zero byte among them, quotes and letters of other scripts come back as they were put; a
/// name that is empty or has `=` is refused.
pub const ANY_TEXT: &[Step<'_>] = &[
    (
        Call::SetSticker(Song, "a\u{0}\n'\".wav", "\u{0}n\u{1}", "v\u{0}\u{1f}\n'\"%"),
        "ok",
    ),
    (Call::SetSticker(Song, "a", "n", "\u{0}"), "ok"),
    (Call::SetSticker(Song, "a", "n\u{0}", "\u{0}\u{0}v"), "ok"),
    (
        Call::SetSticker(Song, "'; DROP TABLE sticker; --", "\"name\"", "it''s"),
        "ok",
    ),
    (Call::SetSticker(Song, "?1", ":name", ""), "ok"),
    (
        Call::SetSticker(Song, "", "音楽", "Ωμέγα \u{301}\u{feff} 🎵"),
        "ok",
    ),
    (
        Call::Sticker(Song, "a\u{0}\n'\".wav", "\u{0}n\u{1}"),
        "v\u{0}\u{1f}\n'\"%|",
    ),
    (Call::Sticker(Song, "a", "n"), "\u{0}|"),
    (Call::Sticker(Song, "a", "n\u{0}"), "\u{0}\u{0}v|"),
    (
        Call::Sticker(Song, "'; DROP TABLE sticker; --", "\"name\""),
        "it''s|",
    ),
    (Call::Sticker(Song, "?1", ":name"), "|"),
    (Call::Sticker(Song, "", "音楽"), "Ωμέγα \u{301}\u{feff} 🎵|"),
    (Call::StickersOf(Song, "a"), "n=\u{0}|n\u{0}=\u{0}\u{0}v|"),
    (Call::FindStickers(Song, "音楽"), "=Ωμέγα \u{301}\u{feff} 🎵|"),
    (Call::Sticker(Song, "a", "\u{0}n\u{1}"), "no sticker"),
    (Call::SetSticker(Song, "a.wav", "", "5"), "bad name"),
    (Call::SetSticker(Song, "a.wav", "r=", "5"), "bad name"),
    (Call::SetSticker(Song, "a.wav", "=", "5"), "bad name"),
];

/// A sticker of this text comes back from each call that shows it.
fn comes_back<'x, S: Shelf>(
    alloc: Global,
    shelf: &mut S,
    uri: &'x str,
    name: &'x str,
    value: &'x str,
) -> Result<(), Fail> {
    let shown = format!(in alloc; "{value}|")?;
    let of_name = format!(in alloc; "{uri}={value}|")?;
    let of_uri = format!(in alloc; "{name}={value}|")?;
    follow(
        alloc,
        shelf,
        &[
            (Call::SetSticker(Song, uri, name, value), "ok"),
            (Call::Sticker(Song, uri, name), shown.as_str()),
            (Call::FindStickers(Song, name), of_name.as_str()),
            (Call::StickersOf(Song, uri), of_uri.as_str()),
        ],
    )
}

/// A URI of 1,024 bytes, a name of 1,024 bytes and texts of 4,096 bytes, of one more and of a million come
/// back from each call that shows a sticker; then it is deleted.
pub fn long_stickers_come_back<S: Shelf>(alloc: Global, shelf: &mut S) -> Result<(), Fail> {
    let uri = "u".repeat(alloc, 1_024)?;
    let name = "n".repeat(alloc, 1_024)?;
    let (uri, name) = (uri.as_str(), name.as_str());
    for bytes in &[4_096usize, 4_097, 1_000_000] {
        let value = "v".repeat(alloc, *bytes)?;
        comes_back(alloc, shelf, uri, name, value.as_str())?;
    }
    follow(
        alloc,
        shelf,
        &[
            (Call::DeleteSticker(Song, uri, name), "ok"),
            (Call::StickersOf(Song, uri), ""),
        ],
    )
}
