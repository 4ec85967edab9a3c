//! What a shelf of any kind answers about stickers of stored playlists.

use crate::calls::{Call, Step};
use shelf::StickerKind::{Playlist, Song};

/// A playlist's stickers are set, read, found, listed and deleted, and stay where its URIs are replaced.
pub const KEPT: &[Step<'_>] = &[
    (Call::Create("x", &["s.wav"]), "ok"),
    (Call::SetSticker(Playlist, "x", "r", "1"), "ok"),
    (Call::SetSticker(Playlist, "x", "Z", "4"), "ok"),
    (Call::SetSticker(Playlist, "x", "r", "5"), "ok"),
    (Call::Sticker(Playlist, "x", "r"), "5|"),
    (Call::Create("B", &[]), "ok"),
    (Call::SetSticker(Playlist, "B", "r", "3"), "ok"),
    (Call::FindStickers(Playlist, "r"), "B=3|x=5|"),
    (Call::Put("x", &["t.wav"]), "ok"),
    (Call::StickersOf(Playlist, "x"), "Z=4|r=5|"),
    (Call::DeleteSticker(Playlist, "x", "r"), "ok"),
    (Call::Sticker(Playlist, "x", "r"), "no sticker"),
    (Call::StickersOf(Playlist, "x"), "Z=4|"),
    (Call::DeleteStickers(Playlist, "x"), "ok"),
    (Call::StickersOf(Playlist, "x"), ""),
    (Call::FindStickers(Playlist, "r"), "B=3|"),
    (Call::List("x"), "t.wav|"),
];

/// A missing list comes before a bad name of a sticker, and both before a missing sticker.
pub const REFUSALS: &[Step<'_>] = &[
    (Call::SetSticker(Playlist, "x", "", "5"), "no such list"),
    (Call::Sticker(Playlist, "x", "r"), "no such list"),
    (Call::DeleteSticker(Playlist, "x", "r"), "no such list"),
    (Call::DeleteStickers(Playlist, "x"), "no such list"),
    (Call::StickersOf(Playlist, "x"), "no such list"),
    (Call::FindStickers(Playlist, "r"), ""),
    (Call::Create("x", &[]), "ok"),
    (Call::SetSticker(Playlist, "x", "", "5"), "bad name"),
    (Call::SetSticker(Playlist, "x", "r=", "5"), "bad name"),
    (Call::Sticker(Playlist, "x", "r="), "no sticker"),
    (Call::DeleteSticker(Playlist, "x", "r"), "no sticker"),
    (Call::DeleteStickers(Playlist, "x"), "no sticker"),
    (Call::StickersOf(Playlist, "x"), ""),
];

/// A song and a playlist of one name have stickers of their own.
pub const APART: &[Step<'_>] = &[
    (Call::Create("x", &["s.wav"]), "ok"),
    (Call::SetSticker(Song, "x", "r", "1"), "ok"),
    (Call::Sticker(Playlist, "x", "r"), "no sticker"),
    (Call::StickersOf(Playlist, "x"), ""),
    (Call::FindStickers(Playlist, "r"), ""),
    (Call::DeleteSticker(Playlist, "x", "r"), "no sticker"),
    (Call::DeleteStickers(Playlist, "x"), "no sticker"),
    (Call::SetSticker(Playlist, "x", "q", "2"), "ok"),
    (Call::SetSticker(Playlist, "x", "r", "3"), "ok"),
    (Call::Sticker(Song, "x", "q"), "no sticker"),
    (Call::Sticker(Song, "x", "r"), "1|"),
    (Call::StickersOf(Song, "x"), "r=1|"),
    (Call::FindStickers(Song, "q"), ""),
    (Call::DeleteSticker(Song, "x", "q"), "no sticker"),
    (Call::DeleteStickers(Song, "x"), "ok"),
    (Call::StickersOf(Playlist, "x"), "q=2|r=3|"),
];

/// A rename takes the stickers along, and leaves none for a new list of the old name.
pub const RENAMED: &[Step<'_>] = &[
    (Call::Create("x", &["s.wav"]), "ok"),
    (Call::SetSticker(Playlist, "x", "r", "5"), "ok"),
    (Call::SetSticker(Playlist, "x", "q", "6"), "ok"),
    (Call::SetSticker(Song, "x", "r", "1"), "ok"),
    (Call::Rename("x", "y"), "ok"),
    (Call::StickersOf(Playlist, "y"), "q=6|r=5|"),
    (Call::StickersOf(Playlist, "x"), "no such list"),
    (Call::FindStickers(Playlist, "r"), "y=5|"),
    (Call::StickersOf(Song, "x"), "r=1|"),
    (Call::StickersOf(Song, "y"), ""),
    (Call::Create("x", &[]), "ok"),
    (Call::StickersOf(Playlist, "x"), ""),
    (Call::Rename("y", "x"), "exists"),
    (Call::StickersOf(Playlist, "y"), "q=6|r=5|"),
    (Call::Rename("x", "z"), "ok"),
    (Call::StickersOf(Playlist, "z"), ""),
];

/// A list that is removed takes its stickers away: a new one of its name has none.
pub const REMOVED: &[Step<'_>] = &[
    (Call::Create("x", &["s.wav"]), "ok"),
    (Call::Create("y", &["s.wav"]), "ok"),
    (Call::SetSticker(Playlist, "x", "r", "5"), "ok"),
    (Call::SetSticker(Playlist, "y", "r", "6"), "ok"),
    (Call::SetSticker(Song, "x", "r", "1"), "ok"),
    (Call::Remove("x"), "ok"),
    (Call::Sticker(Playlist, "x", "r"), "no such list"),
    (Call::FindStickers(Playlist, "r"), "y=6|"),
    (Call::Create("x", &["s.wav"]), "ok"),
    (Call::Sticker(Playlist, "x", "r"), "no sticker"),
    (Call::StickersOf(Playlist, "x"), ""),
    (Call::Sticker(Song, "x", "r"), "1|"),
];
