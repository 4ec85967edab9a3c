//! All that is looked at on a shelf of any kind.

use crate::calls::follow;
use crate::{playlist_stickers, playlists, stickers};
use shelf::Shelf;
use std::alloc::Global;
use std::test::Fail;

/// What is looked at.
#[derive(Clone, Copy)]
pub enum Case {
    ListIsKept,
    RefusalsInOrder,
    NamesRise,
    LongNamesTaken,
    LongNamesRefused,
    LongUris,
    LongestList,
    StickerIsKept,
    StickersRise,
    AnyText,
    LongStickers,
    PlaylistStickers,
    MissingListFirst,
    KindsApart,
    StickersRenamed,
    StickersRemoved,
}

/// Each of them.
pub const CASES: [Case; 16] = [
    Case::ListIsKept,
    Case::RefusalsInOrder,
    Case::NamesRise,
    Case::LongNamesTaken,
    Case::LongNamesRefused,
    Case::LongUris,
    Case::LongestList,
    Case::StickerIsKept,
    Case::StickersRise,
    Case::AnyText,
    Case::LongStickers,
    Case::PlaylistStickers,
    Case::MissingListFirst,
    Case::KindsApart,
    Case::StickersRenamed,
    Case::StickersRemoved,
];

/// Looks at an empty shelf, and fails where it answers otherwise.
pub fn look_at<S: Shelf>(alloc: Global, shelf: &mut S, case: Case) -> Result<(), Fail> {
    let steps = match case {
        Case::LongNamesTaken => return playlists::names_of_255_bytes_are_taken(alloc, shelf),
        Case::LongNamesRefused => return playlists::names_of_256_bytes_are_refused(alloc, shelf),
        Case::LongUris => return playlists::long_uris_come_back(alloc, shelf),
        Case::LongestList => return playlists::the_longest_list_is_kept(alloc, shelf),
        Case::LongStickers => return stickers::long_stickers_come_back(alloc, shelf),
        Case::ListIsKept => playlists::KEPT_AND_RENAMED,
        Case::RefusalsInOrder => playlists::REFUSALS,
        Case::NamesRise => playlists::NAMES,
        Case::StickerIsKept => stickers::KEPT,
        Case::StickersRise => stickers::RISING,
        Case::AnyText => stickers::ANY_TEXT,
        Case::PlaylistStickers => playlist_stickers::KEPT,
        Case::MissingListFirst => playlist_stickers::REFUSALS,
        Case::KindsApart => playlist_stickers::APART,
        Case::StickersRenamed => playlist_stickers::RENAMED,
        Case::StickersRemoved => playlist_stickers::REMOVED,
    };
    follow(alloc, shelf, steps)
}
