//! What stickers are of.

/// What a sticker is of (MPD protocol reference, Stickers; that playlists have some is this profile's).
#[derive(Clone, Copy, PartialEq, Eq)]
pub enum StickerKind {
    /// A song, by its URI.
    Song,
    /// A stored playlist, by its name.
    Playlist,
}
