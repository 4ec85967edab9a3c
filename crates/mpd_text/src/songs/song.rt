//! Songs of the library (MPD protocol reference, The music database and Tags).
ghost use Rattle.std.specs.Prelude.{◌≡◌, ◌↔◌, IfSome, IsNone, Contains};
ghost use Rattle.std.specs.String.{string_bytes};

use std::marker::Model;

/// The tags that a song may have, in the order in which answers show them (MPD protocol reference, Tags). The
/// base profile has the first six alone.
#[derive(Clone, Copy, Debug, PartialEq, Eq)]
pub enum TagName {
    /// Shown as `Title`.
    Title,
    /// Shown as `Artist`.
    Artist,
    /// Shown as `Album`.
    Album,
    /// Shown as `Date`.
    Date,
    /// Shown as `Genre`.
    Genre,
    /// Shown as `Comment`.
    Comment,
    /// Shown as `AlbumArtist`.
    AlbumArtist,
    /// Shown as `Track`.
    Track,
    /// Shown as `Disc`.
    Disc,
    /// Shown as `Composer`.
    Composer,
}

/// A tag with its text. A clause sees the pair of them.
pub struct Tag {
    name: TagName,
    text: String,
}

// Written out, so that a proof goes through one call where it lets one go (docs/DECISIONS.md).
impl Drop for Tag {
    fn drop(self) {
        let Tag { name: _, text: _ } = self;
    }
}

impl Model for Tag {
    ghost use Rattle.std.specs.String.{string_bytes};
    ghost use Rattle.mpd_text.specs.Songs.Song.{TagData};

    ghost Value = { TagData };

    ghost view = { λ t. record { name = t.name; text = string_bytes t.text } };
}

impl Tag {
    /// A tag with this text.
    pub fn new(name: TagName, text: String) -> Tag
        ensures { result ≡ record { name = name; text = string_bytes text } }
    {
        Tag { name, text }
    }

    /// Which tag it is.
    pub fn name(&self) -> TagName
        ensures { result ≡ self.now.name }
    {
        self.name
    }

    /// Its text.
    pub fn text(&self) -> &str
        ensures { result.now ≡ self.now.text }
    {
        self.text.as_str()
    }
}

/// A song: where it lies in the library, its tags in order, and its length in frames. A clause sees these
/// three. The URI of a song holds no newline, so that an answer can show it on a line.
pub struct Song {
    uri: String,
    tags: Vec<Tag>,
    frames: u64,
}

// Written out, so that a proof goes through one call where it lets one go (docs/DECISIONS.md).
impl Drop for Song {
    fn drop(self) {
        let Song {
            uri: _,
            tags: _,
            frames: _,
        } = self;
    }
}

impl Model for Song {
    ghost use Rattle.std.specs.Prelude.{◌≡◌, Contains};
    ghost use Rattle.std.specs.String.{string_bytes};
    ghost use Rattle.mpd_text.specs.Songs.Song.{SongData};
    ghost use Rattle.mpd_text.specs.Lines.Cut.{HasNoNewline};

    ghost Value = { SongData };

    ghost view = { λ s. record { uri = string_bytes s.uri; tags = s.tags.items; frames = s.frames } };

    ghost invariant = { λ s. HasNoNewline (string_bytes s.uri) };
}

impl Song {
    ghost use Rattle.mpd_text.specs.Lines.Cut.{HasNoNewline};
    ghost use Rattle.mpd_text.specs.Songs.Song.{song_data};

    /// A song of these, or `None` where the URI holds a newline. Takes no memory.
    pub fn new(uri: String, tags: Vec<Tag>, frames: u64) -> Option<Song>
        ensures song { IfSome result (λ song. song ≡ song_data (string_bytes uri) tags.items frames) }
        ensures newline { IsNone result ↔ Contains (string_bytes uri) 10 }
    {
        if uri.as_bytes().contains(&b'\n') {
            return None;
        }
        Some(Song { uri, tags, frames })
    }

    /// Where the song lies: folders and file, with `/` between them, and no newline.
    pub fn uri(&self) -> &str
        ensures uri { result.now ≡ self.now.uri }
        ensures no_newline { HasNoNewline result.now }
    {
        self.uri.as_str()
    }

    /// Its tags, in the order that was given.
    pub fn tags(&self) -> &[Tag]
        ensures { result.now ≡ self.now.tags }
    {
        self.tags.as_slice()
    }

    /// Its length in frames: samples of each channel.
    pub fn frames(&self) -> u64
        ensures { result ≡ self.now.frames }
    {
        self.frames
    }
}
