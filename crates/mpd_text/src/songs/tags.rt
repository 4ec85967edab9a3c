//! The tags in their order, and the names that they are shown by (MPD protocol reference, Tags).
ghost use Rattle.std.specs.Prelude.{◌≡◌};
ghost use Rattle.mpd_text.specs.Songs.Tags.{tag_text, text_or, text_of_tag as text_of_tag_lem};

use crate::songs::{Tag, TagName};

/// All tags, in the order in which answers show them.
pub const TAG_NAMES: [TagName; 10] = [
    TagName::Title,
    TagName::Artist,
    TagName::Album,
    TagName::Date,
    TagName::Genre,
    TagName::Comment,
    TagName::AlbumArtist,
    TagName::Track,
    TagName::Disc,
    TagName::Composer,
];

/// The tags of the base profile, in the same order.
pub const BASE_TAG_NAMES: [TagName; 6] = [
    TagName::Title,
    TagName::Artist,
    TagName::Album,
    TagName::Date,
    TagName::Genre,
    TagName::Comment,
];

impl TagName {
    /// The name that the tag is shown by.
    pub fn text(self) -> &'static str
        ensures { result.now ≡ tag_text self }
    {
        match self {
            TagName::Title => "Title",
            TagName::Artist => "Artist",
            TagName::Album => "Album",
            TagName::Date => "Date",
            TagName::Genre => "Genre",
            TagName::Comment => "Comment",
            TagName::AlbumArtist => "AlbumArtist",
            TagName::Track => "Track",
            TagName::Disc => "Disc",
            TagName::Composer => "Composer",
        }
    }
}

/// The text that a song has of a tag: that of its first tag of the name. Without one it is empty, but the
/// artist of an album is then the artist.
pub fn text_of_tag(tags: &[Tag], name: TagName) -> &str
    ensures { result.now ≡ text_of_tag_lem name tags.now }
{
    match name {
        TagName::AlbumArtist => {
            let artist = text_or(tags, TagName::Artist, "");
            text_or(tags, TagName::AlbumArtist, artist)
        }
        _ => text_or(tags, name, ""),
    }
}

/// The text of the first tag of a name, or another text where there is none.
fn text_or<'a>(tags: &'a [Tag], name: TagName, other: &'a str) -> &'a str
    ensures { result.now ≡ text_or other.now name tags.now }
{
    for tag in tags {
        if tag.name() == name {
            return tag.text();
        }
    }
    other
}
