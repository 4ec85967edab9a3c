//! The names of tags that clients know (MPD protocol reference, Tags).
ghost use Rattle.std.specs.Prelude.{◌≡◌, Some};
ghost use Rattle.std.specs.Str.{str_eq_ignore_ascii_case};
ghost use Rattle.known_tags.specs.KnownTags.{text_of, tag_of, base_of, read_of, named as named_lem, text_in as text_in_lem};

use mpd_text::{Song, TagName, text_of_tag};

/// A tag that clients know, in the order of the reference. Songs have ten of them alone.
#[derive(Clone, Copy, PartialEq, Eq)]
pub enum KnownTag {
    /// Shown as `Artist`.
    Artist,
    /// Shown as `ArtistSort`.
    ArtistSort,
    /// Shown as `Album`.
    Album,
    /// Shown as `AlbumSort`.
    AlbumSort,
    /// Shown as `AlbumArtist`.
    AlbumArtist,
    /// Shown as `AlbumArtistSort`.
    AlbumArtistSort,
    /// Shown as `Title`.
    Title,
    /// Shown as `Track`.
    Track,
    /// Shown as `Name`.
    Name,
    /// Shown as `Genre`.
    Genre,
    /// Shown as `Date`.
    Date,
    /// Shown as `OriginalDate`.
    OriginalDate,
    /// Shown as `Composer`.
    Composer,
    /// Shown as `ComposerSort`.
    ComposerSort,
    /// Shown as `Performer`.
    Performer,
    /// Shown as `Conductor`.
    Conductor,
    /// Shown as `Work`.
    Work,
    /// Shown as `Ensemble`.
    Ensemble,
    /// Shown as `Movement`.
    Movement,
    /// Shown as `MovementNumber`.
    MovementNumber,
    /// Shown as `Location`.
    Location,
    /// Shown as `Grouping`.
    Grouping,
    /// Shown as `Comment`.
    Comment,
    /// Shown as `Disc`.
    Disc,
    /// Shown as `Label`.
    Label,
    /// Shown as `MUSICBRAINZ_ARTISTID`.
    MusicBrainzArtistId,
    /// Shown as `MUSICBRAINZ_ALBUMID`.
    MusicBrainzAlbumId,
    /// Shown as `MUSICBRAINZ_ALBUMARTISTID`.
    MusicBrainzAlbumArtistId,
    /// Shown as `MUSICBRAINZ_TRACKID`.
    MusicBrainzTrackId,
    /// Shown as `MUSICBRAINZ_RELEASETRACKID`.
    MusicBrainzReleaseTrackId,
    /// Shown as `MUSICBRAINZ_WORKID`.
    MusicBrainzWorkId,
}

/// All of them, in the order of the reference.
pub const KNOWN_TAGS: [KnownTag; 31] = [
    KnownTag::Artist,
    KnownTag::ArtistSort,
    KnownTag::Album,
    KnownTag::AlbumSort,
    KnownTag::AlbumArtist,
    KnownTag::AlbumArtistSort,
    KnownTag::Title,
    KnownTag::Track,
    KnownTag::Name,
    KnownTag::Genre,
    KnownTag::Date,
    KnownTag::OriginalDate,
    KnownTag::Composer,
    KnownTag::ComposerSort,
    KnownTag::Performer,
    KnownTag::Conductor,
    KnownTag::Work,
    KnownTag::Ensemble,
    KnownTag::Movement,
    KnownTag::MovementNumber,
    KnownTag::Location,
    KnownTag::Grouping,
    KnownTag::Comment,
    KnownTag::Disc,
    KnownTag::Label,
    KnownTag::MusicBrainzArtistId,
    KnownTag::MusicBrainzAlbumId,
    KnownTag::MusicBrainzAlbumArtistId,
    KnownTag::MusicBrainzTrackId,
    KnownTag::MusicBrainzReleaseTrackId,
    KnownTag::MusicBrainzWorkId,
];

impl KnownTag {
    /// The tag that a word names, if it is one. ASCII case is ignored.
    #[tactic(auto, unfolding(crate::specs::KnownTags::tag_of))]
    pub fn of_word(word: &str) -> Option<KnownTag>
        ensures { result ≡ tag_of word.now }
    {
        first_named(&KNOWN_TAGS, word)
    }

    /// The name as it is shown.
    pub fn text(self) -> &'static str
        ensures { result.now ≡ text_of self }
    {
        match self {
            KnownTag::Artist => "Artist",
            KnownTag::ArtistSort => "ArtistSort",
            KnownTag::Album => "Album",
            KnownTag::AlbumSort => "AlbumSort",
            KnownTag::AlbumArtist => "AlbumArtist",
            KnownTag::AlbumArtistSort => "AlbumArtistSort",
            KnownTag::Title => "Title",
            KnownTag::Track => "Track",
            KnownTag::Name => "Name",
            KnownTag::Genre => "Genre",
            KnownTag::Date => "Date",
            KnownTag::OriginalDate => "OriginalDate",
            KnownTag::Composer => "Composer",
            KnownTag::ComposerSort => "ComposerSort",
            KnownTag::Performer => "Performer",
            KnownTag::Conductor => "Conductor",
            KnownTag::Work => "Work",
            KnownTag::Ensemble => "Ensemble",
            KnownTag::Movement => "Movement",
            KnownTag::MovementNumber => "MovementNumber",
            KnownTag::Location => "Location",
            KnownTag::Grouping => "Grouping",
            KnownTag::Comment => "Comment",
            KnownTag::Disc => "Disc",
            KnownTag::Label => "Label",
            KnownTag::MusicBrainzArtistId => "MUSICBRAINZ_ARTISTID",
            KnownTag::MusicBrainzAlbumId => "MUSICBRAINZ_ALBUMID",
            KnownTag::MusicBrainzAlbumArtistId => "MUSICBRAINZ_ALBUMARTISTID",
            KnownTag::MusicBrainzTrackId => "MUSICBRAINZ_TRACKID",
            KnownTag::MusicBrainzReleaseTrackId => "MUSICBRAINZ_RELEASETRACKID",
            KnownTag::MusicBrainzWorkId => "MUSICBRAINZ_WORKID",
        }
    }

    /// Which of the ten tags of songs it is, if it is one of them.
    pub fn base(self) -> Option<TagName>
        ensures { result ≡ base_of self }
    {
        match self {
            KnownTag::Title => Some(TagName::Title),
            KnownTag::Artist => Some(TagName::Artist),
            KnownTag::Album => Some(TagName::Album),
            KnownTag::Date => Some(TagName::Date),
            KnownTag::Genre => Some(TagName::Genre),
            KnownTag::Comment => Some(TagName::Comment),
            KnownTag::AlbumArtist => Some(TagName::AlbumArtist),
            KnownTag::Track => Some(TagName::Track),
            KnownTag::Disc => Some(TagName::Disc),
            KnownTag::Composer => Some(TagName::Composer),
            _ => None,
        }
    }

    /// Which tag of a song is read for it (this profile's): the artist, the album and the artist of an album
    /// also for the names for sorting by them, and no tag for the others.
    pub fn read_as(self) -> Option<TagName>
        ensures { result ≡ read_of self }
    {
        match self {
            KnownTag::ArtistSort => Some(TagName::Artist),
            KnownTag::AlbumSort => Some(TagName::Album),
            KnownTag::AlbumArtistSort => Some(TagName::AlbumArtist),
            _ => self.base(),
        }
    }

    /// The text that a song has of it: that of the tag that is read; empty where it has none.
    pub fn text_in<'a>(self, song: &'a Song) -> &'a str
        ensures { result.now ≡ text_in_lem self song.now }
    {
        match self.read_as() {
            Some(name) => text_of_tag(song.tags(), name),
            None => "",
        }
    }
}

/// The law that each name is read back as its tag, so that no two are one in any case.
pub fn each_name_is_read_back()
    ensures { (tag : KnownTag) → tag_of (text_of tag) ≡ Some tag }
{}

/// The first of some tags that a word names.
fn first_named(tags: &[KnownTag], word: &str) -> Option<KnownTag>
    ensures { result ≡ named_lem word.now tags.now }
{
    tags.iter().copied().find(|tag| same_word(word, tag.text()))
}

/// Whether two words are the same, whatever the case of their ASCII letters.
pub fn same_word(word: &str, name: &str) -> bool
    ensures { result ≡ str_eq_ignore_ascii_case word.now name.now }
{
    word.eq_ignore_ascii_case(name)
}
