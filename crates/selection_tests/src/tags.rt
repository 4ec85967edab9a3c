//! The tags that clients know: their names, the texts that a song has of them, sets of them, and the lines that
//! a set shows of a song.
use known_tags::{
    KNOWN_TAGS, KnownTag, TagSet, all_tags_show_the_whole_song, each_name_is_read_back,
    push_shared_with, push_song_with, push_tagtypes,
};
use mpd_text::{Answer, Song, TAG_NAMES, TagName};
use song_db::{Rate, SharedSong, push_song, texts_and_length_are_the_song};
use std::alloc::{AllocError, Global};
use std::test::Fail;
use test_songs::{Tags, song};
use test_texts::{Recorder, wants};

/// The 31 names, in letters of which every second one is large.
const ODD_WORDS: &str =
    "aRtIsT aRtIsTsOrT aLbUm aLbUmSoRt aLbUmArTiSt aLbUmArTiStSoRt tItLe tRaCk nAmE \
     gEnRe dAtE oRiGiNaLdAtE cOmPoSeR cOmPoSeRsOrT pErFoRmEr cOnDuCtOr wOrK eNsEmBlE \
     mOvEmEnT mOvEmEnTnUmBeR lOcAtIoN gRoUpInG cOmMeNt dIsC lAbEl \
     mUsIcBrAiNz_aRtIsTiD mUsIcBrAiNz_aLbUmId mUsIcBrAiNz_aLbUmArTiStId \
     mUsIcBrAiNz_tRaCkId mUsIcBrAiNz_rElEaSeTrAcKiD mUsIcBrAiNz_wOrKiD ";

/// For each of them its name, the tag that is read for it, and the tag that it is.
const READ: &str = "Artist:Artist:Artist ArtistSort:Artist:- Album:Album:Album AlbumSort:Album:- \
     AlbumArtist:AlbumArtist:AlbumArtist AlbumArtistSort:AlbumArtist:- Title:Title:Title \
     Track:Track:Track Name:-:- Genre:Genre:Genre Date:Date:Date OriginalDate:-:- \
     Composer:Composer:Composer \
     ComposerSort:-:- Performer:-:- Conductor:-:- Work:-:- Ensemble:-:- Movement:-:- \
     MovementNumber:-:- Location:-:- Grouping:-:- Comment:Comment:Comment \
     Disc:Disc:Disc Label:-:- MUSICBRAINZ_ARTISTID:-:- MUSICBRAINZ_ALBUMID:-:- \
     MUSICBRAINZ_ALBUMARTISTID:-:- MUSICBRAINZ_TRACKID:-:- \
     MUSICBRAINZ_RELEASETRACKID:-:- MUSICBRAINZ_WORKID:-:- ";

/// For each of them the text of a song that has a text for each of the six tags of the base profile: the
/// artist of an album is then the artist.
const TEXTS: &str =
    "Zoë Zoë One One Zoë Zoë Bee - - Pop 1999 - - - - - - - - - - - first - - - - - \
     - - - ";

fn shown(name: Option<TagName>) -> &'static str {
    match name {
        Some(name) => name.text(),
        None => "-",
    }
}

/// Adds what a word names.
fn tell_named(recorder: &mut Recorder, word: &str) {
    match KnownTag::of_word(word) {
        Some(tag) => recorder.add(format_args!(
            "{}:{}:{} ",
            tag.text(),
            shown(tag.read_as()),
            shown(tag.base())
        )),
        None => recorder.add("none "),
    }
}

/// What each of some words names.
fn named_observed(alloc: Global, words: &str) -> Result<String, AllocError> {
    let mut recorder = Recorder::new(alloc);
    for word in words.split_whitespace() {
        tell_named(&mut recorder, word);
    }
    recorder.into_text()
}

/// What each name names, in their order.
fn names_observed(alloc: Global) -> Result<String, AllocError> {
    let mut recorder = Recorder::new(alloc);
    for tag in KNOWN_TAGS.iter() {
        tell_named(&mut recorder, tag.text());
    }
    recorder.into_text()
}

/// The text of each known tag in a song.
fn texts_observed(alloc: Global, given: Tags) -> Result<String, AllocError> {
    let song = song(alloc, "b.wav", given, 16_000)?;
    let mut recorder = Recorder::new(alloc);
    for tag in KNOWN_TAGS.iter() {
        let text = tag.text_in(&song);
        recorder.add(format_args!("{} ", if text.is_empty() { "-" } else { text }));
    }
    recorder.into_text()
}

/// For each of them the text of a song that has a text for each of the four other tags.
const FOUR_TEXTS: &str =
    "- - - - Various Various - 3/12 - - - - Bach - - - - - - - - - - 2 - - - - - - - ";

const FOUR_TAGS: Tags = &[
    (TagName::Composer, "Bach"),
    (TagName::Disc, "2"),
    (TagName::Track, "3/12"),
    (TagName::AlbumArtist, "Various"),
    (TagName::AlbumArtist, "Others"),
];

const SIX_TAGS: Tags = &[
    (TagName::Comment, "first"),
    (TagName::Genre, "Pop"),
    (TagName::Date, "1999"),
    (TagName::Artist, "Zo\u{eb}"),
    (TagName::Title, "Bee"),
    (TagName::Album, "One"),
    (TagName::Comment, "second"),
];

#[test]
fn names_and_texts(rt: HostRuntime) -> Result<(), Fail> {
    each_name_is_read_back();
    let alloc = rt.alloc();
    wants(named_observed(alloc, ODD_WORDS), READ)?;
    wants(names_observed(alloc), READ)?;
    let others = "Nosuch Art_ist Artis Artists any file MUSICBRAINZ_ARTIS\u{212a} Zo\u{eb}";
    wants(
        named_observed(alloc, others),
        "none none none none none none none none ",
    )?;
    wants(texts_observed(alloc, SIX_TAGS), TEXTS)?;
    wants(texts_observed(alloc, FOUR_TAGS), FOUR_TEXTS)
}

/// Adds a sign for each tag, `+` where the set has it.
fn tell_held(recorder: &mut Recorder, set: TagSet) {
    for name in TAG_NAMES.iter() {
        recorder.add(if set.holds(*name) { "+" } else { "-" });
    }
    recorder.add(" ");
}

/// For each tag, what sets hold to which this one was added, and from which it was taken away.
fn all_observed(alloc: Global) -> Result<String, AllocError> {
    let mut recorder = Recorder::new(alloc);
    for name in TAG_NAMES.iter() {
        let only = TagSet::empty().with(*name);
        let others = TagSet::all().without(*name);
        tell_held(&mut recorder, only);
        tell_held(&mut recorder, others);
        let is_whole = !others.is_all() && others.with(*name).is_all();
        let is_empty = only != others && only.without(*name) == TagSet::empty();
        recorder.add(format_args!("{is_whole} {is_empty}\n"));
    }
    recorder.into_text()
}

/// The known tags that these words name.
fn named(alloc: Global, words: &str) -> Result<Vec<KnownTag>, AllocError> {
    let mut named = Vec::new(alloc);
    for word in words.split_whitespace() {
        if let Some(tag) = KnownTag::of_word(word) {
            named.push(tag)?;
        }
    }
    Ok(named)
}

/// The lines of `tagtypes` of a set, and those of a song with the tags of the set, by itself and shared.
fn set_observed(
    alloc: Global,
    song: Result<Song, AllocError>,
    set: TagSet,
) -> Result<String, AllocError> {
    let song = song?;
    let mut answer = Answer::new(alloc);
    push_tagtypes(&mut answer, set)?;
    push_song_with(&mut answer, &song, &Rate::lowest(), set)?;
    let shared = SharedSong::new(alloc, song)?;
    push_shared_with(&mut answer, &shared, &Rate::lowest(), set)?;
    Ok(answer.into_string())
}

/// A song with a title and an artist, 2 seconds long at 8,000 frames a second.
fn bee(alloc: Global) -> Result<Song, AllocError> {
    let tags = &[(TagName::Artist, "Zo\u{eb}"), (TagName::Title, "Bee")];
    song(alloc, "b.wav", tags, 16_000)
}

fn bee_observed(alloc: Global, set: TagSet) -> Result<String, AllocError> {
    set_observed(alloc, bee(alloc), set)
}

/// The same of an empty set that the named tags join, or of the set of all that they leave.
fn changed_observed(alloc: Global, words: &str, is_joined: bool) -> Result<String, AllocError> {
    let named = named(alloc, words)?;
    let set = if is_joined {
        TagSet::empty().enable(&named)
    } else {
        TagSet::all().disable(&named)
    };
    bee_observed(alloc, set)
}

/// The lines that show the whole song.
fn whole_observed(alloc: Global) -> Result<String, AllocError> {
    let mut answer = Answer::new(alloc);
    push_song(&mut answer, &bee(alloc)?, &Rate::lowest())?;
    Ok(answer.into_string())
}

/// All 31 names.
const ALL_WORDS: &str =
    "Artist ArtistSort Album AlbumSort AlbumArtist AlbumArtistSort Title Track Name \
     Genre Date OriginalDate Composer ComposerSort Performer Conductor Work Ensemble \
     Movement MovementNumber Location Grouping Comment Disc Label \
     MUSICBRAINZ_ARTISTID MUSICBRAINZ_ALBUMID MUSICBRAINZ_ALBUMARTISTID \
     MUSICBRAINZ_TRACKID MUSICBRAINZ_RELEASETRACKID MUSICBRAINZ_WORKID ";

const WHOLE: &str = "file: b.wav
Title: Bee
Artist: Zo\u{eb}
Time: 2
duration: 2.000
";

/// All tags that a song can have, and the whole song twice.
const ALL: &str = "tagtype: Title
tagtype: Artist
tagtype: Album
tagtype: Date
tagtype: Genre
tagtype: Comment
tagtype: AlbumArtist
tagtype: Track
tagtype: Disc
tagtype: Composer
file: b.wav
Title: Bee
Artist: Zo\u{eb}
Time: 2
duration: 2.000
file: b.wav
Title: Bee
Artist: Zo\u{eb}
Time: 2
duration: 2.000
";

/// The tags of the base profile, and the whole song twice.
const BASE: &str = "tagtype: Title
tagtype: Artist
tagtype: Album
tagtype: Date
tagtype: Genre
tagtype: Comment
file: b.wav
Title: Bee
Artist: Zo\u{eb}
Time: 2
duration: 2.000
file: b.wav
Title: Bee
Artist: Zo\u{eb}
Time: 2
duration: 2.000
";

const NONE: &str = "file: b.wav
Time: 2
duration: 2.000
file: b.wav
Time: 2
duration: 2.000
";

/// Whether an empty set is joined or the set of all is left, by which words, and what is observed then.
const CHANGES: &[(bool, &str, &str)] = &[
    (true, ALL_WORDS, ALL),
    (false, ALL_WORDS, NONE),
    (
        true,
        "Artist AlbumArtist Title Name Composer Performer",
        "tagtype: Title\ntagtype: Artist\ntagtype: AlbumArtist\ntagtype: Composer\n\
         file: b.wav\nTitle: Bee\nArtist: Zo\u{eb}\nTime: 2\nduration: 2.000\n\
         file: b.wav\nTitle: Bee\nArtist: Zo\u{eb}\nTime: 2\nduration: 2.000\n",
    ),
    (
        false,
        "genre ALBUM comment AlbumSort title",
        "tagtype: Artist\ntagtype: Date\ntagtype: AlbumArtist\ntagtype: Track\ntagtype: Disc\n\
         tagtype: Composer\nfile: b.wav\nArtist: Zo\u{eb}\nTime: 2\nduration: 2.000\n\
         file: b.wav\nArtist: Zo\u{eb}\nTime: 2\nduration: 2.000\n",
    ),
    (true, "AlbumArtistSort ArtistSort AlbumSort", NONE),
    (false, "AlbumArtistSort ArtistSort AlbumSort", ALL),
];

#[test]
fn sets_and_their_songs(rt: HostRuntime) -> Result<(), Fail> {
    all_tags_show_the_whole_song();
    texts_and_length_are_the_song();
    let alloc = rt.alloc();
    wants(
        all_observed(alloc),
        "+--------- -+++++++++ true true\n\
         -+-------- +-++++++++ true true\n\
         --+------- ++-+++++++ true true\n\
         ---+------ +++-++++++ true true\n\
         ----+----- ++++-+++++ true true\n\
         -----+---- +++++-++++ true true\n\
         ------+--- ++++++-+++ true true\n\
         -------+-- +++++++-++ true true\n\
         --------+- ++++++++-+ true true\n\
         ---------+ +++++++++- true true\n",
    )?;
    wants(whole_observed(alloc), WHOLE)?;
    wants(bee_observed(alloc, TagSet::all()), ALL)?;
    wants(bee_observed(alloc, TagSet::base()), BASE)?;
    wants(bee_observed(alloc, TagSet::empty()), NONE)?;
    for (is_joined, words, expected) in CHANGES {
        wants(changed_observed(alloc, words, *is_joined), expected)?;
    }
    // 18,446,744,073,709,551,615 frames, 8,000 a second, are 2,305,843,009,213,693.951875 seconds.
    let longest = song(alloc, "l.wav", &[], u64::MAX);
    wants(
        set_observed(alloc, longest, TagSet::empty()),
        "file: l.wav\nTime: 2305843009213694\nduration: 2305843009213693.951\n\
         file: l.wav\nTime: 2305843009213694\nduration: 2305843009213693.951\n",
    )
}
