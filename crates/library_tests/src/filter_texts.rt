//! Filters: worked texts and pairs, faults, and the greatest depth and texts.
use filters::{Case, Filter, FilterFault, Pair, Test, Vocabulary, one_answer};
use mpd_text::{TagName, Text};
use std::alloc::{AllocError, Global};
use std::test::Fail;
use test_songs::{Tags, repeated_song};
use test_texts::{Recorder, wants};

/// A song: its URI, its tags, and how often the URI and each text are repeated.
type Given = (&'static str, Tags, usize);

/// The songs of the worked sessions.
const SONGS: &[Given] = &[
    ("a.wav", &[(TagName::Artist, "foo'bar\"")], 1),
    (
        "b.wav",
        &[(TagName::Title, "Bee"), (TagName::Artist, "Zo\u{eb}")],
        1,
    ),
    ("d", &[(TagName::Genre, "Stra\u{df}e")], 1),
    ("d/c.wav", &[], 1),
    ("dd.wav", &[], 1),
];

/// Songs of one album: the artist of the album is another one than the song's, or is not named, and the third
/// song has no artist.
const ALBUM: &[Given] = &[
    (
        "p/a.wav",
        &[
            (TagName::Title, "One"),
            (TagName::Artist, "Ann"),
            (TagName::Album, "X"),
            (TagName::Track, "10/12"),
        ],
        1,
    ),
    (
        "p/b.wav",
        &[
            (TagName::Title, "Two"),
            (TagName::Artist, "Bob"),
            (TagName::Album, "X"),
            (TagName::AlbumArtist, "Various"),
            (TagName::Track, "9"),
            (TagName::Disc, "2"),
            (TagName::Composer, "Bach"),
        ],
        1,
    ),
    ("p/c.wav", &[(TagName::Album, "X")], 1),
];

/// A song whose texts have 1,024 bytes each: the most that a tag's text and a URI have.
const LONG_SONG: &[Given] = &[(
    "dd",
    &[(TagName::Title, "\u{390}"), (TagName::Artist, "AA")],
    512,
)];

/// Adds the URI of a song that meets a filter, and a space. What is repeated is added once.
fn tell_song(recorder: &mut Recorder, alloc: Global, given: &Given, filter: &Filter, case: Case) {
    let (uri, tags, times) = *given;
    let Ok(song) = repeated_song(alloc, uri, tags, times, 8_000) else {
        return recorder.fail();
    };
    match filter.matches(&song, case) {
        Ok(true) => recorder.add(format_args!("{uri} ")),
        Ok(false) => {}
        Err(_) => recorder.fail(),
    }
}

/// Adds the songs that meet a filter, or its fault.
fn tell_found(
    recorder: &mut Recorder,
    alloc: Global,
    songs: &[Given],
    filter: Result<Filter, FilterFault>,
    case: Case,
) {
    match filter {
        Ok(filter) => {
            for given in songs {
                tell_song(recorder, alloc, given, &filter, case);
            }
        }
        Err(FilterFault::Syntax(at)) => recorder.add(format_args!("bad filter at byte {at}")),
        Err(FilterFault::UnknownTag(word)) => {
            recorder.add(format_args!("unknown tag {}", word.as_str()));
        }
        Err(FilterFault::TooDeep) => recorder.add("filter too deep"),
        Err(FilterFault::NoMemory) => recorder.add("no memory"),
    }
}

/// The lines of a table again, with what is found among songs by the filters on their left sides.
fn observed_of(
    alloc: Global,
    songs: &[Given],
    table: &str,
    vocabulary: Vocabulary,
    case: Case,
) -> Result<String, AllocError> {
    let mut recorder = Recorder::new(alloc);
    for line in table.lines() {
        let (text, _) = line.split_once(" => ").unwrap_or((line, ""));
        recorder.add(format_args!("{text} => "));
        let filter = Filter::parse(alloc, text, vocabulary);
        tell_found(&mut recorder, alloc, songs, filter, case);
        recorder.add("\n");
    }
    recorder.into_text()
}

const FAULTS: &str = " => bad filter at byte 0
( => bad filter at byte 1
() => bad filter at byte 1
(Artist == 'x' => bad filter at byte 14
(Artist = 'x') => bad filter at byte 9
(file == 'a')x => bad filter at byte 13
(title == 'Bee')  => bad filter at byte 16
(title contains'Be') => bad filter at byte 15
(! (title == 'Bee')) => bad filter at byte 2
((title == 'Bee')AND (artist != 'x')) => bad filter at byte 17
(base == 'x') => bad filter at byte 6
(title == \"a\\ => bad filter at byte 13
(title => bad filter at byte 6
(Artiste == 'x') => unknown tag Artiste
(foo) => unknown tag foo
(foo => unknown tag foo
(foo = 'x') => unknown tag foo
(title = (foo == 'x')) => bad filter at byte 8
(Art_ist == 'x') => unknown tag Art
(Artist_ == 'x') => bad filter at byte 7
(MUSICBRAINZ_ALBUMID == 'x') => unknown tag MUSICBRAINZ
(AlbumArtist == 'x') => unknown tag AlbumArtist
(filename == 'x') => unknown tag filename
(_ == 'x') => bad filter at byte 1
";

// 32 and 33 parentheses.
const DEPTHS: &str = "(((((((((((((((((((((((((((((((( => bad filter at byte 32
((((((((((((((((((((((((((((((((( => filter too deep
((((((((((((((((((((((((((((((((title == 'Bee')))))))))))))))))))))))))))))))) => b.wav\u{20}
(((((((((((((((((((((((((((((((((title == 'Bee'))))))))))))))))))))))))))))))))) => filter too deep
";

const FOUND: &str = "(Artist == \"foo\\'bar\\\"\") => a.wav\u{20}
( TITLE=='Bee' ) => b.wav\u{20}
(title == 'bee') =>\u{20}
(title == '\\B\\e\\e') => b.wav\u{20}
(artist == 'Zo\\\u{eb}') => b.wav\u{20}
(genre contains 'asse') =>\u{20}
(Artist == '') => d d/c.wav dd.wav\u{20}
(any contains 'oo') => a.wav\u{20}
(any == 'Bee') => b.wav\u{20}
(any != 'Bee') => a.wav d d/c.wav dd.wav\u{20}
(any == '') => a.wav b.wav d d/c.wav dd.wav\u{20}
(!(title == 'Bee')) => a.wav d d/c.wav dd.wav\u{20}
((artist != '') AND (title != 'Bee')) => a.wav\u{20}
((file contains 'd') AND (file contains '.wav') AND (!(base 'd'))) => dd.wav\u{20}
(base 'd') => d/c.wav\u{20}
(base '') => a.wav b.wav d d/c.wav dd.wav\u{20}
(file == 'dd.wav') => dd.wav\u{20}
";

const FOUND_IN_ANY_CASE: &str = "(title == 'bee') => b.wav\u{20}
(artist contains 'O') => a.wav b.wav\u{20}
(genre == 'STRASSE') => d\u{20}
(genre contains 'asse') => d\u{20}
(base 'D') =>\u{20}
";

const KNOWN: &str = "(MUSICBRAINZ_ALBUMID == 'x') =>\u{20}
(MUSICBRAINZ_ALBUMID == '') => a.wav b.wav d d/c.wav dd.wav\u{20}
(musicbrainz_workid != '') =>\u{20}
(Performer contains '') => a.wav b.wav d d/c.wav dd.wav\u{20}
(AlbumArtist == 'Zo\u{eb}') => b.wav\u{20}
(ARTISTSORT != '') => a.wav b.wav\u{20}
(AlbumArtistSort == 'Zo\u{eb}') => b.wav\u{20}
(AlbumSort != '') =>\u{20}
(title == 'Bee') => b.wav\u{20}
(any == 'Bee') => b.wav\u{20}
(filename == 'dd.wav') => dd.wav\u{20}
(FILE == 'dd.wav') => dd.wav\u{20}
(base 'd') => d/c.wav\u{20}
(Art_ist == 'x') => unknown tag Art_ist
(Artist_ == 'x') => unknown tag Artist_
(_ == 'x') => unknown tag _
(base_ 'd') => unknown tag base_
(Track1 == 'x') => bad filter at byte 6
";

// Without an artist of the album the artist stands for it.
const KNOWN_ALBUM: &str = "(AlbumArtist == 'Ann') => p/a.wav\u{20}
(AlbumArtist == 'Bob') =>\u{20}
(albumartist == 'Various') => p/b.wav\u{20}
(AlbumArtistSort == 'Various') => p/b.wav\u{20}
(ArtistSort == 'Bob') => p/b.wav\u{20}
(AlbumArtist == '') => p/c.wav\u{20}
(Track == '10/12') => p/a.wav\u{20}
(TRACK == '') => p/c.wav\u{20}
(Disc == '2') => p/b.wav\u{20}
(composer contains 'ac') => p/b.wav\u{20}
(ComposerSort == 'Bach') =>\u{20}
(any == '10/12') => p/a.wav\u{20}
(any == 'Various') => p/b.wav\u{20}
(any == 'Bach') => p/b.wav\u{20}
(any == '2') => p/b.wav\u{20}
(any == 'Bob') => p/b.wav\u{20}
(any contains '1') => p/a.wav\u{20}
(any != '9') => p/a.wav p/c.wav\u{20}
";

// The base profile has six tags, and they alone are any tag.
const BASE_ALBUM: &str = "(any == '10/12') =>\u{20}
(any == 'Various') =>\u{20}
(any == 'Bach') =>\u{20}
(any == '2') =>\u{20}
(any == 'Bob') => p/b.wav\u{20}
(any != '9') => p/a.wav p/b.wav p/c.wav\u{20}
(Track == '9') => unknown tag Track
(Disc == '2') => unknown tag Disc
(Composer == 'Bach') => unknown tag Composer
(AlbumArtist == 'Various') => unknown tag AlbumArtist
";

/// The songs of the tables, and what their filters know and how they compare.
const TABLES: &[(&[Given], &str, Vocabulary, Case)] = &[
    (SONGS, FAULTS, Vocabulary::Base, Case::Heeded),
    (SONGS, DEPTHS, Vocabulary::Base, Case::Heeded),
    (SONGS, FOUND, Vocabulary::Base, Case::Heeded),
    (SONGS, FOUND_IN_ANY_CASE, Vocabulary::Base, Case::Ignored),
    (SONGS, KNOWN, Vocabulary::Known, Case::Heeded),
    (ALBUM, KNOWN_ALBUM, Vocabulary::Known, Case::Heeded),
    (ALBUM, BASE_ALBUM, Vocabulary::Base, Case::Heeded),
];

fn add_pair(
    pairs: &mut Vec<Pair>,
    alloc: Global,
    name: &str,
    text: &str,
    times: usize,
) -> Result<(), AllocError> {
    let pair = Pair {
        name: Text::new(alloc, name)?,
        text: Text::of(text.repeat(alloc, times)?),
    };
    pairs.push(pair).map_err(AllocError::from)
}

/// Pairs, each text so many times, and how they are compared.
type Compared = (
    &'static [(&'static str, &'static str)],
    usize,
    Test,
    Vocabulary,
    Case,
);

fn pairs(alloc: Global, words: &[(&str, &str)], times: usize) -> Result<Vec<Pair>, AllocError> {
    let mut pairs = Vec::new(alloc);
    for (name, text) in words {
        add_pair(&mut pairs, alloc, name, text, times)?;
    }
    Ok(pairs)
}

/// What is found by pairs, with a bar after each.
fn observed_of_pairs(
    alloc: Global,
    songs: &[Given],
    all: &[Compared],
) -> Result<String, AllocError> {
    let mut recorder = Recorder::new(alloc);
    for (words, times, test, vocabulary, case) in all {
        match pairs(alloc, words, *times) {
            Ok(pairs) => {
                let filter = Filter::of_pairs(alloc, pairs.as_slice(), *test, *vocabulary);
                tell_found(&mut recorder, alloc, songs, filter, *case);
            }
            Err(_) => recorder.fail(),
        }
        recorder.add("|");
    }
    recorder.into_text()
}

const PAIRS: &[Compared] = &[
    (&[], 1, Test::Equals, Vocabulary::Base, Case::Heeded),
    (
        &[("TITLE", "Bee"), ("artist", "Zo\u{eb}")],
        1,
        Test::Equals,
        Vocabulary::Base,
        Case::Heeded,
    ),
    (
        &[("artist", "zO\u{cb}")],
        1,
        Test::Contains,
        Vocabulary::Base,
        Case::Ignored,
    ),
    (
        &[("base", "d"), ("file", ".wav")],
        1,
        Test::Contains,
        Vocabulary::Base,
        Case::Heeded,
    ),
    (
        &[("title", "x"), ("foo", "x"), ("bar", "x")],
        1,
        Test::Equals,
        Vocabulary::Base,
        Case::Heeded,
    ),
    (
        &[("filename", "b.wav")],
        1,
        Test::Equals,
        Vocabulary::Base,
        Case::Heeded,
    ),
];

const KNOWN_PAIRS: &[Compared] = &[
    (
        &[("FileName", "b.wav"), ("albumartist", "Zo\u{eb}")],
        1,
        Test::Equals,
        Vocabulary::Known,
        Case::Heeded,
    ),
    (
        &[("Composer", "")],
        1,
        Test::Equals,
        Vocabulary::Known,
        Case::Heeded,
    ),
    (
        &[("MUSICBRAINZ_TRACKID", ""), ("Art_ist", "x")],
        1,
        Test::Equals,
        Vocabulary::Known,
        Case::Heeded,
    ),
];

const ALBUM_PAIRS: &[Compared] = &[
    (
        &[("albumartist", "Various"), ("disc", "2")],
        1,
        Test::Equals,
        Vocabulary::Known,
        Case::Heeded,
    ),
    (
        &[("any", "ANN"), ("track", "/")],
        1,
        Test::Contains,
        Vocabulary::Known,
        Case::Ignored,
    ),
];

const LONG_PAIR: &[Compared] = &[(
    &[("ARTIST", "a")],
    1_024,
    Test::Equals,
    Vocabulary::Base,
    Case::Ignored,
)];

/// Songs, the pairs that they are compared with, and what is found.
const ALL_PAIRS: &[(&[Given], &[Compared], &str)] = &[
    (
        SONGS,
        PAIRS,
        "a.wav b.wav d d/c.wav dd.wav |b.wav |b.wav |d/c.wav |unknown tag foo|unknown tag filename|",
    ),
    (
        SONGS,
        KNOWN_PAIRS,
        "b.wav |a.wav b.wav d d/c.wav dd.wav |unknown tag Art_ist|",
    ),
    (ALBUM, ALBUM_PAIRS, "p/b.wav |p/a.wav |"),
    (LONG_SONG, LONG_PAIR, "dd |"),
];

/// Comparisons of the long song with a text that is repeated so many times.
const LONG: &[(&str, &str, usize, Case)] = &[
    ("artist ==", "A", 1_024, Case::Heeded),
    ("artist ==", "a", 1_024, Case::Heeded),
    ("artist ==", "a", 1_024, Case::Ignored),
    ("artist ==", "a", 1_023, Case::Ignored),
    ("artist contains", "a", 1_024, Case::Ignored),
    ("artist contains", "a", 1_025, Case::Ignored),
    ("any ==", "a", 1_024, Case::Ignored),
    ("file ==", "D", 1_024, Case::Ignored),
    // the full folding of U+0390 (Unicode's CaseFolding.txt, status F)
    ("title ==", "\u{3b9}\u{308}\u{301}", 512, Case::Ignored),
];

/// Adds whether the long song meets a comparison with a text that is repeated so many times.
fn tell_long(
    recorder: &mut Recorder,
    alloc: Global,
    with: &str,
    text: &str,
    times: usize,
    case: Case,
) {
    let Ok(text) = text.repeat(alloc, times) else {
        return recorder.fail();
    };
    let Ok(filter) = format!(in alloc; "({with} '{text}')") else {
        return recorder.fail();
    };
    let filter = Filter::parse(alloc, filter.as_str(), Vocabulary::Base);
    tell_found(recorder, alloc, LONG_SONG, filter, case);
    recorder.add("|");
}

fn observed_of_long(alloc: Global) -> Result<String, AllocError> {
    let mut recorder = Recorder::new(alloc);
    for (with, text, times, case) in LONG {
        tell_long(&mut recorder, alloc, with, text, *times, *case);
    }
    recorder.into_text()
}

#[test]
fn songs_that_meet_filters(rt: HostRuntime) -> Result<(), Fail> {
    one_answer();
    let alloc = rt.alloc();
    for (songs, table, vocabulary, case) in TABLES {
        wants(observed_of(alloc, songs, table, *vocabulary, *case), table)?;
    }
    for (songs, pairs, expected) in ALL_PAIRS {
        wants(observed_of_pairs(alloc, songs, pairs), expected)?;
    }
    wants(observed_of_long(alloc), "dd ||dd ||dd ||dd |dd |dd |")
}
