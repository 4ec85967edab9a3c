//! Songs in another order, and in groups.
use mpd_text::{Answer, Song, TagName};
use song_db::{Db, Rate, SharedSong};
use song_groups::{count_groups, distinct, order, push_counts, push_tuples, tuples};
use std::alloc::{AllocError, Global};
use std::test::Fail;
use test_songs::{Tags, song};
use test_texts::{Recorder, wants, wants_made};

/// The URI of a song, its frames and its tags.
type Given = (&'static str, u64, Tags);

/// A tag, and whether its texts or numbers fall.
type Order = (Option<TagName>, bool);

/// The labels and the tags of the columns of a list.
type List = (&'static [&'static str], &'static [Option<TagName>]);

/// The label and the tag of a count.
type Count = (&'static str, Option<TagName>);

/// The orders, the lists and the counts that are observed of a library.
type Asked = (&'static [Order], &'static [List], &'static [Count]);

fn library(alloc: Global, given: &[Given]) -> Result<Db, AllocError> {
    let mut songs = Vec::new(alloc);
    for (uri, frames, tags) in given {
        songs
            .push(song(alloc, uri, tags, *frames)?)
            .map_err(AllocError::from)?;
    }
    test_songs::library(alloc, songs)
}

/// All songs, in byte order of URI.
fn songs_of<'a>(alloc: Global, db: &'a Db) -> Result<Vec<&'a SharedSong>, AllocError> {
    let mut songs = Vec::new(alloc);
    for song in db.songs() {
        songs.push(song)?;
    }
    Ok(songs)
}

/// Adds the URIs of all songs by a tag.
fn tell_order(
    observed: &mut Answer,
    alloc: Global,
    db: &Db,
    order_of: &Order,
) -> Result<(), AllocError> {
    let mut songs = songs_of(alloc, db)?;
    order(&mut songs, order_of.0, order_of.1)?;
    for song in &songs {
        observed.pair("song", song.song().uri())?;
    }
    Ok(())
}

/// Adds the lines of the distinct tuples of all songs.
fn tell_list(observed: &mut Answer, alloc: Global, db: &Db, list: &List) -> Result<(), AllocError> {
    let songs = songs_of(alloc, db)?;
    push_tuples(observed, list.0, &tuples(alloc, &songs, list.1)?)
}

/// Adds the lines of the counts of all songs, at the lowest rate.
fn tell_count(
    observed: &mut Answer,
    alloc: Global,
    db: &Db,
    count: &Count,
) -> Result<(), AllocError> {
    let songs = songs_of(alloc, db)?;
    let found = count_groups(alloc, &songs, count.1, &Rate::lowest())?;
    push_counts(observed, count.0, &found)
}

/// Adds how many distinct texts that are not empty two tags have.
fn tell_texts(observed: &mut Answer, alloc: Global, db: &Db) -> Result<(), AllocError> {
    observed.pair("artists", distinct(alloc, db.songs(), TagName::Artist)?)?;
    observed.pair("albums", distinct(alloc, db.songs(), TagName::Album)?)
}

/// What is observed of a library: some orders, lists and counts, and how many texts there are.
fn observed_of(
    alloc: Global,
    db: Result<Db, AllocError>,
    asked: &Asked,
) -> Result<String, AllocError> {
    let db = db?;
    let (orders, lists, counts) = *asked;
    let mut observed = Answer::new(alloc);
    for order in orders {
        tell_order(&mut observed, alloc, &db, order)?;
    }
    for list in lists {
        tell_list(&mut observed, alloc, &db, list)?;
    }
    for count in counts {
        tell_count(&mut observed, alloc, &db, count)?;
    }
    tell_texts(&mut observed, alloc, &db)?;
    Ok(observed.into_string())
}

/// The library of the worked rows.
const ROWS: &[Given] = &[
    ("a.wav", 8_000, &[(TagName::Artist, "foo'bar\"")]),
    (
        "b.wav",
        16_000,
        &[(TagName::Title, "Bee"), (TagName::Artist, "Zo\u{eb}")],
    ),
    ("c.wav", 24_000, &[]),
    ("d.wav", 8_000, &[]),
    ("e.wav", 8_000, &[]),
    ("s.wav", 4, &[]),
    ("t.wav", 4, &[]),
];

const ROWS_TOLD: &str = "song: c.wav
song: d.wav
song: e.wav
song: s.wav
song: t.wav
song: b.wav
song: a.wav
song: a.wav
song: b.wav
song: c.wav
song: d.wav
song: e.wav
song: s.wav
song: t.wav
song: a.wav
song: b.wav
song: c.wav
song: d.wav
song: e.wav
song: s.wav
song: t.wav
AlbumArtist: Zo\u{eb}
Title: Bee
Artist:\u{20}
songs: 5
playtime: 5
Artist: Zo\u{eb}
songs: 1
playtime: 2
Artist: foo'bar\"
songs: 1
playtime: 1
Performer:\u{20}
songs: 7
playtime: 8
artists: 2
albums: 0
";

// No song has a performer: a list has no line then, and a count one group.
const ROWS_ASKED: Asked = (
    &[
        (Some(TagName::Artist), false),
        (Some(TagName::Artist), true),
        (None, true),
    ],
    &[
        (
            &["AlbumArtist", "Title"],
            &[Some(TagName::AlbumArtist), Some(TagName::Title)],
        ),
        (&["Performer"], &[None]),
    ],
    &[("Artist", Some(TagName::Artist)), ("Performer", None)],
);

const NO_SONGS_ASKED: Asked = (&[], &[], &[("Artist", Some(TagName::Artist))]);

/// Two artists have an album of one name; one title is there twice; a song has no title, and one no album.
const ALBUMS: &[Given] = &[
    (
        "1.wav",
        8,
        &[
            (TagName::Artist, "A"),
            (TagName::Album, "X"),
            (TagName::Title, "One"),
        ],
    ),
    (
        "2.wav",
        8,
        &[
            (TagName::Artist, "A"),
            (TagName::Album, "X"),
            (TagName::Title, "Two"),
        ],
    ),
    (
        "3.wav",
        8,
        &[
            (TagName::Artist, "A"),
            (TagName::Album, "Y"),
            (TagName::Title, "One"),
        ],
    ),
    (
        "4.wav",
        8,
        &[
            (TagName::Artist, "B"),
            (TagName::Album, "Y"),
            (TagName::Title, "One"),
        ],
    ),
    (
        "5.wav",
        8,
        &[
            (TagName::Artist, "B"),
            (TagName::Album, "Y"),
            (TagName::Title, "One"),
        ],
    ),
    ("6.wav", 8, &[(TagName::Artist, "C"), (TagName::Album, "Z")]),
    (
        "7.wav",
        8,
        &[(TagName::Artist, "D"), (TagName::Title, "One")],
    ),
    (
        "8.wav",
        8,
        &[
            (TagName::Artist, "A"),
            (TagName::Album, "X"),
            (TagName::Title, ""),
        ],
    ),
];

const ALBUMS_TOLD: &str = "song: 6.wav
song: 3.wav
song: 4.wav
song: 5.wav
song: 1.wav
song: 2.wav
song: 8.wav
song: 7.wav
Artist: A
Album: X
Title: One
Title: Two
Album: Y
Title: One
Artist: B
Album: Y
Title: One
Artist: D
Album:\u{20}
Title: One
artists: 4
albums: 3
";

const ALBUMS_ASKED: Asked = (
    &[(Some(TagName::Album), true)],
    &[(
        &["Artist", "Album", "Title"],
        &[
            Some(TagName::Artist),
            Some(TagName::Album),
            Some(TagName::Title),
        ],
    )],
    &[],
);

/// Tracks that are numbers, begin with one, or have none; two texts have one number, and three are too large.
const TRACKS: &[Given] = &[
    (
        "a.wav",
        8_000,
        &[(TagName::Artist, "Ann"), (TagName::Track, "10/12")],
    ),
    (
        "b.wav",
        8_000,
        &[
            (TagName::Artist, "Bob"),
            (TagName::AlbumArtist, "Various"),
            (TagName::Track, "9"),
        ],
    ),
    ("c.wav", 8_000, &[]),
    ("d.wav", 8_000, &[(TagName::Track, "9 of 12")]),
    ("e.wav", 8_000, &[(TagName::Track, "x1")]),
    ("f.wav", 8_000, &[(TagName::Track, "4294967296")]),
    ("g.wav", 8_000, &[(TagName::Track, "4294967295")]),
    ("h.wav", 8_000, &[(TagName::Track, "007")]),
    (
        "i.wav",
        8_000,
        &[
            (TagName::Disc, "2"),
            (TagName::Track, "99999999999999999999999"),
        ],
    ),
    ("j.wav", 8_000, &[(TagName::Track, "9")]),
];

// A sort goes by the numbers, songs of one number by URI; a list and a count go by the texts.
const TRACKS_TOLD: &str = "song: c.wav
song: e.wav
song: h.wav
song: b.wav
song: d.wav
song: j.wav
song: a.wav
song: f.wav
song: g.wav
song: i.wav
song: f.wav
song: g.wav
song: i.wav
song: a.wav
song: b.wav
song: d.wav
song: j.wav
song: h.wav
song: c.wav
song: e.wav
song: a.wav
song: b.wav
song: c.wav
song: d.wav
song: e.wav
song: f.wav
song: g.wav
song: h.wav
song: j.wav
song: i.wav
song: i.wav
song: a.wav
song: b.wav
song: c.wav
song: d.wav
song: e.wav
song: f.wav
song: g.wav
song: h.wav
song: j.wav
AlbumArtist: Ann
AlbumArtist: Various
Track: 007
Track: 10/12
Track: 4294967295
Track: 4294967296
Track: 9
Track: 9 of 12
Track: 99999999999999999999999
Track: x1
Track:\u{20}
songs: 1
playtime: 1
Track: 007
songs: 1
playtime: 1
Track: 10/12
songs: 1
playtime: 1
Track: 4294967295
songs: 1
playtime: 1
Track: 4294967296
songs: 1
playtime: 1
Track: 9
songs: 2
playtime: 2
Track: 9 of 12
songs: 1
playtime: 1
Track: 99999999999999999999999
songs: 1
playtime: 1
Track: x1
songs: 1
playtime: 1
artists: 2
albums: 0
";

const TRACKS_ASKED: Asked = (
    &[
        (Some(TagName::Track), false),
        (Some(TagName::Track), true),
        (Some(TagName::Disc), false),
        (Some(TagName::Disc), true),
    ],
    &[
        (&["AlbumArtist"], &[Some(TagName::AlbumArtist)]),
        (&["Track"], &[Some(TagName::Track)]),
    ],
    &[("Track", Some(TagName::Track))],
);

/// Adds the song of a number: with the greatest number of frames, an artist of its own and one title.
fn add_numbered(songs: &mut Vec<Song>, alloc: Global, number: u32) -> Result<(), AllocError> {
    let uri = format!(in alloc; "{number:03}.wav")?;
    let artist = format!(in alloc; "Artist {number:03}")?;
    let tags = &[(TagName::Artist, artist.as_str()), (TagName::Title, "One")];
    let song = song(alloc, uri.as_str(), tags, u64::MAX)?;
    songs.push(song).map_err(AllocError::from)
}

/// Three hundred songs, each of an artist of its own.
fn many(alloc: Global) -> Result<Db, AllocError> {
    let mut songs = Vec::new(alloc);
    for number in 0..300 {
        add_numbered(&mut songs, alloc, number)?;
    }
    test_songs::library(alloc, songs)
}

const MANY_ASKED: Asked = (
    &[(Some(TagName::Artist), true)],
    &[(
        &["Artist", "Title"],
        &[Some(TagName::Artist), Some(TagName::Title)],
    )],
    &[
        ("Artist", Some(TagName::Artist)),
        ("Title", Some(TagName::Title)),
    ],
);

/// The last artist is first. At 8,000 a second 2^64-1 frames are 2305843009213693951 thousandths, cut; and all
/// songs are 300 times those thousandths.
fn many_expected(alloc: Global) -> Result<String, AllocError> {
    let mut all = Recorder::new(alloc);
    for index in 0..300u32 {
        let number = 299u32.saturating_sub(index);
        all.add(format_args!("song: {number:03}.wav\n"));
    }
    for number in 0..300u32 {
        all.add(format_args!("Artist: Artist {number:03}\nTitle: One\n"));
    }
    for number in 0..300u32 {
        all.add(format_args!("Artist: Artist {number:03}\nsongs: 1\nplaytime: 2305843009213693\n"));
    }
    all.add("Title: One\nsongs: 300\nplaytime: 691752902764108185\nartists: 300\nalbums: 0\n");
    all.into_text()
}

#[test]
fn small_and_large_libraries(rt: HostRuntime) -> Result<(), Fail> {
    let alloc = rt.alloc();
    wants(
        observed_of(alloc, library(alloc, ROWS), &ROWS_ASKED),
        ROWS_TOLD,
    )?;
    wants(
        observed_of(alloc, library(alloc, &[]), &NO_SONGS_ASKED),
        "artists: 0\nalbums: 0\n",
    )?;
    wants(
        observed_of(alloc, library(alloc, ALBUMS), &ALBUMS_ASKED),
        ALBUMS_TOLD,
    )?;
    wants(
        observed_of(alloc, library(alloc, TRACKS), &TRACKS_ASKED),
        TRACKS_TOLD,
    )?;
    wants_made(
        observed_of(alloc, many(alloc), &MANY_ASKED),
        many_expected(alloc),
    )
}
