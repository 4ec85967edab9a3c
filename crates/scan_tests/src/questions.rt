//! A small library and the greatest: filters, counts, and folders.
//!
//! Of songs is told how many they are, and the first and the last of them.
use crate::helpers::song;
use filters::{Case, Filter, Vocabulary};
use mpd_text::Song;
use song_db::{Db, Rate, SharedSong};
use song_search::{counted, find, is_folder, list_folder, under};
use std::alloc::{AllocError, Global};
use std::test::Fail;
use test_songs::library;
use test_texts::{Recorder, wants};

/// Songs in folders: their URIs, frames and artists. The folder `a` comes before `a-b`, though `a-b/y.wav`
/// comes before `a/x.wav`.
const SONGS: [(&str, u64, &str); 10] = [
    ("a/x.wav", 8_000, "Zoe"),
    ("a/deep/er/y.wav", 7_999, "zoe"),
    ("a/deep/z.wav", 15_999, "Bee"),
    ("a-b/y.wav", 4, "Zoe"),
    ("a", 8, "A"),
    ("a0/n.wav", 8, ""),
    ("d//x.wav", 8, ""),
    ("d/x.wav", 8, ""),
    ("ab.wav", 8, "One"),
    ("\u{e9}/\u{e9}.wav", 16, "\u{c9}mile"),
];

fn small(alloc: Global) -> Result<Db, AllocError> {
    let mut songs = Vec::new(alloc);
    for (uri, frames, artist) in SONGS.iter() {
        songs.push(song(alloc, uri, *frames, artist)?)?;
    }
    library(alloc, songs)
}

/// The song of a number: one of a thousand in its folder, with the greatest number of frames and one of a hundred
/// artists.
fn numbered(alloc: Global, number: u64) -> Result<Song, AllocError> {
    let (folder, artist) = (number / 1_000, number % 100);
    let line = format!(in alloc; "{folder:03}/{number:06}.wav;Artist {artist:02}")?;
    let (uri, artist) = line.as_str().split_once(';').unwrap_or(("", ""));
    song(alloc, uri, u64::MAX, artist)
}

fn greatest(alloc: Global) -> Result<Db, AllocError> {
    let mut songs = Vec::new(alloc);
    for number in 0..100_000u64 {
        songs.push(numbered(alloc, number)?)?;
    }
    library(alloc, songs)
}

fn uri_of<'a>(song: Option<&'a SharedSong>) -> &'a str {
    match song {
        Some(song) => song.song().uri(),
        None => "-",
    }
}

/// Adds how many songs meet a filter, and the first and the last of them.
fn add_found(recorder: &mut Recorder, alloc: Global, db: &Db, filter: &Filter, case: Case) {
    match find(alloc, db, filter, case) {
        Ok(songs) => {
            let first = uri_of(songs.first().copied());
            let last = uri_of(songs.last().copied());
            let count = songs.len();
            recorder.add(format_args!("{count} {first} {last} | "));
        }
        Err(_) => recorder.fail(),
    }
}

/// Adds the songs that meet a filter, the same where the case of letters does not count, and how many they are
/// with their seconds.
fn add_filter(recorder: &mut Recorder, alloc: Global, db: &Db, text: &str) {
    let Ok(filter) = Filter::parse(alloc, text, Vocabulary::Base) else {
        return recorder.fail();
    };
    add_found(recorder, alloc, db, &filter, Case::Heeded);
    add_found(recorder, alloc, db, &filter, Case::Ignored);
    let count = counted(db, &filter, &Rate::lowest());
    recorder.add(format_args!("{} {}\n", count.songs, count.seconds));
}

/// Adds the folders and the songs right in a folder.
fn add_listing(recorder: &mut Recorder, alloc: Global, db: &Db, folder: &str) {
    let Ok(listing) = list_folder(alloc, db, folder) else {
        return recorder.fail();
    };
    let (folders, songs) = (listing.folders.len(), listing.songs.len());
    let first_folder = listing.folders.first().copied().unwrap_or("-");
    let last_folder = listing.folders.last().copied().unwrap_or("-");
    let first = uri_of(listing.songs.first().copied());
    let last = uri_of(listing.songs.last().copied());
    recorder.add(format_args!("{folders} {first_folder} {last_folder} | {songs} {first} {last}\n"));
}

/// Adds whether there is such a folder, the songs below it, and the folders and the songs right in it.
fn add_folder(recorder: &mut Recorder, alloc: Global, db: &Db, folder: &str) {
    let is_one = is_folder(db, folder);
    let songs = under(db, folder);
    let (count, first, last) = (songs.len(), uri_of(songs.first()), uri_of(songs.last()));
    recorder.add(format_args!("{is_one} | {count} {first} {last} | "));
    add_listing(recorder, alloc, db, folder);
}

/// What is observed of filters, one a line, and then of folders.
fn answers(alloc: Global, db: &Db, filters: &str, folders: &str) -> Result<String, AllocError> {
    let mut recorder = Recorder::new(alloc);
    for filter in filters.split('\n') {
        add_filter(&mut recorder, alloc, db, filter);
    }
    for folder in folders.split('\n') {
        add_folder(&mut recorder, alloc, db, folder);
    }
    recorder.into_text()
}

const FILTERS: &str = "(Artist == 'Zoe')
(Artist contains 'ZO')
((base 'a/deep') AND (!(Artist == 'Bee')))
(artist == '\u{e9}MILE')
(any == 'none')
(base 'a')
(base 'a/deep')";

const FOLDERS: &str = "
a
a/deep
d
d/
\u{e9}
ab.wav
a/x.wav
a/dee
A
a/";

// Frames at 8,000 a second: of `a` 1.000, 0.999 and 1.999 seconds, and of `a/deep` 0.999 and 1.999, where each
// second cut would be one in all.
const SMALL_TELLS: &str = "2 a-b/y.wav a/x.wav | 3 a-b/y.wav a/x.wav | 2 1
0 - - | 3 a-b/y.wav a/x.wav | 0 0
1 a/deep/er/y.wav a/deep/er/y.wav | 1 a/deep/er/y.wav a/deep/er/y.wav | 1 0
0 - - | 1 \u{e9}/\u{e9}.wav \u{e9}/\u{e9}.wav | 0 0
0 - - | 0 - - | 0 0
3 a/deep/er/y.wav a/x.wav | 3 a/deep/er/y.wav a/x.wav | 3 3
2 a/deep/er/y.wav a/deep/z.wav | 2 a/deep/er/y.wav a/deep/z.wav | 2 2
true | 10 a \u{e9}/\u{e9}.wav | 5 a \u{e9} | 2 a ab.wav
true | 3 a/deep/er/y.wav a/x.wav | 1 a/deep a/deep | 1 a/x.wav a/x.wav
true | 2 a/deep/er/y.wav a/deep/z.wav | 1 a/deep/er a/deep/er | 1 a/deep/z.wav a/deep/z.wav
true | 2 d//x.wav d/x.wav | 1 d/ d/ | 1 d/x.wav d/x.wav
true | 1 d//x.wav d//x.wav | 0 - - | 1 d//x.wav d//x.wav
true | 1 \u{e9}/\u{e9}.wav \u{e9}/\u{e9}.wav | 0 - - | 1 \u{e9}/\u{e9}.wav \u{e9}/\u{e9}.wav
false | 0 - - | 0 - - | 0 - -
false | 0 - - | 0 - - | 0 - -
false | 0 - - | 0 - - | 0 - -
false | 0 - - | 0 - - | 0 - -
false | 0 - - | 0 - - | 0 - -
";

fn observed_of_small(alloc: Global) -> Result<String, AllocError> {
    answers(alloc, &small(alloc)?, FILTERS, FOLDERS)
}

// At 8,000 a second 2^64-1 frames are 2305843009213693951 thousandths, cut, of each song.
const GREATEST_TELLS: &str =
    "100000 000/000000.wav 099/099999.wav | 100000 000/000000.wav 099/099999.wav | 100000 230584300921369395100
true | 100000 000/000000.wav 099/099999.wav | 100 000 099 | 0 - -
true | 1000 050/050000.wav 050/050999.wav | 0 - - | 1000 050/050000.wav 050/050999.wav
true | 1000 099/099000.wav 099/099999.wav | 0 - - | 1000 099/099000.wav 099/099999.wav
false | 0 - - | 0 - - | 0 - -
";

fn observed_of_greatest(alloc: Global) -> Result<String, AllocError> {
    answers(
        alloc,
        &greatest(alloc)?,
        "(any contains 'Artist')",
        "\n050\n099\n100",
    )
}

#[test]
fn a_small_library_and_the_greatest(rt: HostRuntime) -> Result<(), Fail> {
    wants(observed_of_small(rt.alloc()), SMALL_TELLS)?;
    wants(observed_of_greatest(rt.alloc()), GREATEST_TELLS)
}
