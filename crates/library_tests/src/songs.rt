//! Songs, the lines that they keep, and the library: worked ones, and the greatest one.
use mpd_text::{Song, TagName};
use song_db::{Db, SharedSong};
use std::alloc::{AllocError, Global};
use std::test::Fail;
use test_songs::{Tags, repeated_song};
use test_texts::{Recorder, wants, wants_made};

/// The lines that a clone shows whose first handle is gone.
fn kept(alloc: Global, uri: &str, given: Tags, times: usize) -> Result<String, AllocError> {
    let song = repeated_song(alloc, uri, given, times, 16_000)?;
    let clone = SharedSong::new(alloc, song)?.clone()?;
    String::from_str(alloc, clone.lines())
}

const TWO_TITLES: Tags = &[
    (TagName::Artist, "Zo\u{eb}"),
    (TagName::Title, "Bee"),
    (TagName::Title, "Wasp"),
];

const ALL_TAGS: Tags = &[
    (TagName::Composer, "t"),
    (TagName::Disc, "t"),
    (TagName::Track, "t"),
    (TagName::AlbumArtist, "t"),
    (TagName::Comment, "t"),
    (TagName::Genre, "t"),
    (TagName::Date, "t"),
    (TagName::Album, "t"),
    (TagName::Artist, "t"),
    (TagName::Title, "t"),
];

/// A line for each key, of the longest text.
fn longest_lines(alloc: Global) -> Result<String, AllocError> {
    let text = "t".repeat(alloc, 1_024)?;
    format!(in alloc;
        "file: {text}\nTitle: {text}\nArtist: {text}\nAlbum: {text}\nDate: {text}\nGenre: {text}\nComment: {text}\n\
         AlbumArtist: {text}\nTrack: {text}\nDisc: {text}\nComposer: {text}\n"
    )
}

#[test]
fn the_lines_of_a_song(rt: HostRuntime) -> Result<(), Fail> {
    let alloc = rt.alloc();
    wants(
        kept(alloc, "a/b.wav", TWO_TITLES, 1),
        "file: a/b.wav\nTitle: Bee\nArtist: Zo\u{eb}\n",
    )?;
    wants(kept(alloc, "c.wav", &[], 1), "file: c.wav\n")?;
    wants_made(kept(alloc, "t", ALL_TAGS, 1_024), longest_lines(alloc))
}

/// Songs of these frames and URIs, each URI so many times.
fn songs(alloc: Global, given: &[(u64, &str)], times: usize) -> Result<Vec<Song>, AllocError> {
    let mut songs = Vec::new(alloc);
    for (frames, uri) in given {
        songs
            .push(repeated_song(alloc, uri, &[], times, *frames)?)
            .map_err(AllocError::from)?;
    }
    Ok(songs)
}

/// Adds the frames of the song of a URI, and the same of a handle that is shared.
fn tell_frames(recorder: &mut Recorder, db: &Db, uri: &str) {
    match db.get(uri) {
        Some(song) => recorder.add(format_args!("{} ", song.frames())),
        None => recorder.add("none "),
    }
    match db.share(uri) {
        Ok(Some(shared)) => recorder.add(format_args!("{} ", shared.song().frames())),
        Ok(None) => recorder.add("none "),
        Err(_) => recorder.fail(),
    }
}

/// Adds how many songs there are, the URIs of the first four, where there are so many, and the frames of
/// these URIs.
fn tell(recorder: &mut Recorder, db: &Db, uris: &[&str]) {
    recorder.add(format_args!("{}: ", db.len()));
    for shared in db.songs().get(..4).unwrap_or(&[]) {
        recorder.add(format_args!("{} ", shared.song().uri()));
    }
    for uri in uris {
        tell_frames(recorder, db, uri);
    }
    recorder.add("\n");
}

/// What is observed of the library of these songs, and of its image once the library is gone; or why they are none.
fn observed_of(
    alloc: Global,
    songs: Result<Vec<Song>, AllocError>,
    uris: &[&str],
) -> Result<String, AllocError> {
    let songs = songs?;
    let mut recorder = Recorder::new(alloc);
    match Db::of_songs(alloc, songs) {
        Ok(db) => {
            tell(&mut recorder, &db, uris);
            let image = db.image()?;
            drop(db);
            tell(&mut recorder, &image, uris);
        }
        Err(fault) => recorder.add(format_args!("{fault:?}")),
    }
    recorder.into_text()
}

const FOUR: &[(u64, &str)] = &[
    (8000, "b.wav"),
    (16000, "a/z.wav"),
    (24000, "a.wav"),
    (4, "B.wav"),
];

const TWO_OF_ONE_URI: &[(u64, &str)] = &[(1, "a.wav"), (2, "b.wav"), (3, "a.wav")];

/// The longest URI has 1,024 bytes.
fn longest_uri(alloc: Global) -> Result<String, AllocError> {
    let longest = "u".repeat(alloc, 1_024)?;
    let shorter = longest.as_str().get(1..).unwrap_or("");
    observed_of(
        alloc,
        songs(alloc, &[(8, "u")], 1_024),
        &[longest.as_str(), shorter],
    )
}

fn add_numbered(songs: &mut Vec<Song>, alloc: Global, number: u64) -> Result<(), AllocError> {
    let uri = format!(in alloc; "{number:06}")?;
    let song = Song::new(uri, Vec::new(alloc), number).ok_or(AllocError)?;
    songs.push(song).map_err(AllocError::from)
}

/// So many songs of the URIs 100000, 099999 and so on, each with its number in frames; the last is the first
/// in byte order.
fn numbered(alloc: Global, count: u64) -> Result<Vec<Song>, AllocError> {
    let mut songs = Vec::new(alloc);
    for index in 0..count {
        add_numbered(&mut songs, alloc, 100_000u64.saturating_sub(index))?;
    }
    Ok(songs)
}

const NUMBERED_URIS: &[&str] = &["000001", "100000", "100001"];

// The greatest library has 100,000 songs.
#[test]
fn libraries_and_their_images(rt: HostRuntime) -> Result<(), Fail> {
    let alloc = rt.alloc();
    let uris = &["a.wav", "A.wav", "a.wa", "b.wav", "c.wav"];
    wants(
        observed_of(alloc, songs(alloc, FOUR, 1), uris),
        "4: B.wav a.wav a/z.wav b.wav 24000 24000 none none none none 8000 8000 none none \n\
         4: B.wav a.wav a/z.wav b.wav 24000 24000 none none none none 8000 8000 none none \n",
    )?;
    wants(
        observed_of(alloc, songs(alloc, TWO_OF_ONE_URI, 1), &[]),
        "TwiceNamed",
    )?;
    wants(longest_uri(alloc), "1: 8 8 none none \n1: 8 8 none none \n")?;
    wants(
        observed_of(alloc, numbered(alloc, 100_000), NUMBERED_URIS),
        "100000: 000001 000002 000003 000004 1 1 100000 100000 none none \n\
         100000: 000001 000002 000003 000004 1 1 100000 100000 none none \n",
    )?;
    wants(
        observed_of(alloc, numbered(alloc, 100_001), NUMBERED_URIS),
        "TooMany",
    )
}
