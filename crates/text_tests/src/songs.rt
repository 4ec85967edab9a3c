//! Songs and tags.
use mpd_text::{BASE_TAG_NAMES, Song, TAG_NAMES, Tag, TagName, text_of_tag};
use std::alloc::{AllocError, Global};
use std::test::Fail;
use test_texts::{Recorder, wants, wants_made};

/// Adds the URI, the frames, and each tag after a bar.
pub fn add_song(recorder: &mut Recorder, song: &Song) {
    recorder.add(format_args!("{} {}", song.uri(), song.frames()));
    for tag in song.tags() {
        recorder.add(format_args!("|{:?}={}", tag.name(), tag.text()));
    }
}

/// A tag of each name, with this text.
fn tags(alloc: Global, names: &[TagName], text: &str) -> Result<Vec<Tag>, AllocError> {
    let mut tags = Vec::new(alloc);
    for name in names {
        tags.push(Tag::new(*name, String::from_str(alloc, text)?))?;
    }
    Ok(tags)
}

/// A song as it is shown, with these tags of one text, or that it is refused.
fn made_and_shown(
    alloc: Global,
    uri: &str,
    names: &[TagName],
    text: &str,
    frames: u64,
) -> Result<String, AllocError> {
    let uri = String::from_str(alloc, uri)?;
    let song = Song::new(uri, tags(alloc, names, text)?, frames);
    let mut recorder = Recorder::new(alloc);
    match song {
        Some(song) => add_song(&mut recorder, &song),
        None => recorder.add("a newline"),
    }
    recorder.into_text()
}

fn longest_observed(alloc: Global) -> Result<String, AllocError> {
    let uri = "u".repeat(alloc, 1_024)?;
    let text = "x".repeat(alloc, 1_024)?;
    made_and_shown(
        alloc,
        uri.as_str(),
        &TAG_NAMES,
        text.as_str(),
        4_294_967_295,
    )
}

/// What it is to be.
fn longest(alloc: Global) -> Result<String, AllocError> {
    let uri = "u".repeat(alloc, 1_024)?;
    let text = "x".repeat(alloc, 1_024)?;
    format!(in alloc;
        "{uri} 4294967295|Title={text}|Artist={text}|Album={text}|Date={text}|Genre={text}|Comment={text}\
         |AlbumArtist={text}|Track={text}|Disc={text}|Composer={text}"
    )
}

fn names_in_order(alloc: Global, names: &[TagName]) -> Result<String, AllocError> {
    let mut recorder = Recorder::new(alloc);
    for name in names {
        recorder.add(format_args!("{}|", name.text()));
    }
    recorder.into_text()
}

/// The text that is read of each tag of a song with these tags, a bar after each.
fn texts_read(alloc: Global, given: &[(TagName, &str)]) -> Result<String, AllocError> {
    let mut tags = Vec::new(alloc);
    for (name, text) in given {
        tags.push(Tag::new(*name, String::from_str(alloc, text)?))?;
    }
    let mut recorder = Recorder::new(alloc);
    for name in TAG_NAMES.iter() {
        recorder.add(format_args!("{}|", text_of_tag(&tags, *name)));
    }
    recorder.into_text()
}

/// The first of two titles is read; without an artist of the album that is the artist.
#[test]
fn texts_of_tags(rt: HostRuntime) -> Result<(), Fail> {
    let titles = &[
        (TagName::Artist, "Ann"),
        (TagName::Title, "One"),
        (TagName::Title, "Two"),
        (TagName::Track, "10/12"),
    ];
    wants(texts_read(rt.alloc(), titles), "One|Ann|||||Ann|10/12|||")?;
    let various = &[
        (TagName::Composer, "Bach"),
        (TagName::Artist, "Bob"),
        (TagName::AlbumArtist, "Various"),
        (TagName::Disc, "2"),
    ];
    wants(texts_read(rt.alloc(), various), "|Bob|||||Various||2|Bach|")?;
    let alone = &[(TagName::AlbumArtist, "Various")];
    wants(texts_read(rt.alloc(), alone), "||||||Various||||")
}

/// A song and one that is refused, the longest texts, and the order of tags.
#[test]
fn songs_and_tags(rt: HostRuntime) -> Result<(), Fail> {
    let observed = made_and_shown(rt.alloc(), "folder/b.wav", &[TagName::Title], "Bee", 16_000);
    wants(observed, "folder/b.wav 16000|Title=Bee")?;
    let refused = made_and_shown(rt.alloc(), "a\n.wav", &[], "", 1);
    wants(refused, "a newline")?;
    wants_made(longest_observed(rt.alloc()), longest(rt.alloc()))?;
    wants(
        names_in_order(rt.alloc(), &TAG_NAMES),
        "Title|Artist|Album|Date|Genre|Comment|AlbumArtist|Track|Disc|Composer|",
    )?;
    wants(
        names_in_order(rt.alloc(), &BASE_TAG_NAMES),
        "Title|Artist|Album|Date|Genre|Comment|",
    )
}
