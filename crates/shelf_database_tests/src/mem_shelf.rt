//! The shelf in memory, and what is asked about names and about lists of URIs without one.

use shelf::{MemShelf, UriList, is_list_name, is_sticker_name, next_uri};
use shelf_tests::calls::{add_uris, uri_list};
use shelf_tests::cases::{CASES, look_at};
use std::alloc::{AllocError, Global};
use std::test::Fail;
use test_texts::{Recorder, wants};

/// Looks at an empty shelf in each case. Here alone it is proved that this is a shelf: once, and not in each
/// test.
fn look(alloc: Global) -> Result<(), Fail> {
    for case in CASES.iter() {
        look_at(alloc, &mut MemShelf::new(alloc), *case)?;
    }
    Ok(())
}

// What a failure says names the call that was answered otherwise, so one test looks at every case.
#[test]
fn every_case_in_memory(rt: HostRuntime) -> Result<(), Fail> {
    look(rt.alloc())
}

/// What is asked.
#[derive(Clone, Copy)]
enum Ask<'a> {
    /// Whether a list may have this name.
    ListName(&'a str),
    /// Whether a sticker may have this name.
    StickerName(&'a str),
    /// The text of a list of these URIs.
    TextOf(&'a [&'a str]),
    /// The URIs of a text, with a bar after each.
    UrisIn(&'a str),
    /// Two URIs that are pushed on a list, how many there are, and whether there were and are none.
    Pushed,
    /// Whether two texts have the same URIs; the first is copied before.
    AreSame(&'a str, &'a str),
    /// The first URI of a text and what comes after it, with a bar between them.
    First(&'a str),
}

/// What is asked, and what is answered.
const ASKED: &[(Ask<'_>, &str)] = &[
    (Ask::ListName("a b=c"), "true"),
    (Ask::ListName("音楽"), "true"),
    (Ask::ListName("."), "true"),
    (Ask::ListName("a\u{1f}"), "false"),
    (Ask::ListName(""), "false"),
    (Ask::ListName("a/b"), "false"),
    (Ask::StickerName("a/b\u{0}"), "true"),
    (Ask::StickerName(""), "false"),
    (Ask::StickerName("="), "false"),
    (Ask::StickerName("a="), "false"),
    (Ask::TextOf(&["a.wav", "", "é b.wav"]), "a.wav\n\né b.wav\n"),
    (Ask::UrisIn("a.wav\n\né b.wav\nno line"), "a.wav||é b.wav|"),
    (Ask::UrisIn("no line"), ""),
    (Ask::Pushed, "é b.wav|| 2 true false"),
    (Ask::AreSame("a\nb\n", "a\nb\nc"), "true"),
    (Ask::AreSame("a\nb\n", "b\na\n"), "false"),
    (Ask::First("\né.wav\n"), "|é.wav\n"),
    (Ask::First("é.wav\n"), "é.wav|"),
    (Ask::First("é.wav"), "none"),
];

fn list_of(alloc: Global, text: &str) -> Result<UriList, AllocError> {
    Ok(UriList::of_text(String::from_str(alloc, text)?))
}

fn add_pushed(recorder: &mut Recorder, alloc: Global) {
    let mut uris = UriList::new(alloc);
    let was_empty = uris.is_empty();
    if uris.push("é b.wav").is_err() || uris.push("").is_err() {
        recorder.fail();
    }
    add_uris(recorder, &uris, '|');
    let (len, is_empty) = (uris.len(), uris.is_empty());
    recorder.add(format_args!(" {len} {was_empty} {is_empty}"));
}

fn are_same(alloc: Global, text: &str, other: &str) -> Result<bool, AllocError> {
    let uris = list_of(alloc, text)?.clone()?;
    Ok(uris.is_same(&list_of(alloc, other)?))
}

fn add_first(recorder: &mut Recorder, text: &str) {
    match next_uri(text) {
        Some((uri, more)) => recorder.add(format_args!("{uri}|{more}")),
        None => recorder.add("none"),
    }
}

fn answer(alloc: Global, ask: Ask<'_>) -> Result<String, AllocError> {
    let mut recorder = Recorder::new(alloc);
    match ask {
        Ask::ListName(name) => recorder.add(is_list_name(name)),
        Ask::StickerName(name) => recorder.add(is_sticker_name(name)),
        Ask::TextOf(uris) => recorder.add(uri_list(alloc, uris)?.text()),
        Ask::UrisIn(text) => add_uris(&mut recorder, &list_of(alloc, text)?, '|'),
        Ask::Pushed => add_pushed(&mut recorder, alloc),
        Ask::AreSame(text, other) => recorder.add(are_same(alloc, text, other)?),
        Ask::First(text) => add_first(&mut recorder, text),
    }
    recorder.into_text()
}

#[test]
fn names_and_lists_of_uris(rt: HostRuntime) -> Result<(), Fail> {
    for (ask, expected) in ASKED {
        wants(answer(rt.alloc(), *ask), expected)?;
    }
    Ok(())
}
