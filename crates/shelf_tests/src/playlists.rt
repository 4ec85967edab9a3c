//! What a shelf of any kind answers about stored playlists.

use crate::calls::{Call, Step, follow};
use shelf::{Shelf, UriList};
use std::alloc::{AllocError, Global};
use std::test::Fail;
use test_texts::{Recorder, wants};

/// A list is kept once, read, renamed, and then missed under its first name.
pub const KEPT_AND_RENAMED: &[Step<'_>] = &[
    (Call::Create("x", &["s.wav"]), "ok"),
    (Call::Create("x", &["s.wav"]), "exists"),
    (Call::List("x"), "s.wav|"),
    (Call::Rename("x", "y"), "ok"),
    (Call::Remove("x"), "no such list"),
    (Call::Lists, "y|"),
    (Call::Remove("y"), "ok"),
    (Call::Lists, ""),
];

/// A missing list comes before a taken name, and this before a bad one.
pub const REFUSALS: &[Step<'_>] = &[
    (Call::Create("x", &["s.wav"]), "ok"),
    (Call::Rename("y", "a/b"), "no such list"),
    (Call::Rename("x", "x"), "exists"),
    (Call::Rename("x", "a/b"), "bad name"),
    (Call::Create("a/b", &[]), "bad name"),
    (Call::Put("", &[]), "bad name"),
    (Call::List("a/b"), "no such list"),
    (Call::Lists, "x|"),
];

/// Names are listed by their bytes, and a put replaces all URIs of its list alone.
pub const NAMES: &[Step<'_>] = &[
    (Call::Create("é", &["a.wav", "b.wav"]), "ok"),
    (Call::Create("b", &["a.wav", "b.wav"]), "ok"),
    (Call::Create("B", &["a.wav", "b.wav"]), "ok"),
    (Call::Put("b", &["é\u{1}\r.wav", "", "b.wav"]), "ok"),
    (Call::Lists, "B|b|é|"),
    (Call::List("b"), "é\u{1}\r.wav||b.wav|"),
    (Call::List("B"), "a.wav|b.wav|"),
];

/// So many URIs, told apart by a number of five digits before so many equal bytes.
fn numbered(alloc: Global, count: u32, more: usize) -> Result<UriList, AllocError> {
    let rest = "u".repeat(alloc, more)?;
    let mut text = Recorder::new(alloc);
    for number in 0..count {
        text.add(format_args!("{number:05}{rest}\n"));
    }
    Ok(UriList::of_text(text.into_text()?))
}

/// A list of a name that is put, and renamed to another.
fn follow_names<'x, S: Shelf>(
    alloc: Global,
    shelf: &mut S,
    name: &'x str,
    other: &'x str,
) -> Result<(), Fail> {
    let lists = format!(in alloc; "{other}|")?;
    follow(
        alloc,
        shelf,
        &[
            (Call::Create(name, &["a.wav"]), "ok"),
            (Call::Put(name, &["b.wav"]), "ok"),
            (Call::Rename(name, other), "ok"),
            (Call::Lists, lists.as_str()),
            (Call::List(other), "b.wav|"),
            (Call::Remove(other), "ok"),
            (Call::Lists, ""),
        ],
    )
}

/// A name of 255 bytes is created, put, renamed, read and removed.
pub fn names_of_255_bytes_are_taken<S: Shelf>(alloc: Global, shelf: &mut S) -> Result<(), Fail> {
    let name = "n".repeat(alloc, 255)?;
    let other = "o".repeat(alloc, 255)?;
    follow_names(alloc, shelf, name.as_str(), other.as_str())
}

/// A name of 256 bytes is refused by the calls that would put it on the shelf, and is missing for the others.
pub fn names_of_256_bytes_are_refused<S: Shelf>(alloc: Global, shelf: &mut S) -> Result<(), Fail> {
    let name = "n".repeat(alloc, 256)?;
    let name = name.as_str();
    follow(
        alloc,
        shelf,
        &[
            (Call::Create("x", &["a.wav"]), "ok"),
            (Call::Create(name, &["a.wav"]), "bad name"),
            (Call::Put(name, &["a.wav"]), "bad name"),
            (Call::Rename("x", name), "bad name"),
            (Call::Rename(name, "y"), "no such list"),
            (Call::Remove(name), "no such list"),
            (Call::Lists, "x|"),
        ],
    )
}

/// Whether the list of a name has these URIs.
fn has<S: Shelf>(shelf: &mut S, name: &str, uris: &UriList) -> bool {
    match shelf.list(name) {
        Ok(found) => found.is_same(uris),
        Err(_) => false,
    }
}

/// Whether the URIs come back under a name, and under another after a rename.
fn come_back<S: Shelf>(shelf: &mut S, uris: &UriList) -> bool {
    shelf.create("x", uris).is_ok()
        && has(shelf, "x", uris)
        && shelf.rename("x", "y").is_ok()
        && has(shelf, "y", uris)
}

/// How many URIs a numbered list has, of how many bytes with an end of line after each, and whether they come
/// back.
fn numbered_observed<S: Shelf>(
    alloc: Global,
    shelf: &mut S,
    count: u32,
    more: usize,
) -> Result<String, AllocError> {
    let uris = numbered(alloc, count, more)?;
    let (len, bytes) = (uris.len(), uris.text().len());
    let is_back = come_back(shelf, &uris);
    format!(in alloc; "{len} URIs, {bytes} bytes, {is_back}")
}

/// A list of 16,384 URIs comes back.
pub fn the_longest_list_is_kept<S: Shelf>(alloc: Global, shelf: &mut S) -> Result<(), Fail> {
    let observed = numbered_observed(alloc, shelf, 16_384, 8);
    wants(observed, "16384 URIs, 229376 bytes, true")
}

/// URIs of 1,024 bytes come back.
pub fn long_uris_come_back<S: Shelf>(alloc: Global, shelf: &mut S) -> Result<(), Fail> {
    let observed = numbered_observed(alloc, shelf, 300, 1_019);
    wants(observed, "300 URIs, 307500 bytes, true")
}
