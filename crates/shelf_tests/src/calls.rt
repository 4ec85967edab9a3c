//! The calls of a shelf, of which each tells one text.

use shelf::{Entry, Shelf, ShelfFault, StickerKind, UriList};
use std::alloc::{AllocError, Global};
use std::test::Fail;
use test_texts::{Recorder, wants};

/// A call, with names, URIs and texts as the trait has them.
#[derive(Clone, Copy)]
pub enum Call<'a> {
    Create(&'a str, &'a [&'a str]),
    Put(&'a str, &'a [&'a str]),
    Rename(&'a str, &'a str),
    Remove(&'a str),
    List(&'a str),
    Lists,
    SetSticker(StickerKind, &'a str, &'a str, &'a str),
    Sticker(StickerKind, &'a str, &'a str),
    FindStickers(StickerKind, &'a str),
    StickersOf(StickerKind, &'a str),
    DeleteSticker(StickerKind, &'a str, &'a str),
    DeleteStickers(StickerKind, &'a str),
}

/// A call and what it tells: `ok`, the fault, or each text of the answer with a bar after it, and `=` between
/// the texts of an entry.
pub type Step<'a> = (Call<'a>, &'a str);

/// What a fault is called.
fn fault_name(fault: ShelfFault) -> &'static str {
    match fault {
        ShelfFault::NoSuchList => "no such list",
        ShelfFault::Exists => "exists",
        ShelfFault::BadName => "bad name",
        ShelfFault::NoSticker => "no sticker",
        ShelfFault::StoreFault => "store fault",
        ShelfFault::NoMemory => "no memory",
    }
}

fn done(answer: Result<(), ShelfFault>) -> &'static str {
    match answer {
        Ok(()) => "ok",
        Err(fault) => fault_name(fault),
    }
}

/// Puts these URIs at the name by `create`, or else by `put`.
pub fn keep<S: Shelf>(
    alloc: Global,
    shelf: &mut S,
    name: &str,
    uris: &[&str],
    is_new: bool,
) -> Result<(), ShelfFault> {
    let uris = uri_list(alloc, uris)?;
    if is_new {
        shelf.create(name, &uris)
    } else {
        shelf.put(name, &uris)
    }
}

/// The list of these URIs.
pub fn uri_list(alloc: Global, uris: &[&str]) -> Result<UriList, AllocError> {
    let mut text = Recorder::new(alloc);
    for uri in uris {
        text.add(format_args!("{uri}\n"));
    }
    Ok(UriList::of_text(text.into_text()?))
}

/// Adds the URIs of a list, with the character after each.
pub fn add_uris(recorder: &mut Recorder, uris: &UriList, after: char) {
    for c in uris.text().chars() {
        recorder.add(if c == '\n' { after } else { c });
    }
}

fn add_list(recorder: &mut Recorder, answer: Result<UriList, ShelfFault>) {
    match answer {
        Ok(uris) => add_uris(recorder, &uris, '|'),
        Err(fault) => recorder.add(fault_name(fault)),
    }
}

fn add_lists(recorder: &mut Recorder, answer: Result<Vec<String>, ShelfFault>) {
    match answer {
        Ok(names) => {
            for name in &names {
                recorder.add(format_args!("{name}|"));
            }
        }
        Err(fault) => recorder.add(fault_name(fault)),
    }
}

fn add_sticker(recorder: &mut Recorder, answer: Result<String, ShelfFault>) {
    match answer {
        Ok(value) => recorder.add(format_args!("{value}|")),
        Err(fault) => recorder.add(fault_name(fault)),
    }
}

fn add_entries(recorder: &mut Recorder, answer: Result<Vec<Entry>, ShelfFault>) {
    match answer {
        Ok(entries) => {
            for entry in &entries {
                let (key, value) = (entry.key.as_str(), entry.value.as_str());
                recorder.add(format_args!("{key}={value}|"));
            }
        }
        Err(fault) => recorder.add(fault_name(fault)),
    }
}

/// Adds what a call tells.
fn add_answer<S: Shelf>(recorder: &mut Recorder, alloc: Global, shelf: &mut S, call: Call<'_>) {
    let answer = match call {
        Call::List(name) => return add_list(recorder, shelf.list(name)),
        Call::Lists => return add_lists(recorder, shelf.lists()),
        Call::Sticker(kind, target, name) => {
            return add_sticker(recorder, shelf.sticker(kind, target, name));
        }
        Call::FindStickers(kind, name) => {
            return add_entries(recorder, shelf.find_stickers(kind, name));
        }
        Call::StickersOf(kind, target) => {
            return add_entries(recorder, shelf.stickers_of(kind, target));
        }
        Call::Create(name, uris) => keep(alloc, shelf, name, uris, true),
        Call::Put(name, uris) => keep(alloc, shelf, name, uris, false),
        Call::Rename(name, new_name) => shelf.rename(name, new_name),
        Call::Remove(name) => shelf.remove(name),
        Call::SetSticker(kind, target, name, value) => shelf.set_sticker(kind, target, name, value),
        Call::DeleteSticker(kind, target, name) => shelf.delete_sticker(kind, target, name),
        Call::DeleteStickers(kind, target) => shelf.delete_stickers(kind, target),
    };
    recorder.add(done(answer));
}

/// What a call tells.
fn observed<S: Shelf>(alloc: Global, shelf: &mut S, call: Call<'_>) -> Result<String, AllocError> {
    let mut observed = Recorder::new(alloc);
    add_answer(&mut observed, alloc, shelf, call);
    observed.into_text()
}

/// Makes the calls one after the other, and fails where one tells something else.
pub fn follow<S: Shelf>(alloc: Global, shelf: &mut S, steps: &[Step<'_>]) -> Result<(), Fail> {
    for step in steps {
        wants(observed(alloc, shelf, step.0), step.1)?;
    }
    Ok(())
}
