//! Tables of worked cases, with a line for each.
use crate::{answers, script, words};
use mpd_text::quote;
use std::alloc::{AllocError, Global};
use std::test::Fail;
use test_texts::{Recorder, wants};

/// What reads the left side of a line of a table.
#[derive(Clone, Copy)]
pub enum Reads {
    /// A number.
    Number,
    /// The words of a client's line.
    Words,
    /// A text in quotes.
    Quoted,
    /// The kind of a script's line.
    Head,
    /// A step of a script.
    Step,
}

/// What is read of a text.
pub fn read(alloc: Global, reads: Reads, text: &str) -> Result<String, AllocError> {
    let mut recorder = Recorder::new(alloc);
    match reads {
        Reads::Number => answers::add_number(&mut recorder, text),
        Reads::Words => words::add_words(&mut recorder, alloc, text),
        Reads::Quoted => recorder.add_made(quote(alloc, text)),
        Reads::Head => script::add_head(&mut recorder, text),
        Reads::Step => script::add_step(&mut recorder, alloc, text),
    }
    recorder.into_text()
}

fn agrees(alloc: Global, reads: Reads, line: &str) -> Result<(), Fail> {
    let (given, expected) = line.split_once(" => ").unwrap_or((line, "?"));
    wants(read(alloc, reads, given), expected)
}

/// Passes where each line of a table says what is read of its left side.
pub fn all_agree(alloc: Global, reads: Reads, table: &str) -> Result<(), Fail> {
    for line in table.lines() {
        agrees(alloc, reads, line)?;
    }
    Ok(())
}

/// A text so many times, between two others.
pub fn repeated(
    alloc: Global,
    before: &str,
    text: &str,
    count: usize,
    after: &str,
) -> Result<String, AllocError> {
    let long = text.repeat(alloc, count)?;
    format!(in alloc; "{before}{long}{after}")
}
