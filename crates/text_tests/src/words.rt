//! A line as words, and texts in quotes.
use crate::tables::{Reads, all_agree, read, repeated};
use mpd_text::{WordsFault, one_reading, some_reading, words, words_read_quotes};
use std::alloc::{AllocError, Global};
use std::test::Fail;
use test_texts::{Recorder, wants, wants_made};

fn add_each(recorder: &mut Recorder, words: &[String]) {
    for word in words {
        recorder.add(format_args!("{word}|"));
    }
}

/// Adds the words with a bar after each, or the fault's name.
pub fn add_words(recorder: &mut Recorder, alloc: Global, line: &str) {
    match words(alloc, line) {
        Ok(found) => add_each(recorder, found.as_slice()),
        Err(WordsFault::NoMemory) => recorder.fail(),
        Err(fault) => recorder.add(format_args!("{fault:?}")),
    }
}

// The last lines have 65 words, the most, and one more with each fault.
const FAULTS: &str = "add a.wav => add|a.wav|
\t find  \"(Artist == \\\"foo\\\")\"  => find|(Artist == \"foo\")|
 \t  =>\u{20}
add \"\" => add||
add \"\\Zo\u{eb}\\\\\" => add|Zo\u{eb}\\|
foo \"x => NoClosingQuote
foo \"x\\ => NoClosingQuote
add \"x\"y => NoSpaceAfterQuote
add a\"b => BadUnquoted
add 'a' => BadUnquoted
ping\r => BadUnquoted
add a\"b \"x => BadUnquoted
add \"x\"y a\"b => NoSpaceAfterQuote
ping x x x x x x x x x x x x x x x x x x x x x x x x x x x x x x x x x x x x x x x x x x x x x x x x x x x x x x x x x x x x x x x x => ping|x|x|x|x|x|x|x|x|x|x|x|x|x|x|x|x|x|x|x|x|x|x|x|x|x|x|x|x|x|x|x|x|x|x|x|x|x|x|x|x|x|x|x|x|x|x|x|x|x|x|x|x|x|x|x|x|x|x|x|x|x|x|x|x|
ping x x x x x x x x x x x x x x x x x x x x x x x x x x x x x x x x x x x x x x x x x x x x x x x x x x x x x x x x x x x x x x x x x => TooMany
ping x x x x x x x x x x x x x x x x x x x x x x x x x x x x x x x x x x x x x x x x x x x x x x x x x x x x x x x x x x x x x x x x \"x\"y => TooMany
ping x x x x x x x x x x x x x x x x x x x x x x x x x x x x x x x x x x x x x x x x x x x x x x x x x x x x x x x x x x x x x x x x a\"b => TooMany
ping x x x x x x x x x x x x x x x x x x x x x x x x x x x x x x x x x x x x x x x x x x x x x x x x x x x x x x x x x x x x x x x x \" => TooMany";

const SEVERAL_BYTES: &str = "\u{eb}\u{20ac}\u{1f3b5} \u{eb} => \u{eb}\u{20ac}\u{1f3b5}|\u{eb}|
\"\\\u{1f3b5}\\\u{eb}\" => \u{1f3b5}\u{eb}|
\u{a0} => \u{a0}|";

// The third is the reference's example of a filter, and of the same as an argument.
const QUOTED: &str = "a\"b\\ => \"a\\\"b\\\\\"
 => \"\"
(Artist == \"foo\\'bar\\\"\") => \"(Artist == \\\"foo\\\\'bar\\\\\\\"\\\")\"
Zo\u{eb}\t\u{1f3b5} => \"Zo\u{eb}\t\u{1f3b5}\"
1 \"\\\u{1f3b5}\\ => \"1 \\\"\\\\\u{1f3b5}\\\\\"";

/// The first fault of words, words of several bytes a character, and texts in quotes.
#[test]
fn words_and_quotes(rt: HostRuntime) -> Result<(), Fail> {
    all_agree(rt.alloc(), Reads::Words, FAULTS)?;
    all_agree(rt.alloc(), Reads::Words, SEVERAL_BYTES)?;
    all_agree(rt.alloc(), Reads::Quoted, QUOTED)
}

/// What is read of a line with a text so many times, between two others.
fn long_read(
    alloc: Global,
    before: &str,
    text: &str,
    count: usize,
    after: &str,
) -> Result<String, AllocError> {
    let line = repeated(alloc, before, text, count, after)?;
    read(alloc, Reads::Words, line.as_str())
}

/// A text in quotes, as the table above has it, and a space after it.
const IN_QUOTES: &str = "\"1 \\\"\\\\\u{1f3b5}\\\\\" ";

/// Lines of 16,384 bytes: a command of 4 bytes, a space and an argument of 16,379; and one quoted word of 8,191
/// characters, each after a backslash. And quoted texts are read back.
#[test]
fn long_lines(rt: HostRuntime) -> Result<(), Fail> {
    wants_made(
        long_read(rt.alloc(), "find ", "x", 16_379, ""),
        repeated(rt.alloc(), "find|", "x", 16_379, "|"),
    )?;
    wants_made(
        long_read(rt.alloc(), "\"", "\\\"", 8_191, "\""),
        repeated(rt.alloc(), "", "\"", 8_191, "|"),
    )?;
    wants_made(
        long_read(rt.alloc(), "", IN_QUOTES, 65, ""),
        repeated(rt.alloc(), "", "1 \"\\\u{1f3b5}\\|", 65, ""),
    )?;
    wants(long_read(rt.alloc(), "", IN_QUOTES, 66, ""), "TooMany")
}

#[test]
fn laws_can_be_called() {
    one_reading();
    some_reading();
    words_read_quotes();
}
