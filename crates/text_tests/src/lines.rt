//! A stream as lines.
use crate::tables::repeated;
use mpd_text::{Line, SplitFault, Splitter, any_cut, lines_make_the_stream, pieces_do_not_matter};
use std::alloc::{AllocError, Global};
use std::test::Fail;
use test_texts::{Recorder, wants, wants_made};

fn text_of(line: &Line) -> &str {
    match line {
        Line::Text(text) => text.as_str(),
        Line::NotText => "!",
    }
}

/// Adds the lines with a bar after each, and `!` for a line that is not text.
fn add_lines(recorder: &mut Recorder, lines: &[Line]) {
    for line in lines {
        recorder.add(format_args!("{}|", text_of(line)));
    }
    recorder.add("\n");
}

/// Adds the lines that a piece gives, after `too long: ` where the line after them is.
fn feed(splitter: &mut Splitter, piece: &[u8], recorder: &mut Recorder) {
    match splitter.feed(piece) {
        Ok(lines) => add_lines(recorder, lines.as_slice()),
        Err(SplitFault::LineTooLong(lines)) => {
            recorder.add("too long: ");
            add_lines(recorder, lines.as_slice());
        }
        Err(SplitFault::NoMemory) => recorder.fail(),
    }
}

/// What each of these pieces of a stream gives, and whether the splitter is closed after them.
fn fed(alloc: Global, pieces: &[&[u8]]) -> Result<String, AllocError> {
    let mut recorder = Recorder::new(alloc);
    let mut splitter = Splitter::new(alloc);
    for piece in pieces {
        feed(&mut splitter, piece, &mut recorder);
    }
    recorder.add(if splitter.is_closed() {
        "closed"
    } else {
        "open"
    });
    recorder.into_text()
}

/// Lines in pieces, an empty one, one that is not text, and one whose character is cut.
fn short_lines(alloc: Global) -> Result<String, AllocError> {
    fed(
        alloc,
        &[
            b"\x70\x69",
            b"\x6e\x67\x0a",
            b"ping\r\n",
            b"\xff\x0a",
            b"\nping\r\r\n\xc3",
            b"\xab\r",
            b"\nstatus\n",
        ],
    )
}

/// A line of 16,384 bytes and one of 16,385 by its carriage return.
fn longest_line(alloc: Global) -> Result<String, AllocError> {
    let long = "x".repeat(alloc, 16_384)?;
    let line = long.as_bytes();
    fed(alloc, &[line, b"\n", line, b"\r\n"])
}

/// A line of 16,385 bytes after two others, and one more piece.
fn line_too_long(alloc: Global) -> Result<String, AllocError> {
    let stream = repeated(alloc, "ping\nstatus\n", "x", 16_385, "")?;
    fed(alloc, &[stream.as_bytes(), b"ping\n"])
}

#[test]
fn a_stream_as_lines(rt: HostRuntime) -> Result<(), Fail> {
    wants(
        short_lines(rt.alloc()),
        "\nping|\nping|\n!|\n|ping\r|\n\n\u{eb}|status|\nopen",
    )?;
    wants_made(
        longest_line(rt.alloc()),
        repeated(rt.alloc(), "\n", "x", 16_384, "|\n\ntoo long: \nclosed"),
    )?;
    wants(
        line_too_long(rt.alloc()),
        "too long: ping|status|\ntoo long: \nclosed",
    )
}

#[test]
fn laws_can_be_called() {
    any_cut();
    pieces_do_not_matter();
    lines_make_the_stream();
}
