//! Lines, however their bytes are cut, and command lists of the greatest size, and larger.
use crate::days::observed_of_pieces;
use crate::wires::{Takes, without_x};
use std::alloc::{AllocError, Global};
use std::sync::Wait;
use std::test::Fail;
use test_texts::{Recorder, wants};

const ROW: &[u8] = b"ping\ncommand_list_ok_begin\nping\ncommand_list_end\n";

const ANSWERS: &str = "1 open\nOK MPD 0.23.0\nOK\nlist_OK\nOK\n";

/// The session reads one byte of the row a turn.
fn observed_byte_by_byte<R: Wait>(rt: &R, alloc: Global) -> Result<String, AllocError> {
    let mut pieces = Vec::new(alloc);
    for at in 0..ROW.len() {
        pieces.push(&ROW[at..=at])?;
    }
    observed_of_pieces(rt, alloc, Takes::All, &pieces, 0)
}

/// The row is cut at each offset into two.
fn cut_into_two<R: Wait>(rt: &R, alloc: Global) -> Result<(), Fail> {
    for cut in 0..=ROW.len() {
        let pieces = [&ROW[..cut], &ROW[cut..]];
        wants(
            observed_of_pieces(rt, alloc, Takes::All, &pieces, 0),
            ANSWERS,
        )?;
    }
    Ok(())
}

const THREE_PIECES: &[&[u8]] = &[
    b"pi",
    b"ng\ncommand_list_ok_begin\nping\n",
    b"command_list_end\n",
];

/// A `ping`, a line of so many bytes, and another `ping`. What the line holds is not shown.
fn observed_of_length<R: Wait>(rt: &R, alloc: Global, length: usize) -> Result<String, AllocError> {
    let mut line = Recorder::new(alloc);
    line.add_made("x".repeat(alloc, length));
    line.add("\n");
    let line = line.into_text()?;
    let pieces = [b"ping\n".as_slice(), line.as_bytes(), b"ping\n".as_slice()];
    without_x(alloc, observed_of_pieces(rt, alloc, Takes::All, &pieces, 0))
}

/// What is observed of two lines before a line that is too long, and one after it, all in one piece.
fn observed_around_long_line<R: Wait>(rt: &R, alloc: Global) -> Result<String, AllocError> {
    let mut lines = Recorder::new(alloc);
    lines.add("ping\nping\n");
    lines.add_made("x".repeat(alloc, 20_000));
    lines.add("\nping\n");
    let lines = lines.into_text()?;
    observed_of_pieces(rt, alloc, Takes::All, &[lines.as_bytes()], 0)
}

/// A list of 128 lines of 16,384 bytes each, newlines counted, which is the most; after them perhaps some
/// more bytes, the end of the list, and a `ping`. What the lines hold is not shown.
fn observed_of_large_list<R: Wait>(
    rt: &R,
    alloc: Global,
    more: &str,
) -> Result<String, AllocError> {
    let mut lines = Recorder::new(alloc);
    lines.add("ping\ncommand_list_begin\n");
    for _line in 0..128u32 {
        lines.add_made("x".repeat(alloc, 16_383));
        lines.add("\n");
    }
    lines.add(more);
    lines.add("command_list_end\nping\n");
    let lines = lines.into_text()?;
    without_x(
        alloc,
        observed_of_pieces(rt, alloc, Takes::All, &[lines.as_bytes()], 0),
    )
}

/// A line of the greatest length is answered, and a longer one closes: lines before it in the same piece are
/// answered, and those after it are not. A list of the greatest size is run, and a larger one closes.
#[test]
fn lines_and_lists(rt: HostRuntime) -> Result<(), Fail> {
    let alloc = rt.alloc();
    wants(
        observed_of_pieces(&rt, alloc, Takes::All, THREE_PIECES, 0),
        ANSWERS,
    )?;
    cut_into_two(&rt, alloc)?;
    wants(observed_byte_by_byte(&rt, alloc), ANSWERS)?;
    let answered = "1 open\nOK MPD 0.23.0\nOK\nACK [5@0] {} unknown command \"\"\nOK\n";
    wants(observed_of_length(&rt, alloc, 16_384), answered)?;
    let closed = "1 long line\nOK MPD 0.23.0\nOK\n";
    wants(observed_of_length(&rt, alloc, 16_385), closed)?;
    let closed_later = "1 long line\nOK MPD 0.23.0\nOK\nOK\n";
    wants(observed_around_long_line(&rt, alloc), closed_later)?;
    let run = "1 open\nOK MPD 0.23.0\nOK\nACK [5@0] {} unknown command \"\"\nOK\n";
    wants(observed_of_large_list(&rt, alloc, ""), run)?;
    let closed = "1 large list\nOK MPD 0.23.0\nOK\n";
    wants(observed_of_large_list(&rt, alloc, "\n"), closed)
}
