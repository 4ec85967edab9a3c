//! Writers that do some of what they could, or nothing, or fail.
use crate::days::observed_of_pieces;
use crate::wires::Takes;
use std::alloc::{AllocError, Global};
use std::sync::Wait;
use std::test::Fail;
use test_texts::{Recorder, wants, wants_made};

const LINES: &[u8] =
    b"ping\nadd a.wav\nplchangesposid 0\ncommand_list_ok_begin\nping\nping\ncommand_list_end\nfoo\n";

/// What is observed of a client whose writer takes all answers in the end.
const TOLD: &str = "1 open
OK MPD 0.23.0
OK
OK
cpos: 0
Id: 1
OK
list_OK
list_OK
OK
ACK [5@0] {} unknown command \"foo\"
";

fn answers() -> &'static str {
    TOLD.strip_prefix("1 open\n").unwrap_or(TOLD)
}

/// The lines, and a ping once the writer has failed.
const LINES_AND_A_PING: &[&[u8]] = &[LINES, b"ping\n"];

/// The faults that are answered and how the session ends, and so many bytes of the answers.
fn front(alloc: Global, most: usize) -> Result<String, AllocError> {
    let front = answers().get(..most).unwrap_or("");
    format!(in alloc; "write fault answered\n1 write fault\n{front}")
}

/// A writer takes one byte at a time, or two, or three, up to more than all. Another would block after each few
/// bytes; its session has as many turns as bytes are answered, so that all is written. What a writer took that fails
/// after so many bytes is the front of all answers, and then nothing more is written.
fn few_bytes<R: Wait>(rt: &R, alloc: Global) -> Result<(), Fail> {
    let all = answers().len();
    for most in 1..120usize {
        wants(
            observed_of_pieces(rt, alloc, Takes::AtMost(most), &[LINES], 0),
            TOLD,
        )?;
    }
    for most in 1..40usize {
        wants(
            observed_of_pieces(rt, alloc, Takes::Haltingly(most), &[LINES], all),
            TOLD,
        )?;
    }
    for most in 0..all {
        let observed = observed_of_pieces(rt, alloc, Takes::FailsAfter(most), LINES_AND_A_PING, 0);
        wants_made(observed, front(alloc, most))?;
    }
    Ok(())
}

/// Two stickers, and questions for their values: 2,047 for the first, whose value has 8,177 letters, and one
/// for the second, whose value has so many letters.
fn questions(alloc: Global, last: usize) -> Result<String, AllocError> {
    let mut lines = Recorder::new(alloc);
    lines.add("sticker set song a.wav n ");
    lines.add_made("x".repeat(alloc, 8_177));
    lines.add("\nsticker set song a.wav m ");
    lines.add_made("y".repeat(alloc, last));
    lines.add("\n");
    lines.add_made("sticker get song a.wav n\n".repeat(alloc, 2_047));
    lines.add("sticker get song a.wav m\n");
    lines.into_text()
}

/// A client that takes nothing asks for the values of stickers, and then pings. An answer with a value has 15
/// bytes beside its letters: `sticker: n=`, two newlines and `OK`. So the first value makes 2,047 answers of
/// 8,192 bytes, which are 8,192 bytes less than the 16,777,216 that may be unsent. The greeting has 14 bytes,
/// and the answers to the two lines that set stickers and to the ping have 3 each: with 8,154 letters in the
/// second value the limit is met, and with 8,155 it is passed, by the answer to the ping.
fn observed_of_unsent<R: Wait>(rt: &R, alloc: Global, last: usize) -> Result<String, AllocError> {
    let lines = questions(alloc, last)?;
    observed_of_pieces(rt, alloc, Takes::UpTo(0), &[lines.as_bytes(), b"ping\n"], 1)
}

#[test]
fn writers_that_take_few_bytes(rt: HostRuntime) -> Result<(), Fail> {
    few_bytes(&rt, rt.alloc())?;
    wants(observed_of_unsent(&rt, rt.alloc(), 8_154), "1 open\n")?;
    wants(observed_of_unsent(&rt, rt.alloc(), 8_155), "1 unsent\n")
}
