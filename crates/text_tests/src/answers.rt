//! Numbers, answers, and texts.
use crate::tables::{Reads, all_agree, repeated};
use mpd_text::{Answer, ErrorNumber, SharedText, Text, number};
use std::alloc::{AllocError, Global};
use std::test::Fail;
use test_texts::{Recorder, wants, wants_made};

/// Adds the number of a text, or that there is none.
pub fn add_number(recorder: &mut Recorder, text: &str) {
    match number(text) {
        Some(number) => recorder.add(number),
        None => recorder.add("none"),
    }
}

const NUMBERS: &str = "0 => 0
17 => 17
4294967295 => 4294967295
00000000004294967295 => 4294967295
4294967296 => none
18446744073709551617 => none
 => none
-1 => none
+1 => none
 1 => none
1.5 => none
\u{663} => none";

/// Whether its bytes are those of its text, the same of what an answer is shared as, and the text of a clone.
fn shared_observed(alloc: Global, answer: Answer) -> Result<String, AllocError> {
    let is_answer = answer.bytes() == answer.as_str().as_bytes();
    let shared = SharedText::of(answer.into_string())?;
    let is_shared = shared.bytes() == shared.as_str().as_bytes();
    let kept = shared.clone()?;
    format!(in alloc; "{is_answer} {is_shared} {}", kept.as_str())
}

/// Adds a line of each kind.
fn fill(answer: &mut Answer) -> Result<(), AllocError> {
    answer.pair("volume", 100)?;
    answer.pair("partition", "default")?;
    answer.ok()?;
    answer.list_ok()?;
    answer.ack(ErrorNumber::NoExist, 2, "add", "no such song")
}

fn observed_of_each(alloc: Global) -> Result<String, AllocError> {
    let mut answer = Answer::new(alloc);
    fill(&mut answer)?;
    shared_observed(alloc, answer)
}

/// Adds lines of numbers, and lines that a text is already.
fn fill_with_number(answer: &mut Answer, number: u64) -> Result<(), AllocError> {
    answer.pair_number("Pos", number)?;
    answer.pair_seconds("duration", number)?;
    answer.push_lines("file: a.wav\n")?;
    answer.push_lines("")
}

fn numbered(alloc: Global) -> Result<String, AllocError> {
    let mut answer = Answer::new(alloc);
    fill_with_number(&mut answer, 61_005)?;
    fill_with_number(&mut answer, 0)?;
    fill_with_number(&mut answer, u64::MAX)?;
    Ok(answer.into_string())
}

const NUMBERED: &str = "Pos: 61005
duration: 61.005
file: a.wav
Pos: 0
duration: 0.000
file: a.wav
Pos: 18446744073709551615
duration: 18446744073709551.615
file: a.wav
";

const ERRORS: [ErrorNumber; 9] = [
    ErrorNumber::Argument,
    ErrorNumber::Permission,
    ErrorNumber::Unknown,
    ErrorNumber::NoExist,
    ErrorNumber::PlaylistMax,
    ErrorNumber::System,
    ErrorNumber::UpdateAlready,
    ErrorNumber::PlayerSync,
    ErrorNumber::Exist,
];

fn error_numbers(alloc: Global) -> Result<String, AllocError> {
    let mut recorder = Recorder::new(alloc);
    for error in ERRORS.iter() {
        recorder.add(format_args!("{} ", error.number()));
    }
    recorder.into_text()
}

/// What texts are read as, and the numbers of the errors.
#[test]
fn numbers(rt: HostRuntime) -> Result<(), Fail> {
    all_agree(rt.alloc(), Reads::Number, NUMBERS)?;
    wants(error_numbers(rt.alloc()), "2 4 5 50 51 52 54 55 56 ")
}

/// A line of 50 bytes: `file: `, 43 letters, and the newline.
const LINE: &str = "file: abcdefghijklmnopqrstuvwxyzabcdefghijklmnopq\n";

fn fill_long(answer: &mut Answer) -> Result<(), AllocError> {
    for _ in 0..2_000u32 {
        answer.pair("file", "abcdefghijklmnopqrstuvwxyzabcdefghijklmnopq")?;
    }
    answer.ok()
}

fn observed_of_long(alloc: Global) -> Result<String, AllocError> {
    let mut answer = Answer::new(alloc);
    fill_long(&mut answer)?;
    shared_observed(alloc, answer)
}

/// Two texts, and one that was a `Text` for a while.
fn texts(alloc: Global) -> Result<String, AllocError> {
    let text = Text::new(alloc, "a.wav")?;
    let shared = SharedText::new(alloc, "evening")?;
    let passed_on = Text::of(String::from_str(alloc, "OK")?).into_string();
    format!(in alloc; "{} {} {passed_on}", text.as_str(), shared.as_str())
}

/// Lines of each kind, lines of numbers, an answer of 100,003 bytes, and texts.
#[test]
fn answers_and_texts(rt: HostRuntime) -> Result<(), Fail> {
    wants(
        observed_of_each(rt.alloc()),
        "true true volume: 100\npartition: default\nOK\nlist_OK\nACK [50@2] {add} no such song\n",
    )?;
    wants(numbered(rt.alloc()), NUMBERED)?;
    wants_made(
        observed_of_long(rt.alloc()),
        repeated(rt.alloc(), "true true ", LINE, 2_000, "OK\n"),
    )?;
    wants(texts(rt.alloc()), "a.wav evening OK")
}
