//! Row files: what a session says, and what is expected to be printed.

ghost use Rattle.std.specs.Prelude.{◌<◌, IfSome};

use std::alloc::Global;

/// What is expected of an output line.
#[derive(Clone, Copy, PartialEq, Eq)]
pub(crate) enum Kind {
    /// The next line is this one.
    Exact,
    /// The answer has this line; other lines may come before it.
    Has,
    /// No line of the answer, from here on, begins so.
    Lacks,
}

/// An expected output line.
#[derive(Drop)]
pub(crate) struct Expected {
    pub(crate) kind: Kind,
    /// The client whose answer it is; no byte of a client at a step.
    pub(crate) sender: u8,
    /// How many input lines come before it.
    pub(crate) step: u64,
    /// The number of its line in the row file, from 1.
    pub(crate) line: u64,
    pub(crate) text: Vec<u8>,
}

/// A session: its input, the lines that stand in front of it in further runs, and the output that is expected
/// of each run. While it is read, also the number of its last line, that of the last input line, and the
/// latter's client.
#[derive(Drop)]
pub struct Row {
    input: Vec<u8>,
    again: Vec<String>,
    expected: Vec<Expected>,
    line: u64,
    step: u64,
    sender: u8,
}

impl Row {
    /// Reads a row file; `None` where a line is of no kind, or where there is no memory.
    pub fn read(alloc: Global, text: &str) -> Option<Row> {
        let mut row = Row {
            input: Vec::new(alloc),
            again: Vec::new(alloc),
            expected: Vec::new(alloc),
            line: 0,
            step: 0,
            sender: 0,
        };
        for line in text.lines() {
            if !row.takes(alloc, line) {
                return None;
            }
        }
        Some(row)
    }

    /// Takes in a line of a row file. False where it is of no kind, or where there is no memory.
    fn takes(&mut self, alloc: Global, line: &str) -> bool {
        self.line = self.line.saturating_add(1);
        if is_passed_over(line) {
            return true;
        }
        let Some((prefix, text)) = line.split_once(' ') else {
            return line == ">" && self.takes_input(&[]);
        };
        let mut bytes = Vec::new(alloc);
        if !push_text(&mut bytes, prefix, text) {
            return false;
        }
        match prefix {
            ">" | ">e" => self.takes_input(bytes.as_slice()),
            "<" | "<e" => self.wants(Kind::Exact, bytes),
            "<~" | "<~e" => self.wants(Kind::Has, bytes),
            "<!" | "<!e" => self.wants(Kind::Lacks, bytes),
            "again:" => self.runs_again(alloc, text),
            _ => false,
        }
    }

    fn takes_input(&mut self, line: &[u8]) -> bool {
        self.step = self.step.saturating_add(1);
        self.sender = line.first().copied().unwrap_or(0);
        self.input.extend_from_slice(line).is_ok() && self.input.push(b'\n').is_ok()
    }

    fn wants(&mut self, kind: Kind, text: Vec<u8>) -> bool {
        let expected = Expected {
            kind,
            sender: self.sender,
            step: self.step,
            line: self.line,
            text,
        };
        self.expected.push(expected).is_ok()
    }

    /// Takes in `STAGE LINE`.
    fn runs_again(&mut self, alloc: Global, text: &str) -> bool {
        let Some((_, first)) = text.split_once(' ') else {
            return false;
        };
        match format!(in alloc; "{first}\n") {
            Ok(first) => self.again.push(first).is_ok(),
            Err(_) => false,
        }
    }

    pub fn input(&self) -> &[u8] {
        &self.input
    }

    /// The lines, each with its newline, in front of which the session is to be run once more.
    pub fn again(&self) -> &[String] {
        &self.again
    }

    pub(crate) fn expected(&self) -> &[Expected] {
        &self.expected
    }
}

fn is_passed_over(line: &str) -> bool {
    line.is_empty()
        || line.starts_with('#')
        || line.starts_with("since: ")
        || line.starts_with("until: ")
}

/// Appends the bytes of the text after a prefix: with one that ends with `e` it has escapes. False where one of them is
/// unknown, or where there is no memory.
fn push_text(bytes: &mut Vec<u8>, prefix: &str, text: &str) -> bool {
    let mut rest = text;
    if prefix.ends_with('e') {
        for _ in 0..=text.len() {
            let Some((front, after)) = rest.split_once('\\') else {
                break;
            };
            let Some(more) = push_escape(bytes, front, after) else {
                return false;
            };
            rest = more;
        }
    }
    bytes.extend_from_slice(rest.as_bytes()).is_ok()
}

/// Appends the text in front of an escape and what the escape means, and gives the text after it.
fn push_escape<'a>(bytes: &mut Vec<u8>, front: &str, text: &'a str) -> Option<&'a str> {
    if bytes.extend_from_slice(front.as_bytes()).is_err() {
        return None;
    }
    let mut characters = text.chars();
    let byte = match characters.next() {
        Some('r') => b'\r',
        Some('t') => b'\t',
        Some('\\') => b'\\',
        Some('x') => {
            let (Some(high), Some(low)) = (hex(characters.next()), hex(characters.next())) else {
                return None;
            };
            high * 16 + low
        }
        Some('{') => return push_repeated(bytes, characters.as_str()),
        _ => return None,
    };
    match bytes.push(byte) {
        Ok(()) => Some(characters.as_str()),
        Err(_) => None,
    }
}

fn hex(digit: Option<char>) -> Option<u8>
    ensures { IfSome result (λ value. value < 16) }
{
    match digit {
        Some(c) if c.is_ascii_digit() => Some(c as u8 - b'0'),
        Some('a') => Some(10),
        Some('b') => Some(11),
        Some('c') => Some(12),
        Some('d') => Some(13),
        Some('e') => Some(14),
        Some('f') => Some(15),
        _ => None,
    }
}

/// Appends the text of `TEXT*N}` N times, and gives the text after it.
fn push_repeated<'a>(bytes: &mut Vec<u8>, text: &'a str) -> Option<&'a str> {
    let Some((inside, after)) = text.split_once('}') else {
        return None;
    };
    let Some((repeated, count)) = inside.split_once('*') else {
        return None;
    };
    let Some(count) = mpd_text::number(count) else {
        return None;
    };
    for _ in 0..count {
        if bytes.extend_from_slice(repeated.as_bytes()).is_err() {
            return None;
        }
    }
    Some(after)
}
