//! What a script printed, beside what its row wants.
use crate::row::{Expected, Kind};
use std::alloc::{AllocError, Global};

/// How many lines are shown before a line that differs, and behind it.
const AROUND: usize = 3;

/// What a script printed, of which some lines were compared.
#[derive(Drop)]
struct Printed<'a> {
    lines: Vec<&'a str>,
    /// How many lines were compared.
    at: usize,
}

impl<'a> Printed<'a> {
    fn of(alloc: Global, text: &'a str) -> Result<Self, AllocError> {
        let mut lines = Vec::new(alloc);
        for line in text.lines() {
            lines.push(line)?;
        }
        Ok(Printed { lines, at: 0 })
    }

    /// The next line, which is passed over.
    fn next(&mut self) -> Option<&'a str> {
        let line = self.lines.get(self.at).copied();
        if line.is_some() {
            self.at = self.at.saturating_add(1);
        }
        line
    }

    /// Whether an expected line is met from here on.
    fn meets(&mut self, expected: &Expected) -> bool {
        match expected.kind {
            Kind::Exact => match self.next() {
                Some(line) => line.as_bytes() == expected.text.as_slice(),
                None => false,
            },
            Kind::Has => self.has(expected),
            Kind::Lacks => self.lacks(expected),
        }
    }

    /// Whether the answer has a line, from here on; what comes before it is passed over.
    fn has(&mut self, expected: &Expected) -> bool {
        for _ in self.at..self.lines.len() {
            let Some(line) = self.next() else {
                return false;
            };
            if line.as_bytes() == expected.text.as_slice() {
                return true;
            }
            if ends_answer(line.as_bytes(), expected.sender) {
                return false;
            }
        }
        false
    }

    /// Whether no line of the answer begins so, from here on. An answer without an end is none. A line that begins so
    /// is passed over.
    fn lacks(&mut self, unexpected: &Expected) -> bool {
        let first = self.at;
        for line in self.lines.iter().skip(first) {
            self.at = self.at.saturating_add(1);
            if line.as_bytes().starts_with(unexpected.text.as_slice()) {
                return false;
            }
            if ends_answer(line.as_bytes(), unexpected.sender) {
                self.at = first;
                return true;
            }
        }
        false
    }

    /// Passes over the rest of an answer, which has to be a success.
    fn skip_answer(&mut self, sender: u8) -> bool {
        for _ in self.at..self.lines.len() {
            let Some(line) = self.next() else {
                return false;
            };
            if ends_answer(line.as_bytes(), sender) {
                return line.as_bytes() == [sender, b' ', b'O', b'K'].as_slice();
            }
        }
        false
    }

    /// The lines around the one that was compared last, each with its number.
    fn around(&self, alloc: Global) -> Result<String, AllocError> {
        let mut text = String::new(alloc);
        let first = self.at.saturating_sub(AROUND + 1);
        let mut number = first;
        for line in self.lines.iter().skip(first).take(2 * AROUND + 1) {
            number = number.saturating_add(1);
            text.write_fmt(format_args!("\n    {number}: {line}"))?;
        }
        Ok(text)
    }
}

/// Whether a line ends an answer of a client.
fn ends_answer(line: &[u8], sender: u8) -> bool {
    match line {
        [first, b' ', b'O', b'K'] => *first == sender,
        [first, b' ', b'A', b'C', b'K', b' ', ..] => *first == sender,
        _ => false,
    }
}

/// An answer of which not each line is expected: its rest is passed over before the next answer.
#[derive(Clone, Copy)]
struct Open {
    sender: u8,
    step: u64,
}

/// The answer that is open behind an expected line.
fn open_after(line: &Expected) -> Option<Open> {
    let Expected {
        kind,
        sender,
        step,
        line: _,
        text,
    } = line;
    if *kind == Kind::Exact || *kind == Kind::Has && ends_answer(text.as_slice(), *sender) {
        return None;
    }
    Some(Open {
        sender: *sender,
        step: *step,
    })
}

/// Where an output parts from a row.
#[derive(Drop)]
enum Fault<'w> {
    /// This line is not met, or the answer before it is no success.
    At(&'w Expected),
    /// All lines are met; the last answer is no success, or more is printed.
    AtEnd,
}

/// Compares what was printed with the expected lines, up to the first that is not met.
fn compare<'w>(printed: &mut Printed<'_>, expected: &'w [Expected]) -> Result<(), Fault<'w>> {
    let mut open: Option<Open> = None;
    for line in expected {
        if let Some(Open { sender, step }) = open
            && (step != line.step || line.kind == Kind::Exact)
            && !printed.skip_answer(sender)
        {
            return Err(Fault::At(line));
        }
        if !printed.meets(line) {
            return Err(Fault::At(line));
        }
        open = open_after(line);
    }
    if let Some(Open { sender, step: _ }) = open
        && !printed.skip_answer(sender)
    {
        return Err(Fault::AtEnd);
    }
    match printed.next() {
        Some(_) => Err(Fault::AtEnd),
        None => Ok(()),
    }
}

/// What differs: the line of the row, and the lines that were printed around it.
fn description(
    alloc: Global,
    fault: Fault<'_>,
    printed: &Printed<'_>,
) -> Result<String, AllocError> {
    let around = printed.around(alloc)?;
    match fault {
        Fault::AtEnd => {
            format!(in alloc; "\n  the row wants no more, and the script printed{around}")
        }
        Fault::At(expected) => {
            let prefix = match expected.kind {
                Kind::Exact => "<",
                Kind::Has => "<~",
                Kind::Lacks => "<!",
            };
            let text = str::from_utf8(expected.text.as_slice()).unwrap_or("no text");
            format!(in alloc;
                "\n  line {} wants\n    {prefix} {text}\n  and the script printed{around}",
                expected.line
            )
        }
    }
}

/// Nothing where an output is as a row wants it; else what differs.
pub(crate) fn difference(
    alloc: Global,
    expected: &[Expected],
    output: &[u8],
) -> Result<Option<String>, AllocError> {
    let Ok(text) = str::from_utf8(output) else {
        return Ok(Some(String::from_str(alloc, "\n  the script printed no text")?));
    };
    let mut printed = Printed::of(alloc, text)?;
    match compare(&mut printed, expected) {
        Ok(()) => Ok(None),
        Err(fault) => Ok(Some(description(alloc, fault, &printed)?)),
    }
}
