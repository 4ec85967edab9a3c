//! Runs worked script sessions, the files `*.row` of the folder that the program runs in, and compares what
//! they print.
//!
//! A row file has lines `# TEXT`, `since:` and `until:` (all passed over), `again: STAGE LINE` (the session
//! is run once more with that line in front), input lines `> LINE`, and after each the lines that it prints:
//! `< LINE` exactly, or `<~ LINE`, a line that the answer has among others, or `<! TEXT`, where no further
//! line of the answer begins so. `>e` and `<e` are the same with escapes: `\r`, `\t`, `\\`, `\xHH`, and
//! `\{TEXT*N}` for a text N times.

use crate::comparing::difference;
use crate::row::Row;
use crate::runs::run_between;
use counted_devices::{FailAt, FailurePoint};
use std::alloc::{AllocError, Global};
use std::{fs, io};

/// The most row files.
const MAX_ROWS: usize = 4_096;

/// A row whose runs all printed what it wants, or all of these.
#[derive(Clone, Copy)]
struct Passed {
    /// The expected lines.
    lines: u64,
    runs: u64,
}

/// Runs each row, and prints how many lines were as expected.
pub fn run_all(rt: &HostRuntime) -> io::Result<()> {
    let names = names_of_rows(rt)?;
    run_each(rt, &names)
}

/// The names of the row files, in byte order.
fn names_of_rows(rt: &HostRuntime) -> io::Result<Vec<String>> {
    let mut names = Vec::new(rt.alloc());
    for entry in fs::read_dir(rt, ".")?.take(MAX_ROWS) {
        let name = String::from_str(rt.alloc(), entry?.file_name())?;
        if name.as_str().ends_with(".row") {
            names.push(name)?;
        }
    }
    names.sort()?;
    Ok(names)
}

fn run_each(rt: &HostRuntime, names: &[String]) -> io::Result<()> {
    let mut all = Passed { lines: 0, runs: 0 };
    for name in names {
        run_row(rt, name.as_str(), &mut all)?;
    }
    let Passed { lines, runs } = all;
    println!(rt; "{} rows, {lines} lines, {runs} runs", names.len())
}

/// Runs the row of a file, prints whether it passes or what differs, and adds to what all had. No lines where it
/// does not pass.
fn run_row(rt: &HostRuntime, name: &str, all: &mut Passed) -> io::Result<()> {
    let text = fs::read_to_string(rt, name)?;
    match run_of(rt.alloc(), text.as_str())? {
        Outcome::Passes(Passed { lines, runs }) => {
            all.lines = all.lines.saturating_add(lines);
            all.runs = all.runs.saturating_add(runs);
            println!(rt; "{name}: {lines} lines as wanted, runs: {runs}")
        }
        Outcome::Differs(difference) => println!(rt; "{name}: DIFFERS{difference}"),
        Outcome::IsNoRow => println!(rt; "{name}: DIFFERS\n  it has a line of no kind"),
    }
}

/// What becomes of a row.
#[derive(Drop)]
enum Outcome {
    Passes(Passed),
    /// The first difference, of the first run that has one.
    Differs(String),
    IsNoRow,
}

/// Runs a row as it is, and once more after each line of its `again`.
fn run_of(alloc: Global, text: &str) -> Result<Outcome, AllocError> {
    let Some(row) = Row::read(alloc, text) else {
        return Ok(Outcome::IsNoRow);
    };
    if let Some(difference) = difference_behind(alloc, &row, "")? {
        return Ok(Outcome::Differs(difference));
    }
    let mut runs = 1u64;
    for first in row.again() {
        if let Some(difference) = difference_behind(alloc, &row, first.as_str())? {
            let description = format!(in alloc; "\n  behind the line {first}{difference}")?;
            return Ok(Outcome::Differs(description));
        }
        runs = runs.saturating_add(1);
    }
    Ok(Outcome::Passes(Passed {
        lines: row.expected().len() as u64,
        runs,
    }))
}

/// What differs of a row that is run behind a first line, if something does.
fn difference_behind(alloc: Global, row: &Row, first: &str) -> Result<Option<String>, AllocError> {
    let mut input = Vec::from_slice(alloc, first.as_bytes())?;
    input.extend_from_slice(row.input())?;
    let reader = FailAt::new(input, FailurePoint::Never);
    let writer = FailAt::new(Vec::new(alloc), FailurePoint::Never);
    let (ended, written) = run_between(alloc, reader, writer);
    if ended.is_err() {
        return Ok(Some(String::from_str(alloc, "\n  the script did not end well")?));
    }
    difference(alloc, row.expected(), written.bytes())
}
