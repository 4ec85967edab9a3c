//! A stream of bytes as lines (MPD protocol reference, Requests).
ghost use Rattle.std.specs.Prelude.{◌≡◌, ◌<◌, ◌≤◌, ◌-◌, ◌++◌, ◌∷◌, map, length, take, drop, get_or, IfOk, OnOk, is_none, Some, [], List, ℕ};
ghost use Rattle.std.specs.Str.Lines.{strip_carriage_return};
ghost use Rattle.mpd_text.specs.Lines.Split.{view, views, line_of, next_of, AreStart, SplitsAfter};
ghost use Rattle.mpd_text.specs.Lines.Cut.{split, then_split, split_pieces, HasNoNewline, IsStart, IsSplitWhereOpen, IsSplitWhereTooLong};
ghost use Rattle.std.specs.List.{concat};
ghost use Rattle.mpd_text.specs.declared.lines.splitter.SplitFault.TheVariants.{NoMemory};

use std::alloc::{AllocError, AllocFailed, Global};
use std::marker::Model;

/// The most bytes of a line, without its newline; a carriage return before the newline is counted
/// (this profile's).
pub const MAX_LINE: usize = 16_384;

/// A line without its newline, and without one carriage return before it.
#[derive(Drop)]
pub enum Line {
    /// The line, which is UTF-8.
    Text(String),
    /// A line that is not UTF-8.
    NotText,
}

/// Why a piece of a stream gave no lines.
#[derive(Drop)]
pub enum SplitFault {
    /// A line has more than 16,384 bytes: the lines of the piece before it. The splitter is closed from
    /// then on.
    LineTooLong(Vec<Line>),
    /// Memory ran out, and the splitter is as before the call.
    NoMemory,
}

impl From<AllocError> for SplitFault {
    ghost from_gives = { λ _ e. e ≡ NoMemory };

    fn from(_e: AllocError) -> SplitFault {
        SplitFault::NoMemory
    }
}

impl<T: Drop> From<AllocFailed<T>> for SplitFault {
    ghost from_gives = { λ _ e. e ≡ NoMemory };

    fn from(_e: AllocFailed<T>) -> SplitFault {
        SplitFault::NoMemory
    }
}

/// Splits a stream into lines, in whatever pieces it comes. A clause sees what has come of the next line, or
/// `None` once a line was too long.
#[derive(Drop)]
pub struct Splitter {
    alloc: Global,
    /// What has come of the next line, or nothing once a line was too long.
    next: Option<Vec<u8>>,
}

// A splitter is what has come of the next line, or nothing once a line was too long.
impl Model for Splitter {
    ghost use Rattle.std.specs.Prelude.{List, ℕ, Option};
    ghost use Rattle.mpd_text.specs.Lines.Split.{next_of, AreStart};

    ghost Value = { Option (List ℕ) };

    ghost view = { λ s. next_of s.next };

    ghost invariant = { λ s. AreStart (next_of s.next) };
}

impl Splitter {
    ghost use Rattle.mpd_text.specs.Lines.Split.{Feeds};

    /// A splitter of a stream of which nothing has come. Takes no memory until the first piece.
    pub fn new(alloc: Global) -> Splitter
        ensures { result ≡ Some [] }
    {
        Splitter {
            alloc,
            next: Some(Vec::new(alloc)),
        }
    }

    /// Whether a line was too long, so that no further line is given.
    pub fn is_closed(&self) -> bool
        ensures { result ≡ is_none self.now }
    {
        self.next.is_none()
    }

    /// Takes the next piece of the stream and gives the lines that it ends. Returns `LineTooLong` with the
    /// lines before it in the call whose piece holds byte 16,385 of a line, and with no lines in each call
    /// after that. After `NoMemory` the splitter is as before the call.
    pub fn feed(&mut self, piece: &[u8]) -> Result<Vec<Line>, SplitFault>
        ensures { Feeds self.old piece.now result self.new }
    {
        let Some(mut partial) = self.next.take() else {
            return Err(SplitFault::LineTooLong(Vec::new(self.alloc)));
        };
        match split_after(self.alloc, &mut partial, piece) {
            Ok(lines) => {
                self.next = Some(partial);
                Ok(lines)
            }
            Err(SplitFault::LineTooLong(lines)) => Err(SplitFault::LineTooLong(lines)),
            Err(SplitFault::NoMemory) => {
                self.next = Some(partial);
                Err(SplitFault::NoMemory)
            }
        }
    }
}

/// The lines that end in the piece, the first of which began before it. What has come of that line becomes
/// what has come of the next.
fn split_after(alloc: Global, partial: &mut Vec<u8>, piece: &[u8]) -> Result<Vec<Line>, SplitFault>
    requires { IsStart partial.old.items }
    ensures splits { SplitsAfter partial.old.items piece.now result partial.new.items }
    ensures start { OnOk result (IsStart partial.new.items) }
{
    let end = newline_from(piece, 0);
    if end > MAX_LINE - partial.len() {
        return Err(SplitFault::LineTooLong(Vec::new(alloc)));
    }
    if end == piece.len() {
        partial.extend_from_slice(piece)?;
        return Ok(Vec::new(alloc));
    }
    let first = joined_line(alloc, partial.as_slice(), &piece[..end])?;
    let SplitLines { lines, next } = split_lines(alloc, first, &piece[end + 1..])?;
    match next {
        Some(next) => {
            *partial = next;
            Ok(lines)
        }
        None => Err(SplitFault::LineTooLong(lines)),
    }
}

/// The lines of a stream, up to one that is too long, and what has come of the next.
#[derive(Drop)]
struct SplitLines {
    lines: Vec<Line>,
    next: Option<Vec<u8>>,
}

/// A line, and after it those of a stream, which begins with a line.
fn split_lines(alloc: Global, first: Line, stream: &[u8]) -> Result<SplitLines, AllocError>
    ensures lines { IfOk result (λ parts. views parts.lines.items ≡ view first ∷ map line_of (split stream.now).lines) }
    ensures next { IfOk result (λ parts. next_of parts.next ≡ (split stream.now).next) }
    ensures start { IfOk result (λ parts. AreStart (next_of parts.next)) }
{
    let mut lines = Vec::new(alloc);
    lines.push(first)?;
    let mut start = 0;
    let mut end = newline_from(stream, 0);
    while end < stream.len() {
        if end - start > MAX_LINE {
            return Ok(SplitLines { lines, next: None });
        }
        lines.push(line_from(alloc, &stream[start..end])?)?;
        start = end + 1;
        end = newline_from(stream, start);
    }
    if end - start > MAX_LINE {
        return Ok(SplitLines { lines, next: None });
    }
    Ok(SplitLines {
        lines,
        next: Some(Vec::from_slice(alloc, &stream[start..])?),
    })
}

/// The offset of the first newline from this offset on, or the length where there is none.
fn newline_from(bytes: &[u8], start: usize) -> usize
    requires { start ≤ length bytes.now }
    ensures bound { (start ≤ result) × (result ≤ length bytes.now) }
    ensures none { HasNoNewline (take (result - start) (drop start bytes.now)) }
    ensures newline { result < length bytes.now → get_or bytes.now result 0 ≡ 10 }
{
    let mut i = start;
    while i < bytes.len() {
        if bytes[i] == b'\n' {
            return i;
        }
        i += 1;
    }
    i
}

/// The line that these bytes are together.
fn joined_line(alloc: Global, partial: &[u8], front: &[u8]) -> Result<Line, AllocError>
    ensures { IfOk result (λ line. view line ≡ line_of (partial.now ++ front.now)) }
{
    if partial.is_empty() {
        return line_from(alloc, front);
    }
    let mut bytes = Vec::from_slice(alloc, partial)?;
    bytes.extend_from_slice(front)?;
    line_from(alloc, bytes.as_slice())
}

/// The line that these bytes are, which were before a newline.
fn line_from(alloc: Global, bytes: &[u8]) -> Result<Line, AllocError>
    ensures { IfOk result (λ line. view line ≡ line_of bytes.now) }
{
    match str::from_utf8(without_return(bytes)) {
        Ok(text) => Ok(Line::Text(String::from_str(alloc, text)?)),
        Err(_) => Ok(Line::NotText),
    }
}

/// The bytes without one carriage return at their end.
fn without_return(bytes: &[u8]) -> &[u8]
    ensures { result.now ≡ strip_carriage_return bytes.now }
{
    match bytes {
        [text @ .., b'\r'] => text,
        _ => bytes,
    }
}

/// A law: where a stream is cut does not matter. A caller has it by a call.
pub fn any_cut()
    ensures { (stream more : List ℕ) → split (stream ++ more) ≡ then_split (split stream) more }
{}

/// A law: in whatever pieces a stream comes, its lines are the same. A caller has it by a call.
pub fn pieces_do_not_matter()
    ensures { (pieces : List (List ℕ)) → split_pieces (Some []) pieces ≡ split (concat pieces) }
{}

/// A law: a stream is its lines with their newlines, then a start of a line or one that is too long. A
/// caller has it by a call.
pub fn lines_make_the_stream()
    ensures ends { (stream : List ℕ) (lines : List (List ℕ)) (start : List ℕ) → IsSplitWhereOpen stream lines start }
    ensures too_long { (stream : List ℕ) (lines : List (List ℕ)) → IsSplitWhereTooLong stream lines }
{}
