//! The URIs of a stored playlist as one text: each URI followed by one newline.

ghost use Rattle.std.specs.Prelude.{◌≡◌, ◌==◌, ◌↔◌, ◌<◌, ◌≤◌, ◌++◌, ◌∷◌, [], IsTrue, IfSome, MatchOption, OnOk, OnErr, length, take, string_bytes};
ghost use Rattle.std.specs.Str.{IsCharBoundary};
ghost use Rattle.shelf.specs.Lines.{text_of, lines_of, ended, are_single_lines, BeginsWith, HasNoNewline};

use std::alloc::{AllocError, Global};
use std::marker::Model;

/// The URIs of a stored playlist, in order, none of them with a newline. A clause sees the list of them.
///
/// They are one text, so that a long list is one piece of memory. Calls that find no memory leave the list as
/// it was.
#[derive(Drop)]
pub struct UriList {
    text: String,
}

impl Model for UriList {
    ghost use Rattle.std.specs.Prelude.{◌≡◌, List, ℕ, string_bytes};
    ghost use Rattle.shelf.specs.Lines.{text_of, lines_of};

    ghost Value = { List (List ℕ) };

    ghost view = { λ list. lines_of (string_bytes list.text) };

    ghost invariant = { λ list. string_bytes list.text ≡ text_of (lines_of (string_bytes list.text)) };
}

impl UriList {
    /// No URIs. Takes no memory until the first is pushed.
    pub fn new(alloc: Global) -> UriList
        ensures { result ≡ [] }
    {
        UriList {
            text: String::new(alloc),
        }
    }

    /// The lines of a text. What comes after its last newline is dropped. Takes no memory.
    pub fn of_text(text: String) -> UriList
        ensures { result ≡ lines_of (string_bytes text) }
    {
        let mut text = text;
        let end = end_of_lines(text.as_str());
        text.truncate(end);
        UriList { text }
    }

    /// Puts a URI after the others.
    pub fn push(&mut self, uri: &str) -> Result<(), AllocError>
        requires { HasNoNewline uri.now }
        ensures ok { OnOk result (self.new ≡ self.old ++ uri.now ∷ []) }
        ensures err { OnErr result (self.new ≡ self.old) }
    {
        push_line(&mut self.text, uri)
    }

    /// How many URIs there are.
    pub fn len(&self) -> usize
        ensures len { result ≡ length self.now }
        ensures single { IsTrue (are_single_lines self.now) }
    {
        newlines(self.text.as_bytes())
    }

    /// Whether there are none.
    pub fn is_empty(&self) -> bool
        ensures { result ≡ (length self.now == 0) }
    {
        self.text.is_empty()
    }

    /// The URIs, each followed by a newline. [`next_uri`] takes them one by one.
    pub fn text(&self) -> &str
        ensures text { result.now ≡ text_of self.now }
        ensures uris { lines_of result.now ≡ self.now }
        ensures single { IsTrue (are_single_lines self.now) }
    {
        self.text.as_str()
    }

    /// Whether the other has the same URIs in the same order.
    pub fn is_same(&self, other: &UriList) -> bool
        ensures { IsTrue result ↔ self.now ≡ other.now }
    {
        self.text.as_str() == other.text.as_str()
    }
}

impl Clone for UriList {
    ghost is_clone = { λ list copy. copy ≡ list };

    fn clone(&self) -> Result<UriList, AllocError> {
        let text = self.text.clone()?;
        Ok(UriList { text })
    }
}

/// The first line of a text, without its newline, and what comes after it. What no newline ends is no line.
pub fn next_uri(rest: &str) -> Option<(&str, &str)>
    ensures lines { MatchOption result (lines_of rest.now ≡ []) (λ parts. BeginsWith rest.now parts.0.now parts.1.now) }
    ensures single { IfSome result (λ parts. HasNoNewline parts.0.now) }
    ensures shorter { IfSome result (λ parts. length parts.1.now < length rest.now) }
{
    rest.split_once('\n')
}

/// Where the last line of a text ends, after its newline.
fn end_of_lines(text: &str) -> usize
    ensures within { result ≤ length text.now }
    ensures cut { 0 < result → IsCharBoundary text.now result }
    ensures text { take result text.now ≡ text_of (lines_of (take result text.now)) }
    ensures lines { lines_of (take result text.now) ≡ lines_of text.now }
{
    match text.rfind('\n') {
        Some(offset) => offset + 1,
        None => 0,
    }
}

fn newlines(text: &[u8]) -> usize
    ensures { result ≡ length (lines_of text.now) }
{
    text.iter().filter(|b| **b == b'\n').count()
}

fn push_line(text: &mut String, uri: &str) -> Result<(), AllocError>
    ensures ok { OnOk result (string_bytes text.new ≡ string_bytes text.old ++ ended uri.now) }
    ensures err { OnErr result (string_bytes text.new ≡ string_bytes text.old) }
{
    text.reserve(uri.len() + 1)?;
    text.push_str(uri)?;
    text.push('\n')
}
