//! A line as words (MPD protocol reference, Requests).
ghost use Rattle.std.specs.Prelude.{◌≡◌, Err, MatchResult, ◌≢◌, ◌||◌, ◌&&◌, ◌==◌, List, ℕ, [], ◌∷◌, ◌++◌, map, nat_lt, not, OnOk, IfOk, IfErr, IsTrue, string_bytes, All};
ghost use Rattle.std.specs.Str.{IsUtf8};
ghost use Rattle.std.specs.List.{AllByRecursion};
ghost use Rattle.mpd_text.specs.declared.lines.quoting.WordsFault.TheVariants.{NoMemory};
ghost use Rattle.mpd_text.specs.Lines.Scan.{is_blank as is_blank_lem, is_bare as is_bare_lem, words_of};
ghost use Rattle.mpd_text.specs.Lines.Grammar.{IsFaulty};
ghost use Rattle.mpd_text.specs.declared.lines.quoting.WordsFault.{WordsFault};
ghost use Rattle.mpd_text.specs.Lines.Words.{AreWordsOf, AreReadIfSpelt, GivesWhatIsSpelt, outcome, Refuses, Gives, bytes_of, texts_of};

use std::alloc::{AllocError, AllocFailed, Global};
use std::mem;

/// The most words of a line: a command and 64 arguments (this profile's).
pub const MAX_WORDS: usize = 65;

/// Why a line has no words: the first cause from the left.
#[derive(Clone, Copy, Debug, PartialEq, Eq)]
pub enum WordsFault {
    /// A word without quotes meets a quotation mark, an apostrophe or a byte below 0x20.
    BadUnquoted,
    /// The line ends between quotes.
    NoClosingQuote,
    /// A closing quote is followed by neither a space nor a tab.
    NoSpaceAfterQuote,
    /// A 66th word begins; it may itself be wrong.
    TooMany,
    /// Memory ran out.
    NoMemory,
}

impl From<AllocError> for WordsFault {
    ghost from_gives = { λ _ e. e ≡ NoMemory };

    fn from(_e: AllocError) -> WordsFault {
        WordsFault::NoMemory
    }
}

impl<T: Drop> From<AllocFailed<T>> for WordsFault {
    ghost from_gives = { λ _ e. e ≡ NoMemory };

    fn from(_e: AllocFailed<T>) -> WordsFault {
        WordsFault::NoMemory
    }
}

/// What the next byte of a line is part of.
#[derive(Clone, Copy)]
enum QuotingState {
    Between,
    Bare,
    Quoted,
    Escaped,
    Closed,
}

/// A line that is read up to some byte.
#[derive(Drop)]
struct Reading {
    words: Vec<Vec<u8>>,
    word: Vec<u8>,
    state: QuotingState,
}

impl Reading {
    /// Takes the next byte of the line.
    #[tactic(auto, unfolding(crate::specs::Lines::Scan::scan, crate::specs::Lines::Words::outcome))]
    fn take(&mut self, alloc: Global, b: u8) -> Result<(), WordsFault>
        ensures ok { OnOk result ((rest : List ℕ) → outcome self.old (b ∷ rest) ≡ outcome self.new rest) }
        ensures err { IfErr result (λ fault. (rest : List ℕ) → Refuses fault (outcome self.old (b ∷ rest))) }
    {
        match self.state {
            QuotingState::Between => {
                if is_blank(b) {
                    return Ok(());
                }
                if self.words.len() == MAX_WORDS {
                    return Err(WordsFault::TooMany);
                }
                if b == b'"' {
                    self.state = QuotingState::Quoted;
                } else if is_bare(b) {
                    self.word.push(b)?;
                    self.state = QuotingState::Bare;
                } else {
                    return Err(WordsFault::BadUnquoted);
                }
            }
            QuotingState::Bare => {
                if is_blank(b) {
                    self.end_word(alloc)?;
                } else if is_bare(b) {
                    self.word.push(b)?;
                } else {
                    return Err(WordsFault::BadUnquoted);
                }
            }
            QuotingState::Quoted => {
                if b == b'"' {
                    self.state = QuotingState::Closed;
                } else if b == b'\\' {
                    self.state = QuotingState::Escaped;
                } else {
                    self.word.push(b)?;
                }
            }
            QuotingState::Escaped => {
                self.word.push(b)?;
                self.state = QuotingState::Quoted;
            }
            QuotingState::Closed => {
                if !is_blank(b) {
                    return Err(WordsFault::NoSpaceAfterQuote);
                }
                self.end_word(alloc)?;
            }
        }
        Ok(())
    }

    /// Adds the word that was read so far as the last of the words.
    fn end_word(&mut self, alloc: Global) -> Result<(), AllocError>
        ensures words { OnOk result (self.new.words.items ≡ self.old.words.items ++ self.old.word ∷ []) }
        ensures word { OnOk result (self.new.word.items ≡ []) }
        ensures state { OnOk result (self.new.state ≡ QuotingState.Between) }
    {
        let word = mem::replace(&mut self.word, Vec::new(alloc));
        self.words.push(word)?;
        self.state = QuotingState::Between;
        Ok(())
    }

    /// What the whole line is, if it ends here.
    #[tactic(auto, unfolding(crate::specs::Lines::Scan::scan, crate::specs::Lines::Words::outcome))]
    fn finish(mut self, alloc: Global) -> Result<Vec<Vec<u8>>, WordsFault>
        ensures { Gives bytes_of result (outcome self []) }
    {
        match self.state {
            QuotingState::Between => Ok(self.words),
            QuotingState::Bare | QuotingState::Closed => {
                self.end_word(alloc)?;
                Ok(self.words)
            }
            QuotingState::Quoted | QuotingState::Escaped => Err(WordsFault::NoClosingQuote),
        }
    }
}

/// Whether the byte separates words.
fn is_blank(b: u8) -> bool
    ensures { result ≡ is_blank_lem b }
{
    b == b' ' || b == b'\t'
}

/// Whether the byte may be in a word without quotes.
fn is_bare(b: u8) -> bool
    ensures { result ≡ is_bare_lem b }
{
    b > b' ' && b != b'"' && b != b'\''
}

/// The words of a line: a command and its arguments, with quotes and backslashes taken off. Spaces and tabs
/// separate them and may be at both ends; a line of these alone has no words.
pub fn words(alloc: Global, line: &str) -> Result<Vec<String>, WordsFault>
    // The list is the line's.
    ensures found { IfOk result (λ words. AreWordsOf line.now (texts_of words)) }
    // The fault is the first from the left.
    ensures fault { IfErr result (λ fault. fault ≢ NoMemory → IsFaulty 0 line.now fault) }
    // A line that has such a list is not refused, unless memory runs out, and what is given is determined.
    ensures only { GivesWhatIsSpelt texts_of line.now result }
    ensures exact { Gives texts_of result (words_of line.now) }
{
    read_words(alloc, line)
}

/// The words of a line as texts.
fn read_words(alloc: Global, line: &str) -> Result<Vec<String>, WordsFault>
    ensures { Gives texts_of result (words_of line.now) }
{
    let raw = raw_words(alloc, line.as_bytes())?;
    Ok(texts_from(alloc, raw)?)
}

/// The texts of words that are UTF-8, each in the buffer that it was read into.
fn texts_from(alloc: Global, words: Vec<Vec<u8>>) -> Result<Vec<String>, AllocError>
    requires { AllByRecursion (λ word. IsUtf8 word.items) words.items }
    ensures { IfOk result (λ texts. texts_of texts ≡ bytes_of words) }
{
    let mut texts = Vec::with_capacity(alloc, words.len())?;
    for word in words {
        // The words of a text are cut at ASCII bytes, so each is UTF-8, and is not read again to see it.
        texts.push(unsafe { String::from_utf8_unchecked(word) })?;
    }
    Ok(texts)
}

/// The words of a line, as bytes.
#[tactic(auto, unfolding(crate::specs::Lines::Scan::scan, crate::specs::Lines::Words::outcome))]
fn raw_words(alloc: Global, line: &[u8]) -> Result<Vec<Vec<u8>>, WordsFault>
    ensures { Gives bytes_of result (words_of line.now) }
{
    let mut reading = Reading {
        words: Vec::new(alloc),
        word: Vec::new(alloc),
        state: QuotingState::Between,
    };
    for b in line {
        reading.take(alloc, *b)?;
    }
    reading.finish(alloc)
}

/// A law: a line has one list of words, or one fault. A caller has it by a call.
pub fn one_reading()
    ensures words { (line : List ℕ) (words : List (List ℕ)) → AreReadIfSpelt line words }
    ensures fault { (line : List ℕ) (fault : WordsFault) → IsFaulty 0 line fault → words_of line ≡ Err fault }
{}

/// A law: what is read of a line is what it spells, or the way in which it goes wrong. A caller has it by a
/// call.
pub fn some_reading()
    ensures { (line : List ℕ) → MatchResult (words_of line) (AreWordsOf line) (IsFaulty 0 line) }
{}
