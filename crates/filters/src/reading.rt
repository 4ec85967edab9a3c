//! Filters as they are written (MPD protocol reference, Filters).
ghost use Rattle.std.specs.Prelude.{◌≡◌, ◌⊎◌, List, ℕ, Result, Err};
ghost use Rattle.std.specs.Str.{IsUtf8};
ghost use Rattle.filters.specs.Expressions.{Expression};
ghost use Rattle.filters.specs.Answers.{IsAnswer, OrNoMemory, HasOneAnswer};
ghost use Rattle.filters.specs.declared.words.Vocabulary.{Vocabulary as Words};
ghost use Rattle.filters.specs.declared.reading.FilterFault.{FilterFault as Fault};
ghost use Rattle.filters.specs.declared.reading.FilterFault.TheVariants.{NoMemory};
ghost use Rattle.filters.specs.Machine.{parsed, Reads, fault_at, ending, CanEnd};

use crate::expression::Filter;
use crate::stack::Stack;
use crate::state::{State, Stop, name_of, step, text_of};
use crate::words::Vocabulary;
use mpd_text::Text;
use std::alloc::{AllocError, AllocFailed, Global};

/// Why words are no filter: the first cause from the left.
#[derive(Drop)]
pub enum FilterFault {
    /// It goes wrong after so many bytes: the length of the longest start with which some filter begins.
    Syntax(usize),
    /// This word is where a word of the vocabulary or `base` is expected. In a text it ends before the first
    /// byte that no name has, or at the end.
    UnknownTag(Text),
    /// A 33rd parenthesis is open.
    TooDeep,
    /// Memory ran out.
    NoMemory,
}

impl From<AllocError> for FilterFault {
    ghost use Rattle.filters.specs.declared.reading.FilterFault.TheVariants.{NoMemory};

    ghost from_gives = { λ _ e. e ≡ NoMemory };

    fn from(_e: AllocError) -> FilterFault {
        FilterFault::NoMemory
    }
}

impl<T: Drop> From<AllocFailed<T>> for FilterFault {
    ghost use Rattle.filters.specs.declared.reading.FilterFault.TheVariants.{NoMemory};

    ghost from_gives = { λ _ e. e ≡ NoMemory };

    fn from(_e: AllocFailed<T>) -> FilterFault {
        FilterFault::NoMemory
    }
}

impl Filter {
    /// The filter that a text of this vocabulary is, or the first fault from the left.
    pub fn parse(alloc: Global, text: &str, vocabulary: Vocabulary) -> Result<Filter, FilterFault>
        // It is the text's expression, or its first fault from the left, by the grammar.
        ensures answer { (result ≡ Err NoMemory) ⊎ IsAnswer vocabulary text.now result }
        // A text is refused for nothing else, and says nothing else.
        ensures only { (outcome : Result Expression Fault) → IsAnswer vocabulary text.now outcome → OrNoMemory result outcome }
        // The same as a function of the text, which is that answer by a law of its own.
        ensures exact { OrNoMemory result (parsed vocabulary text.now) }
    {
        read(alloc, vocabulary, text.as_bytes())
    }
}

/// A law: by the grammar each text has exactly one answer. A caller has it by a call.
pub fn one_answer()
    ensures { (vocabulary : Words) (text : List ℕ) → HasOneAnswer vocabulary text }
{}

/// A law: that answer is what the text is read as, byte by byte.
pub fn parsed_is_the_answer()
    ensures { (vocabulary : Words) (text : List ℕ) → IsAnswer vocabulary text (parsed vocabulary text) }
{}

/// The filter that the bytes of a text are.
fn read(alloc: Global, vocabulary: Vocabulary, text: &[u8]) -> Result<Filter, FilterFault>
    requires { IsUtf8 text.now }
    ensures { Reads result (parsed vocabulary text.now) }
{
    let mut purposes = Stack::new(alloc);
    let mut state = State::Start;
    for (i, b) in text.iter().enumerate() {
        match step(alloc, vocabulary, state, &mut purposes, *b) {
            Ok(next) => state = next,
            Err(stop) => return Err(fault(i, stop)),
        }
    }
    end(vocabulary, text.len(), state)
}

fn fault(at: usize, stop: Stop) -> FilterFault
    ensures { result ≡ fault_at at stop }
{
    match stop {
        Stop::Syntax => FilterFault::Syntax(at),
        Stop::UnknownTag(word) => FilterFault::UnknownTag(word),
        Stop::TooDeep => FilterFault::TooDeep,
        Stop::NoMemory => FilterFault::NoMemory,
    }
}

/// What a text is that ends at this state, after so many bytes.
fn end(vocabulary: Vocabulary, at: usize, state: State) -> Result<Filter, FilterFault>
    requires { CanEnd state }
    ensures { Reads result (ending vocabulary at state) }
{
    match state {
        State::Finished(filter) => Ok(filter),
        State::Word(word) => {
            let word = text_of(word);
            match name_of(vocabulary, word.as_str()) {
                None => Err(FilterFault::UnknownTag(word)),
                Some(_) => Err(FilterFault::Syntax(at)),
            }
        }
        _ => Err(FilterFault::Syntax(at)),
    }
}
