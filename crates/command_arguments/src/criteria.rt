//! What songs are asked for: the words of a filter, and of a window after it.
ghost use Rattle.std.specs.Prelude.{◌≡◌, ◌≤◌, List, ℕ, Result, Ok, IfOk, length, string_bytes, map};
ghost use Rattle.filters.specs.Answers.{OrNoMemory};
ghost use Rattle.filters.specs.Expressions.{Expression};
ghost use Rattle.filters.specs.Machine.{parsed};
ghost use Rattle.filters.specs.declared.reading.FilterFault.{FilterFault as Fault};
ghost use Rattle.command_arguments.specs.Readers.{Gives, none_of};
ghost use Rattle.command_arguments.specs.Criteria.{asked as asked_lem, fault_text as fault_text_lem, is_alone as is_alone_lem, pairs_of, paired as paired_lem, filter_of, filter_length as filter_length_lem, perhaps_window_of, filter_window_of, perhaps_filter_of, one_filter_of};

use crate::forms::{Form, Window, after_sign};
use crate::readers::{Misread, read_word};
use filters::{Filter, FilterFault, Pair, Test, Vocabulary};
use mpd_text::{Sequence, SharedText, Text};
use std::alloc::{AllocError, Global};
use std::marker::Model;
use std::ops::Deref;
use std::sync::Arc;

/// A filter behind one pointer, so that commands without one, and events, stay small.
#[derive(Drop)]
pub struct FilterHandle {
    filter: Arc<Filter, Global>,
}

impl Model for FilterHandle {
    ghost use Rattle.filters.specs.Codes.{expression_code};
    ghost use Rattle.filters.specs.Expressions.{Expression};
    ghost use Rattle.std.specs.Arc.{arc_value};

    ghost Value = { Expression };

    ghost coded = { expression_code };

    ghost view = { λ h. arc_value h.filter };
}

impl Deref for FilterHandle {
    type Target = Filter;

    ghost deref_gives = { λ handle filter. filter ≡ handle };

    fn deref(&self) -> &Filter
        ensures { result.now ≡ self.now }
    {
        &self.filter
    }
}

/// What songs are asked for.
#[derive(Drop)]
pub enum Criteria {
    /// Those that meet a filter.
    Meeting(FilterHandle),
    /// None: why the filter cannot be read, as an `ACK` says it.
    Refused(SharedText),
}

/// A filter, whose words name what the vocabulary knows.
pub fn filter(
    alloc: Global,
    vocabulary: Vocabulary,
    words: &[String],
    test: Test,
) -> Result<Criteria, Misread>
    ensures { Gives result (filter_of vocabulary test (map string_bytes words.now)) }
{
    match words {
        [] => Err(Misread::WrongNumber),
        [word, more @ ..] if is_alone(word.as_str()) => alone(
            alloc,
            vocabulary,
            word.as_str(),
            more,
        ),
        _ => paired(alloc, vocabulary, words, test),
    }
}

/// Whether a word is a filter alone.
pub fn is_alone(word: &str) -> bool
    ensures { result ≡ is_alone_lem word.now }
{
    after_sign(word, '(').is_some()
}

/// What a word asks for that is a filter alone: no more words may follow.
fn alone(
    alloc: Global,
    vocabulary: Vocabulary,
    word: &str,
    more: &[String],
) -> Result<Criteria, Misread>
    ensures { Gives result (none_of (asked_lem (parsed vocabulary word.now)) (map string_bytes more.now)) }
{
    if !more.is_empty() {
        return Err(Misread::WrongNumber);
    }
    asked(alloc, Filter::parse(alloc, word, vocabulary))
}

/// What words ask for that are pairs.
fn paired(
    alloc: Global,
    vocabulary: Vocabulary,
    words: &[String],
    test: Test,
) -> Result<Criteria, Misread>
    ensures { Gives result (paired_lem vocabulary test (map string_bytes words.now)) }
{
    let pairs = pairs(alloc, words)?;
    asked(
        alloc,
        Filter::of_pairs(alloc, pairs.items(), test, vocabulary),
    )
}

/// Words by twos.
fn pairs(alloc: Global, words: &[String]) -> Result<Sequence<Pair>, Misread>
    ensures { Gives result (pairs_of (map string_bytes words.now)) }
{
    let mut pairs = Sequence::new(alloc);
    let mut rest = words;
    while let [name, text, more @ ..] = rest {
        let name = Text::new(alloc, name.as_str())?;
        let text = Text::new(alloc, text.as_str())?;
        pairs.push(Pair { name, text })?;
        rest = more;
    }
    if rest.is_empty() {
        Ok(pairs)
    } else {
        Err(Misread::WrongNumber)
    }
}

/// What a filter asks for, as it was read.
fn asked(alloc: Global, read: Result<Filter, FilterFault>) -> Result<Criteria, Misread>
    ensures { (exact : Result Expression Fault) → OrNoMemory read exact → Gives result (Ok (asked_lem exact)) }
{
    match read {
        Ok(filter) => Ok(Criteria::Meeting(FilterHandle {
            filter: Arc::new(alloc, filter)?,
        })),
        Err(FilterFault::NoMemory) => Err(Misread::NoMemory),
        Err(fault) => Ok(Criteria::Refused(fault_text(alloc, &fault)?)),
    }
}

/// Why a filter cannot be read.
fn fault_text(alloc: Global, fault: &FilterFault) -> Result<SharedText, AllocError>
    ensures { IfOk result (λ text. text ≡ fault_text_lem fault.now) }
{
    match fault {
        FilterFault::Syntax(offset) => {
            SharedText::of(format!(in alloc; "bad filter at byte {offset}")?)
        }
        FilterFault::UnknownTag(word) => {
            let word = word.as_str();
            SharedText::of(format!(in alloc; "unknown tag \"{word}\"")?)
        }
        FilterFault::TooDeep => SharedText::new(alloc, "filter too deep"),
        FilterFault::NoMemory => SharedText::new(alloc, ""),
    }
}

/// A filter, and perhaps a window after it.
pub fn filter_window(
    alloc: Global,
    vocabulary: Vocabulary,
    words: &[String],
    test: Test,
) -> Result<(Criteria, Option<Window>), Misread>
    ensures { Gives result (filter_window_of vocabulary test (map string_bytes words.now)) }
{
    let (front, back) = words.split_at(filter_length(words));
    let criteria = filter(alloc, vocabulary, front, test)?;
    let window = perhaps_window(alloc, back)?;
    Ok((criteria, window))
}

/// How many of the words are the filter's.
fn filter_length(words: &[String]) -> usize
    ensures length { result ≡ filter_length_lem (map string_bytes words.now) }
    ensures inside { result ≤ length words.now }
{
    match words {
        [word, ..] if is_alone(word.as_str()) => 1,
        [.., _, _, word, _] if word.as_str() == "window" => words.len() - 2,
        _ => words.len(),
    }
}

/// A window or no words.
fn perhaps_window(alloc: Global, words: &[String]) -> Result<Option<Window>, Misread>
    ensures { Gives result (perhaps_window_of (map string_bytes words.now)) }
{
    match words {
        [] => Ok(None),
        [word, positions] => {
            if word.as_str() != "window" {
                return Err(Misread::Bad(Text::new(alloc, word.as_str())?));
            }
            Ok(Some(read_word(alloc, positions.as_str())?))
        }
        _ => Err(Misread::WrongNumber),
    }
}

/// A filter or no words.
pub fn perhaps_filter(
    alloc: Global,
    vocabulary: Vocabulary,
    words: &[String],
    test: Test,
) -> Result<Option<Criteria>, Misread>
    ensures { Gives result (perhaps_filter_of vocabulary test (map string_bytes words.now)) }
{
    if words.is_empty() {
        return Ok(None);
    }
    Ok(Some(filter(alloc, vocabulary, words, test)?))
}

/// One argument, and perhaps a filter after it.
pub fn one_filter<A: Form>(
    alloc: Global,
    vocabulary: Vocabulary,
    words: &[String],
    test: Test,
) -> Result<(A, Option<Criteria>), Misread>
    ensures { Gives result (one_filter_of A.read_gives vocabulary test (map string_bytes words.now)) }
{
    let Some((first, rest)) = words.split_first() else {
        return Err(Misread::WrongNumber);
    };
    let criteria = perhaps_filter(alloc, vocabulary, rest, test)?;
    let first = read_word(alloc, first.as_str())?;
    Ok((first, criteria))
}
