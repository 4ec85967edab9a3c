//! What comes before each byte of a filter's text.
ghost use Rattle.std.specs.Prelude.{◌≡◌, Ok, Err, true, if◌then◌else◌, ◌==◌};
ghost use Rattle.std.specs.Str.{IsUtf8};
ghost use Rattle.filters.specs.Machine.{named_of, step as step_lem, opened, closed, in_word as in_word_lem, before_text as before_text_lem, in_text as in_text_lem, sign as sign_lem, Steps, StepsAlone, contains_letter as contains_letter_lem, and_letter as and_letter_lem, done as done_lem, joined as joined_lem, after_joined as after_joined_lem, after_and as after_and_lem, filter_for, CanTake};
ghost use Rattle.filters.specs.declared.state.Stop.TheVariants.{Syntax, NoMemory};

use crate::expression::{Field, Filter, Test};
use crate::stack::Stack;
use crate::words::{Vocabulary, field_named, is_word_byte};
use known_tags::same_word;
use mpd_text::{Sequence, Text};
use std::alloc::{AllocError, AllocFailed, Global};

/// The most parentheses that may be open at once (this profile's).
pub const MAX_DEPTH: usize = 32;

/// Why a byte cannot be where it is.
#[derive(Drop)]
pub enum Stop {
    /// No filter goes on so.
    Syntax,
    /// The word before it names no tag.
    UnknownTag(Text),
    /// It opens one parenthesis too many.
    TooDeep,
    /// Memory ran out.
    NoMemory,
}

impl From<AllocError> for Stop {
    ghost from_gives = { λ _ e. e ≡ NoMemory };

    fn from(_e: AllocError) -> Stop {
        Stop::NoMemory
    }
}

impl<T: Drop> From<AllocFailed<T>> for Stop {
    ghost from_gives = { λ _ e. e ≡ NoMemory };

    fn from(_e: AllocFailed<T>) -> Stop {
        Stop::NoMemory
    }
}

/// What an open parenthesis is closed for.
#[derive(Drop)]
pub enum Purpose {
    /// The whole filter.
    Whole,
    /// A negation.
    Negated,
    /// The first of those that are to hold together.
    First,
    /// The next of them, after those before it.
    Next(Filter),
}

/// What a text in quotes is for.
#[derive(Clone, Copy)]
pub enum Goal {
    /// It is compared.
    Compared(Field, Test),
    /// It is a folder.
    Base,
}

/// What a word before a text names.
#[derive(Clone, Copy)]
pub enum Named {
    /// What is compared.
    Field(Field),
    /// The word `base`.
    Base,
}

/// What comes before the next byte. Numbers are how many letters of a word were read.
#[derive(Drop)]
pub enum State {
    Start,
    Opened,
    Bang,
    Word(Sequence<u8>),
    AfterField(Field),
    Sign(Field, Test),
    Contains(Field, u8),
    NeedsSpace(Goal),
    BeforeText(Goal),
    InText(Goal, u8, Sequence<u8>),
    Escaped(Goal, u8, Sequence<u8>),
    Done(Filter),
    Joined(Filter),
    AfterJoined(Filter),
    And(Filter, u8),
    AfterAnd(Filter),
    Finished(Filter),
}

/// What comes before the byte after this one.
#[tactic(auto, unfolding(crate::specs::Machine::step))]
pub fn step(
    alloc: Global,
    vocabulary: Vocabulary,
    state: State,
    purposes: &mut Stack<Purpose>,
    b: u8,
) -> Result<State, Stop>
    requires { CanTake state b }
    ensures { Steps result purposes.new (step_lem vocabulary true state purposes.old b) }
{
    match state {
        State::Start => open(purposes, Purpose::Whole, b),
        State::Opened => after_open(alloc, vocabulary, purposes, b),
        State::Bang => open(purposes, Purpose::Negated, b),
        State::Word(word) => in_word(vocabulary, word, b),
        State::AfterField(field) => sign(field, b),
        State::Sign(field, test) => only_at(b'=', b, Goal::Compared(field, test)),
        State::Contains(field, read) => contains_letter(field, read, b),
        State::NeedsSpace(goal) => only_at(b' ', b, goal),
        State::BeforeText(goal) => before_text(alloc, goal, b),
        State::InText(goal, quote, text) => in_text(alloc, goal, quote, text, b),
        State::Escaped(goal, quote, mut text) => {
            text.push(b)?;
            Ok(State::InText(goal, quote, text))
        }
        State::Done(filter) => done(alloc, purposes, filter, b),
        State::Joined(filter) => joined(alloc, purposes, filter, b),
        State::AfterJoined(filter) => after_joined(alloc, purposes, filter, b),
        State::And(filter, read) => and_letter(filter, read, b),
        State::AfterAnd(filter) => after_and(purposes, filter, b),
        State::Finished(_) => Err(Stop::Syntax),
    }
}

/// After an open parenthesis and perhaps spaces.
#[tactic(auto, unfolding(crate::specs::Machine::step))]
fn after_open(
    alloc: Global,
    vocabulary: Vocabulary,
    purposes: &mut Stack<Purpose>,
    b: u8,
) -> Result<State, Stop>
    ensures { Steps result purposes.new (step_lem vocabulary true State.Opened purposes.old b) }
{
    if b == b' ' {
        Ok(State::Opened)
    } else if b == b'!' {
        Ok(State::Bang)
    } else if is_word_byte(vocabulary, b) {
        let mut word = Sequence::new(alloc);
        word.push(b)?;
        Ok(State::Word(word))
    } else {
        open(purposes, Purpose::First, b)
    }
}

/// An open parenthesis, if it is one and there may be one more.
fn open(purposes: &mut Stack<Purpose>, purpose: Purpose, b: u8) -> Result<State, Stop>
    ensures { Steps result purposes.new (if b == 40 then opened true purpose purposes.old else Err Syntax) }
{
    if b != b'(' {
        return Err(Stop::Syntax);
    }
    if purposes.len() >= MAX_DEPTH {
        return Err(Stop::TooDeep);
    }
    purposes.push(purpose)?;
    Ok(State::Opened)
}

/// After what is alone in its parenthesis.
fn done(alloc: Global, purposes: &mut Stack<Purpose>, filter: Filter, b: u8) -> Result<State, Stop>
    ensures { Steps result purposes.new (done_lem filter purposes.old b) }
{
    if b == b' ' {
        return Ok(State::Done(filter));
    }
    close(alloc, purposes, filter, b)
}

/// Right after the last of those that are to hold together.
fn joined(
    alloc: Global,
    purposes: &mut Stack<Purpose>,
    filter: Filter,
    b: u8,
) -> Result<State, Stop>
    ensures { Steps result purposes.new (joined_lem filter purposes.old b) }
{
    if b == b' ' {
        return Ok(State::AfterJoined(filter));
    }
    close(alloc, purposes, filter, b)
}

/// After them and spaces.
fn after_joined(
    alloc: Global,
    purposes: &mut Stack<Purpose>,
    filter: Filter,
    b: u8,
) -> Result<State, Stop>
    ensures { Steps result purposes.new (after_joined_lem filter purposes.old b) }
{
    if b == b' ' {
        return Ok(State::AfterJoined(filter));
    }
    if b == b'A' {
        return Ok(State::And(filter, 1));
    }
    close(alloc, purposes, filter, b)
}

/// After AND and spaces.
fn after_and(purposes: &mut Stack<Purpose>, filter: Filter, b: u8) -> Result<State, Stop>
    ensures { Steps result purposes.new (after_and_lem true filter purposes.old b) }
{
    if b == b' ' {
        return Ok(State::AfterAnd(filter));
    }
    open(purposes, Purpose::Next(filter), b)
}

/// A closed parenthesis, if it is one: what it closes is the innermost that is open.
fn close(alloc: Global, purposes: &mut Stack<Purpose>, filter: Filter, b: u8) -> Result<State, Stop>
    ensures { Steps result purposes.new (if b == 41 then closed filter purposes.old else Err Syntax) }
{
    if b != b')' {
        return Err(Stop::Syntax);
    }
    match purposes.pop() {
        None => Err(Stop::Syntax),
        Some(Purpose::Whole) => Ok(State::Finished(filter)),
        Some(Purpose::Negated) => Ok(State::Done(Filter::negation(alloc, filter)?)),
        Some(Purpose::First) => Ok(State::Joined(filter)),
        Some(Purpose::Next(first)) => Ok(State::Joined(Filter::both(alloc, first, filter)?)),
    }
}

/// In a word, or after it.
fn in_word(vocabulary: Vocabulary, mut word: Sequence<u8>, b: u8) -> Result<State, Stop>
    requires { IsUtf8 word }
    ensures { StepsAlone result (in_word_lem vocabulary word b) }
{
    if is_word_byte(vocabulary, b) {
        word.push(b)?;
        return Ok(State::Word(word));
    }
    let word = text_of(word);
    match name_of(vocabulary, word.as_str()) {
        None => Err(Stop::UnknownTag(word)),
        Some(Named::Field(field)) => sign(field, b),
        Some(Named::Base) => only_at(b' ', b, Goal::Base),
    }
}

/// The text of bytes that are UTF-8. Takes no memory.
pub fn text_of(bytes: Sequence<u8>) -> Text
    requires { IsUtf8 bytes }
    ensures { result ≡ bytes }
{
    Text::of(String::from_utf8(bytes.into_items()).unwrap())
}

/// Before a text in quotes, if the byte is this one.
fn only_at(expected: u8, b: u8, goal: Goal) -> Result<State, Stop>
    ensures { StepsAlone result (if b == expected then Ok (State.BeforeText goal) else Err Syntax) }
{
    if b == expected {
        Ok(State::BeforeText(goal))
    } else {
        Err(Stop::Syntax)
    }
}

/// Before a text in quotes.
fn before_text(alloc: Global, goal: Goal, b: u8) -> Result<State, Stop>
    ensures { StepsAlone result (before_text_lem goal b) }
{
    if b == b' ' {
        Ok(State::BeforeText(goal))
    } else if b == b'"' || b == b'\'' {
        Ok(State::InText(goal, b, Sequence::new(alloc)))
    } else {
        Err(Stop::Syntax)
    }
}

/// Between quotes.
fn in_text(
    alloc: Global,
    goal: Goal,
    quote: u8,
    mut text: Sequence<u8>,
    b: u8,
) -> Result<State, Stop>
    requires { b ≡ quote → IsUtf8 text }
    ensures { StepsAlone result (in_text_lem goal quote text b) }
{
    if b == quote {
        Ok(State::Done(filter_of(alloc, goal, text_of(text))))
    } else if b == b'\\' {
        Ok(State::Escaped(goal, quote, text))
    } else {
        text.push(b)?;
        Ok(State::InText(goal, quote, text))
    }
}

fn filter_of(alloc: Global, goal: Goal, text: Text) -> Filter
    ensures { result ≡ filter_for goal text }
{
    match goal {
        Goal::Compared(field, test) => Filter::compare(alloc, field, test, text),
        Goal::Base => Filter::under(alloc, text),
    }
}

/// After what is compared.
fn sign(field: Field, b: u8) -> Result<State, Stop>
    ensures { StepsAlone result (sign_lem field b) }
{
    if b == b' ' {
        Ok(State::AfterField(field))
    } else if b == b'=' {
        Ok(State::Sign(field, Test::Equals))
    } else if b == b'!' {
        Ok(State::Sign(field, Test::Differs))
    } else if b == b'c' {
        Ok(State::Contains(field, 1))
    } else {
        Err(Stop::Syntax)
    }
}

/// The bytes of the word `contains`.
const CONTAINS: [u8; 8] = *b"contains";

fn contains_letter(field: Field, read: u8, b: u8) -> Result<State, Stop>
    ensures { StepsAlone result (contains_letter_lem field read b) }
{
    if read < 7 && b == CONTAINS[read as usize] {
        Ok(State::Contains(field, read + 1))
    } else if read == 7 && b == b's' {
        Ok(State::NeedsSpace(Goal::Compared(field, Test::Contains)))
    } else {
        Err(Stop::Syntax)
    }
}

fn and_letter(filter: Filter, read: u8, b: u8) -> Result<State, Stop>
    ensures { StepsAlone result (and_letter_lem filter read b) }
{
    if read == 1 && b == b'N' {
        Ok(State::And(filter, 2))
    } else if read == 2 && b == b'D' {
        Ok(State::And(filter, 3))
    } else if read == 3 && b == b' ' {
        Ok(State::AfterAnd(filter))
    } else {
        Err(Stop::Syntax)
    }
}

/// What a word before a text names.
#[tactic(auto, unfolding(crate::specs::Machine::named_of))]
pub fn name_of(vocabulary: Vocabulary, word: &str) -> Option<Named>
    ensures { result ≡ named_of vocabulary word.now }
{
    if same_word(word, "base") {
        Some(Named::Base)
    } else {
        field_named(vocabulary, word).map(Named::Field)
    }
}
