//! What the words of a command are read as: their number first, then their forms from the left.
ghost use Rattle.std.specs.Prelude.{◌≡◌, ℕ, List, [], ◌∷◌, Ok, string_bytes, map};
ghost use Rattle.idle_notes.specs.Names.{subsystem_of};
ghost use Rattle.command_arguments.specs.Readers.{Gives, argument_of, none_of, one_of, perhaps_of, two_of, three_of, one_perhaps_of, many_of, some_of, number_or_none_of, one_many_of, subsystems_of, joined};
ghost use Rattle.command_arguments.specs.declared.readers.Misread.TheVariants.{NoMemory};

use crate::forms::Form;
use idle_notes::{Subsystem, Subsystems};
use mpd_text::{Sequence, Text};
use std::alloc::{AllocError, AllocFailed, Global};

/// Why words are not the arguments of a command.
#[derive(Drop)]
pub enum Misread {
    WrongNumber,
    /// The first argument from the left whose form is refused.
    Bad(Text),
    NoMemory,
}

impl From<AllocError> for Misread {
    ghost from_gives = { λ _ e. e ≡ NoMemory };

    fn from(_e: AllocError) -> Misread {
        Misread::NoMemory
    }
}

impl<T: Drop> From<AllocFailed<T>> for Misread {
    ghost from_gives = { λ _ e. e ≡ NoMemory };

    fn from(_e: AllocFailed<T>) -> Misread {
        Misread::NoMemory
    }
}

/// The value of a word.
pub fn read_word<A: Form>(alloc: Global, word: &str) -> Result<A, Misread>
    ensures { Gives result (argument_of A.read_gives word.now) }
{
    match A::read(alloc, word)? {
        Some(value) => Ok(value),
        None => Err(Misread::Bad(Text::new(alloc, word)?)),
    }
}

/// No argument.
pub fn none<A: Drop>(words: &[String], value: A) -> Result<A, Misread>
    ensures { Gives result (none_of value (map string_bytes words.now)) }
{
    if words.is_empty() {
        Ok(value)
    } else {
        Err(Misread::WrongNumber)
    }
}

/// One argument.
pub fn one<A: Form>(alloc: Global, words: &[String]) -> Result<A, Misread>
    ensures { Gives result (one_of A.read_gives (map string_bytes words.now)) }
{
    match words {
        [word] => read_word(alloc, word.as_str()),
        _ => Err(Misread::WrongNumber),
    }
}

/// One argument or none.
pub fn perhaps<A: Form>(alloc: Global, words: &[String]) -> Result<Option<A>, Misread>
    ensures { Gives result (perhaps_of A.read_gives (map string_bytes words.now)) }
{
    match words {
        [] => Ok(None),
        [word] => Ok(Some(read_word(alloc, word.as_str())?)),
        _ => Err(Misread::WrongNumber),
    }
}

/// A number or none; `-1` is none.
pub fn number_or_none(alloc: Global, words: &[String]) -> Result<Option<u32>, Misread>
    ensures { Gives result (number_or_none_of (map string_bytes words.now)) }
{
    match words {
        [word] if word.as_str() == "-1" => Ok(None),
        _ => perhaps(alloc, words),
    }
}

/// Two arguments.
pub fn two<A: Form, B: Form>(alloc: Global, words: &[String]) -> Result<(A, B), Misread>
    ensures { Gives result (two_of A.read_gives B.read_gives (map string_bytes words.now)) }
{
    let [first, second] = words else {
        return Err(Misread::WrongNumber);
    };
    let first = read_word(alloc, first.as_str())?;
    let second = read_word(alloc, second.as_str())?;
    Ok((first, second))
}

/// Three arguments.
pub fn three<A: Form, B: Form, C: Form>(
    alloc: Global,
    words: &[String],
) -> Result<(A, B, C), Misread>
    ensures { Gives result (three_of A.read_gives B.read_gives C.read_gives (map string_bytes words.now)) }
{
    let [first, second, third] = words else {
        return Err(Misread::WrongNumber);
    };
    let first = read_word(alloc, first.as_str())?;
    let second = read_word(alloc, second.as_str())?;
    let third = read_word(alloc, third.as_str())?;
    Ok((first, second, third))
}

/// One argument, and perhaps one after it.
pub fn one_perhaps<A: Form, B: Form>(
    alloc: Global,
    words: &[String],
) -> Result<(A, Option<B>), Misread>
    ensures { Gives result (one_perhaps_of A.read_gives B.read_gives (map string_bytes words.now)) }
{
    match words {
        [first] => Ok((read_word(alloc, first.as_str())?, None)),
        [first, second] => {
            let first = read_word(alloc, first.as_str())?;
            let second = read_word(alloc, second.as_str())?;
            Ok((first, Some(second)))
        }
        _ => Err(Misread::WrongNumber),
    }
}

/// Any number of arguments.
fn many<A: Form>(alloc: Global, words: &[String]) -> Result<Sequence<A>, Misread>
    ensures { Gives result (many_of A.read_gives (map string_bytes words.now)) }
{
    let mut values = Sequence::new(alloc);
    for word in words {
        values.push(read_word(alloc, word.as_str())?)?;
    }
    Ok(values)
}

/// At least one argument.
pub fn some<A: Form>(alloc: Global, words: &[String]) -> Result<Sequence<A>, Misread>
    ensures { Gives result (some_of A.read_gives (map string_bytes words.now)) }
{
    if words.is_empty() {
        return Err(Misread::WrongNumber);
    }
    many(alloc, words)
}

/// One argument, and at least one of another form after it.
pub fn one_many<A: Form, B: Form>(
    alloc: Global,
    words: &[String],
) -> Result<(A, Sequence<B>), Misread>
    ensures { Gives result (one_many_of A.read_gives B.read_gives (map string_bytes words.now)) }
{
    match words {
        [first, rest @ ..] if !rest.is_empty() => {
            let first = read_word(alloc, first.as_str())?;
            let rest = many(alloc, rest)?;
            Ok((first, rest))
        }
        _ => Err(Misread::WrongNumber),
    }
}

/// Any number of subsystems; all of them where none is named.
pub fn subsystems(alloc: Global, words: &[String]) -> Result<Subsystems, Misread>
    ensures { Gives result (subsystems_of (map string_bytes words.now)) }
{
    if words.is_empty() {
        return Ok(Subsystems::all());
    }
    let named = many(alloc, words)?;
    Ok(set_of(named.items()))
}

fn set_of(named: &[Subsystem]) -> Subsystems
    ensures { result ≡ joined named.now }
{
    let mut set = Subsystems::none();
    for subsystem in named {
        set = set.with(*subsystem);
    }
    set
}
