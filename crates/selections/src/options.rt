//! Options at the end of words: a name, and its argument after it.
ghost use Rattle.std.specs.Prelude.{◌≡◌, ◌≤◌, length, string_bytes, map};
ghost use Rattle.command_arguments.specs.Readers.{Gives};
ghost use Rattle.selections.specs.Options.{front_length as front_length_lem, option_of};

use command_arguments::{Form, Misread, read_word};
use std::alloc::Global;

/// How many words are before the option of this name. The option is there as the last two words, with at
/// least so many words before them; where it is not, all words are before it.
pub(crate) fn front_length(name: &str, least: usize, words: &[String]) -> usize
    ensures length { result ≡ front_length_lem name.now least (map string_bytes words.now) }
    ensures inside { result ≤ length words.now }
{
    match words {
        [front @ .., word, _] if front.len() >= least && word.as_str() == name => front.len(),
        _ => words.len(),
    }
}

/// The argument of an option, where its words are there.
pub(crate) fn option_argument<A: Form>(
    alloc: Global,
    words: &[String],
) -> Result<Option<A>, Misread>
    ensures { Gives result (option_of A.read_gives (map string_bytes words.now)) }
{
    match words {
        [_, argument] => Ok(Some(read_word(alloc, argument.as_str())?)),
        _ => Ok(None),
    }
}
