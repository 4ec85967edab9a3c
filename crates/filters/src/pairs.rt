//! Filters given as pairs of words (MPD protocol reference, Filters, the older form).
ghost use Rattle.std.specs.Prelude.{◌≡◌};
ghost use Rattle.filters.specs.Answers.{OrNoMemory};
ghost use Rattle.filters.specs.Machine.{Reads};
ghost use Rattle.filters.specs.Pairs.{pairs_meaning};
ghost use Rattle.filters.specs.PairSteps.{pair_of as pair_of_lem, pairs_of};

use crate::expression::{Filter, Test};
use crate::reading::FilterFault;
use crate::state::{Named, name_of};
use crate::words::Vocabulary;
use mpd_text::Text;
use std::alloc::Global;

/// What is compared, as a word, and the text that it is compared with.
#[derive(Drop)]
pub struct Pair {
    /// A word of the vocabulary or `base`; the case of its letters does not count.
    pub name: Text,
    /// The value; of `base` the folder.
    pub text: Text,
}

impl Filter {
    /// The filter that all these pairs make together. Each compares as `test` says, save for `base`. No pairs
    /// ask for nothing, so every song meets them. The fault is the first word from the left that names
    /// nothing.
    pub fn of_pairs(
        alloc: Global,
        pairs: &[Pair],
        test: Test,
        vocabulary: Vocabulary,
    ) -> Result<Filter, FilterFault>
        ensures { OrNoMemory result (pairs_meaning vocabulary test pairs.now) }
    {
        read_pairs(alloc, vocabulary, pairs, test)
    }
}

/// The filter of all pairs, which are read from the left.
#[tactic(auto, unfolding(crate::specs::PairSteps::pairs_of, crate::specs::PairSteps::joined_with))]
fn read_pairs(
    alloc: Global,
    vocabulary: Vocabulary,
    pairs: &[Pair],
    test: Test,
) -> Result<Filter, FilterFault>
    ensures { Reads result (pairs_of vocabulary test pairs.now) }
{
    let (first, more) = match pairs {
        [] => return Ok(Filter::under(alloc, Text::of(String::new(alloc)))),
        [first, more @ ..] => (first, more),
    };
    let mut filter = match pair_of(alloc, vocabulary, first, test) {
        Ok(filter) => filter,
        Err(fault) => return Err(fault),
    };
    for pair in more {
        let next = match pair_of(alloc, vocabulary, pair, test) {
            Ok(next) => next,
            Err(fault) => return Err(fault),
        };
        filter = Filter::both(alloc, filter, next)?;
    }
    Ok(filter)
}

/// The filter that one pair makes.
#[tactic(auto, unfolding(crate::specs::PairSteps::pair_of))]
fn pair_of(
    alloc: Global,
    vocabulary: Vocabulary,
    pair: &Pair,
    test: Test,
) -> Result<Filter, FilterFault>
    ensures { Reads result (pair_of_lem vocabulary test pair.now) }
{
    match name_of(vocabulary, pair.name.as_str()) {
        None => {
            let word = Text::new(alloc, pair.name.as_str())?;
            Err(FilterFault::UnknownTag(word))
        }
        Some(Named::Field(field)) => {
            let text = Text::new(alloc, pair.text.as_str())?;
            Ok(Filter::compare(alloc, field, test, text))
        }
        Some(Named::Base) => {
            let folder = Text::new(alloc, pair.text.as_str())?;
            Ok(Filter::under(alloc, folder))
        }
    }
}
