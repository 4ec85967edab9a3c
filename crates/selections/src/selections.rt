//! SELECTION: FILTER, the order of the songs and a window of them, each option at the end of the words.
ghost use Rattle.std.specs.Prelude.{map, string_bytes};
ghost use Rattle.command_arguments.specs.Readers.{Gives};
ghost use Rattle.selections.specs.Groupings.{GroupIsTaken, OthersAreLeft};
ghost use Rattle.selections.specs.Selections.{base_selection_of, base_placed_of, sorted_of, windowed_of, known_placed_of, selection_of, placed_selection_of, name_selection_of, WindowIsRead, SortIsRead, PositionIsRead};

use crate::asked::Selection;
use crate::options::{front_length, option_argument};
use crate::sort_by::SortBy;
use command_arguments::{Criteria, Misread, Position, filter, filter_window};
use filters::{Test, Vocabulary};
use mpd_text::Text;
use std::alloc::Global;

/// `find` and `search`: SELECTION; in the base profile FILTER and perhaps a window.
#[tactic(auto, unfolding(crate::specs::Selections::selection_of))]
pub fn selection(
    alloc: Global,
    everyday: bool,
    words: &[String],
    test: Test,
) -> Result<Selection, Misread>
    ensures { Gives result (selection_of everyday test (map string_bytes words.now)) }
{
    if everyday {
        windowed(alloc, words, test)
    } else {
        base_selection(alloc, words, test)
    }
}

/// `findadd` and `searchadd`: SELECTION, and perhaps the position in the queue; in the base profile FILTER
/// alone.
#[tactic(auto, unfolding(crate::specs::Selections::placed_selection_of))]
pub fn placed_selection(
    alloc: Global,
    everyday: bool,
    words: &[String],
    test: Test,
) -> Result<(Selection, Option<Position>), Misread>
    ensures { Gives result (placed_selection_of everyday test (map string_bytes words.now)) }
{
    if everyday {
        known_placed(alloc, words, test)
    } else {
        base_placed(alloc, words, test)
    }
}

/// `searchaddpl`, which the everyday profile alone has: the name of a stored playlist, then SELECTION.
#[tactic(auto, unfolding(crate::specs::Selections::name_selection_of))]
pub fn name_selection(
    alloc: Global,
    words: &[String],
    test: Test,
) -> Result<(Text, Selection), Misread>
    ensures { Gives result (name_selection_of test (map string_bytes words.now)) }
{
    let Some((name, rest)) = words.split_first() else {
        return Err(Misread::WrongNumber);
    };
    let selection = windowed(alloc, rest, test)?;
    let name = Text::new(alloc, name.as_str())?;
    Ok((name, selection))
}

/// FILTER, and perhaps a window, as the base profile reads them.
fn base_selection(alloc: Global, words: &[String], test: Test) -> Result<Selection, Misread>
    ensures { Gives result (base_selection_of test (map string_bytes words.now)) }
{
    let (criteria, window) = filter_window(alloc, Vocabulary::Base, words, test)?;
    Ok(Selection {
        criteria,
        sort: None,
        window,
    })
}

/// FILTER, as the base profile reads it.
fn base_placed(
    alloc: Global,
    words: &[String],
    test: Test,
) -> Result<(Selection, Option<Position>), Misread>
    ensures { Gives result (base_placed_of test (map string_bytes words.now)) }
{
    let criteria = filter(alloc, Vocabulary::Base, words, test)?;
    let selection = Selection {
        criteria,
        sort: None,
        window: None,
    };
    Ok((selection, None))
}

/// FILTER, and perhaps the order.
fn sorted(
    alloc: Global,
    words: &[String],
    test: Test,
) -> Result<(Criteria, Option<SortBy>), Misread>
    ensures { Gives result (sorted_of test (map string_bytes words.now)) }
{
    let (front, back) = words.split_at(front_length("sort", 1, words));
    let criteria = filter(alloc, Vocabulary::Known, front, test)?;
    let sort = option_argument(alloc, back)?;
    Ok((criteria, sort))
}

/// SELECTION.
fn windowed(alloc: Global, words: &[String], test: Test) -> Result<Selection, Misread>
    ensures { Gives result (windowed_of test (map string_bytes words.now)) }
{
    let (front, back) = words.split_at(front_length("window", 1, words));
    let (criteria, sort) = sorted(alloc, front, test)?;
    let window = option_argument(alloc, back)?;
    Ok(Selection {
        criteria,
        sort,
        window,
    })
}

/// SELECTION, and perhaps the position in the queue.
fn known_placed(
    alloc: Global,
    words: &[String],
    test: Test,
) -> Result<(Selection, Option<Position>), Misread>
    ensures { Gives result (known_placed_of test (map string_bytes words.now)) }
{
    let (front, back) = words.split_at(front_length("position", 1, words));
    let selection = windowed(alloc, front, test)?;
    let position = option_argument(alloc, back)?;
    Ok((selection, position))
}

/// The law that an option at the end is read from its argument, and the rest from the words before it, of
/// which there is one at least; and that of `list` the groups at the end are taken off one after the other.
pub fn options_are_read_from_the_right()
    ensures window { WindowIsRead }
    ensures sort { SortIsRead }
    ensures position { PositionIsRead }
    ensures group { GroupIsTaken }
    ensures others { OthersAreLeft }
{}
