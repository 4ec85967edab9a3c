//! Ranges of positions in arguments (MPD protocol reference, Requests: Ranges).
ghost use Rattle.std.specs.Prelude.{◌≡◌, Some, None, MatchOption, IfSome, ◌<◌, ◌≤◌};
ghost use Rattle.mpd_text.specs.Answers.Number.{number_of};
ghost use Rattle.mpd_text.specs.Answers.Range.{HasNoByte, IsCutAt, range_of, within as within_lem};

use super::numbers::number;
use std::ops;

/// Places in a list, as an argument names them.
#[derive(Clone, Copy, Debug, PartialEq, Eq)]
pub enum Range {
    /// One position. It is not the range that begins there: at the end of the list it names nothing.
    Lone(u32),
    /// From a start up to an end, which is left out. The start is not above the end.
    Between(u32, u32),
    /// From a start on.
    From(u32),
}

impl Range {
    /// The range of a text: `POS`, `START:END` or `START:`; `None` where it is none of these, or the start is
    /// above the end.
    #[tactic(auto, unfolding(crate::specs::Answers::Range::range_of))]
    pub fn parse(text: &str) -> Option<Range>
        ensures { result ≡ range_of text.now }
    {
        let Some((start, end)) = halves(text, ':') else {
            return Some(Range::Lone(number(text)?));
        };
        let start = number(start)?;
        if end.is_empty() {
            return Some(Range::From(start));
        }
        let end = number(end)?;
        if start <= end {
            Some(Range::Between(start, end))
        } else {
            None
        }
    }

    /// Its positions in a list of so many items, the end cut to the list's; `None` where it begins after the
    /// list's end, or is one position that the list does not have.
    pub fn within(self, len: usize) -> Option<ops::Range<usize>>
        ensures positions { result ≡ within_lem self len }
        ensures inside { IfSome result (λ positions. (positions.start ≤ positions.end) × (positions.end ≤ len)) }
    {
        let (start, end) = match self {
            Range::Lone(position) => (position as usize, position as usize + 1),
            Range::Between(start, end) => (start as usize, len.min(end as usize)),
            Range::From(start) => (start as usize, len),
        };
        if start <= end && end <= len {
            Some(start..end)
        } else {
            None
        }
    }
}

/// What stands before the first such character, and what stands after it.
pub(super) fn halves(text: &str, delimiter: char) -> Option<(&str, &str)>
    requires { delimiter < 128 }
    ensures { MatchOption result (HasNoByte delimiter text.now) (λ x. IsCutAt delimiter text.now x.0.now x.1.now) }
{
    text.split_once(delimiter)
}
