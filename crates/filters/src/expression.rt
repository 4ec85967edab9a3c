//! Filters as trees (MPD protocol reference, Filters).
ghost use Rattle.std.specs.Prelude.{◌≡◌, IfOk};
ghost use Rattle.filters.specs.Expressions.{Expression, Compare, Under, Negation, Both};

use mpd_text::{TagName, Text};
use std::alloc::{AllocFailed, Global};
use std::marker::Model;

/// What of a song is compared.
#[derive(Clone, Copy, PartialEq, Eq)]
pub enum Field {
    /// The text of a tag, as [`mpd_text::text_of_tag`] reads it.
    Tag(TagName),
    /// The empty text: a tag that clients know and no song has.
    NoTag,
    /// The URI.
    File,
    /// The text of each tag of the base profile, of which one is enough.
    Any,
    /// The text of each of the ten tags, of which one is enough.
    AnyKnown,
}

/// How a text of a song is compared with the value of a filter.
#[derive(Clone, Copy, PartialEq, Eq)]
pub enum Test {
    /// They are the same, written `==`.
    Equals,
    /// They are not, written `!=`.
    Differs,
    /// The value is somewhere in the song's.
    Contains,
}

/// A filter: a tree of comparisons. A clause sees its expression.
#[cycle(filter)]
#[derive(Drop)]
pub struct Filter {
    pub(crate) node: Node,
    pub(crate) alloc: Global,
}

/// The top of a tree.
#[cycle(filter)]
#[derive(Drop)]
pub enum Node {
    /// One comparison.
    Compare(Field, Test, Text),
    /// The songs under a folder.
    Under(Text),
    /// The songs of which the filter does not hold.
    Negation(Box<Filter>),
    /// The songs of which all of these hold. They are side by side, so that a tree is no deeper than the
    /// parentheses of its text.
    All(Box<Filter>, Box<Filter>, Vec<Filter>),
}

impl Model for Filter {
    ghost use Rattle.filters.specs.Expressions.{Expression, nodes};
    ghost use Rattle.filters.specs.Codes.{expression_code};

    ghost Value = { Expression };

    ghost coded = { expression_code };

    ghost use Rattle.filters.specs.Views.{expression_of};

    ghost view = { λ f. expression_of f.node };

    ghost size = { nodes };

    ghost use Rattle.filters.specs.Falls.{depth_le_nodes};

    ghost size_decreases = { λ f h. depth_le_nodes f.node };
}

impl Filter {
    /// One comparison. Takes no memory.
    pub(crate) fn compare(alloc: Global, field: Field, test: Test, text: Text) -> Filter
        ensures { result ≡ Compare field test text }
    {
        Filter {
            node: Node::Compare(field, test, text),
            alloc,
        }
    }

    /// The songs under a folder, or all of them for the empty text. Takes no memory.
    pub(crate) fn under(alloc: Global, folder: Text) -> Filter
        ensures { result ≡ Under folder }
    {
        Filter {
            node: Node::Under(folder),
            alloc,
        }
    }

    /// The filter that holds where this one does not.
    pub(crate) fn negation(alloc: Global, filter: Filter) -> Result<Filter, AllocFailed<Filter>>
        ensures { IfOk result (λ f. f ≡ Negation filter) }
    {
        Ok(Filter {
            node: Node::Negation(Box::new(alloc, filter)?),
            alloc,
        })
    }

    /// The filter that holds where both do.
    #[tactic(auto, using(crate::proofs::Joins::all_push))]
    pub(crate) fn both(
        alloc: Global,
        first: Filter,
        second: Filter,
    ) -> Result<Filter, AllocFailed<Filter>>
        ensures { IfOk result (λ f. f ≡ Both first second) }
    {
        let node = match first.node {
            Node::All(one, two, mut more) => {
                more.push(second)?;
                Node::All(one, two, more)
            }
            node => {
                let first = Box::new(alloc, Filter { node, alloc })?;
                let second = Box::new(alloc, second)?;
                Node::All(first, second, Vec::new(alloc))
            }
        };
        Ok(Filter { node, alloc })
    }
}
