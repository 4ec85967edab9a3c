//! Whether a song meets a filter (MPD protocol reference, Filters).
ghost use Rattle.std.specs.Prelude.{◌≡◌, ◌↔◌, ◌++◌, ◌∷◌, List, ℕ, IfOk, IsOk, IsTrue, MatchOption};
ghost use Rattle.filters.specs.Truth.{Holds, Compares, Relates, IsUnder, LacksPrefix, SomeTagRelates, IsRelated, folded};
ghost use Rattle.std.specs.Str.Iter.{HasSubslice};
ghost use Rattle.filters.specs.declared.matching.Case.TheVariants.{Heeded};

use crate::expression::{Field, Filter, Node, Test};
use caseless::default_case_fold_str;
use mpd_text::{BASE_TAG_NAMES, Song, TAG_NAMES, Tag, TagName, text_of_tag};
use std::alloc::{AllocError, Global};

/// Whether the case of letters counts.
#[derive(Clone, Copy, PartialEq, Eq)]
pub enum Case {
    /// It does, as in `find`.
    Heeded,
    /// It does not, as in `search`: texts are compared in their full default case folding (the Unicode
    /// Standard, section 3.13). Folders are compared as they are.
    Ignored,
}

/// How two texts, folded or not, are compared.
#[derive(Clone, Copy)]
enum Relation {
    Same,
    Includes,
}

impl Filter {
    /// Whether a song meets the filter. Where case is heeded this takes no memory, and always answers.
    pub fn matches(&self, song: &Song, case: Case) -> Result<bool, AllocError>
        ensures truth { IfOk result (λ yes. IsTrue yes ↔ Holds case self.now song.now) }
        ensures answers { case ≡ Heeded → IsOk result }
    {
        match &self.node {
            Node::Compare(field, test, text) => {
                compares(self.alloc, song, *field, *test, text.as_str(), case)
            }
            Node::Under(folder) => Ok(is_under(song.uri(), folder.as_str())),
            Node::Negation(filter) => Ok(!filter.matches(song, case)?),
            Node::All(one, two, more) => {
                if !one.matches(song, case)? {
                    return Ok(false);
                }
                if !two.matches(song, case)? {
                    return Ok(false);
                }
                for filter in more {
                    if !filter.matches(song, case)? {
                        return Ok(false);
                    }
                }
                Ok(true)
            }
        }
    }
}

/// Whether a comparison holds of a song.
fn compares(
    alloc: Global,
    song: &Song,
    field: Field,
    test: Test,
    value: &str,
    case: Case,
) -> Result<bool, AllocError>
    ensures truth { IfOk result (λ yes. IsTrue yes ↔ Compares case test value.now field song.now) }
    ensures answers { case ≡ Heeded → IsOk result }
{
    match test {
        Test::Equals => relates(alloc, song, field, Relation::Same, value, case),
        Test::Differs => Ok(!relates(alloc, song, field, Relation::Same, value, case)?),
        Test::Contains => relates(alloc, song, field, Relation::Includes, value, case),
    }
}

/// Whether what is compared has this relation to the value.
fn relates(
    alloc: Global,
    song: &Song,
    field: Field,
    relation: Relation,
    value: &str,
    case: Case,
) -> Result<bool, AllocError>
    ensures truth { IfOk result (λ yes. IsTrue yes ↔ Relates case relation (folded case value.now) field song.now) }
    ensures answers { case ≡ Heeded → IsOk result }
{
    match case {
        Case::Heeded => has_it(alloc, song, field, relation, value, case),
        Case::Ignored => {
            let value = default_case_fold_str(alloc, value)?;
            has_it(alloc, song, field, relation, value.as_str(), case)
        }
    }
}

/// Whether what is compared has this relation to a value that is folded already.
fn has_it(
    alloc: Global,
    song: &Song,
    field: Field,
    relation: Relation,
    value: &str,
    case: Case,
) -> Result<bool, AllocError>
    ensures truth { IfOk result (λ yes. IsTrue yes ↔ Relates case relation value.now field song.now) }
    ensures answers { case ≡ Heeded → IsOk result }
{
    match field {
        Field::Tag(name) => text_has_it(
            alloc,
            text_of_tag(song.tags(), name),
            relation,
            value,
            case,
        ),
        Field::NoTag => text_has_it(alloc, "", relation, value, case),
        Field::File => text_has_it(alloc, song.uri(), relation, value, case),
        Field::Any => some_tag(alloc, song.tags(), &BASE_TAG_NAMES, relation, value, case),
        Field::AnyKnown => some_tag(alloc, song.tags(), &TAG_NAMES, relation, value, case),
    }
}

/// Whether some tag of these names, each read as by its own name, has a text with this relation to the
/// value.
fn some_tag(
    alloc: Global,
    tags: &[Tag],
    names: &[TagName],
    relation: Relation,
    value: &str,
    case: Case,
) -> Result<bool, AllocError>
    ensures truth { IfOk result (λ yes. IsTrue yes ↔ SomeTagRelates case relation value.now names.now tags.now) }
    ensures answers { case ≡ Heeded → IsOk result }
{
    for name in names {
        if text_has_it(alloc, text_of_tag(tags, *name), relation, value, case)? {
            return Ok(true);
        }
    }
    Ok(false)
}

/// Whether a text, folded where case is ignored, has this relation to the value.
fn text_has_it(
    alloc: Global,
    text: &str,
    relation: Relation,
    value: &str,
    case: Case,
) -> Result<bool, AllocError>
    ensures truth { IfOk result (λ yes. IsTrue yes ↔ IsRelated relation (folded case text.now) value.now) }
    ensures answers { case ≡ Heeded → IsOk result }
{
    match case {
        Case::Heeded => Ok(is_related(relation, text, value)),
        Case::Ignored => {
            let text = default_case_fold_str(alloc, text)?;
            Ok(is_related(relation, text.as_str(), value))
        }
    }
}

fn is_related(relation: Relation, text: &str, value: &str) -> bool
    ensures { IsTrue result ↔ IsRelated relation text.now value.now }
{
    match relation {
        Relation::Same => text == value,
        Relation::Includes => includes(text, value),
    }
}

/// Whether the value is somewhere in the text.
fn includes(text: &str, value: &str) -> bool
    ensures { IsTrue result ↔ HasSubslice text.now value.now }
{
    text.contains(value)
}

/// Whether a URI lies under a folder; each lies under the empty one.
fn is_under(uri: &str, folder: &str) -> bool
    ensures { IsTrue result ↔ IsUnder folder.now uri.now }
{
    if folder.is_empty() {
        return true;
    }
    match after_prefix(uri.as_bytes(), folder.as_bytes()) {
        None => false,
        Some(rest) => begins_with_slash(rest),
    }
}

/// The bytes after a prefix, if they begin with it.
pub fn after_prefix<'a>(bytes: &'a [u8], prefix: &[u8]) -> Option<&'a [u8]>
    ensures { MatchOption result (LacksPrefix prefix.now bytes.now) (λ rest. bytes.now ≡ prefix.now ++ rest.now) }
{
    bytes.strip_prefix(prefix)
}

fn begins_with_slash(bytes: &[u8]) -> bool
    ensures { IsTrue result ↔ ((rest : List ℕ) × (bytes.now ≡ 47 ∷ rest)) }
{
    match bytes {
        [b'/', ..] => true,
        _ => false,
    }
}
