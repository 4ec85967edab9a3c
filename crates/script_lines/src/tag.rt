//! The tags of a song, as a script writes them.
ghost use Rattle.std.specs.Prelude.{◌≡◌, ◌<◌, IfOk, map, string_bytes};
ghost use Rattle.std.specs.Str.{str_eq_ignore_ascii_case};
ghost use Rattle.std.specs.List.{list_all};
ghost use Rattle.script_lines.specs.Tags.{is_tag_of as is_tag_of_lem, is_tag as is_tag_lem, text_of as text_of_lem, counts as counts_lem, IsFirstText, tags_named as tags_named_lem, tags_of as tags_of_lem};

use crate::cut::{cut, has};
use mpd_text::{BASE_TAG_NAMES, TAG_NAMES, Tag, TagName, has_no_control};
use std::alloc::{AllocError, Global};

/// The greatest length of a tag's text, in bytes. A longer text is skipped.
pub const MAX_TEXT: usize = 1_024;

fn same_name(word: &str, name: &str) -> bool
    ensures { result ≡ str_eq_ignore_ascii_case word.now name.now }
{
    word.eq_ignore_ascii_case(name)
}

/// Whether this tag's name is before the first `=` of a word.
#[tactic(auto, unfolding(crate::specs::Tags::is_tag_of))]
fn is_tag_of(name: TagName, word: &str) -> bool
    ensures { result ≡ is_tag_of_lem name word.now }
{
    has(word, '=') && same_name(cut(word, '=').0, name.text())
}

/// Whether a word is of some tag: one of the base profile, or any where the everyday profile is on.
#[tactic(auto, unfolding(crate::specs::Tags::is_tag))]
fn is_tag(everyday: bool, word: &str) -> bool
    ensures { result ≡ is_tag_lem everyday word.now }
{
    if everyday {
        TAG_NAMES.iter().any(|name| is_tag_of(*name, word))
    } else {
        BASE_TAG_NAMES.iter().any(|name| is_tag_of(*name, word))
    }
}

/// The text of a tag: what follows the first `=`, up to its first zero byte.
fn text_of(word: &str) -> &str
    ensures { result.now ≡ text_of_lem word.now }
{
    cut(cut(word, '=').1, '\0').0
}

#[tactic(auto, unfolding(crate::specs::Tags::counts))]
fn counts(text: &str) -> bool
    ensures { result ≡ counts_lem text.now }
{
    !text.is_empty() && text.len() <= MAX_TEXT && has_no_control(text.as_bytes())
}

fn first_text(words: &[String], name: TagName) -> Option<&str>
    ensures { IsFirstText name (map string_bytes words.now) result }
{
    for word in words {
        let text = text_of(word.as_str());
        if is_tag_of(name, word.as_str()) && counts(text) {
            return Some(text);
        }
    }
    None
}

/// The tags that words give, each once and in the order of answers.
pub(crate) fn tags_of(alloc: Global, words: &[String]) -> Result<Vec<Tag>, AllocError>
    ensures { IfOk result (λ tags. tags.items ≡ tags_of_lem (map string_bytes words.now)) }
{
    tags_named(alloc, words, &TAG_NAMES)
}

/// The tags of these names that words give, in the order of the names.
#[tactic(auto, unfolding(crate::specs::Tags::tags_named))]
fn tags_named(alloc: Global, words: &[String], names: &[TagName]) -> Result<Vec<Tag>, AllocError>
    ensures { IfOk result (λ tags. tags.items ≡ tags_named_lem names.now (map string_bytes words.now)) }
{
    let mut tags = Vec::new(alloc);
    for name in names {
        if let Some(text) = first_text(words, *name) {
            tags.push(Tag::new(*name, String::from_str(alloc, text)?))?;
        }
    }
    Ok(tags)
}

/// Whether each word gives a tag: one of the base profile, or any where the everyday profile is on.
pub(crate) fn are_tags(everyday: bool, words: &[String]) -> bool
    ensures { result ≡ list_all (is_tag_lem everyday) (map string_bytes words.now) }
{
    for word in words {
        if !is_tag(everyday, word.as_str()) {
            return false;
        }
    }
    true
}
