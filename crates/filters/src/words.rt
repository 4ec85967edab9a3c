//! The words that name what a filter compares (MPD protocol reference, Tags and Filters).
ghost use Rattle.std.specs.Prelude.{◌≡◌};
ghost use Rattle.filters.specs.Words.{is_letter as is_letter_lem, is_word_byte as is_word_byte_lem, field_named as field_named_lem, base_field as base_field_lem, known_field as known_field_lem, field_of_tag as field_of_tag_lem};

use crate::expression::Field;
use known_tags::{KnownTag, same_word};
use mpd_text::TagName;

/// Which words name what a filter compares.
#[derive(Clone, Copy, PartialEq, Eq)]
pub enum Vocabulary {
    /// The six tags of the base profile, `file` and `any`, which means these six. A name is ASCII letters.
    Base,
    /// All tags that clients know, `file`, `filename` and `any`, which means the ten tags of songs. A name is
    /// ASCII letters or `_`.
    Known,
}

/// Whether a byte may be in a word of a filter's text.
pub fn is_word_byte(vocabulary: Vocabulary, b: u8) -> bool
    ensures { result ≡ is_word_byte_lem vocabulary b }
{
    match vocabulary {
        Vocabulary::Base => is_letter(b),
        Vocabulary::Known => is_letter(b) || b == b'_',
    }
}

fn is_letter(b: u8) -> bool
    ensures { result ≡ is_letter_lem b }
{
    (b >= b'A' && b <= b'Z') || (b >= b'a' && b <= b'z')
}

/// What of a song a word names.
#[tactic(auto, unfolding(crate::specs::Words::field_named))]
pub fn field_named(vocabulary: Vocabulary, word: &str) -> Option<Field>
    ensures { result ≡ field_named_lem vocabulary word.now }
{
    match vocabulary {
        Vocabulary::Base => base_field(word),
        Vocabulary::Known => known_field(word),
    }
}

/// What of a song a word names, where the six tags of the base profile are words.
#[tactic(auto, unfolding(crate::specs::Words::base_field))]
fn base_field(word: &str) -> Option<Field>
    ensures { result ≡ base_field_lem word.now }
{
    if same_word(word, "title") {
        Some(Field::Tag(TagName::Title))
    } else if same_word(word, "artist") {
        Some(Field::Tag(TagName::Artist))
    } else if same_word(word, "album") {
        Some(Field::Tag(TagName::Album))
    } else if same_word(word, "date") {
        Some(Field::Tag(TagName::Date))
    } else if same_word(word, "genre") {
        Some(Field::Tag(TagName::Genre))
    } else if same_word(word, "comment") {
        Some(Field::Tag(TagName::Comment))
    } else if same_word(word, "file") {
        Some(Field::File)
    } else if same_word(word, "any") {
        Some(Field::Any)
    } else {
        None
    }
}

/// What of a song a word names, where all tags that clients know are words.
#[tactic(auto, unfolding(crate::specs::Words::known_field))]
fn known_field(word: &str) -> Option<Field>
    ensures { result ≡ known_field_lem word.now }
{
    if same_word(word, "file") || same_word(word, "filename") {
        Some(Field::File)
    } else if same_word(word, "any") {
        Some(Field::AnyKnown)
    } else {
        match KnownTag::of_word(word) {
            Some(tag) => Some(field_of_tag(tag)),
            None => None,
        }
    }
}

/// What is compared of a tag that clients know.
fn field_of_tag(tag: KnownTag) -> Field
    ensures { result ≡ field_of_tag_lem tag }
{
    match tag.read_as() {
        Some(name) => Field::Tag(name),
        None => Field::NoTag,
    }
}
