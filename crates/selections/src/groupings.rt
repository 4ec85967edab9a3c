//! What `list` and `count` ask for: a filter or none, and the tags that group the answer.
ghost use Rattle.std.specs.Prelude.{◌≡◌, ◌≤◌, ◌∷◌, [], codes, length, map, string_bytes};
ghost use Rattle.command_arguments.specs.Readers.{Gives};
ghost use Rattle.command_arguments.specs.Criteria.{filter_of};
ghost use Rattle.known_tags.specs.KnownTags.{tag_of};
ghost use Rattle.filters.specs.declared.expression.Test.TheVariants.{Equals};
ghost use Rattle.filters.specs.declared.words.Vocabulary.TheVariants.{Known};
ghost use Rattle.selections.specs.Groupings.{groups_start as groups_start_lem, names_album, is_among as is_among_lem, other_tag_of, tags_of, base_counting_of, base_grouping_of, counting_of, grouping_of, known_as as known_as_lem, listed_filter_of, known_grouping_of, counted_of, known_counting_of, TagsDiffer};

use crate::asked::{Counting, Grouping};
use crate::options::{front_length, option_argument};
use command_arguments::{
    Criteria, Misread, filter, is_alone, one_filter, perhaps_filter, read_word,
};
use filters::{Test, Vocabulary};
use known_tags::KnownTag;
use mpd_text::{Sequence, TagName, Text};
use std::alloc::Global;

/// `list`: a tag, FILTER or nothing, and any number of groups; of albums also the name of an artist alone. In
/// the base profile a tag, and FILTER or nothing.
#[tactic(auto, unfolding(crate::specs::Groupings::grouping_of))]
pub fn grouping(alloc: Global, everyday: bool, words: &[String]) -> Result<Grouping, Misread>
    ensures { Gives result (grouping_of everyday (map string_bytes words.now)) }
{
    if everyday {
        known_grouping(alloc, words)
    } else {
        base_grouping(alloc, words)
    }
}

/// `count`: FILTER or nothing, and a group or none, but not nothing and none. In the base profile FILTER.
#[tactic(auto, unfolding(crate::specs::Groupings::counting_of))]
pub fn counting(alloc: Global, everyday: bool, words: &[String]) -> Result<Counting, Misread>
    ensures { Gives result (counting_of everyday (map string_bytes words.now)) }
{
    if everyday {
        known_counting(alloc, words)
    } else {
        base_counting(alloc, words)
    }
}

/// A tag of the base profile, and FILTER or nothing.
fn base_grouping(alloc: Global, words: &[String]) -> Result<Grouping, Misread>
    ensures { Gives result (base_grouping_of (map string_bytes words.now)) }
{
    let (name, criteria) = one_filter(alloc, Vocabulary::Base, words, Test::Equals)?;
    let mut tags = Sequence::new(alloc);
    tags.push(known_as(name))?;
    Ok(Grouping { tags, criteria })
}

/// A tag of songs among the known tags.
fn known_as(name: TagName) -> KnownTag
    ensures { result ≡ known_as_lem name }
{
    match name {
        TagName::Title => KnownTag::Title,
        TagName::Artist => KnownTag::Artist,
        TagName::Album => KnownTag::Album,
        TagName::Date => KnownTag::Date,
        TagName::Genre => KnownTag::Genre,
        TagName::Comment => KnownTag::Comment,
        TagName::AlbumArtist => KnownTag::AlbumArtist,
        TagName::Track => KnownTag::Track,
        TagName::Disc => KnownTag::Disc,
        TagName::Composer => KnownTag::Composer,
    }
}

/// FILTER.
fn base_counting(alloc: Global, words: &[String]) -> Result<Counting, Misread>
    ensures { Gives result (base_counting_of (map string_bytes words.now)) }
{
    let criteria = filter(alloc, Vocabulary::Base, words, Test::Equals)?;
    Ok(Counting {
        group: None,
        criteria: Some(criteria),
    })
}

/// A tag, FILTER or nothing, and any number of groups.
#[tactic(auto, unfolding(crate::specs::Groupings::known_grouping_of))]
fn known_grouping(alloc: Global, words: &[String]) -> Result<Grouping, Misread>
    ensures { Gives result (known_grouping_of (map string_bytes words.now)) }
{
    let Some((first, rest)) = words.split_first() else {
        return Err(Misread::WrongNumber);
    };
    let (front, groups) = rest.split_at(groups_start(rest));
    let criteria = listed_filter(alloc, first.as_str(), front, groups)?;
    let tags = tags(alloc, first.as_str(), groups)?;
    Ok(Grouping { tags, criteria })
}

/// The law that no tag of a grouping is there twice.
pub fn no_tag_is_there_twice()
    ensures { TagsDiffer }
{}

/// FILTER or nothing, and a group or none, but not nothing and none.
#[tactic(auto, unfolding(crate::specs::Groupings::known_counting_of))]
fn known_counting(alloc: Global, words: &[String]) -> Result<Counting, Misread>
    ensures { Gives result (known_counting_of (map string_bytes words.now)) }
{
    match words {
        [] => Err(Misread::WrongNumber),
        _ => counted(alloc, words),
    }
}

/// FILTER or nothing, and a group or none.
fn counted(alloc: Global, words: &[String]) -> Result<Counting, Misread>
    ensures { Gives result (counted_of (map string_bytes words.now)) }
{
    let (front, back) = words.split_at(front_length("group", 0, words));
    let criteria = perhaps_filter(alloc, Vocabulary::Known, front, Test::Equals)?;
    let group = option_argument(alloc, back)?;
    Ok(Counting { group, criteria })
}

/// How many words are before the groups at the end.
fn groups_start(words: &[String]) -> usize
    ensures start { result ≡ groups_start_lem (map string_bytes words.now) }
    ensures inside { result ≤ length words.now }
{
    let mut rest = words;
    while let [front @ .., name, _] = rest {
        if name.as_str() != "group" {
            return rest.len();
        }
        rest = front;
    }
    rest.len()
}

/// The filter of `list`, whose words are before the groups.
fn listed_filter(
    alloc: Global,
    first: &str,
    front: &[String],
    groups: &[String],
) -> Result<Option<Criteria>, Misread>
    ensures { Gives result (listed_filter_of first.now (map string_bytes front.now) (map string_bytes groups.now)) }
{
    match front {
        [text] if groups.is_empty() && is_album(first) && !is_alone(text.as_str()) => {
            Ok(Some(by_artist(alloc, text.as_str())?))
        }
        _ => perhaps_filter(alloc, Vocabulary::Known, front, Test::Equals),
    }
}

/// The songs of an artist.
fn by_artist(alloc: Global, name: &str) -> Result<Criteria, Misread>
    ensures { Gives result (filter_of Known Equals (codes "artist" ∷ name.now ∷ [])) }
{
    let words = [
        String::from_str(alloc, "artist")?,
        String::from_str(alloc, name)?,
    ];
    filter(alloc, Vocabulary::Known, &words, Test::Equals)
}

fn is_album(word: &str) -> bool
    ensures { result ≡ names_album (tag_of word.now) }
{
    matches!(KnownTag::of_word(word), Some(KnownTag::Album))
}

/// The tag that is listed, then those of the groups.
fn tags(alloc: Global, first: &str, groups: &[String]) -> Result<Sequence<KnownTag>, Misread>
    ensures { Gives result (tags_of first.now (map string_bytes groups.now)) }
{
    let mut tags = Sequence::new(alloc);
    tags.push(read_word(alloc, first)?)?;
    let mut rest = groups;
    while let [_, word, more @ ..] = rest {
        tags.push(other_tag(alloc, tags.items(), word.as_str())?)?;
        rest = more;
    }
    Ok(tags)
}

/// A tag that is none of these.
fn other_tag(alloc: Global, tags: &[KnownTag], word: &str) -> Result<KnownTag, Misread>
    ensures { Gives result (other_tag_of tags.now word.now) }
{
    let tag = read_word(alloc, word)?;
    if is_among(tags, tag) {
        return Err(Misread::Bad(Text::new(alloc, word)?));
    }
    Ok(tag)
}

/// Whether a tag is one of these.
fn is_among(tags: &[KnownTag], tag: KnownTag) -> bool
    ensures { result ≡ is_among_lem tags.now tag }
{
    tags.contains(&tag)
}
