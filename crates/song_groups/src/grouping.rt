//! The tuples of texts that songs have (MPD protocol reference, The music database: `list` with `group`).
ghost use Rattle.std.specs.Prelude.{◌≡◌, ◌++◌, ℕ, List, Option, OnOk, IfOk, drop, nat_eq};
ghost use lib.Pointwise.{pointwise};
ghost use Rattle.std.specs.List.{common_prefix_len};
ghost use Rattle.mpd_text.specs.Songs.Song.{SongData};
ghost use Rattle.mpd_text.specs.declared.songs.song.TagName.{TagName};
ghost use Rattle.mpd_text.specs.Texts.{values_now};
ghost use Rattle.song_groups.specs.Tuples.{tuple_of as tuple_of_lem, has_last, ascending_tuples, tuples as tuples_lem, tuples_now, unchanged as unchanged_lem, labelled, tuple_lines_now, lines_after_now, lines_of_tuples, TuplesRise, StandsIfASongs, HasLineIfChanged, AreTuplesOf};

use crate::columns::text_in;
use mpd_text::{Answer, Song, TagName};
use song_db::SharedSong;
use std::alloc::{AllocError, Global};
use std::collections::HashSet;

/// The law that the tuples of an answer rise strictly, so that each stands there once; that each is a song's
/// and has a last text; and that each such tuple of a song is there.
pub fn tuples_have_each_once()
    ensures order { (columns : List (Option TagName)) (songs : List SongData) → TuplesRise columns songs }
    ensures tuples { (columns : List (Option TagName)) (songs : List SongData) → StandsIfASongs columns songs }
{}

/// The law of the lines of a tuple: a column has one where its text or that of a column before it differs
/// from the tuple before, and the last column always.
pub fn stands_where_it_differs()
    ensures { (before tuple : List (List ℕ)) (column : ℕ) → HasLineIfChanged before tuple column }
{}

/// The distinct tuples of the texts that songs have in some columns, the last of them not empty: in byte
/// order from the left. The columns of `list TAG group G1 .. Gn` are Gn to G1, then TAG. No text is copied.
pub fn tuples<'a>(
    alloc: Global,
    songs: &[&'a SharedSong],
    columns: &[Option<TagName>],
) -> Result<Vec<Vec<&'a str>>, AllocError>
    ensures { IfOk result (λ found. tuples_now found.items ≡ tuples_lem columns.now (values_now songs.now)) }
{
    let listed = listed_tuples(alloc, songs, columns)?;
    let mut found = in_any_order(alloc, listed)?;
    sort_tuples_once(&mut found);
    Ok(found)
}

/// The tuples of a set, in the order in which the set has them.
fn in_any_order<'a>(
    alloc: Global,
    tuples: HashSet<Vec<&'a str>>,
) -> Result<Vec<Vec<&'a str>>, AllocError>
    ensures { IfOk result (λ found. found.items ≡ tuples.entry.keys) }
{
    tuples.into_iter().collect(alloc)
}

/// The tuples whose last text is not empty. Many songs have one tuple: a set has fewer to sort than there are
/// songs.
fn listed_tuples<'a>(
    alloc: Global,
    songs: &[&'a SharedSong],
    columns: &[Option<TagName>],
) -> Result<HashSet<Vec<&'a str>>, AllocError>
    ensures { IfOk result (λ found. AreTuplesOf found.keys columns.now (values_now songs.now)) }
{
    let mut found = HashSet::new(alloc);
    for song in songs {
        if is_listed(song.song(), columns) {
            let tuple = tuple_of(alloc, song.song(), columns)?;
            found.insert(tuple)?;
        }
    }
    Ok(found)
}

/// What a song has in each column.
fn tuple_of<'a>(
    alloc: Global,
    song: &'a Song,
    columns: &[Option<TagName>],
) -> Result<Vec<&'a str>, AllocError>
    ensures { IfOk result (λ tuple. values_now tuple.items ≡ tuple_of_lem columns.now song.now) }
{
    let mut tuple = Vec::with_capacity(alloc, columns.len())?;
    for column in columns {
        tuple
            .push(text_in(song, *column))
            .map_err(AllocError::from)?;
    }
    Ok(tuple)
}

/// Whether a song has a text in the last column.
fn is_listed(song: &Song, columns: &[Option<TagName>]) -> bool
    ensures { result ≡ has_last (tuple_of_lem columns.now song.now) }
{
    match columns.last() {
        Some(column) => !text_in(song, *column).is_empty(),
        None => false,
    }
}

/// Puts tuples in their order, and keeps each once.
fn sort_tuples_once(tuples: &mut Vec<Vec<&str>>)
    ensures { tuples_now tuples.new.items ≡ ascending_tuples (tuples_now tuples.old.items) }
{
    tuples.sort_unstable();
    tuples.dedup();
}

/// Appends the lines of tuples to an answer, each text under the label of its column. A column has a line
/// where its text or that of a column before it is not that of the tuple before, and the last column always.
pub fn push_tuples(
    answer: &mut Answer,
    labels: &[&str],
    tuples: &[Vec<&str>],
) -> Result<(), AllocError>
    ensures { OnOk result (answer.new ≡ answer.old ++ lines_of_tuples (values_now labels.now) (tuples_now tuples.now)) }
{
    if let [first, others @ ..] = tuples {
        push_tuple(answer, labels, &[], first)?;
        push_after(answer, labels, first, others)?;
    }
    Ok(())
}

/// The lines of tuples that follow one, each after the one before it.
fn push_after<'a>(
    answer: &mut Answer,
    labels: &[&str],
    first: &'a [&'a str],
    tuples: &'a [Vec<&'a str>],
) -> Result<(), AllocError>
    ensures { OnOk result (answer.new ≡ answer.old ++ lines_after_now labels.now first.now tuples.now) }
{
    let mut before = first;
    for tuple in tuples {
        push_tuple(answer, labels, before, tuple)?;
        before = tuple;
    }
    Ok(())
}

/// The lines of a tuple after another.
fn push_tuple(
    answer: &mut Answer,
    labels: &[&str],
    before: &[&str],
    tuple: &[&str],
) -> Result<(), AllocError>
    ensures { OnOk result (answer.new ≡ answer.old ++ tuple_lines_now labels.now before.now tuple.now) }
{
    let start = unchanged(before, tuple);
    push_labelled(answer, texts_from(labels, start), texts_from(tuple, start))
}

/// In how many columns from the left a tuple has no line.
fn unchanged(before: &[&str], tuple: &[&str]) -> usize
    ensures { result ≡ unchanged_lem (values_now before.now) (values_now tuple.now) }
{
    let last_column = tuple.len().saturating_sub(1);
    shared(before, tuple).min(last_column)
}

/// How many texts from the left two tuples share.
fn shared(before: &[&str], tuple: &[&str]) -> usize
    ensures { result ≡ common_prefix_len (pointwise nat_eq) (values_now before.now) (values_now tuple.now) }
{
    let mut shared = 0;
    for (a, b) in before.iter().zip(tuple) {
        if a != b {
            return shared;
        }
        shared += 1;
    }
    shared
}

/// The texts from an index on; none where there are not so many.
fn texts_from<'a>(texts: &'a [&'a str], start: usize) -> &'a [&'a str]
    ensures { result.now ≡ drop start texts.now }
{
    &texts[start.min(texts.len())..]
}

/// A line for each text that has a label.
fn push_labelled(answer: &mut Answer, labels: &[&str], texts: &[&str]) -> Result<(), AllocError>
    ensures { OnOk result (answer.new ≡ answer.old ++ labelled (values_now labels.now) (values_now texts.now)) }
{
    for (label, text) in labels.iter().zip(texts) {
        answer.pair(label, *text)?;
    }
    Ok(())
}
