//! How many songs have each text of a tag (MPD protocol reference, The music database: `count` with `group`).
ghost use Rattle.std.specs.Prelude.{◌≡◌, ◌++◌, ◌≤◌, ◌^◌, ℕ, false, List, Option, IfOk, OnOk, length};
ghost use Rattle.std.specs.List.Sorted.{IsSorted};
ghost use Rattle.mpd_text.specs.Songs.Song.{SongData};
ghost use Rattle.mpd_text.specs.declared.songs.song.TagName.{TagName};
ghost use Rattle.song_db.specs.Lines.{millis};
ghost use Rattle.song_search.specs.Answers.{tag_texts as tag_texts_lem};
ghost use Rattle.mpd_text.specs.Texts.{ascending, values_now};
ghost use Rattle.song_groups.specs.Order.{in_order, text_key};
ghost use Rattle.song_groups.specs.Counts.{count_of as count_of_lem, groups, groups_now, group_lines, lines_of_groups, CountsEachOnce};

use crate::columns::text_in;
use crate::sorting::order_by_text;
use mpd_text::{Answer, Song, TagName, sort_once};
use song_db::{Rate, SharedSong};
use song_search::{Count, millis_of};
use std::alloc::{AllocError, Global};

/// The songs that have one text of a tag.
#[derive(Clone, Copy)]
pub struct Group<'a> {
    /// The text, which may be empty.
    pub text: &'a str,
    /// How many songs have it, and how long they play.
    pub count: Count,
}

/// The law that each song counts in one group: their counts make the number of all songs.
pub fn each_song_counts_once()
    ensures { (column : Option TagName) (rate : ℕ) (songs : List SongData) → CountsEachOnce column rate songs }
{}

/// For each text that a tag has among some songs, the empty one too, how many have it and how long they play:
/// in byte order of the texts. No song and no text is copied.
pub fn count_groups<'a>(
    alloc: Global,
    songs: &[&'a SharedSong],
    column: Option<TagName>,
    rate: &Rate,
) -> Result<Vec<Group<'a>>, AllocError>
    ensures { IfOk result (λ found. groups_now found.items ≡ groups column rate.now (values_now songs.now)) }
{
    let mut ordered = Vec::from_slice(alloc, songs)?;
    order_by_text(&mut ordered, column, false)?;
    count_ordered(alloc, &ordered, column, rate)
}

/// The same of songs that stand in the order of these texts: songs of one text stand side by side.
fn count_ordered<'a>(
    alloc: Global,
    songs: &[&'a SharedSong],
    column: Option<TagName>,
    rate: &Rate,
) -> Result<Vec<Group<'a>>, AllocError>
    requires { IsSorted (in_order (text_key column) false) (values_now songs.now) }
    ensures { IfOk result (λ found. groups_now found.items ≡ groups column rate.now (values_now songs.now)) }
{
    let mut found = Vec::new(alloc);
    let mut rest = songs;
    while let Some((first, _)) = rest.split_first() {
        let text = text_in(first.song(), column);
        let end = rest.partition_point(|song| text_in(song.song(), column) == text);
        let count = count_of(&rest[..end], rate);
        found.push(Group { text, count }).map_err(AllocError::from)?;
        rest = &rest[end..];
    }
    Ok(found)
}

/// How many songs there are, and how long they play.
fn count_of(songs: &[&SharedSong], rate: &Rate) -> Count
    ensures { result ≡ count_of_lem rate.now (values_now songs.now) }
{
    let mut millis: u128 = 0;
    for song in songs {
        millis += millis_of(song.song(), rate);
    }
    Count {
        songs: songs.len(),
        seconds: millis / 1000,
    }
}

/// Appends the lines of groups to an answer: each text under a label, how many songs have it, and how long
/// they play.
pub fn push_counts(answer: &mut Answer, label: &str, groups: &[Group]) -> Result<(), AllocError>
    ensures { OnOk result (answer.new ≡ answer.old ++ lines_of_groups label.now (groups_now groups.now)) }
{
    for group in groups {
        push_count(answer, label, group)?;
    }
    Ok(())
}

fn push_count(answer: &mut Answer, label: &str, group: &Group) -> Result<(), AllocError>
    ensures { OnOk result (answer.new ≡ answer.old ++ group_lines label.now (group.now.text.now, group.now.count)) }
{
    answer.pair(label, group.text)?;
    answer.pair("songs", group.count.songs)?;
    answer.pair("playtime", group.count.seconds)
}

/// How many texts that are not empty a tag has among some songs. No text is copied.
pub fn distinct(alloc: Global, songs: &[SharedSong], tag: TagName) -> Result<usize, AllocError>
    ensures { IfOk result (λ count. count ≡ length (ascending (tag_texts_lem tag songs.now))) }
{
    let mut texts = tag_texts(alloc, songs, tag)?;
    sort_once(&mut texts);
    Ok(texts.len())
}

/// The texts of a tag that are not empty, song by song.
fn tag_texts<'a>(
    alloc: Global,
    songs: &'a [SharedSong],
    tag: TagName,
) -> Result<Vec<&'a str>, AllocError>
    ensures { IfOk result (λ texts. values_now texts.items ≡ tag_texts_lem tag songs.now) }
{
    let mut texts = Vec::new(alloc);
    for song in songs {
        let text = text_in(song.song(), Some(tag));
        if !text.is_empty() {
            texts.push(text).map_err(AllocError::from)?;
        }
    }
    Ok(texts)
}
