//! Songs in the order of a tag (MPD protocol reference, The music database: `sort`).
ghost use Rattle.std.specs.Prelude.{◌≡◌, Bool, List, OnOk, OnErr, Option};
ghost use Rattle.mpd_text.specs.Songs.Song.{SongData};
ghost use Rattle.mpd_text.specs.declared.songs.song.TagName.{TagName};
ghost use Rattle.mpd_text.specs.Texts.{values_now};
ghost use Rattle.song_groups.specs.Columns.{text_in as text_in_lem};
ghost use Rattle.song_groups.specs.Numbers.{leading_number as leading_number_lem};
ghost use Rattle.song_groups.specs.Order.{goes_by_number as goes_by_number_lem, in_order, number_key, ordered, text_key, IsStablyOrdered, IsStablyOrderedBy, HasOneOrder};

use crate::columns::text_in;
use crate::numbers::leading_number;
use mpd_text::{Song, TagName};
use song_db::SharedSong;
use std::alloc::AllocError;
use std::cmp::Ordering;

/// The law that a list has one order by a tag: what has its songs, rises or falls, and leaves songs of one
/// key as they stood, is `ordered`.
pub fn one_order()
    ensures { (by : Option TagName) (falling : Bool) (songs : List SongData) → HasOneOrder by falling songs }
{}

/// Puts songs in the order of a tag, rising or falling: of tracks and discs by the numbers that their texts
/// begin with, of other tags by the bytes of their texts. Songs that tie stay in the order that they have,
/// also where the others fall. Where no memory is found, all songs stay where they are.
pub fn order(
    songs: &mut Vec<&SharedSong>,
    by: Option<TagName>,
    falling: bool,
) -> Result<(), AllocError>
    ensures ok { OnOk result (values_now songs.new.items ≡ ordered by falling (values_now songs.old.items)) }
    ensures order { OnOk result (IsStablyOrdered by falling (values_now songs.old.items) (values_now songs.new.items)) }
    ensures err { OnErr result (songs.new.items ≡ songs.old.items) }
{
    if goes_by_number(by) {
        order_by_number(songs, by, falling)
    } else {
        order_by_text(songs, by, falling)
    }
}

/// Whether songs go by the numbers that the texts of a tag begin with.
fn goes_by_number(by: Option<TagName>) -> bool
    ensures { result ≡ goes_by_number_lem by }
{
    match by {
        Some(TagName::Track) => true,
        Some(TagName::Disc) => true,
        _ => false,
    }
}

/// Puts songs in the byte order of the texts that a tag has.
pub(crate) fn order_by_text(
    songs: &mut Vec<&SharedSong>,
    by: Option<TagName>,
    falling: bool,
) -> Result<(), AllocError>
    ensures order { OnOk result (IsStablyOrderedBy (text_key by) falling (values_now songs.old.items) (values_now songs.new.items)) }
    ensures err { OnErr result (songs.new.items ≡ songs.old.items) }
{
    songs.sort_by(|a, b| compare_texts(a.song(), b.song(), by, falling))
}

/// Which of two songs comes first by their texts.
fn compare_texts(a: &Song, b: &Song, by: Option<TagName>, falling: bool) -> Ordering
    ensures { result ≡ in_order (text_key by) falling a.now b.now }
{
    if falling {
        text_in(b, by).cmp(text_in(a, by))
    } else {
        text_in(a, by).cmp(text_in(b, by))
    }
}

/// Puts songs in the order of the numbers that the texts of a tag begin with.
fn order_by_number(
    songs: &mut Vec<&SharedSong>,
    by: Option<TagName>,
    falling: bool,
) -> Result<(), AllocError>
    ensures order { OnOk result (IsStablyOrderedBy (number_key by) falling (values_now songs.old.items) (values_now songs.new.items)) }
    ensures err { OnErr result (songs.new.items ≡ songs.old.items) }
{
    songs.sort_by(|a, b| compare_numbers(a.song(), b.song(), by, falling))
}

/// Which of two songs comes first by their numbers.
fn compare_numbers(a: &Song, b: &Song, by: Option<TagName>, falling: bool) -> Ordering
    ensures { result ≡ in_order (number_key by) falling a.now b.now }
{
    if falling {
        number_in(b, by).cmp(&number_in(a, by))
    } else {
        number_in(a, by).cmp(&number_in(b, by))
    }
}

/// The number that a song's text of a tag begins with.
fn number_in(song: &Song, by: Option<TagName>) -> u32
    ensures { result ≡ leading_number_lem (text_in_lem by song.now) }
{
    leading_number(text_in(song, by))
}
