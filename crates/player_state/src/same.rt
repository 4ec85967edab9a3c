//! Whether two libraries have the same songs.
ghost use Rattle.std.specs.Prelude.{◌≡◌};
ghost use Rattle.song_queue.specs.Entries.{same_song as same_song_lem, same_tag as same_tag_lem};
ghost use Rattle.player_state.specs.Libraries.{same_songs as same_songs_lem};
ghost use lib.Pointwise.{pointwise};

use mpd_text::{Song, Tag};
use song_db::SharedSong;

/// Whether two lists have the same songs.
#[tactic(auto, unfolding(crate::specs::Libraries::same_songs))]
pub fn same_songs(first: &[SharedSong], second: &[SharedSong]) -> bool
    ensures { result ≡ same_songs_lem first.now second.now }
{
    let mut ones = first;
    let mut others = second;
    while let ([one, more_ones @ ..], [other, more_others @ ..]) = (ones, others) {
        if !same_song(one.song(), other.song()) {
            return false;
        }
        ones = more_ones;
        others = more_others;
    }
    ones.is_empty() && others.is_empty()
}

/// Whether two songs are one: the URI, the tags and the length.
fn same_song(one: &Song, other: &Song) -> bool
    ensures { result ≡ same_song_lem one.now other.now }
{
    one.uri() == other.uri()
        && same_tags(one.tags(), other.tags())
        && one.frames() == other.frames()
}

fn same_tags(first: &[Tag], second: &[Tag]) -> bool
    ensures { result ≡ pointwise same_tag_lem first.now second.now }
{
    let mut ones = first;
    let mut others = second;
    while let ([one, more_ones @ ..], [other, more_others @ ..]) = (ones, others) {
        if one.name() != other.name() || one.text() != other.text() {
            return false;
        }
        ones = more_ones;
        others = more_others;
    }
    ones.is_empty() && others.is_empty()
}
