//! What songs have in a column of an answer (MPD protocol reference, Tags).
ghost use Rattle.std.specs.Prelude.{◌≡◌};
ghost use Rattle.song_groups.specs.Columns.{text_in as text_in_lem};

use mpd_text::{Song, TagName, text_of_tag};

/// The text that a song has in a column: that of a tag, or the empty one in a column that no song has.
pub(crate) fn text_in(song: &Song, column: Option<TagName>) -> &str
    ensures { result.now ≡ text_in_lem column song.now }
{
    match column {
        Some(name) => text_of_tag(song.tags(), name),
        None => "",
    }
}
