//! The lines that show a song and the tags of a set (MPD protocol reference, The music database; Connection
//! settings: `tagtypes`).
ghost use Rattle.std.specs.Prelude.{◌≡◌, ◌++◌, ℕ, OnOk};
ghost use Rattle.std.specs.List.{flat_map};
ghost use Rattle.mpd_text.specs.Songs.Song.{SongData};
ghost use Rattle.mpd_text.specs.Songs.Tags.{tag_names};
ghost use Rattle.song_db.specs.Lines.{song_lines};
ghost use Rattle.known_tags.specs.Lines.{tag_lines_of, song_lines_with, tagtype_lines, tag_line_where, tagtype_line_where};

use crate::tag_set::{TagSet, is_among};
use mpd_text::{Answer, Song, TAG_NAMES, Tag, TagName};
use song_db::{Rate, SharedSong, push_length, push_tag};
use std::alloc::AllocError;

/// Appends the lines of a shared song to an answer, as [`push_song_with`] does. With all tags those of its
/// texts are one copy of what was made with its first handle.
#[tactic(auto, using(std::proofs::Common::append_assoc))]
pub fn push_shared_with(
    answer: &mut Answer,
    song: &SharedSong,
    rate: &Rate,
    set: TagSet,
) -> Result<(), AllocError>
    ensures { OnOk result (answer.new ≡ answer.old ++ song_lines_with set rate.now song.now) }
{
    if !set.is_all() {
        return push_song_with(answer, song.song(), rate, set);
    }
    answer.push_lines(song.lines())?;
    push_length(answer, song.song().frames(), rate)
}

/// Appends the lines of a song to an answer: its URI, those of its tags that are in the set, in the order of
/// [`TAG_NAMES`], its length in whole seconds and in seconds with three decimals. Where memory runs out, the
/// answer may have some of them.
pub fn push_song_with(
    answer: &mut Answer,
    song: &Song,
    rate: &Rate,
    set: TagSet,
) -> Result<(), AllocError>
    ensures { OnOk result (answer.new ≡ answer.old ++ song_lines_with set rate.now song.now) }
{
    answer.pair("file", song.uri())?;
    push_tags(answer, song.tags(), set)?;
    push_length(answer, song.frames(), rate)
}

/// The law that a song is shown with all tags as [`song_db::push_song`] shows it.
pub fn all_tags_show_the_whole_song()
    ensures { (rate : ℕ) (song : SongData) → song_lines_with tag_names rate song ≡ song_lines rate song }
{}

fn push_tags(answer: &mut Answer, tags: &[Tag], set: TagSet) -> Result<(), AllocError>
    ensures { OnOk result (answer.new ≡ answer.old ++ tag_lines_of set tags.now) }
{
    push_where(answer, tags, set.bits, &TAG_NAMES)
}

/// Those of these tags whose bits are set.
fn push_where(
    answer: &mut Answer,
    tags: &[Tag],
    bits: u16,
    names: &[TagName],
) -> Result<(), AllocError>
    ensures { OnOk result (answer.new ≡ answer.old ++ flat_map (tag_line_where bits tags.now) names.now) }
{
    for name in names {
        push_tag_where(answer, tags, bits, *name)?;
    }
    Ok(())
}

fn push_tag_where(
    answer: &mut Answer,
    tags: &[Tag],
    bits: u16,
    name: TagName,
) -> Result<(), AllocError>
    ensures { OnOk result (answer.new ≡ answer.old ++ tag_line_where bits tags.now name) }
{
    if is_among(bits, name) {
        return push_tag(answer, name, tags);
    }
    Ok(())
}

/// Appends a line `tagtype: NAME` for each tag of a set, in the order of [`TAG_NAMES`]. Where memory runs
/// out, the answer may have some of them.
pub fn push_tagtypes(answer: &mut Answer, set: TagSet) -> Result<(), AllocError>
    ensures { OnOk result (answer.new ≡ answer.old ++ tagtype_lines set) }
{
    push_types_where(answer, set.bits, &TAG_NAMES)
}

fn push_types_where(answer: &mut Answer, bits: u16, names: &[TagName]) -> Result<(), AllocError>
    ensures { OnOk result (answer.new ≡ answer.old ++ flat_map (tagtype_line_where bits) names.now) }
{
    for name in names {
        push_type_where(answer, bits, *name)?;
    }
    Ok(())
}

fn push_type_where(answer: &mut Answer, bits: u16, name: TagName) -> Result<(), AllocError>
    ensures { OnOk result (answer.new ≡ answer.old ++ tagtype_line_where bits name) }
{
    if is_among(bits, name) {
        return answer.pair("tagtype", name.text());
    }
    Ok(())
}
