//! The lines that show a song (MPD protocol reference, The music database: `file`, tags, `Time`, `duration`).
ghost use Rattle.std.specs.Prelude.{◌≡◌, ◌++◌, ℕ, ◌/◌, ◌%◌, ◌^◌, OnOk, IfOk, ◌≤◌, ◌<◌};
ghost use Rattle.std.specs.Option.{option_copied};
ghost use Rattle.std.specs.String.{string_bytes};
ghost use Rattle.mpd_text.specs.Songs.Song.{SongData};
ghost use Rattle.song_db.specs.Lines.{song_lines, text_lines, length_lines, tag_lines, tag_line, first_tag as first_tag_lem, millis, duration_text, seconds_rounded};

use crate::rate::Rate;
use mpd_text::{Answer, Song, TAG_NAMES, Tag, TagName};
use std::alloc::{AllocError, Global};

/// Appends the lines of a song to an answer: its URI, its tags in the order of [`TAG_NAMES`], its length in
/// whole seconds and in seconds with three decimals. Where memory runs out, the answer may have some of them.
pub fn push_song(answer: &mut Answer, song: &Song, rate: &Rate) -> Result<(), AllocError>
    ensures { OnOk result (answer.new ≡ answer.old ++ song_lines rate.now song.now) }
{
    push_texts(answer, song)?;
    push_length(answer, song.frames(), rate)
}

/// The law that the lines of a song are those of its URI and tags, and then those of its length.
#[tactic(auto, using(std::proofs::Common::append_assoc))]
pub fn texts_and_length_are_the_song()
    ensures { (rate : ℕ) (song : SongData) → text_lines song ++ length_lines rate song.frames ≡ song_lines rate song }
{}

/// The lines of a song's URI and tags, which are the same at each rate.
pub(crate) fn texts_of(alloc: Global, song: &Song) -> Result<String, AllocError>
    ensures { IfOk result (λ text. string_bytes text ≡ text_lines song.now) }
{
    let mut answer = Answer::new(alloc);
    push_texts(&mut answer, song)?;
    // A copy has no spare room, and is kept as long as the song.
    String::from_str(alloc, answer.as_str())
}

fn push_texts(answer: &mut Answer, song: &Song) -> Result<(), AllocError>
    ensures { OnOk result (answer.new ≡ answer.old ++ text_lines song.now) }
{
    answer.pair("file", song.uri())?;
    push_tags(answer, song.tags())
}

/// Appends the lines of so many frames at a rate: in whole seconds, and in seconds with three decimals. Where
/// memory runs out, the answer may have the first.
pub fn push_length(answer: &mut Answer, frames: u64, rate: &Rate) -> Result<(), AllocError>
    ensures { OnOk result (answer.new ≡ answer.old ++ length_lines rate.now frames) }
{
    let millis = length_of(frames, rate) as u64;
    answer.pair_number("Time", (millis + 500) / 1000)?;
    answer.pair_seconds("duration", millis)
}

fn push_tags(answer: &mut Answer, tags: &[Tag]) -> Result<(), AllocError>
    ensures { OnOk result (answer.new ≡ answer.old ++ tag_lines tags.now) }
{
    for name in TAG_NAMES {
        push_tag(answer, name, tags)?;
    }
    Ok(())
}

/// Appends the line of the first tag of a name, if there is one.
pub fn push_tag(answer: &mut Answer, name: TagName, tags: &[Tag]) -> Result<(), AllocError>
    ensures { OnOk result (answer.new ≡ answer.old ++ tag_line name tags.now) }
{
    match first_tag(tags, name) {
        Some(tag) => answer.pair(name.text(), tag.text()),
        None => Ok(()),
    }
}

/// The first tag of a name, if there is one.
pub fn first_tag(tags: &[Tag], name: TagName) -> Option<&Tag>
    ensures { option_copied result ≡ first_tag_lem name tags.now }
{
    for tag in tags {
        if tag.name() == name {
            return Some(tag);
        }
    }
    None
}

/// How long so many frames are, in thousandths of a second.
#[tactic(auto, using(crate::proofs::Lengths::small_length))]
pub fn length_of(frames: u64, rate: &Rate) -> u128
    ensures value { result ≡ millis rate.now frames }
    ensures small { result < 2 ^ 62 }
{
    u128::from(frames) * 1000 / u128::from(rate.frames())
}

/// In whole seconds, a half up.
pub fn rounded(millis: u128) -> u128
    requires { millis ≤ 18446744073709551615000 }
    ensures { result ≡ seconds_rounded millis }
{
    (millis + 500) / 1000
}

/// The text of a time in thousandths of a second: in seconds with three decimals.
pub fn duration(alloc: Global, millis: u128) -> Result<String, AllocError>
    ensures { IfOk result (λ text. string_bytes text ≡ duration_text millis) }
{
    let seconds = millis / 1000;
    let hundreds = millis / 100 % 10;
    let tens = millis / 10 % 10;
    let ones = millis % 10;
    format!(in alloc; "{seconds}.{hundreds}{tens}{ones}")
}
