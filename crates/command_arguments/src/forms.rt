//! The forms of arguments: what one word can be read as.
ghost use Rattle.std.specs.Prelude.{◌≡◌, ℕ, List, Option, Some, None, IfOk, ◌<◌, option_map};
ghost use Rattle.mpd_text.specs.Answers.Millis.{millis_of};
ghost use Rattle.mpd_text.specs.Answers.Number.{number_of};
ghost use Rattle.mpd_text.specs.Answers.Range.{range_of};
ghost use Rattle.idle_notes.specs.Names.{subsystem_of};
ghost use Rattle.known_tags.specs.KnownTags.{tag_of as known_tag_of};
ghost use Rattle.command_arguments.specs.Forms.{IsAfterSign, any_text, uri_of, switch_of, song_mode_of, volume_of, fade_of, byte_of, off_of, position_of, seeking_of, tag_of, volume_change_of, window_of};

use crate::fade::FadeSeconds;
use crate::volume::Volume;
use idle_notes::Subsystem;
use known_tags::{KnownTag, same_word};
use mpd_text::{BASE_TAG_NAMES, Millis, Range, TagName, Text, number};
use std::alloc::{AllocError, Global};

/// What one word can be read as.
pub trait Form: Sized + Drop {
    ghost read_gives: { List ℕ → Option Self };

    fn read(alloc: Global, word: &str) -> Result<Option<Self>, AllocError>
        ensures { IfOk result (λ read. read ≡ read_gives word.now) };
}

/// A number, an id, a position or an output.
impl Form for u32 {
    ghost read_gives = { number_of };

    fn read(_alloc: Global, word: &str) -> Result<Option<u32>, AllocError> {
        Ok(number(word))
    }
}

/// A number up to 255.
impl Form for u8 {
    ghost read_gives = { byte_of };

    fn read(_alloc: Global, word: &str) -> Result<Option<u8>, AllocError> {
        match number(word) {
            Some(n) if n <= 255 => Ok(Some(n as u8)),
            _ => Ok(None),
        }
    }
}

/// Any text: a name, a channel, a message or a value.
impl Form for Text {
    ghost read_gives = { any_text };

    fn read(alloc: Global, word: &str) -> Result<Option<Text>, AllocError> {
        Ok(Some(Text::new(alloc, word)?))
    }
}

/// On or off: `1` or `0`.
impl Form for bool {
    ghost read_gives = { switch_of };

    fn read(_alloc: Global, word: &str) -> Result<Option<bool>, AllocError> {
        match word {
            "1" => Ok(Some(true)),
            "0" => Ok(Some(false)),
            _ => Ok(None),
        }
    }
}

/// Whether a mode is on that may be on for one song alone: `single` and `consume`.
#[derive(Clone, Copy, Debug, PartialEq, Eq)]
pub enum SongMode {
    Off,
    On,
    /// As `On` for one song, and `Off` from then on.
    Oneshot,
}

/// `0`, `1` or `oneshot`.
impl Form for SongMode {
    ghost read_gives = { song_mode_of };

    fn read(_alloc: Global, word: &str) -> Result<Option<SongMode>, AllocError> {
        match word {
            "0" => Ok(Some(SongMode::Off)),
            "1" => Ok(Some(SongMode::On)),
            "oneshot" => Ok(Some(SongMode::Oneshot)),
            _ => Ok(None),
        }
    }
}

impl Form for Volume {
    ghost read_gives = { volume_of };

    fn read(_alloc: Global, word: &str) -> Result<Option<Volume>, AllocError> {
        Ok(volume(word))
    }
}

/// The volume of a word: 0 to 100.
fn volume(word: &str) -> Option<Volume>
    ensures { result ≡ volume_of word.now }
{
    match number(word) {
        Some(n) => Volume::new(n),
        None => None,
    }
}

/// How the volume changes.
#[derive(Drop)]
pub enum VolumeChange {
    /// It is so much louder, and as loud as can be at most.
    Up(Volume),
    /// It is so much less loud, and silent at least.
    Down(Volume),
}

/// `N`, `+N` or `-N`, where N is a volume.
impl Form for VolumeChange {
    ghost read_gives = { volume_change_of };

    fn read(_alloc: Global, word: &str) -> Result<Option<VolumeChange>, AllocError> {
        if let Some(amount) = after_sign(word, '+') {
            return Ok(volume(amount).map(VolumeChange::Up));
        }
        if let Some(amount) = after_sign(word, '-') {
            return Ok(volume(amount).map(VolumeChange::Down));
        }
        Ok(volume(word).map(VolumeChange::Up))
    }
}

/// How loudness is made alike. Songs are played as they are.
#[derive(Clone, Copy, PartialEq, Eq)]
pub enum ReplayGain {
    Off,
}

/// `off`.
impl Form for ReplayGain {
    ghost read_gives = { off_of };

    fn read(_alloc: Global, word: &str) -> Result<Option<ReplayGain>, AllocError> {
        match word {
            "off" => Ok(Some(ReplayGain::Off)),
            _ => Ok(None),
        }
    }
}

/// A tag that clients know, in any ASCII case.
impl Form for KnownTag {
    ghost read_gives = { known_tag_of };

    fn read(_alloc: Global, word: &str) -> Result<Option<KnownTag>, AllocError> {
        Ok(KnownTag::of_word(word))
    }
}

impl Form for FadeSeconds {
    ghost read_gives = { fade_of };

    fn read(_alloc: Global, word: &str) -> Result<Option<FadeSeconds>, AllocError> {
        match number(word) {
            Some(n) => Ok(FadeSeconds::new(n)),
            None => Ok(None),
        }
    }
}

impl Form for Range {
    ghost read_gives = { range_of };

    fn read(_alloc: Global, word: &str) -> Result<Option<Range>, AllocError> {
        Ok(Range::parse(word))
    }
}

impl Form for Millis {
    ghost read_gives = { millis_of };

    fn read(_alloc: Global, word: &str) -> Result<Option<Millis>, AllocError> {
        Ok(Millis::parse(word))
    }
}

impl Form for Subsystem {
    ghost read_gives = { subsystem_of };

    fn read(_alloc: Global, word: &str) -> Result<Option<Subsystem>, AllocError> {
        Ok(Subsystem::of_word(word))
    }
}

impl Form for TagName {
    ghost read_gives = { tag_of };

    fn read(_alloc: Global, word: &str) -> Result<Option<TagName>, AllocError> {
        Ok(tag(word))
    }
}

/// The tag of the base profile that a word names, in any ASCII case.
#[tactic(auto, unfolding(crate::specs::Forms::tag_of))]
fn tag(word: &str) -> Option<TagName>
    ensures { result ≡ tag_of word.now }
{
    BASE_TAG_NAMES
        .iter()
        .copied()
        .find(|name| same_word(name.text(), word))
}

/// Songs of an answer: those from a position on, up to another position without it. The start is not above the end.
#[derive(Clone, Copy, PartialEq, Eq)]
pub struct Window {
    pub start: u32,
    pub end: u32,
}

impl Form for Window {
    ghost read_gives = { window_of };

    fn read(_alloc: Global, word: &str) -> Result<Option<Window>, AllocError> {
        match Range::parse(word) {
            Some(Range::Between(start, end)) => Ok(Some(Window { start, end })),
            _ => Ok(None),
        }
    }
}

/// A name in the library. One slash at its end is dropped.
#[derive(Drop)]
pub struct Uri(pub Text);

impl Form for Uri {
    ghost read_gives = { uri_of };

    fn read(alloc: Global, word: &str) -> Result<Option<Uri>, AllocError> {
        Ok(Some(Uri(Text::new(alloc, without_slash(word))?)))
    }
}

fn without_slash(word: &str) -> &str
    ensures { uri_of word.now ≡ Some (record { 0 = result.now }) }
{
    match word.strip_suffix('/') {
        Some(front) => front,
        None => word,
    }
}

/// Where a song is put into the queue.
#[derive(Clone, Copy, PartialEq, Eq)]
pub enum Position {
    /// At this position.
    At(u32),
    /// So many positions after the one that follows the current song.
    After(u32),
    /// So many positions before the current song.
    Before(u32),
}

impl Form for Position {
    ghost read_gives = { position_of };

    fn read(_alloc: Global, word: &str) -> Result<Option<Position>, AllocError> {
        if let Some(steps) = after_sign(word, '+') {
            return Ok(number(steps).map(Position::After));
        }
        if let Some(steps) = after_sign(word, '-') {
            return Ok(number(steps).map(Position::Before));
        }
        Ok(number(word).map(Position::At))
    }
}

/// Where in the current song playing goes on.
#[derive(Clone, Copy, Debug, PartialEq, Eq)]
pub enum Seeking {
    /// At this time.
    To(Millis),
    /// So much time after the one that it has reached.
    Forward(Millis),
    /// So much time before the one that it has reached.
    Back(Millis),
}

impl Form for Seeking {
    ghost read_gives = { seeking_of };

    fn read(_alloc: Global, word: &str) -> Result<Option<Seeking>, AllocError> {
        if let Some(time) = after_sign(word, '+') {
            return Ok(Millis::parse(time).map(Seeking::Forward));
        }
        if let Some(time) = after_sign(word, '-') {
            return Ok(Millis::parse(time).map(Seeking::Back));
        }
        Ok(Millis::parse(word).map(Seeking::To))
    }
}

/// The rest of a word after a sign, if the word begins with that.
pub fn after_sign(word: &str, sign: char) -> Option<&str>
    requires { sign < 128 }
    ensures { IsAfterSign result sign word.now }
{
    word.strip_prefix(sign)
}
