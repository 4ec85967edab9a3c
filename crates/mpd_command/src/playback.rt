//! Commands that play, stop and seek (MPD protocol reference, Controlling playback).
ghost use Rattle.std.specs.Prelude.{string_bytes, map};
ghost use Rattle.command_arguments.specs.Readers.{Gives};
ghost use Rattle.mpd_command.specs.Tables.{found};
ghost use Rattle.mpd_command.specs.Playback.{number as number_lem, rows, rows_from_seek};

use crate::command_set::CommandSet;
use command_arguments::{Misread, Seeking, none, number_or_none, one, perhaps, two};
use mpd_text::Millis;
use std::alloc::Global;

/// A command that plays, stops or seeks.
#[derive(Drop)]
pub enum PlaybackCommand {
    /// `next`: plays the song that comes next.
    Next,
    /// `pause [0|1]`: pauses, or plays on; with no argument whichever it does not do now.
    Pause(Option<bool>),
    /// `play [POS]`: plays the song at a position, or the current one.
    Play(Option<u32>),
    /// `playid [ID]`: plays the song with an id, or the current one.
    PlayId(Option<u32>),
    /// `previous`: plays the song that came before.
    Previous,
    /// `seek POS TIME`: plays the song at a position from a time on.
    Seek(u32, Millis),
    /// `seekcur [+|-]TIME`: plays the current song from a time on.
    SeekCur(Seeking),
    /// `seekid ID TIME`: plays the song with an id from a time on.
    SeekId(u32, Millis),
    /// `stop`: stops playing.
    Stop,
}

/// The rows: what the words after each name are read as.
#[rattlefmt::skip]
#[tactic(auto, unfolding(crate::specs::Playback::rows))]
pub(crate) fn read(alloc: Global, set: CommandSet, word: &str, words: &[String]) -> Result<Option<PlaybackCommand>, Misread>
    ensures { Gives result (found (rows set) word.now (map string_bytes words.now)) }
{
    Ok(Some(match word {
        "next" => none(words, PlaybackCommand::Next)?,
        "pause" => PlaybackCommand::Pause(perhaps(alloc, words)?),
        "play" => PlaybackCommand::Play(number(alloc, set.everyday, words)?),
        "playid" => PlaybackCommand::PlayId(number(alloc, set.everyday, words)?),
        "previous" => none(words, PlaybackCommand::Previous)?,
        _ => return read_from_seek(alloc, word, words),
    }))
}

/// The same of the rows from `seek` on.
#[rattlefmt::skip]
#[tactic(auto, unfolding(crate::specs::Playback::rows_from_seek))]
fn read_from_seek(alloc: Global, word: &str, words: &[String]) -> Result<Option<PlaybackCommand>, Misread>
    ensures { Gives result (found rows_from_seek word.now (map string_bytes words.now)) }
{
    Ok(Some(match word {
        "seek" => { let (position, time) = two(alloc, words)?; PlaybackCommand::Seek(position, time) }
        "seekcur" => PlaybackCommand::SeekCur(one(alloc, words)?),
        "seekid" => { let (id, time) = two(alloc, words)?; PlaybackCommand::SeekId(id, time) }
        "stop" => none(words, PlaybackCommand::Stop)?,
        _ => return Ok(None),
    }))
}

/// A number or none; in the everyday profile `-1` is none.
fn number(alloc: Global, everyday: bool, words: &[String]) -> Result<Option<u32>, Misread>
    ensures { Gives result (number_lem everyday (map string_bytes words.now)) }
{
    if everyday {
        number_or_none(alloc, words)
    } else {
        perhaps(alloc, words)
    }
}
