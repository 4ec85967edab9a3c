//! Commands that set how songs are played, and the volume (MPD protocol reference, Playback options).
ghost use Rattle.std.specs.Prelude.{string_bytes, map};
ghost use Rattle.command_arguments.specs.Readers.{Gives};
ghost use Rattle.mpd_command.specs.Tables.{found};
ghost use Rattle.mpd_command.specs.Options.{rows, rows_from_replay_gain_mode};

use command_arguments::{
    FadeSeconds, Misread, ReplayGain, SongMode, Volume, VolumeChange, none, one,
};
use std::alloc::Global;

/// A command that sets how songs are played, or the volume.
#[derive(Drop)]
pub enum OptionCommand {
    /// `consume 0|1|oneshot`: whether a song leaves the queue once it was played.
    Consume(SongMode),
    /// `crossfade SECONDS`: how long one song fades into the next.
    Crossfade(FadeSeconds),
    /// `getvol`.
    GetVol,
    /// `volume [+|-]N`: makes the volume so much more or less.
    ChangeVolume(VolumeChange),
    /// `random 0|1`: whether songs play in a random order.
    Random(bool),
    /// `repeat 0|1`: whether the queue begins anew at its end.
    Repeat(bool),
    /// `replay_gain_mode off`: songs are played as loud as they are.
    SetReplayGain(ReplayGain),
    /// `replay_gain_status`: how loudness is made alike: not at all.
    ReplayGainStatus,
    /// `setvol VOLUME`.
    SetVol(Volume),
    /// `single 0|1|oneshot`: whether playing ends after the current song.
    Single(SongMode),
}

/// The rows: what the words after each name are read as.
#[rattlefmt::skip]
#[tactic(auto, unfolding(crate::specs::Options::rows))]
pub(crate) fn read(alloc: Global, word: &str, words: &[String]) -> Result<Option<OptionCommand>, Misread>
    ensures { Gives result (found rows word.now (map string_bytes words.now)) }
{
    Ok(Some(match word {
        "consume" => OptionCommand::Consume(one(alloc, words)?),
        "crossfade" => OptionCommand::Crossfade(one(alloc, words)?),
        "getvol" => none(words, OptionCommand::GetVol)?,
        "random" => OptionCommand::Random(one(alloc, words)?),
        "repeat" => OptionCommand::Repeat(one(alloc, words)?),
        _ => return read_from_replay_gain_mode(alloc, word, words),
    }))
}

/// The same of the rows from `replay_gain_mode` on.
#[rattlefmt::skip]
#[tactic(auto, unfolding(crate::specs::Options::rows_from_replay_gain_mode))]
fn read_from_replay_gain_mode(alloc: Global, word: &str, words: &[String]) -> Result<Option<OptionCommand>, Misread>
    ensures { Gives result (found rows_from_replay_gain_mode word.now (map string_bytes words.now)) }
{
    Ok(Some(match word {
        "replay_gain_mode" => OptionCommand::SetReplayGain(one(alloc, words)?),
        "replay_gain_status" => none(words, OptionCommand::ReplayGainStatus)?,
        "setvol" => OptionCommand::SetVol(one(alloc, words)?),
        "single" => OptionCommand::Single(one(alloc, words)?),
        "volume" => OptionCommand::ChangeVolume(one(alloc, words)?),
        _ => return Ok(None),
    }))
}
