//! Commands of the outputs (MPD protocol reference, Audio output devices).
ghost use Rattle.std.specs.Prelude.{string_bytes, map};
ghost use Rattle.command_arguments.specs.Readers.{Gives};
ghost use Rattle.mpd_command.specs.Tables.{found};
ghost use Rattle.mpd_command.specs.Outputs.{rows};

use command_arguments::{Misread, none, one};
use std::alloc::Global;

/// A command of the outputs.
#[derive(Drop)]
pub enum OutputCommand {
    /// `disableoutput N`: turns an output off.
    DisableOutput(u32),
    /// `enableoutput N`: turns an output on.
    EnableOutput(u32),
    /// `outputs`: the outputs, and which of them are on.
    Outputs,
    /// `toggleoutput N`: turns an output on that is off, and off one that is on.
    ToggleOutput(u32),
}

/// The rows: what the words after each name are read as.
#[rattlefmt::skip]
#[tactic(auto, unfolding(crate::specs::Outputs::rows))]
pub(crate) fn read(alloc: Global, word: &str, words: &[String]) -> Result<Option<OutputCommand>, Misread>
    ensures { Gives result (found rows word.now (map string_bytes words.now)) }
{
    Ok(Some(match word {
        "disableoutput" => OutputCommand::DisableOutput(one(alloc, words)?),
        "enableoutput" => OutputCommand::EnableOutput(one(alloc, words)?),
        "outputs" => none(words, OutputCommand::Outputs)?,
        "toggleoutput" => OutputCommand::ToggleOutput(one(alloc, words)?),
        _ => return Ok(None),
    }))
}
