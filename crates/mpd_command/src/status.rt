//! Commands that ask for the player's state and wait for its changes (MPD protocol reference, Querying MPD's
//! status).
ghost use Rattle.std.specs.Prelude.{◌≡◌, string_bytes, map};
ghost use Rattle.command_arguments.specs.Readers.{Gives};
ghost use Rattle.mpd_command.specs.Tables.{found};
ghost use Rattle.mpd_command.specs.Status.{changing as changing_lem, rows, waited_for as waited_for_lem, watched_of};

use crate::command_set::CommandSet;
use command_arguments::{Form, Misread, none, some, subsystems};
use idle_notes::{Subsystem, Subsystems};
use std::alloc::{AllocError, Global};

/// A command that asks for the player's state, or waits for its changes.
#[derive(Drop)]
pub enum StatusCommand {
    /// `clearerror`: clears the error text.
    ClearError,
    /// `currentsong`: the current song.
    CurrentSong,
    /// `idle [SUBSYSTEM...]`: waits until one of these changes; in the everyday profile those may be named as
    /// well that never do.
    Idle(Subsystems),
    /// `noidle`: waits no more.
    NoIdle,
    /// `stats`: how much there is to play, and how long was played; in the daemon first how many seconds it
    /// has been running.
    Stats(Option<u32>),
    /// `status`: the state; in the everyday profile the time is in whole seconds too.
    Status(bool),
}

/// The rows: what the words after each name are read as.
#[rattlefmt::skip]
#[tactic(auto, unfolding(crate::specs::Status::rows))]
pub(crate) fn read(alloc: Global, set: CommandSet, word: &str, words: &[String]) -> Result<Option<StatusCommand>, Misread>
    ensures { Gives result (found (rows set) word.now (map string_bytes words.now)) }
{
    Ok(Some(match word {
        "clearerror" => none(words, StatusCommand::ClearError)?,
        "currentsong" => none(words, StatusCommand::CurrentSong)?,
        "idle" => StatusCommand::Idle(waited_for(alloc, set.everyday, words)?),
        "noidle" => none(words, StatusCommand::NoIdle)?,
        "stats" => none(words, StatusCommand::Stats(set.uptime))?,
        "status" => none(words, StatusCommand::Status(set.everyday))?,
        _ => return Ok(None),
    }))
}

/// What `idle` may name in the everyday profile.
#[derive(Drop)]
enum Watched {
    /// What changes.
    Changing(Subsystem),
    /// Mounts and neighbors, of which there are none.
    Unchanging,
}

impl Form for Watched {
    ghost read_gives = { watched_of };

    fn read(_alloc: Global, word: &str) -> Result<Option<Watched>, AllocError> {
        match word {
            "mount" | "neighbor" => Ok(Some(Watched::Unchanging)),
            _ => Ok(Subsystem::of_word(word).map(Watched::Changing)),
        }
    }
}

/// What `idle` waits for: all subsystems where none is named.
fn waited_for(alloc: Global, everyday: bool, words: &[String]) -> Result<Subsystems, Misread>
    ensures { Gives result (waited_for_lem everyday (map string_bytes words.now)) }
{
    if !everyday || words.is_empty() {
        return subsystems(alloc, words);
    }
    let watched = some(alloc, words)?;
    Ok(changing(watched.items()))
}

/// Those of them that change.
fn changing(watched: &[Watched]) -> Subsystems
    ensures { result ≡ changing_lem watched.now }
{
    let mut set = Subsystems::none();
    for each in watched {
        if let Watched::Changing(subsystem) = each {
            set = set.with(*subsystem);
        }
    }
    set
}
