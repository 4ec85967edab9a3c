//! All commands, by their groups.
ghost use Rattle.std.specs.Prelude.{string_bytes, map};
ghost use Rattle.command_arguments.specs.Readers.{Gives};
ghost use Rattle.mpd_command.specs.Commands.{command_of, from_options, from_stickers};

use crate::command_set::CommandSet;
use crate::connection::{self, ConnectionCommand};
use crate::database::{self, DatabaseCommand};
use crate::messages::{self, MessageCommand};
use crate::options::{self, OptionCommand};
use crate::outputs::{self, OutputCommand};
use crate::partitions::{self, PartitionCommand};
use crate::playback::{self, PlaybackCommand};
use crate::playlists::{self, PlaylistCommand};
use crate::queue::{self, QueueCommand};
use crate::status::{self, StatusCommand};
use crate::sticker::{self, StickerCommand};
use command_arguments::Misread;
use std::alloc::Global;

/// A command with its arguments, in the groups of the MPD protocol's Command reference.
pub enum Command {
    Status(StatusCommand),
    Options(OptionCommand),
    Playback(PlaybackCommand),
    Queue(QueueCommand),
    Playlists(PlaylistCommand),
    Database(DatabaseCommand),
    Stickers(StickerCommand),
    Connection(ConnectionCommand),
    Outputs(OutputCommand),
    Messages(MessageCommand),
    Partitions(PartitionCommand),
}

// Written out, so that a proof goes through one call where it lets one go (docs/DECISIONS.md).
impl Drop for Command {
    fn drop(self) {
        match self {
            Command::Status(_)
            | Command::Options(_)
            | Command::Playback(_)
            | Command::Queue(_)
            | Command::Playlists(_)
            | Command::Database(_)
            | Command::Stickers(_)
            | Command::Connection(_)
            | Command::Outputs(_)
            | Command::Messages(_)
            | Command::Partitions(_) => {}
        }
    }
}

/// The command of a name and the words after it; none where no group has the name. Which commands there are
/// says which forms some have, and is what `commands` and `notcommands` show. What clients send most comes
/// first.
pub(crate) fn read(
    alloc: Global,
    set: CommandSet,
    word: &str,
    words: &[String],
) -> Result<Option<Command>, Misread>
    ensures { Gives result (command_of set word.now (map string_bytes words.now)) }
{
    if let Some(command) = connection::read(alloc, set, word, words)? {
        return Ok(Some(Command::Connection(command)));
    }
    if let Some(command) = status::read(alloc, set, word, words)? {
        return Ok(Some(Command::Status(command)));
    }
    if let Some(command) = playback::read(alloc, set, word, words)? {
        return Ok(Some(Command::Playback(command)));
    }
    if let Some(command) = queue::read(alloc, set, word, words)? {
        return Ok(Some(Command::Queue(command)));
    }
    read_from_options(alloc, set, word, words)
}

/// The same in the groups from the options on.
fn read_from_options(
    alloc: Global,
    set: CommandSet,
    word: &str,
    words: &[String],
) -> Result<Option<Command>, Misread>
    ensures { Gives result (from_options set word.now (map string_bytes words.now)) }
{
    if let Some(command) = options::read(alloc, word, words)? {
        return Ok(Some(Command::Options(command)));
    }
    if let Some(command) = database::read(alloc, set, word, words)? {
        return Ok(Some(Command::Database(command)));
    }
    if let Some(command) = playlists::read(alloc, set, word, words)? {
        return Ok(Some(Command::Playlists(command)));
    }
    read_from_stickers(alloc, word, words)
}

/// The same in the groups from the stickers on.
fn read_from_stickers(
    alloc: Global,
    word: &str,
    words: &[String],
) -> Result<Option<Command>, Misread>
    ensures { Gives result (from_stickers word.now (map string_bytes words.now)) }
{
    if let Some(command) = sticker::read(alloc, word, words)? {
        return Ok(Some(Command::Stickers(command)));
    }
    if let Some(command) = outputs::read(alloc, word, words)? {
        return Ok(Some(Command::Outputs(command)));
    }
    if let Some(command) = messages::read(alloc, word, words)? {
        return Ok(Some(Command::Messages(command)));
    }
    match partitions::read(alloc, word, words)? {
        Some(command) => Ok(Some(Command::Partitions(command))),
        None => Ok(None),
    }
}
