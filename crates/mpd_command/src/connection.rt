//! Commands of the connection (MPD protocol reference, Connection settings; Reflection; Mounts and
//! neighbors).
ghost use Rattle.std.specs.Prelude.{string_bytes, map};
ghost use Rattle.command_arguments.specs.Readers.{Gives};
ghost use Rattle.mpd_command.specs.Tables.{found};
ghost use Rattle.mpd_command.specs.Connection.{rows, rows_from_notcommands, tags_chosen, tag_choice as tag_choice_lem};

use crate::command_set::CommandSet;
use command_arguments::{Misread, none, some};
use known_tags::KnownTag;
use mpd_text::{Sequence, Text};
use std::alloc::Global;

/// A command of the connection.
pub enum ConnectionCommand {
    /// `close`: ends the connection.
    Close,
    /// `commands`: the commands that may be run, of those that there are.
    Commands(CommandSet),
    /// `decoders`: the files that can be played.
    Decoders,
    /// `kill`: ends the daemon.
    Kill,
    /// `listmounts`: what is mounted: the library.
    ListMounts,
    /// `notcommands`: the commands that may not be run, of those that there are.
    NotCommands(CommandSet),
    /// `ping`.
    Ping,
    /// `tagtypes`: the names of tags that the client is shown of songs; in the everyday profile those that it
    /// chose, else the six of the base profile.
    TagTypes(bool),
    /// `tagtypes all`: the client is shown all tags.
    AllTags,
    /// `tagtypes clear`: the client is shown no tags.
    NoTags,
    /// `tagtypes disable TAG...`: the client is not shown these tags.
    WithoutTags(Sequence<KnownTag>),
    /// `tagtypes enable TAG...`: the client is shown these tags as well.
    WithTags(Sequence<KnownTag>),
    /// `urlhandlers`: the kinds of URL that can be played: none.
    UrlHandlers,
}

// Written out, so that a proof goes through one call where it lets one go (docs/DECISIONS.md).
impl Drop for ConnectionCommand {
    fn drop(self) {
        match self {
            ConnectionCommand::Close
            | ConnectionCommand::Commands(_)
            | ConnectionCommand::Decoders
            | ConnectionCommand::Kill
            | ConnectionCommand::ListMounts
            | ConnectionCommand::NotCommands(_)
            | ConnectionCommand::Ping
            | ConnectionCommand::TagTypes(_)
            | ConnectionCommand::AllTags
            | ConnectionCommand::NoTags
            | ConnectionCommand::WithoutTags(_)
            | ConnectionCommand::WithTags(_)
            | ConnectionCommand::UrlHandlers => {}
        }
    }
}

/// The rows: what the words after each name are read as. `commands` and `notcommands` show which commands
/// there are.
#[rattlefmt::skip]
#[tactic(auto, unfolding(crate::specs::Connection::rows))]
pub(crate) fn read(alloc: Global, set: CommandSet, word: &str, words: &[String]) -> Result<Option<ConnectionCommand>, Misread>
    ensures { Gives result (found (rows set) word.now (map string_bytes words.now)) }
{
    Ok(Some(match word {
        "close" => none(words, ConnectionCommand::Close)?,
        "commands" => none(words, ConnectionCommand::Commands(set))?,
        "decoders" => none(words, ConnectionCommand::Decoders)?,
        "kill" => none(words, ConnectionCommand::Kill)?,
        "listmounts" => none(words, ConnectionCommand::ListMounts)?,
        _ => return read_from_notcommands(alloc, set, word, words),
    }))
}

/// The same of the rows from `notcommands` on.
#[rattlefmt::skip]
#[tactic(auto, unfolding(crate::specs::Connection::rows_from_notcommands))]
fn read_from_notcommands(alloc: Global, set: CommandSet, word: &str, words: &[String]) -> Result<Option<ConnectionCommand>, Misread>
    ensures { Gives result (found (rows_from_notcommands set) word.now (map string_bytes words.now)) }
{
    Ok(Some(match word {
        "notcommands" => none(words, ConnectionCommand::NotCommands(set))?,
        "ping" => none(words, ConnectionCommand::Ping)?,
        "tagtypes" => choose_tags(alloc, set.everyday, words)?,
        "urlhandlers" => none(words, ConnectionCommand::UrlHandlers)?,
        _ => return Ok(None),
    }))
}

/// `tagtypes`, and in the everyday profile what is done to the client's tags.
fn choose_tags(
    alloc: Global,
    everyday: bool,
    words: &[String],
) -> Result<ConnectionCommand, Misread>
    ensures { Gives result (tags_chosen everyday (map string_bytes words.now)) }
{
    match words {
        [choice, names @ ..] if everyday => tag_choice(alloc, choice.as_str(), names),
        _ => none(words, ConnectionCommand::TagTypes(everyday)),
    }
}

/// What is done to the client's tags, and to which of them.
fn tag_choice(alloc: Global, choice: &str, names: &[String]) -> Result<ConnectionCommand, Misread>
    ensures { Gives result (tag_choice_lem choice.now (map string_bytes names.now)) }
{
    match choice {
        "all" => none(names, ConnectionCommand::AllTags),
        "clear" => none(names, ConnectionCommand::NoTags),
        "disable" => Ok(ConnectionCommand::WithoutTags(some(alloc, names)?)),
        "enable" => Ok(ConnectionCommand::WithTags(some(alloc, names)?)),
        _ => Err(Misread::Bad(Text::new(alloc, choice)?)),
    }
}
