//! Commands by which clients send each other messages (MPD protocol reference, Client to client).
ghost use Rattle.std.specs.Prelude.{string_bytes, map};
ghost use Rattle.command_arguments.specs.Readers.{Gives};
ghost use Rattle.mpd_command.specs.Tables.{found};
ghost use Rattle.mpd_command.specs.Messages.{rows};

use command_arguments::{Misread, none, one, two};
use mpd_text::Text;
use std::alloc::Global;

/// A command by which clients send each other messages.
pub enum MessageCommand {
    /// `channels`: the channels that have a subscriber.
    Channels,
    /// `readmessages`: the messages that came for this client, which are then gone.
    ReadMessages,
    /// `sendmessage CHANNEL TEXT`: sends the subscribers of a channel, named first, a text.
    SendMessage(Text, Text),
    /// `subscribe CHANNEL`: the client reads a channel from now on.
    Subscribe(Text),
    /// `unsubscribe CHANNEL`: the client reads a channel no more.
    Unsubscribe(Text),
}

// Written out, so that a proof goes through one call where it lets one go (docs/DECISIONS.md).
impl Drop for MessageCommand {
    fn drop(self) {
        match self {
            MessageCommand::Channels
            | MessageCommand::ReadMessages
            | MessageCommand::SendMessage(_, _)
            | MessageCommand::Subscribe(_)
            | MessageCommand::Unsubscribe(_) => {}
        }
    }
}

/// The rows: what the words after each name are read as.
#[rattlefmt::skip]
#[tactic(auto, unfolding(crate::specs::Messages::rows))]
pub(crate) fn read(alloc: Global, word: &str, words: &[String]) -> Result<Option<MessageCommand>, Misread>
    ensures { Gives result (found rows word.now (map string_bytes words.now)) }
{
    Ok(Some(match word {
        "channels" => none(words, MessageCommand::Channels)?,
        "readmessages" => none(words, MessageCommand::ReadMessages)?,
        "sendmessage" => { let (channel, text) = two(alloc, words)?; MessageCommand::SendMessage(channel, text) }
        "subscribe" => MessageCommand::Subscribe(one(alloc, words)?),
        "unsubscribe" => MessageCommand::Unsubscribe(one(alloc, words)?),
        _ => return Ok(None),
    }))
}
