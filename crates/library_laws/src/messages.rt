//! The law of messages. A caller that calls it may use it; it does nothing.
ghost use Rattle.library_laws.specs.Messages.{MessagesAreRead, MessagesAreReadOnce, MessagesAreSent};

/// `sendmessage` adds its message to what waits for each client that listens to the channel and has room, and
/// for nobody else; `readmessages` tells all that waits, which waits no more. So over any commands each client
/// reads each message that it received once, in the order in which they came.
pub fn messages_are_read_once()
    ensures sent { MessagesAreSent }
    ensures read { MessagesAreRead }
    ensures once { MessagesAreReadOnce }
{}
