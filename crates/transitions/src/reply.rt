//! What a client is told, and what becomes of it.
ghost use Rattle.std.specs.Prelude.{◌≡◌};

use idle_notes::Subsystems;
use known_tags::TagSet;
use std::marker::Model;

/// What becomes of a client after a reply.
#[derive(Clone, Copy, PartialEq, Eq)]
pub enum Next {
    /// Its next line may come.
    Goes,
    /// It waits for a notice.
    Waits,
    /// It is gone.
    Closes,
    /// It is gone, and the daemon ends.
    Kills,
}

impl Next {
    ghost use Rattle.transitions.specs.Answers.{closes};

    /// Whether its client is gone.
    pub fn closes(self) -> bool
        ensures { result ≡ closes self }
    {
        match self {
            Next::Goes | Next::Waits => false,
            Next::Closes | Next::Kills => true,
        }
    }
}

/// What an event does to the client that it comes from.
#[derive(Clone, Copy, PartialEq, Eq)]
pub enum Move {
    Stay,
    /// It waits for changes of these.
    Wait(Subsystems),
    /// It is told what changed, by the answer itself.
    Learn,
    /// It waits no more.
    Resume,
    /// It comes.
    Join,
    /// It is shown these tags from now on.
    Show(TagSet),
    /// It is in the partition of this number from now on.
    Enter(u8),
}

/// The bytes for the client that spoke, what becomes of it, and whether it was refused something.
#[derive(Drop)]
pub struct Reply {
    pub(crate) text: String,
    pub(crate) next: Next,
    pub(crate) refused: bool,
}

impl Model for Reply {
    ghost use Rattle.std.specs.String.{string_bytes};
    ghost use Rattle.transitions.specs.Answers.{Answer};

    ghost Value = { Answer };

    ghost view = { λ r. record { text = string_bytes r.text; next = r.next; refused = r.refused } };
}

impl Reply {
    pub fn text(&self) -> &str
        ensures { result.now ≡ self.now.text }
    {
        self.text.as_str()
    }

    pub fn next(&self) -> Next
        ensures { result ≡ self.now.next }
    {
        self.next
    }

    /// Whether the text is an `ACK` line.
    pub fn is_refusal(&self) -> bool
        ensures { result ≡ self.now.refused }
    {
        self.refused
    }
}
