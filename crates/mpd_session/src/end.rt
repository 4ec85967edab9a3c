//! Why a session is closed, and what its turns answer.
ghost use Rattle.std.specs.Prelude.{◌≡◌};
ghost use Rattle.mpd_session.specs.Ends.{gives_up as gives_up_lem, is_by_answer as is_by_answer_lem};

/// Why a session is closed.
#[derive(Clone, Copy, PartialEq, Eq)]
pub enum End {
    /// By an answer: the player took the client out.
    Left,
    /// By the answer to `kill`: the player took the client out, and the daemon ends.
    Killed,
    /// A line was too long.
    LongLine,
    /// A list was too large.
    LargeList,
    /// Too many bytes were not written.
    Unsent,
    /// The peer sends no more.
    NoPeer,
    /// The reader failed.
    ReadFault,
    /// The writer failed.
    WriteFault,
}

impl End {
    /// Whether the player took the client out by an answer, so that it need not be told that it is gone.
    pub fn is_by_answer(self) -> bool
        ensures { result ≡ is_by_answer_lem self }
    {
        matches!(self, End::Left | End::Killed)
    }

    /// Whether what is unsent is not written any more.
    pub fn gives_up(self) -> bool
        ensures { result ≡ gives_up_lem self }
    {
        matches!(self, End::ReadFault | End::WriteFault | End::Unsent)
    }
}

/// What a turn leaves: why its session is closed; `None` is a session that goes on.
pub type Goes = Option<End>;

/// Why a turn did not do all that it was to do.
#[derive(Clone, Copy, PartialEq, Eq)]
pub enum SessionFault {
    /// The reader failed, which closes the session.
    ReadFault,
    /// The writer failed, which closes the session.
    WriteFault,
    /// Memory ran out; what was read is kept for the next turn.
    NoMemory,
}
