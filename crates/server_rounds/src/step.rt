//! What a server does next.

/// What a server does next.
#[derive(Clone, Copy, PartialEq, Eq)]
pub enum Step {
    /// It sleeps until the system tells of a socket, or a thread wakes it; where there is a number, at most so many
    /// milliseconds.
    Sleep(Option<u64>),
    /// It asks the listener for a client that waits to be let in.
    LetIn,
    /// It gives the client of this slot its turn, and tells the player of one that is gone.
    Visit(usize),
    /// It asks for whom notices wait.
    Ask,
    /// It ends.
    End,
}

/// Whether a client may wait to be let in.
#[derive(Clone, Copy, PartialEq, Eq)]
pub enum ListenerState {
    /// None waits.
    Idle,
    /// One may wait.
    Ready,
    /// One waits that could not be let in, which is tried again.
    TryLater,
}

/// How far a round is.
#[derive(Clone, Copy, PartialEq, Eq)]
pub enum Phase {
    /// So many more clients may be let in, and then all turns come.
    LettingIn(u32),
    /// Turns come, of the slots from this one on.
    Turns(usize),
    /// Clients for which a notice waits come, of the slots from this one on.
    Notices(usize),
    /// A client ended the daemon.
    Over,
}
