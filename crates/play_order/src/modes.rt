//! The modes that clients set (MPD protocol reference, Playback options), and the ranks of a random order.

/// Whether the player stops after a song, or plays it again.
#[derive(Clone, Copy, Debug, PartialEq, Eq)]
pub enum Single {
    Off,
    On,
    /// After one song, and then no more.
    Oneshot,
}

/// Whether a song that ends is taken out of the queue.
#[derive(Clone, Copy, Debug, PartialEq, Eq)]
pub enum Consume {
    Off,
    On,
    /// One song, and then no more.
    Oneshot,
}

/// How the player goes through the queue.
#[derive(Clone, Copy, PartialEq, Eq)]
pub struct Modes {
    /// Whether the order begins anew at its end.
    pub repeat: bool,
    /// Whether the order is random, and not that of the queue.
    pub random: bool,
    pub single: Single,
    pub consume: Consume,
}

/// The rank that an entry drew: in a random order the lower comes first.
#[derive(Clone, Copy, PartialEq, Eq)]
pub struct Rank {
    pub id: u32,
    pub rank: u32,
}
