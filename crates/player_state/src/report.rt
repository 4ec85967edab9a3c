//! What events answer to parts of the daemon that are no clients.
use player_core::{Job, Live};

/// What the frames of a have are fed with.
#[derive(Clone, Copy, PartialEq, Eq)]
pub struct Feed {
    /// The cut that they belong to.
    pub cut: u64,
    /// The volume, in percent.
    pub volume: u8,
    /// Of eight outputs those that are fed, each with how often it was moved.
    pub outputs: [Option<u64>; 8],
}

/// What an output does with its frames.
#[derive(Clone, Copy, PartialEq, Eq)]
pub struct Heard {
    /// How often the output was moved from one partition to another.
    pub moves: u64,
    pub live: Live,
}

/// What an event answers to a part of the daemon that is no client.
#[derive(Clone, Copy, PartialEq, Eq)]
pub enum Report {
    Nothing,
    /// The number of the scan that is to be made, if one is.
    ToScan(Option<u64>),
    /// Whether a scan ended by its result.
    ScanEnded(bool),
    /// What is to be decoded, if anything is.
    ToDecode(Option<Job>),
    /// How decoded frames are fed to the outputs; `None` where they are stale.
    ToFeed(Option<Feed>),
    /// What an output does with its frames.
    ToPlay(Heard),
    /// The daemon has ended: a decoder, an output or a scanner ends too.
    Ended,
}
