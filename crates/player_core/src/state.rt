//! What a player keeps.

/// Whether songs are played (MPD protocol reference, `status`).
#[derive(Clone, Copy, PartialEq, Eq)]
pub enum Playback {
    Stop,
    Play,
    Pause,
}

/// A fade that is fixed: another song is mixed into the last frames of the current one.
#[derive(Clone, Copy, PartialEq, Eq)]
pub struct Fade {
    /// The id of the other song.
    pub partner: u32,
    /// How many frames are mixed.
    pub len: u64,
}

/// The part of a fade that a job has.
#[derive(Clone, Copy, PartialEq, Eq)]
pub struct FadePart {
    /// The id of the other song.
    pub partner: u32,
    /// Which frame of the fade the job's first one is, from 0.
    pub index: u64,
    /// How many frames the whole fade has.
    pub len: u64,
}

/// Frames that the decoder is asked for.
#[derive(Clone, Copy, PartialEq, Eq)]
pub struct Job {
    /// From 1, and one more for each job.
    pub number: u64,
    /// The id of the song.
    pub id: u32,
    /// The first frame of the song that is asked for, from 0.
    pub from: u64,
    /// How many frames are asked for, at most 1,024.
    pub count: u64,
    pub fade: Option<FadePart>,
}

/// What an output is told at its turn.
#[derive(Clone, Copy, PartialEq, Eq)]
pub struct Live {
    /// Frames of blocks of this cut and later ones are to be heard.
    pub cut: u64,
    pub enabled: bool,
    /// Whether the output keeps its frames for later.
    pub paused: bool,
}
