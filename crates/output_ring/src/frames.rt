//! Frames with their cuts, and what an output does with them.
use pcm_mix::Frame;

/// The cut of a block: how often its output had been moved, and then the number of the cut, which every
/// manual start, seek and stop raises. The moves are compared first. Frames of an earlier cut are heard no
/// more.
#[derive(Clone, Copy, PartialEq, Eq, PartialOrd, Ord)]
pub struct Cut {
    pub moves: u64,
    pub number: u64,
}

/// A frame with the cut of its block, as contracts see the frames of a ring. A ring holds them in runs of one
/// cut.
#[derive(Clone, Copy, PartialEq, Eq)]
pub struct CutFrame {
    pub frame: Frame,
    pub cut: Cut,
}

/// What an output is told at its turn.
#[derive(Clone, Copy, PartialEq, Eq)]
pub struct Live {
    /// Frames of an earlier cut are discarded.
    pub cut: Cut,
    /// Frames are written; otherwise they are discarded.
    pub enabled: bool,
    /// The hand is kept.
    pub paused: bool,
    /// The hand is kept, since nothing plays any more.
    pub ended: bool,
}

/// How many frames were written and how many discarded.
#[derive(Clone, Copy, PartialEq, Eq)]
pub struct Fates {
    pub written: u64,
    pub discarded: u64,
}

/// The fates of all frames so far.
#[derive(Clone, Copy, PartialEq, Eq)]
pub struct Totals {
    pub written: u64,
    pub discarded: u64,
    /// Bytes, 0 to 3, of a discarded frame in which the writer failed.
    pub torn: u8,
}

/// The writer failed. The frame in which it did and the rest of the hand are discarded, and so is all that
/// comes later.
#[derive(Clone, Copy, PartialEq, Eq)]
pub struct WriteFault {
    pub fates: Fates,
    /// Bytes, 0 to 3, that were written of the frame in which the writer failed.
    pub torn: u8,
}
