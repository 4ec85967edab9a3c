//! What the end of a song leads to.

use crate::modes::Modes;

/// What the end of a song leads to.
#[derive(Clone, Copy, PartialEq, Eq)]
pub struct Ending {
    /// The modes from then on: what was on for one song is off.
    pub modes: Modes,
    /// The id of the entry that starts; where there is none, the player stops.
    pub starts: Option<u32>,
    /// The id of the current song where none starts.
    pub current: Option<u32>,
}
