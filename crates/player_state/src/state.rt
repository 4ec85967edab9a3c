//! What one player owns, what can be played, and the clients.
ghost use Rattle.std.specs.Prelude.{◌≡◌, IfOk};

use crate::outputs::Outputs;
use crate::scan::Scan;
use command_arguments::Volume;
use idle_notes::{Channels, Pending};
use known_tags::TagSet;
use mpd_text::SharedText;
use player_core::Player;
use song_db::{Rate, SharedDb};
use song_queue::Queue;
use std::alloc::{AllocError, Global};

/// A client that is connected.
#[derive(Clone, Copy, PartialEq, Eq)]
pub struct Client {
    pub number: u32,
    /// The partition that it is in, by its number.
    pub index: u8,
    /// The tags that it is shown.
    pub tags: TagSet,
    pub pending: Pending,
}

/// What can be played, and the scans that look for it.
#[derive(Drop)]
pub struct Library {
    pub songs: SharedDb,
    /// The rate of all songs.
    pub rate: Rate,
    pub scan: Scan,
    /// When its songs last changed: the second, from the beginning of 1970 on, at which a scan ended that
    /// found others, or at which the player was opened.
    pub updated: u64,
}

/// What one player owns: one partition of the daemon.
#[derive(Drop)]
pub struct Part {
    /// Its number, by which clients and steps name it; 0 is the one that is always there.
    pub index: u8,
    pub name: SharedText,
    pub queue: Queue,
    pub player: Player,
    pub volume: Volume,
    pub outputs: Outputs,
    pub channels: Channels,
    /// How many frames were decoded of all songs. The count stops at its greatest value, 2^64-1.
    pub played: u64,
}
