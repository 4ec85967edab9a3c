//! What a new partition is opened with.
ghost use Rattle.std.specs.Prelude.{◌≡◌, ◌<◌, ◌≤◌};
ghost use Rattle.partition_table.specs.Parts.{opening_part};

use command_arguments::Volume;
use idle_notes::Channels;
use mpd_text::SharedText;
use player_core::Player;
use player_state::{Outputs, Part};
use song_queue::Queue;
use std::alloc::Global;
use std::marker::Model;

/// The greatest numbers of a partition.
#[derive(Clone, Copy, PartialEq, Eq)]
pub struct Greatest {
    /// The most entries of the queue.
    pub max_queue: u32,
    /// The greatest version of the queue; the one after it is 1.
    pub max_version: u32,
    /// The greatest song id.
    pub max_id: u32,
    /// The greatest number of cuts, of starts and of jobs, and how often an output may be moved.
    pub max_cut: u64,
}

/// What a new partition is opened with: versions are at least 1, and cuts below 2^63.
#[derive(Clone, Copy, PartialEq, Eq)]
pub struct Openings {
    greatest: Greatest,
    random_start: u64,
}

impl Model for Openings {
    ghost use Rattle.std.specs.Prelude.{◌<◌, ◌≤◌};
    ghost use Rattle.partition_table.specs.Openings.{OpeningsData};

    ghost Value = { OpeningsData };

    ghost view = { λ o. record { greatest = o.greatest; random_start = o.random_start } };

    ghost invariant = { λ o. (1 ≤ o.greatest.max_version) × (o.greatest.max_cut < 9223372036854775808) };

    ghost inverse = { λ openings. record { greatest = openings.greatest; random_start = openings.random_start } };

    ghost inverse_ok = { λ o below i. o };
}

impl Openings {
    /// These greatest numbers, and the seed of the generator that random orders are drawn from.
    pub fn new(greatest: Greatest, random_start: u64) -> Openings
        requires version { 1 ≤ greatest.max_version }
        requires max_cut { greatest.max_cut < 9223372036854775808 }
        ensures { result ≡ record { greatest = greatest; random_start = random_start } }
    {
        Openings {
            greatest,
            random_start,
        }
    }
}

/// A partition to which nothing happened: at full volume, with no mode on, and with a generator of its own.
pub fn opened(
    alloc: Global,
    openings: Openings,
    index: u8,
    name: SharedText,
    outputs: Outputs,
) -> Part
    ensures { result ≡ opening_part openings index name outputs }
{
    let greatest = openings.greatest;
    let queue = Queue::new(
        alloc,
        greatest.max_queue as usize,
        greatest.max_version,
        greatest.max_id,
    );
    Part {
        index,
        name,
        queue,
        player: Player::new(alloc, openings.random_start, greatest.max_cut),
        volume: Volume::full(),
        outputs,
        channels: Channels::new(alloc),
        played: 0,
    }
}
