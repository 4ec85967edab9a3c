//! The state of a daemon.
ghost use Rattle.std.specs.Prelude.{◌≡◌, ◌<◌, ◌≤◌, IfOk};
ghost use Rattle.partition.specs.Image.{first_part, image_of_state, opening, openings_of as openings_of_lem};

use mpd_text::SharedText;
use partition_table::{Greatest, Openings, Parts, opened};
use player_state::{Client, FrameCounts, Library, Outputs, Part};
use std::alloc::{AllocError, Global};

/// The most clients that may be connected.
pub const MAX_CLIENTS: usize = 64;

/// The most events of one seat.
pub const MAX_OWN: u64 = (1 << 63) - 1;

/// The limits of a player, each at least 1.
#[derive(Clone, Copy, PartialEq, Eq)]
pub struct Limits {
    /// The most entries of the queue.
    pub max_queue: u32,
    /// The greatest version of the queue; the one after it is 1.
    pub max_version: u32,
    /// The greatest song id.
    pub max_id: u32,
    /// The greatest number of cuts, of starts, of jobs and of scans, below 2^63.
    pub max_cut: u64,
    /// The most events of the history that are kept one by one.
    pub history: u32,
}

/// What a player is opened with.
#[derive(Drop)]
pub struct Setup {
    pub limits: Limits,
    /// The seed of the generator that random orders are drawn from.
    pub random_start: u64,
    pub outputs: Outputs,
}

/// The present state.
pub(crate) struct State {
    pub(crate) parts: Parts,
    pub(crate) library: Library,
    pub(crate) made: [u64; 16],
    pub(crate) books: FrameCounts,
    /// Whether the daemon has ended.
    pub(crate) ended: bool,
    /// What a new partition is opened with.
    pub(crate) openings: Openings,
    /// By rising number.
    pub(crate) clients: Vec<Client>,
}

// Written out, so that a proof goes through one call where it lets one go (docs/DECISIONS.md).
impl Drop for State {
    fn drop(self) {
        let State {
            parts: _,
            library: _,
            made: _,
            books: _,
            ended: _,
            openings: _,
            clients: _,
        } = self;
    }
}

impl State {
    /// The state of a daemon to which nothing happened.
    pub(crate) fn opening(
        alloc: Global,
        setup: Setup,
        library: Library,
    ) -> Result<State, AllocError>
        requires max_cut { setup.limits.max_cut < 9223372036854775808 }
        requires version { 1 ≤ setup.limits.max_version }
        ensures { IfOk result (λ state. image_of_state state ≡ opening setup library) }
    {
        let openings = openings_of(&setup);
        let part = first_part_of(alloc, openings, setup)?;
        Ok(State {
            parts: Parts::open(alloc, part)?,
            library,
            made: [0; 16],
            books: FrameCounts::empty(),
            ended: false,
            openings,
            clients: Vec::new(alloc),
        })
    }
}

/// What each partition is opened with, by the settings.
fn openings_of(setup: &Setup) -> Openings
    requires max_cut { setup.now.limits.max_cut < 9223372036854775808 }
    requires version { 1 ≤ setup.now.limits.max_version }
    ensures { result ≡ openings_of_lem setup.now }
{
    let limits = setup.limits;
    let greatest = Greatest {
        max_queue: limits.max_queue,
        max_version: limits.max_version,
        max_id: limits.max_id,
        max_cut: limits.max_cut,
    };
    Openings::new(greatest, setup.random_start)
}

/// The partition that is there from the beginning, with all outputs.
fn first_part_of(alloc: Global, openings: Openings, setup: Setup) -> Result<Part, AllocError>
    requires { openings ≡ openings_of_lem setup }
    ensures { IfOk result (λ part. part ≡ first_part setup) }
{
    let name = SharedText::of(String::from_str(alloc, "default")?)?;
    Ok(opened(alloc, openings, 0, name, setup.outputs))
}
