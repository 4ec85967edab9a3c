//! A script's player: a partition, and the shelf in memory that it is lent at each event.
ghost use Rattle.std.specs.Prelude.{◌≡◌, ◌≤◌, ◌<◌, None, IfErr, IfOk, OnOk};
ghost use Rattle.daemon_script.specs.Kinds.{images};
ghost use Rattle.daemon_script.specs.Printing.{opened_player};
ghost use Rattle.daemon_script.specs.Pieces.{IsRefusedFor, RunsWhole, StopsWhole};
ghost use Rattle.daemon_script.specs.Script.{Enough, refusal};

use command_lists::ListForm;
use mpd_command::Request;
use partition::{ListFault, ListOutcome, Partition, PartitionFault, Setup};
use player_events::{Event, Outcome};
use player_state::Library;
use shelf::MemShelf;
use std::alloc::{AllocError, Global};
use std::marker::Model;

/// The one seat of a script's events.
const SEAT: u8 = 0;

/// A player, and its shelf. A clause sees what commands read of the player, the contents of the shelf, and
/// how many events the window of the history has and may have.
pub(crate) struct Player {
    partition: Partition,
    shelf: MemShelf,
}

// Written out, so that a proof goes through one call where it lets one go (docs/DECISIONS.md).
impl Drop for Player {
    fn drop(self) {
        let Player {
            partition: _,
            shelf: _,
        } = self;
    }
}

impl Model for Player {
    ghost use Rattle.partition.specs.Image.{Image};
    ghost use Rattle.daemon_script.specs.Kinds.{Shelved};
    ghost use Rattle.daemon_script.specs.Players.{shelved_of};

    ghost Value = { Shelved Image };

    // A map has no code of its own, so its code is named.
    ghost use Rattle.std.specs.Coded.{codes};
    ghost use Rattle.std.specs.FinMap as finite;

    ghost coded = { Prim.hlevel (codes, finite.code) };

    ghost view = { shelved_of };
}

impl Player {
    /// A player over a library, to which nothing happened, with an empty shelf.
    pub(crate) fn open(alloc: Global, setup: Setup, library: Library) -> Result<Player, AllocError>
        requires version { 1 ≤ setup.limits.max_version }
        requires max_cut { setup.limits.max_cut < 9223372036854775808 }
        requires history { 1 ≤ setup.limits.history }
        ensures { IfOk result (λ player. player ≡ opened_player setup library) }
    {
        Ok(Player {
            partition: Partition::open(alloc, setup, library)?,
            shelf: MemShelf::new(alloc),
        })
    }

    /// Whether a client is connected.
    pub(crate) fn has_client(&self, number: u32) -> bool
        ensures { result ≡ images.is_there number self.now }
    {
        self.partition.has_client(number)
    }

    /// The number of the partition of this name, if there is one.
    pub(crate) fn index_named(&self, name: &str) -> Option<u8>
        ensures { result ≡ images.index_named name.now self.now }
    {
        self.partition.index_named(name)
    }

    /// Applies an event.
    pub(crate) fn apply(&mut self, event: Event) -> Result<Outcome, PartitionFault>
        ensures told { IfOk result (λ outcome. outcome ≡ images.told self.old event) }
        ensures player { OnOk result (self.new ≡ images.after self.old event) }
        ensures left { IfErr result (λ fault. self.new ≡ images.left self.old fault) }
        ensures within { OnOk result (refusal images self.old event Enough ≡ None) }
        ensures refused { IfErr result (IsRefusedFor self.old event) }
    {
        self.partition.apply(SEAT, &mut self.shelf, event)
    }

    /// How many events the window of the history has.
    pub(crate) fn window(&self) -> usize
        ensures { result ≡ images.window self.now }
    {
        self.partition.history().len()
    }

    /// How many events there were in all.
    pub(crate) fn own(&self) -> u64
        ensures { result ≡ images.own self.now }
    {
        self.partition.own(SEAT)
    }

    /// Runs the requests of a command list, up to the first that ends the list.
    pub(crate) fn run_list(
        &mut self,
        client: u32,
        form: ListForm,
        requests: Vec<Request>,
    ) -> Result<ListOutcome, ListFault>
        ensures ok { IfOk result (λ tolds. RunsWhole self.old self.new client form requests.items tolds) }
        ensures err { IfErr result (λ stop. StopsWhole self.old self.new client form requests.items stop) }
    {
        self.partition
            .run_list(SEAT, &mut self.shelf, client, form, requests)
    }
}
