//! The run of a daemon, whatever its threads work with.
ghost use Rattle.frame_ledger.specs.Shares.{AreEmpty, HasAllParts};
ghost use Rattle.std.specs.Prelude.{◌≤◌, vec_len};

use crate::fault::DaemonFault;
use crate::keeper::start_keeper_for;
use crate::player_handles::{PlayerHandles, shared};
use crate::resources::ThreadResources;
use crate::summary::{print_summary, tell_end};
use counted_devices::{Media, Sink};
use crew::{Crew, Scanner, close, let_go, start_decoder, start_outputs, start_scanner};
use crew_steps::{SongSource, output_setups};
use house::{CrewShares, House, Ledgers, Seat, Settlement};
use mpd_command::CommandSet;
use mpd_server::{ServeFault, Server, start_waker};
use partition::PartitionFault;
use shelf::Shelf;
use stalled_outputs::{Gates, gates_of};
use std::alloc::{AllocError, Global};
use std::sync::{Arc, Wait};
use std::thread::{self, JoinHandle, Threads};
use std::time::{Clock, Duration};

/// How a daemon plays and serves.
#[derive(Clone, Copy)]
pub(crate) struct ServingOptions {
    /// Frames a second.
    pub(crate) rate: u32,
    /// How many frames the ring of an output holds.
    pub(crate) ring: usize,
    /// Whether a client may end the daemon.
    pub(crate) commands: CommandSet,
}

/// How often the end is asked for again where there is no memory for it, and how many milliseconds after.
const TRIES: u32 = 100;

const PAUSE: u64 = 50;

/// Starts the threads, serves until a client ends the daemon, and prints what became of each output's frames.
pub(crate) fn run<
    L: Ledgers + Send + Sync + 'static,
    O: Sink + Drop + Send + 'static,
    N: SongSource<M> + Drop + Send + 'static,
    M: Media + Drop + Send + 'static,
    C: Scanner + Drop + Send + 'static,
    S: Shelf,
    R: Threads + Wait + Clock + Copy + Send + Sync + 'static,
>(
    rt: R,
    host: &HostRuntime,
    player_handles: PlayerHandles<L>,
    resources: ThreadResources<O, N, C>,
    server: Server,
    shelf: &mut S,
    options: ServingOptions,
    state: Option<String>,
) -> Result<(), DaemonFault> {
    let alloc = host.alloc();
    let PlayerHandles {
        house,
        mut seat,
        shares,
    } = player_handles;
    let ThreadResources {
        writers,
        source,
        scanner,
        patient,
    } = resources;
    let mut server = server;
    let gates = gates_of(rt, *host, &house, patient).map_err(DaemonFault::Player)?;
    let gates = shared(alloc, gates)?;
    let mut crew = start_crew::<L, O, N, M, R>(
        rt, alloc, &house, &gates, writers, source, shares, options,
    )?;
    // Without this thread the server looks for notices by itself.
    let waking = start_waker(rt, &house, &mut server).ok();
    let keeping = start_keeper_for(rt, *host, &house, &gates, state);
    let served = match start_scanner(rt, alloc, &house, &mut crew, scanner) {
        Ok(()) => server.serve(&rt, alloc, &house, &mut seat, shelf, options.commands),
        Err(_) => Err(ServeFault::NoMemory),
    };
    end(
        &rt,
        host,
        &house,
        &mut seat,
        crew,
        &gates,
        [waking, keeping],
        served,
    )
}

/// Starts the threads of the outputs and of the decoder. All that they are given is made before the first of
/// them.
fn start_crew<
    L: Ledgers + Send + Sync + 'static,
    O: Sink + Drop + Send + 'static,
    N: SongSource<M> + Drop + Send + 'static,
    M: Media + Drop + Send + 'static,
    R: Threads + Wait + Clock + Copy + Send + Sync + 'static,
>(
    rt: R,
    alloc: Global,
    house: &Arc<House<L>, Global>,
    gates: &Arc<Gates<L, R>, Global>,
    writers: Vec<O>,
    source: N,
    shares: CrewShares<L>,
    options: ServingOptions,
) -> Result<Crew<L>, AllocError>
    requires few { vec_len writers ≤ 8 }
    requires parts { HasAllParts shares.decoded.parts shares.outputs }
    requires empty { AreEmpty shares.outputs }
{
    let CrewShares { decoded, outputs } = shares;
    let rings = output_setups(alloc, options.ring, writers)?;
    let outputs = start_outputs(rt, alloc, house, gates, rings, outputs)?;
    let (rate, ring) = (options.rate, options.ring);
    start_decoder::<L, N, M, R>(rt, alloc, house, source, rate, ring, outputs, decoded)
}

/// Ends the threads, and prints what became of each output's frames.
fn end<L: Ledgers, R: Threads + Wait + Clock + Copy>(
    rt: &R,
    host: &HostRuntime,
    house: &House<L>,
    seat: &mut Seat<L>,
    crew: Crew<L>,
    gates: &Gates<L, R>,
    others: [Option<JoinHandle<()>>; 2],
    served: Result<(), ServeFault>,
) -> Result<(), DaemonFault> {
    match close_at_last(rt, house, seat, crew) {
        Ok(settled) => {
            join_all(rt, others);
            gates.finish(host);
            let printed = print_summary(host, &settled);
            tell_end(host, &settled);
            first_of(served, printed)
        }
        Err((crew, fault)) => {
            let_go(crew);
            Err(DaemonFault::Player(fault))
        }
    }
}

/// Joins threads that end with the daemon.
fn join_all<R: Threads + Wait>(rt: &R, threads: [Option<JoinHandle<()>>; 2]) {
    let [waking, keeping] = threads;
    if let Some(waking) = waking {
        waking.join(rt);
    }
    if let Some(keeping) = keeping {
        keeping.join(rt);
    }
}

/// Ends the threads. Where there is no memory for the end, it is asked for again: what others hold may be let
/// go meanwhile.
fn close_at_last<L: Ledgers, R: Threads + Wait + Clock>(
    rt: &R,
    house: &House<L>,
    seat: &mut Seat<L>,
    crew: Crew<L>,
) -> Result<Vec<Settlement<L>>, (Crew<L>, PartitionFault)> {
    let mut crew = crew;
    for _ in 0..TRIES {
        match close(rt, house, seat, crew) {
            Err((kept, PartitionFault::NoMemory | PartitionFault::HistoryFull)) => crew = kept,
            closed => return closed,
        }
        thread::sleep(rt, Duration::from_millis(PAUSE));
    }
    close(rt, house, seat, crew)
}

/// What became of the serving, and then of the summary.
fn first_of(
    served: Result<(), ServeFault>,
    printed: Result<(), DaemonFault>,
) -> Result<(), DaemonFault> {
    match served {
        Ok(()) => printed,
        Err(fault) => Err(DaemonFault::from(fault)),
    }
}
