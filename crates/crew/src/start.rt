//! The start of the decoder.
ghost use Rattle.std.specs.Prelude.{◌≡◌, ◌≤◌, IfOk, [], map, vec_len, vec_capacity};
ghost use Rattle.std.specs.List.{range_with_len};
ghost use Rattle.frame_ledger.specs.Shares.{HasPartsBut};
ghost use Rattle.crew_steps.specs.Decoding.{RunsDecoder};
ghost use Rattle.crew_steps.specs.Each.{Each};
ghost use Rattle.crew.specs.Promises.{HandsBackAll};
ghost use Rattle.crew.specs.Rows.{first_of_run, output_of_run};
ghost use Rattle.output_ring.specs.Rings.{EndsFeeder};

use crate::output::OutputRun;
use crate::output_runs::OutputRuns;
use counted_devices::Media;
use crew_steps::{Decoder, DecoderEnd, SongSource};
use frame_ledger::OutputShares;
use house::{Decoded, Discarded, EndedRing, House, Ledgers, Settlement, Written};
use output_ring::{Feeder, FeederEnd};
use std::alloc::{AllocError, Global};
use std::snapshot::Snapshot;
use std::sync::ledger::Share;
use std::sync::{Arc, Wait};
use std::thread;
use std::thread::{JoinHandle, Promise, PromisedHandle, Threads};
use std::time::Clock;

/// Each end is of the ring of the feeder at its index, and the rings took what a decoder of songs of this
/// rate handed out until it was told of the end.
#[derive(Drop)]
pub struct OfFeeders {
    pub rate: u32,
    pub feeders: Snapshot<Vec<Feeder>>,
}

impl<L: Ledgers> Promise<DecoderEnd<L>> for OfFeeders {
    ghost kept_by = { λ p r. HandsBackAll p.rate p.feeders.value.items r.ends.items };
}

/// The decoder and the outputs that run. The feeder at each index is of the ring of the output there. The
/// crew has all shares: those that its threads will hand back, and the rest.
#[derive(Drop)]
pub struct Crew<L: Ledgers> {
    pub(crate) decoder: PromisedHandle<DecoderEnd<L>, OfFeeders>,
    pub(crate) outputs: Vec<OutputRun<L>>,
    pub(crate) scanner: Option<JoinHandle<()>>,
    pub(crate) shares: OutputShares<Written<L>, Discarded<L>>,
    /// Room for the rings that have ended, and for what they are settled with, so that nothing can fail after
    /// the end.
    pub(crate) ended: Vec<EndedRing>,
    pub(crate) results: Vec<Settlement<L>>,
    ghost numbers: { map output_of_run outputs.items ≡ range_with_len 0 (vec_len outputs) },
    ghost rings: { map first_of_run outputs.items ≡ decoder.promise.feeders.value.items },
    ghost few: { vec_len outputs ≤ 8 },
    ghost parts: { HasPartsBut (vec_len outputs) shares },
    ghost ended_room: { (ended.items ≡ []) × (vec_len outputs ≤ vec_capacity ended) },
    ghost room: { (results.items ≡ []) × (vec_len outputs ≤ vec_capacity results) },
}

/// What a decoder's thread takes with it.
#[derive(Drop)]
struct DecoderArguments<L: Ledgers, S> {
    alloc: Global,
    source: S,
    rate: u32,
    /// How many frames the ring of an output holds.
    ring: usize,
    share: Share<Decoded<L>>,
    /// Room for the ends of the feeders.
    room: Vec<FeederEnd>,
    ghost part: { share.parts ≡ 1 },
}

/// Decodes until it is told of the end, and finishes the feeders. There is room for their ends.
fn decode<L: Ledgers, S: SongSource<M> + Drop, M: Media + Drop, R: Wait + Clock + Copy>(
    rt: R,
    house: Arc<House<L>, Global>,
    arguments: DecoderArguments<L, S>,
    feeders: Vec<Feeder>,
) -> DecoderEnd<L>
    requires { (arguments.room.items ≡ []) × (vec_len feeders ≤ vec_capacity arguments.room) }
    ensures rings { Each EndsFeeder feeders.items result.ends.items }
    ensures decodes { RunsDecoder arguments.rate feeders.items result.ends.items }
{
    let DecoderArguments {
        alloc,
        source,
        rate,
        ring,
        share,
        room,
    } = arguments;
    let decoder: Decoder<L, S, M, R> = Decoder::new(&rt, alloc, &*house, source, rate, ring, share);
    decoder.run(feeders, room)
}

/// Starts the thread of a decoder. There is room for the ends of the feeders.
fn start_thread<
    L: Ledgers + Send + Sync + 'static,
    S: SongSource<M> + Drop + Send + 'static,
    M: Media + Drop + Send + 'static,
    R: Threads + Wait + Clock + Copy + Send + 'static,
>(
    rt: R,
    house: Arc<House<L>, Global>,
    arguments: DecoderArguments<L, S>,
    feeders: Vec<Feeder>,
) -> Result<PromisedHandle<DecoderEnd<L>, OfFeeders>, AllocError>
    requires { (arguments.room.items ≡ []) × (vec_len feeders ≤ vec_capacity arguments.room) }
    ensures rate { IfOk result (λ handle. handle.promise.rate ≡ arguments.rate) }
    ensures feeders { IfOk result (λ handle. handle.promise.feeders.value ≡ feeders) }
{
    let of_feeders = OfFeeders {
        rate: arguments.rate,
        feeders: Snapshot::of(&feeders),
    };
    let handle = thread::spawn_with(
        &rt,
        of_feeders,
        move || -> DecoderEnd<L>
            requires { (arguments.room.items ≡ []) × (vec_len feeders ≤ vec_capacity arguments.room) }
            ensures { HandsBackAll arguments.rate feeders.items result.ends.items }
        { decode::<L, S, M, R>(rt, house, arguments, feeders) },
    )?;
    Ok(handle)
}

/// Room for what the threads leave.
#[derive(Drop)]
struct Rooms<L: Ledgers> {
    ended: Vec<EndedRing>,
    results: Vec<Settlement<L>>,
    ends: Vec<FeederEnd>,
}

/// Room for so many outputs, and for the ends of so many feeders.
fn make_rooms<L: Ledgers>(
    alloc: Global,
    outputs: usize,
    feeders: usize,
) -> Result<Rooms<L>, AllocError>
    ensures ended { IfOk result (λ r. (r.ended.items ≡ []) × (outputs ≤ vec_capacity r.ended)) }
    ensures results { IfOk result (λ r. (r.results.items ≡ []) × (outputs ≤ vec_capacity r.results)) }
    ensures ends { IfOk result (λ r. (r.ends.items ≡ []) × (feeders ≤ vec_capacity r.ends)) }
{
    let mut ended = Vec::new(alloc);
    ended.reserve(outputs)?;
    let mut results = Vec::new(alloc);
    results.reserve(outputs)?;
    let mut ends = Vec::new(alloc);
    ends.reserve(feeders)?;
    Ok(Rooms {
        ended,
        results,
        ends,
    })
}

/// Starts the decoder, which reads songs of this rate from a source and feeds these outputs, whose rings hold
/// so many frames each.
///
/// # Errors
///
/// Where there is no memory or no thread, the outputs go on until the end, and what they and the decoder hold
/// is lost.
pub fn start_decoder<
    L: Ledgers + Send + Sync + 'static,
    S: SongSource<M> + Drop + Send + 'static,
    M: Media + Drop + Send + 'static,
    R: Threads + Wait + Clock + Copy + Send + 'static,
>(
    rt: R,
    alloc: Global,
    house: &Arc<House<L>, Global>,
    source: S,
    rate: u32,
    ring: usize,
    outputs: OutputRuns<L>,
    share: Share<Decoded<L>>,
) -> Result<Crew<L>, AllocError>
    requires part { share.parts ≡ 1 }
    requires few { vec_len outputs.runs ≤ 8 }
    ensures outputs { IfOk result (λ crew. crew.outputs ≡ outputs.runs) }
    ensures rate { IfOk result (λ crew. crew.decoder.promise.rate ≡ rate) }
{
    let OutputRuns {
        runs,
        feeders,
        shares,
    } = outputs;
    let Rooms {
        ended,
        results,
        ends: room,
    } = make_rooms(alloc, runs.len(), feeders.len())?;
    let house = Arc::try_clone(house)?;
    let arguments = DecoderArguments {
        alloc,
        source,
        rate,
        ring,
        share,
        room,
    };
    let decoder = start_thread::<L, S, M, R>(rt, house, arguments, feeders)?;
    Ok(Crew {
        decoder,
        outputs: runs,
        scanner: None,
        shares,
        ended,
        results,
    })
}
