//! The thread that decodes.
ghost use Rattle.std.specs.Prelude.{◌≡◌, ◌*◌, IfErr, nat_le};
ghost use Rattle.std.specs.Duration.{as_nanos};
ghost use Rattle.crew_steps.specs.Feeding.{HandsOutRead, feed_told};
ghost use Rattle.crew_steps.specs.Rests.{blocks_in_half, idle_seconds, rest_for};
ghost use Rattle.crew_steps.specs.Songs.{IsFaultOf, found_song};

use crate::feeders::{are_among, finish_all, owing, push_all, take_all};
use crate::mixing::mix_block;
use crate::rounds::{count_of, next_index};
use crate::song_source::SongSource;
use crate::songs::{JobFrames, NoFrames, Songs};
use crate::waiting::pause;
use counted_devices::Media;
use house::{Decoded, House, Ledgers, News, Reported, Seat};
use output_ring::{Feeder, FeederEnd};
use partition::PartitionFault;
use player_core::{FadePart, Job};
use player_state::{Feed, Report};
use song_db::SharedSong;
use std::alloc::{AllocError, Global};
use std::sync::Wait;
use std::sync::ledger::Share;
use std::thread;
use std::time::{Clock, Duration};

/// How many milliseconds a decoder waits after a fault before it tries the same again.
const PAUSE: u64 = 50;

/// How often it looks at full rings before it rests, where it decoded several blocks without a rest.
const SPINS: u32 = 200;

/// How many microseconds it rests after more blocks than a rest is for: frames are taken fast.
const SHORT_REST: u64 = 100;

/// Up to how many microseconds a rest is slept. A longer one ends where something changes.
const LONGEST_SLEEP: u64 = 5_000;

/// The most blocks that a rest is for, and the most microseconds that it takes while a song is played.
const MOST_BLOCKS: u64 = 4;

const LONGEST_REST: u64 = 100_000;

/// How often it polls rings into which no frame goes, before it polls them each second.
const MOST_POLLS: u32 = 16;

/// After how many jobs, given one after the other, it asks again which partitions there are.
const JOBS_IN_A_ROW: u8 = 16;

/// How many milliseconds it rests at most where nothing is played: while frames wait for room in a ring,
/// since nothing tells of the room, and while none do.
const OWING_REST: u64 = 1_000;

const IDLE_REST: u64 = 3_600_000;

/// A decoder that runs: it hands the frames of the house's jobs to the feeders of the outputs. The partitions
/// are asked for jobs in turn, so that each has its own however many there are.
#[derive(Drop)]
pub struct Decoder<'h, L: Ledgers, S: SongSource<M> + Drop, M: Media + Drop, R: Wait + Clock> {
    rt: &'h R,
    alloc: Global,
    house: &'h House<L>,
    seat: Seat<L>,
    share: Share<Decoded<L>>,
    songs: Songs<S, M>,
    /// Of sixteen numbers those of a partition, as the house last answered.
    present_partitions: [bool; 16],
    /// How many jobs were given since then, one after the other.
    given: u8,
    /// The number of the partition that was last asked for a job.
    index: u8,
    /// How many were asked one after the other that have none.
    idle: usize,
    /// How often the house had changed when the first of them was asked.
    seen: u64,
    /// How many blocks a rest is for while a song is played: those of half a ring, at least one.
    blocks: u64,
    /// How many microseconds it rests at most while a song is played: the time that these blocks last.
    look: u64,
    /// How many microseconds it rests now.
    wait: u64,
    /// How many blocks it decoded since its last rest.
    since_rest: u64,
    /// How often it rested to poll the rings since a frame went into one.
    polls_without_progress: u32,
    /// Of the first eight rings those that had no room, however often it looked.
    stalled: [bool; 8],
    ghost part: { share.parts ≡ 1 },
    ghost own: { seat.number ≡ 4 },
}

/// What a decoder's thread hands back.
#[derive(Drop)]
pub struct DecoderEnd<L: Ledgers> {
    pub ends: Vec<FeederEnd>,
    pub share: Share<Decoded<L>>,
    ghost part: { share.parts ≡ 1 },
}

/// What comes of asking a partition for a job.
enum Next {
    /// It told of the end.
    Ends(Reported),
    /// The asking was refused.
    Refused(PartitionFault),
    /// It has no job now, and told this.
    Passes(Reported),
    /// It gave a job, when the house had changed so often.
    Decodes(Job, u64),
}

/// What came of one round of a decoder, in which it asks one partition for a job.
#[derive(Drop)]
enum DecoderRound {
    /// It was told of the end.
    Ends(Reported),
    /// Nothing was to be done: the asking was refused.
    Refused(PartitionFault),
    /// Nothing was to be done: the partition has no job now, and told this.
    Passes(Reported),
    /// It was given a job, and was told this of it. Nothing is told of one that is given up without memory.
    Did(Job, Option<Reported>),
}

/// How many blocks of 1,024 frames are half a ring, from one to four.
fn blocks_of(ring: usize) -> u64
    ensures { result ≡ blocks_in_half ring }
{
    (ring as u64 / 2_048).max(1).min(MOST_BLOCKS)
}

/// How long so many blocks of 1,024 frames last, in microseconds, from 1,000 to 100,000.
fn time_of(blocks: u64, rate: u32) -> u64
    ensures { result ≡ rest_for blocks rate }
{
    (blocks.min(MOST_BLOCKS) * 1_024_000_000 / u64::from(rate.max(1)))
        .max(1_000)
        .min(LONGEST_REST)
}

impl<'h, L: Ledgers, S: SongSource<M> + Drop, M: Media + Drop, R: Wait + Clock> Decoder<
    'h,
    L,
    S,
    M,
    R,
> {
    ghost use Rattle.std.specs.Prelude.{◌≡◌, ◌<◌, ◌≤◌, [], false, true, IfErr, IfOk, OnErr, OnOk};
    ghost use Rattle.std.specs.Prelude.{vec_len, vec_capacity};
    ghost use Rattle.output_ring.specs.Rings.{EndsFeeder, SameFeeder};
    ghost use Rattle.player_events.specs.declared.event.Event.TheVariants.{Want};
    ghost use Rattle.house.specs.Views.{RefusesSomewhere, TellsSomewhere};
    ghost use Rattle.crew_steps.specs.Decoders.{Decodes, DecodesAllWith, DecodesOnceWith, EndsJobOf};
    ghost use Rattle.crew_steps.specs.Decoders.{FeedsRead, FinishesRead, IsNotOpenedBy, KeepsSeat};
    ghost use Rattle.crew_steps.specs.Decoders.{PartnerIsNotOpenedBy, RunsWith, TellsFrames, open_of};
    ghost use Rattle.crew_steps.specs.Decoding.{AsksFor, GivesJob, RunsDecoder};
    ghost use Rattle.crew_steps.specs.Each.{Each};
    ghost use Rattle.crew_steps.specs.Feeding.{OwesNothingSomewhere, TakesNone, failure_of};
    ghost use Rattle.crew_steps.specs.Feeding.{owing as owing_lem};
    ghost use Rattle.crew_steps.specs.Rests.{blocks_in_half, is_fast_after, next_rest, rest_for};
    ghost use Rattle.crew_steps.specs.Rounds.{all_passed, passed_after, seen_by};
    ghost use Rattle.crew_steps.specs.Shown.{IsReadFor};
    ghost use Rattle.crew_steps.specs.Songs.{Fails, IfFailed, IsFaultOf};
    ghost use Rattle.crew_steps.specs.Sounds.{AreOpenFor, KeepsOther, is_partner, is_song, song_at};

    /// A decoder of songs of this rate, which it has of this source, for outputs whose rings hold so many
    /// frames. While a song is played a rest is for the blocks of half a ring, and no longer than these last.
    pub fn new(
        rt: &'h R,
        alloc: Global,
        house: &'h House<L>,
        source: S,
        rate: u32,
        ring: usize,
        share: Share<Decoded<L>>,
    ) -> Self
        requires { share.parts ≡ 1 }
        ensures rate { result.songs.rate ≡ rate }
        ensures source { result.songs.source ≡ source }
        ensures blocks { result.blocks ≡ blocks_in_half ring }
        ensures look { result.look ≡ rest_for (blocks_in_half ring) rate }
    {
        let blocks = blocks_of(ring);
        Decoder {
            rt,
            alloc,
            house,
            seat: Seat::of_crew(0),
            share,
            songs: Songs::new(alloc, source, rate),
            present_partitions: [false; 16],
            given: 0,
            index: 0,
            idle: 0,
            seen: 0,
            blocks,
            look: time_of(blocks, rate),
            wait: SHORT_REST,
            since_rest: 0,
            polls_without_progress: 0,
            stalled: [false; 8],
        }
    }

    /// Asks for jobs and does them until the end, and finishes the feeders, whatever they owe. There is room
    /// for their ends.
    pub fn run(self, feeders: Vec<Feeder>, room: Vec<FeederEnd>) -> DecoderEnd<L>
        requires { (room.items ≡ []) × (vec_len feeders ≤ vec_capacity room) }
        ensures rings { Each EndsFeeder feeders.items result.ends.items }
        ensures decodes { RunsWith self.entry feeders result.ends }
        ensures known { RunsDecoder self.entry.songs.rate feeders.items result.ends.items }
    {
        let mut decoder = self;
        let mut feeders = feeders;
        let _told = decoder.keep_decoding(&mut feeders);
        let ends = finish_all(feeders, room);
        DecoderEnd {
            ends,
            share: decoder.share,
        }
    }

    /// Goes on until it is told of the end, and says what it was told.
    fn keep_decoding(&mut self, feeders: &mut Vec<Feeder>) -> Reported
        ensures rings { Each SameFeeder feeders.old.items feeders.new.items }
        ensures decodes { DecodesAllWith self.old result feeders.old feeders.new }
    {
        let rt = self.rt;
        for _ in rt.forever() {
            if let DecoderRound::Ends(told) = self.decode_once(feeders) {
                return told;
            }
        }
        unreachable!()
    }

    /// Moves what waits into the rings, asks the partition that has its turn for a job, and decodes it, if it
    /// gives one. One for which there is no memory is asked for again when the others have had their turns.
    #[tactic(auto, using(crate::proofs::Pushes::each_kept))]
    fn decode_once(&mut self, feeders: &mut Vec<Feeder>) -> DecoderRound
        ensures rings { Each SameFeeder feeders.old.items feeders.new.items }
        ensures decodes { DecodesOnceWith self.old result feeders.old feeders.new }
        ensures rate { self.new.songs.rate ≡ self.old.songs.rate }
    {
        let owes = self.push(feeders);
        let present_partitions = self.known_partitions();
        let index = next_index(present_partitions, self.index);
        self.index = index;
        match self.ask(index, owes, count_of(present_partitions)) {
            Next::Ends(told) => DecoderRound::Ends(told),
            Next::Refused(fault) => DecoderRound::Refused(fault),
            Next::Passes(told) => DecoderRound::Passes(told),
            Next::Decodes(job, changes) => {
                let told = self.decode(feeders, index, &job);
                self.pass_untold(&told, changes, owes, count_of(present_partitions));
                DecoderRound::Did(job, told)
            }
        }
    }

    /// Which partitions there are, as the house answers it. Each question takes its lock, so while one job after
    /// the other is given it asks only before each sixteenth: a new partition has its first turn a little later,
    /// and one that is gone has no job. The songs of those that are gone are closed.
    fn known_partitions(&mut self) -> [bool; 16]
        ensures kept { KeepsSeat self.old self.new }
        ensures rate { self.new.songs.rate ≡ self.old.songs.rate }
    {
        if self.given == 0 || self.given >= JOBS_IN_A_ROW {
            self.given = 0;
            self.present_partitions = self.house.present_partitions(self.rt);
            self.songs.close_gone(self.present_partitions);
        }
        self.present_partitions
    }

    /// Asks a partition for a job. Where the asking is refused it waits a while. There is no job while a ring
    /// of one of the partition's outputs owes frames.
    #[tactic(auto, using(crate::proofs::DueJob::owes_nothing))]
    fn ask(&mut self, index: u8, owes: [bool; 8], partitions: usize) -> Next
        ensures asks { AsksFor self.old.seat index owes result }
        ensures idle { GivesJob result → self.new.idle ≡ 0 }
        ensures rate { self.new.songs.rate ≡ self.old.songs.rate }
    {
        let told = match self.want(index, owes) {
            Ok(told) => told,
            Err(fault) => {
                self.given = 0;
                pause(self.rt, PAUSE);
                return Next::Refused(fault);
            }
        };
        match told.report() {
            Report::Ended => Next::Ends(told),
            Report::ToDecode(Some(job)) => {
                self.idle = 0;
                self.given = self.given.saturating_add(1);
                Next::Decodes(job, told.changes())
            }
            _ => {
                self.pass(told.changes(), owes, partitions);
                Next::Passes(told)
            }
        }
    }

    /// Asks a partition for a job, and says of which outputs frames still wait.
    fn want(&mut self, index: u8, owes: [bool; 8]) -> Result<Reported, PartitionFault>
        ensures told { IfOk result (TellsSomewhere self.old.seat (Want index owes)) }
        ensures refused { IfErr result (RefusesSomewhere self.old.seat (Want index owes)) }
        ensures rate { self.new.songs.rate ≡ self.old.songs.rate }
    {
        self.house
            .notice(self.rt, &mut self.seat, News::Wants(index, owes))
    }

    /// Passes over a partition whose job was given up, of which nothing was told.
    fn pass_untold(
        &mut self,
        told: &Option<Reported>,
        changes: u64,
        owes: [bool; 8],
        partitions: usize,
    )
        ensures { self.new.songs.rate ≡ self.old.songs.rate }
    {
        if told.is_none() {
            self.pass(changes, owes, partitions);
        }
    }

    /// Passes over a partition of which nothing can be decoded now. Once all were passed over, one after the
    /// other, it rests.
    fn pass(&mut self, changes: u64, owes: [bool; 8], partitions: usize)
        ensures passed { self.new.idle ≡ passed_after self.old.idle partitions }
        ensures seen { self.new.seen ≡ seen_by self.old.idle self.old.seen changes }
        // A rest ends what it decoded without one.
        ensures rests { all_passed self.old.idle partitions ≡ true → self.new.since_rest ≡ 0 }
        ensures goes_on { all_passed self.old.idle partitions ≡ false → self.new.since_rest ≡ self.old.since_rest }
        ensures rate { self.new.songs.rate ≡ self.old.songs.rate }
    {
        self.given = 0;
        self.seen = if self.idle == 0 { changes } else { self.seen };
        self.idle = self.idle.saturating_add(1);
        if are_all(self.idle, partitions) {
            self.idle = 0;
            self.rest(self.seen, owes.iter().any(|owes| *owes));
        }
    }

    /// Moves frames into the rings, and says of the first eight in which some still wait.
    fn push(&mut self, feeders: &mut Vec<Feeder>) -> [bool; 8]
        ensures kept { Each TakesNone feeders.old.items feeders.new.items }
        ensures owes { result ≡ owing_lem feeders.new.items }
        ensures rate { self.new.songs.rate ≡ self.old.songs.rate }
    {
        self.fill_rings(feeders);
        owing(feeders)
    }

    /// Moves frames into the rings. Where several blocks were decoded without a rest, it looks at full rings
    /// again; but a ring that stayed full so long is not waited for until it has room, or an output that
    /// takes nothing would hold up those of other partitions.
    fn fill_rings(&mut self, feeders: &mut Vec<Feeder>)
        ensures kept { Each TakesNone feeders.old.items feeders.new.items }
        ensures rate { self.new.songs.rate ≡ self.old.songs.rate }
    {
        let spins = if self.is_fast() { SPINS } else { 1 };
        for _ in 0..spins {
            let pushed = push_all(feeders);
            self.polls_without_progress = if pushed.has_moved {
                0
            } else {
                self.polls_without_progress
            };
            let owes = owing(feeders);
            if are_among(owes, self.stalled) {
                self.stalled = owes;
                return;
            }
            thread::yield_now();
        }
        if spins > 1 {
            self.stalled = owing(feeders);
        }
    }

    /// Decodes a job of a partition, and hands its frames to the outputs that they are for, or tells that one
    /// of its songs has failed. `None` where there was no memory: then nothing is told, and the partition
    /// gives the job again. No ring of one of the partition's outputs owed frames when the job was given.
    fn decode(&mut self, feeders: &mut Vec<Feeder>, index: u8, job: &Job) -> Option<Reported>
        requires { OwesNothingSomewhere index (owing_lem feeders.old.items) }
        ensures rings { Each SameFeeder feeders.old.items feeders.new.items }
        ensures decodes { Decodes index job.now result self.old feeders.old self.new feeders.new }
        ensures rate { self.new.songs.rate ≡ self.old.songs.rate }
    {
        let read = self.read(index, job);
        self.finish_job(feeders, index, job, read)
    }

    /// Tells what came of reading a job. Its frames are handed out as that is told; only where there was no
    /// memory to read them nothing is told.
    fn finish_job(
        &mut self,
        feeders: &mut Vec<Feeder>,
        index: u8,
        job: &Job,
        read: Result<JobFrames, NoFrames>,
    ) -> Option<Reported>
        ensures finishes { FinishesRead index job.now read result self.old feeders.old self.new feeders.new }
        ensures songs { self.new.songs ≡ self.old.songs }
    {
        match read {
            Ok(read) => Some(self.feed(feeders, index, job, read)),
            Err(NoFrames::Failed(of_partner)) => Some(self.tell_failure(
                index, job.number, of_partner,
            )),
            Err(NoFrames::NoMemory) => None,
        }
    }

    /// Tells that the frames of a job are decoded, and hands them out as it is told.
    #[tactic(auto, using(crate::proofs::Decodings::feeds))]
    fn feed(&mut self, feeders: &mut Vec<Feeder>, index: u8, job: &Job, read: JobFrames) -> Reported
        ensures feeds { FeedsRead index job.now read result self.old feeders.old self.new feeders.new }
        ensures songs { self.new.songs ≡ self.old.songs }
    {
        self.since_rest = self.since_rest.saturating_add(1);
        let told = self.have(index, job.number, read.frames.len() as u64);
        hand_out(self.rt, feeders, job, read, &told);
        told
    }

    /// Reads the frames of a job, and opens its songs where they are not open yet.
    fn read(&mut self, index: u8, job: &Job) -> Result<JobFrames, NoFrames>
        ensures open { OnOk result (AreOpenFor (open_of self.new) index job.now) }
        ensures read { IfOk result (IsReadFor (open_of self.new) job.now) }
        ensures failed { IfErr result (Fails (open_of self.new) index job.now) }
        ensures cause { IfErr result (EndsJobOf self.old index job.now) }
        ensures kept { KeepsSeat self.old self.new }
        ensures rate { self.new.songs.rate ≡ self.old.songs.rate }
    {
        // The first job of a partition is number 1.
        self.songs.turn_to(index, job.number == 1)?;
        self.open_current(index, job.id)?;
        self.open_partner(index, job.fade)?;
        self.songs.frames_of(self.alloc, index, job)
    }

    /// Opens the song of this id as the current one, unless it is open.
    fn open_current(&mut self, index: u8, id: u32) -> Result<(), NoFrames>
        ensures open { OnOk result (is_song index id (open_of self.new).current ≡ true) }
        ensures closed { OnErr result (is_song index id (open_of self.new).current ≡ false) }
        ensures fault { IfErr result (IsFaultOf false) }
        ensures cause { IfFailed false result (IsNotOpenedBy self.old index id) }
        ensures kept { KeepsSeat self.old self.new }
        ensures rate { self.new.songs.rate ≡ self.old.songs.rate }
    {
        if self.songs.is_current(index, id) {
            return Ok(());
        }
        self.open(index, id, false)
    }

    /// Opens the song that a job fades into as the partner, if it fades, unless it is open.
    fn open_partner(&mut self, index: u8, fade: Option<FadePart>) -> Result<(), NoFrames>
        ensures open { OnOk result (is_partner index fade (open_of self.new).partner ≡ true) }
        ensures closed { OnErr result (is_partner index fade (open_of self.new).partner ≡ false) }
        ensures fault { IfErr result (IsFaultOf true) }
        ensures cause { IfFailed true result (PartnerIsNotOpenedBy self.old index fade) }
        ensures current { (open_of self.new).current ≡ (open_of self.old).current }
        ensures kept { KeepsSeat self.old self.new }
        ensures rate { self.new.songs.rate ≡ self.old.songs.rate }
    {
        let Some(part) = fade else {
            return Ok(());
        };
        if self.songs.is_partner(index, part.partner) {
            return Ok(());
        }
        self.open(index, part.partner, true)
    }

    /// Opens the song of an entry of a partition's queue, as the current one or as its partner. One that left
    /// the queue has failed, as has one of a partition that is gone.
    fn open(&mut self, index: u8, id: u32, of_partner: bool) -> Result<(), NoFrames>
        ensures open { OnOk result (is_song index id (song_at of_partner (open_of self.new)) ≡ true) }
        ensures other { KeepsOther of_partner (open_of self.old) (open_of self.new) }
        ensures fault { IfErr result (IsFaultOf of_partner) }
        ensures cause { IfFailed of_partner result (IsNotOpenedBy self.old index id) }
        ensures unchanged { OnErr result (open_of self.new ≡ open_of self.old) }
        ensures kept { KeepsSeat self.old self.new }
        ensures rate { self.new.songs.rate ≡ self.old.songs.rate }
    {
        let song = song_found(self.house.song(self.rt, index, id), of_partner)?;
        self.songs.open(self.alloc, index, id, &song, of_partner)
    }

    /// Tells that frames of a partition's job are decoded; where that is refused, again after a while.
    fn have(&mut self, index: u8, number: u64, frames: u64) -> Reported
        ensures told { TellsFrames index number frames result self.old self.new }
        ensures songs { self.new.songs ≡ self.old.songs }
    {
        let rt = self.rt;
        for _ in rt.forever() {
            match self
                .house
                .have(rt, &mut self.seat, index, number, frames, &mut self.share)
            {
                Ok(told) => return told,
                Err(_) => pause(self.rt, PAUSE),
            }
        }
        unreachable!()
    }

    /// Tells that a song of a partition's job cannot be read; where that is refused, again after a while.
    fn tell_failure(&mut self, index: u8, number: u64, of_partner: bool) -> Reported
        ensures told { TellsSomewhere self.old.seat (failure_of index number of_partner) result }
        ensures kept { (self.new.songs ≡ self.old.songs) × (self.new.share ≡ self.old.share) }
    {
        let rt = self.rt;
        for _ in rt.forever() {
            match self.house.notice(rt, &mut self.seat, News::Failed(index, number, of_partner)) {
                Ok(told) => return told,
                Err(_) => pause(self.rt, PAUSE),
            }
        }
        unreachable!()
    }

    /// Whether it decoded more blocks since its last rest than that was for, and one that went while the rest
    /// was over late: frames are taken fast.
    fn is_fast(&self) -> bool
        ensures { result ≡ is_fast_after self.now.blocks self.now.since_rest }
    {
        self.since_rest > self.blocks.saturating_add(1)
    }

    /// Rests until something changes. While frames still leave the rings it polls them, since nothing
    /// tells of them, whether a song is played or the last one has ended.
    fn rest(&mut self, seen: u64, owes: bool)
        ensures rests { self.new.since_rest ≡ 0 }
        ensures wait { self.new.wait ≡ next_rest self.old.blocks self.old.since_rest self.old.wait self.old.look }
        ensures kept { (self.new.idle ≡ self.old.idle) × (self.new.seen ≡ self.old.seen) }
        ensures rate { self.new.songs.rate ≡ self.old.songs.rate }
    {
        self.wait = if self.is_fast() {
            SHORT_REST
        } else {
            self.wait.saturating_mul(2).min(self.look)
        };
        self.since_rest = 0;
        let wait = Duration::from_micros(self.wait);
        let polls = owes && self.polls_without_progress < MOST_POLLS;
        self.polls_without_progress = if polls {
            self.polls_without_progress.saturating_add(1)
        } else {
            self.polls_without_progress
        };
        if polls && self.wait <= LONGEST_SLEEP {
            thread::sleep(self.rt, wait);
        } else {
            let idle = if polls { wait } else { idle_rest(owes) };
            let _ = self.house.rest(self.rt, seen, wait, idle);
        }
    }
}

/// How long it rests at most where nothing is played, and it does not poll the rings.
fn idle_rest(owes: bool) -> Duration
    ensures { as_nanos result ≡ idle_seconds owes * 1_000_000_000 }
{
    Duration::from_millis(if owes { OWING_REST } else { IDLE_REST })
}

/// Whether so many partitions, passed over one after the other, are all.
fn are_all(passed: usize, partitions: usize) -> bool
    ensures { result ≡ nat_le partitions passed }
{
    passed >= partitions
}

/// The song of an entry of a queue as the house found it. One that left the queue has failed.
fn song_found(
    found: Result<Option<SharedSong>, AllocError>,
    of_partner: bool,
) -> Result<SharedSong, NoFrames>
    ensures song { result ≡ found_song found of_partner }
    ensures fault { IfErr result (IsFaultOf of_partner) }
{
    match found {
        Ok(Some(song)) => Ok(song),
        Ok(None) => Err(NoFrames::Failed(of_partner)),
        Err(_) => Err(NoFrames::NoMemory),
    }
}

/// Mixes the frames of a job that was accepted, and hands them to the outputs that they are for.
#[tactic(auto, using(crate::proofs::Pushes::none_fed))]
fn hand_out(rt: &impl Wait, feeders: &mut Vec<Feeder>, job: &Job, read: JobFrames, told: &Reported)
    ensures { HandsOutRead job.now read told.now feeders.old.items feeders.new.items }
{
    let Some(feed) = feed_of(told) else {
        return;
    };
    let JobFrames { mut frames, others } = read;
    mix_block(&mut frames, &others, job.fade, feed.volume);
    take_all(rt, feeders, &frames, &feed);
}

/// What decoded frames are fed with, unless they are stale.
fn feed_of(told: &Reported) -> Option<Feed>
    ensures { result ≡ feed_told told.now.report }
{
    match told.report() {
        Report::ToFeed(feed) => feed,
        _ => None,
    }
}
