//! The house: one lock, which any thread with a seat takes.
ghost use Rattle.frame_ledger.specs.Shares.{HasAllParts, HasNoFrames, KeepsParts};
ghost use Rattle.std.specs.Prelude.{◌≡◌, ◌↔◌, ◌<◌, ◌≤◌, [], false, if◌then◌else◌};
ghost use Rattle.std.specs.Prelude.{IfErr, IfOk, IfSome, OnErr, OnOk, length, vec_len, vec_capacity};
ghost use Rattle.house.specs.Blanks.{AreFor};
ghost use Rattle.partition.specs.History.{Chronicle};
ghost use Rattle.partition.specs.Legal.{IsPast};
ghost use Rattle.player_events.specs.declared.event.Event.TheVariants.{End, Have};
ghost use Rattle.house.specs.Lists.{HandsAll, StopsAmid};
ghost use Rattle.house.specs.News.{event_of};
ghost use Rattle.house.specs.Player.{LeavesShelf};
ghost use Rattle.house.specs.Seats.{IsUnused, after_events};
ghost use Rattle.house.specs.Settling.{ClosesBooks};
ghost use Rattle.house.specs.Counts.{ArePresentPartitionsSomewhere, HasScanSomewhere, IsFresh};
ghost use Rattle.house.specs.Counts.{IsByPlaying, IsSongSomewhere, has_scan};
ghost use Rattle.house.specs.Views.{AnswersCaller, Feeds, RefusesSomewhere, StopsCaller};
ghost use Rattle.house.specs.Views.{TellsSomewhere, turn_of};

use crate::answered::{Answered, AnsweredList, Reported};
use crate::ended_ring::EndedRing;
use crate::held::{Blanks, CrewShares, Held};
use crate::ledgers::{Decoded, Discarded, Ledgers, Written};
use crate::news::News;
use crate::seat::{NoSeat, Seat};
use crate::settlement::Settlement;
use command_lists::ListForm;
use connected_clients::Notice;
use frame_ledger::OutputShares;
use mpd_command::Request;
use output_ring::Fates;
use partition::{ListFault, Partition, PartitionFault};
use shelf::Shelf;
use song_db::SharedSong;
use std::alloc::{AllocError, Global};
use std::sync::ledger::Share;
use std::sync::{Condvar, Mutex, MutexGuard, Wait};
use std::thread;
use std::time::{Clock, Duration};

/// How often a thread looks whether the lock is free before it sleeps until it is. Most of what is done under
/// the lock takes a microsecond or two, and being woken takes ten times as long.
const LOOKS: u32 = 20;

/// A player that any thread may use.
pub struct House<L: Ledgers> {
    held: Mutex<Held<L>>,
    /// Rung where something changed that a thread at rest is woken for.
    state_changed: Condvar,
    /// Rung where a notice waits for a client.
    notices_wait: Condvar,
    /// Rung where a scan was asked for.
    scan_runs: Condvar,
}

// Written out, so that it is proved here once, and not again in each crate that lets a house go.
impl<L: Ledgers> Drop for House<L> {
    fn drop(self) {
        let House {
            held: _,
            state_changed: _,
            notices_wait: _,
            scan_runs: _,
        } = self;
    }
}

/// Which are rung once the lock is free.
#[derive(Clone, Copy)]
struct Rung {
    state_changed: bool,
    notices_wait: bool,
    scan_runs: bool,
}

impl<L: Ledgers> House<L> {
    /// The house of a player of which no seat made an event yet.
    pub fn open(
        alloc: Global,
        blanks: Blanks,
        partition: Partition,
    ) -> Result<(Self, CrewShares<L>), AllocError>
        requires fresh { IsFresh partition.present }
        requires blanks { AreFor L.names blanks }
        ensures parts { IfOk result (λ r. HasAllParts r.1.decoded.parts r.1.outputs) }
        ensures amounts { IfOk result (λ r. HasNoFrames r.1.decoded.amount r.1.outputs) }
    {
        let (held, shares) = Held::open(alloc, blanks, partition)?;
        Ok((
            House {
                held: Mutex::new(held),
                state_changed: Condvar::new(),
                notices_wait: Condvar::new(),
                scan_runs: Condvar::new(),
            },
            shares,
        ))
    }

    /// A seat that made no event yet. It takes no memory.
    ///
    /// # Errors
    ///
    /// [`NoSeat`] where all four are given.
    pub fn seat(&self, rt: &impl Wait) -> Result<Seat<L>, NoSeat>
        ensures { IfOk result IsUnused }
    {
        self.lock(rt).seat()
    }

    /// One line of a client. The reply, the notice in front aside, is the one-thread player's after some past
    /// in which the caller's seat had made the events that the caller made; the lent shelf answered and
    /// changed as that past and the line say.
    ///
    /// # Errors
    ///
    /// As [`Held::command`].
    pub fn command<S: Shelf>(
        &self,
        rt: &impl Wait,
        seat: &mut Seat<L>,
        shelf: &mut S,
        client: u32,
        request: Request,
    ) -> Result<Answered, PartitionFault>
        ensures made { OnOk result (seat.new ≡ after_events seat.old 1) }
        ensures fault { OnErr result ((seat.new ≡ seat.old) × LeavesShelf S.Shelf shelf.old shelf.new) }
        ensures refused { IfErr result (StopsCaller S.Shelf shelf.old shelf.new seat.old client request) }
        ensures somewhere { IfOk result (AnswersCaller S.Shelf shelf.old shelf.new seat.old client request) }
        ensures front { IfOk result (λ a. IfSome a.front (λ notice. notice.client ≡ client)) }
    {
        let (mut held, before) = self.take(rt);
        let told = held.command(seat, shelf, client, request);
        self.leave(held, before);
        told
    }

    /// The commands of a client's list under one taking of the lock.
    ///
    /// # Errors
    ///
    /// As [`Held::list`].
    pub fn list<S: Shelf>(
        &self,
        rt: &impl Wait,
        seat: &mut Seat<L>,
        shelf: &mut S,
        client: u32,
        form: ListForm,
        requests: Vec<Request>,
    ) -> Result<AnsweredList, ListFault>
        ensures made { IfOk result (λ a. seat.new ≡ after_events seat.old (length a.tolds)) }
        ensures done { IfErr result (λ stop. seat.new ≡ after_events seat.old stop.done) }
        ensures somewhere { IfOk result (HandsAll S.Shelf shelf.old shelf.new seat.old client form requests) }
        ensures front { IfOk result (λ a. IfSome a.front (λ notice. notice.client ≡ client)) }
        ensures stopped { IfErr result (StopsAmid S.Shelf shelf.old shelf.new seat.old client form requests) }
    {
        let (mut held, before) = self.take(rt);
        let told = held.list(seat, shelf, client, form, requests);
        self.leave(held, before);
        told
    }

    /// A piece of news.
    ///
    /// # Errors
    ///
    /// As [`Held::notice`].
    pub fn notice(
        &self,
        rt: &impl Wait,
        seat: &mut Seat<L>,
        news: News,
    ) -> Result<Reported, PartitionFault>
        ensures made { OnOk result (seat.new ≡ after_events seat.old 1) }
        ensures fault { OnErr result (seat.new ≡ seat.old) }
        ensures refused { IfErr result (RefusesSomewhere seat.old (event_of news)) }
        ensures somewhere { IfOk result (TellsSomewhere seat.old (event_of news)) }
    {
        let (mut held, before) = self.take(rt);
        let told = held.notice(seat, news);
        self.leave(held, before);
        told
    }

    /// The client's waiting notice, which is taken out. It is no event and takes no memory.
    ///
    /// A hint: that it hands out every notice just once is tested. One that it passed over comes in front of
    /// the client's next reply.
    pub fn outbox(&self, rt: &impl Wait, client: u32) -> Option<Notice>
        ensures { IfSome result (λ notice. notice.client ≡ client) }
    {
        self.lock(rt).outbox(client)
    }

    /// The clients that notices wait for, all by one taking of the lock.
    ///
    /// A hint: a client that is missing is told later, by [`House::outbox`] or in front of its next reply.
    pub fn addressees(&self, rt: &impl Wait, alloc: Global) -> Result<Vec<u32>, AllocError> {
        self.lock(rt).addressees(alloc)
    }

    /// Frames of a partition's job were decoded.
    ///
    /// # Errors
    ///
    /// As [`Held::have`].
    pub fn have(
        &self,
        rt: &impl Wait,
        seat: &mut Seat<L>,
        index: u8,
        number: u64,
        frames: u64,
        share: &mut Share<Decoded<L>>,
    ) -> Result<Reported, PartitionFault>
        requires { 0 < share.old.parts }
        ensures made { OnOk result (seat.new ≡ after_events seat.old 1) }
        ensures refused { IfErr result (RefusesSomewhere seat.old (Have index number frames)) }
        ensures somewhere { IfOk result (Feeds seat.old index number frames share.old share.new) }
        ensures parts { share.new.parts ≡ share.old.parts }
        ensures fault { OnErr result ((seat.new ≡ seat.old) × (share.new ≡ share.old)) }
    {
        let (mut held, before) = self.take(rt);
        let told = held.have(seat, index, number, frames, share);
        self.leave(held, before);
        told
    }

    /// An output had its turn.
    ///
    /// # Errors
    ///
    /// As [`Held::turn`].
    pub fn turn(
        &self,
        rt: &impl Wait,
        seat: &mut Seat<L>,
        output: usize,
        fates: Fates,
        failed: bool,
        shares: &mut OutputShares<Written<L>, Discarded<L>>,
    ) -> Result<Reported, PartitionFault>
        requires { (0 < shares.old.written.parts) × (0 < shares.old.discarded.parts) }
        ensures made { OnOk result (seat.new ≡ after_events seat.old 1) }
        ensures refused { IfErr result (RefusesSomewhere seat.old (turn_of output fates failed)) }
        ensures somewhere { IfOk result (TellsSomewhere seat.old (turn_of output fates failed)) }
        ensures parts { KeepsParts shares.old shares.new }
        ensures fault { OnErr result ((seat.new ≡ seat.old) × (shares.new ≡ shares.old)) }
    {
        let (mut held, before) = self.take(rt);
        let told = held.turn(seat, output, fates, failed, shares);
        self.leave(held, before);
        told
    }

    /// Compares the books of all outputs with their rings, once all shares are back. What it answers is as
    /// [`Held::settle_all`] answers.
    pub fn settle_all(
        &self,
        rt: &impl Wait,
        shares: CrewShares<L>,
        rings: Vec<EndedRing>,
        room: Vec<Settlement<L>>,
    ) -> Vec<Settlement<L>>
        requires whole { HasAllParts shares.decoded.parts shares.outputs }
        requires few { vec_len rings ≤ 8 }
        requires room { (room.items ≡ []) × (vec_len rings ≤ vec_capacity room) }
        ensures { ClosesBooks shares rings.items result.items }
    {
        self.lock(rt).settle_all(shares, rings, room)
    }

    /// The end: from now on nothing is decoded and no scan begins. Each thread of the house is told of it at
    /// its next event.
    ///
    /// # Errors
    ///
    /// As [`Held::end`].
    pub fn end(&self, rt: &impl Wait, seat: &mut Seat<L>) -> Result<(), PartitionFault>
        ensures made { OnOk result (seat.new ≡ after_events seat.old 1) }
        ensures fault { OnErr result (seat.new ≡ seat.old) }
        ensures refused { IfErr result (RefusesSomewhere seat.old End) }
    {
        let ended = self.lock(rt).end(seat);
        self.ring(Rung {
            state_changed: true,
            notices_wait: true,
            scan_runs: true,
        });
        ended
    }

    /// Of sixteen numbers those of a partition. It is no event.
    ///
    /// A hint: the answer may be older than what the caller did since. Each partition is then asked for a job
    /// by an event, which is answered of the present.
    pub fn present_partitions(&self, rt: &impl Wait) -> [bool; 16]
        ensures { ArePresentPartitionsSomewhere result }
    {
        self.lock(rt).player().present_partitions()
    }

    /// The song of the entry that has this id in the present queue of the partition of a number. It is no
    /// event.
    ///
    /// A hint: the answer may be older than what the caller did since. But an id is given once, so that an
    /// older answer names the same song, or none.
    pub fn song(&self, rt: &impl Wait, index: u8, id: u32) -> Result<Option<SharedSong>, AllocError>
        ensures { IfOk result (IsSongSomewhere index id) }
    {
        self.lock(rt).player().song(index, id)
    }

    /// Whether the daemon has ended. It is no event.
    ///
    /// A hint: the answer may be older than what the caller did since. But an end is for ever, so that a yes
    /// is never too old, and a no costs the caller one more look.
    pub fn has_ended(&self, rt: &impl Wait) -> bool
        ensures { (past : Chronicle) × IsPast past × (result ≡ past.present.shared.ended) }
    {
        self.lock(rt).player().has_ended()
    }

    /// Rests until something changed since the house had changed so often, but no longer than a time: one
    /// while a song is played, and another while none is. Answers how often it has changed by then. It is no
    /// event, and changes nothing.
    ///
    /// What changes is what a thread has something to do for
    /// ([`Reported::changes`](crate::Reported::changes)): which partitions there are, in each whether
    /// and what is played and which outputs are enabled, frames that are fed, and the end.
    ///
    /// A hint: the answer may be older than what others did since, and that a change ends the rest is tested.
    /// A thread that rested too short or too long then asks by an event, which is answered of the present.
    pub fn rest<R: Wait + Clock>(
        &self,
        rt: &R,
        seen: u64,
        while_playing: Duration,
        while_idle: Duration,
    ) -> u64 {
        let most = self.longest_rest(rt, while_playing, while_idle);
        let (held, _is_late) = self
            .state_changed
            .wait_timeout_while(rt, self.lock(rt), most, |held| held.changes() == seen);
        held.changes()
    }

    /// How long a thread rests at most: one time where a song is played, and another where none is.
    ///
    /// A hint: the answer may be older than what the caller did since. A thread that rests too long for it is
    /// woken by the change.
    fn longest_rest(
        &self,
        rt: &impl Wait,
        while_playing: Duration,
        while_idle: Duration,
    ) -> Duration
        ensures { IsByPlaying while_playing while_idle result }
    {
        let plays = self.lock(rt).player().plays();
        time_by(plays, while_playing, while_idle)
    }

    /// Waits until a notice waits for a client, the daemon ends, or the time is up, and says whether a notice
    /// waits.
    pub fn await_notice<R: Wait + Clock>(&self, rt: &R, most: Duration) -> bool {
        let (held, _is_late) = self.notices_wait.wait_timeout_while(
            rt,
            self.lock(rt),
            most,
            |held| !held.has_notices() && !held.player().has_ended(),
        );
        held.has_notices()
    }

    /// Waits until a scan was asked for that has not ended, the daemon ends, or the time is up, and says
    /// whether there is such a scan.
    ///
    /// A hint: the scanner then asks by an event, which is answered of the present.
    pub fn await_scan<R: Wait + Clock>(&self, rt: &R, most: Duration) -> bool
        ensures { HasScanSomewhere result }
    {
        let (held, _is_late) = self.scan_runs.wait_timeout_while(
            rt,
            self.lock(rt),
            most,
            |held| !held.player().scans() && !held.player().has_ended(),
        );
        held.player().scans()
    }

    /// Takes the lock. While another thread holds it, it looks a few times whether it is free, and lets others
    /// run in between, before it sleeps.
    fn lock(&self, rt: &impl Wait) -> MutexGuard<'_, Held<L>> {
        for _ in 0..LOOKS {
            if let Some(held) = self.held.try_lock() {
                return held;
            }
            thread::yield_now();
        }
        self.held.lock(rt)
    }

    /// Takes the lock. With it comes how often what it holds had changed.
    fn take(&self, rt: &impl Wait) -> (MutexGuard<'_, Held<L>>, u64) {
        let held = self.lock(rt);
        let before = held.changes();
        (held, before)
    }

    /// Frees the lock, and then wakes the threads that rest, if they are to be woken for what changed.
    fn leave(&self, held: MutexGuard<'_, Held<L>>, before: u64) {
        let rung = rung_since(&*held, before);
        drop(held);
        self.ring(rung);
    }

    /// Wakes the threads that rest, if they are to be woken.
    fn ring(&self, rung: Rung) {
        if rung.state_changed {
            self.state_changed.notify_all();
        }
        if rung.notices_wait {
            self.notices_wait.notify_all();
        }
        if rung.scan_runs {
            self.scan_runs.notify_all();
        }
    }
}

/// One time while a song is played, and another while none is.
fn time_by(plays: bool, while_playing: Duration, while_idle: Duration) -> Duration
    ensures { result ≡ (if plays then while_playing else while_idle) }
{
    if plays { while_playing } else { while_idle }
}

/// What is rung where the house had changed so often before a step.
fn rung_since<L: Ledgers>(held: &Held<L>, before: u64) -> Rung
    ensures notices { (result.notices_wait ≡ false) ↔ (held.now.waiting ≡ []) }
    ensures scans { result.scan_runs ≡ has_scan held.now.player.present }
{
    Rung {
        state_changed: held.changes() != before,
        notices_wait: held.has_notices(),
        scan_runs: held.player().scans(),
    }
}
