//! The songs that are being decoded.
ghost use Rattle.std.specs.Prelude.{◌≡◌, ◌≤◌, All, IfOk, IfErr, vec_len};
ghost use Rattle.crew_steps.specs.OpenSongs.{AreFramesIn, AreMeant, HasFault, opened_in};
ghost use Rattle.crew_steps.specs.Songs.{IsFaultOf, frames_fault, head_fault};
ghost use Rattle.crew_steps.specs.Sounds.{IsMeant, is_song};

use crate::open_song::{OpenSong, WIDTH};
use crate::part_songs::{PartSongs, close_gone, exchange};
use crate::rounds::is_there;
use crate::song_source::{SongFault, SongSource};
use counted_devices::Media;
use output_ring::MOST_FRAMES;
use pcm_mix::Frame;
use player_core::{FadePart, Job};
use song_db::SharedSong;
use std::alloc::Global;
use wave::{WaveFault, read_head};

/// Why a job has no frames.
#[derive(Clone, Copy, PartialEq, Eq)]
pub(crate) enum NoFrames {
    /// There was no memory: the same job is tried again.
    NoMemory,
    /// The song cannot be read, or where this is so, its partner in a fade.
    Failed(bool),
}

/// The frames of a job, and of the song that it fades into, if it fades.
#[derive(Drop)]
pub(crate) struct JobFrames {
    pub(crate) frames: Vec<Frame>,
    pub(crate) others: Vec<Frame>,
    ghost few: { vec_len frames ≤ 1024 },
}

/// The current song of a partition and its partner in a fade, as far as they are open; and those of the other
/// partitions that jobs were done of.
#[derive(Drop)]
pub(crate) struct Songs<S: SongSource<M> + Drop, M: Media + Drop> {
    source: S,
    rate: u32,
    /// The number of the partition.
    index: u8,
    current: Option<OpenSong<M>>,
    partner: Option<OpenSong<M>>,
    others: Vec<PartSongs<M>>,
    ghost current_meant: { IsMeant rate (opened_in current) },
    ghost partner_meant: { IsMeant rate (opened_in partner) },
    ghost others_meant: { All (AreMeant rate) others.items },
}

impl<S: SongSource<M> + Drop, M: Media + Drop> Songs<S, M> {
    ghost use Rattle.std.specs.Prelude.{◌≡◌, ◌≤◌, Bool, true, false, None, Some, Err, IfOk, IfErr, IsOk, OnErr, OnOk, vec_len};
    ghost use Rattle.crew_steps.specs.OpenSongs.{HasFault, opened, opened_in};
    ghost use Rattle.crew_steps.specs.Rounds.{has_number};
    ghost use Rattle.crew_steps.specs.Shown.{EndsReadingOf, IsNotHadBy, IsReadFor, OthersHaveCause, songs_of};
    ghost use Rattle.crew_steps.specs.Songs.{AreOthersOf, Fails, IfFailed, IsFaultOf};
    ghost use Rattle.crew_steps.specs.Sounds.{AreClosed, IsMeant, KeepsOther, is_either, is_song, song_at};
    ghost use Rattle.crew_steps.specs.declared.song_source.SongFault.{SongFault};
    ghost use Rattle.crew_steps.specs.declared.songs.NoFrames.{NoFrames};

    pub(crate) fn new(alloc: Global, source: S, rate: u32) -> Songs<S, M>
        ensures rate { result.rate ≡ rate }
        ensures source { result.source ≡ source }
    {
        Songs {
            source,
            rate,
            index: 0,
            current: None,
            partner: None,
            others: Vec::new(alloc),
        }
    }

    /// Turns to the songs of the partition of a number. Where it has just come, none of it is open: what was
    /// open of an earlier one of this number is closed.
    pub(crate) fn turn_to(&mut self, index: u8, is_new: bool) -> Result<(), NoFrames>
        ensures closed { is_new ≡ true → OnOk result (AreClosed (songs_of self.new)) }
        ensures fault { IfErr result (λ fault. fault ≡ NoFrames.NoMemory) }
        ensures rate { self.new.rate ≡ self.old.rate }
    {
        if self.index != index && !self.put_aside(index) {
            return Err(NoFrames::NoMemory);
        }
        if is_new {
            self.close_both();
        }
        Ok(())
    }

    /// Puts the songs of the partition aside, and takes out those of another, if some are there. Answers
    /// whether there was memory.
    fn put_aside(&mut self, index: u8) -> bool
        ensures { self.new.rate ≡ self.old.rate }
    {
        if self.others.reserve(1).is_err() {
            return false;
        }
        let left = PartSongs {
            index: self.index,
            current: self.current.take(),
            partner: self.partner.take(),
        };
        let taken = exchange(&mut self.others, left, index);
        self.index = index;
        self.current = taken.current;
        self.partner = taken.partner;
        true
    }

    /// Closes the songs of the partitions that are gone: of sixteen numbers these are of one.
    pub(crate) fn close_gone(&mut self, present_partitions: [bool; 16])
        ensures closed { has_number present_partitions self.old.index ≡ false → AreClosed (songs_of self.new) }
        ensures kept { has_number present_partitions self.old.index ≡ true → songs_of self.new ≡ songs_of self.old }
        ensures rate { self.new.rate ≡ self.old.rate }
    {
        close_gone(&mut self.others, present_partitions);
        if !is_there(present_partitions, self.index) {
            self.close_both();
        }
    }

    /// Whether the current song has this id; a partner that has it becomes the current song where that has
    /// another.
    pub(crate) fn is_current(&mut self, index: u8, id: u32) -> bool
        ensures open { result ≡ is_either index id (songs_of self.old) }
        ensures current { result ≡ is_song index id (opened_in self.new.current) }
        ensures kept { result ≡ false → songs_of self.new ≡ songs_of self.old }
        ensures rate { self.new.rate ≡ self.old.rate }
    {
        if !is_of(&self.current, index, id) && is_of(&self.partner, index, id) {
            self.current = self.partner.take();
        }
        is_of(&self.current, index, id)
    }

    /// Whether the partner has this id.
    pub(crate) fn is_partner(&self, index: u8, id: u32) -> bool
        ensures { result ≡ is_song index id (songs_of self.now).partner }
    {
        is_of(&self.partner, index, id)
    }

    /// Opens the song of an entry of the queue, as the current one or as its partner.
    pub(crate) fn open(
        &mut self,
        alloc: Global,
        index: u8,
        id: u32,
        song: &SharedSong,
        of_partner: bool,
    ) -> Result<(), NoFrames>
        ensures open { OnOk result (is_song index id (song_at of_partner (songs_of self.new)) ≡ true) }
        ensures other { KeepsOther of_partner (songs_of self.old) (songs_of self.new) }
        ensures fault { IfErr result (IsFaultOf of_partner) }
        ensures cause { IfFailed of_partner result (IsNotHadBy self.old song.now.uri) }
        ensures kept { OnErr result (songs_of self.new ≡ songs_of self.old) }
        ensures rate { self.new.rate ≡ self.old.rate }
    {
        match self.opened(alloc, index, id, song) {
            Ok(opened) => {
                if of_partner {
                    self.partner = Some(opened);
                } else {
                    self.current = Some(opened);
                }
                Ok(())
            }
            Err(fault) => Err(no_frames(fault, of_partner)),
        }
    }

    /// The song of an entry of the queue, as its file begins.
    fn opened(
        &mut self,
        alloc: Global,
        index: u8,
        id: u32,
        song: &SharedSong,
    ) -> Result<OpenSong<M>, SongFault>
        ensures id { IfOk result (λ song. is_song index id (Some (opened song)) ≡ true) }
        ensures meant { IfOk result (λ song. IsMeant self.old.rate (Some (opened song))) }
        ensures cause { result ≡ Err SongFault.Unopened → IsNotHadBy self.old song.now.uri }
        ensures kept { (self.new.current ≡ self.old.current) × (self.new.partner ≡ self.old.partner) }
        ensures rate { self.new.rate ≡ self.old.rate }
    {
        let mut file = self.source.open(alloc, song.song().uri())?;
        match read_head(alloc, &mut file, self.rate, false) {
            Ok(head) => Ok(OpenSong::new(alloc, index, id, file, head)),
            Err(fault) => Err(song_fault(fault)),
        }
    }

    /// Closes the current song and its partner.
    fn close_both(&mut self)
        ensures closed { AreClosed (songs_of self.new) }
        ensures rate { self.new.rate ≡ self.old.rate }
    {
        self.close(false);
        self.close(true);
    }

    /// Closes the current song, or its partner.
    fn close(&mut self, of_partner: bool)
        ensures closed { song_at of_partner (songs_of self.new) ≡ None }
        ensures other { KeepsOther of_partner (songs_of self.old) (songs_of self.new) }
        ensures rate { self.new.rate ≡ self.old.rate }
    {
        if of_partner {
            self.partner = None;
        } else {
            self.current = None;
        }
    }

    /// The frames of a job whose songs are open. One that fails is closed, so that its file is opened anew
    /// when it is played again.
    pub(crate) fn frames_of(
        &mut self,
        alloc: Global,
        index: u8,
        job: &Job,
    ) -> Result<JobFrames, NoFrames>
        ensures read { IfOk result (IsReadFor (songs_of self.old) job.now) }
        ensures kept { OnOk result (songs_of self.new ≡ songs_of self.old) }
        ensures failed { IfErr result (Fails (songs_of self.new) index job.now) }
        ensures cause { IfErr result (EndsReadingOf self.old job.now) }
        ensures rate { self.new.rate ≡ self.old.rate }
    {
        let read = self.read_frames(alloc, job);
        if let Err(NoFrames::Failed(of_partner)) = &read {
            self.close(*of_partner);
        }
        read
    }

    /// The frames of a job.
    #[tactic(auto, using(crate::proofs::Heard::heard))]
    fn read_frames(&mut self, alloc: Global, job: &Job) -> Result<JobFrames, NoFrames>
        ensures read { IfOk result (IsReadFor (songs_of self.old) job.now) }
        ensures kept { songs_of self.new ≡ songs_of self.old }
        ensures song { result ≡ Err (NoFrames.Failed false) → HasFault self.old.current self.new.current }
        ensures fades { result ≡ Err (NoFrames.Failed true) → job.now.fade ≡ None → ⊥ }
        ensures cause { IfErr result (EndsReadingOf self.old job.now) }
        ensures rate { self.new.rate ≡ self.old.rate }
    {
        let count = (job.count as usize).min(MOST_FRAMES);
        let frames = frames_in(alloc, &mut self.current, job.from, count, false)?;
        let others = self.others_of(alloc, job.fade, frames.len())?;
        Ok(JobFrames { frames, others })
    }

    /// As many frames of the song that a job fades into. A partner that has fewer fails.
    #[tactic(auto, using(crate::proofs::Heard::others_heard, crate::proofs::Heard::others_short))]
    fn others_of(
        &mut self,
        alloc: Global,
        fade: Option<FadePart>,
        count: usize,
    ) -> Result<Vec<Frame>, NoFrames>
        ensures others { count ≤ WIDTH → IfOk result (AreOthersOf (songs_of self.old) fade count) }
        ensures none { fade ≡ None → IsOk result }
        ensures cause { OthersHaveCause fade count self.old self.new result }
        ensures fault { IfErr result (IsFaultOf true) }
        ensures current { self.new.current ≡ self.old.current }
        ensures partner { opened_in self.new.partner ≡ opened_in self.old.partner }
        ensures rate { self.new.rate ≡ self.old.rate }
    {
        let Some(fade) = fade else {
            return Ok(Vec::new(alloc));
        };
        let others = frames_in(alloc, &mut self.partner, fade.index, count, true)?;
        if others.len() < count {
            return Err(NoFrames::Failed(true));
        }
        Ok(others)
    }
}

/// Why the file of a song whose head was refused is not had. Without memory it may be had later.
fn song_fault(fault: WaveFault) -> SongFault
    ensures { result ≡ head_fault fault }
{
    match fault {
        WaveFault::NoMemory => SongFault::NoMemory,
        _ => SongFault::Unopened,
    }
}

/// Why a job has no frames whose song's file is not had.
fn no_frames(fault: SongFault, of_partner: bool) -> NoFrames
    ensures fault { result ≡ frames_fault fault of_partner }
    ensures cause { IsFaultOf of_partner result }
{
    match fault {
        SongFault::NoMemory => NoFrames::NoMemory,
        SongFault::Unopened => NoFrames::Failed(of_partner),
    }
}

fn is_of<M: Media + Drop>(song: &Option<OpenSong<M>>, index: u8, id: u32) -> bool
    ensures { result ≡ is_song index id (opened_in song.now) }
{
    match song {
        Some(song) => song.is(index, id),
        None => false,
    }
}

/// Frames of a song that is open; one that is not has failed.
fn frames_in<M: Media + Drop>(
    alloc: Global,
    song: &mut Option<OpenSong<M>>,
    from: u64,
    count: usize,
    of_partner: bool,
) -> Result<Vec<Frame>, NoFrames>
    ensures value { count ≤ WIDTH → IfOk result (AreFramesIn song.old from count) }
    ensures count { IfOk result (λ frames. vec_len frames ≤ count) }
    ensures fault { IfErr result (IsFaultOf of_partner) }
    ensures cause { result ≡ Err (NoFrames.Failed of_partner) → HasFault song.old song.new }
    ensures song { opened_in song.new ≡ opened_in song.old }
{
    let Some(song) = song else {
        return Err(NoFrames::Failed(of_partner));
    };
    match song.frames_at(alloc, from, count) {
        Ok(frames) => Ok(frames),
        Err(WaveFault::NoMemory) => Err(NoFrames::NoMemory),
        Err(_) => Err(NoFrames::Failed(of_partner)),
    }
}
