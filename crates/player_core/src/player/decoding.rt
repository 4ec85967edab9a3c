//! The steps that the decoder makes: wants, haves and failures.
ghost use Rattle.std.specs.Prelude.{◌≡◌, ◌≤◌, ◌<◌, ◌+◌, ◌^◌, string_bytes, is_some, IfOk, OnOk, OnErr, Some};
ghost use Rattle.std.specs.Option.{option_copied, ForSome};
ghost use Rattle.song_queue.specs.State.{queue_of};
ghost use Rattle.player_core.specs.Player as player;
ghost use Rattle.player_core.specs.Player.{IsRefusedAtLimit};
ghost use Rattle.player_core.specs.Decoding as decoding;
ghost use Rattle.player_core.specs.Decoding.{IsJobFor, with_job_for};

use crate::fault::PlayerFault;
use crate::player::Player;
use crate::player::entries::{has_lost_partner, is_heard};
use crate::state::{FadePart, Job, Live, Playback};
use play_order::entry_with;
use song_queue::{Entry, Queue};
use std::alloc::{AllocError, Global};

/// How many frames a job has at most.
const BLOCK: u64 = 1024;

impl Player {
    /// Asks for a job at so many frames a second. `enabled` says whether an output is on, `owes` whether a
    /// feeder still owes frames of an earlier job. After its last frame the current song ends, and only this
    /// may take memory.
    pub fn want(
        &mut self,
        rate: u32,
        queue: &mut Queue,
        enabled: bool,
        owes: bool,
    ) -> Result<Option<Job>, PlayerFault>
        ensures job { IfOk result (λ job. job ≡ (decoding.want rate self.old (queue_of queue.old) enabled owes).job) }
        ensures ok { OnOk result (self.new ≡ (decoding.after_want rate self.old queue.old enabled owes).player) }
        ensures queue { OnOk result (queue.new ≡ (decoding.after_want rate self.old queue.old enabled owes).queue) }
        ensures limit { IsRefusedAtLimit result (decoding.after_want rate self.old queue.old enabled owes).player }
        ensures err { OnErr result (self.new ≡ self.old) }
        ensures err_queue { OnErr result (queue.new ≡ queue.old) }
    {
        if !is_playing(self.playback) || !enabled || owes {
            return Ok(None);
        }
        match self.current {
            Some(id) => self.want_frames(rate, queue, id),
            None => Ok(None),
        }
    }

    /// Asks for a job of the current song, which has this id.
    fn want_frames(
        &mut self,
        rate: u32,
        queue: &mut Queue,
        id: u32,
    ) -> Result<Option<Job>, PlayerFault>
        ensures job { IfOk result (λ job. job ≡ (decoding.want_of rate self.old (queue_of queue.old) (Some id)).job) }
        ensures ok { OnOk result (self.new ≡ (decoding.after_want_of rate self.old queue.old id).player) }
        ensures queue { OnOk result (queue.new ≡ (decoding.after_want_of rate self.old queue.old id).queue) }
        ensures limit { IsRefusedAtLimit result (decoding.after_want_of rate self.old queue.old id).player }
        ensures err { OnErr result (self.new ≡ self.old) }
        ensures err_queue { OnErr result (queue.new ≡ queue.old) }
    {
        let offset = self.offset;
        let Some(entry) = entry_with(queue, id) else {
            return Ok(None);
        };
        if entry.song.song().frames() <= offset {
            self.end(queue, id, offset, 0)?;
            return Ok(None);
        }
        let next = self.round.peek(self.modes, queue, id);
        let job = self.ask(rate, entry, next)?;
        Ok(Some(job))
    }

    /// A job from the player's offset. What the end of the song would start is `next`.
    fn ask(&mut self, rate: u32, entry: &Entry, next: Option<&Entry>) -> Result<Job, PlayerFault>
        requires { self.old.offset < entry.now.song.frames }
        ensures job { IfOk result (IsJobFor rate self.old entry.now (option_copied next.entry)) }
        ensures ok { OnOk result (self.new ≡ with_job_for rate self.old entry.now (option_copied next.entry)) }
        ensures limit { IsRefusedAtLimit result (with_job_for rate self.old entry.now (option_copied next.entry)) }
        ensures err { OnErr result (self.new ≡ self.old) }
    {
        if self.jobs == self.max_cut {
            return Err(PlayerFault::CutsAtLimit);
        }
        self.check_fade(next);
        let end = self.reach(rate, entry, next);
        self.fix_fade(rate, entry, next);
        let job = Job {
            number: self.jobs + 1,
            id: entry.id,
            from: self.offset,
            count: BLOCK.min(end - self.offset),
            fade: self.part_of_fade(entry),
        };
        self.jobs += 1;
        self.job = Some(job);
        Ok(job)
    }

    /// So many frames of a job are there. Gives the cut that they are fed with, or `None` where they are
    /// stale. It takes memory only where the song ends.
    pub fn have(
        &mut self,
        queue: &mut Queue,
        number: u64,
        count: u64,
    ) -> Result<Option<u64>, PlayerFault>
        ensures feed { IfOk result (λ feed. feed ≡ (decoding.have self.old (queue_of queue.old) number count).feed) }
        ensures ok { OnOk result (self.new ≡ (decoding.after_have self.old queue.old number count).player) }
        ensures queue { OnOk result (queue.new ≡ (decoding.after_have self.old queue.old number count).queue) }
        ensures limit { IsRefusedAtLimit result (decoding.after_have self.old queue.old number count).player }
        ensures err { OnErr result (self.new ≡ self.old) }
        ensures err_queue { OnErr result (queue.new ≡ queue.old) }
    {
        let Some(job) = self.job else {
            return Ok(None);
        };
        if !answers(job, number, count) {
            return Ok(None);
        }
        if has_lost_partner(job.fade, self.peek(queue)) {
            self.give_up_fade();
            return Ok(None);
        }
        let cut = self.cuts;
        self.accept(queue, job, count)?;
        Ok(Some(cut))
    }

    /// Whether so many frames of a job would be accepted.
    pub fn would_feed(&self, queue: &Queue, number: u64, count: u64) -> bool
        ensures { result ≡ is_some (decoding.have self.now (queue_of queue.now) number count).feed }
    {
        match self.job {
            Some(job) => {
                answers(job, number, count) && !has_lost_partner(job.fade, self.peek(queue))
            }
            None => false,
        }
    }

    /// What an output is told at its turn.
    pub fn turn(&self, enabled: bool) -> Live
        ensures { result ≡ decoding.turn self.now enabled }
    {
        Live {
            cut: self.cuts,
            enabled,
            paused: matches!(self.playback, Playback::Pause),
        }
    }

    /// Accepts frames of a job, and ends the song where they are its last.
    fn accept(&mut self, queue: &mut Queue, job: Job, count: u64) -> Result<(), PlayerFault>
        requires count { self.old.offset + count < 2 ^ 64 }
        requires fade { ForSome job.fade (λ part. part.index ≤ self.old.offset) }
        ensures ok { OnOk result (self.new ≡ (decoding.after_accepted self.old queue.old job count).player) }
        ensures queue { OnOk result (queue.new ≡ (decoding.after_accepted self.old queue.old job count).queue) }
        ensures limit { IsRefusedAtLimit result (decoding.after_accepted self.old queue.old job count).player }
        ensures err { OnErr result (self.new ≡ self.old) }
        ensures err_queue { OnErr result (queue.new ≡ queue.old) }
    {
        let accepted = self.offset + count;
        if count < job.count || is_heard(entry_with(queue, job.id), accepted) {
            let offset = mixed(job.fade, count);
            return self.end(queue, job.id, accepted, offset);
        }
        self.offset = accepted;
        self.job = None;
        Ok(())
    }

    /// The decoder could not read the song of a job, or that of the partner that is mixed in.
    pub fn failed(
        &mut self,
        queue: &Queue,
        number: u64,
        of_partner: bool,
    ) -> Result<(), PlayerFault>
        ensures ok { OnOk result (self.new ≡ decoding.failed self.old (queue_of queue.now) number of_partner) }
        ensures limit { IsRefusedAtLimit result (decoding.failed self.old (queue_of queue.now) number of_partner) }
        ensures err { OnErr result (self.new ≡ self.old) }
    {
        let Some(job) = self.job else {
            return Ok(());
        };
        if job.number != number {
            return Ok(());
        }
        if !of_partner {
            return self.stop_unread(queue, job.id);
        }
        if job.fade.is_some() {
            self.give_up_fade();
        }
        Ok(())
    }

    /// The player stops, since the song of an entry cannot be read.
    fn stop_unread(&mut self, queue: &Queue, id: u32) -> Result<(), PlayerFault>
        ensures ok { OnOk result (self.new ≡ decoding.unread self.old (queue_of queue.now) id) }
        ensures limit { IsRefusedAtLimit result (decoding.unread self.old (queue_of queue.now) id) }
        ensures err { OnErr result (self.new ≡ self.old) }
    {
        if self.ends_cuts(false) {
            return Err(PlayerFault::CutsAtLimit);
        }
        let text = error_text(self.alloc, entry_with(queue, id))?;
        self.halt(self.current);
        self.cut();
        self.error = Some(text);
        Ok(())
    }
}

/// What is said of a song that cannot be read.
fn error_text(alloc: Global, entry: Option<&Entry>) -> Result<String, AllocError>
    ensures { IfOk result (λ text. string_bytes text ≡ decoding.error_text (option_copied entry.entry)) }
{
    let mut text = String::from_str(alloc, "Failed to decode ")?;
    if let Some(entry) = entry {
        text.push_str(entry.song.song().uri())?;
    }
    Ok(text)
}

/// Whether so many frames are the answer to a job.
fn answers(job: Job, number: u64, count: u64) -> bool
    ensures { result ≡ decoding.answers job number count }
{
    job.number == number && count <= job.count
}

/// Where a partner goes on, of which some frames were mixed.
fn mixed(part: Option<FadePart>, count: u64) -> u64
    requires { ForSome part (λ p. p.index + count < 2 ^ 64) }
    ensures { result ≡ decoding.mixed part count }
{
    match part {
        Some(part) => part.index + count,
        None => 0,
    }
}

fn is_playing(playback: Playback) -> bool
    ensures { result ≡ player.is_playing playback }
{
    match playback {
        Playback::Play => true,
        Playback::Stop | Playback::Pause => false,
    }
}
