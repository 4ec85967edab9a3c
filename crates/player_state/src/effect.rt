//! What an event does to what one player owns.
ghost use Rattle.std.specs.Prelude.{◌≡◌, ℕ, true, None, IfErr, OnOk, OnErr};
ghost use Rattle.idle_notes.specs.Channels.{left, sent, send_refusal, subscribed, subscribe_refusal, unsubscribed, unsubscribe_refusal};
ghost use Rattle.song_queue.specs.Laws.{Takes};
ghost use Rattle.player_core.specs.Player as player;
ghost use Rattle.player_state.specs.Outputs.{turned};
ghost use Rattle.player_state.specs.Fits.{Fits};
ghost use Rattle.player_state.specs.Effects.{asked_for, fed_with, feed_of as feed_of_lem, had, heard_after_turn, part_after, part_asked, part_edited, part_with, played_position, played_with as played_with_lem, player_after, player_edited, report_after, sought_position, told_or as told_or_lem, due_job, with_channels};
ghost use Rattle.player_state.specs.Outcomes.{IsAtLimitOnlyBeyond, IsDoneOnlyWithin, Reports};

use crate::outputs::Outputs;
use crate::report::{Feed, Heard, Report};
use crate::state::Part;
use command_arguments::Volume;
use mpd_text::Text;
use play_order::{Consume, Single};
use player_core::{Job, PlayerFault};
use song_db::Rate;
use song_queue::Edit;

/// What a command does to what one player owns, or a client that goes. It brings no frames.
pub enum CommandEffect {
    /// All stays as it is.
    Rests,
    Edits(Edit),
    /// The entries of the queue from a start up to an end are shuffled.
    Shuffles(usize, usize),
    SetsVolume(Volume),
    SetsRepeat(bool),
    SetsRandom(bool),
    SetsSingle(Single),
    SetsConsume(Consume),
    /// The seconds of fades that are fixed from now on.
    SetsCrossfade(u32),
    ClearsError,
    /// What is paused plays, and what is stopped begins.
    Plays,
    /// The entry at a position starts.
    PlaysPosition(usize),
    Pauses(bool),
    TogglesPause,
    Stops,
    /// The current song ends, and the order goes on.
    GoesOn,
    /// The song before starts.
    GoesBack,
    /// The entry at a position is played from a frame on.
    Seeks(usize, u64),
    /// An output is turned on or off.
    Switches(usize, bool),
    /// A client listens to a channel from now on.
    Subscribes(u32, Text),
    /// A client listens to a channel no more.
    Unsubscribes(u32, Text),
    /// A message, the second text, goes to a channel.
    Sends(Text, Text),
    /// The messages that wait for a client are read.
    ReadsMessages(u32),
    /// A client goes, with its channels and its messages.
    Leaves(u32),
}

// Written out, so that a proof goes through one call where it lets one go (docs/DECISIONS.md).
impl Drop for CommandEffect {
    fn drop(self) {
        match self {
            CommandEffect::Rests
            | CommandEffect::Edits(_)
            | CommandEffect::Shuffles(_, _)
            | CommandEffect::SetsVolume(_)
            | CommandEffect::SetsRepeat(_)
            | CommandEffect::SetsRandom(_)
            | CommandEffect::SetsSingle(_)
            | CommandEffect::SetsConsume(_)
            | CommandEffect::SetsCrossfade(_)
            | CommandEffect::ClearsError
            | CommandEffect::Plays
            | CommandEffect::PlaysPosition(_)
            | CommandEffect::Pauses(_)
            | CommandEffect::TogglesPause
            | CommandEffect::Stops
            | CommandEffect::GoesOn
            | CommandEffect::GoesBack
            | CommandEffect::Seeks(_, _)
            | CommandEffect::Switches(_, _)
            | CommandEffect::Subscribes(_, _)
            | CommandEffect::Unsubscribes(_, _)
            | CommandEffect::Sends(_, _)
            | CommandEffect::ReadsMessages(_)
            | CommandEffect::Leaves(_) => {}
        }
    }
}

impl CommandEffect {
    /// The table of effects. The rate of songs is of no matter to them.
    #[rattlefmt::skip]
    fn apply_to(self, part: &mut Part, report: Report) -> Result<Report, PlayerFault>
        requires { Fits part.old (Effect.ByCommand self) }
        ensures part { OnOk result ((rate : ℕ) → part.new ≡ part_after rate part.old (Effect.ByCommand self)) }
        ensures report { (rate : ℕ) → Reports result (report_after rate part.old (Effect.ByCommand self) report) }
        ensures within { (rate : ℕ) → IsDoneOnlyWithin result (player_after rate part.old (Effect.ByCommand self)) }
        ensures limit { (rate : ℕ) → IsAtLimitOnlyBeyond result (player_after rate part.old (Effect.ByCommand self)) }
        ensures err { OnErr result (part.new ≡ part.old) }
    {
        match self {
            CommandEffect::Rests => { let _ = done(part); Ok(report) }
            CommandEffect::Edits(edit) => edit_queue(part, edit),
            CommandEffect::Shuffles(start, end) => { part.player.shuffle(&mut part.queue, start..end)?; Ok(done(part)) }
            CommandEffect::SetsVolume(volume) => { part.volume = volume; Ok(done(part)) }
            CommandEffect::SetsRepeat(on) => { part.player.set_repeat(on); Ok(done(part)) }
            CommandEffect::SetsRandom(on) => { part.player.set_random(&part.queue, on)?; Ok(done(part)) }
            CommandEffect::SetsSingle(single) => { part.player.set_single(single); Ok(done(part)) }
            CommandEffect::SetsConsume(consume) => { part.player.set_consume(consume); Ok(done(part)) }
            CommandEffect::SetsCrossfade(seconds) => { part.player.set_crossfade(seconds); Ok(done(part)) }
            CommandEffect::ClearsError => { part.player.clear_error(); Ok(done(part)) }
            CommandEffect::Plays => { part.player.play(&part.queue)?; Ok(done(part)) }
            CommandEffect::PlaysPosition(position) => play_position(part, position),
            CommandEffect::Pauses(on) => { part.player.pause(on); Ok(done(part)) }
            CommandEffect::TogglesPause => { part.player.toggle_pause(); Ok(done(part)) }
            CommandEffect::Stops => { part.player.stop()?; Ok(done(part)) }
            CommandEffect::GoesOn => { part.player.next(&mut part.queue)?; Ok(done(part)) }
            CommandEffect::GoesBack => { part.player.previous(&part.queue)?; Ok(done(part)) }
            CommandEffect::Seeks(position, frame) => seek_position(part, position, frame),
            CommandEffect::Switches(output, on) => { part.outputs.switch(output, on); Ok(done(part)) }
            CommandEffect::Subscribes(client, channel) => { subscribe(part, client, channel.as_str())?; Ok(done(part)) }
            CommandEffect::Unsubscribes(client, channel) => { unsubscribe(part, client, channel.as_str()); Ok(done(part)) }
            CommandEffect::Sends(channel, text) => { send(part, channel.as_str(), text.as_str())?; Ok(done(part)) }
            CommandEffect::ReadsMessages(client) => { let _ = part.channels.read(client); Ok(done(part)) }
            CommandEffect::Leaves(client) => { part.channels.leave(client); Ok(done(part)) }
        }
    }
}

/// What the decoder or an output asks for, or tells of.
#[derive(Clone, Copy)]
pub enum AudioStep {
    /// The decoder asks for a job; whether a feeder still owes frames.
    Wants(bool),
    /// So many frames of a job are there.
    Accepts(u64, u64),
    /// The song of a job could not be read, or that of its partner.
    Fails(u64, bool),
    /// An output wrote and discarded so many frames, and whether it failed.
    Settles {
        output: usize,
        written: u64,
        discarded: u64,
        failed: bool,
    },
}

/// What an event does to what one player owns.
#[derive(Drop)]
pub enum Effect {
    /// By a command, or by a client that goes.
    ByCommand(CommandEffect),
    /// By the decoder or an output.
    ByAudio(AudioStep),
}

impl Effect {
    pub fn rests(&self) -> bool
        ensures { result ≡ true → self.now ≡ Effect.ByCommand CommandEffect.Rests }
    {
        matches!(self, Effect::ByCommand(CommandEffect::Rests))
    }
}

/// Does to a part what an event asks for, and gives what is answered to a part of the daemon that is no
/// client. Where it is refused, nothing changes.
#[rattlefmt::skip]
pub fn apply_effect(part: &mut Part, rate: &Rate, effect: Effect, report: Report) -> Result<Report, PlayerFault>
    requires { Fits part.old effect }
    ensures part { OnOk result (part.new ≡ part_after rate.now part.old effect) }
    ensures report { Reports result (report_after rate.now part.old effect report) }
    ensures within { IsDoneOnlyWithin result (player_after rate.now part.old effect) }
    ensures limit { IsAtLimitOnlyBeyond result (player_after rate.now part.old effect) }
    ensures err { OnErr result (part.new ≡ part.old) }
{
    match effect {
        Effect::ByCommand(effect) => effect.apply_to(part, report),
        Effect::ByAudio(step) => take_step(part, rate, step, report),
    }
}

/// The table of steps of the decoder and of outputs.
#[rattlefmt::skip]
fn take_step(part: &mut Part, rate: &Rate, step: AudioStep, report: Report) -> Result<Report, PlayerFault>
    ensures part { OnOk result (part.new ≡ part_after rate.now part.old (Effect.ByAudio step)) }
    ensures report { Reports result (report_after rate.now part.old (Effect.ByAudio step) report) }
    ensures within { IsDoneOnlyWithin result (player_after rate.now part.old (Effect.ByAudio step)) }
    ensures limit { IsAtLimitOnlyBeyond result (player_after rate.now part.old (Effect.ByAudio step)) }
    ensures err { OnErr result (part.new ≡ part.old) }
{
    match step {
        AudioStep::Wants(owes) => want(part, rate, owes),
        AudioStep::Accepts(number, frames) => accept(part, number, frames),
        AudioStep::Fails(number, of_partner) => { part.player.failed(&part.queue, number, of_partner)?; Ok(done(part)) }
        AudioStep::Settles { output, failed, .. } => Ok(told_or(report, settle(part, output, failed))),
    }
}

fn subscribe(part: &mut Part, client: u32, channel: &str) -> Result<(), PlayerFault>
    requires { subscribe_refusal client channel.now part.old.channels ≡ None }
    ensures part { OnOk result (part.new ≡ with_channels part.old (subscribed client channel.now part.old.channels)) }
    ensures memory { IfErr result (λ fault. fault ≡ PlayerFault.NoMemory) }
    ensures err { OnErr result (part.new ≡ part.old) }
{
    part.channels
        .subscribe(client, channel)
        .map_err(|_| PlayerFault::NoMemory)
}

fn unsubscribe(part: &mut Part, client: u32, channel: &str)
    requires { unsubscribe_refusal client channel.now part.old.channels ≡ None }
    ensures { part.new ≡ with_channels part.old (unsubscribed client channel.now part.old.channels) }
{
    match part.channels.unsubscribe(client, channel) {
        Ok(()) => {}
        Err(_) => unreachable!(),
    }
}

fn send(part: &mut Part, channel: &str, text: &str) -> Result<(), PlayerFault>
    requires { send_refusal channel.now part.old.channels ≡ None }
    ensures part { OnOk result (part.new ≡ with_channels part.old (sent channel.now text.now part.old.channels)) }
    ensures memory { IfErr result (λ fault. fault ≡ PlayerFault.NoMemory) }
    ensures err { OnErr result (part.new ≡ part.old) }
{
    part.channels
        .send(channel, text)
        .map_err(|_| PlayerFault::NoMemory)
}

fn settle(part: &mut Part, output: usize, failed: bool) -> Report
    ensures part { part.new ≡ record part.old { outputs = turned part.old.outputs output failed } }
    ensures report { result ≡ heard_after_turn part.old output failed }
    ensures within { player.is_within part.old.player ≡ true }
{
    part.outputs.settle(output, failed);
    let _ = done(part);
    Report::ToPlay(Heard {
        moves: part.outputs.moves(output),
        live: part.player.turn(part.outputs.is_enabled(output)),
    })
}

/// What is told, or where that is nothing the step's own.
fn told_or(report: Report, own: Report) -> Report
    ensures { result ≡ told_or_lem report own }
{
    match report {
        Report::Nothing => own,
        told => told,
    }
}

/// What is answered to a step that nobody has to be told of. Numbers are within their limit.
pub fn done(part: &Part) -> Report
    ensures report { result ≡ Report.Nothing }
    ensures within { player.is_within part.now.player ≡ true }
{
    let _cuts = part.player.cuts();
    Report::Nothing
}

fn edit_queue(part: &mut Part, edit: Edit) -> Result<Report, PlayerFault>
    requires { Takes part.old.queue edit }
    ensures part { OnOk result (part.new ≡ part_edited part.old edit) }
    ensures report { Reports result Report.Nothing }
    ensures within { IsDoneOnlyWithin result (player_edited part.old.player part.old.queue edit) }
    ensures limit { IsAtLimitOnlyBeyond result (player_edited part.old.player part.old.queue edit) }
    ensures err { OnErr result (part.new ≡ part.old) }
{
    match edit {
        Edit::Insert(at, songs) => {
            part.player.insert(&mut part.queue, at, songs)?;
            Ok(done(part))
        }
        Edit::Remove(start, end) => {
            part.player.remove(&mut part.queue, start..end)?;
            Ok(done(part))
        }
        edit => {
            part.queue.edit(edit)?;
            Ok(done(part))
        }
    }
}

fn play_position(part: &mut Part, position: usize) -> Result<Report, PlayerFault>
    ensures part { OnOk result (part.new ≡ record part.old { player = played_position part.old position }) }
    ensures report { Reports result Report.Nothing }
    ensures within { IsDoneOnlyWithin result (played_position part.old position) }
    ensures limit { IsAtLimitOnlyBeyond result (played_position part.old position) }
    ensures err { OnErr result (part.new ≡ part.old) }
{
    if let Some(entry) = part.queue.get(position) {
        part.player.play_entry(entry)?;
    }
    Ok(done(part))
}

fn seek_position(part: &mut Part, position: usize, frame: u64) -> Result<Report, PlayerFault>
    ensures part { OnOk result (part.new ≡ record part.old { player = sought_position part.old position frame }) }
    ensures report { Reports result Report.Nothing }
    ensures within { IsDoneOnlyWithin result (sought_position part.old position frame) }
    ensures limit { IsAtLimitOnlyBeyond result (sought_position part.old position frame) }
    ensures err { OnErr result (part.new ≡ part.old) }
{
    if let Some(entry) = part.queue.get(position) {
        part.player.seek(entry, frame)?;
    }
    Ok(done(part))
}

fn want(part: &mut Part, rate: &Rate, owes: bool) -> Result<Report, PlayerFault>
    ensures part { OnOk result (part.new ≡ part_asked rate.now part.old owes) }
    ensures report { Reports result (Report.ToDecode (due_job rate.now part.old owes).job) }
    ensures within { IsDoneOnlyWithin result (due_job rate.now part.old owes).stepped.player }
    ensures limit { IsAtLimitOnlyBeyond result (due_job rate.now part.old owes).stepped.player }
    ensures err { OnErr result (part.new ≡ part.old) }
{
    let enabled = part.outputs.any_enabled();
    let job = part
        .player
        .want(rate.frames(), &mut part.queue, enabled, owes)?;
    ask(&mut part.outputs, job);
    let _ = done(part);
    Ok(Report::ToDecode(job))
}

/// A job, if one is given, is for the outputs that are in the partition now.
fn ask(outputs: &mut Outputs, job: Option<Job>)
    ensures { outputs.new ≡ asked_for job outputs.old }
{
    if job.is_some() {
        outputs.ask();
    }
}

fn accept(part: &mut Part, number: u64, frames: u64) -> Result<Report, PlayerFault>
    ensures part { OnOk result (part.new ≡ part_with part.old number frames) }
    ensures report { Reports result (Report.ToFeed (fed_with part.old number frames)) }
    ensures within { IsDoneOnlyWithin result (had part.old number frames).stepped.player }
    ensures limit { IsAtLimitOnlyBeyond result (had part.old number frames).stepped.player }
    ensures err { OnErr result (part.new ≡ part.old) }
{
    let cut = part.player.have(&mut part.queue, number, frames)?;
    part.played = played_with(part.played, cut, frames);
    let _ = done(part);
    Ok(Report::ToFeed(feed_of(cut, &part.volume, &part.outputs)))
}

/// How many frames were decoded, with those of a have that was accepted.
fn played_with(played: u64, cut: Option<u64>, frames: u64) -> u64
    ensures { result ≡ played_with_lem played cut frames }
{
    match cut {
        Some(_) => played.saturating_add(frames),
        None => played,
    }
}

fn feed_of(cut: Option<u64>, volume: &Volume, outputs: &Outputs) -> Option<Feed>
    ensures { result ≡ feed_of_lem volume.now outputs.now cut }
{
    match cut {
        Some(cut) => Some(Feed {
            cut,
            volume: volume.percent(),
            outputs: outputs.fed(),
        }),
        None => None,
    }
}
