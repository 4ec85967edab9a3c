//! The commands that ask how the player is, and what changed (MPD protocol reference, Querying MPD's status);
//! what a client asks that changes the client alone.
ghost use Rattle.std.specs.Prelude.{◌≡◌, IfOk, OnOk, ◌++◌, codes, Some, option_map};
ghost use Rattle.idle_notes.specs.Notes.{waits, notice_of};
ghost use Rattle.std.specs.Option.{option_copied};
ghost use Rattle.status_commands.specs.Status.{ToWait, ToGoOn, audio_line, consume_text as consume_text_lem, current_duration, current_lines, current_time, digit as digit_lem, duration_line, elapsed_line, error_line, fade_line, idles, last_lines, mode_lines, next_lines_of, next_position_lines, progress_lines, queue_lines, queue_lines_of, result_of, resumes, scan_line, shown_next, single_text as single_text_lem, song_position_lines, state_text as state_text_lem, status as status_lem, time_line, whole_seconds as whole_seconds_lem, wish_of, wished};
ghost use Rattle.mpd_text.specs.declared.answers.answer.ErrorNumber.TheVariants.{Argument};
ghost use Rattle.transitions.specs.Answers.{Responds, refuses_command, stays};
ghost use Rattle.mpd_command.specs.declared.command.Command.TheVariants.{Connection};
ghost use Rattle.transitions.specs.Transitions.{IsDecidedBy};
ghost use Rattle.player_state.specs.Fits.{Fits};

use crate::stats::stats;
use idle_notes::Subsystems;
use known_tags::TagSet;
use mpd_command::{Command, ConnectionCommand, StatusCommand};
use mpd_text::{Answer, ErrorNumber};
use play_order::{Consume, Modes, Single};
use player_core::Playback;
use player_state::{Client, Library, Part};
use queue_commands::playback::{clear_error, current_song, is_stopped};
use song_db::{Rate, duration, length_of, rounded};
use std::alloc::{AllocError, Global};
use transitions::{
    Asked, ListPlace, Move, Next, Response, Transition, disconnects, refuses, succeeds_and, tells,
};

/// The rows: what each command shows. By `idle` and `noidle` a client waits, so here they make nothing of the
/// player.
#[rattlefmt::skip]
#[tactic(auto, unfolding(crate::specs::Status::result_of))]
pub fn run(alloc: Global, asked: Asked, part: &Part, library: &Library, command: &StatusCommand) -> Result<Transition, AllocError>
    ensures transition { IsDecidedBy result (result_of asked part.now library.now command.now) }
    ensures fits { IfOk result (λ transition. Fits part.now transition.effect) }
{
    match command {
        StatusCommand::ClearError => clear_error(alloc, asked),
        StatusCommand::CurrentSong => current_song(alloc, asked, part, library),
        StatusCommand::Idle(_) => Ok(Transition::only(disconnects(alloc))),
        StatusCommand::NoIdle => Ok(Transition::only(disconnects(alloc))),
        StatusCommand::Stats(uptime) => stats(alloc, asked, part, library, *uptime),
        StatusCommand::Status(everyday) => status(alloc, asked, part, library, *everyday),
    }
}

fn status(
    alloc: Global,
    asked: Asked,
    part: &Part,
    library: &Library,
    everyday: bool,
) -> Result<Transition, AllocError>
    ensures { IsDecidedBy result (status_lem asked part.now library.now everyday) }
{
    let mut lines = Answer::new(alloc);
    push_modes(&mut lines, part.volume.percent(), part.player.modes())?;
    push_queue(&mut lines, part)?;
    push_current(&mut lines, part)?;
    push_next(&mut lines, part)?;
    push_progress(alloc, &mut lines, part, &library.rate, everyday)?;
    push_last(&mut lines, part, library)?;
    Transition::shows(asked, lines)
}

#[tactic(auto, unfolding(crate::specs::Status::mode_lines))]
fn push_modes(lines: &mut Answer, volume: u8, modes: Modes) -> Result<(), AllocError>
    ensures { OnOk result (lines.new ≡ lines.old ++ mode_lines volume modes) }
{
    lines.pair("volume", volume)?;
    lines.pair("repeat", digit(modes.repeat))?;
    lines.pair("random", digit(modes.random))?;
    lines.pair("single", single_text(modes.single))?;
    lines.pair("consume", consume_text(modes.consume))
}

fn single_text(single: Single) -> &'static str
    ensures { result.now ≡ single_text_lem single }
{
    match single {
        Single::Off => "0",
        Single::On => "1",
        Single::Oneshot => "oneshot",
    }
}

fn consume_text(consume: Consume) -> &'static str
    ensures { result.now ≡ consume_text_lem consume }
{
    match consume {
        Consume::Off => "0",
        Consume::On => "1",
        Consume::Oneshot => "oneshot",
    }
}

fn push_queue(lines: &mut Answer, part: &Part) -> Result<(), AllocError>
    ensures { OnOk result (lines.new ≡ lines.old ++ queue_lines_of part.now) }
{
    push_queue_lines(
        lines,
        part.name.as_str(),
        part.queue.version(),
        part.queue.len(),
        part.player.playback(),
    )
}

/// The name of the partition, the version and length of its queue, and whether it plays.
#[tactic(auto, unfolding(crate::specs::Status::queue_lines))]
fn push_queue_lines(
    lines: &mut Answer,
    name: &str,
    version: u32,
    length: usize,
    playback: Playback,
) -> Result<(), AllocError>
    ensures { OnOk result (lines.new ≡ lines.old ++ queue_lines name.now version length playback) }
{
    lines.pair("partition", name)?;
    lines.pair("playlist", version)?;
    lines.pair("playlistlength", length)?;
    lines.pair("state", state_text(playback))
}

fn state_text(playback: Playback) -> &'static str
    ensures { result.now ≡ state_text_lem playback }
{
    match playback {
        Playback::Stop => "stop",
        Playback::Play => "play",
        Playback::Pause => "pause",
    }
}

/// The current song, if there is one.
fn push_current(lines: &mut Answer, part: &Part) -> Result<(), AllocError>
    ensures { OnOk result (lines.new ≡ lines.old ++ current_lines part.now.queue part.now.player.current) }
{
    let Some(id) = part.player.current() else {
        return Ok(());
    };
    match part.queue.position_of(id) {
        Some(position) => push_song_position(lines, position, id),
        None => Ok(()),
    }
}

#[tactic(auto, unfolding(crate::specs::Status::song_position_lines))]
fn push_song_position(lines: &mut Answer, position: usize, id: u32) -> Result<(), AllocError>
    ensures { OnOk result (lines.new ≡ lines.old ++ song_position_lines position id) }
{
    lines.pair("song", position)?;
    lines.pair("songid", id)
}

/// The song that the natural end of the current one would start, if there is one.
fn push_next(lines: &mut Answer, part: &Part) -> Result<(), AllocError>
    ensures { OnOk result (lines.new ≡ lines.old ++ next_lines_of part.now) }
{
    let Some(entry) = part.player.peek(&part.queue) else {
        return Ok(());
    };
    match part.queue.position_of(entry.id) {
        Some(position) => push_next_position(lines, position, entry.id),
        None => Ok(()),
    }
}

#[tactic(auto, unfolding(crate::specs::Status::next_position_lines))]
fn push_next_position(lines: &mut Answer, position: usize, id: u32) -> Result<(), AllocError>
    ensures { OnOk result (lines.new ≡ lines.old ++ next_position_lines position id) }
{
    lines.pair("nextsong", position)?;
    lines.pair("nextsongid", id)
}

/// How far the current song is, how long it is, and what its frames are, where the player does not stand
/// still.
fn push_progress(
    alloc: Global,
    lines: &mut Answer,
    part: &Part,
    rate: &Rate,
    everyday: bool,
) -> Result<(), AllocError>
    ensures { OnOk result (lines.new ≡ lines.old ++ progress_lines rate.now part.now everyday) }
{
    if is_stopped(part) {
        return Ok(());
    }
    push_time(alloc, lines, part, rate, everyday)?;
    push_elapsed(alloc, lines, part.player.offset(), rate)?;
    push_duration(alloc, lines, part, rate)?;
    push_audio(alloc, lines, rate)
}

/// In the everyday profile, how far the current song is and how long, if it is in the queue.
fn push_time(
    alloc: Global,
    lines: &mut Answer,
    part: &Part,
    rate: &Rate,
    everyday: bool,
) -> Result<(), AllocError>
    ensures { OnOk result (lines.new ≡ lines.old ++ current_time rate.now part.now everyday) }
{
    if !everyday {
        return Ok(());
    }
    match part.player.current_entry(&part.queue) {
        Some(entry) => {
            let frames = entry.song.song().frames();
            push_time_line(alloc, lines, part.player.offset(), frames, rate)
        }
        None => Ok(()),
    }
}

#[tactic(auto, unfolding(crate::specs::Status::time_line))]
fn push_time_line(
    alloc: Global,
    lines: &mut Answer,
    offset: u64,
    frames: u64,
    rate: &Rate,
) -> Result<(), AllocError>
    ensures { OnOk result (lines.new ≡ lines.old ++ time_line rate.now offset frames) }
{
    let elapsed = whole_seconds(offset, rate);
    let length = whole_seconds(frames, rate);
    let text = format!(in alloc; "{elapsed}:{length}")?;
    lines.pair("time", text.as_str())
}

/// How long so many frames are in whole seconds, a half up.
fn whole_seconds(frames: u64, rate: &Rate) -> u128
    ensures { result ≡ whole_seconds_lem rate.now frames }
{
    rounded(length_of(frames, rate))
}

#[tactic(auto, unfolding(crate::specs::Status::elapsed_line))]
fn push_elapsed(
    alloc: Global,
    lines: &mut Answer,
    offset: u64,
    rate: &Rate,
) -> Result<(), AllocError>
    ensures { OnOk result (lines.new ≡ lines.old ++ elapsed_line rate.now offset) }
{
    let text = duration(alloc, length_of(offset, rate))?;
    lines.pair("elapsed", text.as_str())
}

/// How long the current song is, if it is in the queue.
fn push_duration(
    alloc: Global,
    lines: &mut Answer,
    part: &Part,
    rate: &Rate,
) -> Result<(), AllocError>
    ensures { OnOk result (lines.new ≡ lines.old ++ current_duration rate.now part.now) }
{
    match part.player.current_entry(&part.queue) {
        Some(entry) => push_duration_line(alloc, lines, entry.song.song().frames(), rate),
        None => Ok(()),
    }
}

#[tactic(auto, unfolding(crate::specs::Status::duration_line))]
fn push_duration_line(
    alloc: Global,
    lines: &mut Answer,
    frames: u64,
    rate: &Rate,
) -> Result<(), AllocError>
    ensures { OnOk result (lines.new ≡ lines.old ++ duration_line rate.now frames) }
{
    let text = duration(alloc, length_of(frames, rate))?;
    lines.pair("duration", text.as_str())
}

#[tactic(auto, unfolding(crate::specs::Status::audio_line))]
fn push_audio(alloc: Global, lines: &mut Answer, rate: &Rate) -> Result<(), AllocError>
    ensures { OnOk result (lines.new ≡ lines.old ++ audio_line rate.now) }
{
    let frames = rate.frames();
    let text = format!(in alloc; "{frames}:16:2")?;
    lines.pair("audio", text.as_str())
}

/// The seconds of fades, the scan that runs, and why the player stopped, each where it is there.
fn push_last(lines: &mut Answer, part: &Part, library: &Library) -> Result<(), AllocError>
    ensures { OnOk result (lines.new ≡ lines.old ++ last_lines part.now library.now) }
{
    push_fade(lines, part.player.crossfade())?;
    push_scan(lines, library.scan.running())?;
    push_error(lines, part.player.error())
}

/// Why the player stopped, if that was an error.
fn push_error(lines: &mut Answer, error: Option<&str>) -> Result<(), AllocError>
    ensures { OnOk result (lines.new ≡ lines.old ++ error_line (option_copied error.entry)) }
{
    match error {
        Some(text) => lines.pair("error", text),
        None => Ok(()),
    }
}

/// Shows the seconds of fades, unless there are none.
fn push_fade(lines: &mut Answer, seconds: u32) -> Result<(), AllocError>
    ensures { OnOk result (lines.new ≡ lines.old ++ fade_line seconds) }
{
    if seconds == 0 {
        return Ok(());
    }
    lines.pair("xfade", seconds)
}

/// Shows the number of the scan that runs.
fn push_scan(lines: &mut Answer, number: Option<u64>) -> Result<(), AllocError>
    ensures { OnOk result (lines.new ≡ lines.old ++ scan_line number) }
{
    match number {
        Some(number) => lines.pair("updating_db", number),
        None => Ok(()),
    }
}

/// A flag as it is sent.
pub fn digit(on: bool) -> u8
    ensures { result ≡ digit_lem on }
{
    if on { 1 } else { 0 }
}

/// What a client is answered that asks to wait, to wait no more, or to be shown other tags; none, where it
/// asks for something else.
pub fn wish(
    alloc: Global,
    asked: Asked,
    client: Client,
    command: &Command,
) -> Result<Option<Response>, AllocError>
    ensures { IfOk result (λ response. response ≡ option_map (wished asked client) (wish_of command.now)) }
{
    match command {
        Command::Status(StatusCommand::Idle(named)) => {
            Ok(Some(idle(alloc, asked, client, *named)?))
        }
        Command::Status(StatusCommand::NoIdle) => Ok(Some(no_idle(alloc, asked, client)?)),
        Command::Connection(command) => choose_tags(alloc, asked, client, command),
        _ => Ok(None),
    }
}

/// Shows a client other tags from now on, where it asks for that.
fn choose_tags(
    alloc: Global,
    asked: Asked,
    client: Client,
    command: &ConnectionCommand,
) -> Result<Option<Response>, AllocError>
    ensures { IfOk result (λ response. response ≡ option_map (wished asked client) (wish_of (Connection command.now))) }
{
    match command {
        ConnectionCommand::AllTags => show_next(alloc, asked, TagSet::all()),
        ConnectionCommand::NoTags => show_next(alloc, asked, TagSet::empty()),
        ConnectionCommand::WithTags(named) => {
            show_next(alloc, asked, asked.tags.enable(named.items()))
        }
        ConnectionCommand::WithoutTags(named) => {
            show_next(alloc, asked, asked.tags.disable(named.items()))
        }
        _ => Ok(None),
    }
}

/// The client is shown these tags from now on.
fn show_next(alloc: Global, asked: Asked, tags: TagSet) -> Result<Option<Response>, AllocError>
    ensures { IfOk result (λ response. response ≡ Some (shown_next asked tags)) }
{
    Ok(Some(succeeds_and(alloc, asked, Move::Show(tags))?))
}

/// Tells a client at once of what changed already, or lets it wait.
fn idle(
    alloc: Global,
    asked: Asked,
    client: Client,
    named: Subsystems,
) -> Result<Response, AllocError>
    ensures { Responds result (wished asked client (ToWait named)) }
{
    match asked.list_place {
        ListPlace::Alone => wait_for(alloc, client, named),
        ListPlace::InList(_, _) => not_in_list(alloc, asked),
    }
}

fn wait_for(alloc: Global, client: Client, named: Subsystems) -> Result<Response, AllocError>
    ensures { Responds result (idles named (notice_of (waits named client.pending))) }
{
    let mut pending = client.pending;
    let Some(names) = pending.wait(named) else {
        let nothing = String::new(alloc);
        return Ok(Response::of(nothing, Next::Waits, false, Move::Wait(named)));
    };
    let mut answer = Answer::new(alloc);
    names.push_lines(&mut answer)?;
    answer.ok()?;
    Ok(tells(answer.into_string(), Move::Learn))
}

fn no_idle(alloc: Global, asked: Asked, client: Client) -> Result<Response, AllocError>
    ensures { Responds result (wished asked client ToGoOn) }
{
    match asked.list_place {
        ListPlace::Alone => go_on(alloc, client),
        ListPlace::InList(_, _) => not_in_list(alloc, asked),
    }
}

fn go_on(alloc: Global, client: Client) -> Result<Response, AllocError>
    ensures { Responds result (resumes client) }
{
    if !client.pending.is_waiting() {
        return Ok(tells(String::new(alloc), Move::Stay));
    }
    Ok(tells(String::from_str(alloc, "OK\n")?, Move::Resume))
}

fn not_in_list(alloc: Global, asked: Asked) -> Result<Response, AllocError>
    ensures { Responds result (stays (refuses_command asked Argument (codes "not allowed in a list"))) }
{
    refuses(alloc, asked, ErrorNumber::Argument, "not allowed in a list")
}
