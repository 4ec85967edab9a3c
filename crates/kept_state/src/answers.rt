//! What a player answered of itself.
ghost use Rattle.std.specs.Prelude.{◌≡◌, [], IfOk, OnOk};
ghost use Rattle.std.specs.Str.Lines.{lines};
ghost use Rattle.kept_state.specs.Heard.{HasHeard, Hears, Keeps, at_last, options_after, outputs_with, prioritized, songs_with, switched, text_after};
ghost use Rattle.kept_state.specs.Told.{IsTold, Shows, after_position, at_position, before_position, behind, number_or_zero, options_told, outputs_told, playback_for, shown_on};

use crate::kept::{Kept, KeptEntry, KeptOptions, KeptOutput, KeptPlayback, KeptSong};
use mpd_text::{Text, number};
use std::alloc::{AllocError, Global};

/// What was heard of the answers so far.
#[derive(Drop)]
pub(crate) struct Heard {
    options: KeptOptions,
    /// The position of the current song in the queue, where there is one.
    position: Option<u32>,
    /// The state and the elapsed seconds that `status` told.
    state: Text,
    elapsed: Text,
    outputs: Vec<KeptOutput>,
    /// The songs of the queue.
    songs: Vec<KeptEntry>,
}

/// What is kept of a player that answered so to `status`, `outputs` and `playlistinfo`. A line that says nothing of
/// it is passed over; what no line says is as a player has it that was just opened.
pub fn kept_of(alloc: Global, answers: &str) -> Result<Kept, AllocError>
    ensures { IfOk result (IsTold (lines answers.now)) }
{
    let mut heard = nothing_heard(alloc)?;
    'answers: for line in answers.lines() {
        hear(alloc, &mut heard, line)?;
    }
    kept_by(alloc, heard)
}

/// Whether the output of a number is on, by the answer to `outputs`; none where it is not there.
pub fn is_output_on(alloc: Global, answer: &str, number: usize) -> Result<Option<bool>, AllocError>
    ensures { IfOk result (λ is_on. is_on ≡ shown_on number (outputs_told (lines answer.now))) }
{
    let kept = kept_of(alloc, answer)?;
    Ok(shown(&kept.outputs, number))
}

fn shown(outputs: &[KeptOutput], number: usize) -> Option<bool>
    ensures { result ≡ shown_on number outputs.now }
{
    for output in outputs {
        if output.number as usize == number {
            return Some(output.is_on);
        }
    }
    None
}

pub(crate) fn nothing_heard(alloc: Global) -> Result<Heard, AllocError>
    ensures { IfOk result (HasHeard []) }
{
    Ok(Heard {
        options: first_options(alloc)?,
        position: None,
        state: Text::new(alloc, "stop")?,
        elapsed: Text::new(alloc, "0")?,
        outputs: Vec::new(alloc),
        songs: Vec::new(alloc),
    })
}

/// The options of a player that was just opened.
fn first_options(alloc: Global) -> Result<KeptOptions, AllocError>
    ensures { IfOk result (λ options. options ≡ options_told []) }
{
    Ok(KeptOptions {
        volume: Text::new(alloc, "100")?,
        repeat: Text::new(alloc, "0")?,
        random: Text::new(alloc, "0")?,
        single: Text::new(alloc, "0")?,
        consume: Text::new(alloc, "0")?,
        crossfade: Text::new(alloc, "0")?,
    })
}

pub(crate) fn hear(alloc: Global, heard: &mut Heard, line: &str) -> Result<(), AllocError>
    ensures { OnOk result (Hears line.now heard.old heard.new) }
{
    hear_options(alloc, &mut heard.options, line)?;
    hear_text(alloc, &mut heard.state, "state: ", line)?;
    hear_text(alloc, &mut heard.elapsed, "elapsed: ", line)?;
    if let Some(value) = value_behind("song: ", line) {
        heard.position = number(value);
    }
    hear_output(&mut heard.outputs, line)?;
    hear_song(alloc, &mut heard.songs, line)
}

fn hear_options(alloc: Global, options: &mut KeptOptions, line: &str) -> Result<(), AllocError>
    ensures { OnOk result (options.new ≡ options_after line.now options.old) }
{
    hear_text(alloc, &mut options.volume, "volume: ", line)?;
    hear_text(alloc, &mut options.repeat, "repeat: ", line)?;
    hear_text(alloc, &mut options.random, "random: ", line)?;
    hear_text(alloc, &mut options.single, "single: ", line)?;
    hear_text(alloc, &mut options.consume, "consume: ", line)?;
    hear_text(alloc, &mut options.crossfade, "xfade: ", line)
}

/// A text of which a line may tell another one.
pub(crate) fn hear_text(
    alloc: Global,
    text: &mut Text,
    key: &str,
    line: &str,
) -> Result<(), AllocError>
    ensures { OnOk result (text.new ≡ text_after key.now line.now text.old) }
{
    if let Some(value) = value_behind(key, line) {
        *text = Text::new(alloc, value)?;
    }
    Ok(())
}

fn hear_output(outputs: &mut Vec<KeptOutput>, line: &str) -> Result<(), AllocError>
    ensures { OnOk result (outputs.new.items ≡ outputs_with line.now outputs.old.items) }
{
    if let Some(value) = value_behind("outputid: ", line) {
        outputs.push(KeptOutput {
            number: number_or_0(value),
            is_on: false,
        })?;
    } else if let Some(value) = value_behind("outputenabled: ", line) {
        switch_last(outputs, value == "1");
    }
    Ok(())
}

fn switch_last(outputs: &mut Vec<KeptOutput>, is_on: bool)
    ensures { outputs.new.items ≡ at_last (switched is_on) outputs.old.items }
{
    if let Some(output) = outputs.last_mut() {
        output.is_on = is_on;
    }
}

fn hear_song(alloc: Global, songs: &mut Vec<KeptEntry>, line: &str) -> Result<(), AllocError>
    ensures { OnOk result (songs.new.items ≡ songs_with line.now songs.old.items) }
{
    if let Some(value) = value_behind("file: ", line) {
        songs.push(KeptEntry {
            uri: Text::new(alloc, value)?,
            priority: 0,
        })?;
    } else if let Some(value) = value_behind("Prio: ", line) {
        prioritize_last(songs, number_or_0(value));
    }
    Ok(())
}

fn prioritize_last(songs: &mut Vec<KeptEntry>, priority: u32)
    ensures { songs.new.items ≡ at_last (prioritized priority) songs.old.items }
{
    if let Some(entry) = songs.last_mut() {
        entry.priority = priority;
    }
}

/// What stands in a line behind a key.
pub(crate) fn value_behind<'l>(key: &str, line: &'l str) -> Option<&'l str>
    ensures { Shows (behind key.now line.now) result }
{
    line.strip_prefix(key)
}

fn number_or_0(text: &str) -> u32
    ensures { result ≡ number_or_zero text.now }
{
    number(text).unwrap_or(0)
}

/// What is kept by all that was heard.
pub(crate) fn kept_by(alloc: Global, heard: Heard) -> Result<Kept, AllocError>
    ensures { IfOk result (Keeps heard) }
{
    let Heard {
        options,
        position,
        state,
        elapsed,
        outputs,
        songs,
    } = heard;
    let playback = playback_of(state.as_str(), elapsed);
    let Around { before, at, after } = split_at_position(alloc, songs, position)?;
    let song = match at {
        Some(entry) => Some(KeptSong { entry, playback }),
        None => None,
    };
    Ok(Kept {
        options,
        outputs,
        before,
        song,
        after,
    })
}

fn playback_of(state: &str, elapsed: Text) -> KeptPlayback
    ensures { result ≡ playback_for state.now elapsed }
{
    match state {
        "play" => KeptPlayback::Play(elapsed),
        "pause" => KeptPlayback::Pause(elapsed),
        _ => KeptPlayback::Stop,
    }
}

/// The songs before a position, the one at it, and those after it.
#[derive(Drop)]
struct Around {
    before: Vec<KeptEntry>,
    at: Option<KeptEntry>,
    after: Vec<KeptEntry>,
}

/// The songs around a position; without a position, or behind the last one, all of them are before it.
fn split_at_position(
    alloc: Global,
    songs: Vec<KeptEntry>,
    position: Option<u32>,
) -> Result<Around, AllocError>
    ensures before { IfOk result (λ around. around.before.items ≡ before_position position songs.items) }
    ensures at { IfOk result (λ around. around.at ≡ at_position position songs.items) }
    ensures after { IfOk result (λ around. around.after.items ≡ after_position position songs.items) }
{
    let mut before = songs;
    if let Some(position) = position {
        let position = position as usize;
        if position < before.len() {
            let after = before.split_off(position + 1)?;
            let at = before.pop();
            return Ok(Around { before, at, after });
        }
    }
    Ok(Around {
        before,
        at: None,
        after: Vec::new(alloc),
    })
}
