//! What is kept, as lines.
ghost use Rattle.std.specs.Prelude.{◌≡◌, IfOk, string_bytes};
ghost use Rattle.kept_state.specs.Texts as texts;

use crate::kept::{Kept, KeptEntry, KeptOptions, KeptOutput, KeptPlayback, KeptSong};
use mpd_text::quote;
use std::alloc::{AllocError, Global};

/// The lines that a player is told, so that it is as it was: volume and modes, each output, and each song of
/// the queue, the last one first, since each is put at the front. What is said of a song stands right behind
/// it in one command list with it: so a song that is refused takes its own lines with it, and no others.
pub fn state_text(alloc: Global, kept: &Kept) -> Result<String, AllocError>
    ensures { IfOk result (λ text. string_bytes text ≡ texts.state_text kept.now) }
{
    let options = option_text(alloc, &kept.options)?;
    let outputs = output_text(alloc, &kept.outputs)?;
    let after = entries_text(alloc, &kept.after)?;
    let song = song_text(alloc, &kept.song)?;
    let before = entries_text(alloc, &kept.before)?;
    format!(in alloc; "{options}{outputs}{after}{song}{before}")
}

fn option_text(alloc: Global, options: &KeptOptions) -> Result<String, AllocError>
    ensures { IfOk result (λ text. string_bytes text ≡ texts.option_text options.now) }
{
    let volume = line(alloc, "setvol", options.volume.as_str())?;
    let repeat = line(alloc, "repeat", options.repeat.as_str())?;
    let random = line(alloc, "random", options.random.as_str())?;
    let single = line(alloc, "single", options.single.as_str())?;
    let consume = line(alloc, "consume", options.consume.as_str())?;
    let crossfade = line(alloc, "crossfade", options.crossfade.as_str())?;
    format!(in alloc; "{volume}{repeat}{random}{single}{consume}{crossfade}")
}

/// A command with one argument.
pub(crate) fn line(alloc: Global, name: &str, argument: &str) -> Result<String, AllocError>
    ensures { IfOk result (λ text. string_bytes text ≡ texts.line name.now argument.now) }
{
    format!(in alloc; "{name} {argument}\n")
}

fn output_text(alloc: Global, outputs: &[KeptOutput]) -> Result<String, AllocError>
    ensures { IfOk result (λ text. string_bytes text ≡ texts.output_text outputs.now) }
{
    let mut text = String::new(alloc);
    for output in outputs {
        text.push_str(switch_text(alloc, *output)?.as_str())?;
    }
    Ok(text)
}

fn switch_text(alloc: Global, output: KeptOutput) -> Result<String, AllocError>
    ensures { IfOk result (λ text. string_bytes text ≡ texts.switch_text output) }
{
    let number = output.number;
    if output.is_on {
        format!(in alloc; "enableoutput {number}\n")
    } else {
        format!(in alloc; "disableoutput {number}\n")
    }
}

/// The songs, the last one first.
fn entries_text(alloc: Global, entries: &[KeptEntry]) -> Result<String, AllocError>
    ensures { IfOk result (λ text. string_bytes text ≡ texts.entries_text entries.now) }
{
    let mut text = String::new(alloc);
    let mut left = entries.len();
    while left > 0 {
        left -= 1;
        text.push_str(entry_text(alloc, &entries[left])?.as_str())?;
    }
    Ok(text)
}

fn entry_text(alloc: Global, entry: &KeptEntry) -> Result<String, AllocError>
    ensures { IfOk result (λ text. string_bytes text ≡ texts.entry_text entry.now) }
{
    let put = put_text(alloc, entry)?;
    if entry.priority == 0 {
        return Ok(put);
    }
    let priority = priority_text(alloc, entry.priority)?;
    list_text(alloc, put.as_str(), priority.as_str())
}

/// A line, and others that are told together with it.
fn list_text(alloc: Global, line: &str, others: &str) -> Result<String, AllocError>
    ensures { IfOk result (λ text. string_bytes text ≡ texts.list_text line.now others.now) }
{
    format!(in alloc; "command_list_begin\n{line}{others}command_list_end\n")
}

fn song_text(alloc: Global, song: &Option<KeptSong>) -> Result<String, AllocError>
    ensures { IfOk result (λ text. string_bytes text ≡ texts.song_text song.now) }
{
    match song {
        Some(song) => text_of_song(alloc, song),
        None => Ok(String::new(alloc)),
    }
}

fn text_of_song(alloc: Global, song: &KeptSong) -> Result<String, AllocError>
    ensures { IfOk result (λ text. string_bytes text ≡ texts.text_of_song song.now) }
{
    let put = put_text(alloc, &song.entry)?;
    let priority = priority_text(alloc, song.entry.priority)?;
    let playback = playback_text(alloc, &song.playback)?;
    let others = format!(in alloc; "{priority}{playback}")?;
    list_text(alloc, put.as_str(), others.as_str())
}

/// The song is put at the front of the queue.
fn put_text(alloc: Global, entry: &KeptEntry) -> Result<String, AllocError>
    ensures { IfOk result (λ text. string_bytes text ≡ texts.put_text entry.now.uri) }
{
    let uri = quote(alloc, entry.uri.as_str())?;
    format!(in alloc; "addid {uri} 0\n")
}

/// The priority of the song at the front; the one that a song has from the start is not said.
fn priority_text(alloc: Global, priority: u32) -> Result<String, AllocError>
    ensures { IfOk result (λ text. string_bytes text ≡ texts.priority_text priority) }
{
    if priority == 0 {
        return Ok(String::new(alloc));
    }
    format!(in alloc; "prio {priority} 0\n")
}

/// The song at the front is the current one.
fn playback_text(alloc: Global, playback: &KeptPlayback) -> Result<String, AllocError>
    ensures { IfOk result (λ text. string_bytes text ≡ texts.playback_text playback.now) }
{
    match playback {
        KeptPlayback::Stop => String::from_str(alloc, "play 0\nstop\n"),
        KeptPlayback::Play(elapsed) => line(alloc, "seek 0", elapsed.as_str()),
        KeptPlayback::Pause(elapsed) => {
            let seek = line(alloc, "seek 0", elapsed.as_str())?;
            format!(in alloc; "{seek}pause 1\n")
        }
    }
}
