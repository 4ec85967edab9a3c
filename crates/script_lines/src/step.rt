//! Steps of a script.
ghost use Rattle.std.specs.Prelude.{◌≡◌, IfOk, map, string_bytes, Some, true};
ghost use Rattle.mpd_text.specs.Lines.Cut.{HasNoNewline};
ghost use Rattle.script_lines.specs.Steps.{is_uri as is_uri_lem, song_with as song_with_lem, song_of, limit_of, gone_of, scanned_of, window_of, want_of, have_of, failed_of, job_step_of, named_of, turn_of, turn_told as turn_told_lem, turn_as as turn_as_lem, flag_of, player_step_of, step_of_words, step_of};

use crate::cut::has;
use crate::limit::{LimitName, number_within};
use crate::tag::{are_tags, tags_of};
use mpd_text::{SharedText, Song, WordsFault, number, words};
use std::alloc::{AllocError, Global};

/// The greatest number of a client.
pub const MAX_CLIENT: u32 = 9;

/// The greatest length of a song's URI, in bytes.
pub const MAX_URI: usize = 1_024;

/// A step of the decoder in a partition.
#[derive(Clone, Copy, PartialEq, Eq)]
pub enum JobStep {
    /// The partition is asked for a job.
    Want,
    /// Of the job with the first number, so many frames are there.
    Have(u32, u32),
    /// The song of the job with this number cannot be read, or, where true, that of the partner that is mixed
    /// in.
    Failed(u32, bool),
}

/// A step that comes before the first line of a client, beside them, or after it.
#[derive(Drop)]
pub enum Step {
    /// A song for the library: its URI as written, its tags in the order of answers, its frames.
    Song(Song),
    /// A limit and its value, from 1 to its greatest.
    Limit(LimitName, u32),
    /// A client, from 1 to 9, leaves.
    Gone(u32),
    /// The scan that runs ends, with the songs so far.
    Scanned,
    /// A step of the decoder in the first partition.
    Job(JobStep),
    /// The same in the partition of this name.
    JobIn(SharedText, JobStep),
    /// A turn of output 0: how many frames it wrote, how many it discarded, and whether it failed.
    Turn(u32, u32, bool),
    /// How many events the window of the history has, and how many there were in all.
    Window,
}

impl Step {
    /// The step that follows a step's head; `None` where it is bad: its words cannot be read, the first one
    /// names no step, or the others are not what it takes. A song may have the tags of the base profile, or all
    /// where the everyday profile is on. `Err` where memory runs out.
    #[tactic(auto, unfolding(crate::specs::Steps::step_of))]
    pub fn of_line(alloc: Global, everyday: bool, rest: &str) -> Result<Option<Step>, AllocError>
        ensures { IfOk result (λ step. step ≡ step_of everyday rest.now) }
    {
        match words(alloc, rest) {
            Ok(words) => Step::of_words(alloc, everyday, words.as_slice()),
            Err(WordsFault::NoMemory) => Err(AllocError),
            Err(_) => Ok(None),
        }
    }

    fn of_words(alloc: Global, everyday: bool, words: &[String]) -> Result<Option<Step>, AllocError>
        ensures { IfOk result (λ step. step ≡ step_of_words everyday (map string_bytes words.now)) }
    {
        let Some((word, arguments)) = words.split_first() else {
            return Ok(None);
        };
        if word.as_str() == "song" {
            song(alloc, everyday, arguments)
        } else if word.as_str() == "limit" {
            Ok(limit(arguments))
        } else if word.as_str() == "gone" {
            Ok(gone(arguments))
        } else if word.as_str() == "scanned" {
            Ok(scanned(arguments))
        } else if word.as_str() == "in" {
            named(alloc, arguments)
        } else {
            Ok(player_step(word.as_str(), arguments))
        }
    }
}

fn song(alloc: Global, everyday: bool, arguments: &[String]) -> Result<Option<Step>, AllocError>
    ensures { IfOk result (λ step. step ≡ song_of everyday (map string_bytes arguments.now)) }
{
    let [uri, frames, words @ ..] = arguments else {
        return Ok(None);
    };
    match number_within(frames.as_str(), u32::MAX) {
        Some(frames) => song_with(alloc, everyday, uri.as_str(), frames, words),
        None => Ok(None),
    }
}

fn song_with(
    alloc: Global,
    everyday: bool,
    uri: &str,
    frames: u32,
    words: &[String],
) -> Result<Option<Step>, AllocError>
    ensures { IfOk result (λ step. step ≡ song_with_lem everyday uri.now (Some frames) (map string_bytes words.now)) }
{
    if !is_uri(uri) || !are_tags(everyday, words) {
        return Ok(None);
    }
    let tags = tags_of(alloc, words)?;
    let uri = String::from_str(alloc, uri)?;
    match Song::new(uri, tags, u64::from(frames)) {
        Some(song) => Ok(Some(Step::Song(song))),
        None => Ok(None),
    }
}

#[tactic(auto, using(crate::proofs::Absent::absent), unfolding(crate::specs::Steps::is_uri))]
fn is_uri(uri: &str) -> bool
    ensures exact { result ≡ is_uri_lem uri.now }
    ensures no_newline { result ≡ true → HasNoNewline uri.now }
{
    !uri.is_empty() && uri.len() <= MAX_URI && !has(uri, '\n')
}

fn limit(arguments: &[String]) -> Option<Step>
    ensures { result ≡ limit_of (map string_bytes arguments.now) }
{
    let [name, value] = arguments else {
        return None;
    };
    let name = LimitName::of_word(name.as_str())?;
    let value = number_within(value.as_str(), name.greatest())?;
    Some(Step::Limit(name, value))
}

fn gone(arguments: &[String]) -> Option<Step>
    ensures { result ≡ gone_of (map string_bytes arguments.now) }
{
    let [number] = arguments else {
        return None;
    };
    let number = number_within(number.as_str(), MAX_CLIENT)?;
    Some(Step::Gone(number))
}

fn scanned(arguments: &[String]) -> Option<Step>
    ensures { result ≡ scanned_of (map string_bytes arguments.now) }
{
    if arguments.is_empty() {
        Some(Step::Scanned)
    } else {
        None
    }
}

fn player_step(word: &str, arguments: &[String]) -> Option<Step>
    ensures { result ≡ player_step_of word.now (map string_bytes arguments.now) }
{
    if word == "window" {
        window(arguments)
    } else if word == "turn" {
        turn(arguments)
    } else {
        Some(Step::Job(job_step(word, arguments)?))
    }
}

/// A step of the decoder in the partition that its first word names.
fn named(alloc: Global, arguments: &[String]) -> Result<Option<Step>, AllocError>
    ensures { IfOk result (λ step. step ≡ named_of (map string_bytes arguments.now)) }
{
    let [name, word, words @ ..] = arguments else {
        return Ok(None);
    };
    let Some(step) = job_step(word.as_str(), words) else {
        return Ok(None);
    };
    let name = SharedText::new(alloc, name.as_str())?;
    Ok(Some(Step::JobIn(name, step)))
}

fn job_step(word: &str, arguments: &[String]) -> Option<JobStep>
    ensures { result ≡ job_step_of word.now (map string_bytes arguments.now) }
{
    if word == "want" {
        want(arguments)
    } else if word == "have" {
        have(arguments)
    } else if word == "failed" {
        failed(arguments)
    } else {
        None
    }
}

fn window(arguments: &[String]) -> Option<Step>
    ensures { result ≡ window_of (map string_bytes arguments.now) }
{
    match arguments {
        [] => Some(Step::Window),
        _ => None,
    }
}

fn want(arguments: &[String]) -> Option<JobStep>
    ensures { result ≡ want_of (map string_bytes arguments.now) }
{
    match arguments {
        [] => Some(JobStep::Want),
        _ => None,
    }
}

fn have(arguments: &[String]) -> Option<JobStep>
    ensures { result ≡ have_of (map string_bytes arguments.now) }
{
    let [job, count] = arguments else {
        return None;
    };
    let job = number(job.as_str())?;
    let count = number(count.as_str())?;
    Some(JobStep::Have(job, count))
}

fn failed(arguments: &[String]) -> Option<JobStep>
    ensures { result ≡ failed_of (map string_bytes arguments.now) }
{
    let [job, words @ ..] = arguments else {
        return None;
    };
    let job = number(job.as_str())?;
    let of_partner = flag(words, "partner")?;
    Some(JobStep::Failed(job, of_partner))
}

fn turn(arguments: &[String]) -> Option<Step>
    ensures { result ≡ turn_of (map string_bytes arguments.now) }
{
    let [output, words @ ..] = arguments else {
        return None;
    };
    match number(output.as_str()) {
        Some(0) => turn_told(words),
        _ => None,
    }
}

fn turn_told(words: &[String]) -> Option<Step>
    ensures { result ≡ turn_told_lem (map string_bytes words.now) }
{
    let [written, discarded, words @ ..] = words else {
        return None;
    };
    let written = number(written.as_str())?;
    let discarded = number(discarded.as_str())?;
    turn_as(written, discarded, flag(words, "failed"))
}

fn turn_as(written: u32, discarded: u32, failed: Option<bool>) -> Option<Step>
    ensures { result ≡ turn_as_lem written discarded failed }
{
    Some(Step::Turn(written, discarded, failed?))
}

/// Whether a flag is set, which is this one word or none; `None` where the words are others.
fn flag(words: &[String], flag: &str) -> Option<bool>
    ensures { result ≡ flag_of flag.now (map string_bytes words.now) }
{
    match words {
        [] => Some(false),
        [word] if word.as_str() == flag => Some(true),
        _ => None,
    }
}
