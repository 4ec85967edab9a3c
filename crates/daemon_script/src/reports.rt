//! The lines that a player's reports to the decoder, an output or the scans print.
ghost use Rattle.std.specs.Prelude.{◌≡◌, ◌++◌, string_bytes, IfOk, OnOk};
ghost use Rattle.daemon_script.specs.Reports.{done_text, fade_text as fade_text_lem, feed_text, frames_text as frames_text_lem, had_text, job_text, live_text, moves_text as moves_text_lem, part_text as part_text_lem, report_text, due_job_text, window_text};

use player_core::{FadePart, Job};
use player_state::{Feed, Heard, Report};
use status_commands::status::digit;
use std::alloc::{AllocError, Global};

/// Appends what an event tells that comes from no client: `! ok` where it tells nothing.
pub(crate) fn push_report(
    alloc: Global,
    shown: &mut Vec<u8>,
    report: Report,
) -> Result<(), AllocError>
    ensures { OnOk result (shown.new.items ≡ shown.old.items ++ report_text report) }
{
    match report {
        Report::Nothing => push_done(shown, true),
        Report::ToScan(_) => Ok(()),
        Report::ScanEnded(ended) => push_done(shown, ended),
        Report::ToDecode(job) => push_due_job(alloc, shown, job),
        Report::ToFeed(feed) => push_had(alloc, shown, feed),
        Report::ToPlay(heard) => push_live(alloc, shown, heard),
        Report::Ended => shown.extend_from_slice(b"! ended\n"),
    }
}

fn push_done(shown: &mut Vec<u8>, done: bool) -> Result<(), AllocError>
    ensures { OnOk result (shown.new.items ≡ shown.old.items ++ done_text done) }
{
    if done {
        shown.extend_from_slice(b"! ok\n")
    } else {
        shown.extend_from_slice(b"! none\n")
    }
}

fn push_due_job(alloc: Global, shown: &mut Vec<u8>, job: Option<Job>) -> Result<(), AllocError>
    ensures { OnOk result (shown.new.items ≡ shown.old.items ++ due_job_text job) }
{
    match job {
        Some(job) => push_job(alloc, shown, job),
        None => push_done(shown, false),
    }
}

fn push_had(alloc: Global, shown: &mut Vec<u8>, feed: Option<Feed>) -> Result<(), AllocError>
    ensures { OnOk result (shown.new.items ≡ shown.old.items ++ had_text feed) }
{
    match feed {
        Some(feed) => push_feed(alloc, shown, feed),
        None => shown.extend_from_slice(b"! stale\n"),
    }
}

#[tactic(auto, unfolding(crate::specs::Reports::job_text))]
fn push_job(alloc: Global, shown: &mut Vec<u8>, job: Job) -> Result<(), AllocError>
    ensures { OnOk result (shown.new.items ≡ shown.old.items ++ job_text job) }
{
    let frames = frames_text(alloc, job)?;
    let fade = fade_text(alloc, job.fade)?;
    let line = format!(in alloc; "! job {}{}\n", frames.as_str(), fade.as_str())?;
    shown.extend_from_slice(line.as_bytes())
}

#[tactic(auto, unfolding(crate::specs::Reports::frames_text))]
fn frames_text(alloc: Global, job: Job) -> Result<String, AllocError>
    ensures { IfOk result (λ text. string_bytes text ≡ frames_text_lem job) }
{
    let Job {
        number,
        id,
        from,
        count,
        ..
    } = job;
    let text = format!(in alloc; "{number} {id} {from} {count}")?;
    Ok(text)
}

/// What follows the frames of a job that has a part of a fade.
fn fade_text(alloc: Global, fade: Option<FadePart>) -> Result<String, AllocError>
    ensures { IfOk result (λ text. string_bytes text ≡ fade_text_lem fade) }
{
    match fade {
        Some(part) => part_text(alloc, part),
        None => Ok(String::new(alloc)),
    }
}

#[tactic(auto, unfolding(crate::specs::Reports::part_text))]
fn part_text(alloc: Global, part: FadePart) -> Result<String, AllocError>
    ensures { IfOk result (λ text. string_bytes text ≡ part_text_lem part) }
{
    let FadePart {
        partner,
        index,
        len,
    } = part;
    let text = format!(in alloc; " fade {partner} {index} {len}")?;
    Ok(text)
}

#[tactic(auto, unfolding(crate::specs::Reports::feed_text))]
fn push_feed(alloc: Global, shown: &mut Vec<u8>, feed: Feed) -> Result<(), AllocError>
    ensures { OnOk result (shown.new.items ≡ shown.old.items ++ feed_text feed) }
{
    let Feed { cut, volume, .. } = feed;
    let line = format!(in alloc; "! feed {cut} {volume}\n")?;
    shown.extend_from_slice(line.as_bytes())
}

#[tactic(auto, unfolding(crate::specs::Reports::live_text))]
fn push_live(alloc: Global, shown: &mut Vec<u8>, heard: Heard) -> Result<(), AllocError>
    ensures { OnOk result (shown.new.items ≡ shown.old.items ++ live_text heard) }
{
    let cut = heard.live.cut;
    let enabled = digit(heard.live.enabled);
    let paused = digit(heard.live.paused);
    let moved = moves_text(alloc, heard.moves)?;
    let line = format!(in alloc; "! live {cut} {enabled} {paused}{}\n", moved.as_str())?;
    shown.extend_from_slice(line.as_bytes())
}

/// How often an output was moved, where it was.
fn moves_text(alloc: Global, moves: u64) -> Result<String, AllocError>
    ensures { IfOk result (λ text. string_bytes text ≡ moves_text_lem moves) }
{
    if moves == 0 {
        return Ok(String::new(alloc));
    }
    let text = format!(in alloc; " moved {moves}")?;
    Ok(text)
}

/// Appends how many events the window of the history has, and how many there were in all.
#[tactic(auto, unfolding(crate::specs::Reports::window_text))]
pub(crate) fn push_window(
    alloc: Global,
    shown: &mut Vec<u8>,
    window: usize,
    own: u64,
) -> Result<(), AllocError>
    ensures { OnOk result (shown.new.items ≡ shown.old.items ++ window_text window own) }
{
    let line = format!(in alloc; "! window {window} {own}\n")?;
    shown.extend_from_slice(line.as_bytes())
}
