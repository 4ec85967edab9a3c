//! What command lists make clients hear.
ghost use Rattle.std.specs.Prelude.{◌≡◌, ◌+◌, ◌++◌, ℕ, List, OnErr, OnOk, length};
ghost use Rattle.partition.specs.Lists.{answers_of, counted};
ghost use Rattle.std.specs.List.{list_any};
ghost use Rattle.player_events.specs.Events.{ends_list};

use crate::partition::PartitionFault;
use mpd_text::{Answer, ErrorNumber};
use player_events::Outcome;
use std::alloc::{AllocError, Global};
use std::marker::Model;
use transitions::Next;

/// What a command list that ran makes clients hear: the outcome of each command, in order.
#[derive(Drop)]
pub struct ListOutcome {
    pub(crate) outcomes: Vec<Outcome>,
}

impl Model for ListOutcome {
    ghost use Rattle.std.specs.Prelude.{List};
    ghost use Rattle.player_events.specs.Outcomes.{OutcomeData};

    ghost Value = { List OutcomeData };

    ghost view = { λ l. l.outcomes.items };
}

impl ListOutcome {
    ghost use Rattle.partition.specs.Lists.{list_text, next_after, text_with};

    /// The outcome of each command that was run.
    pub fn outcomes(&self) -> &[Outcome]
        ensures { result.now ≡ self.now }
    {
        &self.outcomes
    }

    /// What becomes of the client after the last command that was run.
    pub fn next(&self) -> Next
        ensures { result ≡ next_after self.now }
    {
        match self.outcomes.last() {
            Some(outcome) => outcome.reply().next(),
            None => Next::Goes,
        }
    }

    /// Appends the whole answer, by one growth: the commands' answers, and `OK` if all succeeded. Without
    /// memory nothing changes.
    pub fn push_text(&self, bytes: &mut Vec<u8>) -> Result<(), AllocError>
        ensures ok { OnOk result (bytes.new.items ≡ bytes.old.items ++ list_text self.now) }
        ensures err { OnErr result (bytes.new.items ≡ bytes.old.items) }
    {
        self.push_text_with("OK\n", bytes)
    }

    /// Appends the commands' answers, and after them `end` if all succeeded.
    pub fn push_text_with(&self, end: &str, bytes: &mut Vec<u8>) -> Result<(), AllocError>
        ensures ok { OnOk result (bytes.new.items ≡ bytes.old.items ++ text_with end.now self.now) }
        ensures err { OnErr result (bytes.new.items ≡ bytes.old.items) }
    {
        if any_ends(&self.outcomes) {
            return push_whole(&self.outcomes, "", bytes);
        }
        push_whole(&self.outcomes, end, bytes)
    }
}

/// Why a command list could not be run to its end. The commands before the one that was refused stand.
#[derive(Drop)]
pub struct ListFault {
    /// How many commands were run. It is the place of the one that was refused.
    pub done: usize,
    /// What they make clients hear, in order.
    pub outcomes: Vec<Outcome>,
    /// The name of the command that was refused; empty where its line names none that is known.
    pub command: &'static str,
    pub cause: PartitionFault,
}

impl Model for ListFault {
    ghost use Rattle.partition.specs.Lists.{Stop, stop_from};

    ghost Value = { Stop };

    ghost view = { λ f. stop_from f.done f.outcomes.items f.command.now f.cause };
}

impl ListFault {
    ghost use Rattle.partition.specs.Lists.{stop_text};

    /// Appends the whole answer, by one growth: those of the commands that were run, and the `ACK` of the one
    /// that was refused. Without memory nothing changes.
    pub fn push_text(&self, alloc: Global, bytes: &mut Vec<u8>) -> Result<(), AllocError>
        ensures ok { OnOk result (bytes.new.items ≡ bytes.old.items ++ stop_text self.now) }
        ensures err { OnErr result (bytes.new.items ≡ bytes.old.items) }
    {
        let mut refusal = Answer::new(alloc);
        refusal.ack(
            ErrorNumber::System,
            self.done,
            self.command,
            self.cause.text(),
        )?;
        push_whole(&self.outcomes, refusal.into_string().as_str(), bytes)
    }
}

/// Whether one of these outcomes ends its list.
fn any_ends(outcomes: &[Outcome]) -> bool
    ensures { result ≡ list_any ends_list outcomes.now }
{
    outcomes.iter().any(|outcome| outcome.ends_list())
}

/// Appends the answers of outcomes and then `end`, by one growth. Without memory nothing changes.
fn push_whole(outcomes: &[Outcome], end: &str, bytes: &mut Vec<u8>) -> Result<(), AllocError>
    ensures ok { OnOk result (bytes.new.items ≡ bytes.old.items ++ (answers_of outcomes.now ++ end.now)) }
    ensures err { OnErr result (bytes.new.items ≡ bytes.old.items) }
{
    let before = bytes.len();
    bytes.reserve(whole_len(outcomes, end))?;
    let pushed = push_each(outcomes, end, bytes);
    if pushed.is_err() {
        bytes.truncate(before);
    }
    pushed
}

/// The bytes of the answers of outcomes and of `end`, as many as can be counted.
fn whole_len(outcomes: &[Outcome], end: &str) -> usize
    ensures { result ≡ counted (length end.now + length (answers_of outcomes.now)) }
{
    let mut len = end.len();
    for outcome in outcomes {
        len = len.saturating_add(outcome.reply().text().len());
    }
    len
}

/// Appends the answers of outcomes and then `end`.
fn push_each(outcomes: &[Outcome], end: &str, bytes: &mut Vec<u8>) -> Result<(), AllocError>
    ensures ok { OnOk result (bytes.new.items ≡ bytes.old.items ++ (answers_of outcomes.now ++ end.now)) }
    ensures front { (more : List ℕ) × (bytes.new.items ≡ bytes.old.items ++ more) }
{
    for outcome in outcomes {
        bytes.extend_from_slice(outcome.reply().text().as_bytes())?;
    }
    bytes.extend_from_slice(end.as_bytes())
}
