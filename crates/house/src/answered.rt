//! What the house answers.
use connected_clients::Notice;
use partition::ListOutcome;
use player_events::Outcome;
use player_state::Report;
use std::marker::Model;
use transitions::Reply;

/// What a line of a client is answered: its waiting notice, if one waits, and after it the reply.
#[derive(Drop)]
pub struct Answered {
    pub(crate) front: Option<Notice>,
    pub(crate) outcome: Outcome,
}

impl Model for Answered {
    ghost use Rattle.house.specs.Views.{Handed};

    ghost Value = { Handed };

    ghost view = { λ a. record { front = a.front; told = a.outcome } };
}

impl Answered {
    ghost use Rattle.std.specs.Prelude.{◌≡◌};

    /// The notice in front of the reply.
    pub fn front(&self) -> Option<Notice>
        ensures { result ≡ self.now.front }
    {
        self.front
    }

    pub fn reply(&self) -> &Reply
        ensures { result.now ≡ self.now.told.answer }
    {
        self.outcome.reply()
    }
}

/// What a command list is answered: its client's waiting notice, if one waits, and after it the answers of
/// its commands.
#[derive(Drop)]
pub struct AnsweredList {
    pub(crate) front: Option<Notice>,
    pub(crate) outcome: ListOutcome,
}

impl Model for AnsweredList {
    ghost use Rattle.house.specs.Lists.{HandedList};

    ghost Value = { HandedList };

    ghost view = { λ a. record { front = a.front; tolds = a.outcome } };
}

impl AnsweredList {
    ghost use Rattle.std.specs.Prelude.{◌≡◌};

    /// The notice in front of the answers.
    pub fn front(&self) -> Option<Notice>
        ensures { result ≡ self.now.front }
    {
        self.front
    }

    /// What the commands were answered.
    pub fn answers(&self) -> &ListOutcome
        ensures { result.now ≡ self.now.tolds }
    {
        &self.outcome
    }
}

/// What an event is answered that is no line. The notices that it made wait in the house.
#[derive(Drop)]
pub struct Reported {
    pub(crate) outcome: Outcome,
    pub(crate) changes: u64,
}

impl Model for Reported {
    ghost use Rattle.player_events.specs.Outcomes.{OutcomeData};

    ghost Value = { OutcomeData };

    ghost view = { λ r. r.outcome };
}

impl Reported {
    ghost use Rattle.std.specs.Prelude.{◌≡◌};

    /// What the client is told that came or went.
    pub fn reply(&self) -> &Reply
        ensures { result.now ≡ self.now.answer }
    {
        self.outcome.reply()
    }

    /// How often the house had changed after the event, for the `rest` of a house.
    pub fn changes(&self) -> u64 {
        self.changes
    }

    /// What a part of the daemon is told that is no client.
    pub fn report(&self) -> Report
        ensures { result ≡ self.now.report }
    {
        self.outcome.report()
    }
}
