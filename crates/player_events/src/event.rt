//! Events, and what they make clients hear.
ghost use Rattle.std.specs.Prelude.{◌≡◌, Some};
ghost use Rattle.transitions.specs.Shelves.{no_store_reply};
ghost use Rattle.player_events.specs.Events.{with_store_reply, store_reply_at};
ghost use Rattle.player_events.specs.Events.{is_line as is_line_lem};
ghost use Rattle.player_events.specs.declared.event.Event.{Event};

use connected_clients::{Notice, Notices};
use mpd_command::Request;
use player_state::Report;
use shelf::ShelfFault;
use song_db::SharedDb;
use std::marker::Model;
use transitions::{ListPlace, Reply, StoreReply};

/// Something that happens to the player. Each is applied whole.
pub enum Event {
    /// A client comes under a number of its own.
    Connect(u32),
    /// A client goes.
    Disconnect(u32),
    /// A line of a client, how it comes, and what the lent shelf answered to it. That is put in as the event
    /// is applied, in place of whatever was there.
    Line {
        client: u32,
        list_place: ListPlace,
        request: Request,
        heard: StoreReply,
    },
    /// Whether a scan is to be made.
    ScanQuestion,
    /// The library that a scan found, and at which second from the beginning of 1970 on; one that failed
    /// found none.
    ScanResult(Option<SharedDb>, u64),
    /// The decoder wants a job of the partition of this number; of which of eight outputs the feeder still owes
    /// frames of an earlier one.
    Want(u8, [bool; 8]),
    /// Of a partition's job, of this number, so many frames are decoded.
    Have(u8, u64, u64),
    /// The song of a partition's job, of this number, could not be read, or where this is so, that of its
    /// partner in a fade.
    Failed(u8, u64, bool),
    /// An output has its turn: how many frames it wrote and discarded since its last one, and whether it failed.
    OutputTurn {
        output: usize,
        written: u64,
        discarded: u64,
        failed: bool,
    },
    /// The daemon ends: from now on nothing is decoded and no scan begins.
    End,
}

// Written out, so that a proof goes through one call where it lets one go (docs/DECISIONS.md).
impl Drop for Event {
    fn drop(self) {
        match self {
            Event::Connect(_)
            | Event::Disconnect(_)
            | Event::Line {
                client: _,
                list_place: _,
                request: _,
                heard: _,
            }
            | Event::ScanQuestion
            | Event::ScanResult(_, _)
            | Event::Want(_, _)
            | Event::Have(_, _, _)
            | Event::Failed(_, _, _)
            | Event::OutputTurn {
                output: _,
                written: _,
                discarded: _,
                failed: _,
            }
            | Event::End => {}
        }
    }
}

impl Event {
    /// A line of a client, before a shelf heard of it.
    pub fn line(client: u32, list_place: ListPlace, request: Request) -> Event
        ensures { result ≡ Event.Line client list_place request no_store_reply }
    {
        Event::Line {
            client,
            list_place,
            request,
            heard: StoreReply::nothing(),
        }
    }

    /// Whether a client said it. A shelf is lent to a line alone.
    pub fn is_line(&self) -> bool
        ensures { result ≡ is_line_lem self.now }
    {
        matches!(self, Event::Line { .. })
    }

    /// Puts in what the shelf answered.
    pub fn hear(&mut self, heard: StoreReply)
        ensures { self.new ≡ with_store_reply self.old heard }
    {
        match self {
            Event::Line { heard: before, .. } => *before = heard,
            _ => {}
        }
    }
}

impl Event {
    /// Puts in why the shelf refused what was to be written.
    pub fn refuse(&mut self, fault: ShelfFault)
        ensures { self.new ≡ with_store_reply self.old (record (store_reply_at self.old) { refused = Some fault }) }
    {
        match self {
            Event::Line { heard, .. } => heard.refused = Some(fault),
            _ => {}
        }
    }
}

/// What an event makes clients hear.
pub struct Outcome {
    pub reply: Reply,
    pub notices: Notices,
    pub report: Report,
}

// Written out, so that a proof goes through one call where it lets one go (docs/DECISIONS.md).
impl Drop for Outcome {
    fn drop(self) {
        let Outcome {
            reply: _,
            notices: _,
            report: _,
        } = self;
    }
}

impl Model for Outcome {
    ghost use Rattle.player_events.specs.Outcomes.{OutcomeData};
    ghost use Rattle.connected_clients.specs.Rooms.{listed};

    ghost Value = { OutcomeData };

    ghost view = { λ o. record { answer = o.reply; notices = listed o.notices; report = o.report } };
}

impl Outcome {
    ghost use Rattle.player_events.specs.Events.{ends_list};

    /// What the client is told that spoke, came or went.
    pub fn reply(&self) -> &Reply
        ensures { result.now ≡ self.now.answer }
    {
        &self.reply
    }

    /// Whether a command list ends with this outcome of one of its commands: it is a refusal, or it closes
    /// the client.
    pub fn ends_list(&self) -> bool
        ensures { result ≡ ends_list self.now }
    {
        self.reply.is_refusal() || self.reply.next().closes()
    }

    /// What is told to a part of the daemon that is no client.
    pub fn report(&self) -> Report
        ensures { result ≡ self.now.report }
    {
        self.report
    }

    /// What others are told that waited, by rising client.
    pub fn notices(&self) -> &[Notice]
        ensures { result.now ≡ self.now.notices }
    {
        self.notices.as_slice()
    }
}

/// One entry of the history: an event, whose it is, and what was told.
#[derive(Drop)]
pub struct LogEntry {
    pub seat: u8,
    pub event: Event,
    pub told: Outcome,
}
