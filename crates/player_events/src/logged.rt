//! The entries of a history as a player keeps them.
ghost use Rattle.std.specs.Prelude.{◌≡◌, ◌-◌, ◌^◌, min};
ghost use Rattle.player_events.specs.Sizes.{event_bytes as event_bytes_lem};

use crate::event::LogEntry;
use crate::sizes::event_bytes;
use std::marker::Model;
use std::snapshot::Snapshot;

/// One entry of the history as it is kept: how many bytes it has. What happened and what was told is read by
/// contracts alone, and takes no memory.
pub struct Logged {
    bytes: u64,
    entry: Snapshot<LogEntry>,
}

// Written out, so that a proof goes through one call where it lets one go (docs/DECISIONS.md).
impl Drop for Logged {
    fn drop(self) {
        let Logged { bytes: _, entry: _ } = self;
    }
}

impl Model for Logged {
    ghost use Rattle.std.specs.Prelude.{◌≡◌, ◌-◌, ◌^◌, min};
    ghost use Rattle.player_events.specs.declared.event.LogEntry.{LogEntry};
    ghost use Rattle.player_events.specs.Sizes.{event_bytes as event_bytes_lem};

    ghost Value = { LogEntry };

    // A filter, which an event may have, holds itself, so its code is named.
    ghost use Rattle.filters.specs.contracts.expression.Filter as filter;
    ghost use Rattle.std.specs.Coded.{codes};

    ghost coded = { Prim.hlevel (codes, filter.the_row.coded) };

    ghost view = { λ l. l.entry.value };

    ghost invariant = { λ l. l.bytes ≡ min (event_bytes_lem l.entry.value) (2 ^ 64 - 1) };
}

impl Logged {
    /// What is kept of an entry.
    pub fn of(entry: &LogEntry) -> Logged
        ensures { result ≡ entry.now }
    {
        Logged {
            bytes: event_bytes(entry),
            entry: Snapshot::of(entry),
        }
    }

    /// The bytes that a client was answered, and that the shelf answered; at most 2^64-1.
    pub fn bytes(&self) -> u64
        ensures { result ≡ min (event_bytes_lem self.now) (2 ^ 64 - 1) }
    {
        self.bytes
    }
}
