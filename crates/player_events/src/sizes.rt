//! How many bytes the texts of a window have that were answered.
ghost use Rattle.std.specs.Prelude.{◌≡◌, ◌+◌, ◌-◌, ◌^◌, min, length, map, string_bytes, sum_by};
ghost use Rattle.shelf.specs.Entries.{entry_texts};
ghost use Rattle.player_events.specs.Sizes.{event_bytes as event_bytes_lem, read_bytes as read_bytes_lem};
ghost use Rattle.player_events.specs.Events.{store_reply_at};

use crate::event::{Event, LogEntry};
use shelf::Entry;
use transitions::Read;

/// The bytes that a client was answered at an event, and that the shelf answered to it; at most 2^64-1.
pub(crate) fn event_bytes(log_entry: &LogEntry) -> u64
    ensures { result ≡ min (event_bytes_lem log_entry.now) (2 ^ 64 - 1) }
{
    let answer = log_entry.told.reply().text().len() as u64;
    answer.saturating_add(store_reply_bytes(&log_entry.event))
}

fn store_reply_bytes(event: &Event) -> u64
    ensures { result ≡ min (read_bytes_lem (store_reply_at event.now).read) (2 ^ 64 - 1) }
{
    match event {
        Event::Line { heard, .. } => read_bytes(&heard.read),
        _ => 0,
    }
}

fn read_bytes(read: &Read) -> u64
    ensures { result ≡ min (read_bytes_lem read.now) (2 ^ 64 - 1) }
{
    match read {
        Read::Nothing | Read::Refused(_) => 0,
        Read::Names(names) => names_bytes(names.as_slice()),
        Read::List(uris) => uris.text().len() as u64,
        Read::Value(value) => value.as_str().len() as u64,
        Read::Entries(entries) => entries_bytes(entries.as_slice()),
    }
}

fn names_bytes(names: &[String]) -> u64
    ensures { result ≡ min (sum_by length (map string_bytes names.now)) (2 ^ 64 - 1) }
{
    let mut bytes = 0_u64;
    for name in names {
        bytes = bytes.saturating_add(name.len() as u64);
    }
    bytes
}

fn entries_bytes(entries: &[Entry]) -> u64
    ensures { result ≡ min (sum_by (λ e. length e.0 + length e.1) (map entry_texts entries.now)) (2 ^ 64 - 1) }
{
    let mut bytes = 0_u64;
    for entry in entries {
        let key = entry.key.len() as u64;
        bytes = bytes.saturating_add(key.saturating_add(entry.value.len() as u64));
    }
    bytes
}
