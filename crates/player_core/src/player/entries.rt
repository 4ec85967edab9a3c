//! Entries of the queue, found by their ids.
ghost use Rattle.std.specs.Prelude.{◌≡◌, ◌≤◌, length};
ghost use Rattle.std.specs.Option.{option_copied};
ghost use Rattle.song_queue.specs.State.{queue_of};
ghost use Rattle.player_core.specs.Decoding as decoding;
ghost use Rattle.player_core.specs.Steps as steps;

use crate::state::FadePart;
use song_queue::{Entry, Queue};

/// Whether this is the entry with the id.
pub(super) fn is_entry_with(entry: Option<&Entry>, id: u32) -> bool
    ensures { result ≡ decoding.is_entry_with (option_copied entry.entry) id }
{
    match entry {
        Some(entry) => entry.id == id,
        None => false,
    }
}

/// Whether the song of an entry has been heard to its end at an offset.
pub(super) fn is_heard(entry: Option<&Entry>, offset: u64) -> bool
    ensures { result ≡ decoding.is_heard (option_copied entry.entry) offset }
{
    match entry {
        Some(entry) => entry.song.song().frames() <= offset,
        None => false,
    }
}

/// Whether a fade is into another entry than what is next.
pub(super) fn has_lost_partner(part: Option<FadePart>, next: Option<&Entry>) -> bool
    ensures { result ≡ decoding.has_lost_partner part (option_copied next.entry) }
{
    match part {
        Some(part) => !is_entry_with(next, part.partner),
        None => false,
    }
}

/// Whether the current song stands in a range of positions.
pub(super) fn holds_current(queue: &Queue, current: Option<u32>, from: usize, end: usize) -> bool
    requires { end ≤ length (queue_of queue.now) }
    ensures { result ≡ steps.holds_current (queue_of queue.now) current from end }
{
    let Some(id) = current else {
        return false;
    };
    match queue.position_of(id) {
        Some(position) => from <= position && position < end,
        None => false,
    }
}
