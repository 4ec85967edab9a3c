//! The table of the commands of the queue (MPD protocol reference, The Queue).
ghost use Rattle.std.specs.Prelude.{IfOk};
ghost use Rattle.player_state.specs.Fits.{Fits};
ghost use Rattle.queue_commands.specs.Queue.{result_of};
ghost use Rattle.transitions.specs.Transitions.{IsDecidedBy};

use crate::queue_edits::{
    add, add_id, clear, delete, delete_id, move_id, move_range, prio, prio_id, shuffle, swap,
    swap_id,
};
use crate::queue_songs::{
    changed_positions, changes, playlist, playlist_find, playlist_id, playlist_info,
};
use filters::Case;
use mpd_command::QueueCommand;
use player_state::{Library, Part};
use std::alloc::{AllocError, Global};
use transitions::{Asked, Transition};

/// The rows: what each command of the queue asks of the player.
#[rattlefmt::skip]
#[tactic(auto, unfolding(crate::specs::Queue::result_of))]
pub fn run(alloc: Global, asked: Asked, part: &Part, library: &Library, command: &QueueCommand) -> Result<Transition, AllocError>
    ensures transition { IsDecidedBy result (result_of asked part.now library.now command.now) }
    ensures fits { IfOk result (λ transition. Fits part.now transition.effect) }
{
    match command {
        QueueCommand::Add(uri, position) => add(alloc, asked, part, library, uri, *position),
        QueueCommand::AddId(uri, position) => add_id(alloc, asked, part, library, uri, *position),
        QueueCommand::Clear => clear(alloc, asked, part),
        QueueCommand::Delete(range) => delete(alloc, asked, part, *range),
        QueueCommand::DeleteId(id) => delete_id(alloc, asked, part, *id),
        QueueCommand::Move(range, to) => move_range(alloc, asked, part, *range, *to),
        QueueCommand::MoveId(id, to) => move_id(alloc, asked, part, *id, *to),
        QueueCommand::Playlist => playlist(alloc, asked, part, library),
        QueueCommand::PlaylistFind(criteria) => playlist_find(alloc, asked, part, library, Case::Heeded, criteria),
        QueueCommand::PlaylistId(id) => playlist_id(alloc, asked, part, library, *id),
        QueueCommand::PlaylistInfo(range) => playlist_info(alloc, asked, part, library, *range),
        QueueCommand::PlaylistSearch(criteria) => playlist_find(alloc, asked, part, library, Case::Ignored, criteria),
        QueueCommand::PlChanges(version, range) => changes(alloc, asked, part, library, *version, *range),
        QueueCommand::PlChangesPosId(version, range) => changed_positions(alloc, asked, part, library, *version, *range),
        QueueCommand::Prio(priority, ranges) => prio(alloc, asked, part, *priority, ranges.items()),
        QueueCommand::PrioId(priority, ids) => prio_id(alloc, asked, part, *priority, ids.items()),
        QueueCommand::Shuffle(range) => shuffle(alloc, asked, part, *range),
        QueueCommand::Swap(first, second) => swap(alloc, asked, part, *first, *second),
        QueueCommand::SwapId(first, second) => swap_id(alloc, asked, part, *first, *second),
    }
}
