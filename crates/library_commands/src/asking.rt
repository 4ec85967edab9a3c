//! What is asked of the lent shelf.
ghost use Rattle.library_commands.specs.Asking.{question_by};
ghost use Rattle.transitions.specs.Shelves.{ReadsFor, ChangesByReading};

use crate::{database, playlists, stickers};
use mpd_command::Command;
use player_state::Library;
use shelf::Shelf;
use std::alloc::AllocError;
use transitions::Read;

/// Asks the shelf what a command asks of it.
pub fn ask<S: Shelf>(
    library: &Library,
    shelf: &mut S,
    command: &Command,
) -> Result<Read, AllocError>
    ensures changes { ChangesByReading S.standing shelf.old shelf.new result }
    ensures read { ReadsFor S.standing S.failed shelf.old shelf.new (question_by library.now command.now) result }
{
    match command {
        Command::Database(command) => database::ask(shelf, command),
        Command::Playlists(command) => playlists::ask(shelf, command),
        Command::Stickers(command) => stickers::ask(library, shelf, command),
        _ => Ok(Read::Nothing),
    }
}
