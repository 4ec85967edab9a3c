//! A player of one thread that tests open, and the lists that they run on it. It is a crate of its own, since a
//! crate with tests is proved twice.
#![tactic(auto)]

ghost use Rattle.partition.specs.Image.{no_events};
ghost use Rattle.player_state.specs.Outputs.{empty_books};
ghost use Rattle.std.specs.Prelude.{◌≡◌, IfOk};

use mpd_command::{CommandSet, Request};
use mpd_text::Song;
use partition::{Limits, ListOutcome, Partition, Setup};
use player_state::{Library, Outputs, Scan};
use song_db::{Rate, SharedDb};
use std::alloc::{AllocError, Global};

/// A library of these songs at 8,000 frames a second, which was never scanned.
pub fn library(alloc: Global, songs: Vec<Song>) -> Result<Library, AllocError> {
    Ok(Library {
        songs: SharedDb::new(alloc, test_songs::library(alloc, songs)?)?,
        rate: Rate::lowest(),
        scan: Scan::never(),
        updated: 0,
    })
}

/// A player over a library, with these outputs, the greatest limits, and a window of at most so many events.
pub fn player(
    alloc: Global,
    history: u32,
    outputs: Outputs,
    library: Library,
) -> Result<Partition, AllocError>
    ensures events { IfOk result (λ player. player.present.shared.made ≡ no_events) }
    ensures books { IfOk result (λ player. player.present.shared.books ≡ empty_books) }
{
    let limits = Limits {
        max_queue: 16384,
        max_version: 2147483647,
        max_id: 2147483647,
        max_cut: 9223372036854775807,
        history: history.max(1),
    };
    let setup = Setup {
        limits,
        random_start: 0,
        outputs,
    };
    Partition::open(alloc, setup, library)
}

/// The requests of the lines of a list, with a semicolon between each two; none of an empty text.
pub fn requests(alloc: Global, lines: &str) -> Result<Vec<Request>, AllocError> {
    let mut requests = Vec::new(alloc);
    if lines.is_empty() {
        return Ok(requests);
    }
    for line in lines.split(';') {
        requests.push(Request::of_line(alloc, line, CommandSet::base())?)?;
    }
    Ok(requests)
}

/// What a client hears of a list.
pub fn list_answer(alloc: Global, outcome: &ListOutcome) -> Result<String, AllocError> {
    let mut answer = Vec::new(alloc);
    outcome.push_text(&mut answer)?;
    String::from_str(alloc, str::from_utf8(&answer).unwrap_or("no text\n"))
}
