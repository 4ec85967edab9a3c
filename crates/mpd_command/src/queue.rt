//! Commands of the queue (MPD protocol reference, The Queue).
ghost use Rattle.std.specs.Prelude.{string_bytes, map};
ghost use Rattle.command_arguments.specs.Readers.{Gives};
ghost use Rattle.mpd_command.specs.Tables.{found};
ghost use Rattle.mpd_command.specs.Queue.{rows, rows_from_playlist, rows_from_prio, uri_perhaps_position_of};

use crate::command_set::CommandSet;
use command_arguments::{
    Criteria, Misread, Position, Uri, filter, none, one, one_many, one_perhaps, perhaps, two,
};
use filters::{Test, Vocabulary};
use mpd_text::{Range, Sequence};
use std::alloc::Global;

/// A command of the queue.
pub enum QueueCommand {
    /// `add URI`: puts a song of the library, or all songs under a folder, at the end of the queue; in the
    /// everyday profile `add URI [POSITION]`, at its end or at a position.
    Add(Uri, Option<Position>),
    /// `addid URI [POSITION]`: puts a song into the queue, at its end or at a position, and tells its id.
    AddId(Uri, Option<Position>),
    /// `clear`: takes all songs out of the queue.
    Clear,
    /// `delete RANGE`: takes the songs of a range out of the queue.
    Delete(Range),
    /// `deleteid ID`: takes the song with an id out of the queue.
    DeleteId(u32),
    /// `move RANGE TO`: moves the songs of a range, so that the first of them is at a position.
    Move(Range, u32),
    /// `moveid ID TO`: moves the song with an id to a position.
    MoveId(u32, u32),
    /// `playlist`: the position and the URI of each song of the queue.
    Playlist,
    /// `playlistfind FILTER`: the songs of the queue that meet a filter.
    PlaylistFind(Criteria),
    /// `playlistid [ID]`: the song with an id, or all songs of the queue.
    PlaylistId(Option<u32>),
    /// `playlistinfo [RANGE]`: the songs of a range, or all songs of the queue.
    PlaylistInfo(Option<Range>),
    /// `playlistsearch FILTER`: as `playlistfind`, where case does not count and a pair asks for a part of
    /// the text.
    PlaylistSearch(Criteria),
    /// `plchanges V [RANGE]`: the songs at the positions that changed since a version, of a range or all.
    PlChanges(u32, Option<Range>),
    /// `plchangesposid V [RANGE]`: the positions that changed since a version, with their ids, of a range or
    /// all.
    PlChangesPosId(u32, Option<Range>),
    /// `prio N RANGE...`: gives the songs of ranges a priority.
    Prio(u8, Sequence<Range>),
    /// `prioid N ID...`: gives the songs with these ids a priority.
    PrioId(u8, Sequence<u32>),
    /// `shuffle [RANGE]`: puts the songs of a range, or all, into a random order.
    Shuffle(Option<Range>),
    /// `swap POS POS`: the songs at two positions change round.
    Swap(u32, u32),
    /// `swapid ID ID`: the songs with two ids change round.
    SwapId(u32, u32),
}

// Written out, so that a proof goes through one call where it lets one go (docs/DECISIONS.md).
impl Drop for QueueCommand {
    fn drop(self) {
        match self {
            QueueCommand::Add(_, _)
            | QueueCommand::AddId(_, _)
            | QueueCommand::Clear
            | QueueCommand::Delete(_)
            | QueueCommand::DeleteId(_)
            | QueueCommand::Move(_, _)
            | QueueCommand::MoveId(_, _)
            | QueueCommand::Playlist
            | QueueCommand::PlaylistFind(_)
            | QueueCommand::PlaylistId(_)
            | QueueCommand::PlaylistInfo(_)
            | QueueCommand::PlaylistSearch(_)
            | QueueCommand::PlChanges(_, _)
            | QueueCommand::PlChangesPosId(_, _)
            | QueueCommand::Prio(_, _)
            | QueueCommand::PrioId(_, _)
            | QueueCommand::Shuffle(_)
            | QueueCommand::Swap(_, _)
            | QueueCommand::SwapId(_, _) => {}
        }
    }
}

/// The rows: what the words after each name are read as.
#[rattlefmt::skip]
#[tactic(auto, unfolding(crate::specs::Queue::rows))]
pub(crate) fn read(alloc: Global, set: CommandSet, word: &str, words: &[String]) -> Result<Option<QueueCommand>, Misread>
    ensures { Gives result (found (rows set) word.now (map string_bytes words.now)) }
{
    Ok(Some(match word {
        "add" => { let (uri, position) = uri_perhaps_position(alloc, set.everyday, words)?; QueueCommand::Add(uri, position) }
        "addid" => { let (uri, position) = one_perhaps(alloc, words)?; QueueCommand::AddId(uri, position) }
        "clear" => none(words, QueueCommand::Clear)?,
        "delete" => QueueCommand::Delete(one(alloc, words)?),
        "deleteid" => QueueCommand::DeleteId(one(alloc, words)?),
        "move" => { let (range, to) = two(alloc, words)?; QueueCommand::Move(range, to) }
        "moveid" => { let (id, to) = two(alloc, words)?; QueueCommand::MoveId(id, to) }
        _ => return read_from_playlist(alloc, word, words),
    }))
}

/// The same of the rows from `playlist` on.
#[rattlefmt::skip]
#[tactic(auto, unfolding(crate::specs::Queue::rows_from_playlist))]
fn read_from_playlist(alloc: Global, word: &str, words: &[String]) -> Result<Option<QueueCommand>, Misread>
    ensures { Gives result (found rows_from_playlist word.now (map string_bytes words.now)) }
{
    Ok(Some(match word {
        "playlist" => none(words, QueueCommand::Playlist)?,
        "playlistfind" => QueueCommand::PlaylistFind(filter(alloc, Vocabulary::Known, words, Test::Equals)?),
        "playlistid" => QueueCommand::PlaylistId(perhaps(alloc, words)?),
        "playlistinfo" => QueueCommand::PlaylistInfo(perhaps(alloc, words)?),
        "playlistsearch" => QueueCommand::PlaylistSearch(filter(alloc, Vocabulary::Known, words, Test::Contains)?),
        "plchanges" => { let (version, range) = one_perhaps(alloc, words)?; QueueCommand::PlChanges(version, range) }
        "plchangesposid" => { let (version, range) = one_perhaps(alloc, words)?; QueueCommand::PlChangesPosId(version, range) }
        _ => return read_from_prio(alloc, word, words),
    }))
}

/// The same of the rows from `prio` on.
#[rattlefmt::skip]
#[tactic(auto, unfolding(crate::specs::Queue::rows_from_prio))]
fn read_from_prio(alloc: Global, word: &str, words: &[String]) -> Result<Option<QueueCommand>, Misread>
    ensures { Gives result (found rows_from_prio word.now (map string_bytes words.now)) }
{
    Ok(Some(match word {
        "prio" => { let (priority, ranges) = one_many(alloc, words)?; QueueCommand::Prio(priority, ranges) }
        "prioid" => { let (priority, ids) = one_many(alloc, words)?; QueueCommand::PrioId(priority, ids) }
        "shuffle" => QueueCommand::Shuffle(perhaps(alloc, words)?),
        "swap" => { let (first, second) = two(alloc, words)?; QueueCommand::Swap(first, second) }
        "swapid" => { let (first, second) = two(alloc, words)?; QueueCommand::SwapId(first, second) }
        _ => return Ok(None),
    }))
}

/// A URI, and in the everyday profile perhaps a position.
fn uri_perhaps_position(
    alloc: Global,
    everyday: bool,
    words: &[String],
) -> Result<(Uri, Option<Position>), Misread>
    ensures { Gives result (uri_perhaps_position_of everyday (map string_bytes words.now)) }
{
    if everyday {
        return one_perhaps(alloc, words);
    }
    Ok((one(alloc, words)?, None))
}
