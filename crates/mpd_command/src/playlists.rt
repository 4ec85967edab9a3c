//! Commands of stored playlists (MPD protocol reference, Stored playlists).
ghost use Rattle.std.specs.Prelude.{string_bytes, map};
ghost use Rattle.command_arguments.specs.Readers.{Gives};
ghost use Rattle.mpd_command.specs.Tables.{found};
ghost use Rattle.mpd_command.specs.Playlists.{rows, rows_from_playlistadd, list_range_position_of};

use crate::command_set::CommandSet;
use command_arguments::{Misread, Position, Uri, none, one, one_perhaps, three, two};
use mpd_text::{Range, Text};
use std::alloc::Global;

/// A command of stored playlists.
pub enum PlaylistCommand {
    /// `listplaylist NAME`: the songs of a stored playlist, by their URIs.
    ListPlaylist(Text),
    /// `listplaylistinfo NAME`: the songs of a stored playlist, with their tags.
    ListPlaylistInfo(Text),
    /// `listplaylists`: the names of the stored playlists.
    ListPlaylists,
    /// `load NAME [RANGE]`: puts the songs of a stored playlist, of a range or all, at the end of the
    /// queue; in the everyday profile `load NAME [RANGE [POSITION]]`, at its end or at a position.
    Load(Text, Option<Range>, Option<Position>),
    /// `playlistadd NAME URI`: puts a song, or the songs under a folder, at the end of a stored playlist.
    PlaylistAdd(Text, Uri),
    /// `playlistclear NAME`: takes all songs out of a stored playlist.
    PlaylistClear(Text),
    /// `playlistdelete NAME POS`: takes the song at a position out of a stored playlist.
    PlaylistDelete(Text, u32),
    /// `playlistmove NAME FROM TO`: moves the song of a stored playlist from a position, the first number, to
    /// another.
    PlaylistMove(Text, u32, u32),
    /// `rename NAME NEW`: gives the stored playlist of the first name the second.
    Rename(Text, Text),
    /// `rm NAME`: takes a stored playlist away.
    Rm(Text),
    /// `save NAME`: keeps the queue as a stored playlist of this name.
    Save(Text),
}

// Written out, so that a proof goes through one call where it lets one go (docs/DECISIONS.md).
impl Drop for PlaylistCommand {
    fn drop(self) {
        match self {
            PlaylistCommand::ListPlaylist(_)
            | PlaylistCommand::ListPlaylistInfo(_)
            | PlaylistCommand::ListPlaylists
            | PlaylistCommand::Load(_, _, _)
            | PlaylistCommand::PlaylistAdd(_, _)
            | PlaylistCommand::PlaylistClear(_)
            | PlaylistCommand::PlaylistDelete(_, _)
            | PlaylistCommand::PlaylistMove(_, _, _)
            | PlaylistCommand::Rename(_, _)
            | PlaylistCommand::Rm(_)
            | PlaylistCommand::Save(_) => {}
        }
    }
}

/// The rows: what the words after each name are read as.
#[rattlefmt::skip]
#[tactic(auto, unfolding(crate::specs::Playlists::rows))]
pub(crate) fn read(alloc: Global, set: CommandSet, word: &str, words: &[String]) -> Result<Option<PlaylistCommand>, Misread>
    ensures { Gives result (found (rows set) word.now (map string_bytes words.now)) }
{
    Ok(Some(match word {
        "listplaylist" => PlaylistCommand::ListPlaylist(one(alloc, words)?),
        "listplaylistinfo" => PlaylistCommand::ListPlaylistInfo(one(alloc, words)?),
        "listplaylists" => none(words, PlaylistCommand::ListPlaylists)?,
        "load" => { let (list, range, position) = list_range_position(alloc, set.everyday, words)?; PlaylistCommand::Load(list, range, position) }
        _ => return read_from_playlistadd(alloc, word, words),
    }))
}

/// The same of the rows from `playlistadd` on.
#[rattlefmt::skip]
#[tactic(auto, unfolding(crate::specs::Playlists::rows_from_playlistadd))]
fn read_from_playlistadd(alloc: Global, word: &str, words: &[String]) -> Result<Option<PlaylistCommand>, Misread>
    ensures { Gives result (found rows_from_playlistadd word.now (map string_bytes words.now)) }
{
    Ok(Some(match word {
        "playlistadd" => { let (list, uri) = two(alloc, words)?; PlaylistCommand::PlaylistAdd(list, uri) }
        "playlistclear" => PlaylistCommand::PlaylistClear(one(alloc, words)?),
        "playlistdelete" => { let (list, position) = two(alloc, words)?; PlaylistCommand::PlaylistDelete(list, position) }
        "playlistmove" => { let (list, from, to) = three(alloc, words)?; PlaylistCommand::PlaylistMove(list, from, to) }
        "rename" => { let (list, new) = two(alloc, words)?; PlaylistCommand::Rename(list, new) }
        "rm" => PlaylistCommand::Rm(one(alloc, words)?),
        "save" => PlaylistCommand::Save(one(alloc, words)?),
        _ => return Ok(None),
    }))
}

/// The name of a list, perhaps a range, and in the everyday profile perhaps a position after that.
fn list_range_position(
    alloc: Global,
    everyday: bool,
    words: &[String],
) -> Result<(Text, Option<Range>, Option<Position>), Misread>
    ensures { Gives result (list_range_position_of everyday (map string_bytes words.now)) }
{
    if everyday && words.len() == 3 {
        let (list, range, position) = three(alloc, words)?;
        return Ok((list, Some(range), Some(position)));
    }
    let (list, range) = one_perhaps(alloc, words)?;
    Ok((list, range, None))
}
