//! Commands of the library (MPD protocol reference, The music database).
ghost use Rattle.std.specs.Prelude.{◌≡◌, string_bytes, map};
ghost use Rattle.command_arguments.specs.Readers.{Gives};
ghost use Rattle.mpd_command.specs.Tables.{found};
ghost use Rattle.mpd_command.specs.Database.{rows, rows_from_listall, rows_from_rescan};

use crate::command_set::CommandSet;
use command_arguments::{Misread, Position, Uri, one, perhaps, two};
use filters::Test;
use mpd_text::Text;
use selections::{
    Counting, Grouping, Selection, counting, grouping, name_selection, placed_selection, selection,
};
use std::alloc::Global;

/// A command of the library.
pub enum DatabaseCommand {
    /// `albumart URI OFFSET`: a picture that lies beside a song: there is none.
    AlbumArt(Uri, u32),
    /// `count FILTER`: how many songs meet a filter, and how long they play; in the everyday profile
    /// `count [FILTER] [group TAG]`, for each text of a tag.
    Count(Counting),
    /// `find FILTER [WINDOW]`: the songs that meet a filter, of a window or all; in the everyday profile in
    /// the order of a tag, where one is named.
    Find(Selection),
    /// `findadd FILTER`: puts the songs that meet a filter at the end of the queue; in the everyday profile
    /// those that `find` shows, at its end or at a position.
    FindAdd(Selection, Option<Position>),
    /// `list TAG [FILTER]`: the texts that a tag has among the songs that meet a filter, or among all; in the
    /// everyday profile `list TAG [FILTER] [group TAG]...`, for each text of other tags.
    List(Grouping),
    /// `listall [URI]`: the songs under a folder, or all; in the everyday profile of a song that one.
    ListAll(Option<Uri>, bool),
    /// `listallinfo [URI]`: the same with all that is known of each.
    ListAllInfo(Option<Uri>),
    /// `lsinfo [URI]`: the folders and songs right in a folder, or in the library; in the everyday profile of
    /// that the stored playlists as well.
    LsInfo(Option<Uri>, bool),
    /// `readcomments URI`: what else a song's file says: nothing.
    ReadComments(Uri),
    /// `readpicture URI OFFSET`: a picture in a song's file: there is none.
    ReadPicture(Uri, u32),
    /// `rescan [URI]`: scans the library anew.
    Rescan(Option<Uri>),
    /// `search FILTER [WINDOW]`: as `find`, where case does not count and a pair asks for a part of the
    /// text.
    Search(Selection),
    /// `searchadd FILTER`: as `findadd`, where case does not count and a pair asks for a part of the text.
    SearchAdd(Selection, Option<Position>),
    /// `searchaddpl NAME FILTER`: puts the songs that `search` shows at the end of a stored playlist.
    SearchAddPl(Text, Selection),
    /// `update [URI]`: scans the library anew.
    Update(Option<Uri>),
}

// Written out, so that a proof goes through one call where it lets one go (docs/DECISIONS.md).
impl Drop for DatabaseCommand {
    fn drop(self) {
        match self {
            DatabaseCommand::AlbumArt(_, _)
            | DatabaseCommand::Count(_)
            | DatabaseCommand::Find(_)
            | DatabaseCommand::FindAdd(_, _)
            | DatabaseCommand::List(_)
            | DatabaseCommand::ListAll(_, _)
            | DatabaseCommand::ListAllInfo(_)
            | DatabaseCommand::LsInfo(_, _)
            | DatabaseCommand::ReadComments(_)
            | DatabaseCommand::ReadPicture(_, _)
            | DatabaseCommand::Rescan(_)
            | DatabaseCommand::Search(_)
            | DatabaseCommand::SearchAdd(_, _)
            | DatabaseCommand::SearchAddPl(_, _)
            | DatabaseCommand::Update(_) => {}
        }
    }
}

/// The rows: what the words after each name are read as.
#[rattlefmt::skip]
#[tactic(auto, unfolding(crate::specs::Database::rows))]
pub(crate) fn read(alloc: Global, set: CommandSet, word: &str, words: &[String]) -> Result<Option<DatabaseCommand>, Misread>
    ensures { Gives result (found (rows set) word.now (map string_bytes words.now)) }
{
    Ok(Some(match word {
        "albumart" => { let (uri, offset) = two(alloc, words)?; DatabaseCommand::AlbumArt(uri, offset) }
        "count" => DatabaseCommand::Count(counting(alloc, set.everyday, words)?),
        "find" => DatabaseCommand::Find(selection(alloc, set.everyday, words, Test::Equals)?),
        "findadd" => { let (selection, position) = placed_selection(alloc, set.everyday, words, Test::Equals)?; DatabaseCommand::FindAdd(selection, position) }
        "list" => DatabaseCommand::List(grouping(alloc, set.everyday, words)?),
        _ => return read_from_listall(alloc, set, word, words),
    }))
}

/// The same of the rows from `listall` on.
#[rattlefmt::skip]
#[tactic(auto, unfolding(crate::specs::Database::rows_from_listall))]
fn read_from_listall(alloc: Global, set: CommandSet, word: &str, words: &[String]) -> Result<Option<DatabaseCommand>, Misread>
    ensures { Gives result (found (rows_from_listall set) word.now (map string_bytes words.now)) }
{
    Ok(Some(match word {
        "listall" => DatabaseCommand::ListAll(perhaps(alloc, words)?, set.everyday),
        "listallinfo" => DatabaseCommand::ListAllInfo(perhaps(alloc, words)?),
        "lsinfo" => DatabaseCommand::LsInfo(perhaps(alloc, words)?, set.everyday),
        "readcomments" => DatabaseCommand::ReadComments(one(alloc, words)?),
        "readpicture" => { let (uri, offset) = two(alloc, words)?; DatabaseCommand::ReadPicture(uri, offset) }
        _ => return read_from_rescan(alloc, set, word, words),
    }))
}

/// The same of the rows from `rescan` on.
#[rattlefmt::skip]
#[tactic(auto, unfolding(crate::specs::Database::rows_from_rescan))]
fn read_from_rescan(alloc: Global, set: CommandSet, word: &str, words: &[String]) -> Result<Option<DatabaseCommand>, Misread>
    ensures { Gives result (found (rows_from_rescan set) word.now (map string_bytes words.now)) }
{
    Ok(Some(match word {
        "rescan" => DatabaseCommand::Rescan(perhaps(alloc, words)?),
        "search" => DatabaseCommand::Search(selection(alloc, set.everyday, words, Test::Contains)?),
        "searchadd" => { let (selection, position) = placed_selection(alloc, set.everyday, words, Test::Contains)?; DatabaseCommand::SearchAdd(selection, position) }
        "searchaddpl" => { let (name, selection) = name_selection(alloc, words, Test::Contains)?; DatabaseCommand::SearchAddPl(name, selection) }
        "update" => DatabaseCommand::Update(perhaps(alloc, words)?),
        _ => return Ok(None),
    }))
}
