//! The commands of stored playlists (MPD protocol reference, Stored playlists). What the shelf answered to a
//! command's question is there; what is to be written is part of the transition.
ghost use Rattle.std.specs.Prelude.{◌≡◌, IfOk, not};
ghost use Rattle.std.specs.Option.{option_copied};
ghost use Rattle.player_state.specs.declared.effect.Effect.TheVariants.{ByCommand};
ghost use Rattle.player_state.specs.declared.effect.CommandEffect.TheVariants.{Rests};
ghost use Rattle.library_commands.specs.Playlists.{asks_list, asks_stickers, asks_to_rename, append as append_lem, append_folder as append_folder_lem, list_playlist as list_playlist_lem, list_playlist_info as list_playlist_info_lem, list_playlists as list_playlists_lem, load as load_lem, load_range as load_range_lem, misread as misread_lem, playlist_add as playlist_add_lem, playlist_clear as playlist_clear_lem, playlist_delete as playlist_delete_lem, playlist_move as playlist_move_lem, put_with as put_with_lem, question_of, refused as refused_lem, remove as remove_lem, rename as rename_lem, result_of, same_uris, save as save_lem};
ghost use Rattle.transitions.specs.CommandResults.{writes as writes_lem};
ghost use Rattle.transitions.specs.Shelves.{AskNames, ReadsFor, ChangesByReading};
ghost use Rattle.transitions.specs.Transitions.{IsDecidedBy};
ghost use Rattle.player_state.specs.Fits.{Fits};

use command_arguments::{Position, Uri};
use mpd_command::PlaylistCommand;
use mpd_text::{ErrorNumber, Range, Text};
use player_state::{Library, Part};
use queue_commands::queue_edits::{add_songs, shares};
use shelf::{Shelf, ShelfFault, StickerKind, UriList, is_list_name};
use shelf_contents::{
    list_info_lines, list_lines, loaded, moved, name_lines, uris_of_queue, with_songs, without,
};
use song_db::SharedSong;
use song_search::{is_folder, under};
use std::alloc::{AllocError, Global};
use transitions::{Asked, Entries, Names, Read, ShelfWrite, Transition, shelf_refuses};

/// The rows: what each command of stored playlists asks of the player and the shelf.
#[rattlefmt::skip]
#[tactic(auto, unfolding(crate::specs::Playlists::result_of))]
pub fn run(alloc: Global, asked: Asked, part: &Part, library: &Library, read: &Read, command: &PlaylistCommand) -> Result<Transition, AllocError>
    ensures transition { IsDecidedBy result (result_of asked part.now library.now read.now command.now) }
    ensures fits { IfOk result (λ transition. Fits part.now transition.effect) }
{
    match command {
        PlaylistCommand::ListPlaylist(name) => list_playlist(alloc, asked, read, name),
        PlaylistCommand::ListPlaylistInfo(name) => list_playlist_info(alloc, asked, library, read, name),
        PlaylistCommand::ListPlaylists => list_playlists(alloc, asked, read),
        PlaylistCommand::Load(name, range, position) => load(alloc, asked, part, library, read, name, *range, *position),
        PlaylistCommand::PlaylistAdd(name, uri) => playlist_add(alloc, asked, library, read, name, uri),
        PlaylistCommand::PlaylistClear(name) => playlist_clear(alloc, asked, read, name),
        PlaylistCommand::PlaylistDelete(name, position) => playlist_delete(alloc, asked, read, name, *position),
        PlaylistCommand::PlaylistMove(name, from, to) => playlist_move(alloc, asked, read, name, *from, *to),
        PlaylistCommand::Rename(name, new) => rename(alloc, asked, read, name, new),
        PlaylistCommand::Rm(name) => remove(alloc, asked, read, name),
        PlaylistCommand::Save(name) => save(alloc, asked, part, name),
    }
}

/// The most entries of a stored playlist.
const MAX_ENTRIES: usize = 16_384;

/// The shelf refused the question.
pub(crate) fn refused(
    alloc: Global,
    asked: Asked,
    fault: ShelfFault,
) -> Result<Transition, AllocError>
    ensures { IsDecidedBy result (refused_lem asked fault) }
{
    let name = Some(asked.name);
    Ok(Transition::only(shelf_refuses(alloc, asked.list_place, name, fault)?))
}

/// The shelf answered another question, which no shelf does that is as it should be.
pub(crate) fn misread(alloc: Global, asked: Asked) -> Result<Transition, AllocError>
    ensures { IsDecidedBy result (misread_lem asked) }
{
    refused(alloc, asked, ShelfFault::StoreFault)
}

fn list_playlist(
    alloc: Global,
    asked: Asked,
    read: &Read,
    name: &Text,
) -> Result<Transition, AllocError>
    ensures { IsDecidedBy result (list_playlist_lem asked read.now name.now) }
{
    if !is_list_name(name.as_str()) {
        return Transition::bad_name(alloc, asked, name.as_str());
    }
    match read {
        Read::List(uris) => Transition::shows(asked, list_lines(alloc, uris)?),
        Read::Refused(fault) => refused(alloc, asked, *fault),
        _ => misread(alloc, asked),
    }
}

fn list_playlist_info(
    alloc: Global,
    asked: Asked,
    library: &Library,
    read: &Read,
    name: &Text,
) -> Result<Transition, AllocError>
    ensures { IsDecidedBy result (list_playlist_info_lem asked library.now read.now name.now) }
{
    if !is_list_name(name.as_str()) {
        return Transition::bad_name(alloc, asked, name.as_str());
    }
    match read {
        Read::List(uris) => {
            let lines = list_info_lines(
                alloc,
                uris,
                library.songs.db(),
                &library.rate,
                asked.tags,
            )?;
            Transition::shows(asked, lines)
        }
        Read::Refused(fault) => refused(alloc, asked, *fault),
        _ => misread(alloc, asked),
    }
}

fn list_playlists(alloc: Global, asked: Asked, read: &Read) -> Result<Transition, AllocError>
    ensures { IsDecidedBy result (list_playlists_lem asked read.now) }
{
    match read {
        Read::Names(names) => Transition::shows(asked, name_lines(alloc, names.as_slice())?),
        Read::Refused(fault) => refused(alloc, asked, *fault),
        _ => misread(alloc, asked),
    }
}

fn load(
    alloc: Global,
    asked: Asked,
    part: &Part,
    library: &Library,
    read: &Read,
    name: &Text,
    range: Option<Range>,
    position: Option<Position>,
) -> Result<Transition, AllocError>
    ensures transition { IsDecidedBy result (load_lem asked part.now library.now read.now name.now range position) }
    ensures fits { IfOk result (λ transition. Fits part.now transition.effect) }
{
    if !is_list_name(name.as_str()) {
        return Transition::bad_name(alloc, asked, name.as_str());
    }
    match read {
        Read::List(uris) => load_range(alloc, asked, part, library, range, position, uris),
        Read::Refused(fault) => refused(alloc, asked, *fault),
        _ => misread(alloc, asked),
    }
}

fn load_range(
    alloc: Global,
    asked: Asked,
    part: &Part,
    library: &Library,
    range: Option<Range>,
    position: Option<Position>,
    uris: &UriList,
) -> Result<Transition, AllocError>
    ensures transition { IsDecidedBy result (load_range_lem asked part.now library.now range position uris.now) }
    ensures fits { IfOk result (λ transition. Fits part.now transition.effect) }
{
    let all = uris.len();
    let positions = match range {
        None => 0..all,
        Some(range) => match range.within(all) {
            Some(positions) => positions,
            None => return Transition::bad_index(alloc, asked),
        },
    };
    let songs = loaded(
        alloc,
        library.songs.db(),
        uris,
        positions.start,
        positions.end,
    )?;
    add_songs(alloc, asked, part, shares(alloc, &songs)?, position)
}

fn save(alloc: Global, asked: Asked, part: &Part, name: &Text) -> Result<Transition, AllocError>
    ensures { IsDecidedBy result (save_lem asked part.now name.now) }
{
    if !is_list_name(name.as_str()) {
        return Transition::bad_name(alloc, asked, name.as_str());
    }
    let uris = uris_of_queue(alloc, &part.queue)?;
    let name = Text::new(alloc, name.as_str())?;
    Transition::writes(alloc, asked, ShelfWrite::Create(name, uris))
}

fn remove(alloc: Global, asked: Asked, read: &Read, name: &Text) -> Result<Transition, AllocError>
    ensures { IsDecidedBy result (remove_lem asked read.now name.now) }
{
    if !is_list_name(name.as_str()) {
        return Transition::bad_name(alloc, asked, name.as_str());
    }
    match read {
        Read::Entries(stickers) => {
            let name = Text::new(alloc, name.as_str())?;
            let write = ShelfWrite::Remove(name, !stickers.is_empty());
            Transition::writes(alloc, asked, write)
        }
        Read::Refused(fault) => refused(alloc, asked, *fault),
        _ => misread(alloc, asked),
    }
}

fn rename(
    alloc: Global,
    asked: Asked,
    read: &Read,
    name: &Text,
    new: &Text,
) -> Result<Transition, AllocError>
    ensures { IsDecidedBy result (rename_lem asked read.now name.now new.now) }
{
    if !is_list_name(name.as_str()) {
        return Transition::bad_name(alloc, asked, name.as_str());
    }
    if !is_list_name(new.as_str()) {
        return Transition::bad_name(alloc, asked, new.as_str());
    }
    match read {
        Read::Entries(stickers) => {
            let name = Text::new(alloc, name.as_str())?;
            let new = Text::new(alloc, new.as_str())?;
            let write = ShelfWrite::Rename(name, new, !stickers.is_empty());
            Transition::writes(alloc, asked, write)
        }
        Read::Refused(fault) => refused(alloc, asked, *fault),
        _ => misread(alloc, asked),
    }
}

fn playlist_add(
    alloc: Global,
    asked: Asked,
    library: &Library,
    read: &Read,
    name: &Text,
    uri: &Uri,
) -> Result<Transition, AllocError>
    ensures transition { IsDecidedBy result (playlist_add_lem asked library.now read.now name.now uri.now.0) }
    ensures rests { IfOk result (λ transition. transition.effect ≡ ByCommand Rests) }
{
    if !is_list_name(name.as_str()) {
        return Transition::bad_name(alloc, asked, name.as_str());
    }
    match library.songs.db().share(uri.0.as_str())? {
        Some(song) => append(alloc, asked, read, name, &[song]),
        None => append_folder(alloc, asked, library, read, name, uri.0.as_str()),
    }
}

fn append_folder(
    alloc: Global,
    asked: Asked,
    library: &Library,
    read: &Read,
    name: &Text,
    folder: &str,
) -> Result<Transition, AllocError>
    ensures transition { IsDecidedBy result (append_folder_lem asked library.now read.now name.now folder.now) }
    ensures rests { IfOk result (λ transition. transition.effect ≡ ByCommand Rests) }
{
    if !is_folder(library.songs.db(), folder) {
        return Transition::no_such_song(alloc, asked);
    }
    append(alloc, asked, read, name, under(library.songs.db(), folder))
}

/// Puts songs at the end of a list; one that is not there is made.
pub(crate) fn append(
    alloc: Global,
    asked: Asked,
    read: &Read,
    name: &Text,
    songs: &[SharedSong],
) -> Result<Transition, AllocError>
    ensures transition { IsDecidedBy result (append_lem asked read.now name.now songs.now) }
    ensures rests { IfOk result (λ transition. transition.effect ≡ ByCommand Rests) }
{
    match read {
        Read::List(uris) => put_with(alloc, asked, name, uris, songs, !songs.is_empty()),
        Read::Refused(ShelfFault::NoSuchList) => {
            put_with(alloc, asked, name, &UriList::new(alloc), songs, true)
        }
        Read::Refused(fault) => refused(alloc, asked, *fault),
        _ => misread(alloc, asked),
    }
}

fn put_with(
    alloc: Global,
    asked: Asked,
    name: &Text,
    uris: &UriList,
    songs: &[SharedSong],
    changes: bool,
) -> Result<Transition, AllocError>
    ensures transition { IsDecidedBy result (put_with_lem asked name.now uris.now songs.now changes) }
    ensures rests { IfOk result (λ transition. transition.effect ≡ ByCommand Rests) }
{
    if uris.len().saturating_add(songs.len()) > MAX_ENTRIES {
        return Transition::refuses(alloc, asked, ErrorNumber::PlaylistMax, "playlist is full");
    }
    let longer = with_songs(uris, songs)?;
    put(alloc, asked, name, longer, changes)
}

/// A list has these URIs from now on.
fn put(
    alloc: Global,
    asked: Asked,
    name: &Text,
    uris: UriList,
    changes: bool,
) -> Result<Transition, AllocError>
    ensures { IsDecidedBy result (writes_lem asked (ShelfWrite.Put name.now uris changes)) }
{
    let name = Text::new(alloc, name.as_str())?;
    Transition::writes(alloc, asked, ShelfWrite::Put(name, uris, changes))
}

fn playlist_clear(
    alloc: Global,
    asked: Asked,
    read: &Read,
    name: &Text,
) -> Result<Transition, AllocError>
    ensures { IsDecidedBy result (playlist_clear_lem asked read.now name.now) }
{
    if !is_list_name(name.as_str()) {
        return Transition::bad_name(alloc, asked, name.as_str());
    }
    match read {
        Read::List(uris) => put(alloc, asked, name, UriList::new(alloc), !uris.is_empty()),
        Read::Refused(fault) => refused(alloc, asked, *fault),
        _ => misread(alloc, asked),
    }
}

fn playlist_delete(
    alloc: Global,
    asked: Asked,
    read: &Read,
    name: &Text,
    position: u32,
) -> Result<Transition, AllocError>
    ensures { IsDecidedBy result (playlist_delete_lem asked read.now name.now position) }
{
    if !is_list_name(name.as_str()) {
        return Transition::bad_name(alloc, asked, name.as_str());
    }
    match read {
        Read::List(uris) => {
            if position as usize >= uris.len() {
                return Transition::bad_index(alloc, asked);
            }
            let rest = without(alloc, uris, position as usize)?;
            put(alloc, asked, name, rest, true)
        }
        Read::Refused(fault) => refused(alloc, asked, *fault),
        _ => misread(alloc, asked),
    }
}

fn playlist_move(
    alloc: Global,
    asked: Asked,
    read: &Read,
    name: &Text,
    from: u32,
    to: u32,
) -> Result<Transition, AllocError>
    ensures { IsDecidedBy result (playlist_move_lem asked read.now name.now from to) }
{
    if !is_list_name(name.as_str()) {
        return Transition::bad_name(alloc, asked, name.as_str());
    }
    match read {
        Read::List(uris) => {
            if from as usize >= uris.len() || to as usize >= uris.len() {
                return Transition::bad_index(alloc, asked);
            }
            let others = moved(alloc, uris, from as usize, to as usize)?;
            let changes = differ(uris, &others);
            put(alloc, asked, name, others, changes)
        }
        Read::Refused(fault) => refused(alloc, asked, *fault),
        _ => misread(alloc, asked),
    }
}

#[tactic(auto, using(crate::proofs::Uris::same_is))]
fn differ(uris: &UriList, others: &UriList) -> bool
    ensures { result ≡ not (same_uris uris.now others.now) }
{
    !uris.is_same(others)
}

/// Asks the shelf what a command asks of it.
pub(crate) fn ask<S: Shelf>(shelf: &mut S, command: &PlaylistCommand) -> Result<Read, AllocError>
    ensures changes { ChangesByReading S.standing shelf.old shelf.new result }
    ensures read { ReadsFor S.standing S.failed shelf.old shelf.new (question_of command.now) result }
{
    match command {
        PlaylistCommand::ListPlaylists => ask_names(shelf),
        PlaylistCommand::ListPlaylist(name) => ask_list(shelf, name.as_str()),
        PlaylistCommand::ListPlaylistInfo(name) => ask_list(shelf, name.as_str()),
        PlaylistCommand::Load(name, _, _) => ask_list(shelf, name.as_str()),
        PlaylistCommand::PlaylistAdd(name, _) => ask_list(shelf, name.as_str()),
        PlaylistCommand::PlaylistClear(name) => ask_list(shelf, name.as_str()),
        PlaylistCommand::PlaylistDelete(name, _) => ask_list(shelf, name.as_str()),
        PlaylistCommand::PlaylistMove(name, _, _) => ask_list(shelf, name.as_str()),
        PlaylistCommand::Rename(name, new) => ask_to_rename(shelf, name.as_str(), new.as_str()),
        PlaylistCommand::Rm(name) => ask_stickers(shelf, name.as_str()),
        PlaylistCommand::Save(_) => Ok(Read::Nothing),
    }
}

/// Asks for the names of all lists.
pub(crate) fn ask_names<S: Shelf>(shelf: &mut S) -> Result<Read, AllocError>
    ensures changes { ChangesByReading S.standing shelf.old shelf.new result }
    ensures read { ReadsFor S.standing S.failed shelf.old shelf.new AskNames result }
{
    match shelf.lists() {
        Ok(names) => Ok(Read::Names(Names::of(names))),
        Err(ShelfFault::NoMemory) => Err(AllocError),
        Err(fault) => Ok(Read::Refused(fault)),
    }
}

/// Asks for a list, if the name can be one's.
pub(crate) fn ask_list<S: Shelf>(shelf: &mut S, name: &str) -> Result<Read, AllocError>
    ensures changes { ChangesByReading S.standing shelf.old shelf.new result }
    ensures read { ReadsFor S.standing S.failed shelf.old shelf.new (asks_list name.now) result }
{
    if !is_list_name(name) {
        return Ok(Read::Nothing);
    }
    match shelf.list(name) {
        Ok(uris) => Ok(Read::List(uris)),
        Err(ShelfFault::NoMemory) => Err(AllocError),
        Err(fault) => Ok(Read::Refused(fault)),
    }
}

/// Asks for the stickers of a list, if the name can be one's.
pub(crate) fn ask_stickers<S: Shelf>(shelf: &mut S, name: &str) -> Result<Read, AllocError>
    ensures changes { ChangesByReading S.standing shelf.old shelf.new result }
    ensures read { ReadsFor S.standing S.failed shelf.old shelf.new (asks_stickers name.now) result }
{
    if !is_list_name(name) {
        return Ok(Read::Nothing);
    }
    match shelf.stickers_of(StickerKind::Playlist, name) {
        Ok(stickers) => Ok(Read::Entries(Entries::of(stickers))),
        Err(ShelfFault::NoMemory) => Err(AllocError),
        Err(fault) => Ok(Read::Refused(fault)),
    }
}

/// The same, if the new name can be one's too.
fn ask_to_rename<S: Shelf>(shelf: &mut S, name: &str, new: &str) -> Result<Read, AllocError>
    ensures changes { ChangesByReading S.standing shelf.old shelf.new result }
    ensures read { ReadsFor S.standing S.failed shelf.old shelf.new (asks_to_rename name.now new.now) result }
{
    if !is_list_name(new) {
        return Ok(Read::Nothing);
    }
    ask_stickers(shelf, name)
}
