//! The commands of stickers (MPD protocol reference, Stickers). What the shelf answered to a command's
//! question is there; what is to be written is part of the transition.
ghost use Rattle.std.specs.Prelude.{◌≡◌, IfOk, not};
ghost use Rattle.std.specs.Option.{option_copied};
ghost use Rattle.player_state.specs.declared.effect.Effect.TheVariants.{ByCommand};
ghost use Rattle.player_state.specs.declared.effect.CommandEffect.TheVariants.{Rests};
ghost use Rattle.mpd_command.specs.declared.sticker.StickerCommand.TheVariants.{Delete, Get, List as ListStickers, Set};
ghost use Rattle.mpd_command.specs.declared.sticker.Target.TheVariants.{Song};
ghost use Rattle.library_commands.specs.Stickers.{FindsSongs, Runs, asks_all, asks_found, asks_sticker, is_song_or_folder as is_song_or_folder_lem, is_song as is_song_lem, question_of, set_value as set_value_lem, show_stickers as show_stickers_lem, show_value as show_value_lem};
ghost use Rattle.transitions.specs.CommandResults.{writes as writes_lem};
ghost use Rattle.transitions.specs.Transitions.{IsDecidedBy};
ghost use Rattle.transitions.specs.Shelves.{ReadsFor, ChangesByReading};

use crate::playlist_stickers;
use crate::playlists::{ask_stickers, misread, refused};
use command_arguments::Uri;
use mpd_command::{Comparison, StickerCommand, Target};
use mpd_text::Text;
use player_state::Library;
use shelf::{Shelf, ShelfFault, StickerKind, is_sticker_name};
use shelf_contents::{found_lines, sticker_line, sticker_lines};
use song_search::is_folder;
use std::alloc::{AllocError, Global};
use transitions::{Asked, Entries, Read, ShelfWrite, Transition};

/// The rows: what each command of stickers makes of the player. Stickers are of the songs that the library
/// has, and of the stored playlists.
pub fn run(
    alloc: Global,
    asked: Asked,
    library: &Library,
    read: &Read,
    command: &StickerCommand,
) -> Result<Transition, AllocError>
    ensures transition { Runs result asked library.now read.now command.now }
    ensures rests { IfOk result (λ transition. transition.effect ≡ ByCommand Rests) }
{
    match command {
        StickerCommand::Get(Target::Song(uri), name) => {
            get_sticker(alloc, asked, library, read, uri, name)
        }
        StickerCommand::Set(Target::Song(uri), name, value) => {
            set_sticker(alloc, asked, library, read, uri, name, value)
        }
        StickerCommand::Delete(Target::Song(uri), name) => {
            delete_stickers(alloc, asked, library, uri, name.as_ref())
        }
        StickerCommand::List(Target::Song(uri)) => list_stickers(alloc, asked, library, read, uri),
        StickerCommand::Find(Target::Song(uri), name, test) => {
            find_stickers(alloc, asked, library, read, uri, name, test.as_ref())
        }
        StickerCommand::Get(Target::Playlist(list), name) => {
            playlist_stickers::get(alloc, asked, read, list, name)
        }
        StickerCommand::Set(Target::Playlist(list), name, value) => {
            playlist_stickers::set(alloc, asked, read, list, name, value)
        }
        StickerCommand::Delete(Target::Playlist(list), name) => {
            playlist_stickers::delete(alloc, asked, read, list, name.as_ref())
        }
        StickerCommand::List(Target::Playlist(list)) => {
            playlist_stickers::list(alloc, asked, read, list)
        }
        StickerCommand::Find(Target::Playlist(list), name, test) => {
            playlist_stickers::find(alloc, asked, read, list, name, test.as_ref())
        }
    }
}

/// Whether a URI is that of a song of the library.
pub(crate) fn is_song(library: &Library, uri: &str) -> bool
    ensures { result ≡ is_song_lem library.now uri.now }
{
    library.songs.db().get(uri).is_some()
}

/// Whether a URI is that of a song of the library, or of a folder.
pub(crate) fn is_song_or_folder(library: &Library, uri: &str) -> bool
    ensures { result ≡ is_song_or_folder_lem library.now uri.now }
{
    is_song(library, uri) || is_folder(library.songs.db(), uri)
}

fn get_sticker(
    alloc: Global,
    asked: Asked,
    library: &Library,
    read: &Read,
    uri: &Uri,
    name: &Text,
) -> Result<Transition, AllocError>
    ensures transition { Runs result asked library.now read.now (Get (Song uri.now) name.now) }
    ensures rests { IfOk result (λ transition. transition.effect ≡ ByCommand Rests) }
{
    if !is_song(library, uri.0.as_str()) {
        return Transition::no_such_song(alloc, asked);
    }
    if !is_sticker_name(name.as_str()) {
        return Transition::bad_name(alloc, asked, name.as_str());
    }
    show_value(alloc, asked, read, name)
}

/// The line of the value that was read.
pub(crate) fn show_value(
    alloc: Global,
    asked: Asked,
    read: &Read,
    name: &Text,
) -> Result<Transition, AllocError>
    ensures transition { IsDecidedBy result (show_value_lem asked read.now name.now) }
    ensures rests { IfOk result (λ transition. transition.effect ≡ ByCommand Rests) }
{
    match read {
        Read::Value(value) => {
            let line = sticker_line(alloc, name.as_str(), value.as_str())?;
            Transition::shows(asked, line)
        }
        Read::Refused(fault) => refused(alloc, asked, *fault),
        _ => misread(alloc, asked),
    }
}

fn set_sticker(
    alloc: Global,
    asked: Asked,
    library: &Library,
    read: &Read,
    uri: &Uri,
    name: &Text,
    value: &Text,
) -> Result<Transition, AllocError>
    ensures transition { Runs result asked library.now read.now (Set (Song uri.now) name.now value.now) }
    ensures rests { IfOk result (λ transition. transition.effect ≡ ByCommand Rests) }
{
    if !is_song(library, uri.0.as_str()) {
        return Transition::no_such_song(alloc, asked);
    }
    if !is_sticker_name(name.as_str()) {
        return Transition::bad_name(alloc, asked, name.as_str());
    }
    let uri = uri.0.as_str();
    set_value(alloc, asked, read, StickerKind::Song, uri, name, value)
}

/// Sets a value, after the one that was read.
pub(crate) fn set_value(
    alloc: Global,
    asked: Asked,
    read: &Read,
    kind: StickerKind,
    target: &str,
    name: &Text,
    value: &Text,
) -> Result<Transition, AllocError>
    ensures transition { IsDecidedBy result (set_value_lem asked read.now kind target.now name.now value.now) }
    ensures rests { IfOk result (λ transition. transition.effect ≡ ByCommand Rests) }
{
    let changes = match read {
        Read::Value(before) => before.as_str() != value.as_str(),
        Read::Refused(ShelfFault::NoSticker) => true,
        Read::Refused(fault) => return refused(alloc, asked, *fault),
        _ => return misread(alloc, asked),
    };
    let target = Text::new(alloc, target)?;
    let name = Text::new(alloc, name.as_str())?;
    let value = Text::new(alloc, value.as_str())?;
    Transition::writes(
        alloc,
        asked,
        ShelfWrite::SetSticker {
            kind,
            target,
            name,
            value,
            changes,
        },
    )
}

fn delete_stickers(
    alloc: Global,
    asked: Asked,
    library: &Library,
    uri: &Uri,
    name: Option<&Text>,
) -> Result<Transition, AllocError>
    ensures transition { Runs result asked library.now Read.Nothing (Delete (Song uri.now) (option_copied name.entry)) }
    ensures rests { IfOk result (λ transition. transition.effect ≡ ByCommand Rests) }
{
    if !is_song(library, uri.0.as_str()) {
        return Transition::no_such_song(alloc, asked);
    }
    let song = Text::new(alloc, uri.0.as_str())?;
    let Some(name) = name else {
        return Transition::writes(
            alloc,
            asked,
            ShelfWrite::DeleteStickers(StickerKind::Song, song),
        );
    };
    if !is_sticker_name(name.as_str()) {
        return Transition::bad_name(alloc, asked, name.as_str());
    }
    let name = Text::new(alloc, name.as_str())?;
    Transition::writes(
        alloc,
        asked,
        ShelfWrite::DeleteSticker(StickerKind::Song, song, name),
    )
}

fn list_stickers(
    alloc: Global,
    asked: Asked,
    library: &Library,
    read: &Read,
    uri: &Uri,
) -> Result<Transition, AllocError>
    ensures transition { Runs result asked library.now read.now (ListStickers (Song uri.now)) }
    ensures rests { IfOk result (λ transition. transition.effect ≡ ByCommand Rests) }
{
    if !is_song(library, uri.0.as_str()) {
        return Transition::no_such_song(alloc, asked);
    }
    show_stickers(alloc, asked, read)
}

/// The lines of the stickers that were read.
pub(crate) fn show_stickers(
    alloc: Global,
    asked: Asked,
    read: &Read,
) -> Result<Transition, AllocError>
    ensures transition { IsDecidedBy result (show_stickers_lem asked read.now) }
    ensures rests { IfOk result (λ transition. transition.effect ≡ ByCommand Rests) }
{
    match read {
        Read::Entries(entries) => Transition::shows(
            asked,
            sticker_lines(alloc, entries.as_slice())?,
        ),
        Read::Refused(fault) => refused(alloc, asked, *fault),
        _ => misread(alloc, asked),
    }
}

fn find_stickers(
    alloc: Global,
    asked: Asked,
    library: &Library,
    read: &Read,
    uri: &Uri,
    name: &Text,
    test: Option<&Comparison>,
) -> Result<Transition, AllocError>
    ensures transition { FindsSongs result asked library.now read.now uri.now name.now (option_copied test.entry) }
    ensures rests { IfOk result (λ transition. transition.effect ≡ ByCommand Rests) }
{
    if !is_song_or_folder(library, uri.0.as_str()) {
        return Transition::no_such_song(alloc, asked);
    }
    if !is_sticker_name(name.as_str()) {
        return Transition::bad_name(alloc, asked, name.as_str());
    }
    match read {
        Read::Entries(entries) => {
            let db = library.songs.db();
            let asked_uri = uri.0.as_str();
            let found = found_lines(
                alloc,
                db,
                asked_uri,
                name.as_str(),
                entries.as_slice(),
                test,
            )?;
            Transition::shows(asked, found)
        }
        Read::Refused(fault) => refused(alloc, asked, *fault),
        _ => misread(alloc, asked),
    }
}

/// Asks the shelf what a command asks of it.
pub(crate) fn ask<S: Shelf>(
    library: &Library,
    shelf: &mut S,
    command: &StickerCommand,
) -> Result<Read, AllocError>
    ensures changes { ChangesByReading S.standing shelf.old shelf.new result }
    ensures read { ReadsFor S.standing S.failed shelf.old shelf.new (question_of library.now command.now) result }
{
    match command {
        StickerCommand::Get(Target::Song(uri), name)
        | StickerCommand::Set(Target::Song(uri), name, _) => {
            ask_sticker(library, shelf, uri.0.as_str(), name.as_str())
        }
        StickerCommand::Delete(Target::Song(_), _)
        | StickerCommand::Delete(Target::Playlist(_), None) => Ok(Read::Nothing),
        StickerCommand::List(Target::Song(uri)) => ask_all(library, shelf, uri.0.as_str()),
        StickerCommand::Find(Target::Song(uri), name, _) => {
            ask_found(library, shelf, uri.0.as_str(), name.as_str())
        }
        StickerCommand::Get(Target::Playlist(list), name)
        | StickerCommand::Set(Target::Playlist(list), name, _)
        | StickerCommand::Delete(Target::Playlist(list), Some(name)) => {
            playlist_stickers::ask(shelf, list.as_str(), name.as_str())
        }
        StickerCommand::List(Target::Playlist(list)) => ask_stickers(shelf, list.as_str()),
        StickerCommand::Find(Target::Playlist(list), name, _) => {
            playlist_stickers::ask_to_find(shelf, list.as_str(), name.as_str())
        }
    }
}

/// Asks for the sticker of a song of the library, if the name can be one's.
fn ask_sticker<S: Shelf>(
    library: &Library,
    shelf: &mut S,
    uri: &str,
    name: &str,
) -> Result<Read, AllocError>
    ensures changes { ChangesByReading S.standing shelf.old shelf.new result }
    ensures read { ReadsFor S.standing S.failed shelf.old shelf.new (asks_sticker library.now uri.now name.now) result }
{
    if !is_song(library, uri) || !is_sticker_name(name) {
        return Ok(Read::Nothing);
    }
    match shelf.sticker(StickerKind::Song, uri, name) {
        Ok(value) => Ok(Read::Value(Text::of(value))),
        Err(ShelfFault::NoMemory) => Err(AllocError),
        Err(fault) => Ok(Read::Refused(fault)),
    }
}

/// Asks for all stickers of a song of the library.
fn ask_all<S: Shelf>(library: &Library, shelf: &mut S, uri: &str) -> Result<Read, AllocError>
    ensures changes { ChangesByReading S.standing shelf.old shelf.new result }
    ensures read { ReadsFor S.standing S.failed shelf.old shelf.new (asks_all library.now uri.now) result }
{
    if !is_song(library, uri) {
        return Ok(Read::Nothing);
    }
    match shelf.stickers_of(StickerKind::Song, uri) {
        Ok(entries) => Ok(Read::Entries(Entries::of(entries))),
        Err(ShelfFault::NoMemory) => Err(AllocError),
        Err(fault) => Ok(Read::Refused(fault)),
    }
}

/// Asks which songs have a sticker of a name, if the name can be one's.
fn ask_found<S: Shelf>(
    library: &Library,
    shelf: &mut S,
    uri: &str,
    name: &str,
) -> Result<Read, AllocError>
    ensures changes { ChangesByReading S.standing shelf.old shelf.new result }
    ensures read { ReadsFor S.standing S.failed shelf.old shelf.new (asks_found library.now uri.now name.now) result }
{
    if !is_song_or_folder(library, uri) || !is_sticker_name(name) {
        return Ok(Read::Nothing);
    }
    match shelf.find_stickers(StickerKind::Song, name) {
        Ok(entries) => Ok(Read::Entries(Entries::of(entries))),
        Err(ShelfFault::NoMemory) => Err(AllocError),
        Err(fault) => Ok(Read::Refused(fault)),
    }
}
