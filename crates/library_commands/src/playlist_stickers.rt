//! The commands of stickers that stored playlists have (MPD protocol reference, Stickers; that playlists have
//! some is this profile's). The shelf says whether a playlist is there with what it answers of its sticker.
ghost use Rattle.std.specs.Prelude.{◌≡◌, IfOk, Some, None};
ghost use Rattle.std.specs.Option.{option_copied};
ghost use Rattle.player_state.specs.declared.effect.Effect.TheVariants.{ByCommand};
ghost use Rattle.player_state.specs.declared.effect.CommandEffect.TheVariants.{Rests};
ghost use Rattle.library_commands.specs.Stickers.{asks_for_lists, asks_of_list, delete_of_list, find_lists, first_refusal as first_refusal_lem, get_of_list, is_missing as is_missing_lem, refused_for, set_of_list, show_list as show_one, show_lists as show_lists_lem, show_stickers as show_stickers_lem};
ghost use Rattle.library_commands.specs.Playlists.{named};
ghost use Rattle.transitions.specs.Shelves.{ReadsFor, ChangesByReading};
ghost use Rattle.transitions.specs.Transitions.{IsDecidedBy};

use crate::playlists::{misread, refused};
use crate::stickers::{set_value, show_stickers, show_value};
use mpd_command::Comparison;
use mpd_text::{Answer, Text};
use shelf::{Shelf, ShelfFault, StickerKind, is_list_name, is_sticker_name};
use shelf_contents::{found_list_line, found_list_lines};
use std::alloc::{AllocError, Global};
use transitions::{Asked, Entries, Read, ShelfWrite, Transition};

/// What refuses a command before its sticker is looked at.
#[derive(Clone, Copy, PartialEq, Eq)]
pub enum Refusal {
    /// The name of the playlist, which can be none's.
    ListName,
    /// The playlist, which is not there.
    NoList,
    /// The name of the sticker, which can be none's.
    StickerName,
}

/// The first of these refusals.
fn first_refusal(read: &Read, list: &str, name: &str) -> Option<Refusal>
    ensures { result ≡ first_refusal_lem read.now list.now name.now }
{
    if !is_list_name(list) {
        Some(Refusal::ListName)
    } else if is_missing(read) {
        Some(Refusal::NoList)
    } else if !is_sticker_name(name) {
        Some(Refusal::StickerName)
    } else {
        None
    }
}

/// Whether the shelf said that the stored playlist is not there.
fn is_missing(read: &Read) -> bool
    ensures { result ≡ is_missing_lem read.now }
{
    matches!(read, Read::Refused(ShelfFault::NoSuchList))
}

fn refuse(
    alloc: Global,
    asked: Asked,
    list: &Text,
    name: &Text,
    refusal: Refusal,
) -> Result<Transition, AllocError>
    ensures transition { IsDecidedBy result (refused_for asked list.now name.now refusal) }
    ensures rests { IfOk result (λ transition. transition.effect ≡ ByCommand Rests) }
{
    match refusal {
        Refusal::ListName => Transition::bad_name(alloc, asked, list.as_str()),
        Refusal::NoList => refused(alloc, asked, ShelfFault::NoSuchList),
        Refusal::StickerName => Transition::bad_name(alloc, asked, name.as_str()),
    }
}

/// `sticker get playlist LIST NAME`.
pub(crate) fn get(
    alloc: Global,
    asked: Asked,
    read: &Read,
    list: &Text,
    name: &Text,
) -> Result<Transition, AllocError>
    ensures transition { IsDecidedBy result (get_of_list asked read.now list.now name.now) }
    ensures rests { IfOk result (λ transition. transition.effect ≡ ByCommand Rests) }
{
    match first_refusal(read, list.as_str(), name.as_str()) {
        Some(refusal) => refuse(alloc, asked, list, name, refusal),
        None => show_value(alloc, asked, read, name),
    }
}

/// `sticker set playlist LIST NAME VALUE`.
pub(crate) fn set(
    alloc: Global,
    asked: Asked,
    read: &Read,
    list: &Text,
    name: &Text,
    value: &Text,
) -> Result<Transition, AllocError>
    ensures transition { IsDecidedBy result (set_of_list asked read.now list.now name.now value.now) }
    ensures rests { IfOk result (λ transition. transition.effect ≡ ByCommand Rests) }
{
    match first_refusal(read, list.as_str(), name.as_str()) {
        Some(refusal) => refuse(alloc, asked, list, name, refusal),
        None => {
            let kind = StickerKind::Playlist;
            set_value(alloc, asked, read, kind, list.as_str(), name, value)
        }
    }
}

/// `sticker delete playlist LIST [NAME]`.
pub(crate) fn delete(
    alloc: Global,
    asked: Asked,
    read: &Read,
    list: &Text,
    name: Option<&Text>,
) -> Result<Transition, AllocError>
    ensures transition { IsDecidedBy result (delete_of_list asked read.now list.now (option_copied name.entry)) }
    ensures rests { IfOk result (λ transition. transition.effect ≡ ByCommand Rests) }
{
    match name {
        Some(name) => delete_one(alloc, asked, read, list, name),
        None => delete_all(alloc, asked, list),
    }
}

fn delete_one(
    alloc: Global,
    asked: Asked,
    read: &Read,
    list: &Text,
    name: &Text,
) -> Result<Transition, AllocError>
    ensures transition { IsDecidedBy result (delete_of_list asked read.now list.now (Some name.now)) }
    ensures rests { IfOk result (λ transition. transition.effect ≡ ByCommand Rests) }
{
    if let Some(refusal) = first_refusal(read, list.as_str(), name.as_str()) {
        return refuse(alloc, asked, list, name, refusal);
    }
    let list = Text::new(alloc, list.as_str())?;
    let name = Text::new(alloc, name.as_str())?;
    let write = ShelfWrite::DeleteSticker(StickerKind::Playlist, list, name);
    Transition::writes(alloc, asked, write)
}

fn delete_all(alloc: Global, asked: Asked, list: &Text) -> Result<Transition, AllocError>
    ensures transition { IsDecidedBy result (delete_of_list asked Read.Nothing list.now None) }
    ensures rests { IfOk result (λ transition. transition.effect ≡ ByCommand Rests) }
{
    if !is_list_name(list.as_str()) {
        return Transition::bad_name(alloc, asked, list.as_str());
    }
    let list = Text::new(alloc, list.as_str())?;
    let write = ShelfWrite::DeleteStickers(StickerKind::Playlist, list);
    Transition::writes(alloc, asked, write)
}

/// `sticker list playlist LIST`.
pub(crate) fn list(
    alloc: Global,
    asked: Asked,
    read: &Read,
    list: &Text,
) -> Result<Transition, AllocError>
    ensures transition { IsDecidedBy result (named asked list.now (show_stickers_lem asked read.now)) }
    ensures rests { IfOk result (λ transition. transition.effect ≡ ByCommand Rests) }
{
    if !is_list_name(list.as_str()) {
        return Transition::bad_name(alloc, asked, list.as_str());
    }
    show_stickers(alloc, asked, read)
}

/// `sticker find playlist LIST NAME [=|<|> VALUE]`: an empty name is that of all stored playlists.
pub(crate) fn find(
    alloc: Global,
    asked: Asked,
    read: &Read,
    list: &Text,
    name: &Text,
    test: Option<&Comparison>,
) -> Result<Transition, AllocError>
    ensures transition { IsDecidedBy result (find_lists asked read.now list.now name.now (option_copied test.entry)) }
    ensures rests { IfOk result (λ transition. transition.effect ≡ ByCommand Rests) }
{
    if list.as_str().is_empty() {
        if !is_sticker_name(name.as_str()) {
            return Transition::bad_name(alloc, asked, name.as_str());
        }
        return show_lists(alloc, asked, read, name, test);
    }
    match first_refusal(read, list.as_str(), name.as_str()) {
        Some(refusal) => refuse(alloc, asked, list, name, refusal),
        None => show_list(alloc, asked, read, list, name, test),
    }
}

fn show_lists(
    alloc: Global,
    asked: Asked,
    read: &Read,
    name: &Text,
    test: Option<&Comparison>,
) -> Result<Transition, AllocError>
    ensures transition { IsDecidedBy result (show_lists_lem asked read.now name.now (option_copied test.entry)) }
    ensures rests { IfOk result (λ transition. transition.effect ≡ ByCommand Rests) }
{
    match read {
        Read::Entries(entries) => {
            let entries = entries.as_slice();
            let found = found_list_lines(alloc, name.as_str(), entries, test)?;
            Transition::shows(asked, found)
        }
        Read::Refused(fault) => refused(alloc, asked, *fault),
        _ => misread(alloc, asked),
    }
}

fn show_list(
    alloc: Global,
    asked: Asked,
    read: &Read,
    list: &Text,
    name: &Text,
    test: Option<&Comparison>,
) -> Result<Transition, AllocError>
    ensures transition { IsDecidedBy result (show_one asked read.now list.now name.now (option_copied test.entry)) }
    ensures rests { IfOk result (λ transition. transition.effect ≡ ByCommand Rests) }
{
    match read {
        Read::Value(value) => {
            let list = list.as_str();
            let found = found_list_line(alloc, list, name.as_str(), value.as_str(), test)?;
            Transition::shows(asked, found)
        }
        Read::Refused(ShelfFault::NoSticker) => Transition::shows(asked, Answer::new(alloc)),
        Read::Refused(fault) => refused(alloc, asked, *fault),
        _ => misread(alloc, asked),
    }
}

/// Asks for the sticker of a stored playlist, if its name can be one's.
pub(crate) fn ask<S: Shelf>(shelf: &mut S, list: &str, name: &str) -> Result<Read, AllocError>
    ensures changes { ChangesByReading S.standing shelf.old shelf.new result }
    ensures read { ReadsFor S.standing S.failed shelf.old shelf.new (asks_of_list list.now name.now) result }
{
    if !is_list_name(list) {
        return Ok(Read::Nothing);
    }
    match shelf.sticker(StickerKind::Playlist, list, name) {
        Ok(value) => Ok(Read::Value(Text::of(value))),
        Err(ShelfFault::NoMemory) => Err(AllocError),
        Err(fault) => Ok(Read::Refused(fault)),
    }
}

/// Asks for the sticker of one stored playlist, or where the name is empty which have one of this name.
pub(crate) fn ask_to_find<S: Shelf>(
    shelf: &mut S,
    list: &str,
    name: &str,
) -> Result<Read, AllocError>
    ensures changes { ChangesByReading S.standing shelf.old shelf.new result }
    ensures read { ReadsFor S.standing S.failed shelf.old shelf.new (asks_for_lists list.now name.now) result }
{
    if !list.is_empty() {
        return ask(shelf, list, name);
    }
    if !is_sticker_name(name) {
        return Ok(Read::Nothing);
    }
    match shelf.find_stickers(StickerKind::Playlist, name) {
        Ok(entries) => Ok(Read::Entries(Entries::of(entries))),
        Err(ShelfFault::NoMemory) => Err(AllocError),
        Err(fault) => Ok(Read::Refused(fault)),
    }
}
