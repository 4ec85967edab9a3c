//! The commands that ask for songs and folders of the library, and add songs of it (MPD protocol reference,
//! The music database).
ghost use Rattle.std.specs.Prelude.{◌≡◌, ◌++◌, [], Some, IfOk, OnOk, map, take, drop};
ghost use Rattle.std.specs.Option.{option_copied};
ghost use Rattle.filters.specs.Expressions.{Under};
ghost use Rattle.std.specs.List.{flat_map};
ghost use Rattle.mpd_text.specs.Answers.Answer.{pair_line};
ghost use Rattle.player_state.specs.declared.effect.CommandEffect.TheVariants.{Rests};
ghost use Rattle.player_state.specs.declared.effect.Effect.TheVariants.{ByCommand};
ghost use Rattle.known_tags.specs.KnownTags.{read_of, text_of};
ghost use Rattle.library_commands.specs.Database.{album_art as album_art_lem, append_found as append_found_lem, asks_names, columns_of, count_found as count_found_lem, count_songs as count_songs_lem, find as find_lem, find_add as find_add_lem, labels_of, lines_with, lines_in, lines_of_folders, lines_of_uris, list as list_lem, list_all as list_all_lem, list_all_info as list_all_info_lem, list_folder as list_folder_lem, list_folder_info as list_folder_info_lem, list_info as list_info_lem, list_path as list_path_lem, list_root as list_root_lem, list_texts as list_texts_lem, list_uris as list_uris_lem, no_such_directory as no_such_directory_lem, ordered as ordered_lem, question_of, read_nothing as read_nothing_lem, result_of, search_add_list as search_add_list_lem, selected as selected_lem, show_folder as show_folder_lem, show_song as show_song_lem, show_uri as show_uri_lem, shows_playlists as shows_playlists_lem, unreadable as unreadable_lem, update as update_lem, uri_or_all as uri_or_all_lem, windowed as windowed_lem};
ghost use Rattle.transitions.specs.Shelves.{ReadsFor, ChangesByReading};
ghost use Rattle.transitions.specs.Transitions.{IsDecidedBy};
ghost use Rattle.player_state.specs.Fits.{Fits};

use crate::playlists::{append, ask_list, ask_names, misread, refused};
use crate::stickers::is_song;
use command_arguments::{Criteria, Position, Uri, Window};
use filters::{Case, Filter, Test, Vocabulary};
use known_tags::{KnownTag, TagSet, push_shared_with};
use mpd_command::DatabaseCommand;
use mpd_text::{Answer, ErrorNumber, Sequence, Song, TagName, Text};
use player_state::{Library, Part};
use queue_commands::queue_edits::{add_songs, shares_of_found};
use selections::{Counting, Grouping, Selection, SortBy};
use shelf::{Shelf, is_list_name};
use shelf_contents::push_names;
use song_db::SharedSong;
use song_groups::{count_groups, order, push_counts, push_tuples, tuples};
use song_search::{counted, find as find_songs, is_folder, list_folder as direct_in, under};
use std::alloc::{AllocError, Global};
use transitions::{Asked, Read, Transition};

/// The rows: what each command of the library asks of the player.
#[rattlefmt::skip]
#[tactic(auto, unfolding(crate::specs::Database::result_of))]
pub fn run(alloc: Global, asked: Asked, part: &Part, library: &Library, read: &Read, command: &DatabaseCommand) -> Result<Transition, AllocError>
    ensures transition { IsDecidedBy result (result_of asked part.now library.now read.now command.now) }
    ensures fits { IfOk result (λ transition. Fits part.now transition.effect) }
{
    match command {
        DatabaseCommand::AlbumArt(uri, _) => album_art(alloc, asked, library, uri),
        DatabaseCommand::Count(counting) => count(alloc, asked, library, counting),
        DatabaseCommand::Find(selection) => find(alloc, asked, library, Case::Heeded, selection),
        DatabaseCommand::FindAdd(selection, position) => find_add(alloc, asked, part, library, Case::Heeded, selection, *position),
        DatabaseCommand::List(grouping) => list(alloc, asked, library, grouping),
        DatabaseCommand::ListAll(uri, everyday) => list_all(alloc, asked, library, uri_or_all(uri.as_ref()), *everyday),
        DatabaseCommand::ListAllInfo(uri) => list_all_info(alloc, asked, library, uri_or_all(uri.as_ref())),
        DatabaseCommand::LsInfo(uri, everyday) => list_info(alloc, asked, library, read, uri_or_all(uri.as_ref()), *everyday),
        DatabaseCommand::ReadComments(uri) => read_nothing(alloc, asked, library, uri),
        DatabaseCommand::ReadPicture(uri, _) => read_nothing(alloc, asked, library, uri),
        DatabaseCommand::Rescan(_) => update(alloc, asked, library),
        DatabaseCommand::Search(selection) => find(alloc, asked, library, Case::Ignored, selection),
        DatabaseCommand::SearchAdd(selection, position) => find_add(alloc, asked, part, library, Case::Ignored, selection, *position),
        DatabaseCommand::SearchAddPl(name, selection) => search_add_list(alloc, asked, library, read, name, selection),
        DatabaseCommand::Update(_) => update(alloc, asked, library),
    }
}

fn find(
    alloc: Global,
    asked: Asked,
    library: &Library,
    case: Case,
    selection: &Selection,
) -> Result<Transition, AllocError>
    ensures { IsDecidedBy result (find_lem asked library.now case selection.now) }
{
    match &selection.criteria {
        Criteria::Meeting(filter) => {
            let songs = ordered(alloc, library, filter, case, selection.sort)?;
            let shown = windowed(&songs, selection.window);
            let mut lines = Answer::new(alloc);
            push_songs(&mut lines, library, shown, asked.tags)?;
            Transition::shows(asked, lines)
        }
        Criteria::Refused(text) => unreadable(alloc, asked, text.as_str()),
    }
}

/// The songs that meet a filter: in byte order of URI, or in the order of a tag.
fn ordered<'a>(
    alloc: Global,
    library: &'a Library,
    filter: &Filter,
    case: Case,
    sort: Option<SortBy>,
) -> Result<Vec<&'a SharedSong>, AllocError>
    ensures { IfOk result (λ songs. map (λ song. song.now) songs.items ≡ ordered_lem library.now case filter.now sort) }
{
    let mut songs = find_songs(alloc, library.songs.db(), filter, case)?;
    if let Some(by) = sort {
        order(&mut songs, by.tag.read_as(), by.falling)?;
    }
    Ok(songs)
}

/// A filter that cannot be read.
fn unreadable(alloc: Global, asked: Asked, text: &str) -> Result<Transition, AllocError>
    ensures { IsDecidedBy result (unreadable_lem asked text.now) }
{
    Transition::refuses(alloc, asked, ErrorNumber::Argument, text)
}

/// The songs that a window shows. It ends with the last of them.
#[tactic(auto, using(crate::proofs::Windows::shown))]
fn windowed<'a, 'b>(songs: &'b [&'a SharedSong], window: Option<Window>) -> &'b [&'a SharedSong]
    ensures { map (λ song. song.now) result.now ≡ windowed_lem window (map (λ song. song.now) songs.now) }
{
    let Some(window) = window else {
        return songs;
    };
    let count = window.end.saturating_sub(window.start);
    first(after(songs, window.start as usize), count as usize)
}

/// The songs from a position on.
fn after<'a, 'b>(songs: &'b [&'a SharedSong], start: usize) -> &'b [&'a SharedSong]
    ensures { result.now ≡ drop start songs.now }
{
    if start >= songs.len() {
        return &[];
    }
    &songs[start..]
}

/// The first songs, up to so many.
fn first<'a, 'b>(songs: &'b [&'a SharedSong], count: usize) -> &'b [&'a SharedSong]
    ensures { result.now ≡ take count songs.now }
{
    if count >= songs.len() {
        return songs;
    }
    &songs[..count]
}

/// Appends the lines of songs that were found.
#[tactic(auto, unfolding(crate::specs::Database::lines_of_songs))]
fn push_songs(
    lines: &mut Answer,
    library: &Library,
    songs: &[&SharedSong],
    tags: TagSet,
) -> Result<(), AllocError>
    ensures { OnOk result (lines.new ≡ lines.old ++ lines_with tags library.now (map (λ song. song.now) songs.now)) }
{
    for song in songs {
        push_shared_with(lines, *song, &library.rate, tags)?;
    }
    Ok(())
}

fn find_add(
    alloc: Global,
    asked: Asked,
    part: &Part,
    library: &Library,
    case: Case,
    selection: &Selection,
    position: Option<Position>,
) -> Result<Transition, AllocError>
    ensures transition { IsDecidedBy result (find_add_lem asked part.now library.now case selection.now position) }
    ensures fits { IfOk result (λ transition. Fits part.now transition.effect) }
{
    match &selection.criteria {
        Criteria::Meeting(filter) => {
            let songs = selected(alloc, library, filter, case, selection)?;
            add_songs(alloc, asked, part, songs, position)
        }
        Criteria::Refused(text) => unreadable(alloc, asked, text.as_str()),
    }
}

/// A handle to each of the songs that a selection shows.
fn selected(
    alloc: Global,
    library: &Library,
    filter: &Filter,
    case: Case,
    selection: &Selection,
) -> Result<Sequence<SharedSong>, AllocError>
    ensures { IfOk result (λ songs. songs ≡ selected_lem library.now case filter.now selection.now) }
{
    let songs = ordered(alloc, library, filter, case, selection.sort)?;
    shares_of_found(alloc, windowed(&songs, selection.window))
}

/// Puts the songs that a selection shows at the end of a stored playlist; where there are none, nothing is
/// done.
fn search_add_list(
    alloc: Global,
    asked: Asked,
    library: &Library,
    read: &Read,
    name: &Text,
    selection: &Selection,
) -> Result<Transition, AllocError>
    ensures transition { IsDecidedBy result (search_add_list_lem asked library.now read.now name.now selection.now) }
    ensures rests { IfOk result (λ transition. transition.effect ≡ ByCommand Rests) }
{
    if !is_list_name(name.as_str()) {
        return Transition::bad_name(alloc, asked, name.as_str());
    }
    match &selection.criteria {
        Criteria::Meeting(filter) => {
            let songs = selected(alloc, library, filter, Case::Ignored, selection)?;
            append_found(alloc, asked, read, name, songs.items())
        }
        Criteria::Refused(text) => unreadable(alloc, asked, text.as_str()),
    }
}

/// Puts songs at the end of a stored playlist, if there are some.
fn append_found(
    alloc: Global,
    asked: Asked,
    read: &Read,
    name: &Text,
    songs: &[SharedSong],
) -> Result<Transition, AllocError>
    ensures transition { IsDecidedBy result (append_found_lem asked read.now name.now songs.now) }
    ensures rests { IfOk result (λ transition. transition.effect ≡ ByCommand Rests) }
{
    if songs.is_empty() {
        return Transition::shows(asked, Answer::new(alloc));
    }
    append(alloc, asked, read, name, songs)
}

fn list(
    alloc: Global,
    asked: Asked,
    library: &Library,
    grouping: &Grouping,
) -> Result<Transition, AllocError>
    ensures transition { IsDecidedBy result (list_lem asked library.now grouping.now) }
    ensures rests { IfOk result (λ transition. transition.effect ≡ ByCommand Rests) }
{
    let tags = grouping.tags.items();
    match &grouping.criteria {
        None => list_texts(alloc, asked, library, tags, &all_songs(alloc)?),
        Some(Criteria::Meeting(filter)) => list_texts(alloc, asked, library, tags, filter),
        Some(Criteria::Refused(text)) => unreadable(alloc, asked, text.as_str()),
    }
}

/// The filter that all songs meet.
fn all_songs(alloc: Global) -> Result<Filter, AllocError>
    ensures { IfOk result (λ filter. filter ≡ Under []) }
{
    match Filter::of_pairs(alloc, &[], Test::Equals, Vocabulary::Base) {
        Ok(filter) => Ok(filter),
        Err(_) => Err(AllocError),
    }
}

/// The texts of a tag among the songs that meet a filter, for each text of the tags after it.
#[tactic(auto, unfolding(crate::specs::Database::list_texts))]
fn list_texts(
    alloc: Global,
    asked: Asked,
    library: &Library,
    tags: &[KnownTag],
    filter: &Filter,
) -> Result<Transition, AllocError>
    ensures transition { IsDecidedBy result (list_texts_lem asked library.now tags.now filter.now) }
    ensures rests { IfOk result (λ transition. transition.effect ≡ ByCommand Rests) }
{
    let songs = find_songs(alloc, library.songs.db(), filter, Case::Heeded)?;
    let found = tuples(alloc, &songs, &columns(alloc, tags)?)?;
    let labels = labels(alloc, tags)?;
    let mut lines = Answer::new(alloc);
    push_tuples(&mut lines, &labels, &found)?;
    Transition::shows(asked, lines)
}

/// The columns of tags that are listed and grouped by.
fn columns(alloc: Global, tags: &[KnownTag]) -> Result<Vec<Option<TagName>>, AllocError>
    ensures { IfOk result (λ columns. columns.items ≡ columns_of tags.now) }
{
    let mut columns = tags_read(alloc, tags)?;
    columns.reverse();
    Ok(columns)
}

fn tags_read(alloc: Global, tags: &[KnownTag]) -> Result<Vec<Option<TagName>>, AllocError>
    ensures { IfOk result (λ read. read.items ≡ map read_of tags.now) }
{
    tags.iter().map(|tag| tag.read_as()).collect(alloc)
}

/// The names of their columns.
#[tactic(auto, using(crate::proofs::Columns::reversed))]
fn labels(alloc: Global, tags: &[KnownTag]) -> Result<Vec<&'static str>, AllocError>
    ensures { IfOk result (λ labels. map (λ label. label.now) labels.items ≡ labels_of tags.now) }
{
    let mut labels = names(alloc, tags)?;
    labels.reverse();
    Ok(labels)
}

fn names(alloc: Global, tags: &[KnownTag]) -> Result<Vec<&'static str>, AllocError>
    ensures { IfOk result (λ names. map (λ name. name.now) names.items ≡ map text_of tags.now) }
{
    let mut names = Vec::new(alloc);
    for tag in tags {
        names.push(tag.text())?;
    }
    Ok(names)
}

fn count(
    alloc: Global,
    asked: Asked,
    library: &Library,
    counting: &Counting,
) -> Result<Transition, AllocError>
    ensures { IsDecidedBy result (count_songs_lem asked library.now counting.now) }
{
    match &counting.criteria {
        None => count_found(alloc, asked, library, counting.group, &all_songs(alloc)?),
        Some(Criteria::Meeting(filter)) => {
            count_found(alloc, asked, library, counting.group, filter)
        }
        Some(Criteria::Refused(text)) => unreadable(alloc, asked, text.as_str()),
    }
}

/// How many songs meet a filter and how long they play: together, or for each text of a tag.
fn count_found(
    alloc: Global,
    asked: Asked,
    library: &Library,
    group: Option<KnownTag>,
    filter: &Filter,
) -> Result<Transition, AllocError>
    ensures { IsDecidedBy result (count_found_lem asked library.now group filter.now) }
{
    let mut lines = Answer::new(alloc);
    match group {
        None => {
            let count = counted(library.songs.db(), filter, &library.rate);
            lines.pair("songs", count.songs)?;
            lines.pair("playtime", count.seconds)?;
        }
        Some(tag) => {
            let songs = find_songs(alloc, library.songs.db(), filter, Case::Heeded)?;
            let groups = count_groups(alloc, &songs, tag.read_as(), &library.rate)?;
            push_counts(&mut lines, tag.text(), &groups)?;
        }
    }
    Transition::shows(asked, lines)
}

fn list_info(
    alloc: Global,
    asked: Asked,
    library: &Library,
    read: &Read,
    uri: &str,
    everyday: bool,
) -> Result<Transition, AllocError>
    ensures { IsDecidedBy result (list_info_lem asked library.now read.now uri.now everyday) }
{
    if shows_playlists(uri, everyday) {
        return list_root(alloc, asked, library, read);
    }
    list_path(alloc, asked, library, uri)
}

/// Whether stored playlists are shown as well: in the everyday profile, where the whole library is asked for.
fn shows_playlists(uri: &str, everyday: bool) -> bool
    ensures { result ≡ shows_playlists_lem uri.now everyday }
{
    everyday && uri.is_empty()
}

/// Shows the folders and songs right in the library, and then the stored playlists.
fn list_root(
    alloc: Global,
    asked: Asked,
    library: &Library,
    read: &Read,
) -> Result<Transition, AllocError>
    ensures { IsDecidedBy result (list_root_lem asked library.now read.now) }
{
    match read {
        Read::Names(names) => {
            let mut lines = lines_of_folder(alloc, library, "", asked.tags)?;
            push_names(&mut lines, names.as_slice())?;
            Transition::shows(asked, lines)
        }
        Read::Refused(fault) => refused(alloc, asked, *fault),
        _ => misread(alloc, asked),
    }
}

/// Shows a song, or the folders and songs right in a folder.
fn list_path(
    alloc: Global,
    asked: Asked,
    library: &Library,
    uri: &str,
) -> Result<Transition, AllocError>
    ensures { IsDecidedBy result (list_path_lem asked library.now uri.now) }
{
    match library.songs.db().handle(uri) {
        Some(song) => show_song(alloc, asked, library, song),
        None => show_folder(alloc, asked, library, uri),
    }
}

fn show_song(
    alloc: Global,
    asked: Asked,
    library: &Library,
    song: &SharedSong,
) -> Result<Transition, AllocError>
    ensures { IsDecidedBy result (show_song_lem asked library.now song.now) }
{
    let mut lines = Answer::new(alloc);
    push_shared_with(&mut lines, song, &library.rate, asked.tags)?;
    Transition::shows(asked, lines)
}

/// The URI that is asked for: the whole library, where none is.
fn uri_or_all(uri: Option<&Uri>) -> &str
    ensures { result.now ≡ uri_or_all_lem (option_copied uri.entry) }
{
    match uri {
        Some(uri) => uri.0.as_str(),
        None => "",
    }
}

/// Shows the folders and songs right in a folder.
fn show_folder(
    alloc: Global,
    asked: Asked,
    library: &Library,
    folder: &str,
) -> Result<Transition, AllocError>
    ensures { IsDecidedBy result (show_folder_lem asked library.now folder.now) }
{
    if !is_folder(library.songs.db(), folder) {
        return no_such_directory(alloc, asked);
    }
    let lines = lines_of_folder(alloc, library, folder, asked.tags)?;
    Transition::shows(asked, lines)
}

/// The lines of the folders right in a folder, and then of the songs.
fn lines_of_folder(
    alloc: Global,
    library: &Library,
    folder: &str,
    tags: TagSet,
) -> Result<Answer, AllocError>
    ensures { IfOk result (λ lines. lines ≡ lines_in tags library.now folder.now) }
{
    let found = direct_in(alloc, library.songs.db(), folder)?;
    let mut lines = folder_lines(alloc, &found.folders)?;
    push_songs(&mut lines, library, &found.songs, tags)?;
    Ok(lines)
}

fn no_such_directory(alloc: Global, asked: Asked) -> Result<Transition, AllocError>
    ensures { IsDecidedBy result (no_such_directory_lem asked) }
{
    Transition::refuses(alloc, asked, ErrorNumber::NoExist, "no such directory")
}

#[tactic(auto, unfolding(crate::specs::Database::lines_of_folders))]
fn folder_lines(alloc: Global, folders: &[&str]) -> Result<Answer, AllocError>
    ensures { IfOk result (λ lines. lines ≡ lines_of_folders (map (λ text. text.now) folders.now)) }
{
    let mut lines = Answer::new(alloc);
    for folder in folders {
        lines.pair("directory", *folder)?;
    }
    Ok(lines)
}

fn list_all(
    alloc: Global,
    asked: Asked,
    library: &Library,
    uri: &str,
    everyday: bool,
) -> Result<Transition, AllocError>
    ensures { IsDecidedBy result (list_all_lem asked library.now uri.now everyday) }
{
    if everyday {
        return list_uris(alloc, asked, library, uri);
    }
    list_folder(alloc, asked, library, uri)
}

/// Shows the URI of a song, or those of all songs under a folder.
fn list_uris(
    alloc: Global,
    asked: Asked,
    library: &Library,
    uri: &str,
) -> Result<Transition, AllocError>
    ensures { IsDecidedBy result (list_uris_lem asked library.now uri.now) }
{
    match library.songs.db().get(uri) {
        Some(song) => show_uri(alloc, asked, song),
        None => list_folder(alloc, asked, library, uri),
    }
}

fn show_uri(alloc: Global, asked: Asked, song: &Song) -> Result<Transition, AllocError>
    ensures { IsDecidedBy result (show_uri_lem asked song.now) }
{
    let mut lines = Answer::new(alloc);
    lines.pair("file", song.uri())?;
    Transition::shows(asked, lines)
}

/// Shows the URIs of all songs under a folder.
fn list_folder(
    alloc: Global,
    asked: Asked,
    library: &Library,
    folder: &str,
) -> Result<Transition, AllocError>
    ensures { IsDecidedBy result (list_folder_lem asked library.now folder.now) }
{
    if !is_folder(library.songs.db(), folder) {
        return no_such_directory(alloc, asked);
    }
    let lines = uri_lines(alloc, under(library.songs.db(), folder))?;
    Transition::shows(asked, lines)
}

#[tactic(auto, unfolding(crate::specs::Database::lines_of_uris))]
fn uri_lines(alloc: Global, songs: &[SharedSong]) -> Result<Answer, AllocError>
    ensures { IfOk result (λ lines. lines ≡ lines_of_uris songs.now) }
{
    let mut lines = Answer::new(alloc);
    for song in songs {
        lines.pair("file", song.song().uri())?;
    }
    Ok(lines)
}

fn list_all_info(
    alloc: Global,
    asked: Asked,
    library: &Library,
    uri: &str,
) -> Result<Transition, AllocError>
    ensures { IsDecidedBy result (list_all_info_lem asked library.now uri.now) }
{
    match library.songs.db().handle(uri) {
        Some(song) => show_song(alloc, asked, library, song),
        None => list_folder_info(alloc, asked, library, uri),
    }
}

/// Shows all songs under a folder.
fn list_folder_info(
    alloc: Global,
    asked: Asked,
    library: &Library,
    folder: &str,
) -> Result<Transition, AllocError>
    ensures { IsDecidedBy result (list_folder_info_lem asked library.now folder.now) }
{
    if !is_folder(library.songs.db(), folder) {
        return no_such_directory(alloc, asked);
    }
    let songs = under(library.songs.db(), folder);
    let lines = song_lines(alloc, library, songs, asked.tags)?;
    Transition::shows(asked, lines)
}

#[tactic(auto, unfolding(crate::specs::Database::lines_of_songs))]
fn song_lines(
    alloc: Global,
    library: &Library,
    songs: &[SharedSong],
    tags: TagSet,
) -> Result<Answer, AllocError>
    ensures { IfOk result (λ lines. lines ≡ lines_with tags library.now songs.now) }
{
    let mut lines = Answer::new(alloc);
    for song in songs {
        push_shared_with(&mut lines, song, &library.rate, tags)?;
    }
    Ok(lines)
}

fn album_art(
    alloc: Global,
    asked: Asked,
    library: &Library,
    uri: &Uri,
) -> Result<Transition, AllocError>
    ensures { IsDecidedBy result (album_art_lem asked library.now uri.now.0) }
{
    if !is_song(library, uri.0.as_str()) {
        return Transition::no_such_song(alloc, asked);
    }
    Transition::refuses(alloc, asked, ErrorNumber::NoExist, "no picture")
}

/// What a song's file says that the library does not know, and the picture in it: there is none.
fn read_nothing(
    alloc: Global,
    asked: Asked,
    library: &Library,
    uri: &Uri,
) -> Result<Transition, AllocError>
    ensures { IsDecidedBy result (read_nothing_lem asked library.now uri.now.0) }
{
    if !is_song(library, uri.0.as_str()) {
        return Transition::no_such_song(alloc, asked);
    }
    Transition::shows(asked, Answer::new(alloc))
}

fn update(alloc: Global, asked: Asked, library: &Library) -> Result<Transition, AllocError>
    ensures { IsDecidedBy result (update_lem asked library.now) }
{
    if library.scan.running().is_some() {
        let text = "already updating";
        return Transition::refuses(alloc, asked, ErrorNumber::UpdateAlready, text);
    }
    let mut lines = Answer::new(alloc);
    lines.pair("updating_db", library.scan.next())?;
    Transition::begins_scan(asked, lines)
}

/// Asks the shelf what a command asks of it.
pub(crate) fn ask<S: Shelf>(shelf: &mut S, command: &DatabaseCommand) -> Result<Read, AllocError>
    ensures changes { ChangesByReading S.standing shelf.old shelf.new result }
    ensures read { ReadsFor S.standing S.failed shelf.old shelf.new (question_of command.now) result }
{
    match command {
        DatabaseCommand::LsInfo(uri, everyday) => ask_playlists(
            shelf,
            uri_or_all(uri.as_ref()),
            *everyday,
        ),
        DatabaseCommand::SearchAddPl(name, _) => ask_list(shelf, name.as_str()),
        _ => Ok(Read::Nothing),
    }
}

/// Asks for the names of all stored playlists, where they are shown.
fn ask_playlists<S: Shelf>(shelf: &mut S, uri: &str, everyday: bool) -> Result<Read, AllocError>
    ensures changes { ChangesByReading S.standing shelf.old shelf.new result }
    ensures read { ReadsFor S.standing S.failed shelf.old shelf.new (asks_names uri.now everyday) result }
{
    if !shows_playlists(uri, everyday) {
        return Ok(Read::Nothing);
    }
    ask_names(shelf)
}
