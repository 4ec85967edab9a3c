//! What each event is to do, and what it answers.
ghost use Rattle.player_state.specs.declared.effect.Effect.TheVariants.{ByCommand};
ghost use Rattle.player_state.specs.declared.effect.CommandEffect.TheVariants.{Rests};
ghost use Rattle.std.specs.Prelude.{◌≡◌, None, IfOk, map};
ghost use Rattle.std.specs.Option.{option_copied};
ghost use Rattle.partition_table.specs.Parts.{FitsIn, known};
ghost use Rattle.player_state.specs.Fits.{Fits};
ghost use Rattle.transitions.specs.Shelves.{is_ok_read};
ghost use Rattle.transitions.specs.Transitions.{IsOfCommand};
ghost use Rattle.partition.specs.Applying.{ActsForEvent, FitsEvent, OkGives, OkGivesAsked, OkGivesRun};
ghost use Rattle.partition.specs.Applying.{OkGivesLine, OkGivesRequest, WritesAlone};
ghost use Rattle.partition.specs.Applying.{index_in_state, run_in as run_in_lem};
ghost use Rattle.partition.specs.Image.{image_of_state};
ghost use Rattle.partition.specs.Lent.{ReadsFor, ChangesByRead};
ghost use Rattle.partition.specs.Step.{asked_by as asked_by_lem, ends_waiting as ends_waiting_lem};
ghost use Rattle.partition.specs.Step.{index_in as index_in_lem, index_of as index_of_lem};
ghost use Rattle.partition.specs.Step.{sender_in as sender_in_lem, response_to_new, transition};
ghost use Rattle.partition.specs.Step.{failure as failure_lem, have as have_lem, want as want_lem};
ghost use Rattle.partition.specs.Step.{ended_scan, output_turn, question_of_scan};
ghost use Rattle.player_events.specs.Events.{store_reply_at};
ghost use Rattle.partition_commands.specs.Partitions.{seated};

use crate::state::{MAX_CLIENTS, State};
use connected_clients::find_client;
use library_commands::asking::ask;
use library_commands::{database, playlists, stickers};
use mpd_command::{Command, Name, Request, StatusCommand};
use partition_table::Parts;
use player_events::Event;
use player_state::{AudioStep, Client, Library, Part, ScanMove};
use queue_commands::{playback, queue};
use shelf::Shelf;
use song_db::SharedDb;
use status_commands::status::wish;
use status_commands::{connection, messages, options, outputs, status};
use std::alloc::{AllocError, Global};
use transitions::{
    Asked, EarlyReport, ListPlace, Move, Read, Response, Transition, disconnects, refuses_line,
    tells,
};

/// What an event asks for.
pub(crate) fn transition_of_event(
    alloc: Global,
    state: &State,
    event: &Event,
) -> Result<Transition, AllocError>
    requires { (store_reply_at event.now).refused ≡ None }
    ensures transition { OkGives result (transition (image_of_state state.now) event.now) }
    ensures alone { IfOk result WritesAlone }
    ensures fits { IfOk result (FitsEvent state.now event.now) }
    ensures lone { IfOk result (ActsForEvent state.now event.now) }
{
    let client = sender_in(&state.clients, event);
    let part = state.parts.at(index_of(&state.parts, client, event));
    match event {
        Event::Connect(_) => Ok(Transition::only(connect(alloc, &state.clients, client)?)),
        Event::Disconnect(number) => Ok(Transition::departs(alloc, *number)),
        Event::Line {
            list_place,
            request,
            heard,
            ..
        } => {
            let transition = answer_line(
                alloc,
                state,
                part,
                client,
                *list_place,
                request,
                &heard.read,
            )?;
            Ok(transition.once_written())
        }
        Event::ScanQuestion => Ok(scan_question(alloc, state)),
        Event::ScanResult(songs, second) => end_scan(
            alloc,
            &state.library,
            songs.as_ref(),
            *second,
        ),
        Event::Want(_, owes) => Ok(want(alloc, state.ended, part, *owes)),
        Event::Have(_, number, frames) => Ok(have(alloc, state.ended, part, *number, *frames)),
        Event::Failed(_, number, of_partner) => Ok(failure(alloc, part, *number, *of_partner)),
        Event::OutputTurn {
            output,
            written,
            discarded,
            failed,
        } => {
            let turn = AudioStep::Settles {
                output: *output,
                written: *written,
                discarded: *discarded,
                failed: *failed,
            };
            Ok(settle(alloc, part, *output, turn).or_ended(state.ended))
        }
        Event::End => { Ok(Transition::reports(alloc, ScanMove::Stay, EarlyReport::Nothing)) }
    }
}

/// The partition that an event happens in, by its number.
pub(crate) fn index_of_event(state: &State, event: &Event) -> u8
    ensures { result ≡ index_in_state state.now event.now }
{
    index_of(&state.parts, sender_in(&state.clients, event), event)
}

/// The client that an event comes from, if it is there.
fn sender_in(clients: &[Client], event: &Event) -> Option<Client>
    ensures { result ≡ sender_in_lem clients.now event.now }
{
    match event {
        Event::Connect(number) | Event::Disconnect(number) | Event::Line { client: number, .. } =>
            find_client(clients, *number),
        Event::ScanQuestion
        | Event::ScanResult(_, _)
        | Event::Want(_, _)
        | Event::Have(_, _, _)
        | Event::Failed(_, _, _)
        | Event::OutputTurn { .. }
        | Event::End => None,
    }
}

/// The partition that an event happens in: of its client, if that is there, of its job, or of its output; the
/// first for all others, which change nothing in it.
fn index_of(parts: &Parts, client: Option<Client>, event: &Event) -> u8
    ensures { result ≡ index_of_lem (map known parts.now) client event.now }
{
    match event {
        Event::Connect(_) | Event::Disconnect(_) | Event::Line { .. } => index_in(client),
        Event::Want(index, _) | Event::Have(index, _, _) | Event::Failed(index, _, _) => *index,
        Event::OutputTurn { output, .. } => parts.holder(*output).unwrap_or(0),
        Event::ScanQuestion | Event::ScanResult(_, _) | Event::End => 0,
    }
}

fn index_in(client: Option<Client>) -> u8
    ensures { result ≡ index_in_lem client }
{
    match client {
        Some(client) => client.index,
        None => 0,
    }
}

/// The scanner asks for a scan to do.
fn scan_question(alloc: Global, state: &State) -> Transition
    ensures { result ≡ question_of_scan state.now.ended state.now.library }
{
    let report = if state.ended {
        EarlyReport::Ended
    } else {
        EarlyReport::ToScan(state.library.scan.running())
    };
    Transition::reports(alloc, ScanMove::Stay, report)
}

/// The decoder wants a job of a partition.
fn want(alloc: Global, ended: bool, part: Option<&Part>, owes: [bool; 8]) -> Transition
    ensures { result ≡ want_lem ended (option_copied part.entry) owes }
{
    let Some(part) = part else {
        let report = if ended {
            EarlyReport::Ended
        } else {
            EarlyReport::NoJob
        };
        return Transition::reports(alloc, ScanMove::Stay, report);
    };
    let step = AudioStep::Wants(part.outputs.owes(owes));
    Transition::acts_unless(alloc, ended, EarlyReport::Ended, step)
}

/// Frames of a job of a partition are decoded.
fn have(alloc: Global, ended: bool, part: Option<&Part>, number: u64, frames: u64) -> Transition
    ensures { result ≡ have_lem ended (option_copied part.entry) number frames }
{
    if part.is_none() {
        return Transition::reports(alloc, ScanMove::Stay, EarlyReport::NoFeed);
    }
    let step = AudioStep::Accepts(number, frames);
    Transition::acts_unless(alloc, ended, EarlyReport::NoFeed, step)
}

/// The song of a job of a partition cannot be read.
fn failure(alloc: Global, part: Option<&Part>, number: u64, of_partner: bool) -> Transition
    ensures { result ≡ failure_lem (option_copied part.entry) number of_partner }
{
    if part.is_none() {
        return Transition::reports(alloc, ScanMove::Stay, EarlyReport::Nothing);
    }
    Transition::acts(alloc, AudioStep::Fails(number, of_partner))
}

/// Ends the scan that runs at this second, with the library that it found.
fn end_scan(
    alloc: Global,
    library: &Library,
    songs: Option<&SharedDb>,
    second: u64,
) -> Result<Transition, AllocError>
    ensures transition { OkGives result (ended_scan library.now (option_copied songs.entry) second) }
    ensures rests { IfOk result (λ transition. transition.effect ≡ ByCommand Rests) }
{
    let found = match songs {
        Some(songs) => Some(songs.clone()?),
        None => None,
    };
    let ended = library.scan.running().is_some();
    Ok(Transition::reports(
        alloc,
        ScanMove::End(found, second),
        EarlyReport::ScanEnded(ended),
    ))
}

/// An output has its turn; one that is not there has nothing to play.
fn settle(alloc: Global, part: Option<&Part>, output: usize, turn: AudioStep) -> Transition
    ensures { result ≡ output_turn (option_copied part.entry) output turn }
{
    if let Some(part) = part {
        if part.outputs.is_output(output) {
            return Transition::acts(alloc, turn);
        }
    }
    Transition::reports(alloc, ScanMove::Stay, EarlyReport::NoOutput)
}

fn connect(
    alloc: Global,
    clients: &[Client],
    client: Option<Client>,
) -> Result<Response, AllocError>
    ensures { IfOk result (λ response. response ≡ response_to_new (map seated clients.now) client) }
{
    if client.is_some() {
        return Ok(tells(String::new(alloc), Move::Stay));
    }
    if clients.len() >= MAX_CLIENTS {
        return Ok(disconnects(alloc));
    }
    Ok(tells(String::from_str(alloc, "OK MPD 0.23.0\n")?, Move::Join))
}

/// Answers a line of a client, if it is there. While it waits, any other line than `noidle` closes it.
fn answer_line(
    alloc: Global,
    state: &State,
    part: Option<&Part>,
    client: Option<Client>,
    list_place: ListPlace,
    request: &Request,
    read: &Read,
) -> Result<Transition, AllocError>
    ensures transition { OkGivesLine result state.now part.entry client list_place request.now read.now }
    ensures fits { IfOk result (λ transition. FitsIn (option_copied part.entry) transition.effect) }
    ensures command { IfOk result (λ transition. IsOfCommand transition.effect) }
{
    let Some(client) = client else {
        return Ok(Transition::only(disconnects(alloc)));
    };
    if client.pending.is_waiting() && !ends_waiting(list_place, request) {
        return Ok(Transition::departs(alloc, client.number));
    }
    answer_request(alloc, state, part, client, list_place, request, read)
}

/// What an event asks the shelf, and its answer.
pub(crate) fn ask_shelf<S: Shelf>(
    library: &Library,
    clients: &[Client],
    shelf: &mut S,
    event: &Event,
) -> Result<Read, AllocError>
    ensures changes { ChangesByRead S.standing shelf.old shelf.new (is_ok_read result) }
    ensures read { ReadsFor S.standing S.failed shelf.old shelf.new library.now clients.now event.now result }
{
    let Event::Line {
        client: number,
        list_place,
        request,
        ..
    } = event
    else {
        return Ok(Read::Nothing);
    };
    let Some(client) = find_client(clients, *number) else {
        return Ok(Read::Nothing);
    };
    if client.pending.is_waiting() && !ends_waiting(*list_place, request) {
        return Ok(Read::Nothing);
    }
    match request {
        Request::Run(_, command) => ask(library, shelf, command),
        Request::Refused(_) => Ok(Read::Nothing),
    }
}

fn ends_waiting(list_place: ListPlace, request: &Request) -> bool
    ensures { result ≡ ends_waiting_lem list_place request.now }
{
    match (list_place, request) {
        (ListPlace::Alone, Request::Run(_, Command::Status(StatusCommand::NoIdle))) => true,
        _ => false,
    }
}

/// Answers what a client asks for that may.
fn answer_request(
    alloc: Global,
    state: &State,
    part: Option<&Part>,
    client: Client,
    list_place: ListPlace,
    request: &Request,
    read: &Read,
) -> Result<Transition, AllocError>
    ensures transition { OkGivesRequest result state.now part.entry client list_place request.now read.now }
    ensures fits { IfOk result (λ transition. FitsIn (option_copied part.entry) transition.effect) }
    ensures command { IfOk result (λ transition. IsOfCommand transition.effect) }
{
    match request {
        Request::Run(name, command) => {
            answer_command(alloc, state, part, read, client, *name, list_place, command)
        }
        Request::Refused(ack) => {
            let response = refuses_line(
                alloc,
                list_place,
                ack.command,
                ack.number,
                ack.text.as_str(),
            )?;
            Ok(Transition::only(response))
        }
    }
}

/// A client's wish leaves the daemon as it is; another command makes what it makes.
fn answer_command(
    alloc: Global,
    state: &State,
    part: Option<&Part>,
    read: &Read,
    client: Client,
    name: Name,
    list_place: ListPlace,
    command: &Command,
) -> Result<Transition, AllocError>
    ensures transition { OkGivesRun result state.now part.entry client name list_place command.now read.now }
    ensures fits { IfOk result (λ transition. FitsIn (option_copied part.entry) transition.effect) }
    ensures command { IfOk result (λ transition. IsOfCommand transition.effect) }
{
    let asked = asked_by(&client, name, list_place);
    match wish(alloc, asked_by(&client, name, list_place), client, command)? {
        Some(response) => Ok(Transition::only(response)),
        None => run_in(alloc, asked, state, part, read, command),
    }
}

/// A command of a client whose partition is not there closes it.
fn run_in(
    alloc: Global,
    asked: Asked,
    state: &State,
    part: Option<&Part>,
    read: &Read,
    command: &Command,
) -> Result<Transition, AllocError>
    ensures transition { OkGivesAsked result state.now part.entry asked read.now command.now }
    ensures fits { IfOk result (λ transition. FitsIn (option_copied part.entry) transition.effect) }
    ensures command { IfOk result (λ transition. IsOfCommand transition.effect) }
{
    match part {
        Some(part) => run(alloc, asked, state, part, read, command),
        None => Ok(Transition::only(disconnects(alloc))),
    }
}

/// What an answer is made for: a command of a client, which names it so and whose line comes so.
fn asked_by(client: &Client, name: Name, list_place: ListPlace) -> Asked
    ensures { result ≡ asked_by_lem client.now name list_place }
{
    Asked {
        client: client.number,
        tags: client.tags,
        name,
        list_place,
    }
}

/// What a command asks of the daemon, and what it reads of it, by its group.
fn run(
    alloc: Global,
    asked: Asked,
    state: &State,
    part: &Part,
    read: &Read,
    command: &Command,
) -> Result<Transition, AllocError>
    ensures transition { OkGives result (run_in_lem state.now part.now asked read.now command.now) }
    ensures fits { IfOk result (λ transition. Fits part.now transition.effect) }
    ensures command { IfOk result (λ transition. IsOfCommand transition.effect) }
{
    let library = &state.library;
    match command {
        Command::Status(command) => status::run(alloc, asked, part, library, command),
        Command::Options(command) => options::run(alloc, asked, part, command),
        Command::Playback(command) => playback::run(alloc, asked, part, library, command),
        Command::Queue(command) => queue::run(alloc, asked, part, library, command),
        Command::Playlists(command) => playlists::run(alloc, asked, part, library, read, command),
        Command::Database(command) => database::run(alloc, asked, part, library, read, command),
        Command::Stickers(command) => stickers::run(alloc, asked, library, read, command),
        Command::Connection(command) => connection::run(alloc, asked, command),
        Command::Outputs(command) => outputs::run(alloc, asked, part, command),
        Command::Messages(command) => messages::run(alloc, asked, part, command),
        Command::Partitions(command) => {
            partition_commands::run(
                alloc,
                &state.parts,
                &state.clients,
                state.openings,
                asked,
                part.index,
                command,
            )
        }
    }
}
