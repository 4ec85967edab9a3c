//! Runs sessions of the player of one thread.
//!
//! A session is a text with a step in each line, and tells what is heard or shown at each. So few functions
//! hold a player.
use command_lists::ListForm;
use connected_clients::Notice;
use mpd_command::{CommandSet, Request};
use mpd_text::{Answer, SharedText, Song};
use partition::{ListOutcome, Partition};
use player_events::{Event, Outcome};
use player_state::{Outputs, Report};
use queue_tests::steps::{entry, first_word, number_of, two_numbers};
use shelf::MemShelf;
use song_db::SharedDb;
use std::alloc::{AllocError, Global};
use test_players::{library, list_answer, player, requests};
use test_songs::song;
use test_texts::Recorder;
use transitions::{ListPlace, Next};

/// A song of one second for each line, without tags.
fn songs(alloc: Global, uris: &str) -> Result<Vec<Song>, AllocError> {
    let mut songs = Vec::new(alloc);
    for uri in uris.lines() {
        songs.push(song(alloc, uri, &[], 8_000)?)?;
    }
    Ok(songs)
}

/// Eight outputs, of which the last is off.
fn outputs(alloc: Global) -> Result<Outputs, AllocError> {
    let mut outputs = Outputs::none(alloc);
    for number in 0..8u32 {
        let name = format!(in alloc; "room {number}")?;
        add_output(&mut outputs, SharedText::of(name)?, number < 7)?;
    }
    Ok(outputs)
}

fn add_output(outputs: &mut Outputs, name: SharedText, enabled: bool) -> Result<(), AllocError> {
    if outputs.names().len() >= 8 {
        return Err(AllocError);
    }
    outputs.add(name, enabled)
}

/// The most events of the window of a session that sets no other number.
const WINDOW: u32 = 4096;

/// A player, the shelf that is lent to it, and the most events of the window of its history.
#[derive(Drop)]
struct Lent {
    player: Partition,
    shelf: MemShelf,
    most: usize,
}

/// A player over a song for each line, whose window has at most so many events, with an empty shelf.
fn opened(alloc: Global, history: u32, uris: &str) -> Result<Lent, AllocError> {
    let library = library(alloc, songs(alloc, uris)?)?;
    let player = player(alloc, history, outputs(alloc)?, library)?;
    let shelf = MemShelf::new(alloc);
    let most = history as usize;
    Ok(Lent {
        player,
        shelf,
        most,
    })
}

fn after(next: Next) -> &'static str {
    match next {
        Next::Goes => "",
        Next::Waits => "waits\n",
        Next::Closes | Next::Kills => "closed\n",
    }
}

/// What is told that has no number.
fn bare_report(report: Report) -> &'static str {
    match report {
        Report::ToDecode(_) => "no job\n",
        Report::ToFeed(_) => "stale\n",
        Report::ToScan(_) => "no scan\n",
        Report::ScanEnded(true) => "ended\n",
        Report::ScanEnded(false) => "none ran\n",
        Report::Ended => "the end\n",
        Report::Nothing | Report::ToPlay(_) => "",
    }
}

/// Adds what is told to a scanner, a decoder or an output. Of a job these are its number, id, first frame and
/// count: none of these sessions fades.
fn add_report(recorder: &mut Recorder, report: Report) {
    match report {
        Report::ToDecode(Some(job)) => {
            let (number, id, from, count) = (job.number, job.id, job.from, job.count);
            recorder.add(format_args!("job {number} {id} {from} {count}\n"));
        }
        Report::ToFeed(Some(feed)) => {
            let (cut, volume) = (feed.cut, feed.volume);
            recorder.add(format_args!("feed {cut} {volume}\n"));
        }
        Report::ToPlay(heard) => {
            let (cut, enabled, paused) = (heard.live.cut, heard.live.enabled, heard.live.paused);
            recorder.add(format_args!("live {cut} {enabled} {paused}\n"));
        }
        Report::ToScan(Some(number)) => recorder.add(format_args!("scan {number}\n")),
        _ => recorder.add(bare_report(report)),
    }
}

fn notice_observed(alloc: Global, notice: &Notice) -> Result<String, AllocError> {
    let mut lines = Answer::new(alloc);
    notice.names.push_lines(&mut lines)?;
    format!(in alloc; "{}: {}", notice.client, lines.as_str())
}

/// Adds what others hear, each notice after its client.
fn add_notices(recorder: &mut Recorder, alloc: Global, notices: &[Notice]) {
    for notice in notices {
        recorder.add_made(notice_observed(alloc, notice));
    }
}

/// Adds what clients hear of an event: the answer, `waits` or `closed` where the client does or is, and each
/// notice after its client; and what a scanner is told.
fn add_heard(recorder: &mut Recorder, alloc: Global, outcome: &Outcome) {
    recorder.add(outcome.reply().text());
    recorder.add(after(outcome.reply().next()));
    add_notices(recorder, alloc, outcome.notices());
    add_report(recorder, outcome.report());
}

/// Applies an event, and adds what clients hear of it, or that it was not applied.
fn happens(lent: &mut Lent, alloc: Global, seat: u8, event: Event, recorder: &mut Recorder) {
    match lent.player.apply(seat % 16, &mut lent.shelf, event) {
        Ok(outcome) => add_heard(recorder, alloc, &outcome),
        Err(_) => recorder.add("not applied\n"),
    }
}

/// The events of all seats.
fn events(player: &Partition) -> u64 {
    let mut all = 0u64;
    for seat in 0..16u8 {
        all = all.saturating_add(player.own(seat));
    }
    all
}

/// Adds what the player shows of itself: the events of seats 15 and 3, all events, the entries of the first
/// partition, the clients, and that partition's volume.
fn add_counts(recorder: &mut Recorder, player: &Partition) {
    let (last, own) = (player.own(15), player.own(3));
    let all = events(player);
    let clients = player.clients().len();
    let (entries, volume) = match player.part(0) {
        Some(part) => (part.queue.len(), part.volume.percent()),
        None => (0, 0),
    };
    recorder.add(format_args!(
        "seat 15: {last}, seat 3: {own}, all: {all}, entries: {entries}, clients: {clients}, volume: {volume}\n"
    ));
}

/// Adds how many events the window has, the bytes that were answered at them, and how many events there were.
fn add_window(recorder: &mut Recorder, player: &Partition) {
    let kept = player.history().len();
    let bytes = player.window_bytes();
    let all = events(player);
    recorder.add(format_args!("events: {kept}, bytes: {bytes}, all: {all}\n"));
}

/// What is pending for each client, after its number.
fn pending(player: &Partition, alloc: Global) -> Result<String, AllocError> {
    let mut lines = Answer::new(alloc);
    for client in player.clients() {
        lines.pair("client", client.number)?;
        client.pending.changed().push_lines(&mut lines)?;
    }
    Ok(lines.into_string())
}

/// Adds the id and the priority of each entry of the first partition.
fn add_entries(recorder: &mut Recorder, player: &Partition) {
    let Some(part) = player.part(0) else {
        return;
    };
    for position in 0..part.queue.len() {
        let (id, priority) = entry(&part.queue, position);
        recorder.add(format_args!("id {id}, priority {priority}\n"));
    }
}

/// The outputs with the first number and the last, and one that is not there.
const BOOKS: [usize; 4] = [0, 6, 7, 8];

/// Adds the frames of these outputs: those that each was given, wrote and discarded.
fn add_books(recorder: &mut Recorder, player: &Partition) {
    let books = player.books();
    for output in BOOKS.iter() {
        let (decoded, written) = (books.decoded(*output), books.written(*output));
        let discarded = books.discarded(*output);
        recorder.add(format_args!("decoded {decoded}, written {written}, discarded {discarded}\n"));
    }
}

fn has_client(player: &Partition, client: u32) -> &'static str {
    if player.has_client(client) {
        "there\n"
    } else {
        "not there\n"
    }
}

/// Adds what the player shows where a step asks for it.
fn show(player: &Partition, alloc: Global, what: &str, recorder: &mut Recorder) {
    match what {
        "counts" => add_counts(recorder, player),
        "pending" => recorder.add_made(pending(player, alloc)),
        "entries" => add_entries(recorder, player),
        "window" => add_window(recorder, player),
        "books" => add_books(recorder, player),
        _ => recorder.add(has_client(player, number_of(what))),
    }
}

/// What is heard where a client says a line that is this request, at seat 3.
fn says(
    lent: &mut Lent,
    alloc: Global,
    client: u32,
    list_place: ListPlace,
    request: Result<Request, AllocError>,
    recorder: &mut Recorder,
) {
    match request {
        Ok(request) => happens(
            lent,
            alloc,
            3,
            Event::line(client, list_place, request),
            recorder,
        ),
        Err(_) => recorder.fail(),
    }
}

/// What a line is read as.
fn request(alloc: Global, line: &str) -> Result<Request, AllocError> {
    Request::of_line(alloc, line, CommandSet::base())
}

/// The same where `kill` is allowed.
fn request_with_leave(alloc: Global, line: &str) -> Result<Request, AllocError> {
    let commands = CommandSet {
        kill: true,
        everyday: false,
        uptime: None,
    };
    Request::of_line(alloc, line, commands)
}

/// What is heard of client 1 in a list, where the line comes after its place there.
fn says_in_list(
    lent: &mut Lent,
    alloc: Global,
    form: ListForm,
    rest: &str,
    recorder: &mut Recorder,
) {
    let (place, line) = first_word(rest);
    let list_place = ListPlace::InList(form, number_of(place) as usize);
    says(lent, alloc, 1, list_place, request(alloc, line), recorder)
}

/// Adds what clients hear of a list: its whole answer, `closed` where the client is, and each notice after
/// its client.
fn add_list(recorder: &mut Recorder, alloc: Global, outcome: &ListOutcome) {
    recorder.add_made(list_answer(alloc, outcome));
    if outcome.next().closes() {
        recorder.add("closed\n");
    }
    for one in outcome.outcomes() {
        add_notices(recorder, alloc, one.notices());
    }
}

/// Runs a list of client 1 at seat 3, and adds what clients hear of it.
fn runs_list(lent: &mut Lent, alloc: Global, form: ListForm, lines: &str, recorder: &mut Recorder) {
    let Ok(requests) = requests(alloc, lines) else {
        return recorder.fail();
    };
    match lent.player.run_list(3, &mut lent.shelf, 1, form, requests) {
        Ok(outcome) => add_list(recorder, alloc, &outcome),
        Err(_) => recorder.add("not run\n"),
    }
}

/// A library of the song that a word names, or nothing for the word `fails`.
fn found(alloc: Global, word: &str) -> Result<Option<SharedDb>, AllocError> {
    if word == "fails" {
        return Ok(None);
    }
    let songs = test_songs::library(alloc, songs(alloc, word)?)?;
    Ok(Some(SharedDb::new(alloc, songs)?))
}

/// What a scanner asks or brings, at seat 5.
fn scans(lent: &mut Lent, alloc: Global, word: &str, recorder: &mut Recorder) {
    if word == "asks" {
        return happens(lent, alloc, 5, Event::ScanQuestion, recorder);
    }
    match found(alloc, word) {
        Ok(library) => happens(lent, alloc, 5, Event::ScanResult(library, 0), recorder),
        Err(_) => recorder.fail(),
    }
}

/// What the decoder asks or brings, at seat 6.
fn decodes(lent: &mut Lent, alloc: Global, rest: &str, recorder: &mut Recorder) {
    if rest == "wants" {
        return happens(lent, alloc, 6, Event::Want(0, [false; 8]), recorder);
    }
    if let Some(rest) = rest.strip_prefix("fails ") {
        let (number, whose) = first_word(rest);
        let event = Event::Failed(0, u64::from(number_of(number)), whose == "partner");
        return happens(lent, alloc, 6, event, recorder);
    }
    let (number, frames) = two_numbers(rest);
    let event = Event::Have(0, u64::from(number), u64::from(frames));
    happens(lent, alloc, 6, event, recorder)
}

/// An output has its turn, at seat 7: its number, the frames that it wrote, and those that it discarded; one
/// that discarded 4,294,967,295 has failed.
fn turns(lent: &mut Lent, alloc: Global, rest: &str, recorder: &mut Recorder) {
    let (output, rest) = first_word(rest);
    let (written, discarded) = two_numbers(rest);
    let failed = discarded == u32::MAX;
    let (written, discarded) = (u64::from(written), u64::from(discarded));
    let output = number_of(output) as usize;
    let event = Event::OutputTurn {
        output,
        written,
        discarded,
        failed,
    };
    happens(lent, alloc, 7, event, recorder)
}

/// Folds the history, and adds nothing but that it was not folded.
fn folds(player: &mut Partition, recorder: &mut Recorder) {
    if player.fold().is_err() {
        recorder.add("not folded\n");
    }
}

/// Adds what client 1 hears in a list, of a whole list, or where `kill` is allowed.
fn says_otherwise(lent: &mut Lent, alloc: Global, word: &str, rest: &str, recorder: &mut Recorder) {
    match word {
        "plain_list" => says_in_list(lent, alloc, ListForm::Plain, rest, recorder),
        "ok_list" => says_in_list(lent, alloc, ListForm::ListOk, rest, recorder),
        "runs_plain" => runs_list(lent, alloc, ListForm::Plain, rest, recorder),
        "runs_ok" => runs_list(lent, alloc, ListForm::ListOk, rest, recorder),
        _ => {
            let request = request_with_leave(alloc, rest);
            says(lent, alloc, 1, ListPlace::Alone, request, recorder);
        }
    }
}

/// Adds what is told where a client comes or goes, at the last seat, and of a scanner, the decoder or an
/// output.
fn tells(lent: &mut Lent, alloc: Global, word: &str, rest: &str, recorder: &mut Recorder) {
    match word {
        "comes" => happens(lent, alloc, 15, Event::Connect(number_of(rest)), recorder),
        "goes" => happens(
            lent,
            alloc,
            15,
            Event::Disconnect(number_of(rest)),
            recorder,
        ),
        "scan" => scans(lent, alloc, rest, recorder),
        "decoder" => decodes(lent, alloc, rest, recorder),
        _ => turns(lent, alloc, rest, recorder),
    }
}

/// Adds what is told at a step, by its first word: a client comes or goes; client 1 says a line in a list, or
/// where `kill` is allowed; a scanner asks or brings something; so does the decoder; an output has its turn;
/// the daemon ends; the history is folded; something is shown; or a client says a line alone.
fn step(lent: &mut Lent, alloc: Global, line: &str, recorder: &mut Recorder) {
    let (word, rest) = first_word(line);
    match word {
        "plain_list" | "ok_list" | "runs_plain" | "runs_ok" | "with_leave" => {
            says_otherwise(lent, alloc, word, rest, recorder);
        }
        "comes" | "goes" | "scan" | "decoder" | "turn" => tells(lent, alloc, word, rest, recorder),
        "ends" => happens(lent, alloc, 0, Event::End, recorder),
        "folds" => folds(&mut lent.player, recorder),
        "show" => show(&lent.player, alloc, rest, recorder),
        _ => {
            let request = request(alloc, rest);
            says(
                lent,
                alloc,
                number_of(word),
                ListPlace::Alone,
                request,
                recorder,
            );
        }
    }
}

/// Adds that the window has more events than it may have, where it has.
fn look_at_window(lent: &Lent, recorder: &mut Recorder) {
    if lent.player.history().len() > lent.most {
        recorder.add("more events than the window may have\n");
    }
}

/// What a session of these steps tells, over a library with a song for each line of the URIs, in a window of
/// at most so many events.
pub fn session_within(
    alloc: Global,
    history: u32,
    uris: &str,
    steps: &str,
) -> Result<String, AllocError> {
    let mut lent = opened(alloc, history, uris)?;
    let mut recorder = Recorder::new(alloc);
    for line in steps.lines() {
        step(&mut lent, alloc, line, &mut recorder);
        look_at_window(&lent, &mut recorder);
    }
    recorder.into_text()
}

/// The same in the greatest window.
pub fn session_over(alloc: Global, uris: &str, steps: &str) -> Result<String, AllocError> {
    session_within(alloc, WINDOW, uris, steps)
}

/// The same over one song.
pub fn session(alloc: Global, steps: &str) -> Result<String, AllocError> {
    session_over(alloc, "a.wav", steps)
}
