//! A store that stops at each call of one of its files in turn, opened again.
//!
//! A run opens the files, makes the shelf, makes one call and closes the files, whose log is then copied into
//! the database. One of the two files fails from some call on, as it does where the machine stops there. Then
//! both are opened again, once as a process that died leaves them, with all that was written, and once as a
//! lost supply does, with what was synced alone. A stop before the call leaves the maps from before it, a
//! stop in the call those from before it or after it, and a stop after it those from after it.

use crate::memory::FIRST_PROFILE;
use crate::player::session;
use shelf::{Shelf, StickerKind};
use shelf_database::SqlShelf;
use shelf_tests::calls::{add_uris, keep};
use sqlite::{Alter, Connection, FileStore, Files, Options};
use sqlite_disk::{Crash, Disk, Fuse, Memory};
use std::alloc::{AllocError, Global};
use std::mem;
use std::test::Fail;
use test_texts::{Recorder, wants};

/// The log and the database, each with the count of calls after which it fails.
///
/// The tests see this type alone, and lend it: what it is made of is gone through by its own methods.
pub(crate) struct Disks {
    files: Files<Fuse<Memory>>,
}

// Written out, so that a proof goes through one call where it lets one go (docs/DECISIONS.md).
impl Drop for Disks {
    fn drop(self) {
        let Disks { files: _ } = self;
    }
}

/// The call of a run.
#[derive(Clone, Copy)]
pub(crate) enum Call {
    /// None: the files are empty, and making the shelf writes.
    Over,
    /// None: the files have the tables of profile 1, which making the shelf moves.
    Move,
    Put,
    Rename,
    Remove,
    SetSticker,
}

/// The file that stops.
#[derive(Clone, Copy)]
pub(crate) enum Side {
    Log,
    Database,
}

/// The step of a run that was stopped.
#[derive(Clone, Copy)]
pub(crate) enum Step {
    Open,
    Over,
    Call,
    Close,
}

/// How many calls of one file the steps after the open made, and so how many stops there are in each.
#[derive(Clone, Copy)]
struct Stops {
    over: u32,
    call: u32,
    close: u32,
}

/// What is done on a shelf between opening the files and closing them.
#[derive(Clone, Copy)]
pub(crate) enum Visit<'a> {
    /// The call of a run.
    Make(Call),
    /// One list is put on the shelf, with a sticker of it and one of a song.
    Fill,
    /// Records all that the shelf shows.
    Show,
    /// Records what a client hears that comes to a new player and says these lines.
    Say(&'a str),
}

fn before(call: Call) -> &'static str {
    match call {
        Call::Over => "",
        Call::Move => "x=s.wav,;a.wav:5;",
        _ => "x=s.wav,;a.wav:5;x:7;",
    }
}

fn after(call: Call) -> &'static str {
    match call {
        Call::Over => "",
        Call::Move => "x=s.wav,;a.wav:5;",
        Call::Put => "x=a.wav,b.wav,;a.wav:5;x:7;",
        Call::Rename => "y=s.wav,;a.wav:5;y:7;",
        Call::Remove => "a.wav:5;",
        Call::SetSticker => "x=s.wav,;a.wav:6;x:7;",
    }
}

/// Whether the call was made and not stopped.
fn make<S: Shelf>(alloc: Global, shelf: &mut S, call: Call) -> bool {
    let made = match call {
        Call::Over | Call::Move => Ok(()),
        Call::Put => keep(alloc, shelf, "x", &["a.wav", "b.wav"], false),
        Call::Rename => shelf.rename("x", "y"),
        Call::Remove => shelf.remove("x"),
        Call::SetSticker => shelf.set_sticker(StickerKind::Song, "a.wav", "r", "6"),
    };
    made.is_ok()
}

/// Puts one list on the shelf, and a sticker of a song and of the list: whether nothing was stopped.
fn fill<S: Shelf>(alloc: Global, shelf: &mut S) -> bool {
    keep(alloc, shelf, "x", &["s.wav"], true).is_ok()
        && shelf
            .set_sticker(StickerKind::Song, "a.wav", "r", "5")
            .is_ok()
        && shelf
            .set_sticker(StickerKind::Playlist, "x", "r", "7")
            .is_ok()
}

/// Adds a list: its name, and each URI with a comma after it.
fn show_list<S: Shelf>(recorder: &mut Recorder, shelf: &mut S, name: &str) {
    let Ok(uris) = shelf.list(name) else {
        return recorder.fail();
    };
    recorder.add(format_args!("{name}="));
    add_uris(recorder, &uris, ',');
    recorder.add(";");
}

/// Adds the stickers of one name.
fn show_stickers<S: Shelf>(recorder: &mut Recorder, shelf: &mut S, kind: StickerKind) {
    let Ok(entries) = shelf.find_stickers(kind, "r") else {
        return recorder.fail();
    };
    for entry in &entries {
        let (key, value) = (entry.key.as_str(), entry.value.as_str());
        recorder.add(format_args!("{key}:{value};"));
    }
}

/// Adds all that the shelf shows, as one text: its lists, and the stickers of songs and then of playlists. A
/// fault of the shelf is one of the test, since no shelf is shown over files that stop.
fn show<S: Shelf>(recorder: &mut Recorder, shelf: &mut S) {
    let Ok(names) = shelf.lists() else {
        return recorder.fail();
    };
    for name in &names {
        show_list(recorder, shelf, name.as_str());
    }
    show_stickers(recorder, shelf, StickerKind::Song);
    show_stickers(recorder, shelf, StickerKind::Playlist);
}

fn run_visit<S: Shelf>(
    alloc: Global,
    shelf: &mut S,
    what: Visit<'_>,
    recorder: &mut Recorder,
) -> bool {
    match what {
        Visit::Make(call) => return make(alloc, shelf, call),
        Visit::Fill => return fill(alloc, shelf),
        Visit::Show => show(recorder, shelf),
        Visit::Say(lines) => session(recorder, alloc, shelf, lines),
    }
    true
}

/// Whether a visit was not stopped. Here alone it is proved that this is a shelf.
pub(crate) fn visited<S: Alter + Drop>(
    alloc: Global,
    shelf: &mut SqlShelf<S>,
    what: Visit<'_>,
    recorder: &mut Recorder,
) -> bool {
    run_visit(alloc, shelf, what, recorder)
}

/// The connection after a visit that was not stopped, or else the step that was, and the store.
fn run_over<S: Alter + Drop>(
    alloc: Global,
    connection: Connection<S>,
    what: Visit<'_>,
    recorder: &mut Recorder,
) -> Result<Connection<S>, (Step, S)> {
    let mut shelf = match SqlShelf::over(alloc, connection) {
        Ok(shelf) => shelf,
        Err((_, connection)) => return Err((Step::Over, connection.into_store())),
    };
    let is_visited = visited(alloc, &mut shelf, what, recorder);
    let connection = shelf.into_connection();
    if is_visited {
        Ok(connection)
    } else {
        Err((Step::Call, connection.into_store()))
    }
}

fn opened<D: Disk + Drop>(
    alloc: Global,
    files: Files<D>,
) -> Result<Connection<FileStore<D>>, Files<D>> {
    if !files.may_be_used() {
        return Err(files);
    }
    match Connection::open_files(alloc, files, Options::new(7)) {
        Ok(connection) => Ok(connection),
        Err((_, left)) => Err(left.into_files()),
    }
}

fn closed<D: Disk + Drop>(connection: Connection<FileStore<D>>) -> (Option<Step>, Files<D>) {
    match connection.close_files() {
        Ok(files) => (None, files),
        Err((_, store)) => (Some(Step::Close), store.close()),
    }
}

/// The step that was stopped, if one was, and the files. Here alone it is proved that the files are a store.
fn run<D: Disk + Drop>(
    alloc: Global,
    files: Files<D>,
    what: Visit<'_>,
    recorder: &mut Recorder,
) -> (Option<Step>, Files<D>) {
    let connection = match opened(alloc, files) {
        Ok(connection) => connection,
        Err(files) => return (Some(Step::Open), files),
    };
    match run_over(alloc, connection, what, recorder) {
        Ok(connection) => closed(connection),
        Err((step, store)) => (Some(step), store.close()),
    }
}

/// Whether statements were run and nothing was stopped, and the files.
fn executed<D: Disk + Drop>(alloc: Global, files: Files<D>, statements: &str) -> (bool, Files<D>) {
    match opened(alloc, files) {
        Ok(mut connection) => {
            let is_run = connection.execute_batch(statements).is_ok();
            let (step, files) = closed(connection);
            (is_run && step.is_none(), files)
        }
        Err(files) => (false, files),
    }
}

/// A file with these bytes, all of them synced, that fails after so many calls.
fn fused(alloc: Global, bytes: &[u8], calls: u64) -> Option<Fuse<Memory>> {
    let mut file = Memory::new(alloc);
    if file.write_at(0, bytes).is_err() || file.sync().is_err() {
        return None;
    }
    Some(Fuse::new(file, calls))
}

fn no_files(alloc: Global) -> Files<Fuse<Memory>> {
    Files {
        log: Fuse::new(Memory::new(alloc), u64::MAX),
        db: Fuse::new(Memory::new(alloc), u64::MAX),
    }
}

impl Disks {
    pub(crate) fn empty(alloc: Global) -> Disks {
        Disks {
            files: no_files(alloc),
        }
    }

    /// Copies of the files, one of which fails after so many calls.
    pub(crate) fn copied(&self, alloc: Global, side: Side, calls: u64) -> Option<Disks> {
        let (log, db) = match side {
            Side::Log => (calls, u64::MAX),
            Side::Database => (u64::MAX, calls),
        };
        let log = fused(alloc, self.files.log.inner().bytes(), log)?;
        let db = fused(alloc, self.files.db.inner().bytes(), db)?;
        Some(Disks {
            files: Files { log, db },
        })
    }

    /// Opens the files, visits the shelf and closes the files: the step that was stopped, if one was. Here
    /// alone it is proved that these are disks.
    pub(crate) fn run(
        &mut self,
        alloc: Global,
        what: Visit<'_>,
        recorder: &mut Recorder,
    ) -> Option<Step> {
        let files = mem::replace(&mut self.files, no_files(alloc));
        let (step, left) = run(alloc, files, what, recorder);
        self.files = left;
        step
    }

    /// Opens the files, runs statements and closes the files: whether nothing was stopped.
    fn execute(&mut self, alloc: Global, statements: &str) -> bool {
        let files = mem::replace(&mut self.files, no_files(alloc));
        let (is_done, left) = executed(alloc, files, statements);
        self.files = left;
        is_done
    }

    fn crash(&mut self) {
        self.files.log.crash();
        self.files.db.crash();
    }
}

/// What is on the disks before the call, closed: nothing, the tables of profile 1 with one list and one sticker,
/// or those of a shelf with one list, a sticker of it and one of a song.
pub(crate) fn disks_before(alloc: Global, call: Call) -> Option<Disks> {
    let mut disks = Disks::empty(alloc);
    let is_done = match call {
        Call::Over => true,
        Call::Move => disks.execute(alloc, FIRST_PROFILE),
        _ => disks
            .run(alloc, Visit::Fill, &mut Recorder::new(alloc))
            .is_none(),
    };
    if is_done { Some(disks) } else { None }
}

/// What a shelf over files that do not stop shows.
fn text_of(alloc: Global, disks: &mut Disks) -> Result<String, AllocError> {
    let mut recorder = Recorder::new(alloc);
    if disks.run(alloc, Visit::Show, &mut recorder).is_some() {
        recorder.fail();
    }
    recorder.into_text()
}

/// Adds what a shelf over the files shows, after the words, where it is neither of two texts.
fn look_at(
    recorder: &mut Recorder,
    alloc: Global,
    disks: &mut Disks,
    texts: (&str, &str),
    words: &str,
) {
    let Ok(text) = text_of(alloc, disks) else {
        return recorder.fail();
    };
    if text.as_str() != texts.0 && text.as_str() != texts.1 {
        recorder.add(format_args!("{words}: {text}\n"));
    }
}

/// Adds something where a shelf over the files, opened again, shows neither of two texts: with all that was
/// written, or with what was synced alone.
pub(crate) fn look_again(
    recorder: &mut Recorder,
    alloc: Global,
    disks: &mut Disks,
    texts: (&str, &str),
) {
    match disks.copied(alloc, Side::Log, u64::MAX) {
        Some(mut written) => look_at(recorder, alloc, &mut written, texts, "what was written"),
        None => recorder.fail(),
    }
    disks.crash();
    look_at(recorder, alloc, disks, texts, "what was synced");
}

/// The two texts of which the shelf may show either after a stop in the step.
fn texts_after(step: Option<Step>, call: Call) -> (&'static str, &'static str) {
    match step {
        Some(Step::Open | Step::Over) => (before(call), before(call)),
        Some(Step::Call) => (before(call), after(call)),
        Some(Step::Close) | None => (after(call), after(call)),
    }
}

/// Counts the stop, where there was one.
fn count(stops: &mut Stops, step: Option<Step>) {
    match step {
        Some(Step::Over) => stops.over = stops.over.saturating_add(1),
        Some(Step::Call) => stops.call = stops.call.saturating_add(1),
        Some(Step::Close) => stops.close = stops.close.saturating_add(1),
        Some(Step::Open) | None => {}
    }
}

/// The step that was stopped, if one was. Something is added where the shelf does not show what it may after it.
fn stopped(recorder: &mut Recorder, alloc: Global, disks: &mut Disks, call: Call) -> Option<Step> {
    let step = disks.run(alloc, Visit::Make(call), recorder);
    look_again(recorder, alloc, disks, texts_after(step, call));
    step
}

/// Stops at each call of the file, counting upwards until a run ends without a stop, and adds how many stops
/// there were in each step.
fn add_stops(recorder: &mut Recorder, alloc: Global, call: Call, side: Side) {
    let Some(disks) = disks_before(alloc, call) else {
        return recorder.add("the files are not filled");
    };
    let mut stops = Stops {
        over: 0,
        call: 0,
        close: 0,
    };
    for calls in 0..1_000u64 {
        let Some(mut copy) = disks.copied(alloc, side, calls) else {
            return recorder.fail();
        };
        let step = stopped(recorder, alloc, &mut copy, call);
        count(&mut stops, step);
        if step.is_none() {
            let (over, call, close) = (stops.over, stops.call, stops.close);
            return recorder.add(format_args!("over {over}, call {call}, close {close}"));
        }
    }
    recorder.add("no run ended without a stop");
}

fn observed_of_stops(alloc: Global, call: Call, side: Side) -> Result<String, AllocError> {
    let mut recorder = Recorder::new(alloc);
    add_stops(&mut recorder, alloc, call, side);
    recorder.into_text()
}

/// Each call of a run, and how many calls its steps make of the log and of the database, as the sources of the
/// port's log say.
///
/// A commit calls the log six times: zeros after the offset of its frames, the frames before and after their
/// gate, a sync, the gate, a sync. It does not call the database. A close writes each page of the log, sets
/// the length of the database and syncs it; of the log it tests each frame and reads it, shuts the header's
/// gate and syncs, and then writes the header before and after the gate, syncs, writes the gate, syncs and
/// cuts the file: eight calls beside those of the frames. So a close calls the log twice for each page and
/// eight times more, and the database once for each page and twice more.
const CALLS: [(Call, &str, &str); 6] = [
    // Eight pages: the schema, four tables and the indexes of three of them.
    (
        Call::Over,
        "over 6, call 0, close 24",
        "over 0, call 0, close 10",
    ),
    // Six pages: the schema, the profile, and the stickers' old table and their new one with an index each.
    (
        Call::Move,
        "over 6, call 0, close 20",
        "over 0, call 0, close 8",
    ),
    // Two pages: a table and its index; and four where both the list and its stickers change.
    (
        Call::Put,
        "over 0, call 6, close 12",
        "over 0, call 0, close 4",
    ),
    (
        Call::Rename,
        "over 0, call 6, close 16",
        "over 0, call 0, close 6",
    ),
    (
        Call::Remove,
        "over 0, call 6, close 16",
        "over 0, call 0, close 6",
    ),
    (
        Call::SetSticker,
        "over 0, call 6, close 12",
        "over 0, call 0, close 4",
    ),
];

#[test]
fn calls_stop_in_either_file(rt: HostRuntime) -> Result<(), Fail> {
    for (call, in_log, in_database) in CALLS.iter() {
        wants(observed_of_stops(rt.alloc(), *call, Side::Log), in_log)?;
        wants(
            observed_of_stops(rt.alloc(), *call, Side::Database),
            in_database,
        )?;
    }
    Ok(())
}
