//! A client of the daemon's own that keeps the player's state in a file.
ghost use Rattle.std.specs.Prelude.{IfOk, Some, string_bytes};
ghost use Rattle.std.specs.Str.Lines.{lines};
ghost use Rattle.kept_state.specs.Partitions.{IsPlayerTold};
ghost use Rattle.serving.specs.Keeping.{IsKeptBy, IsTextOf};

use crate::folder::tell;
use crate::questions::{changes_only, questions_of, short_questions};
use crate::restoring::KEEPER;
use crate::state_file::Disk;
use command_lists::ListForm;
use house::{AnsweredList, House, Ledgers, News, Seat};
use kept_state::{
    KeptPartition, StateFile, names_of, partitions_of, player_text, plays_in_one, switched_on,
};
use mpd_command::{CommandSet, Request};
use mpd_text::Text;
use own_lines::{answers_of, requests_of};
use settings::OneLine;
use shelf::{MemShelf, Shelf};
use stalled_outputs::Gates;
use std::alloc::{AllocError, Global};
use std::sync::{Arc, Wait};
use std::thread::{self, JoinHandle, Threads};
use std::time::{Clock, Duration, Instant};
use transitions::Next;

/// How many milliseconds lie at least between two looks at the player.
const PAUSE: u64 = 2_000;

/// How many milliseconds pass at most in a pause until the end is seen.
const LOOK: u64 = 50;

/// How many seconds the client idles at most while a song is played, whose position moves on without a change.
const PLAYING: u64 = 10;

/// How many milliseconds the client waits at most; a notice wakes it, and the end of the daemon.
const LONGEST_WAIT: u64 = 60_000;

/// How many milliseconds it waits at most while a song is played, before it looks at the clock.
const PLAYING_WAIT: u64 = 1_000;

/// How many milliseconds others have to take their notices out, before it is looked again.
const HAND_OUT: u64 = 5;

/// How many milliseconds lie between two looks for changes, while there are partitions of which no notice tells.
const WATCHING: u64 = 500;

/// What is kept of the client's own partition changes by these alone, except for the position in a song that is played; and
/// with `partition` others come and go.
const IDLE: &str = "idle playlist player mixer options output partition";

/// The partition in which the client idles.
const HOME: &str = "partition default";

/// Starts the thread that keeps the state in the file of this path, where there is one. Where it cannot be
/// started, that is told on standard error and nothing is kept.
pub(crate) fn start_keeper_for<
    L: Ledgers + Send + Sync + 'static,
    R: Threads + Wait + Clock + Copy + Send + Sync + 'static,
>(
    rt: R,
    host: HostRuntime,
    house: &Arc<House<L>, Global>,
    gates: &Arc<Gates<L, R>, Global>,
    path: Option<String>,
) -> Option<JoinHandle<()>> {
    let path = path?;
    match start_keeper(rt, host, house, gates, path) {
        Ok(handle) => Some(handle),
        Err(_) => {
            tell(
                &host,
                "the state is not kept: there is no memory for its thread",
            );
            None
        }
    }
}

fn start_keeper<
    L: Ledgers + Send + Sync + 'static,
    R: Threads + Wait + Clock + Copy + Send + Sync + 'static,
>(
    rt: R,
    host: HostRuntime,
    house: &Arc<House<L>, Global>,
    gates: &Arc<Gates<L, R>, Global>,
    path: String,
) -> Result<JoinHandle<()>, AllocError> {
    let house = Arc::try_clone(house)?;
    let gates = Arc::try_clone(gates)?;
    let Ok(seat) = house.seat(&rt) else {
        return Err(AllocError);
    };
    let handle = thread::spawn(&rt, move || {
        keep(&rt, &host, &*house, &*gates, seat, path)
    })?;
    Ok(handle)
}

/// Keeps the state until the daemon has ended.
fn keep<'h, L: Ledgers, R: Wait + Clock + Copy>(
    rt: &'h R,
    host: &'h HostRuntime,
    house: &'h House<L>,
    gates: &'h Gates<L, R>,
    seat: Seat<L>,
    path: String,
) {
    let Ok(file) = StateFile::new(host.alloc(), Disk { host: *host }, path) else {
        tell(host, "the state is not kept: there is no memory for it");
        return;
    };
    let mut keeper = Keeper {
        rt,
        host,
        house,
        gates,
        seat,
        shelf: MemShelf::new(host.alloc()),
        file,
        has_failed: false,
        plays: false,
        names: Vec::new(host.alloc()),
        signs: None,
    };
    keeper.keep();
}

/// Rests until the moment of the next look, or until the daemon ends. The clock ends the rest, since sleeps last
/// longer than they should where much else runs. Where there is no such moment, two seconds of sleeps end it.
fn rest<L: Ledgers, R: Wait + Clock>(rt: &R, house: &House<L>, next: &Option<Instant>) {
    for _ in 0..PAUSE / LOOK {
        if house.has_ended(rt) || is_past(rt, next) {
            return;
        }
        thread::sleep(rt, Duration::from_millis(LOOK));
    }
}

/// The client, and the file that it writes.
#[derive(Drop)]
struct Keeper<'h, L: Ledgers, S: Shelf + Drop, R: Wait + Clock + Copy> {
    rt: &'h R,
    host: &'h HostRuntime,
    house: &'h House<L>,
    gates: &'h Gates<L, R>,
    seat: Seat<L>,
    /// None of its commands asks it.
    shelf: S,
    file: StateFile<Disk>,
    /// Whether the last write failed, which is told once.
    has_failed: bool,
    /// Whether a song was played at the last look.
    plays: bool,
    /// The partitions that are asked.
    names: Vec<Text>,
    /// What they told before the last look, in short; none where it could not be told.
    signs: Option<String>,
}

impl<'h, L: Ledgers, S: Shelf + Drop, R: Wait + Clock + Copy> Keeper<'h, L, S, R> {
    ghost use Rattle.std.specs.Prelude.{◌≡◌, IfOk, false, string_bytes, true};
    ghost use Rattle.serving.specs.Keepers.{IsAnsweredTo, IsKeptFor, IsStateFor, WritesStateIf};

    /// Comes to the player, and keeps its state until the daemon has ended.
    fn keep(&mut self) {
        if self
            .house
            .notice(self.rt, &mut self.seat, News::Comes(KEEPER))
            .is_err()
        {
            tell(
                self.host,
                "the state is not kept: the player takes no client for it",
            );
            return;
        }
        for _ in self.rt.forever() {
            // Asked before the last look, so that this sees all that was done until the end.
            let has_ended = self.house.has_ended(self.rt);
            let next = moment_after(self.rt, Duration::from_millis(PAUSE));
            self.learn();
            let is_kept = self.look();
            if has_ended {
                return;
            }
            rest(self.rt, self.house, &next);
            if !is_kept {
                // A list that was refused may have left the client in another partition.
                let _home = self.tell_player(HOME);
            } else if self.names.len() > 1 {
                self.watch();
            } else {
                self.await_change();
            }
        }
    }

    /// Learns which partitions there are. The answers of the look show whether these are still all.
    fn learn(&mut self) {
        if let Some(answer) = self.say("listpartitions") {
            if let Ok(names) = names_of(self.host.alloc(), answer.as_str()) {
                self.names = names;
            }
        }
        self.signs = if self.names.len() > 1 {
            self.signs_now()
        } else {
            None
        };
    }

    /// What the partitions tell in short, except for the position in a song. None where one of them does not tell.
    fn signs_now(&mut self) -> Option<String> {
        let lines = short_questions(self.host.alloc(), &self.names).ok()?;
        let answer = self.say(lines.as_str())?;
        changes_only(self.host.alloc(), answer.as_str()).ok()
    }

    /// What the player answers to lines that are said at one moment. None where one is refused, or there is no memory.
    fn say(&mut self, lines: &str) -> Option<String> {
        let alloc = self.host.alloc();
        let requests = requests_of(alloc, lines).ok()?;
        let (seat, shelf) = (&mut self.seat, &mut self.shelf);
        let answered = self
            .house
            .list(self.rt, seat, shelf, KEEPER, ListForm::Plain, requests)
            .ok()?;
        answers_of(alloc, answered.answers().outcomes()).ok()?
    }

    /// Waits until what is kept may have changed in one of several partitions or the daemon has ended. A notice tells of the
    /// client's own partition alone, and its way through the others raises all notices for it; so they are asked twice a
    /// second for what is short to tell.
    fn watch(&mut self) {
        let rt = self.rt;
        let last = self.last_moment();
        for _ in rt.forever() {
            if self.house.has_ended(rt) || is_past(rt, &last) {
                return;
            }
            let now = self.signs_now();
            if !is_same(&now, &self.signs) {
                return;
            }
            rest(
                rt,
                self.house,
                &moment_after(rt, Duration::from_millis(WATCHING)),
            );
        }
    }

    /// Looks at the player, and keeps its state. False where there was no memory for it, or it could not be written.
    fn look(&mut self) -> bool
        ensures left { result ≡ false → self.new.file.written ≡ self.old.file.written }
        ensures state { WritesStateIf S.Shelf self.old self.new result }
    {
        match self.state() {
            Ok(text) => self.write(text),
            Err(_) => false,
        }
    }

    /// Writes a text into the file, where it is another than the one that was written last.
    fn write(&mut self, text: String) -> bool
        ensures written { result ≡ true → string_bytes self.new.file.written ≡ string_bytes text }
        ensures left { result ≡ false → self.new.file.written ≡ self.old.file.written }
        ensures others { (self.new.seat ≡ self.old.seat) × (self.new.shelf ≡ self.old.shelf) }
    {
        match self.file.keep(text) {
            Ok(is_written) => {
                self.has_failed = self.has_failed && !is_written;
                true
            }
            Err(fault) => {
                if !self.has_failed {
                    let _printed = eprintln!(*self.host;
                        "music_daemon: cannot write state {}: {fault}",
                        OneLine(self.file.path())
                    );
                }
                self.has_failed = true;
                false
            }
        }
    }

    /// The state as it is now. Since the daemon may switch outputs off or on for their paths while it is asked, these are
    /// looked at before and after.
    fn state(&mut self) -> Result<String, AllocError>
        ensures file { self.new.file ≡ self.old.file }
        ensures state { IfOk result (λ text. IsStateFor S.Shelf self.old self.new (string_bytes text)) }
    {
        let before = self.gates.off_for_paths();
        let kept = self.kept()?;
        self.plays = plays_in_one(&kept);
        let after = self.gates.off_for_paths();
        text_of(self.host.alloc(), kept, before, after)
    }

    /// What is kept by the player's answers to the questions.
    fn kept(&mut self) -> Result<Vec<KeptPartition>, AllocError>
        ensures file { self.new.file ≡ self.old.file }
        ensures kept { IfOk result (IsKeptFor S.Shelf self.old self.new) }
    {
        let answered = self.ask()?;
        kept_by(self.host.alloc(), &answered)
    }

    /// The player's answers to the questions, all given at one moment.
    fn ask(&mut self) -> Result<AnsweredList, AllocError>
        ensures file { self.new.file ≡ self.old.file }
        ensures answered { IfOk result (IsAnsweredTo S.Shelf self.old self.new) }
    {
        let requests = questions_of(self.host.alloc(), &self.names)?;
        let (seat, shelf) = (&mut self.seat, &mut self.shelf);
        match self
            .house
            .list(self.rt, seat, shelf, KEEPER, ListForm::Plain, requests)
        {
            Ok(answered) => Ok(answered),
            Err(_) => Err(AllocError),
        }
    }

    /// Idles until what is kept may have changed or the daemon has ended; while a song is played, no longer
    /// than so many seconds.
    fn await_change(&mut self) {
        if self.tell_player(IDLE) != Some(Next::Waits) {
            return;
        }
        let (rt, house) = (self.rt, self.house);
        let last = self.last_moment();
        let most = if self.plays {
            PLAYING_WAIT
        } else {
            LONGEST_WAIT
        };
        for _ in rt.forever() {
            let waits = house.await_notice(rt, Duration::from_millis(most));
            if house.outbox(rt, KEEPER).is_some() {
                return;
            }
            let is_over = house.has_ended(rt) || is_past(rt, &last);
            if is_over && self.tell_player("noidle").is_some() {
                return;
            }
            if waits || is_over {
                thread::sleep(rt, Duration::from_millis(HAND_OUT));
            }
        }
    }

    /// Until when the client idles at most, where a song is played and there is a clock.
    fn last_moment(&self) -> Option<Instant> {
        if !self.plays {
            return None;
        }
        moment_after(self.rt, Duration::from_secs(PLAYING))
    }

    /// Says a line of the client. None where there was no memory for it.
    fn tell_player(&mut self, line: &str) -> Option<Next> {
        let Ok(request) = Request::of_line(self.host.alloc(), line, CommandSet::base()) else {
            return None;
        };
        match self
            .house
            .command(self.rt, &mut self.seat, &mut self.shelf, KEEPER, request)
        {
            Ok(answered) => Some(answered.reply().next()),
            Err(_) => None,
        }
    }
}

/// What is kept by answers. A refusal must not be taken for the answer of an empty player.
fn kept_by(alloc: Global, answered: &AnsweredList) -> Result<Vec<KeptPartition>, AllocError>
    ensures { IfOk result (IsKeptBy answered.now) }
{
    match answers_of(alloc, answered.answers().outcomes())? {
        Some(text) => all_of(alloc, text.as_str()),
        None => Err(AllocError),
    }
}

/// What is kept by the text of answers. Some of the partitions must not be taken for all of them.
fn all_of(alloc: Global, answers: &str) -> Result<Vec<KeptPartition>, AllocError>
    ensures { IfOk result (λ kept. IsPlayerTold (lines answers.now) (Some kept)) }
{
    let Some(kept) = partitions_of(alloc, answers)? else {
        return Err(AllocError);
    };
    Ok(kept)
}

/// The text of what is kept. An output that is off for its path alone, before or after it was asked for, is kept as one
/// that is on.
fn text_of(
    alloc: Global,
    kept: Vec<KeptPartition>,
    before: [bool; 8],
    after: [bool; 8],
) -> Result<String, AllocError>
    ensures { IfOk result (λ text. IsTextOf before after kept.items (string_bytes text)) }
{
    let between = switched_on(alloc, kept, before)?;
    let shown = switched_on(alloc, between, after)?;
    player_text(alloc, &shown)
}

/// Whether both were told, and are the same.
fn is_same(one: &Option<String>, other: &Option<String>) -> bool {
    match (one, other) {
        (Some(one), Some(other)) => one.as_str() == other.as_str(),
        _ => false,
    }
}

/// The moment after so long a time, if the clock can be read.
fn moment_after<K: Clock>(clock: &K, time: Duration) -> Option<Instant> {
    match Instant::now(clock) {
        Ok(now) => now.checked_add(time),
        Err(_) => None,
    }
}

/// Whether a moment is past, if there is one. Where the clock cannot be read, it is not.
fn is_past<K: Clock>(clock: &K, last: &Option<Instant>) -> bool {
    match (last, Instant::now(clock)) {
        (Some(last), Ok(now)) => *last < now,
        _ => false,
    }
}
