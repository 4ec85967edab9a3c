//! A script: what it collects, and its player.
ghost use Rattle.daemon_script.specs.Printing.{IsOpenedOver, IsRead, Leaves, LeavesAllLists, LeavesPlayer};
ghost use Rattle.daemon_script.specs.Printing.{Prints, PrintsBy, PrintsIfOk, WasConnected, run_client};
ghost use Rattle.daemon_script.specs.Printing.{run_first, run_in};
ghost use Rattle.daemon_script.specs.Printing.{run_scanned, run_shown, run_window};
ghost use Rattle.std.specs.Prelude.{◌≡◌, ◌<◌, ◌≤◌, ◌++◌, length, false, codes, None};
ghost use Rattle.std.specs.Prelude.{Some, IfOk, OnOk, if◌then◌else◌};
ghost use Rattle.song_db.specs.Library.{in_byte_order, is_twice_named};
ghost use Rattle.daemon_script.specs.Kinds.{Shelved, images, one_output as one_output_lem};
ghost use Rattle.partition.specs.Image.{Image};
ghost use Rattle.daemon_script.specs.Pieces.{found_by};
ghost use Rattle.daemon_script.specs.Script.{no_lists as no_lists_lem, client_run, with_list, opening_script};
ghost use Rattle.daemon_script.specs.Script.{step_line, collect_line, gone_line, event_line, found_then};
ghost use Rattle.daemon_script.specs.Script.{job_event as job_event_lem, named_line, lowers, ScriptData};
ghost use Rattle.daemon_script.specs.Script.{refusal_text, has_uri as has_uri_lem};

use crate::client_lines::{LineRun, push_fault, push_notices, run_line};
use crate::memory::Memory;
use crate::player::Player;
use crate::reports::{push_report, push_window};
use command_lists::ListCollector;
use mpd_command::CommandSet;
use mpd_text::{Line, SharedText, Song, Tag};
use partition::{Limits, PartitionFault, Setup};
use player_events::Event;
use player_state::{Library, Outputs, Scan};
use script_lines::{
    JobStep, LimitName, MAX_HISTORY, MAX_ID, MAX_QUEUE, MAX_VERSION, ScriptLine, Step,
};
use song_db::{Db, DbFault, MAX_SONGS, Rate, SharedDb};
use std::alloc::{AllocError, Global};
use std::marker::Model;

/// The most cuts, starts, jobs and scans of a player whose script lowers no limit.
const MOST_CUTS: u64 = (1 << 63) - 1;

/// What a script collected, and its player from the first client line on.
pub(crate) struct Script {
    alloc: Global,
    limits: Limits,
    /// The commands that clients may give.
    commands: CommandSet,
    songs: Vec<Song>,
    /// The command list that each client has open, by its number.
    lists: [ListCollector; 10],
    player: Option<Player>,
}

// Written out, so that a proof goes through one call where it lets one go (docs/DECISIONS.md).
impl Drop for Script {
    fn drop(self) {
        let Script {
            alloc: _,
            limits: _,
            commands: _,
            songs: _,
            lists: _,
            player: _,
        } = self;
    }
}

impl Model for Script {
    ghost use Rattle.partition.specs.Image.{Image};
    ghost use Rattle.daemon_script.specs.Kinds.{Shelved};
    ghost use Rattle.daemon_script.specs.Script.{ScriptData};
    ghost use Rattle.daemon_script.specs.Scripts.{script_of};
    ghost use Rattle.daemon_script.specs.Invariant.{IsScript};

    ghost Value = { ScriptData (Shelved Image) };

    // A map has no code of its own, so its code is named.
    ghost use Rattle.std.specs.Coded.{codes};
    ghost use Rattle.std.specs.FinMap as finite;

    ghost coded = { Prim.hlevel (codes, finite.code) };

    ghost view = { script_of };

    ghost invariant = { λ s. IsScript s.limits s.songs.items };
}

impl Script {
    /// A script to which no line came.
    pub(crate) fn new(alloc: Global) -> Script
        ensures { result ≡ opening_script }
    {
        Script {
            alloc,
            limits: Limits {
                max_queue: MAX_QUEUE,
                max_version: MAX_VERSION,
                max_id: MAX_ID,
                max_cut: MOST_CUTS,
                history: MAX_HISTORY,
            },
            commands: CommandSet::base(),
            songs: Vec::new(alloc),
            lists: no_lists(),
            player: None,
        }
    }

    /// Runs a line, and appends what it prints. An `Err` says that there was no room to append.
    #[tactic(auto, unfolding(crate::specs::Script::shown_of))]
    pub(crate) fn show(&mut self, line: &Line, shown: &mut Vec<u8>) -> Result<Memory, AllocError>
        ensures script { IfOk result (Leaves (run_shown self.old line.now) self.new) }
        ensures text { IfOk result (PrintsBy (run_shown self.old line.now) shown.old shown.new) }
    {
        let Line::Text(text) = line else {
            return push_bad(shown);
        };
        match ScriptLine::of(text.as_str()) {
            ScriptLine::Client(number, line) => self.run_client_line(number, line, shown),
            ScriptLine::Step(rest) => self.run_step(rest, shown),
            ScriptLine::Bad => push_bad(shown),
        }
    }

    fn run_step(&mut self, rest: &str, shown: &mut Vec<u8>) -> Result<Memory, AllocError>
        ensures script { IfOk result (Leaves (step_line images self.old rest.now) self.new) }
        ensures text { IfOk result (PrintsBy (step_line images self.old rest.now) shown.old shown.new) }
    {
        match Step::of_line(self.alloc, self.commands.everyday, rest) {
            Ok(Some(Step::Song(song))) => self.collect(song, shown),
            Ok(Some(Step::Limit(name, n))) => self.lower(name, n, shown),
            Ok(Some(Step::Gone(number))) => self.send_off(number, shown),
            Ok(Some(Step::Scanned)) => self.end_scan(shown),
            Ok(Some(Step::Job(step))) => self.happen(job_event(0, step), shown),
            Ok(Some(Step::JobIn(name, step))) => self.happen_in(name.as_str(), step, shown),
            Ok(Some(Step::Turn(written, discarded, failed))) => {
                let event = Event::OutputTurn {
                    output: 0,
                    written: u64::from(written),
                    discarded: u64::from(discarded),
                    failed,
                };
                self.happen(event, shown)
            }
            Ok(Some(Step::Window)) => self.show_window(shown),
            Ok(None) => push_bad(shown),
            Err(AllocError) => push_unread(shown),
        }
    }

    fn collect(&mut self, song: Song, shown: &mut Vec<u8>) -> Result<Memory, AllocError>
        ensures script { IfOk result (Leaves (collect_line self.old song) self.new) }
        ensures text { IfOk result (PrintsBy (collect_line self.old song) shown.old shown.new) }
    {
        if self.songs.len() >= MAX_SONGS || has_uri(&self.songs, song.uri()) {
            return push_bad(shown);
        }
        if self.songs.push(song).is_err() {
            return push_unread(shown);
        }
        Ok(Memory::Ample)
    }

    fn lower(&mut self, name: LimitName, n: u32, shown: &mut Vec<u8>) -> Result<Memory, AllocError>
        requires { 1 ≤ n }
        ensures script { OnOk result (self.new ≡ (lowers self.old name n).script) }
        ensures text { OnOk result (shown.new.items ≡ shown.old.items ++ (lowers self.old name n).text) }
        ensures memory { IfOk result (λ memory. memory ≡ Memory.Ample) }
    {
        if self.player.is_some() {
            return push_bad(shown);
        }
        match name {
            LimitName::MaxQueue => self.limits.max_queue = n,
            LimitName::MaxVersion => self.limits.max_version = n,
            LimitName::MaxId => self.limits.max_id = n,
            LimitName::MaxCut => self.limits.max_cut = u64::from(n),
            LimitName::History => self.limits.history = n,
            LimitName::Everyday => self.commands.everyday = true,
        }
        Ok(Memory::Ample)
    }

    /// A client goes, once the player is there.
    fn send_off(&mut self, number: u32, shown: &mut Vec<u8>) -> Result<Memory, AllocError>
        ensures script { IfOk result (Leaves (gone_line images self.old number) self.new) }
        ensures text { IfOk result (PrintsBy (gone_line images self.old number) shown.old shown.new) }
    {
        let Some(player) = &mut self.player else {
            return push_bad(shown);
        };
        match player.apply(Event::Disconnect(number)) {
            Ok(outcome) => {
                drop_list_of(&mut self.lists, number);
                push_notices(self.alloc, shown, outcome.notices())?;
                Ok(Memory::Ample)
            }
            Err(fault) => push_refusal(shown, fault),
        }
    }

    /// The scan that runs ends, once the player is there, with all songs that were collected.
    fn end_scan(&mut self, shown: &mut Vec<u8>) -> Result<Memory, AllocError>
        ensures script { IfOk result (Leaves (run_scanned self.old) self.new) }
        ensures text { IfOk result (PrintsBy (run_scanned self.old) shown.old shown.new) }
    {
        if self.player.is_none() {
            return push_bad(shown);
        }
        let Ok(songs) = collected(self.alloc, &self.songs) else {
            return push_unread(shown);
        };
        self.happen(Event::ScanResult(Some(songs), 0), shown)
    }

    /// A step that is one event, once the player is there. Appends what the event tells, and then the notices
    /// to clients.
    fn happen(&mut self, event: Event, shown: &mut Vec<u8>) -> Result<Memory, AllocError>
        ensures script { IfOk result (Leaves (event_line images self.old event) self.new) }
        ensures text { IfOk result (PrintsBy (event_line images self.old event) shown.old shown.new) }
    {
        let Some(player) = &mut self.player else {
            return push_bad(shown);
        };
        match player.apply(event) {
            Ok(outcome) => {
                push_report(self.alloc, shown, outcome.report())?;
                push_notices(self.alloc, shown, outcome.notices())?;
                Ok(Memory::Ample)
            }
            Err(fault) => push_refusal(shown, fault),
        }
    }

    /// A step of the decoder in the partition of this name, once the player is there.
    fn happen_in(
        &mut self,
        name: &str,
        step: JobStep,
        shown: &mut Vec<u8>,
    ) -> Result<Memory, AllocError>
        ensures script { IfOk result (Leaves (named_line images self.old name.now step) self.new) }
        ensures text { IfOk result (PrintsBy (named_line images self.old name.now step) shown.old shown.new) }
    {
        let Some(player) = &self.player else {
            return push_bad(shown);
        };
        let Some(index) = player.index_named(name) else {
            return push_bad(shown);
        };
        self.happen(job_event(index, step), shown)
    }

    /// Appends what the history holds, once the player is there.
    fn show_window(&self, shown: &mut Vec<u8>) -> Result<Memory, AllocError>
        ensures script { (run_window self.now).script ≡ self.now }
        ensures text { OnOk result (Prints shown.old shown.new (run_window self.now).text) }
        ensures memory { IfOk result (λ memory. memory ≡ Memory.Ample) }
    {
        let Some(player) = &self.player else {
            return push_bad(shown);
        };
        push_window(self.alloc, shown, player.window(), player.own())?;
        Ok(Memory::Ample)
    }

    fn run_client_line(
        &mut self,
        number: u32,
        line: &str,
        shown: &mut Vec<u8>,
    ) -> Result<Memory, AllocError>
        requires { number < 10 }
        ensures script { IfOk result (Leaves (run_client self.old number line.now) self.new) }
        ensures text { IfOk result (PrintsBy (run_client self.old number line.now) shown.old shown.new) }
    {
        let Some(player) = &mut self.player else {
            return self.run_first_line(number, line, shown);
        };
        let lists = &mut self.lists;
        let ran = run_listed_line(
            self.alloc,
            self.commands,
            player,
            lists,
            number,
            line,
            shown,
        )?;
        Ok(ran.memory)
    }

    /// Opens a player, and keeps it where the line's client connects.
    #[tactic(auto, unfolding(crate::specs::Script::client_run))]
    fn run_first_line(
        &mut self,
        number: u32,
        line: &str,
        shown: &mut Vec<u8>,
    ) -> Result<Memory, AllocError>
        requires client { number < 10 }
        requires first { self.old.player ≡ None }
        ensures script { IfOk result (Leaves (run_first self.old number line.now) self.new) }
        ensures text { IfOk result (PrintsBy (run_first self.old number line.now) shown.old shown.new) }
    {
        let Ok(mut player) = self.opened() else {
            push_fault(self.alloc, shown, number, "", PartitionFault::NoMemory)?;
            return Ok(Memory::NoneToConnect);
        };
        let lists = &mut self.lists;
        match run_listed_line(
            self.alloc,
            self.commands,
            &mut player,
            lists,
            number,
            line,
            shown,
        ) {
            Ok(ran) => {
                self.keep(player, ran.connected);
                Ok(ran.memory)
            }
            Err(AllocError) => Err(AllocError),
        }
    }

    /// Keeps a player whose first client is there.
    fn keep(&mut self, player: Player, connected: bool)
        ensures { self.new ≡ (if connected then record self.old { player = Some player } else self.old) }
    {
        if connected {
            self.player = Some(player);
        }
    }

    /// A player over the songs so far.
    fn opened(&self) -> Result<Player, AllocError>
        ensures { IfOk result (IsOpenedOver self.now) }
    {
        let library = Library {
            songs: collected(self.alloc, &self.songs)?,
            rate: Rate::lowest(),
            scan: Scan::never(),
            updated: 0,
        };
        let setup = Setup {
            limits: self.limits,
            random_start: 0,
            outputs: one_output(self.alloc)?,
        };
        Player::open(self.alloc, setup, library)
    }
}

/// The event of a step of the decoder in the partition of a number. No output's feeder owes frames.
fn job_event(index: u8, step: JobStep) -> Event
    ensures { result ≡ job_event_lem index step }
{
    match step {
        JobStep::Want => Event::Want(index, [false; 8]),
        JobStep::Have(number, frames) => Event::Have(index, u64::from(number), u64::from(frames)),
        JobStep::Failed(number, of_partner) => Event::Failed(index, u64::from(number), of_partner),
    }
}

/// The one output of a script's player, which is enabled.
fn one_output(alloc: Global) -> Result<Outputs, AllocError>
    ensures { IfOk result (λ outputs. outputs ≡ one_output_lem) }
{
    let mut outputs = Outputs::none(alloc);
    let name = SharedText::new(alloc, "out0")?;
    outputs.add(name, true)?;
    Ok(outputs)
}

/// The library of all songs that were collected.
fn collected(alloc: Global, songs: &[Song]) -> Result<SharedDb, AllocError>
    requires few { length songs.now ≤ 100000 }
    requires distinct { is_twice_named songs.now ≡ false }
    ensures { IfOk result (λ db. db ≡ in_byte_order songs.now) }
{
    match Db::of_songs(alloc, copies(alloc, songs)?) {
        Ok(db) => SharedDb::new(alloc, db),
        Err(DbFault::NoMemory) => Err(AllocError),
        Err(DbFault::TwiceNamed | DbFault::TooMany) => unreachable!(),
    }
}

/// Runs a client's line, by the command list that it has open.
fn run_listed_line(
    alloc: Global,
    set: CommandSet,
    player: &mut Player,
    lists: &mut [ListCollector; 10],
    number: u32,
    line: &str,
    shown: &mut Vec<u8>,
) -> Result<LineRun, AllocError>
    requires { number < 10 }
    ensures player { IfOk result (LeavesPlayer (run_in set player.old lists.old number line.now) player.new) }
    ensures lists { IfOk result (LeavesAllLists set player.old number line.now lists.old lists.new) }
    ensures text { PrintsIfOk (run_in set player.old lists.old number line.now) shown.old shown.new result }
    ensures connected { IfOk result (WasConnected (run_in set player.old lists.old number line.now)) }
    ensures kept { IfOk result (λ ran. ran.connected ≡ false → lists.new ≡ lists.old) }
{
    run_line(
        alloc,
        set,
        player,
        &mut lists[number as usize],
        number,
        line,
        shown,
    )
}

/// Drops the command list that a client has open, if it has one.
fn drop_list_of(lists: &mut [ListCollector; 10], number: u32)
    ensures { lists.new ≡ with_list number None lists.old }
{
    let index = number as usize;
    if index < lists.len() {
        lists[index].drop_list();
    }
}

/// No client has a list open.
fn no_lists() -> [ListCollector; 10]
    ensures { result ≡ no_lists_lem }
{
    [
        ListCollector::new(),
        ListCollector::new(),
        ListCollector::new(),
        ListCollector::new(),
        ListCollector::new(),
        ListCollector::new(),
        ListCollector::new(),
        ListCollector::new(),
        ListCollector::new(),
        ListCollector::new(),
    ]
}

fn push_bad(shown: &mut Vec<u8>) -> Result<Memory, AllocError>
    ensures text { OnOk result (shown.new.items ≡ shown.old.items ++ codes "! bad\n") }
    ensures memory { IfOk result (λ memory. memory ≡ Memory.Ample) }
{
    shown.extend_from_slice(b"! bad\n")?;
    Ok(Memory::Ample)
}

/// Appends the line of a step that found no memory to be read.
fn push_unread(shown: &mut Vec<u8>) -> Result<Memory, AllocError>
    ensures text { OnOk result (shown.new.items ≡ shown.old.items ++ codes "! refused out of memory\n") }
    ensures memory { IfOk result (λ memory. memory ≡ Memory.NoneToRead 0) }
{
    shown.extend_from_slice(b"! refused out of memory\n")?;
    Ok(Memory::NoneToRead(0))
}

/// Appends the line of a step that the player refused.
fn push_refusal(shown: &mut Vec<u8>, fault: PartitionFault) -> Result<Memory, AllocError>
    ensures text { OnOk result (shown.new.items ≡ shown.old.items ++ refusal_text fault) }
    ensures found { IfOk result (λ memory. found_then memory ≡ found_by fault) }
    ensures read { IfOk result IsRead }
{
    match fault {
        PartitionFault::CutsAtLimit | PartitionFault::AtLimit => {
            shown.extend_from_slice(b"! refused player limit reached\n")?;
            Ok(Memory::Ample)
        }
        PartitionFault::NoMemory => {
            shown.extend_from_slice(b"! refused out of memory\n")?;
            Ok(Memory::NoneToRun(0))
        }
        PartitionFault::HistoryFull => {
            shown.extend_from_slice(b"! refused history full\n")?;
            Ok(Memory::NoneToFold(0))
        }
    }
}

/// Whether a song of this URI is among these.
fn has_uri(songs: &[Song], uri: &str) -> bool
    ensures { result ≡ has_uri_lem uri.now songs.now }
{
    songs.iter().any(|song| song.uri() == uri)
}

fn copies(alloc: Global, songs: &[Song]) -> Result<Vec<Song>, AllocError>
    ensures { IfOk result (λ copies. copies.items ≡ songs.now) }
{
    let mut copies = Vec::with_capacity(alloc, songs.len())?;
    for song in songs {
        copies.push(copy_of(alloc, song)?)?;
    }
    Ok(copies)
}

fn copy_of(alloc: Global, song: &Song) -> Result<Song, AllocError>
    ensures { IfOk result (λ copy. copy ≡ song.now) }
{
    let uri = String::from_str(alloc, song.uri())?;
    let tags = copies_of_tags(alloc, song.tags())?;
    match Song::new(uri, tags, song.frames()) {
        Some(copy) => Ok(copy),
        None => unreachable!(),
    }
}

fn copies_of_tags(alloc: Global, tags: &[Tag]) -> Result<Vec<Tag>, AllocError>
    ensures { IfOk result (λ copies. copies.items ≡ tags.now) }
{
    let mut copies = Vec::with_capacity(alloc, tags.len())?;
    for tag in tags {
        let text = String::from_str(alloc, tag.text())?;
        copies.push(Tag::new(tag.name(), text))?;
    }
    Ok(copies)
}
