//! What an event is to do, found out before anything changes.
ghost use Rattle.std.specs.Prelude.{◌≡◌, if◌then◌else◌, true, false, IfOk, IsErrOf, OnOk, OnErr};
ghost use Rattle.transitions.specs.CommandResults.{begins_scan as begins_scan_lem, bad_index as bad_index_lem, bad_name as bad_name_lem, closes_client as closes_client_lem, does as does_lem, edits, ends_daemon as ends_daemon_lem, no_such_song as no_such_song_lem, not_playing as not_playing_lem, refusal, shows as shows_lem, writes as writes_lem};
ghost use Rattle.partition_table.specs.Parts.{FitsIn, part_at};
ghost use Rattle.player_state.specs.Libraries.{library_after, second_after};
ghost use Rattle.player_state.specs.declared.scan.ScanMove.TheVariants.{End};
ghost use Rattle.transitions.specs.EarlyReports.{report_of as report_of_early};
ghost use Rattle.transitions.specs.Shelves.{is_written};
ghost use Rattle.player_state.specs.declared.report.Report.{Report};
ghost use Rattle.transitions.specs.Transitions.{IsDecidedBy, acts as acts_lem, acts_unless as acts_unless_lem, crosses as crosses_lem, departs as departs_lem, enters as enters_lem, keeps_all_numbers, leaves as leaves_lem, max_cut_in, only_written, or_ended as or_ended_lem, parts_after, quiet, report_of, no_response, transition_by};

use crate::asked::Asked;
use crate::early_report::EarlyReport;
use crate::reply::Move;
use crate::response::{
    Response, disconnects, refuses, shows, shut_down, succeeds, succeeds_and, tells,
};
use crate::shelf_calls::ShelfWrite;
use mpd_text::{Answer, ErrorNumber};
use partition_table::{Crossing, Parts};
use player_core::PlayerFault;
use player_state::{AudioStep, CommandEffect, Effect, Library, Report, ScanMove, same_songs};
use song_db::SharedDb;
use song_queue::Edit;
use std::alloc::{AllocError, Global};
use std::marker::Model;

/// What an event asks of a part, and what is answered. It is made without changing anything.
pub struct Transition {
    pub effect: Effect,
    pub scan: ScanMove,
    pub written: ShelfWrite,
    pub response: Response,
    pub report: EarlyReport,
    /// What passes between the partitions.
    pub crossing: Crossing,
}

// Written out, so that a proof goes through one call where it lets one go (docs/DECISIONS.md).
impl Drop for Transition {
    fn drop(self) {
        let Transition {
            effect: _,
            scan: _,
            written: _,
            response: _,
            report: _,
            crossing: _,
        } = self;
    }
}

impl Model for Transition {
    ghost use Rattle.transitions.specs.EarlyReports.{report_of as report_of_early};
    ghost use Rattle.transitions.specs.Transitions.{TransitionData, transition_from};

    ghost Value = { TransitionData };

    ghost view = { λ p. transition_from p.effect p.scan p.written p.response (report_of_early p.report) p.crossing };
}

impl Transition {
    /// The part stays as it is.
    pub fn only(response: Response) -> Transition
        ensures { result ≡ quiet response }
    {
        Transition {
            effect: Effect::ByCommand(CommandEffect::Rests),
            scan: ScanMove::Stay,
            written: ShelfWrite::Nothing,
            response,
            report: EarlyReport::Nothing,
            crossing: Crossing::Stays,
        }
    }

    /// A step of the decoder or of an output.
    pub fn acts(alloc: Global, step: AudioStep) -> Transition
        ensures { result ≡ acts_lem step }
    {
        Transition {
            effect: Effect::ByAudio(step),
            scan: ScanMove::Stay,
            written: ShelfWrite::Nothing,
            response: tells(String::new(alloc), Move::Stay),
            report: EarlyReport::Nothing,
            crossing: Crossing::Stays,
        }
    }

    /// A step of the decoder; after the end it does nothing, and is told so.
    pub fn acts_unless(
        alloc: Global,
        ended: bool,
        report: EarlyReport,
        step: AudioStep,
    ) -> Transition
        ensures { result ≡ acts_unless_lem ended (report_of_early report) step }
    {
        if ended {
            return Transition::reports(alloc, ScanMove::Stay, report);
        }
        Transition::acts(alloc, step)
    }

    /// The queue is edited, and these lines are shown.
    pub fn edits(asked: Asked, edit: Edit, lines: Answer) -> Result<Transition, AllocError>
        ensures { IsDecidedBy result (edits asked edit lines) }
    {
        Ok(Transition {
            effect: Effect::ByCommand(CommandEffect::Edits(edit)),
            scan: ScanMove::Stay,
            written: ShelfWrite::Nothing,
            response: shows(asked, lines)?,
            report: EarlyReport::Nothing,
            crossing: Crossing::Stays,
        })
    }

    /// The player does this, and no lines are shown.
    pub fn does(
        alloc: Global,
        asked: Asked,
        effect: CommandEffect,
    ) -> Result<Transition, AllocError>
        ensures { IsDecidedBy result (does_lem asked effect) }
    {
        Ok(Transition {
            effect: Effect::ByCommand(effect),
            scan: ScanMove::Stay,
            written: ShelfWrite::Nothing,
            response: succeeds(alloc, asked)?,
            report: EarlyReport::Nothing,
            crossing: Crossing::Stays,
        })
    }

    /// This is written to the shelf, and no lines are shown.
    pub fn writes(
        alloc: Global,
        asked: Asked,
        written: ShelfWrite,
    ) -> Result<Transition, AllocError>
        ensures { IsDecidedBy result (writes_lem asked written) }
    {
        Ok(Transition {
            effect: Effect::ByCommand(CommandEffect::Rests),
            scan: ScanMove::Stay,
            written,
            response: succeeds(alloc, asked)?,
            report: EarlyReport::Nothing,
            crossing: Crossing::Stays,
        })
    }

    /// The player does this, and these lines are shown.
    pub fn does_and_shows(
        asked: Asked,
        effect: CommandEffect,
        lines: Answer,
    ) -> Result<Transition, AllocError>
        ensures { IsDecidedBy result (record (shows_lem asked lines) { effect = effect }) }
    {
        Ok(Transition {
            effect: Effect::ByCommand(effect),
            scan: ScanMove::Stay,
            written: ShelfWrite::Nothing,
            response: shows(asked, lines)?,
            report: EarlyReport::Nothing,
            crossing: Crossing::Stays,
        })
    }

    /// The client is gone, without an answer.
    pub fn departs(alloc: Global, client: u32) -> Transition
        ensures { result ≡ departs_lem client }
    {
        Transition::leaves(client, disconnects(alloc))
    }

    /// The client that asks is gone, without an answer.
    pub fn closes_client(alloc: Global, asked: Asked) -> Transition
        ensures { result ≡ transition_by (closes_client_lem asked) }
    {
        Transition::departs(alloc, asked.client)
    }

    /// The client that asks is gone, without an answer, and the daemon ends.
    pub fn ends_daemon(alloc: Global, asked: Asked) -> Transition
        ensures { result ≡ transition_by (ends_daemon_lem asked) }
    {
        Transition::leaves(asked.client, shut_down(alloc))
    }

    /// A client is gone, which is answered so.
    fn leaves(client: u32, response: Response) -> Transition
        ensures { result ≡ leaves_lem client response }
    {
        Transition {
            effect: Effect::ByCommand(CommandEffect::Leaves(client)),
            scan: ScanMove::Stay,
            written: ShelfWrite::Nothing,
            response,
            report: EarlyReport::Nothing,
            crossing: Crossing::Stays,
        }
    }

    /// What writes to the shelf does nothing else.
    pub fn once_written(self) -> Transition
        ensures transition { result ≡ (if is_written self.written then only_written self else self) }
        ensures alone { is_written result.written ≡ true → result ≡ only_written result }
    {
        if !self.written.is_written() {
            return self;
        }
        let Transition {
            effect: _,
            scan: _,
            written,
            response,
            report: _,
            crossing: _,
        } = self;
        Transition {
            effect: Effect::ByCommand(CommandEffect::Rests),
            scan: ScanMove::Stay,
            written,
            response,
            report: EarlyReport::Nothing,
            crossing: Crossing::Stays,
        }
    }

    /// A scan begins, and these lines are shown.
    pub fn begins_scan(asked: Asked, lines: Answer) -> Result<Transition, AllocError>
        ensures { IsDecidedBy result (begins_scan_lem asked lines) }
    {
        Ok(Transition {
            effect: Effect::ByCommand(CommandEffect::Rests),
            scan: ScanMove::Begin,
            written: ShelfWrite::Nothing,
            response: shows(asked, lines)?,
            report: EarlyReport::Nothing,
            crossing: Crossing::Stays,
        })
    }

    /// The part stays as it is, and this is told to a part of the daemon that is no client.
    pub fn reports(alloc: Global, scan: ScanMove, report: EarlyReport) -> Transition
        ensures { result ≡ record (quiet no_response) { scan = scan; report = report_of_early report } }
    {
        Transition {
            effect: Effect::ByCommand(CommandEffect::Rests),
            scan,
            written: ShelfWrite::Nothing,
            response: tells(String::new(alloc), Move::Stay),
            report,
            crossing: Crossing::Stays,
        }
    }

    /// The end, whatever else is told.
    pub fn or_ended(self, ended: bool) -> Transition
        ensures { result ≡ or_ended_lem ended self }
    {
        let mut transition = self;
        if ended {
            transition.report = EarlyReport::Ended;
        }
        transition
    }

    /// The part stays as it is, and these lines are shown.
    pub fn shows(asked: Asked, lines: Answer) -> Result<Transition, AllocError>
        ensures { IsDecidedBy result (shows_lem asked lines) }
    {
        Ok(Transition::only(shows(asked, lines)?))
    }

    pub fn refuses(
        alloc: Global,
        asked: Asked,
        number: ErrorNumber,
        text: &str,
    ) -> Result<Transition, AllocError>
        ensures { IsDecidedBy result (refusal asked number text.now) }
    {
        Ok(Transition::only(refuses(alloc, asked, number, text)?))
    }

    pub fn bad_index(alloc: Global, asked: Asked) -> Result<Transition, AllocError>
        ensures { IsDecidedBy result (bad_index_lem asked) }
    {
        Transition::refuses(alloc, asked, ErrorNumber::Argument, "bad song index")
    }

    pub fn bad_name(alloc: Global, asked: Asked, name: &str) -> Result<Transition, AllocError>
        ensures { IsDecidedBy result (bad_name_lem asked name.now) }
    {
        let mut text = String::from_str(alloc, "bad name \"")?;
        text.push_str(name)?;
        text.push('"')?;
        Transition::refuses(alloc, asked, ErrorNumber::Argument, text.as_str())
    }

    pub fn no_such_song(alloc: Global, asked: Asked) -> Result<Transition, AllocError>
        ensures { IsDecidedBy result (no_such_song_lem asked) }
    {
        Transition::refuses(alloc, asked, ErrorNumber::NoExist, "no such song")
    }

    pub fn not_playing(alloc: Global, asked: Asked) -> Result<Transition, AllocError>
        ensures { IsDecidedBy result (not_playing_lem asked) }
    {
        Transition::refuses(alloc, asked, ErrorNumber::PlayerSync, "not playing")
    }

    /// What is told once it is written to the shelf, which is all that it does.
    pub fn into_telling(self) -> Telling
        ensures response { result.response ≡ self.response }
        ensures report { result.report ≡ Report.Nothing }
    {
        let Transition {
            effect: _,
            scan: _,
            written: _,
            response,
            report: _,
            crossing: _,
        } = self;
        Telling {
            response,
            report: Report::Nothing,
        }
    }

    /// Something passes between the partitions, and no lines are shown.
    pub fn crosses(
        alloc: Global,
        asked: Asked,
        crossing: Crossing,
    ) -> Result<Transition, AllocError>
        ensures { IfOk result (λ transition. transition ≡ crosses_lem asked crossing) }
    {
        let mut transition = Transition::only(succeeds(alloc, asked)?);
        transition.crossing = crossing;
        Ok(transition)
    }

    /// The client that asks goes to the partition of a number; its channels and its messages end in the other.
    pub fn enters(alloc: Global, asked: Asked, index: u8) -> Result<Transition, AllocError>
        ensures { IfOk result (λ transition. transition ≡ enters_lem asked index) }
    {
        Ok(Transition::leaves(
            asked.client,
            succeeds_and(alloc, asked, Move::Enter(index))?,
        ))
    }

    /// Changes the partition of a number and a library as it asks, lets pass between the partitions what it
    /// asks, and gives what is told. Where it is refused, nothing changes.
    pub fn carry_out(
        self,
        parts: &mut Parts,
        index: u8,
        library: &mut Library,
    ) -> Result<Telling, PlayerFault>
        requires { FitsIn (part_at index parts.old) self.effect }
        ensures parts { OnOk result (parts.new ≡ parts_after library.old.rate index self parts.old) }
        ensures library { OnOk result (library.new ≡ library_after library.old self.scan) }
        ensures response { IfOk result (λ telling. telling.response ≡ self.response) }
        ensures report { IfOk result (λ telling. telling.report ≡ report_of index parts.old library.old self) }
        ensures within { OnOk result (keeps_all_numbers index parts.old library.old self ≡ true) }
        ensures limit { IsErrOf result PlayerFault.CutsAtLimit → keeps_all_numbers index parts.old library.old self ≡ false }
        ensures err { OnErr result (parts.new ≡ parts.old) }
        ensures err_library { OnErr result (library.new ≡ library.old) }
    {
        let max_cut = max_cut_at(parts, index);
        if library.scan.begins_beyond(max_cut, &self.scan) {
            return Err(PlayerFault::CutsAtLimit);
        }
        if parts.moves_beyond(max_cut, &self.crossing) {
            return Err(PlayerFault::CutsAtLimit);
        }
        let Transition {
            effect,
            scan,
            written: _,
            response,
            report,
            crossing,
        } = self;
        let report = parts.apply(index, &library.rate, effect, report.into_report())?;
        parts.cross(crossing);
        move_scan(library, scan);
        Ok(Telling { response, report })
    }
}

/// The limit of numbers of the partition of a number.
fn max_cut_at(parts: &Parts, index: u8) -> u64
    ensures { result ≡ max_cut_in (part_at index parts.now) }
{
    match parts.at(index) {
        Some(part) => part.player.max_cut(),
        None => 9_223_372_036_854_775_807,
    }
}

/// What is told at an event.
#[derive(Drop)]
pub struct Telling {
    pub response: Response,
    pub report: Report,
}

/// Begins or ends a scan; what one that ran found takes the place of the songs.
fn move_scan(library: &mut Library, scan: ScanMove)
    ensures { library.new ≡ library_after library.old scan }
{
    let scans = library.scan.after(&scan);
    if let ScanMove::End(found, second) = scan {
        take_found(library, found, second);
    }
    library.scan = scans;
}

/// What a scan that ran found until this second takes the place of the songs. Whether one runs stays.
#[tactic(auto, using(crate::proofs::Scans::second_stays))]
fn take_found(library: &mut Library, found: Option<SharedDb>, second: u64)
    ensures { library.new ≡ record (library_after library.old (End found second)) { scan = library.old.scan } }
{
    if library.scan.running().is_none() {
        return;
    }
    if let Some(songs) = found {
        take_songs(library, songs, second);
    }
}

/// These songs take the place of those before. Where they are others, the library changed at this second.
fn take_songs(library: &mut Library, songs: SharedDb, second: u64)
    ensures songs { library.new.songs ≡ songs }
    ensures second { library.new.updated ≡ second_after library.old.songs songs second library.old.updated }
    ensures rate { library.new.rate ≡ library.old.rate }
    ensures scan { library.new.scan ≡ library.old.scan }
{
    if !same_songs(library.songs.db().songs(), songs.db().songs()) {
        library.updated = second;
    }
    library.songs = songs;
}
