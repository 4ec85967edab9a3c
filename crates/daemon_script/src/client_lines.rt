//! Client lines, and the lines that they print.
ghost use Rattle.daemon_script.specs.Printing.{IsFoundByRefused, LeavesList, LeavesPlayer};
ghost use Rattle.daemon_script.specs.Printing.{LeavesPlayerIfOk, PrintsIfOk, PrintsRun, SaysIfConnected};
ghost use Rattle.daemon_script.specs.Printing.{WasConnected, asking, closing_list, connecting, run_line};
ghost use Rattle.daemon_script.specs.Printing.{run_alone, run_of};
ghost use Rattle.std.specs.Prelude.{◌≡◌, ◌++◌, None, Some, false, IfOk, OnOk};
ghost use Rattle.daemon_script.specs.Pieces.{found_by, found_in};
ghost use Rattle.daemon_script.specs.Script.{Enough, fault_for, found_first, found_then, label, client_run};
ghost use Rattle.daemon_script.specs.Script.{lines_for, notice_lines, notices_for, reply_for, told_for};

use crate::lists::run_commands;
use crate::memory::Memory;
use crate::player::Player;
use command_lists::{ListCollector, Taken};
use connected_clients::Notice;
use mpd_command::{CommandSet, Request};
use mpd_text::{Answer, ErrorNumber};
use partition::PartitionFault;
use player_events::{Event, Outcome};
use std::alloc::{AllocError, Global};
use transitions::{ListPlace, Reply};

/// What a client line found of memory, and whether its client was there when it was run.
#[derive(Clone, Copy)]
pub(crate) struct LineRun {
    pub(crate) memory: Memory,
    pub(crate) connected: bool,
}

/// Runs a client's line, and appends what it prints. A client that is not there connects first.
#[tactic(auto, unfolding(crate::specs::Script::client_run))]
pub(crate) fn run_line(
    alloc: Global,
    set: CommandSet,
    player: &mut Player,
    list: &mut ListCollector,
    number: u32,
    line: &str,
    shown: &mut Vec<u8>,
) -> Result<LineRun, AllocError>
    ensures player { IfOk result (LeavesPlayer (run_of set player.old list.old number line.now) player.new) }
    ensures list { IfOk result (LeavesList (run_of set player.old list.old number line.now) list.new) }
    ensures text { PrintsIfOk (run_of set player.old list.old number line.now) shown.old shown.new result }
    ensures connected { IfOk result (WasConnected (run_of set player.old list.old number line.now)) }
    // Where its client's connect is refused, an open list stays.
    ensures kept { IfOk result (λ ran. ran.connected ≡ false → list.new ≡ list.old) }
{
    if !player.has_client(number) {
        if let Some(memory) = connect(alloc, player, number, shown)? {
            return Ok(LineRun {
                memory,
                connected: false,
            });
        }
    }
    let memory = run_connected_line(alloc, set, player, list, number, line, shown)?;
    Ok(LineRun {
        memory,
        connected: true,
    })
}

/// Connects a client that is not there, and appends what its connect prints. Gives what the connect found of
/// memory where it was refused; `None` where it was not.
fn connect(
    alloc: Global,
    player: &mut Player,
    number: u32,
    shown: &mut Vec<u8>,
) -> Result<Option<Memory>, AllocError>
    ensures player { IfOk result (LeavesPlayer (connecting player.old number) player.new) }
    ensures text { IfOk result (PrintsRun (connecting player.old number) shown.old shown.new) }
    ensures connected { IfOk result (SaysIfConnected player.old number) }
{
    match player.apply(Event::Connect(number)) {
        Ok(greeting) => {
            push_outcome(alloc, shown, number, &greeting)?;
            Ok(None)
        }
        Err(fault) => {
            push_fault(alloc, shown, number, "", fault)?;
            Ok(Some(memory_to_connect(fault)))
        }
    }
}

/// What a connect found of memory that was refused.
fn memory_to_connect(fault: PartitionFault) -> Memory
    ensures { found_first result ≡ found_by fault }
{
    match fault {
        PartitionFault::CutsAtLimit | PartitionFault::AtLimit => Memory::Ample,
        PartitionFault::NoMemory => Memory::NoneToConnect,
        PartitionFault::HistoryFull => Memory::NoneToFoldFirst,
    }
}

/// Runs the line of a client that is there, by the command list that it has open.
fn run_connected_line(
    alloc: Global,
    set: CommandSet,
    player: &mut Player,
    list: &mut ListCollector,
    number: u32,
    line: &str,
    shown: &mut Vec<u8>,
) -> Result<Memory, AllocError>
    ensures player { LeavesPlayerIfOk (run_line set player.old list.old number line.now) player.new result }
    ensures list { IfOk result (LeavesList (run_line set player.old list.old number line.now) list.new) }
    ensures text { PrintsIfOk (run_line set player.old list.old number line.now) shown.old shown.new result }
    ensures connects { IfOk result (λ memory. found_first memory ≡ Enough) }
{
    if list.is_too_large_with(Some(line)) {
        return close_with_list(alloc, player, list, number, shown);
    }
    match list.take(alloc, Some(line)) {
        Ok(Taken::Alone) => run_line_alone(alloc, set, player, number, line, shown),
        Ok(Taken::Begun | Taken::Collected) => Ok(Memory::Ample),
        Ok(Taken::Ended(commands)) => run_commands(alloc, set, player, number, &commands, shown),
        Ok(Taken::TooLarge) => unreachable!(),
        Err(AllocError) => {
            push_fault(alloc, shown, number, "", PartitionFault::NoMemory)?;
            Ok(Memory::NoneToRead(0))
        }
    }
}

/// Disconnects a client whose open list would be too large with its line. Where the player refuses that, the
/// list stays open.
fn close_with_list(
    alloc: Global,
    player: &mut Player,
    list: &mut ListCollector,
    number: u32,
    shown: &mut Vec<u8>,
) -> Result<Memory, AllocError>
    ensures player { IfOk result (LeavesPlayer (closing_list player.old list.old number) player.new) }
    ensures list { IfOk result (LeavesList (closing_list player.old list.old number) list.new) }
    ensures text { IfOk result (PrintsRun (closing_list player.old list.old number) shown.old shown.new) }
    ensures connects { IfOk result (λ memory. found_first memory ≡ Enough) }
{
    match player.apply(Event::Disconnect(number)) {
        Ok(outcome) => {
            list.drop_list();
            push_outcome(alloc, shown, number, &outcome)?;
            Ok(Memory::Ample)
        }
        Err(fault) => {
            push_fault(alloc, shown, number, "", fault)?;
            Ok(memory_to_run(Some(fault)))
        }
    }
}

/// What a line found of memory whose event was refused for this, or was not refused.
fn memory_to_run(refused: Option<PartitionFault>) -> Memory
    ensures found { found_then result ≡ found_in refused }
    ensures connects { found_first result ≡ Enough }
    ensures read { IsFoundByRefused result refused }
{
    match refused {
        None | Some(PartitionFault::CutsAtLimit | PartitionFault::AtLimit) => Memory::Ample,
        Some(PartitionFault::NoMemory) => Memory::NoneToRun(0),
        Some(PartitionFault::HistoryFull) => Memory::NoneToFold(0),
    }
}

/// Runs a line that is in no list.
fn run_line_alone(
    alloc: Global,
    set: CommandSet,
    player: &mut Player,
    number: u32,
    line: &str,
    shown: &mut Vec<u8>,
) -> Result<Memory, AllocError>
    ensures player { IfOk result (LeavesPlayer (run_alone set player.old number line.now) player.new) }
    ensures text { IfOk result (PrintsRun (run_alone set player.old number line.now) shown.old shown.new) }
    ensures connects { IfOk result (λ memory. found_first memory ≡ Enough) }
{
    let Ok(request) = Request::of_line(alloc, line, set) else {
        push_fault(alloc, shown, number, "", PartitionFault::NoMemory)?;
        return Ok(Memory::NoneToRead(0));
    };
    let refused = run_request(alloc, player, number, request, shown)?;
    Ok(memory_to_run(refused))
}

/// Runs the request of a client that is there. Gives why it was refused, if it was.
fn run_request(
    alloc: Global,
    player: &mut Player,
    number: u32,
    request: Request,
    shown: &mut Vec<u8>,
) -> Result<Option<PartitionFault>, AllocError>
    ensures player { IfOk result (LeavesPlayer (asking player.old number request) player.new) }
    ensures text { IfOk result (PrintsRun (asking player.old number request) shown.old shown.new) }
{
    let name = request.name();
    match player.apply(Event::line(number, ListPlace::Alone, request)) {
        Ok(outcome) => {
            push_outcome(alloc, shown, number, &outcome)?;
            Ok(None)
        }
        Err(fault) => {
            push_fault(alloc, shown, number, name, fault)?;
            Ok(Some(fault))
        }
    }
}

/// Appends what an event makes clients hear.
fn push_outcome(
    alloc: Global,
    shown: &mut Vec<u8>,
    number: u32,
    outcome: &Outcome,
) -> Result<(), AllocError>
    ensures { OnOk result (shown.new.items ≡ shown.old.items ++ told_for number outcome.now) }
{
    push_reply(alloc, shown, number, outcome.reply())?;
    push_notices(alloc, shown, outcome.notices())
}

fn push_reply(
    alloc: Global,
    shown: &mut Vec<u8>,
    number: u32,
    reply: &Reply,
) -> Result<(), AllocError>
    ensures { OnOk result (shown.new.items ≡ shown.old.items ++ reply_for number reply.now) }
{
    push_lines(alloc, shown, number, reply.text().as_bytes())?;
    if reply.next().closes() {
        push_lines(alloc, shown, number, b"closed\n")?;
    }
    Ok(())
}

/// Appends notices, each with its client's number before its lines.
pub(crate) fn push_notices(
    alloc: Global,
    shown: &mut Vec<u8>,
    notices: &[Notice],
) -> Result<(), AllocError>
    ensures { OnOk result (shown.new.items ≡ shown.old.items ++ notices_for notices.now) }
{
    for notice in notices {
        push_notice(alloc, shown, *notice)?;
    }
    Ok(())
}

pub(crate) fn push_notice(
    alloc: Global,
    shown: &mut Vec<u8>,
    notice: Notice,
) -> Result<(), AllocError>
    ensures { OnOk result (shown.new.items ≡ shown.old.items ++ notice_lines notice) }
{
    let mut answer = Answer::new(alloc);
    notice.names.push_lines(&mut answer)?;
    answer.ok()?;
    push_lines(alloc, shown, notice.client, answer.bytes())
}

/// Appends the line of an event that was refused.
pub(crate) fn push_fault(
    alloc: Global,
    shown: &mut Vec<u8>,
    number: u32,
    name: &str,
    fault: PartitionFault,
) -> Result<(), AllocError>
    ensures { OnOk result (shown.new.items ≡ shown.old.items ++ fault_for number name.now fault) }
{
    let mut answer = Answer::new(alloc);
    answer.ack(ErrorNumber::System, 0, name, fault.text())?;
    push_lines(alloc, shown, number, answer.bytes())
}

/// Appends a text, with the client's number before each line.
#[tactic(auto, using(crate::proofs::Numbered::whole_text))]
pub(crate) fn push_lines(
    alloc: Global,
    shown: &mut Vec<u8>,
    number: u32,
    text: &[u8],
) -> Result<(), AllocError>
    ensures { OnOk result (shown.new.items ≡ shown.old.items ++ lines_for number text.now) }
{
    let mut begins = true;
    for b in text {
        if begins {
            push_label(alloc, shown, number)?;
        }
        shown.push(*b)?;
        begins = *b == b'\n';
    }
    Ok(())
}

fn push_label(alloc: Global, shown: &mut Vec<u8>, number: u32) -> Result<(), AllocError>
    ensures { OnOk result (shown.new.items ≡ shown.old.items ++ label number) }
{
    if number < 10 {
        shown.push(b'0' + number as u8)?;
        shown.push(b' ')?;
        return Ok(());
    }
    let label = format!(in alloc; "{number} ")?;
    shown.extend_from_slice(label.as_bytes())
}
