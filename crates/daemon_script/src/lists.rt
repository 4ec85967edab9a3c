//! Command lists that have ended, and the lines that they print.
ghost use Rattle.daemon_script.specs.Printing.{LeavesPlayer, Prints, PrintsRun, list_lines, notices_in_turn};
ghost use Rattle.daemon_script.specs.Printing.{run_list, stopped_lines, whole_answer_of};
ghost use Rattle.std.specs.Prelude.{◌≡◌, ℕ, ◌++◌, ◌∷◌, [], map, string_bytes, IfOk, OnErr};
ghost use Rattle.std.specs.Prelude.{OnOk};
ghost use Rattle.std.specs.List.{flat_map};
ghost use Rattle.daemon_script.specs.Pieces.{stopped_at as stopped_at_lem};
ghost use Rattle.daemon_script.specs.Script.{end_of as end_of_lem, notices_by_number, notices_to, Enough};
ghost use Rattle.daemon_script.specs.Script.{found_at, found_first, read_of, request_in as request_in_lem};

use crate::client_lines::{push_lines, push_notice};
use crate::memory::Memory;
use crate::player::Player;
use command_lists::{CommandList, ListLine};
use connected_clients::Notice;
use mpd_command::{Ack, CommandSet, Request};
use mpd_text::{Answer, ErrorNumber, Text};
use partition::{ListFault, ListOutcome, PartitionFault};
use player_events::Outcome;
use std::alloc::{AllocError, Global};

/// The numbers of a script's clients.
const CLIENT_NUMBERS: [u32; 9] = [1, 2, 3, 4, 5, 6, 7, 8, 9];

/// Runs a command list, and appends what it prints: the whole answer to its client, and then the notices to
/// others. The commands before one that cannot be read or run for lack of memory stand.
pub(crate) fn run_commands(
    alloc: Global,
    set: CommandSet,
    player: &mut Player,
    number: u32,
    commands: &CommandList,
    shown: &mut Vec<u8>,
) -> Result<Memory, AllocError>
    ensures player { IfOk result (LeavesPlayer (run_list set player.old number commands.now) player.new) }
    ensures text { IfOk result (PrintsRun (run_list set player.old number commands.now) shown.old shown.new) }
    ensures connects { IfOk result (λ memory. found_first memory ≡ Enough) }
{
    let (requests, memory) = read_all(alloc, set, commands.lines.items());
    let end = end_of(alloc, memory, commands.lines.items().len())?;
    match player.run_list(number, commands.form, requests) {
        Ok(outcome) => {
            push_list_outcome(alloc, shown, number, &outcome, end.as_str())?;
            Ok(memory)
        }
        Err(fault) => {
            push_list_fault(alloc, shown, number, &fault)?;
            Ok(stopped_at(memory, fault.done, fault.cause))
        }
    }
}

/// What a list found of memory, of which `done` commands were run and the next was refused; its lines had
/// found `memory`.
fn stopped_at(memory: Memory, done: usize, cause: PartitionFault) -> Memory
    ensures memory { result ≡ stopped_at_lem memory done cause }
    ensures connects { found_first memory ≡ Enough → found_first result ≡ Enough }
{
    match cause {
        PartitionFault::CutsAtLimit | PartitionFault::AtLimit => memory,
        PartitionFault::NoMemory => Memory::NoneToRun(done),
        PartitionFault::HistoryFull => Memory::NoneToFold(done),
    }
}

/// What the lines of a list ask for, up to the first that there was no memory to read.
fn read_all(alloc: Global, set: CommandSet, lines: &[ListLine]) -> (Vec<Request>, Memory)
    ensures read { result.0.items ≡ read_of result.1 (map (request_in_lem set) lines.now) }
    ensures runs { (place : ℕ) → found_at result.1 place ≡ Enough }
    ensures connects { found_first result.1 ≡ Enough }
{
    let mut requests = Vec::new(alloc);
    for (place, line) in lines.iter().enumerate() {
        let Ok(()) = push_request(alloc, set, &mut requests, line) else {
            return (requests, Memory::NoneToRead(place));
        };
    }
    (requests, Memory::Ample)
}

/// Puts what a line of a list asks for after other requests.
fn push_request(
    alloc: Global,
    set: CommandSet,
    requests: &mut Vec<Request>,
    line: &ListLine,
) -> Result<(), AllocError>
    ensures ok { OnOk result (requests.new.items
        ≡ requests.old.items ++ request_in_lem set line.now ∷ []) }
    ensures err { OnErr result (requests.new.items ≡ requests.old.items) }
{
    let request = request_in(alloc, set, line)?;
    Ok(requests.push(request)?)
}

/// What a line of a list asks for.
fn request_in(alloc: Global, set: CommandSet, line: &ListLine) -> Result<Request, AllocError>
    ensures { IfOk result (λ request. request ≡ request_in_lem set line.now) }
{
    match line {
        ListLine::Text(line) => Request::of_line(alloc, line.as_str(), set),
        ListLine::NotText => Ok(Request::Refused(Ack {
            number: ErrorNumber::Argument,
            command: None,
            text: Text::new(alloc, "line is not UTF-8")?,
        })),
    }
}

/// What follows the answers where all commands that were read succeed, of a list of `count` commands.
fn end_of(alloc: Global, memory: Memory, count: usize) -> Result<String, AllocError>
    ensures { IfOk result (λ end. string_bytes end ≡ end_of_lem memory count) }
{
    let mut end = Answer::new(alloc);
    match memory {
        Memory::NoneToRead(place) if place < count => {
            let text = PartitionFault::NoMemory.text();
            end.ack(ErrorNumber::System, place, "", text)?;
        }
        _ => end.ok()?,
    }
    Ok(end.into_string())
}

/// Appends what a list that ran makes clients hear; `end` follows the answers where all succeeded.
fn push_list_outcome(
    alloc: Global,
    shown: &mut Vec<u8>,
    number: u32,
    outcome: &ListOutcome,
    end: &str,
) -> Result<(), AllocError>
    ensures { OnOk result (Prints shown.old shown.new (list_lines number end.now outcome.now)) }
{
    let answer = whole_answer(alloc, outcome, end)?;
    push_lines(alloc, shown, number, &answer)?;
    push_notices_by_number(alloc, shown, outcome.outcomes())
}

/// The whole answer of a list that ran.
fn whole_answer(alloc: Global, outcome: &ListOutcome, end: &str) -> Result<Vec<u8>, AllocError>
    ensures { IfOk result (λ answer. answer.items ≡ whole_answer_of end.now outcome.now) }
{
    let mut answer = Vec::new(alloc);
    if outcome.next().closes() {
        outcome.push_text_with("", &mut answer)?;
        answer.extend_from_slice(b"closed\n")?;
    } else {
        outcome.push_text_with(end, &mut answer)?;
    }
    Ok(answer)
}

/// Appends what a list makes clients hear that was not run to its end.
fn push_list_fault(
    alloc: Global,
    shown: &mut Vec<u8>,
    number: u32,
    fault: &ListFault,
) -> Result<(), AllocError>
    ensures { OnOk result (Prints shown.old shown.new (stopped_lines number fault.now)) }
{
    let mut answer = Vec::new(alloc);
    fault.push_text(alloc, &mut answer)?;
    push_lines(alloc, shown, number, &answer)?;
    push_notices_by_number(alloc, shown, &fault.outcomes)
}

/// Appends the notices of a list's commands, by rising client.
#[tactic(auto, unfolding(crate::specs::Script::notices_by_number))]
fn push_notices_by_number(
    alloc: Global,
    shown: &mut Vec<u8>,
    outcomes: &[Outcome],
) -> Result<(), AllocError>
    ensures { OnOk result (shown.new.items ≡ shown.old.items ++ notices_by_number outcomes.now) }
{
    let notices = all_notices(alloc, outcomes)?;
    push_notices_in_turn(alloc, shown, &CLIENT_NUMBERS, &notices)
}

/// The notices of all these outcomes.
fn all_notices(alloc: Global, outcomes: &[Outcome]) -> Result<Vec<Notice>, AllocError>
    ensures { IfOk result (λ notices. notices.items ≡ flat_map (λ t. t.notices) outcomes.now) }
{
    let mut notices = Vec::new(alloc);
    for outcome in outcomes {
        notices.extend_from_slice(outcome.notices())?;
    }
    Ok(notices)
}

/// Appends those of some notices that are to these clients, in the order of the list.
fn push_notices_in_turn(
    alloc: Global,
    shown: &mut Vec<u8>,
    numbers: &[u32],
    notices: &[Notice],
) -> Result<(), AllocError>
    ensures { OnOk result (Prints shown.old shown.new (notices_in_turn notices.now numbers.now)) }
{
    for number in numbers {
        push_notices_to(alloc, shown, *number, notices)?;
    }
    Ok(())
}

/// Appends those of some notices that are to one client.
#[tactic(auto, unfolding(crate::specs::Script::notices_to))]
fn push_notices_to(
    alloc: Global,
    shown: &mut Vec<u8>,
    number: u32,
    notices: &[Notice],
) -> Result<(), AllocError>
    ensures { OnOk result (shown.new.items ≡ shown.old.items ++ notices_to number notices.now) }
{
    for notice in notices {
        if notice.client == number {
            push_notice(alloc, shown, *notice)?;
        }
    }
    Ok(())
}
