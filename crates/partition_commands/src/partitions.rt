//! The commands of partitions: what each asks for, by what all know of the partitions and of the clients, and
//! by who asks.
ghost use Rattle.std.specs.Prelude.{◌≡◌, IfOk, map, position};
ghost use Rattle.std.specs.Str.{bytes_eq};
ghost use Rattle.partition_table.specs.Parts.{known};
ghost use Rattle.partition_commands.specs.Partitions.{IsPlanned, LeavesAtMost, begins as begins_lem, brings as brings_lem, delete_partition as delete_partition_lem, done as done_lem, ends_at as ends_at_lem, goes as goes_lem, is_in as is_in_lem, is_used as is_used_lem, list_partitions as list_partitions_lem, move_output as move_output_lem, new_partition as new_partition_lem, opens as opens_lem, output_named as output_named_lem, outputs_elsewhere, partition as partition_lem, planned, seated};

use crate::names::{is_partition_name, lines};
use mpd_command::PartitionCommand;
use mpd_text::{Answer, ErrorNumber, SharedText};
use partition_table::{Crossing, MAX_PARTS, NewPart, Openings, Parts, opened};
use player_state::{Client, Outputs};
use std::alloc::{AllocError, Global};
use transitions::{Asked, Transition};

/// The rows: what each command of partitions asks for. A new partition is opened with these openings.
#[rattlefmt::skip]
#[tactic(auto, unfolding(crate::specs::Partitions::planned))]
pub fn run(alloc: Global, parts: &Parts, clients: &[Client], openings: Openings, asked: Asked, own: u8, command: &PartitionCommand) -> Result<Transition, AllocError>
    ensures transition { IsPlanned result (planned (map known parts.now) (map seated clients.now) openings asked own command.now) }
    ensures leaves { IfOk result (LeavesAtMost asked.client) }
{
    match command {
        PartitionCommand::DelPartition(name) => delete_partition(alloc, parts, clients, asked, name.as_str()),
        PartitionCommand::ListPartitions => list_partitions(alloc, parts, asked),
        PartitionCommand::MoveOutput(name) => move_output(alloc, parts, asked, own, name.as_str()),
        PartitionCommand::NewPartition(name) => new_partition(alloc, parts, openings, asked, name.as_str()),
        PartitionCommand::Partition(name) => partition(alloc, parts, asked, own, name.as_str()),
    }
}

/// The client that asks goes to the partition of this name. Where it is there already, nothing happens.
pub fn partition(
    alloc: Global,
    parts: &Parts,
    asked: Asked,
    own: u8,
    name: &str,
) -> Result<Transition, AllocError>
    ensures transition { IsPlanned result (partition_lem (map known parts.now) asked own name.now) }
    ensures leaves { IfOk result (LeavesAtMost asked.client) }
{
    if !is_partition_name(name) {
        return Transition::bad_name(alloc, asked, name);
    }
    go(alloc, asked, own, parts.index_named(name))
}

fn go(alloc: Global, asked: Asked, own: u8, found: Option<u8>) -> Result<Transition, AllocError>
    ensures transition { IsPlanned result (goes_lem asked own found) }
    ensures leaves { IfOk result (LeavesAtMost asked.client) }
{
    match found {
        Some(to) if to == own => done(alloc, asked),
        Some(to) => Transition::enters(alloc, asked, to),
        None => Transition::refuses(alloc, asked, ErrorNumber::NoExist, "no such partition"),
    }
}

/// Nothing happens, and no lines are shown.
fn done(alloc: Global, asked: Asked) -> Result<Transition, AllocError>
    ensures transition { IsPlanned result (done_lem asked) }
    ensures leaves { IfOk result (LeavesAtMost asked.client) }
{
    Transition::shows(asked, Answer::new(alloc))
}

/// The names of all partitions, in byte order.
pub fn list_partitions(alloc: Global, parts: &Parts, asked: Asked) -> Result<Transition, AllocError>
    ensures transition { IsPlanned result (list_partitions_lem (map known parts.now) asked) }
    ensures leaves { IfOk result (LeavesAtMost asked.client) }
{
    Transition::shows(asked, lines(alloc, parts.items())?)
}

/// A new partition of this name comes, with no output.
pub fn new_partition(
    alloc: Global,
    parts: &Parts,
    openings: Openings,
    asked: Asked,
    name: &str,
) -> Result<Transition, AllocError>
    ensures transition { IsPlanned result (new_partition_lem (map known parts.now) openings asked name.now) }
    ensures leaves { IfOk result (LeavesAtMost asked.client) }
{
    if !is_partition_name(name) {
        return Transition::bad_name(alloc, asked, name);
    }
    if parts.index_named(name).is_some() {
        return Transition::refuses(alloc, asked, ErrorNumber::Exist, "partition exists");
    }
    if parts.len() >= MAX_PARTS {
        return begin(alloc, parts, openings, asked, name, None);
    }
    begin(alloc, parts, openings, asked, name, parts.free_index())
}

fn begin(
    alloc: Global,
    parts: &Parts,
    openings: Openings,
    asked: Asked,
    name: &str,
    index: Option<u8>,
) -> Result<Transition, AllocError>
    ensures transition { IsPlanned result (begins_lem (map known parts.now) openings asked name.now index) }
    ensures leaves { IfOk result (LeavesAtMost asked.client) }
{
    match index {
        Some(index) => open(alloc, parts, openings, asked, name, index),
        None => Transition::refuses(alloc, asked, ErrorNumber::System, "too many partitions"),
    }
}

fn open(
    alloc: Global,
    parts: &Parts,
    openings: Openings,
    asked: Asked,
    name: &str,
    index: u8,
) -> Result<Transition, AllocError>
    ensures transition { IsPlanned result (opens_lem (map known parts.now) openings asked name.now index) }
    ensures leaves { IfOk result (LeavesAtMost asked.client) }
{
    let own_name = SharedText::new(alloc, name)?;
    let outputs = no_outputs_of(alloc, parts)?;
    let part = opened(alloc, openings, index, own_name, outputs);
    Transition::crosses(alloc, asked, Crossing::Opens(NewPart::new(alloc, part)?))
}

/// The names of all outputs, none of which is there.
fn no_outputs_of(alloc: Global, parts: &Parts) -> Result<Outputs, AllocError>
    ensures { IfOk result (λ outputs. outputs ≡ outputs_elsewhere (map known parts.now)) }
{
    match parts.items() {
        [part, ..] => part.outputs.elsewhere(alloc),
        [] => Ok(Outputs::none(alloc)),
    }
}

/// The partition of this name ends, if no client and no output is in it. The one of number 0 is always there.
pub fn delete_partition(
    alloc: Global,
    parts: &Parts,
    clients: &[Client],
    asked: Asked,
    name: &str,
) -> Result<Transition, AllocError>
    ensures transition { IsPlanned result (delete_partition_lem (map known parts.now) (map seated clients.now) asked name.now) }
    ensures leaves { IfOk result (LeavesAtMost asked.client) }
{
    if !is_partition_name(name) {
        return Transition::bad_name(alloc, asked, name);
    }
    match parts.index_named(name) {
        Some(index) => end_at(alloc, parts, clients, asked, index),
        None => Transition::refuses(alloc, asked, ErrorNumber::NoExist, "no such partition"),
    }
}

fn end_at(
    alloc: Global,
    parts: &Parts,
    clients: &[Client],
    asked: Asked,
    index: u8,
) -> Result<Transition, AllocError>
    ensures transition { IsPlanned result (ends_at_lem (map known parts.now) (map seated clients.now) asked index) }
    ensures leaves { IfOk result (LeavesAtMost asked.client) }
{
    if index == 0 {
        return Transition::refuses(
            alloc,
            asked,
            ErrorNumber::Argument,
            "partition is the default",
        );
    }
    if is_used(parts, clients, index) {
        return Transition::refuses(alloc, asked, ErrorNumber::System, "partition is in use");
    }
    Transition::crosses(alloc, asked, Crossing::Closes(index))
}

/// Whether a client or an output is in a partition.
fn is_used(parts: &Parts, clients: &[Client], index: u8) -> bool
    ensures { result ≡ is_used_lem (map known parts.now) (map seated clients.now) index }
{
    is_in(clients, index) || parts.holds_any(index)
}

fn is_in(clients: &[Client], index: u8) -> bool
    ensures { result ≡ is_in_lem index (map seated clients.now) }
{
    for client in clients {
        if client.index == index {
            return true;
        }
    }
    false
}

/// The output of this name, of several the one of the least number, comes to the partition of the client that
/// asks. Where it is there already, nothing happens.
pub fn move_output(
    alloc: Global,
    parts: &Parts,
    asked: Asked,
    own: u8,
    name: &str,
) -> Result<Transition, AllocError>
    ensures transition { IsPlanned result (move_output_lem (map known parts.now) asked own name.now) }
    ensures leaves { IfOk result (LeavesAtMost asked.client) }
{
    match output_named(parts, name) {
        Some(output) => bring(alloc, asked, output, own, parts.holder(output)),
        None => Transition::refuses(alloc, asked, ErrorNumber::NoExist, "no such output"),
    }
}

fn bring(
    alloc: Global,
    asked: Asked,
    output: usize,
    own: u8,
    holder: Option<u8>,
) -> Result<Transition, AllocError>
    ensures transition { IsPlanned result (brings_lem asked output own holder) }
    ensures leaves { IfOk result (LeavesAtMost asked.client) }
{
    match holder {
        Some(index) if index == own => done(alloc, asked),
        Some(_) => Transition::crosses(alloc, asked, Crossing::Brings(output, own)),
        None => Transition::refuses(alloc, asked, ErrorNumber::NoExist, "no such output"),
    }
}

/// The least number of an output of this name. All partitions have the names of all outputs.
fn output_named(parts: &Parts, name: &str) -> Option<usize>
    ensures { result ≡ output_named_lem name.now (map known parts.now) }
{
    match parts.items() {
        [part, ..] => index_among(part.outputs.names(), name),
        [] => None,
    }
}

fn index_among(names: &[SharedText], name: &str) -> Option<usize>
    ensures { result ≡ position (λ own. bytes_eq own name.now) names.now }
{
    names.iter().position(|own| own.as_str() == name)
}
