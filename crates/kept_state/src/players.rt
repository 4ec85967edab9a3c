//! What is kept of all partitions, as lines.
ghost use Rattle.std.specs.Prelude.{◌≡◌, IfOk, string_bytes};
ghost use Rattle.std.specs.List.{flat_map};
ghost use Rattle.kept_state.specs.Players as texts;

use crate::partitions::KeptPartition;
use crate::text::{line, state_text};
use mpd_text::{Text, quote};
use std::alloc::{AllocError, Global};

/// The lines that a player which was just opened is told, so that it is as it was: the state of the partition `default`,
/// and then each other partition with the outputs that stand in it and with its state. The text of a player that has
/// `default` alone is that of its state.
pub fn player_text(alloc: Global, partitions: &[KeptPartition]) -> Result<String, AllocError>
    ensures { IfOk result (λ text. string_bytes text ≡ texts.player_text partitions.now) }
{
    let default = default_texts(alloc, partitions)?;
    let others = other_texts(alloc, partitions)?;
    format!(in alloc; "{default}{others}")
}

fn default_texts(alloc: Global, partitions: &[KeptPartition]) -> Result<String, AllocError>
    ensures { IfOk result (λ text. string_bytes text ≡ flat_map texts.default_text partitions.now) }
{
    let mut text = String::new(alloc);
    for partition in partitions {
        text.push_str(default_text(alloc, partition)?.as_str())?;
    }
    Ok(text)
}

fn other_texts(alloc: Global, partitions: &[KeptPartition]) -> Result<String, AllocError>
    ensures { IfOk result (λ text. string_bytes text ≡ flat_map texts.other_text partitions.now) }
{
    let mut text = String::new(alloc);
    for partition in partitions {
        text.push_str(other_text(alloc, partition)?.as_str())?;
    }
    Ok(text)
}

fn default_text(alloc: Global, partition: &KeptPartition) -> Result<String, AllocError>
    ensures { IfOk result (λ text. string_bytes text ≡ texts.default_text partition.now) }
{
    if is_default(partition) {
        state_text(alloc, &partition.kept)
    } else {
        Ok(String::new(alloc))
    }
}

fn other_text(alloc: Global, partition: &KeptPartition) -> Result<String, AllocError>
    ensures { IfOk result (λ text. string_bytes text ≡ texts.other_text partition.now) }
{
    if is_default(partition) {
        Ok(String::new(alloc))
    } else {
        partition_text(alloc, partition)
    }
}

fn is_default(partition: &KeptPartition) -> bool
    ensures { result ≡ texts.is_default partition.now }
{
    partition.name.as_str() == "default"
}

/// A partition is made, its outputs come to it, and then its state is said.
fn partition_text(alloc: Global, partition: &KeptPartition) -> Result<String, AllocError>
    ensures { IfOk result (λ text. string_bytes text ≡ texts.partition_text partition.now) }
{
    let opening = open_text(alloc, partition.name.as_str())?;
    let outputs = bring_texts(alloc, &partition.outputs)?;
    let state = state_text(alloc, &partition.kept)?;
    format!(in alloc; "{opening}{outputs}{state}")
}

fn open_text(alloc: Global, name: &str) -> Result<String, AllocError>
    ensures { IfOk result (λ text. string_bytes text ≡ texts.open_text name.now) }
{
    let name = quote(alloc, name)?;
    let opening = line(alloc, "newpartition", name.as_str())?;
    let going = line(alloc, "partition", name.as_str())?;
    format!(in alloc; "{opening}{going}")
}

fn bring_texts(alloc: Global, outputs: &[Text]) -> Result<String, AllocError>
    ensures { IfOk result (λ text. string_bytes text ≡ flat_map texts.bring_text outputs.now) }
{
    let mut text = String::new(alloc);
    for output in outputs {
        text.push_str(bring_text(alloc, output.as_str())?.as_str())?;
    }
    Ok(text)
}

/// An output comes to the partition in which the client is.
fn bring_text(alloc: Global, name: &str) -> Result<String, AllocError>
    ensures { IfOk result (λ text. string_bytes text ≡ texts.bring_text name.now) }
{
    let name = quote(alloc, name)?;
    line(alloc, "moveoutput", name.as_str())
}
