//! What a player answered of all its partitions.
ghost use Rattle.std.specs.Prelude.{◌≡◌, IfOk, OnOk, [], map, codes};
ghost use Rattle.std.specs.Str.Lines.{lines};
ghost use Rattle.kept_state.specs.HeardPartitions.{Begins, HasHeardAll, HasHeardOf, HearsAll, HearsLast, HearsOf, KeepsAll, KeepsOf, listed_after, texts_after};
ghost use Rattle.kept_state.specs.Partitions.{IsPlayerTold, IsTurnedOn, Pairwise, begins_partition as begins_partition_lem, plays_in_one as plays_in_one_lem, same_texts, values};

use crate::answers::{Heard, hear, hear_text, kept_by, nothing_heard, value_behind};
use crate::kept::Kept;
use mpd_text::Text;
use std::alloc::{AllocError, Global};

/// What is kept of a partition.
#[derive(Drop)]
pub struct KeptPartition {
    /// Its name.
    pub name: Text,
    /// The names of the outputs that stand in it.
    pub outputs: Vec<Text>,
    pub kept: Kept,
}

/// What was heard of a partition so far.
#[derive(Drop)]
struct HeardPartition {
    name: Text,
    outputs: Vec<Text>,
    state: Heard,
}

/// What was heard of a player so far.
#[derive(Drop)]
struct HeardPlayer {
    /// The names of the partitions that there are.
    listed: Vec<Text>,
    /// Those of them that told of themselves.
    partitions: Vec<HeardPartition>,
}

/// What is kept of each partition of a player that answered so to `listpartitions`, and then in each of them to
/// `status`, `outputs` and `playlistinfo`. None where the partitions that told of themselves are not those that there
/// are, since one came or went after the client had asked for their names.
pub fn partitions_of(alloc: Global, answers: &str) -> Result<Option<Vec<KeptPartition>>, AllocError>
    ensures { IfOk result (IsPlayerTold (lines answers.now)) }
{
    let mut heard = HeardPlayer {
        listed: Vec::new(alloc),
        partitions: Vec::new(alloc),
    };
    'answers: for line in answers.lines() {
        hear_all(alloc, &mut heard, line)?;
    }
    all_kept_by(alloc, heard)
}

/// The names of the partitions that there are, by the answer to `listpartitions`.
pub fn names_of(alloc: Global, answer: &str) -> Result<Vec<Text>, AllocError>
    ensures { IfOk result (λ names. names.items ≡ values (codes "partition: ") (lines answer.now)) }
{
    let mut names = Vec::new(alloc);
    'answer: for line in answer.lines() {
        hear_name(alloc, &mut names, "partition: ", line)?;
    }
    Ok(names)
}

fn hear_all(alloc: Global, heard: &mut HeardPlayer, line: &str) -> Result<(), AllocError>
    ensures { OnOk result (HearsAll line.now heard.old heard.new) }
{
    begin(alloc, &mut heard.partitions, line)?;
    let is_heard = hear_last(alloc, &mut heard.partitions, line)?;
    hear_listed(alloc, &mut heard.listed, is_heard, line)
}

/// Begins a partition, where a line is the first of one.
fn begin(alloc: Global, partitions: &mut Vec<HeardPartition>, line: &str) -> Result<(), AllocError>
    ensures { OnOk result (Begins line.now partitions.old.items partitions.new.items) }
{
    if begins_partition(line) {
        partitions.push(nothing_heard_of(alloc)?)?;
    }
    Ok(())
}

/// Whether a line is the first of a partition.
fn begins_partition(line: &str) -> bool
    ensures { result ≡ begins_partition_lem line.now }
{
    match value_behind("volume: ", line) {
        Some(_volume) => true,
        None => false,
    }
}

fn nothing_heard_of(alloc: Global) -> Result<HeardPartition, AllocError>
    ensures { IfOk result (HasHeardOf []) }
{
    Ok(HeardPartition {
        name: Text::new(alloc, "")?,
        outputs: Vec::new(alloc),
        state: nothing_heard(alloc)?,
    })
}

/// Hears a line of the last partition. False where there is none.
fn hear_last(
    alloc: Global,
    partitions: &mut Vec<HeardPartition>,
    line: &str,
) -> Result<bool, AllocError>
    ensures { IfOk result (HearsLast line.now partitions.old.items partitions.new.items) }
{
    match partitions.pop() {
        Some(partition) => {
            partitions.push(heard_more(alloc, partition, line)?)?;
            Ok(true)
        }
        None => Ok(false),
    }
}

/// What was heard of a partition, with a line more.
fn heard_more(
    alloc: Global,
    partition: HeardPartition,
    line: &str,
) -> Result<HeardPartition, AllocError>
    ensures { IfOk result (HearsOf line.now partition) }
{
    let mut partition = partition;
    hear_text(alloc, &mut partition.name, "partition: ", line)?;
    hear_name(alloc, &mut partition.outputs, "outputname: ", line)?;
    hear(alloc, &mut partition.state, line)?;
    Ok(partition)
}

/// Hears which partition there is, where it is told before they tell of themselves.
fn hear_listed(
    alloc: Global,
    listed: &mut Vec<Text>,
    is_heard: bool,
    line: &str,
) -> Result<(), AllocError>
    ensures { OnOk result (listed.new.items ≡ listed_after is_heard line.now listed.old.items) }
{
    if is_heard {
        return Ok(());
    }
    hear_name(alloc, listed, "partition: ", line)
}

/// Names, to which a line may add one.
fn hear_name(alloc: Global, names: &mut Vec<Text>, key: &str, line: &str) -> Result<(), AllocError>
    ensures { OnOk result (names.new.items ≡ texts_after key.now line.now names.old.items) }
{
    if let Some(value) = value_behind(key, line) {
        names.push(Text::new(alloc, value)?)?;
    }
    Ok(())
}

/// What is kept by all that was heard.
fn all_kept_by(alloc: Global, heard: HeardPlayer) -> Result<Option<Vec<KeptPartition>>, AllocError>
    ensures { IfOk result (KeepsAll heard) }
{
    let HeardPlayer { listed, partitions } = heard;
    if are_all(&listed, &partitions) {
        return Ok(Some(each_kept_by(alloc, partitions)?));
    }
    Ok(None)
}

/// Whether just these partitions told of themselves.
fn are_all(listed: &[Text], partitions: &[HeardPartition]) -> bool
    ensures { result ≡ same_texts listed.now (map (λ p. p.name) partitions.now) }
{
    if listed.len() != partitions.len() {
        return false;
    }
    for at in 0..listed.len() {
        if listed[at].as_str() != partitions[at].name.as_str() {
            return false;
        }
    }
    true
}

fn each_kept_by(
    alloc: Global,
    partitions: Vec<HeardPartition>,
) -> Result<Vec<KeptPartition>, AllocError>
    ensures { IfOk result (λ all. Pairwise KeepsOf partitions.items all.items) }
{
    let mut all = Vec::new(alloc);
    'heard: for partition in partitions {
        all.push(partition_by(alloc, partition)?)?;
    }
    Ok(all)
}

/// What is kept of a partition by all that was heard of it.
fn partition_by(alloc: Global, heard: HeardPartition) -> Result<KeptPartition, AllocError>
    ensures { IfOk result (KeepsOf heard) }
{
    let HeardPartition {
        name,
        outputs,
        state,
    } = heard;
    Ok(KeptPartition {
        name,
        outputs,
        kept: kept_by(alloc, state)?,
    })
}

/// What is kept of these partitions, with the outputs on that are named, by their numbers.
pub fn switched_on(
    alloc: Global,
    partitions: Vec<KeptPartition>,
    named: [bool; 8],
) -> Result<Vec<KeptPartition>, AllocError>
    ensures { IfOk result (λ all. Pairwise (IsTurnedOn named) partitions.items all.items) }
{
    let mut all = Vec::new(alloc);
    'kept: for partition in partitions {
        all.push(turned_on(partition, named))?;
    }
    Ok(all)
}

fn turned_on(partition: KeptPartition, named: [bool; 8]) -> KeptPartition
    ensures { IsTurnedOn named partition result }
{
    let mut partition = partition;
    partition.kept.switch_on(named);
    partition
}

/// Whether a song is played in one of these partitions.
pub fn plays_in_one(partitions: &[KeptPartition]) -> bool
    ensures { result ≡ plays_in_one_lem partitions.now }
{
    partitions
        .iter()
        .any(|partition| partition.kept.is_played())
}
