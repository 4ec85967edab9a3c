//! Commands of partitions (MPD protocol reference, Partition commands).
ghost use Rattle.std.specs.Prelude.{string_bytes, map};
ghost use Rattle.command_arguments.specs.Readers.{Gives};
ghost use Rattle.mpd_command.specs.Tables.{found};
ghost use Rattle.mpd_command.specs.Partitions.{rows};

use command_arguments::{Misread, none, one};
use mpd_text::Text;
use std::alloc::Global;

/// A command of partitions. A name is looked at where the command is carried out, as that of a stored playlist.
pub enum PartitionCommand {
    /// `delpartition NAME`: the partition of this name ends, if no client and no output is in it.
    DelPartition(Text),
    /// `listpartitions`: the names of all partitions.
    ListPartitions,
    /// `moveoutput OUTPUTNAME`: the output of this name comes to the partition of the client.
    MoveOutput(Text),
    /// `newpartition NAME`: a partition of this name comes.
    NewPartition(Text),
    /// `partition NAME`: the client goes to the partition of this name.
    Partition(Text),
}

// Written out, so that a proof goes through one call where it lets one go (docs/DECISIONS.md).
impl Drop for PartitionCommand {
    fn drop(self) {
        match self {
            PartitionCommand::DelPartition(_)
            | PartitionCommand::ListPartitions
            | PartitionCommand::MoveOutput(_)
            | PartitionCommand::NewPartition(_)
            | PartitionCommand::Partition(_) => {}
        }
    }
}

/// The rows: what the words after each name are read as.
#[rattlefmt::skip]
#[tactic(auto, unfolding(crate::specs::Partitions::rows))]
pub(crate) fn read(alloc: Global, word: &str, words: &[String]) -> Result<Option<PartitionCommand>, Misread>
    ensures { Gives result (found rows word.now (map string_bytes words.now)) }
{
    Ok(Some(match word {
        "delpartition" => PartitionCommand::DelPartition(one(alloc, words)?),
        "listpartitions" => none(words, PartitionCommand::ListPartitions)?,
        "moveoutput" => PartitionCommand::MoveOutput(one(alloc, words)?),
        "newpartition" => PartitionCommand::NewPartition(one(alloc, words)?),
        "partition" => PartitionCommand::Partition(one(alloc, words)?),
        _ => return Ok(None),
    }))
}
