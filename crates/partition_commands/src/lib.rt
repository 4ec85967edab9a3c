//! The commands of partitions (MPD protocol reference, Partition commands).
#![tactic(auto)]

mod names;
mod partitions;

pub use names::is_partition_name;
pub use partitions::{
    delete_partition, list_partitions, move_output, new_partition, partition, run,
};
