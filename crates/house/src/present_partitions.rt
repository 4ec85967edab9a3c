//! Which partitions there are.
ghost use Rattle.std.specs.Prelude.{◌≡◌, is_some};
ghost use Rattle.house.specs.Counts.{ArePresentPartitions};
ghost use Rattle.partition_table.specs.Parts.{part_at};

use partition::Partition;

/// Of sixteen numbers those of a partition.
pub(crate) fn present_in(partition: &Partition) -> [bool; 16]
    ensures { ArePresentPartitions result partition.now.present }
{
    [
        has(partition, 0),
        has(partition, 1),
        has(partition, 2),
        has(partition, 3),
        has(partition, 4),
        has(partition, 5),
        has(partition, 6),
        has(partition, 7),
        has(partition, 8),
        has(partition, 9),
        has(partition, 10),
        has(partition, 11),
        has(partition, 12),
        has(partition, 13),
        has(partition, 14),
        has(partition, 15),
    ]
}

/// Whether a partition has this number.
fn has(partition: &Partition, index: u8) -> bool
    ensures { result ≡ is_some (part_at index partition.now.present.parts) }
{
    partition.part(index).is_some()
}
