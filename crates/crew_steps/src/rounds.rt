//! The numbers of the partitions, which have their turns one after the other.
ghost use Rattle.std.specs.Prelude.{◌≡◌, filter, length};
ghost use Rattle.crew_steps.specs.Rounds.{first_from as first_from_lem, has_number, next_of};

/// Whether a partition has this number, of sixteen numbers of which these have one.
pub(crate) fn is_there(present_partitions: [bool; 16], index: u8) -> bool
    ensures { result ≡ has_number present_partitions index }
{
    match present_partitions.get(usize::from(index)) {
        Some(is_there) => *is_there,
        None => false,
    }
}

/// The number of the partition that has its turn after the one of this number: the next that is there, and
/// behind the last the first again.
pub(crate) fn next_index(present_partitions: [bool; 16], before: u8) -> u8
    ensures { result ≡ next_of present_partitions before }
{
    match first_from(present_partitions, before.saturating_add(1)) {
        Some(index) => index,
        None => first_from(present_partitions, 0).unwrap_or(0),
    }
}

/// The least number from one on that is there.
fn first_from(present_partitions: [bool; 16], from: u8) -> Option<u8>
    ensures { result ≡ first_from_lem present_partitions from }
{
    for index in from..16 {
        if is_there(present_partitions, index) {
            return Some(index);
        }
    }
    None
}

/// How many partitions there are.
pub(crate) fn count_of(present_partitions: [bool; 16]) -> usize
    ensures { result ≡ length (filter (λ is_there. is_there) present_partitions) }
{
    present_partitions
        .iter()
        .filter(|is_there| **is_there)
        .count()
}
