//! The names of partitions.
ghost use Rattle.std.specs.Prelude.{◌≡◌, map, IfOk};
ghost use Rattle.std.specs.List.{list_all};
ghost use Rattle.partition_table.specs.Parts.{known};
ghost use Rattle.partition_commands.specs.Partitions.{is_name_byte as is_name_byte_lem, is_partition_name as is_partition_name_lem, lines_of_names, names_in};

use mpd_text::{Answer, sort_once};
use player_state::Part;
use std::alloc::{AllocError, Global};

/// The most bytes of a partition's name.
const MAX_NAME: usize = 64;

/// Whether a text is the name of a partition: 1 to 64 ASCII letters, digits, `_` and `-`.
pub fn is_partition_name(name: &str) -> bool
    ensures { result ≡ is_partition_name_lem name.now }
{
    !name.is_empty() && name.len() <= MAX_NAME && has_name_bytes(name)
}

fn has_name_bytes(name: &str) -> bool
    ensures { result ≡ list_all is_name_byte_lem name.now }
{
    name.as_bytes().iter().all(|byte| is_name_byte(*byte))
}

fn is_name_byte(byte: u8) -> bool
    ensures { result ≡ is_name_byte_lem byte }
{
    byte.is_ascii_lowercase()
        || byte.is_ascii_uppercase()
        || byte.is_ascii_digit()
        || byte == b'_'
        || byte == b'-'
}

/// The names of all partitions, a line each, in byte order.
pub(crate) fn lines(alloc: Global, parts: &[Part]) -> Result<Answer, AllocError>
    ensures { IfOk result (λ lines. lines ≡ lines_of_names (names_in (map known parts.now))) }
{
    let names = names_of(alloc, parts)?;
    name_lines(alloc, &names)
}

fn names_of(alloc: Global, parts: &[Part]) -> Result<Vec<&str>, AllocError>
    ensures { IfOk result (λ names. map (λ name. name.now) names.items ≡ names_in (map known parts.now)) }
{
    let mut names = Vec::new(alloc);
    for part in parts {
        names.push(part.name.as_str())?;
    }
    sort_once(&mut names);
    Ok(names)
}

#[tactic(auto, unfolding(crate::specs::Partitions::lines_of_names))]
fn name_lines(alloc: Global, names: &[&str]) -> Result<Answer, AllocError>
    ensures { IfOk result (λ lines. lines ≡ lines_of_names (map (λ name. name.now) names.now)) }
{
    let mut lines = Answer::new(alloc);
    for name in names {
        lines.pair("partition", *name)?;
    }
    Ok(lines)
}
