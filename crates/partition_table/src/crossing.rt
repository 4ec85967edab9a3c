//! What an event does beyond the partition that it happens in.
ghost use Rattle.std.specs.Prelude.{◌≡◌, ◌<◌, ◌≤◌, ◌==◌, false, true, not, map, filter, vec_capacity, IfOk};
ghost use Rattle.partition_table.specs.declared.crossing.Crossing.{Crossing};
ghost use Rattle.partition_table.specs.Parts.{crosses_beyond, is_beyond as is_beyond_lem, known, moved_output, once_more as once_more_lem, outputs_moved, parts_moved, with_part};

use crate::parts::{MAX_PARTS, carried_in};
use player_state::{Carried, Outputs, Part};
use std::alloc::{AllocError, Global};
use std::marker::Model;

/// A partition that is not among the others yet. It lies apart: few events open one, and every event hands a crossing on.
pub struct NewPart {
    part: Box<Part>,
}

// Written out, so that a proof goes through one call where it lets one go (docs/DECISIONS.md).
impl Drop for NewPart {
    fn drop(self) {
        let NewPart { part: _ } = self;
    }
}

impl Model for NewPart {
    ghost use Rattle.player_state.specs.declared.state.Part.{Part};

    ghost Value = { Part };

    ghost view = { λ new. new.part.value };
}

impl NewPart {
    pub fn new(alloc: Global, part: Part) -> Result<NewPart, AllocError>
        ensures { IfOk result (λ new. new ≡ part) }
    {
        Ok(NewPart {
            part: Box::new(alloc, part)?,
        })
    }

    fn into_part(self) -> Part
        ensures { result ≡ self }
    {
        let NewPart { part } = self;
        Box::into_inner(part)
    }
}

/// What an event does beyond the partition that it happens in.
pub enum Crossing {
    Stays,
    /// A new partition comes behind the others, if there are fewer than 16.
    Opens(NewPart),
    /// The partition of this number ends.
    Closes(u8),
    /// An output comes, from wherever it is, to the partition of this number.
    Brings(usize, u8),
}

// Written out, so that a proof goes through one call where it lets one go (docs/DECISIONS.md).
impl Drop for Crossing {
    fn drop(self) {
        match self {
            Crossing::Stays | Crossing::Opens(_) | Crossing::Closes(_) | Crossing::Brings(_, _) =>
                {}
        }
    }
}

impl Crossing {
    /// Whether nothing passes between the partitions.
    pub fn stays(&self) -> bool
        ensures { result ≡ true → self.now ≡ Crossing.Stays }
    {
        matches!(self, Crossing::Stays)
    }

    /// Whether an output that comes by this would have been moved more often than this.
    pub(crate) fn is_beyond(&self, most: u64, parts: &[Part]) -> bool
        ensures { result ≡ crosses_beyond most self.now (map known parts.now) }
    {
        match self {
            Crossing::Brings(output, to) => is_beyond(most, carried_in(parts, *output, *to)),
            Crossing::Stays | Crossing::Opens(_) | Crossing::Closes(_) => false,
        }
    }

    /// Does it.
    pub(crate) fn cross(self, parts: &mut Vec<Part>)
        requires capacity { 16 ≤ vec_capacity parts.old }
        requires moves { crosses_beyond 18446744073709551615 self (map known parts.old.items) ≡ false }
        ensures items { parts.new.items ≡ parts_moved self parts.old.items }
        ensures capacity { vec_capacity parts.new ≡ vec_capacity parts.old }
    {
        match self {
            Crossing::Stays => {}
            Crossing::Opens(new) => add(parts, new.into_part()),
            Crossing::Closes(index) => close(parts, index),
            Crossing::Brings(output, to) => {
                let carried = carried_in(parts, output, to);
                bring_to(parts, output, to, carried);
            }
        }
    }
}

fn is_beyond(most: u64, carried: Option<Carried>) -> bool
    ensures { result ≡ is_beyond_lem most carried }
{
    match carried {
        Some(carried) => most <= carried.moves,
        None => false,
    }
}

/// A partition comes behind the others, if there are fewer than 16.
fn add(parts: &mut Vec<Part>, part: Part)
    requires { 16 ≤ vec_capacity parts.old }
    ensures items { parts.new.items ≡ with_part part parts.old.items }
    ensures capacity { vec_capacity parts.new ≡ vec_capacity parts.old }
{
    if parts.len() < MAX_PARTS {
        parts.push_reserved(part);
    }
}

fn close(parts: &mut Vec<Part>, index: u8)
    ensures items { parts.new.items ≡ filter (λ part. not (part.index == index)) parts.old.items }
    ensures capacity { vec_capacity parts.new ≡ vec_capacity parts.old }
{
    parts.retain(|part| part.index != index);
}

/// An output comes to the partition of a number as it is carried, and is in no other.
fn bring_to(parts: &mut Vec<Part>, output: usize, to: u8, carried: Option<Carried>)
    requires { is_beyond_lem 18446744073709551615 carried ≡ false }
    ensures items { parts.new.items ≡ map (moved_output output to carried) parts.old.items }
    ensures capacity { vec_capacity parts.new ≡ vec_capacity parts.old }
{
    bring_all(parts, output, to, carried);
}

fn bring_all(parts: &mut [Part], output: usize, to: u8, carried: Option<Carried>)
    requires { is_beyond_lem 18446744073709551615 carried ≡ false }
    ensures { parts.new ≡ map (moved_output output to carried) parts.old }
{
    for part in parts.iter_mut() {
        bring_one(part, output, to, carried);
    }
}

fn bring_one(part: &mut Part, output: usize, to: u8, carried: Option<Carried>)
    requires { is_beyond_lem 18446744073709551615 carried ≡ false }
    ensures { part.new ≡ moved_output output to carried part.old }
{
    if let Some(carried) = carried {
        move_output(&mut part.outputs, output, part.index == to, carried);
    }
}

/// An output comes, if it is not there, or it goes, if it is.
fn move_output(outputs: &mut Outputs, output: usize, comes: bool, carried: Carried)
    requires { carried.moves < 18446744073709551615 }
    ensures { outputs.new ≡ outputs_moved output comes carried outputs.old }
{
    let is_here = outputs.is_output(output);
    if comes && !is_here {
        outputs.bring(output, once_more(carried));
    } else if !comes && is_here {
        outputs.release(output);
    }
}

fn once_more(carried: Carried) -> Carried
    requires { carried.moves < 18446744073709551615 }
    ensures { result ≡ once_more_lem carried }
{
    Carried {
        moves: carried.moves + 1,
        ..carried
    }
}
