//! The partitions of a daemon.
ghost use Rattle.std.specs.Prelude.{◌≡◌, ◌∷◌, ◌≤◌, ◌==◌, [], false, length, map, option_copied, option_map, IfOk, OnOk, OnErr};
ghost use Rattle.std.specs.List.{position_or_len};
ghost use Rattle.player_state.specs.Outcomes.{Reports};
ghost use Rattle.partition_table.specs.Outcomes.{IsAtLimitOnlyBeyond, IsDoneOnlyWithin};
ghost use Rattle.partition_table.specs.Parts.{FitsIn, carried_in as carried_in_lem, changed, crosses_beyond, free_index as free_index_lem, has_index as has_index_lem, holder as holder_lem, holding as holding_lem, holds_any_in, is_within_in, known, known_at, named, part_at as part_at_lem, parts_moved, report_in};

use crate::crossing::Crossing;
use player_core::PlayerFault;
use player_state::{Carried, Effect, Part, Report, apply_effect};
use song_db::Rate;
use std::alloc::{AllocError, Global};
use std::marker::Model;

/// The most partitions.
pub const MAX_PARTS: usize = 16;

/// The partitions of a daemon, in the order in which they came, 16 at most.
pub struct Parts {
    items: Vec<Part>,
}

impl Model for Parts {
    ghost use Rattle.std.specs.Prelude.{List, ◌≤◌, vec_capacity};
    ghost use Rattle.player_state.specs.declared.state.Part.{Part as PartData};

    ghost Value = { List PartData };

    ghost view = { λ p. p.items.items };

    ghost invariant = { λ p. 16 ≤ vec_capacity p.items };
}

// Written out, so that a proof goes through one call where it lets one go (docs/DECISIONS.md).
impl Drop for Parts {
    fn drop(self) {
        let Parts { items: _ } = self;
    }
}

impl Parts {
    /// The one partition that is always there.
    pub fn open(alloc: Global, part: Part) -> Result<Parts, AllocError>
        ensures { IfOk result (λ parts. parts ≡ part ∷ []) }
    {
        let mut items = Vec::with_capacity(alloc, MAX_PARTS)?;
        items.push_reserved(part);
        Ok(Parts { items })
    }

    pub fn items(&self) -> &[Part]
        ensures { result.now ≡ self.now }
    {
        &self.items
    }

    /// How many there are.
    pub fn len(&self) -> usize
        ensures { result ≡ length self.now }
    {
        self.items.len()
    }

    /// The partition of a number, if there is one.
    pub fn at(&self, index: u8) -> Option<&Part>
        ensures { option_copied result ≡ part_at_lem index self.now }
    {
        part_at(&self.items, index)
    }

    /// The number of the partition of this name, if there is one.
    pub fn index_named(&self, name: &str) -> Option<u8>
        ensures { result ≡ named name.now (map known self.now) }
    {
        index_named(&self.items, name)
    }

    /// The number of the partition that an output is in, if it is in one.
    pub fn holder(&self, output: usize) -> Option<u8>
        ensures { result ≡ holder_lem output (map known self.now) }
    {
        match holding(&self.items, output) {
            Some(part) => Some(part.index),
            None => None,
        }
    }

    /// Whether an output is in the partition of a number.
    pub fn holds_any(&self, index: u8) -> bool
        ensures { result ≡ holds_any_in (known_at index (map known self.now)) }
    {
        holds_any(&self.items, index)
    }

    /// The least number below 16 that no partition has.
    pub fn free_index(&self) -> Option<u8>
        ensures { result ≡ free_index_lem (map known self.now) }
    {
        (0..16).find(|index| !has_index(&self.items, *index))
    }

    /// Does to the partition of a number what an event asks for, and gives what is answered to a part of the
    /// daemon that is no client. Where it is refused, nothing changes, and where there is no such partition
    /// either.
    pub fn apply(
        &mut self,
        index: u8,
        rate: &Rate,
        effect: Effect,
        report: Report,
    ) -> Result<Report, PlayerFault>
        requires { FitsIn (part_at_lem index self.old) effect }
        ensures parts { OnOk result (self.new ≡ changed rate.now index effect self.old) }
        ensures report { Reports result (report_in rate.now (part_at_lem index self.old) effect report) }
        ensures within { IsDoneOnlyWithin result (is_within_in rate.now (part_at_lem index self.old) effect) }
        ensures limit { IsAtLimitOnlyBeyond result (is_within_in rate.now (part_at_lem index self.old) effect) }
        ensures err { OnErr result (self.new ≡ self.old) }
    {
        let position = position_of(&self.items, index);
        if position < self.items.len() {
            return apply_effect(&mut self.items[position], rate, effect, report);
        }
        Ok(report)
    }

    /// Whether an output that comes by this would have been moved more often than this.
    pub fn moves_beyond(&self, most: u64, crossing: &Crossing) -> bool
        ensures { result ≡ crosses_beyond most crossing.now (map known self.now) }
    {
        crossing.is_beyond(most, &self.items)
    }

    /// Lets pass between the partitions what an event asks for.
    pub fn cross(&mut self, crossing: Crossing)
        requires { crosses_beyond 18446744073709551615 crossing (map known self.old) ≡ false }
        ensures { self.new ≡ parts_moved crossing self.old }
    {
        crossing.cross(&mut self.items);
    }
}

fn part_at(parts: &[Part], index: u8) -> Option<&Part>
    ensures { option_copied result ≡ part_at_lem index parts.now }
{
    for part in parts {
        if part.index == index {
            return Some(part);
        }
    }
    None
}

fn index_named(parts: &[Part], name: &str) -> Option<u8>
    ensures { result ≡ named name.now (map known parts.now) }
{
    for part in parts {
        if part.name.as_str() == name {
            return Some(part.index);
        }
    }
    None
}

/// The partition that an output is in.
fn holding(parts: &[Part], output: usize) -> Option<&Part>
    ensures { option_map known (option_copied result) ≡ holding_lem output (map known parts.now) }
{
    for part in parts {
        if part.outputs.is_output(output) {
            return Some(part);
        }
    }
    None
}

/// Whether an output is in the partition of a number.
fn holds_any(parts: &[Part], index: u8) -> bool
    ensures { result ≡ holds_any_in (known_at index (map known parts.now)) }
{
    for part in parts {
        if part.index == index {
            return part.outputs.holds_any();
        }
    }
    false
}

fn has_index(parts: &[Part], index: u8) -> bool
    ensures { result ≡ has_index_lem index (map known parts.now) }
{
    for part in parts {
        if part.index == index {
            return true;
        }
    }
    false
}

/// The first partition of a number; the number of partitions where none has it.
fn position_of(parts: &[Part], index: u8) -> usize
    ensures position { result ≡ position_or_len (λ part. part.index == index) parts.now }
    ensures within { result ≤ length parts.now }
{
    let mut position = 0;
    for part in parts {
        if part.index == index {
            return position;
        }
        position += 1;
    }
    position
}

/// What an output takes along that comes to a partition from another one.
pub(crate) fn carried_in(parts: &[Part], output: usize, to: u8) -> Option<Carried>
    ensures { result ≡ carried_in_lem output to (map known parts.now) }
{
    if !has_index(parts, to) {
        return None;
    }
    match holding(parts, output) {
        Some(part) if part.index != to => Some(part.outputs.carried(output)),
        _ => None,
    }
}
