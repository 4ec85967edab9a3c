//! Blocks that are made, and buffers for more.
ghost use Rattle.std.specs.Prelude.{◌≡◌, ◌++◌, ◌≤◌, ◌+◌, ◌<◌, IfOk, OnOk, length, min, take, drop, vec_capacity, vec_len};
ghost use Rattle.queue_slots.specs.Slots.{with_end_moved_to};
ghost use Rattle.queue_slots.specs.Blocks.{joined};

use crate::block::{Block, Spare};
use crate::entry::Slot;
use crate::index::Index;
use std::alloc::{AllocError, Global};
use std::mem::replace;

/// Blocks for slots.
pub fn build(alloc: Global, index: &mut Index, slots: Vec<Slot>) -> Result<Vec<Block>, AllocError>
    ensures { IfOk result (λ blocks. joined blocks.items ≡ slots.items) }
{
    let mut added = Vec::new(alloc);
    let mut last = Block::new(Spare::new(alloc)?, index);
    for slot in slots {
        make_space(&mut added, &mut last, alloc, index)?;
        index.note_one(slot.entry.id, last.key());
        last.push(slot);
    }
    added.push(last)?;
    Ok(added)
}

/// A block that is full goes behind the others, and an empty one takes its place.
fn make_space(
    added: &mut Vec<Block>,
    last: &mut Block,
    alloc: Global,
    index: &mut Index,
) -> Result<(), AllocError>
    ensures same { OnOk result (joined added.new.items ++ last.new ≡ joined added.old.items ++ last.old) }
    ensures space { OnOk result (length last.new < 256) }
{
    if last.len() == 256 {
        let next = Block::new(Spare::new(alloc)?, index);
        added.push(replace(last, next))?;
    }
    Ok(())
}

/// Makes buffers, so that there are so many of them and of blocks.
pub fn make_room(
    blocks: &mut Vec<Block>,
    spare: &mut Vec<Spare>,
    alloc: Global,
    needed: usize,
) -> Result<(), AllocError>
    requires room { vec_len blocks.old + vec_len spare.old ≤ vec_capacity blocks.old }
    requires spare_room { vec_len blocks.old + vec_len spare.old ≤ vec_capacity spare.old }
    ensures blocks { blocks.new.items ≡ blocks.old.items }
    ensures len { vec_len blocks.new ≡ vec_len blocks.old }
    ensures more { vec_len spare.old ≤ vec_len spare.new }
    ensures enough { OnOk result (needed ≤ vec_len blocks.new + vec_len spare.new) }
    ensures room { vec_len blocks.new + vec_len spare.new ≤ vec_capacity blocks.new }
    ensures spare_room { vec_len blocks.new + vec_len spare.new ≤ vec_capacity spare.new }
{
    if needed <= blocks.len() || needed - blocks.len() <= spare.len() {
        return Ok(());
    }
    let most = needed - blocks.len();
    blocks.reserve(most)?;
    spare.reserve(needed)?;
    while spare.len() < most {
        let room = Spare::new(alloc)?;
        let _ = spare.push(room);
    }
    Ok(())
}

/// Frees buffers, but so many of them and of blocks stay.
pub fn trim(blocks: &Vec<Block>, spare: &mut Vec<Spare>, needed: usize)
    ensures least { min (vec_len blocks.now + vec_len spare.old) needed ≤ vec_len blocks.now + vec_len spare.new }
    ensures most { vec_len spare.new ≤ vec_len spare.old }
    ensures room { vec_capacity spare.old ≤ vec_capacity spare.new }
{
    let least = needed.saturating_sub(blocks.len());
    spare.truncate(least);
}

/// Puts blocks in at a position, where there is room for them.
pub fn splice(blocks: &mut Vec<Block>, at: usize, added: &mut Vec<Block>)
    requires within { at ≤ vec_len blocks.old }
    requires room { vec_len blocks.old + vec_len added.old ≤ vec_capacity blocks.old }
    ensures blocks { blocks.new.items ≡ take at blocks.old.items ++ (added.old.items ++ drop at blocks.old.items) }
    ensures len { vec_len blocks.new ≡ vec_len blocks.old + vec_len added.old }
    ensures room { vec_capacity blocks.old ≤ vec_capacity blocks.new }
{
    let count = added.len();
    let _ = blocks.append(added);
    move_last(blocks.as_mut_slice(), at, count);
}

/// Moves the last blocks to a position.
fn move_last(blocks: &mut [Block], at: usize, count: usize)
    requires { at + count ≤ length blocks.old }
    ensures { blocks.new ≡ with_end_moved_to blocks.old at count }
{
    blocks[at..].rotate_right(count);
}
