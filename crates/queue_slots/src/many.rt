//! Blocks that stand one behind another.
ghost use Rattle.queue_slots.specs.declared.entry.Slot.{Slot};
ghost use Rattle.std.specs.Prelude.{◌≡◌, OnOk, IfOk, IfSome, IfNone, None, ◌++◌, ◌≤◌, ◌+◌, ◌^◌, ◌<◌, [], slice_index_or, slice_set, length, map, take, drop, vec_capacity, vec_len};
ghost use Rattle.std.specs.List.{insert};
ghost use Rattle.queue_slots.specs.Slots.{kept, written, entries_of, prioritized_slot};
ghost use Rattle.queue_slots.specs.Slots.{with_moved_to_end, with_put_back};
ghost use Rattle.queue_slots.specs.Blocks.{joined, block_len, with_block_cut, shown_from, with_joined_next, written_behind, with_blocks_rotated, with_blocks_prioritized, with_exchanged, with_slot_changed, with_slot_pulled, with_slot_put, HasIdAt, NoneHas, IsCut, IsPaired, IsParted, IsSpot};

use crate::block::{Block, Spare};
use crate::entry::Slot;
use crate::index::Index;
use crate::slots::written_slot;
use std::alloc::{AllocError, Global};

/// Where a position is, counted from a block on: the block, and how many of its slots are before the position.
pub fn seek(blocks: &[Block], from: usize, position: usize) -> (usize, usize)
    requires within { from ≤ length blocks.now }
    requires position { position ≤ length (joined (drop from blocks.now)) }
    ensures { IsSpot blocks.now from position result.0 result.1 }
{
    let mut at = from;
    let mut left = position;
    while at < blocks.len() {
        let len = blocks[at].len();
        if left < len {
            return (at, left);
        }
        left -= len;
        at += 1;
    }
    (at, left)
}

/// Cuts a block so that a position, counted from a block on, is where a block begins: that block.
pub fn cut_from(
    blocks: &mut Vec<Block>,
    spare: &mut Vec<Spare>,
    index: &mut Index,
    from: usize,
    position: usize,
) -> usize
    requires within { from ≤ vec_len blocks.old }
    requires position { position ≤ length (joined (drop from blocks.old.items)) }
    requires some { 0 < vec_len spare.old }
    requires room { vec_len blocks.old + vec_len spare.old ≤ vec_capacity blocks.old }
    ensures cut { IsCut blocks.old.items blocks.new.items from position result }
    ensures total { vec_len blocks.new + vec_len spare.new ≡ vec_len blocks.old + vec_len spare.old }
    ensures least { vec_len spare.old ≤ vec_len spare.new + 1 }
    ensures blocks_room { vec_capacity blocks.old ≤ vec_capacity blocks.new }
    ensures spare_room { vec_capacity spare.old ≤ vec_capacity spare.new }
{
    let (at, offset) = seek(blocks, from, position);
    if offset == 0 {
        return at;
    }
    let Some(room) = spare.pop() else {
        unreachable!();
    };
    let back = cut_block(blocks, at, offset, room, index);
    put_block(blocks, at + 1, back);
    at + 1
}

/// Cuts a block in two: the first stays, and the second is handed out.
fn cut_block(
    blocks: &mut Vec<Block>,
    at: usize,
    offset: usize,
    room: Spare,
    index: &mut Index,
) -> Block
    requires within { at < vec_len blocks.old }
    requires inside { offset ≤ length (slice_index_or blocks.old.items at []) }
    ensures front { blocks.new.items ≡ with_block_cut blocks.old.items at offset }
    ensures back { result ≡ drop offset (slice_index_or blocks.old.items at []) }
    ensures len { vec_len blocks.new ≡ vec_len blocks.old }
    ensures room { vec_capacity blocks.new ≡ vec_capacity blocks.old }
{
    let block = &mut blocks[at];
    block.cut(offset, room, index)
}

/// Puts a block in at a position, where there is room.
fn put_block(blocks: &mut Vec<Block>, at: usize, block: Block)
    requires within { at ≤ vec_len blocks.old }
    requires room { vec_len blocks.old < vec_capacity blocks.old }
    ensures blocks { blocks.new.items ≡ insert blocks.old.items at block }
    ensures len { vec_len blocks.new ≡ vec_len blocks.old + 1 }
    ensures room { vec_capacity blocks.old ≤ vec_capacity blocks.new }
{
    let _ = blocks.insert(at, block);
}

/// Cuts blocks so that each of three positions is where a block begins: these blocks.
pub fn part(
    blocks: &mut Vec<Block>,
    spare: &mut Vec<Spare>,
    index: &mut Index,
    low: usize,
    middle: usize,
    high: usize,
) -> (usize, usize, usize)
    requires front { low ≤ middle }
    requires back { middle ≤ high }
    requires within { high ≤ length (joined blocks.old.items) }
    requires some { 3 ≤ vec_len spare.old }
    requires room { vec_len blocks.old + vec_len spare.old ≤ vec_capacity blocks.old }
    ensures parted { IsParted (joined blocks.old.items) blocks.new.items low middle high result.0 result.1 result.2 }
    ensures total { vec_len blocks.new + vec_len spare.new ≡ vec_len blocks.old + vec_len spare.old }
    ensures blocks_room { vec_capacity blocks.old ≤ vec_capacity blocks.new }
    ensures spare_room { vec_capacity spare.old ≤ vec_capacity spare.new }
{
    let i = cut_from(blocks, spare, index, 0, low);
    let j = cut_from(blocks, spare, index, i, middle - low);
    let k = cut_from(blocks, spare, index, j, high - middle);
    (i, j, k)
}

/// Joins neighbours that fit into one block.
pub fn mend(blocks: &mut Vec<Block>, spare: &mut Vec<Spare>, index: &mut Index)
    requires room { vec_len blocks.old + vec_len spare.old ≤ vec_capacity spare.old }
    ensures same { joined blocks.new.items ≡ joined blocks.old.items }
    ensures paired { IsPaired blocks.new.items }
    ensures total { vec_len blocks.new + vec_len spare.new ≡ vec_len blocks.old + vec_len spare.old }
    ensures blocks_room { vec_capacity blocks.old ≤ vec_capacity blocks.new }
    ensures spare_room { vec_capacity spare.old ≤ vec_capacity spare.new }
{
    let mut at = 0usize;
    while at + 1 < blocks.len() {
        if blocks[at].len() + blocks[at + 1].len() <= 256 {
            join_next(blocks, spare, index, at);
        } else {
            at += 1;
        }
    }
}

/// Joins a block with the next one.
fn join_next(blocks: &mut Vec<Block>, spare: &mut Vec<Spare>, index: &mut Index, at: usize)
    requires within { at + 1 < vec_len blocks.old }
    requires fits { block_len blocks.old.items at + block_len blocks.old.items (at + 1) ≤ 256 }
    requires room { vec_len spare.old < vec_capacity spare.old }
    ensures blocks { blocks.new.items ≡ with_joined_next blocks.old.items at }
    ensures len { vec_len blocks.new + 1 ≡ vec_len blocks.old }
    ensures spare { vec_len spare.new ≡ vec_len spare.old + 1 }
    ensures blocks_room { vec_capacity blocks.old ≤ vec_capacity blocks.new }
    ensures spare_room { vec_capacity spare.old ≤ vec_capacity spare.new }
{
    let next = blocks.remove(at + 1);
    let block = &mut blocks[at];
    let room = block.join(next, index);
    let _ = spare.push(room);
}

/// The slots of blocks from one on are written, and those before it kept.
pub fn restamp(blocks: &mut Vec<Block>, from: usize, version: u32, wraps: bool)
    requires { from ≤ vec_len blocks.old }
    ensures blocks { joined blocks.new.items ≡ written_behind version wraps blocks.old.items from }
    ensures len { vec_len blocks.new ≡ vec_len blocks.old }
    ensures room { vec_capacity blocks.new ≡ vec_capacity blocks.old }
{
    restamp_slice(blocks.as_mut_slice(), from, version, wraps);
}

/// The same of a slice.
fn restamp_slice(blocks: &mut [Block], from: usize, version: u32, wraps: bool)
    requires { from ≤ length blocks.old }
    ensures len { length blocks.new ≡ length blocks.old }
    ensures blocks { joined blocks.new ≡ written_behind version wraps blocks.old from }
{
    let (front, back) = blocks.split_at_mut(from);
    keep_all(front, wraps);
    write_all(back, version, wraps);
}

/// Keeps all slots.
pub fn keep_blocks(blocks: &mut Vec<Block>, wraps: bool)
    ensures blocks { joined blocks.new.items ≡ map (kept wraps) (joined blocks.old.items) }
    ensures len { vec_len blocks.new ≡ vec_len blocks.old }
    ensures room { vec_capacity blocks.new ≡ vec_capacity blocks.old }
{
    keep_all(blocks.as_mut_slice(), wraps);
}

/// Keeps each block.
fn keep_all(blocks: &mut [Block], wraps: bool)
    ensures blocks { joined blocks.new ≡ map (kept wraps) (joined blocks.old) }
    ensures len { length blocks.new ≡ length blocks.old }
{
    for block in blocks {
        block.keep(wraps);
    }
}

/// Writes each block.
fn write_all(blocks: &mut [Block], version: u32, wraps: bool)
    ensures blocks { joined blocks.new ≡ map (written version wraps) (entries_of (joined blocks.old)) }
    ensures len { length blocks.new ≡ length blocks.old }
{
    for block in blocks {
        block.write(version, wraps);
    }
}

/// Drops the blocks from one up to another.
pub fn drop_blocks(
    blocks: &mut Vec<Block>,
    spare: &mut Vec<Spare>,
    index: &mut Index,
    from: usize,
    to: usize,
)
    requires order { from ≤ to }
    requires within { to ≤ vec_len blocks.old }
    requires room { vec_len blocks.old + vec_len spare.old ≤ vec_capacity spare.old }
    ensures blocks { blocks.new.items ≡ take from blocks.old.items ++ drop to blocks.old.items }
    ensures total { vec_len blocks.new + vec_len spare.new ≡ vec_len blocks.old + vec_len spare.old }
    ensures blocks_room { vec_capacity blocks.old ≤ vec_capacity blocks.new }
    ensures spare_room { vec_capacity spare.old ≤ vec_capacity spare.new }
{
    let left = blocks.len() - (to - from);
    move_first(blocks.as_mut_slice(), from, to - from);
    while blocks.len() > left {
        let Some(block) = blocks.pop() else {
            unreachable!();
        };
        let room = block.emptied(index);
        let _ = spare.push(room);
    }
}

/// Moves blocks from one on to the end.
fn move_first(blocks: &mut [Block], start: usize, count: usize)
    requires { start + count ≤ length blocks.old }
    ensures { blocks.new ≡ with_moved_to_end blocks.old start count }
{
    blocks[start..].rotate_left(count);
}

/// Exchanges the blocks from `i` up to `j` with those from there up to `k`. All of these are
/// written, and the others kept.
pub fn rotate_blocks(
    blocks: &mut Vec<Block>,
    i: usize,
    j: usize,
    k: usize,
    version: u32,
    wraps: bool,
)
    requires front { i ≤ j }
    requires back { j ≤ k }
    requires within { k ≤ vec_len blocks.old }
    ensures rotation { joined blocks.new.items ≡ with_blocks_rotated version wraps blocks.old.items i j k }
    ensures len { vec_len blocks.new ≡ vec_len blocks.old }
    ensures room { vec_capacity blocks.new ≡ vec_capacity blocks.old }
{
    rotate_slice(blocks.as_mut_slice(), i, j, k, version, wraps);
}

/// The same of a slice.
fn rotate_slice(blocks: &mut [Block], i: usize, j: usize, k: usize, version: u32, wraps: bool)
    requires front { i ≤ j }
    requires back { j ≤ k }
    requires within { k ≤ length blocks.old }
    ensures rotation { joined blocks.new ≡ with_blocks_rotated version wraps blocks.old i j k }
    ensures len { length blocks.new ≡ length blocks.old }
{
    let (front, rest) = blocks.split_at_mut(i);
    let (span, back) = rest.split_at_mut(k - i);
    span.rotate_left(j - i);
    keep_all(front, wraps);
    write_all(span, version, wraps);
    keep_all(back, wraps);
}

/// Adds the positions of the slots that are shown to a client that knows a version.
pub fn push_all_changed(
    positions: &mut Vec<usize>,
    blocks: &[Block],
    len: usize,
    version: u32,
    present: u32,
) -> Result<(), AllocError>
    requires { length (joined blocks.now) ≡ len }
    ensures { OnOk result (positions.new.items ≡ positions.old.items ++ shown_from version present 0 (joined blocks.now)) }
{
    let mut at = 0usize;
    for block in blocks {
        block.push_changed(positions, at, version, present)?;
        at += block.len();
    }
    Ok(())
}

/// The position of a slot with an id, in the blocks with a key where one is given.
pub fn seek_id(blocks: &[Block], len: usize, id: u32, key: Option<u32>) -> Option<usize>
    requires { length (joined blocks.now) ≡ len }
    ensures found { IfSome result (HasIdAt id (joined blocks.now)) }
    ensures none { key ≡ None → IfNone result (NoneHas id (joined blocks.now)) }
{
    let mut at = 0usize;
    for block in blocks {
        if let Some(position) = position_for(block, id, key) {
            return Some(at + position);
        }
        at += block.len();
    }
    None
}

/// The position of a slot with an id in a block, or none where the block has another key than is required.
fn position_for(block: &Block, id: u32, required_key: Option<u32>) -> Option<usize>
    ensures found { IfSome result (HasIdAt id block.now) }
    ensures none { required_key ≡ None → IfNone result (NoneHas id block.now) }
{
    match required_key {
        Some(key) => position_under(block, id, key),
        None => position_in_block(block, id),
    }
}

/// The position of a slot with an id in a block, if that has a key.
fn position_under(block: &Block, id: u32, key: u32) -> Option<usize>
    ensures { IfSome result (HasIdAt id block.now) }
{
    if block.key() == key {
        position_in_block(block, id)
    } else {
        None
    }
}

/// The first position of a slot with an id in a block.
fn position_in_block(block: &Block, id: u32) -> Option<usize>
    ensures found { IfSome result (HasIdAt id block.now) }
    ensures none { IfNone result (NoneHas id block.now) }
{
    match block.position_of(id) {
        Some(first_position) => Some(first_position),
        None => None,
    }
}

/// Gives each entry in the blocks from one up to another a priority.
pub fn prioritize_blocks(
    blocks: &mut Vec<Block>,
    from: usize,
    to: usize,
    priority: u8,
    version: u32,
    wraps: bool,
)
    requires order { from ≤ to }
    requires within { to ≤ vec_len blocks.old }
    ensures blocks { joined blocks.new.items ≡ with_blocks_prioritized version wraps priority blocks.old.items from to }
    ensures len { vec_len blocks.new ≡ vec_len blocks.old }
    ensures room { vec_capacity blocks.new ≡ vec_capacity blocks.old }
{
    prioritize_slice(blocks.as_mut_slice(), from, to, priority, version, wraps);
}

/// The same of a slice.
fn prioritize_slice(
    blocks: &mut [Block],
    from: usize,
    to: usize,
    priority: u8,
    version: u32,
    wraps: bool,
)
    requires order { from ≤ to }
    requires within { to ≤ length blocks.old }
    ensures blocks { joined blocks.new ≡ with_blocks_prioritized version wraps priority blocks.old from to }
    ensures len { length blocks.new ≡ length blocks.old }
{
    let (_front, rest) = blocks.split_at_mut(from);
    let (span, _back) = rest.split_at_mut(to - from);
    prioritize_each(span, priority, version, wraps);
}

/// Gives each entry a priority.
fn prioritize_each(blocks: &mut [Block], priority: u8, version: u32, wraps: bool)
    ensures blocks { joined blocks.new ≡ map (prioritized_slot version wraps priority) (joined blocks.old) }
    ensures len { length blocks.new ≡ length blocks.old }
{
    for block in blocks {
        block.prioritize(priority, version, wraps);
    }
}

/// Swaps the entries at two positions. Both slots are written, and the others stay.
pub fn exchange(blocks: &mut Vec<Block>, low: usize, high: usize, version: u32, wraps: bool)
    requires order { low < high }
    requires within { high < length (joined blocks.old.items) }
    ensures blocks { joined blocks.new.items ≡ with_exchanged version wraps (joined blocks.old.items) low high }
    ensures len { vec_len blocks.new ≡ vec_len blocks.old }
    ensures room { vec_capacity blocks.new ≡ vec_capacity blocks.old }
{
    let (i, a) = seek(blocks, 0, low);
    let (j, b) = seek(blocks, i, a + (high - low));
    let second = pull(blocks, j, b);
    let first = change(blocks, i, a, written_slot(second.entry, version, wraps));
    put(blocks, j, b, written_slot(first.entry, version, wraps));
}

/// Takes a slot out of a block.
fn pull(blocks: &mut Vec<Block>, at: usize, offset: usize) -> Slot
    requires within { at < vec_len blocks.old }
    requires inside { offset < length (slice_index_or blocks.old.items at []) }
    ensures blocks { blocks.new.items ≡ with_slot_pulled blocks.old.items at offset }
    ensures fits { length (slice_index_or blocks.new.items at []) < 256 }
    ensures slot { (d : Slot) → result ≡ slice_index_or (slice_index_or blocks.old.items at []) offset d }
    ensures len { vec_len blocks.new ≡ vec_len blocks.old }
    ensures room { vec_capacity blocks.new ≡ vec_capacity blocks.old }
{
    let block = &mut blocks[at];
    block.pull(offset)
}

/// Puts a slot in place of another.
fn change(blocks: &mut Vec<Block>, at: usize, offset: usize, slot: Slot) -> Slot
    requires within { at < vec_len blocks.old }
    requires inside { offset < length (slice_index_or blocks.old.items at []) }
    ensures blocks { blocks.new.items ≡ with_slot_changed blocks.old.items at offset slot }
    ensures slot { (d : Slot) → result ≡ slice_index_or (slice_index_or blocks.old.items at []) offset d }
    ensures len { vec_len blocks.new ≡ vec_len blocks.old }
    ensures room { vec_capacity blocks.new ≡ vec_capacity blocks.old }
{
    let block = &mut blocks[at];
    block.change(offset, slot)
}

/// Puts a slot into a block with room for it.
fn put(blocks: &mut Vec<Block>, at: usize, offset: usize, slot: Slot)
    requires within { at < vec_len blocks.old }
    requires inside { offset ≤ length (slice_index_or blocks.old.items at []) }
    requires fits { length (slice_index_or blocks.old.items at []) < 256 }
    ensures blocks { blocks.new.items ≡ with_slot_put blocks.old.items at offset slot }
    ensures len { vec_len blocks.new ≡ vec_len blocks.old }
    ensures room { vec_capacity blocks.new ≡ vec_capacity blocks.old }
{
    let block = &mut blocks[at];
    block.put(offset, slot);
}

/// The slots of blocks from a position on, at most so many, in a list, over the same songs.
pub fn copies_of(
    alloc: Global,
    blocks: &[Block],
    start: usize,
    count: usize,
) -> Result<Vec<Slot>, AllocError>
    ensures { IfOk result (λ copies. copies.items ≡ take count (drop start (joined blocks.now))) }
{
    let mut copies = Vec::with_capacity(alloc, count)?;
    let mut before = start;
    for block in blocks {
        let mut part = block.copies(alloc, before, count - copies.len())?;
        copies.append(&mut part)?;
        before = before.saturating_sub(block.len());
    }
    Ok(copies)
}

/// Puts slots back from a position on, each in place of another.
pub fn put_back(blocks: &mut Vec<Block>, index: &mut Index, start: usize, part: Vec<Slot>)
    requires within { start + vec_len part ≤ length (joined blocks.old.items) }
    requires fits { start + vec_len part < 2 ^ 64 }
    ensures blocks { joined blocks.new.items ≡ with_put_back (joined blocks.old.items) start part.items }
    ensures len { vec_len blocks.new ≡ vec_len blocks.old }
    ensures room { vec_capacity blocks.new ≡ vec_capacity blocks.old }
{
    let mut at = 0usize;
    let mut offset = start;
    for slot in part {
        let (next, inside) = seek(blocks, at, offset);
        index.note_one(slot.entry.id, blocks[next].key());
        change(blocks, next, inside, slot);
        at = next;
        offset = inside + 1;
    }
}
