//! Blocks in slots.
ghost use Rattle.std.specs.Prelude.{◌≡◌, ◌≤◌, ◌<◌, ◌+◌, ◌-◌, ◌*◌, ◌/◌, ◌%◌, ◌++◌, ◌∷◌, [], length, take, replicate, slice_set, get_or, IfOk, OnOk, OnErr, vec_capacity, ◌↔◌, IsTrue};
ghost use Rattle.sk_objects.specs.File.{overwritten, part, blocks_of};
ghost use Rattle.sk_objects.specs.Blocks.{joined, AreBlocks, blank};

use crate::Block;
use crate::block::BLOCK;
use sk_ids::Text;
use std::alloc::{AllocError, Global};

/// The most slots of a file.
pub const SLOTS: usize = 64;

/// Slots with nothing in them come behind, up to so many. This takes no memory.
pub(crate) fn fill_slots(slots: &mut Vec<Block>, count: usize)
    requires room { 64 ≤ vec_capacity slots.old }
    requires few { count ≤ 64 }
    ensures items { slots.new.items
        ≡ slots.old.items ++ replicate (count - length slots.old.items) blank }
    ensures room { 64 ≤ vec_capacity slots.new }
{
    let missing = count.saturating_sub(slots.len());
    for _ in 0..missing {
        slots.push_reserved(Block::new());
    }
}

/// How many blocks so many bytes take.
pub(crate) fn blocks_of(size: usize) -> usize
    requires { size ≤ 32768 }
    ensures value { result ≡ blocks_of size }
    ensures limit { result ≤ 64 }
{
    (size + (BLOCK - 1)) / BLOCK
}

/// Writes bytes over a part of the block at a place. Without memory nothing changes.
fn overwrite_at(
    slots: &mut [Block],
    alloc: Global,
    slot: usize,
    within: usize,
    bytes: &[u8],
) -> Result<(), AllocError>
    requires there { slot < length slots.old }
    requires fits { within + length bytes.now ≤ 512 }
    ensures ok { OnOk result
        (slots.new
        ≡ slice_set slots.old slot (overwritten (get_or slots.old slot []) within bytes.now)) }
    ensures err { OnErr result (slots.new ≡ slots.old) }
{
    slots[slot].overwrite(alloc, within, bytes)
}

/// A block takes a place.
fn put_block(slots: &mut [Block], slot: usize, block: Block)
    requires { slot < length slots.old }
    ensures { slots.new ≡ slice_set slots.old slot block }
{
    slots[slot] = block;
}

/// Writes bytes over two blocks that are there. Without memory nothing changes.
#[inline(never)]
fn overwrite_two(
    slots: &mut [Block],
    alloc: Global,
    at: usize,
    bytes: &[u8],
) -> Result<(), AllocError>
    requires blocks { AreBlocks slots.old }
    requires there { at / 512 + 1 < length slots.old }
    requires two { 512 ≤ at % 512 + length bytes.now }
    requires short { length bytes.now ≤ 512 }
    ensures bytes { OnOk result
        (joined slots.new ≡ overwritten (joined slots.old) at bytes.now) }
    ensures blocks { OnOk result (AreBlocks slots.new) }
    ensures len { OnOk result (length slots.new ≡ length slots.old) }
    ensures err { OnErr result (slots.new ≡ slots.old) }
{
    let slot = at / BLOCK;
    let within = at % BLOCK;
    let (front, back) = bytes.split_at(BLOCK - within);
    let second = slots[slot + 1].overwritten(alloc, 0, back)?;
    overwrite_at(slots, alloc, slot, within, front)?;
    put_block(slots, slot + 1, second);
    Ok(())
}

/// Writes bytes over slots that are there. Without memory nothing changes.
#[inline(always)]
fn overwrite_blocks(
    slots: &mut [Block],
    alloc: Global,
    at: usize,
    bytes: &[u8],
) -> Result<(), AllocError>
    requires slots { length slots.old ≤ 64 }
    requires blocks { AreBlocks slots.old }
    requires some { 1 ≤ length bytes.now }
    requires short { length bytes.now ≤ 512 }
    requires end { at + length bytes.now ≤ 512 * length slots.old }
    ensures bytes { OnOk result
        (joined slots.new ≡ overwritten (joined slots.old) at bytes.now) }
    ensures blocks { OnOk result (AreBlocks slots.new) }
    ensures len { OnOk result (length slots.new ≡ length slots.old) }
    ensures err { OnErr result (slots.new ≡ slots.old) }
{
    let within = at % BLOCK;
    if bytes.len() > BLOCK - within {
        return overwrite_two(slots, alloc, at, bytes);
    }
    overwrite_at(slots, alloc, at / BLOCK, within, bytes)?;
    Ok(())
}

/// Writes bytes over slots of a file. Without memory nothing changes.
#[inline(always)]
pub(crate) fn overwrite(slots: &mut Vec<Block>, at: usize, bytes: &[u8]) -> Result<(), AllocError>
    requires slots { length slots.old.items ≤ 64 }
    requires blocks { AreBlocks slots.old.items }
    requires some { 1 ≤ length bytes.now }
    requires short { length bytes.now ≤ 512 }
    requires end { at + length bytes.now ≤ 512 * length slots.old.items }
    ensures bytes { OnOk result
        (joined slots.new.items ≡ overwritten (joined slots.old.items) at bytes.now) }
    ensures blocks { OnOk result (AreBlocks slots.new.items) }
    ensures len { OnOk result (length slots.new.items ≡ length slots.old.items) }
    ensures room { vec_capacity slots.new ≡ vec_capacity slots.old }
    ensures err { OnErr result (slots.new.items ≡ slots.old.items) }
{
    let alloc = *slots.allocator();
    overwrite_blocks(slots, alloc, at, bytes)
}

/// Zeros take the place of all bytes from a cut on. Only a cut within a block wants memory; without it nothing changes.
pub(crate) fn cut_slots(slots: &mut Vec<Block>, at: usize) -> Result<(), AllocError>
    requires blocks { AreBlocks slots.old.items }
    requires end { at / 512 < length slots.old.items }
    ensures ok { OnOk result
        (slots.new.items ≡ take (at / 512) slots.old.items
        ++ (take (at % 512) (get_or slots.old.items (at / 512) []) ++ replicate (512 - at % 512) 0)
        ∷ []) }
    ensures room { vec_capacity slots.new ≡ vec_capacity slots.old }
    ensures err { OnErr result (slots.new.items ≡ slots.old.items) }
{
    let slot = at / BLOCK;
    let last = slots[slot].start(*slots.allocator(), at % BLOCK)?;
    slots.truncate(slot);
    slots.push_reserved(last);
    Ok(())
}

/// Another of each block, with room for all that may be.
pub(crate) fn copy_slots(alloc: Global, slots: &[Block]) -> Result<Vec<Block>, AllocError>
    requires { length slots.now ≤ 64 }
    ensures items { IfOk result (λ copy. copy.items ≡ slots.now) }
    ensures room { IfOk result (λ copy. 64 ≤ vec_capacity copy) }
{
    let mut copy = Vec::with_capacity(alloc, SLOTS)?;
    for block in slots {
        copy.push_reserved(block.copy()?);
    }
    Ok(copy)
}

/// Reads as many bytes as there is room for, at most 512, from a place on.
fn read_slots(slots: &[Block], at: usize, out: &mut [u8])
    requires slots { length slots.now ≤ 64 }
    requires blocks { AreBlocks slots.now }
    requires short { length out.old ≤ 512 }
    requires end { at + length out.old ≤ 512 * length slots.now }
    ensures { out.new ≡ part (joined slots.now) at (length out.old) }
{
    let count = out.len();
    if count == 0 {
        return;
    }
    let slot = at / BLOCK;
    let within = at % BLOCK;
    let room = BLOCK - within;
    if count <= room {
        out.copy_from_slice(&slots[slot].as_slice()[within..within + count]);
        return;
    }
    let (front, back) = out.split_at_mut(room);
    front.copy_from_slice(&slots[slot].as_slice()[within..]);
    back.copy_from_slice(&slots[slot + 1].as_slice()[..count - room]);
}

/// Reads so many bytes, at most 512, that may lie in two blocks.
#[inline(never)]
fn read_across(slots: &[Block], at: usize, count: usize, text: &mut Text)
    requires slots { length slots.now ≤ 64 }
    requires blocks { AreBlocks slots.now }
    requires short { count ≤ 512 }
    requires end { at + count ≤ 512 * length slots.now }
    ensures { text.new ≡ part (joined slots.now) at count }
{
    let mut bytes = [0; 512];
    read_slots(slots, at, &mut bytes[..count]);
    text.set(&bytes[..count]);
}

/// Reads so many bytes, at most 512, from a place on. In one block they are read where they stand.
#[inline(always)]
pub(crate) fn read_into(slots: &[Block], at: usize, count: usize, text: &mut Text)
    requires slots { length slots.now ≤ 64 }
    requires blocks { AreBlocks slots.now }
    requires short { count ≤ 512 }
    requires end { at + count ≤ 512 * length slots.now }
    ensures { text.new ≡ part (joined slots.now) at count }
{
    let within = at % BLOCK;
    if count == 0 || count > BLOCK - within {
        read_across(slots, at, count, text);
        return;
    }
    let block = slots[at / BLOCK].as_slice();
    text.set(&block[within..within + count]);
}

/// Whether blocks are the same.
pub(crate) fn same_slots(one: &[Block], other: &[Block]) -> bool
    ensures { IsTrue result ↔ (one.now ≡ other.now) }
{
    one == other
}
