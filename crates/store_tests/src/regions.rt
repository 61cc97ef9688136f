//! A region of one class through takes and gives, and arrays of the largest settings.
ghost use Rattle.std.specs.Prelude.{◌≡◌, ◌<◌, length};
ghost use Rattle.block_region.specs.Region.{IsOut};

use block_region::{Block, BlockArray, Class, Region};
use express_words::NoMemory;
use std::alloc::Global;
use std::test::Fail;

fn is_all(bytes: &[u8], value: u8) -> bool {
    let mut same = true;
    for byte in bytes {
        same = same && *byte == value;
    }
    same
}

// The block has 16 bytes of this value.
fn holds(region: &Region, block: &Block, value: u8) -> bool
    requires { IsOut region.now block.now }
{
    let bytes = region.bytes(block);
    bytes.len() == 16 && is_all(bytes, value)
}

fn takes(region: &mut Region) -> bool
    requires { 0 < length region.old.classes }
    ensures { 0 < length region.new.classes }
{
    region.take(0).is_some()
}

fn no_third_block(region: &mut Region) -> bool
    requires { 0 < length region.old.classes }
{
    [takes(region), takes(region), takes(region)] == [true, true, false]
}

fn gives_zeros(region: &mut Region) -> bool
    requires { 0 < length region.old.classes }
{
    match region.take(0) {
        Some(block) => holds(region, &block, 0),
        None => false,
    }
}

// A block that is written and given back is handed out with zeros.
fn fills_and_gives(region: &mut Region) -> bool
    requires { 0 < length region.old.classes }
{
    let Some(first) = region.take(0) else {
        return false;
    };
    let Some(second) = region.take(0) else {
        return false;
    };
    region.bytes_mut(&first).fill(7);
    let filled = holds(region, &first, 7) && holds(region, &second, 0);
    region.give(first);
    filled && region.free(0) == 1 && gives_zeros(region)
}

// Of two regions the block of each is given back to its own, and then both are free. Of a class that there isn't, no block is free.
fn give_each_its_own(one: &mut Region, other: &mut Region) -> bool
    requires { (0 < length one.old.classes) × (0 < length other.old.classes) }
{
    let Some(first) = one.take(0) else {
        return false;
    };
    let Some(second) = other.take(0) else {
        return false;
    };
    let both_out = one.free(0) == 1 && other.free(0) == 1;
    one.give(first);
    other.give(second);
    both_out && one.free(0) == 2 && other.free(0) == 2 && one.free(1) == 0
}

const CLASS: Class = Class { size: 16, count: 2 };

#[test]
fn a_class_of_two_has_no_third_block_and_gives_zeros(rt: HostRuntime) -> Result<(), Fail> {
    let mut one = Region::open(rt.alloc(), &[CLASS])?;
    let mut other = Region::open(rt.alloc(), &[CLASS])?;
    let told = [no_third_block(&mut one), fills_and_gives(&mut other)];
    assert!(rt; told == [true; 2]);
    Ok(())
}

#[test]
fn each_region_takes_its_own_block_back(rt: HostRuntime) -> Result<(), Fail> {
    let mut one = Region::open(rt.alloc(), &[CLASS])?;
    let mut other = Region::open(rt.alloc(), &[CLASS])?;
    assert!(rt; give_each_its_own(&mut one, &mut other));
    Ok(())
}

fn fill(blocks: &mut BlockArray, index: usize)
    requires { index < length blocks.old.blocks }
    ensures { length blocks.new.blocks ≡ length blocks.old.blocks }
{
    blocks.get_mut(index).fill(7);
}

fn is_filled(blocks: &BlockArray, index: usize, value: u8) -> bool
    requires { index < length blocks.now.blocks }
{
    is_all(blocks.get(index), value)
}

// The bytes of a block of which nothing was written over.
fn kept_room(blocks: &mut BlockArray, index: usize) -> usize
    requires { index < length blocks.old.blocks }
{
    blocks.write(index, &[]);
    blocks.get(index).len()
}

fn writes(blocks: &mut BlockArray, index: usize, size: usize) -> bool
    requires { (0 < index) × (index < length blocks.old.blocks) }
{
    fill(blocks, index);
    let filled = is_filled(blocks, index, 7) && is_filled(blocks, index - 1, 0);
    filled && kept_room(blocks, index) == size
}

// An array of the largest settings opens, and its last block can be written.
fn last_block(alloc: Global, size: u32, count: u32) -> Result<bool, NoMemory>
    requires { 1 < count }
{
    let mut blocks = BlockArray::open(alloc, size, count)?;
    Ok(writes(&mut blocks, count as usize - 1, size as usize))
}

#[test]
fn the_last_block_of_the_largest_arrays_is_written(rt: HostRuntime) -> Result<(), Fail> {
    let written = [
        last_block(rt.alloc(), 4096, 4096)?,
        last_block(rt.alloc(), 8213, 256)?,
        last_block(rt.alloc(), 8213, 32)?,
    ];
    assert!(rt; written == [true; 3]);
    Ok(())
}
