//! Equal blocks, all of them out.
ghost use Rattle.std.specs.Prelude.{◌≡◌, ◌<◌, ◌≤◌, IfOk, length, replicate};
ghost use Rattle.std.specs.Borrow.{sem};
ghost use Rattle.block_region.specs.Region.{block_at, with_bytes, written_over, zeros};

use crate::{Block, Class, Region, write_front};
use express_words::NoMemory;
use std::alloc::Global;
use std::marker::Model;

/// Blocks of one size, named by numbers from 0, all of them taken from one region when it is opened.
#[derive(Drop)]
pub struct BlockArray {
    region: Region,
    blocks: Vec<Block>,
}

impl Model for BlockArray {
    ghost use Rattle.block_region.specs.Region.{Blocks, blocks_in, IsArray};

    ghost Value = { Blocks };

    ghost view = { λ a. blocks_in a.region };

    ghost invariant = { λ a. IsArray a.region a.blocks.items };
}

impl BlockArray {
    ghost use Rattle.block_region.specs.ArrayLending.{LendsOfArray};

    /// `count` blocks of `size` bytes, all zero.
    pub fn open(alloc: Global, size: u32, count: u32) -> Result<BlockArray, NoMemory>
        ensures { IfOk result (λ a. a ≡ record { size = size; blocks = replicate count (zeros size) }) }
    {
        let mut region = Region::open(alloc, &[Class { size, count }])?;
        let Ok(mut blocks) = Vec::with_capacity(alloc, count as usize) else {
            return Err(NoMemory);
        };
        for _ in 0..count {
            let Some(block) = region.take(0) else {
                unreachable!()
            };
            let Ok(()) = blocks.push(block) else {
                return Err(NoMemory);
            };
        }
        Ok(BlockArray { region, blocks })
    }

    /// The bytes of a block, as many as `size` says.
    pub fn get(&self, index: usize) -> &[u8]
        requires { index < length self.now.blocks }
        ensures value { result.now ≡ block_at self.now index }
        ensures size { length result.now ≡ self.now.size }
    {
        self.region.bytes(&self.blocks[index])
    }

    /// A block, to be written. All others stay.
    pub fn get_mut(&mut self, index: usize) -> &mut [u8]
        requires { index < length self.old.blocks }
        ensures* writes_back { sem 𝓛 (LendsOfArray self.entry index result) }
        ensures value { result.now ≡ block_at self.old index }
        ensures size { length result.now ≡ self.old.size }
    {
        self.region.bytes_mut(&self.blocks[index])
    }

    /// Writes bytes to the front of a block. The rest of it and all other blocks stay.
    pub fn write(&mut self, index: usize, bytes: &[u8])
        requires block { index < length self.old.blocks }
        requires fits { length bytes.now ≤ self.old.size }
        ensures { self.new ≡ with_bytes self.old index (written_over (block_at self.old index) bytes.now) }
    {
        write_front(self.get_mut(index), bytes);
    }
}
