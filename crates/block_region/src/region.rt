//! Classes of blocks.
ghost use Rattle.std.specs.Prelude.{◌≡◌, ◌<◌, ◌↔◌, IfOk, IfSome, IfNone, IsNone, Some, None, length, map};
ghost use Rattle.std.specs.Borrow.{sem};
ghost use Rattle.block_region.specs.Region.{unused, bytes_at, size_of_class, with_content, free_blocks, FreesOne, IsOut, TakesBlock};

use crate::Block;
use crate::shelf::BlockShelf;
use express_words::NoMemory;
use std::alloc::Global;
use std::marker::Model;

/// Blocks of `size` bytes each, and how many of them there are.
#[derive(Clone, Copy, Debug, PartialEq, Eq)]
pub struct Class {
    pub size: u32,
    pub count: u32,
}

/// Blocks in classes, named by numbers from 0. All of its memory is taken when it is opened. Its blocks know it by the
/// address of its classes.
#[derive(Drop)]
pub struct Region {
    shelves: Vec<BlockShelf>,
}

impl Model for Region {
    ghost use Rattle.std.specs.Vec.{vec_ptr};
    ghost use Rattle.block_region.specs.Region.{Shelves};
    ghost use Rattle.block_region.specs.Codes.{shelves_code};

    ghost Value = { Shelves };

    ghost coded = { shelves_code };

    ghost view = { λ r. record { home = vec_ptr r.shelves; classes = r.shelves.items } };
}

impl Region {
    ghost use Rattle.block_region.specs.Lending.{LendsBlock};

    /// A region of these classes, every block of which is free.
    pub fn open(alloc: Global, classes: &[Class]) -> Result<Region, NoMemory>
        ensures { IfOk result (λ r. r.classes ≡ map (λ c. unused c.size c.count) classes.now) }
    {
        let mut shelves = Vec::new(alloc);
        for class in classes {
            let shelf = BlockShelf::open(alloc, class.size, class.count)?;
            if shelves.push(shelf).is_err() {
                return Err(NoMemory);
            }
        }
        Ok(Region { shelves })
    }

    /// The first free block of the class, with zeros, or None exactly where every block of it is out.
    pub fn take(&mut self, class: u8) -> Option<Block>
        requires { class < length self.old.classes }
        ensures none { IsNone result ↔ (free_blocks self.old class ≡ 0) }
        ensures stays { IfNone result (self.new ≡ self.old) }
        ensures taken { IfSome result (TakesBlock self.old self.new class) }
        ensures free { IfSome result (λ _. FreesOne self.new self.old class) }
    {
        let home = self.shelves.as_ptr();
        let shelf = &mut self.shelves[usize::from(class)];
        let index = shelf.take()?;
        Some(Block::new(home, class, index))
    }

    /// The bytes of a block of this region, as many as its class says.
    pub fn bytes(&self, block: &Block) -> &[u8]
        requires { IsOut self.now block.now }
        ensures value { bytes_at self.now block.now ≡ Some result.now }
        ensures size { length result.now ≡ size_of_class self.now block.now.class }
    {
        self.shelves[block.class()].bytes(block.index())
    }

    /// The bytes of a block of this region, to be written. All other blocks stay.
    pub fn bytes_mut(&mut self, block: &Block) -> &mut [u8]
        requires { IsOut self.old block.now }
        ensures* writes_back { sem 𝓛 (LendsBlock self.entry block.now result) }
        ensures value { bytes_at self.old block.now ≡ Some result.now }
        ensures size { length result.now ≡ size_of_class self.old block.now.class }
    {
        let shelf = &mut self.shelves[block.class()];
        shelf.bytes_mut(block.index())
    }

    /// Gives a block back to this region, from which it was taken. All other blocks stay.
    pub fn give(&mut self, block: Block)
        requires { IsOut self.old block }
        ensures given { self.new ≡ with_content self.old block None }
        ensures free { FreesOne self.old self.new block.class }
    {
        let shelf = &mut self.shelves[block.class()];
        shelf.give(block.index());
    }

    /// How many blocks of the class are free: none where there is no such class.
    pub fn free(&self, class: u8) -> u32
        ensures { result ≡ free_blocks self.now class }
    {
        match self.shelves.get(usize::from(class)) {
            Some(shelf) => shelf.free(),
            None => 0,
        }
    }
}
