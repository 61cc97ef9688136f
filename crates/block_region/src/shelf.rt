//! The blocks of one class.
ghost use Rattle.std.specs.Prelude.{◌≡◌, ◌<◌, ◌≤◌, ◌+◌, ◌*◌, IfOk, OnOk, IfSome, IsSome, MatchOption, Some, None, is_none, length, map, not, position, count_by, replicate, slice_set};
ghost use Rattle.std.specs.Borrow.{sem};
ghost use Rattle.block_region.specs.Region.{Shelf, shelf_of, unused, block_of};

use express_words::NoMemory;
use std::alloc::Global;
use std::marker::Model;

/// The bytes of a block, and whether the block is out.
#[derive(Drop)]
pub(crate) struct Slot {
    bytes: Vec<u8>,
    out: bool,
}

#[derive(Drop)]
pub(crate) struct BlockShelf {
    size: usize,
    slots: Vec<Slot>,
}

impl Model for BlockShelf {
    ghost use Rattle.std.specs.Prelude.{◌<◌, ◌^◌, length, map};
    ghost use Rattle.block_region.specs.Region.{Shelf};
    ghost use Rattle.block_region.specs.Slots.{content, HaveSize};

    ghost Value = { Shelf };

    ghost view = { λ s. record { size = s.size; blocks = map content s.slots.items } };

    ghost invariant = { λ s. HaveSize s.size s.slots.items × (length s.slots.items < 2 ^ 32) };
}

impl BlockShelf {
    ghost use Rattle.block_region.specs.Lending.{LendsOnShelf};

    /// A class of so many blocks of this size, all free.
    pub(crate) fn open(alloc: Global, size: u32, count: u32) -> Result<BlockShelf, NoMemory>
        ensures { IfOk result (λ s. s ≡ unused size count) }
    {
        Ok(BlockShelf {
            size: size as usize,
            slots: free_slots(alloc, size as usize, count)?,
        })
    }

    /// The first free block, with zeros.
    pub(crate) fn take(&mut self) -> Option<usize>
        ensures which { result ≡ position is_none self.old.blocks }
        ensures taken { MatchOption result (self.new ≡ self.old) (λ i. self.new ≡ shelf_of self.old.size (slice_set self.old.blocks i (Some (replicate self.old.size 0)))) }
    {
        let index = first_free(&self.slots)?;
        let slot = &mut self.slots[index];
        clear(&mut slot.bytes);
        slot.out = true;
        Some(index)
    }

    pub(crate) fn bytes(&self, index: usize) -> &[u8]
        requires { IsSome (block_of self.now.blocks index) }
        ensures value { block_of self.now.blocks index ≡ Some result.now }
        ensures size { length result.now ≡ self.now.size }
    {
        self.slots[index].bytes.as_slice()
    }

    pub(crate) fn bytes_mut(&mut self, index: usize) -> &mut [u8]
        requires { IsSome (block_of self.old.blocks index) }
        ensures* writes_back { sem 𝓛 (LendsOnShelf self.entry index result) }
        ensures value { block_of self.old.blocks index ≡ Some result.now }
        ensures size { length result.now ≡ self.old.size }
    {
        let slot = &mut self.slots[index];
        slot.bytes.as_mut_slice()
    }

    pub(crate) fn give(&mut self, index: usize)
        requires { IsSome (block_of self.old.blocks index) }
        ensures { self.new ≡ shelf_of self.old.size (slice_set self.old.blocks index None) }
    {
        let slot = &mut self.slots[index];
        slot.out = false;
    }

    pub(crate) fn free(&self) -> u32
        ensures { result ≡ count_by is_none self.now.blocks }
    {
        self.slots.iter().filter(|slot| !slot.out).count() as u32
    }
}

ghost use Rattle.block_region.specs.Slots.{content, HaveSize};

fn first_free(slots: &[Slot]) -> Option<usize>
    ensures which { result ≡ position (λ slot. not slot.out) slots.now }
    ensures bound { IfSome result (λ i. i < length slots.now) }
{
    slots.iter().position(|slot| !slot.out)
}

fn clear(bytes: &mut Vec<u8>)
    ensures { bytes.new.items ≡ replicate (length bytes.old.items) 0 }
{
    bytes.as_mut_slice().fill(0);
}

fn zeros(alloc: Global, size: usize) -> Result<Vec<u8>, NoMemory>
    ensures { IfOk result (λ bytes. length bytes.items ≡ size) }
{
    match vec![in alloc; 0u8; size] {
        Ok(bytes) => Ok(bytes),
        Err(_) => Err(NoMemory),
    }
}

fn free_slots(alloc: Global, size: usize, count: u32) -> Result<Vec<Slot>, NoMemory>
    ensures free { IfOk result (λ slots. map content slots.items ≡ replicate count None) }
    ensures sized { IfOk result (λ slots. HaveSize size slots.items) }
    ensures count { IfOk result (λ slots. length slots.items ≡ count) }
{
    let Ok(mut slots) = Vec::with_capacity(alloc, count as usize) else {
        return Err(NoMemory);
    };
    for _ in 0..count {
        let bytes = zeros(alloc, size)?;
        if slots.push(Slot { bytes, out: false }).is_err() {
            return Err(NoMemory);
        }
    }
    Ok(slots)
}
