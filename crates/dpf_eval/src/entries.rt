//! The entries of one evaluation: the boxes whose leaves are asked for, by rising address.
ghost use Rattle.std.specs.Prelude.{◌≡◌, ◌≤◌, ℕ, IfOk, length, map, filter, nat_lt, slice_index};
ghost use Rattle.dpf_eval.specs.Groups.{IsSplit};
ghost use Rattle.dpf_eval.specs.Order.{IsOrder};
ghost use Rattle.dpf_eval.specs.Room.{HasRoom};

use crate::order::{Sorted, addresses_into, choose};
use crate::splits::split_into;
use std::alloc::{AllocError, Global};

/// The entries' boxes and addresses, and the level at which each address parts from the one before it.
#[derive(Drop)]
pub(crate) struct Entries {
    pub(crate) boxes: Vec<u32>,
    pub(crate) addresses: Vec<u128>,
    pub(crate) splits: Vec<u8>,
}

impl Entries {
    /// No entries, and room for `size` of them.
    pub(crate) fn open(alloc: Global, size: usize) -> Result<Entries, AllocError>
        ensures { IfOk result (λ entries. HasRoom entries size) }
    {
        Ok(Entries {
            boxes: Vec::with_capacity(alloc, size)?,
            addresses: Vec::with_capacity(alloc, size)?,
            splits: Vec::with_capacity(alloc, size)?,
        })
    }

    /// Takes the boxes below `count`.
    pub(crate) fn choose(&mut self, sorted: Sorted, count: u32)
        requires order { IsOrder sorted.addresses.now sorted.order.now }
        requires there { count ≤ length sorted.addresses.now }
        requires room { HasRoom self.old (length sorted.order.now) }
        ensures boxes { self.new.boxes.items ≡ filter (λ b. nat_lt b count) sorted.entry.order.now }
        ensures addresses { self.new.addresses.items
            ≡ map (slice_index sorted.entry.addresses.now) self.new.boxes.items }
        ensures splits { length self.new.splits.items ≡ length self.new.addresses.items }
        ensures split { IsSplit self.new.addresses.items self.new.splits.items }
        ensures room { (size : ℕ) → HasRoom self.old size → HasRoom self.new size }
    {
        choose(sorted.order, count, &mut self.boxes);
        addresses_into(sorted.addresses, &self.boxes, &mut self.addresses);
        split_into(&self.addresses, &mut self.splits);
    }
}
