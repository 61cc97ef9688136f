//! The arrays in which one evaluation works.
ghost use Rattle.std.specs.Prelude.{◌≡◌, ◌+◌, ◌^◌, ◌<◌, ◌≤◌, IfOk, length, map, take, drop};
ghost use Rattle.dpf_rules.specs.Evaluation.{prefix_count};
ghost use Rattle.dpf_rules.specs.Walk.{leaf_of};
ghost use Rattle.dpf_eval.specs.Order.{IsOrder};

use crate::descent::Descent;
use crate::entries::Entries;
use crate::key::ServerKey;
use crate::order::{Sorted, write_at};
use crate::steps::Steps;
use std::alloc::{AllocError, Global};
use std::marker::Model;
use std::sync::ledger::Ledger;

/// Room for a number of entries and for their descent.
#[derive(Drop)]
pub(crate) struct Scratch {
    entries: Entries,
    descent: Descent,
}

impl Model for Scratch {
    ghost use Rattle.std.specs.Prelude.{ℕ, length};
    ghost use Rattle.dpf_eval.specs.Room.{HasRoom};

    ghost Value = { ℕ };

    ghost view = { λ s. length s.descent };

    ghost invariant = { λ s. HasRoom s.entries (length s.descent) };
}

impl Scratch {
    /// Takes room for `size` entries.
    pub(crate) fn open(alloc: Global, size: u32) -> Result<Scratch, AllocError>
        ensures { IfOk result (λ s. s ≡ size) }
    {
        Ok(Scratch {
            entries: Entries::open(alloc, size as usize)?,
            descent: Descent::open(alloc, size as usize)?,
        })
    }

    /// Writes the leaves of the first `count` addresses, with one step for each different proper prefix of
    /// theirs.
    pub(crate) fn leaves_into<L: Ledger>(
        &mut self,
        key: ServerKey,
        sorted: Sorted,
        count: u32,
        out: &mut [u128],
        steps: &mut Steps<L>,
    )
        requires server { key.server < 2 }
        requires order { IsOrder sorted.addresses.now sorted.order.now }
        requires size { length sorted.order.now ≤ self.old }
        requires small { length sorted.order.now < 2 ^ 32 }
        requires there { count ≤ length sorted.addresses.now }
        requires room { count ≤ length out.old }
        ensures size { self.new ≡ self.old }
        ensures leaves { take count out.new
            ≡ map (leaf_of key.entry.part.now key.entry.server key.entry.root)
            (take count sorted.entry.addresses.now) }
        ensures rest { drop count out.new ≡ drop count out.old }
        ensures steps { steps.new ≡ steps.old + prefix_count (take count sorted.entry.addresses.now) }
    {
        self.entries.choose(sorted, count);
        self.descent.descend_all(key, &self.entries, steps);
        write_at(&self.entries.boxes, self.descent.states(), out);
    }
}
