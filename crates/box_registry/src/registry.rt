//! The boxes in arrays, with the pass down the tree over their addresses. All memory is taken at opening.
ghost use Rattle.std.specs.Prelude.{◌≡◌, ◌+◌, ◌<◌, ◌≤◌, IfOk, OnOk, OnErr, IfSome, Some, option_map};
ghost use Rattle.std.specs.Prelude.{[], length, map, take, drop, slice_get};
ghost use Rattle.dpf_rules.specs.Evaluation.{prefix_count};
ghost use Rattle.dpf_rules.specs.Walk.{leaf_of};
ghost use Rattle.box_registry.specs.Boxes.{Differ, addresses_of, place_of, answer_to, with_box};

use crate::RegFault;
use dpf_eval::{Frontier, Steps};
use dpf_keys::PublicPart;
use express_words::NoMemory;
use std::alloc::Global;
use std::marker::Model;
use std::sync::ledger::Ledger;

/// Addresses and keys of boxes, in the order of registration.
#[derive(Drop)]
pub struct Registry {
    limit: u32,
    frontier: Frontier,
    keys: Vec<[u8; 32]>,
}

impl Model for Registry {
    ghost use Rattle.std.specs.Prelude.{vec_capacity};
    ghost use Rattle.box_registry.specs.Boxes.{Boxes};
    ghost use Rattle.box_registry.specs.Arrays.{boxes_of_arrays, AreArrays};

    ghost Value = { Boxes };

    ghost view = { λ r. record {
      limit = r.limit;
      boxes = boxes_of_arrays r.frontier.addresses r.keys.items;
    } };

    ghost invariant = { λ r. AreArrays r.limit r.frontier r.keys.items (vec_capacity r.keys) };
}

impl Registry {
    /// No boxes, and room for `limit` of them.
    pub fn open(alloc: Global, limit: u32) -> Result<Registry, NoMemory>
        ensures { IfOk result (λ r. r ≡ record { limit = limit; boxes = [] }) }
    {
        let frontier = Frontier::open(alloc, limit)?;
        match Vec::with_capacity(alloc, limit as usize) {
            Ok(keys) => Ok(Registry {
                limit,
                frontier,
                keys,
            }),
            Err(_) => Err(NoMemory),
        }
    }

    /// Registers an address with its key. Ok is the new box.
    pub fn add(&mut self, address: u128, key: &[u8; 32]) -> Result<u32, RegFault>
        ensures answer { result ≡ answer_to self.old address }
        ensures added { OnOk result (self.new ≡ with_box self.old address key.now) }
        ensures refused { OnErr result (self.new ≡ self.old) }
        ensures differ { Differ (addresses_of self.new.boxes) }
    {
        match self.frontier.box_of(address) {
            Some(box_number) => Err(RegFault::Taken(box_number)),
            None if self.frontier.is_full() => Err(RegFault::Full(self.limit)),
            None => {
                let box_number = self.frontier.count();
                self.frontier.insert(address);
                self.keys.push_reserved(*key);
                Ok(box_number)
            }
        }
    }

    /// How many boxes stand.
    pub fn count(&self) -> u32
        ensures count { result ≡ length self.now.boxes }
        ensures limit { result ≤ self.now.limit }
        ensures differ { Differ (addresses_of self.now.boxes) }
    {
        self.frontier.count()
    }

    /// The box at which an address stands.
    pub fn box_of(&self, address: u128) -> Option<u32>
        ensures place { result ≡ place_of address self.now.boxes }
        ensures within { IfSome result (λ n. n < length self.now.boxes) }
        ensures differ { Differ (addresses_of self.now.boxes) }
    {
        self.frontier.box_of(address)
    }

    /// The address of a box.
    pub fn address_of(&self, box_number: u32) -> u128
        requires { box_number < length self.now.boxes }
        ensures { option_map (λ found. found.address) (slice_get self.now.boxes box_number) ≡ Some result }
    {
        self.first(self.count())[box_number as usize]
    }

    /// The key of a box.
    pub fn key_of(&self, box_number: u32) -> &[u8; 32]
        requires { box_number < length self.now.boxes }
        ensures { option_map (λ found. found.key) (slice_get self.now.boxes box_number) ≡ Some result.now }
    {
        &self.keys[box_number as usize]
    }

    /// The addresses of the first boxes, in the order of registration.
    pub fn first(&self, count: u32) -> &[u128]
        requires { count ≤ length self.now.boxes }
        ensures first { result.now ≡ take count (addresses_of self.now.boxes) }
        ensures differ { Differ result.now }
    {
        self.frontier.first(count)
    }

    /// Writes the leaf of the walk of server 0 or 1 at the address of each of the first `count` boxes.
    /// `steps` counts every expansion of a node: one for each different proper prefix of these addresses.
    pub fn leaves<L: Ledger>(
        &mut self,
        part: &PublicPart,
        server: u8,
        root: u128,
        count: u32,
        out: &mut [u128],
        steps: &mut Steps<L>,
    )
        requires server { server < 2 }
        requires there { count ≤ length self.old.boxes }
        requires room { count ≤ length out.old }
        ensures leaves { take count out.new
            ≡ map (leaf_of part.now server root) (take count (addresses_of self.old.boxes)) }
        ensures rest { drop count out.new ≡ drop count out.old }
        ensures steps { steps.new ≡ steps.old + prefix_count (take count (addresses_of self.old.boxes)) }
        ensures same { self.new ≡ self.old }
    {
        self.frontier.run(part, server, root, count, out, steps);
    }
}
