//! A registry of boxes over a map, against which the one in arrays is tried. It takes memory for each box.
ghost use Rattle.std.specs.Prelude.{◌≡◌, ◌<◌, ◌≤◌, IfOk, OnOk, OnErr, IfSome, Some, None, option_map};
ghost use Rattle.std.specs.Prelude.{[], length, take, slice_get};
ghost use Rattle.box_registry.specs.Boxes.{Differ, addresses_of, place_of, answer_to, with_box};

use box_registry::RegFault;
use express_words::NoMemory;
use indexmap::IndexMap;
use std::alloc::Global;
use std::marker::Model;

/// Addresses and keys of boxes, in the order of registration.
#[derive(Drop)]
pub struct PlainRegistry {
    limit: u32,
    addresses: Vec<u128>,
    by_address: IndexMap<u128, [u8; 32]>,
}

impl Model for PlainRegistry {
    ghost use Rattle.box_registry.specs.Boxes.{Boxes};
    ghost use Rattle.store_tests.specs.Entries.{boxes_of_entries, AreKeys};
    ghost use Rattle.indexmap.specs.IndexMap.{keys};

    ghost Value = { Boxes };

    ghost view = { λ r. record { limit = r.limit; boxes = boxes_of_entries r.by_address.entries } };

    ghost invariant = { λ r. AreKeys r.limit r.addresses.items (keys r.by_address) };
}

impl PlainRegistry {
    /// No boxes, and at most `limit` to come.
    pub fn open(alloc: Global, limit: u32) -> Self
        ensures { result ≡ record { limit = limit; boxes = [] } }
    {
        PlainRegistry {
            limit,
            addresses: Vec::new(alloc),
            by_address: IndexMap::new(alloc),
        }
    }

    /// Registers an address with its key. Ok is the new box.
    pub fn add(&mut self, address: u128, key: &[u8; 32]) -> Result<Result<u32, RegFault>, NoMemory>
        ensures answer { IfOk result (λ answer. answer ≡ answer_to self.old address) }
        ensures added { IfOk result (λ answer. IfOk answer (λ _.
            self.new ≡ with_box self.old address key.now)) }
        ensures refused { IfOk result (λ answer. OnErr answer (self.new ≡ self.old)) }
        ensures memory { OnErr result (self.new ≡ self.old) }
        ensures differ { Differ (addresses_of self.new.boxes) }
    {
        match self.box_of(address) {
            Some(box_number) => Ok(Err(RegFault::Taken(box_number))),
            None if self.limit <= self.count() => Ok(Err(RegFault::Full(self.limit))),
            None => {
                let box_number = self.append(address, key)?;
                Ok(Ok(box_number))
            }
        }
    }

    // Adds a box whose address is new, where there is room.
    fn append(&mut self, address: u128, key: &[u8; 32]) -> Result<u32, NoMemory>
        requires new { place_of address self.old.boxes ≡ None }
        requires room { length self.old.boxes < self.old.limit }
        ensures number { IfOk result (λ n. n ≡ length self.old.boxes) }
        ensures ok { OnOk result (self.new ≡ with_box self.old address key.now) }
        ensures memory { OnErr result (self.new ≡ self.old) }
        ensures differ { Differ (addresses_of self.new.boxes) }
    {
        let count = self.count();
        self.addresses.push(address)?;
        match self.by_address.insert(address, *key) {
            Ok(_) => Ok(count),
            Err(_) => {
                let _ = self.addresses.pop();
                Err(NoMemory)
            }
        }
    }

    /// How many boxes stand.
    pub fn count(&self) -> u32
        ensures count { result ≡ length self.now.boxes }
        ensures limit { result ≤ self.now.limit }
        ensures differ { Differ (addresses_of self.now.boxes) }
    {
        self.addresses.len() as u32
    }

    /// The box at which an address stands.
    pub fn box_of(&self, address: u128) -> Option<u32>
        ensures place { result ≡ place_of address self.now.boxes }
        ensures within { IfSome result (λ n. n < length self.now.boxes) }
        ensures differ { Differ (addresses_of self.now.boxes) }
    {
        let place = self.by_address.get_index_of(&address)?;
        Some(place as u32)
    }

    /// The address of a box.
    pub fn address_of(&self, box_number: u32) -> u128
        requires { box_number < length self.now.boxes }
        ensures { option_map (λ found. found.address) (slice_get self.now.boxes box_number) ≡ Some result }
    {
        self.addresses[box_number as usize]
    }

    /// The key of a box.
    pub fn key_of(&self, box_number: u32) -> &[u8; 32]
        requires { box_number < length self.now.boxes }
        ensures { option_map (λ found. found.key) (slice_get self.now.boxes box_number) ≡ Some result.now }
    {
        match self.by_address.get_index(box_number as usize) {
            Some((_, key)) => key,
            None => unreachable!(),
        }
    }

    /// The addresses of the first boxes, in the order of registration.
    pub fn first(&self, count: u32) -> &[u128]
        requires { count ≤ length self.now.boxes }
        ensures first { result.now ≡ take count (addresses_of self.now.boxes) }
        ensures differ { Differ result.now }
    {
        &self.addresses[..count as usize]
    }
}
