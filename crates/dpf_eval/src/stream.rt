//! Addresses ready for evaluation.
ghost use Rattle.std.specs.Prelude.{◌≡◌, ◌==◌, ◌<◌, ◌≤◌, ◌↔◌, ◌+◌, IfOk, IfSome, IfNone, IsTrue};
ghost use Rattle.std.specs.Prelude.{◌++◌, ◌∷◌, [], Contains, map, take, drop, length, position};
ghost use Rattle.dpf_rules.specs.Evaluation.{prefix_count};
ghost use Rattle.dpf_rules.specs.Walk.{leaf_of};

use crate::key::ServerKey;
use crate::order::{Sorted, find, place_of};
use crate::scratch::Scratch;
use crate::steps::Steps;
use dpf_keys::PublicPart;
use express_words::NoMemory;
use std::alloc::{AllocError, Global};
use std::marker::Model;
use std::sync::ledger::Ledger;

/// The addresses of a server's boxes by number, kept in rising order beside it, so that one pass down the
/// tree meets each node on the paths to them once. All its memory is taken at opening.
#[derive(Drop)]
pub struct Frontier {
    limit: u32,
    addresses: Vec<u128>,
    order: Vec<u32>,
    scratch: Scratch,
}

impl Model for Frontier {
    ghost use Rattle.std.specs.Prelude.{vec_capacity};
    ghost use Rattle.dpf_eval.specs.Listing.{Listing};
    ghost use Rattle.dpf_eval.specs.Order.{IsSound};

    ghost Value = { Listing };

    ghost view = { λ f. record { addresses = f.addresses.items; limit = f.limit } };

    ghost invariant = { λ f. IsSound f.limit f.addresses.items f.order.items
        (vec_capacity f.addresses) (vec_capacity f.order) f.scratch };
}

impl Frontier {
    /// No addresses, and room for `limit` of them.
    pub fn open(alloc: Global, limit: u32) -> Result<Frontier, NoMemory>
        ensures { IfOk result (λ f. f ≡ record { addresses = []; limit = limit }) }
    {
        Frontier::with_room(alloc, limit).map_err(|_| NoMemory)
    }

    fn with_room(alloc: Global, limit: u32) -> Result<Frontier, AllocError>
        ensures { IfOk result (λ f. f ≡ record { addresses = []; limit = limit }) }
    {
        Ok(Frontier {
            limit,
            addresses: Vec::with_capacity(alloc, limit as usize)?,
            order: Vec::with_capacity(alloc, limit as usize)?,
            scratch: Scratch::open(alloc, limit)?,
        })
    }

    /// Gives an address the next box number.
    pub fn insert(&mut self, address: u128)
        requires new { ¬ (Contains self.old.addresses address) }
        requires room { length self.old.addresses < self.old.limit }
        ensures { self.new
            ≡ record { addresses = self.old.addresses ++ address ∷ []; limit = self.old.limit } }
    {
        let box_number = self.addresses.len() as u32;
        let place = place_of(&self.addresses, &self.order, address);
        match self.order.insert(place, box_number) {
            Ok(()) => self.addresses.push_reserved(address),
            Err(_) => unreachable!(),
        }
    }

    /// How many addresses there are.
    pub fn count(&self) -> u32
        ensures count { result ≡ length self.now.addresses }
        ensures within { result ≤ self.now.limit }
    {
        self.addresses.len() as u32
    }

    /// Whether there is no room for another address.
    pub fn is_full(&self) -> bool
        ensures { IsTrue result ↔ (self.now.limit ≤ length self.now.addresses) }
    {
        self.count() >= self.limit
    }

    /// The box of an address.
    pub fn box_of(&self, address: u128) -> Option<u32>
        ensures place { result ≡ position (λ other. other == address) self.now.addresses }
        ensures there { IfSome result (λ b. b < length self.now.addresses) }
        ensures absent { IfNone result (¬ (Contains self.now.addresses address)) }
    {
        find(&self.addresses, &self.order, address)
    }

    /// The first addresses, by box.
    pub fn first(&self, count: u32) -> &[u128]
        requires { count ≤ length self.now.addresses }
        ensures { result.now ≡ take count self.now.addresses }
    {
        &self.addresses[..count as usize]
    }

    /// Writes the leaf of the walk of server 0 or 1 at each of the first `count` addresses, by box. `steps`
    /// counts every expansion of a node: one for each different proper prefix of these addresses.
    pub fn run<L: Ledger>(
        &mut self,
        part: &PublicPart,
        server: u8,
        root: u128,
        count: u32,
        out: &mut [u128],
        steps: &mut Steps<L>,
    )
        requires server { server < 2 }
        requires there { count ≤ length self.old.addresses }
        requires room { count ≤ length out.old }
        ensures leaves { take count out.new
            ≡ map (leaf_of part.now server root) (take count self.old.addresses) }
        ensures rest { drop count out.new ≡ drop count out.old }
        ensures steps { steps.new ≡ steps.old + prefix_count (take count self.old.addresses) }
        ensures same { self.new ≡ self.old }
    {
        let key = ServerKey { part, server, root };
        let sorted = Sorted {
            addresses: &self.addresses,
            order: &self.order,
        };
        self.scratch.leaves_into(key, sorted, count, out, steps);
    }
}
