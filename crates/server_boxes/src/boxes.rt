//! The boxes over the registry and the shares.
ghost use Rattle.std.specs.Prelude.{◌≡◌, ◌+◌, ◌<◌, ◌≤◌, ℕ, IfOk, OnOk, OnErr, IfSome, Some, [], length, take, option_map, replicate, slice_get};
ghost use Rattle.std.specs.Option.{ForSome};
ghost use Rattle.express_words.specs.Bytes.{xor_bytes};
ghost use Rattle.express_words.specs.Limits.{IsPart, IsWidth, levels_len};
ghost use Rattle.dpf_rules.specs.Evaluation.{prefix_count};
ghost use Rattle.dpf_rules.specs.Expansion.{mask};
ghost use Rattle.box_registry.specs.Boxes.{answer_at, addresses_of as registered};
ghost use Rattle.step_rules.specs.Boxes.{addresses_of, place_of, with_new};
ghost use Rattle.server_boxes.specs.Held.{AddsWrite, HasSameAddresses, after_read, leaves_of, openings_of, share_at, with_boxes, with_leaves};

use crate::room::{Begun, Proof, Room};
use box_registry::{RegFault, Registry};
use chacha_expand::mask_into;
use dpf_eval::Steps;
use dpf_keys::PublicPart;
use express_words::{NoMemory, Openings};
use share_store::ShareStore;
use snip_proof::open_share;
use std::alloc::Global;
use std::marker::Model;
use std::sync::ledger::Ledger;
use write_sketch::sums;

/// One server's boxes, each with its address, key and share, live or retired.
#[derive(Drop)]
pub struct ServerBoxes {
    registry: Registry,
    shares: ShareStore,
}

impl Model for ServerBoxes {
    ghost use Rattle.server_boxes.specs.Held.{Holdings};
    ghost use Rattle.server_boxes.specs.Pairs.{held_in, ArePairs};

    ghost Value = { Holdings };

    ghost view = { λ b. held_in b.registry b.shares };

    ghost invariant = { λ b. ArePairs b.registry b.shares };
}

impl ServerBoxes {
    /// No boxes, and room for `limit` of them with shares of `width` bytes.
    pub fn open(alloc: Global, limit: u32, width: u32) -> Result<ServerBoxes, NoMemory>
        ensures { IfOk result (λ b. b ≡ record { width = width; limit = limit; boxes = [] }) }
    {
        let registry = Registry::open(alloc, limit)?;
        let shares = ShareStore::open(alloc, limit, width)?;
        Ok(ServerBoxes { registry, shares })
    }

    /// How many boxes stand.
    pub fn count(&self) -> u32
        ensures count { result ≡ length self.now.boxes }
        ensures limit { result ≤ self.now.limit }
    {
        self.registry.count()
    }

    /// The address of a box.
    pub fn address_of(&self, number: u32) -> u128
        requires { number < length self.now.boxes }
        ensures { option_map (λ found. found.address) (slice_get self.now.boxes number) ≡ Some result }
    {
        self.registry.address_of(number)
    }

    /// The key of a box, or None exactly where there is no box of this number.
    pub fn key_of(&self, number: u32) -> Option<[u8; 32]>
        ensures key { option_map (λ found. found.key) (slice_get self.now.boxes number) ≡ result }
        ensures there { IfSome result (λ key. number < length self.now.boxes) }
    {
        if number < self.registry.count() {
            Some(*self.registry.key_of(number))
        } else {
            None
        }
    }

    /// Whether a box that stands is live.
    pub fn is_live(&self, number: u32) -> bool
        requires { number < length self.now.boxes }
        ensures { option_map (λ found. found.live) (slice_get self.now.boxes number) ≡ Some result }
    {
        !self.shares.retired(number)
    }

    /// The share of a box; zeros where there is no box of this number yet.
    pub fn share(&self, number: u32) -> &[u8]
        requires { number < self.now.limit }
        ensures { result.now ≡ share_at self.now number }
    {
        self.shares.share(number)
    }

    /// Registers an address with its key. Ok is the new box, whose share is zeros.
    pub fn register(&mut self, address: u128, key: &[u8; 32]) -> Result<u32, RegFault>
        ensures answer { result
            ≡ answer_at self.old.limit (length self.old.boxes) (place_of address self.old.boxes) }
        ensures added { OnOk result (self.new
            ≡ with_boxes self.old (with_new self.old.width address key.now self.old.boxes)) }
        ensures refused { OnErr result (self.new ≡ self.old) }
    {
        self.registry.add(address, key)
    }

    /// Evaluates the write in `room` at the addresses of the boxes that it counts, one step a node, keeps their leaves
    /// in `room`, and gives what server 0 or 1 opens of its proof.
    pub fn open_write<L: Ledger>(
        &mut self,
        server: u8,
        begun: &Begun,
        proof: &Proof,
        room: &mut Room,
        steps: &mut Steps<L>,
    ) -> Openings
        requires server { server < 2 }
        requires part { IsPart room.old.part.items }
        requires there { begun.now.count ≤ length self.old.boxes }
        requires leaves { begun.now.count ≤ length room.old.leaves.items }
        ensures opened { result ≡ openings_of server begun.now proof.now room.old (addresses_of self.old.boxes) }
        ensures leaves { take begun.now.count room.new.leaves.items
            ≡ leaves_of server begun.now room.old.part.items (addresses_of self.old.boxes) }
        ensures room { length room.new.leaves.items ≡ length room.old.leaves.items }
        ensures part { room.new.part.items ≡ room.old.part.items }
        ensures steps { steps.new
            ≡ steps.old + prefix_count (take begun.now.count (addresses_of self.old.boxes)) }
        ensures same { self.new ≡ self.old }
    {
        fill(&mut self.registry, server, begun, room, steps);
        let addresses = self.registry.first(begun.count);
        let own = &room.leaves[..begun.count as usize];
        let sums = sums(own, addresses, &begun.ckey);
        open_share(&sums, &proof.share, proof.sigma)
    }

    /// Adds the write bytes of the leaves in `room`, whatever these are, to the boxes that the write counts; a retired
    /// box gets nothing.
    pub fn add_write(&mut self, begun: &Begun, room: &Room)
        requires width { IsWidth self.old.width }
        requires part { length room.now.part.items ≡ levels_len + self.old.width }
        requires there { begun.now.count ≤ length self.old.boxes }
        requires leaves { begun.now.count ≤ length room.now.leaves.items }
        ensures leaves { self.new ≡ with_boxes self.old (with_leaves room.now.part.items
            (take begun.now.count room.now.leaves.items) self.old.boxes) }
        ensures added { (server : ℕ) → AddsWrite server begun.now room.now self.old self.new }
        ensures same { HasSameAddresses self.old self.new }
    {
        match PublicPart::of(&room.part) {
            Some(part) => self.shares.add_write(begun.count, &part, &room.leaves),
            None => unreachable!(),
        }
    }

    /// Leaves in `masked` the share of a box, XORed with the mask of its key for this lane and serial, and clears the
    /// box. Where it doesn't stay, the box is retired.
    pub fn read(&mut self, number: u32, stays: bool, lane: u16, serial: u32, masked: &mut [u8])
        requires there { number < length self.old.boxes }
        requires width { length masked.old ≡ self.old.width }
        requires most { self.old.width ≤ 4096 }
        ensures masked { ForSome (slice_get self.old.boxes number)
            (λ found. masked.new ≡ xor_bytes found.share (mask found.key lane serial self.old.width)) }
        ensures cleared { ForSome (slice_get self.old.boxes number)
            (λ found. self.new ≡ after_read self.old stays number found) }
        ensures same { HasSameAddresses self.old self.new }
    {
        clear(masked);
        mask_into(self.registry.key_of(number), lane, serial, masked);
        if stays {
            self.shares.take(number, masked);
        } else {
            self.shares.retire(number, masked);
        }
    }
}

// Fills in the leaves of the write's boxes.
fn fill<L: Ledger>(
    registry: &mut Registry,
    server: u8,
    begun: &Begun,
    room: &mut Room,
    steps: &mut Steps<L>,
)
    requires server { server < 2 }
    requires part { IsPart room.old.part.items }
    requires there { begun.now.count ≤ length registry.old.boxes }
    requires leaves { begun.now.count ≤ length room.old.leaves.items }
    ensures leaves { take begun.now.count room.new.leaves.items
        ≡ leaves_of server begun.now room.old.part.items (registered registry.old.boxes) }
    ensures room { length room.new.leaves.items ≡ length room.old.leaves.items }
    ensures part { room.new.part.items ≡ room.old.part.items }
    ensures steps { steps.new
        ≡ steps.old + prefix_count (take begun.now.count (registered registry.old.boxes)) }
    ensures same { registry.new ≡ registry.old }
{
    match PublicPart::of(&room.part) {
        Some(part) => registry.leaves(
            &part,
            server,
            begun.root,
            begun.count,
            &mut room.leaves,
            steps,
        ),
        None => unreachable!(),
    }
}

fn clear(bytes: &mut [u8])
    ensures { bytes.new ≡ replicate (length bytes.old) 0 }
{
    bytes.fill(0);
}
