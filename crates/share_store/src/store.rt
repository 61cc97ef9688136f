//! The shares by box.
ghost use Rattle.std.specs.Prelude.{◌≡◌, ◌<◌, ◌≤◌, IfOk, false, length, not, replicate, take};
ghost use Rattle.express_words.specs.Bytes.{xor_bytes};
ghost use Rattle.dpf_rules.specs.Walk.{last_of};
ghost use Rattle.share_store.specs.Shares.{empty_share, share_at, shares_of, shares_with, with_cleared};
ghost use Rattle.share_store.specs.Marks.{shares_in};

use block_region::BlockArray;
use dpf_keys::{PublicPart, output_through};
use dpf_rules::xor_into;
use express_words::NoMemory;
use std::alloc::Global;
use std::marker::Model;

/// One server's share of each box, and whether the box is live. All memory is taken at opening.
#[derive(Drop)]
pub struct ShareStore {
    shares: BlockArray,
    live: Vec<bool>,
}

impl Model for ShareStore {
    ghost use Rattle.share_store.specs.Shares.{Shares, shares_of};
    ghost use Rattle.share_store.specs.Marks.{shares_in};
    ghost use Rattle.std.specs.Prelude.{◌≡◌, length};

    ghost Value = { Shares };

    ghost view = { λ s. shares_of s.shares.size (shares_in s.live.items s.shares.blocks) };

    ghost invariant = { λ s. length s.live.items ≡ length s.shares.blocks };
}

impl ShareStore {
    /// Shares of this many boxes, `width` bytes each: all zero, and all boxes live.
    pub fn open(alloc: Global, boxes: u32, width: u32) -> Result<ShareStore, NoMemory>
        ensures { IfOk result (λ s. s ≡ shares_of width (replicate boxes (empty_share width))) }
    {
        let shares = BlockArray::open(alloc, width, boxes)?;
        match vec![in alloc; true; boxes as usize] {
            Ok(live) => Ok(ShareStore { shares, live }),
            Err(_) => Err(NoMemory),
        }
    }

    /// XORs the write bytes of each leaf into the share of its box, for the first `count` boxes. A retired
    /// box keeps its share.
    pub fn add_write(&mut self, count: u32, part: &PublicPart, leaves: &[u128])
        requires width { length (last_of part.now) ≡ self.old.width }
        requires boxes { count ≤ length self.old.boxes }
        requires leaves { count ≤ length leaves.now }
        ensures { self.new
            ≡ shares_of self.old.width (shares_with part.now (take count leaves.now) self.old.boxes) }
    {
        add_leaves(
            &mut self.shares,
            &self.live,
            part,
            &leaves[..count as usize],
        );
    }

    /// XORs a share into `out` and clears it.
    pub fn take(&mut self, box_number: u32, out: &mut [u8])
        requires there { box_number < length self.old.boxes }
        requires width { length out.old ≡ self.old.width }
        ensures given { out.new ≡ xor_bytes out.old (share_at self.old.boxes box_number).bytes }
        ensures cleared { self.new
            ≡ with_cleared self.old box_number (share_at self.old.boxes box_number).live }
    {
        let place = box_number as usize;
        xor_into(out, self.shares.get(place));
        clear(self.shares.get_mut(place));
    }

    /// XORs a share into `out`, clears it, and retires the box.
    pub fn retire(&mut self, box_number: u32, out: &mut [u8])
        requires there { box_number < length self.old.boxes }
        requires width { length out.old ≡ self.old.width }
        ensures given { out.new ≡ xor_bytes out.old (share_at self.old.boxes box_number).bytes }
        ensures retired { self.new ≡ with_cleared self.old box_number false }
    {
        self.take(box_number, out);
        self.live[box_number as usize] = false;
    }

    /// The share of a box, as many bytes as the width.
    pub fn share(&self, box_number: u32) -> &[u8]
        requires { box_number < length self.now.boxes }
        ensures bytes { result.now ≡ (share_at self.now.boxes box_number).bytes }
        ensures width { length result.now ≡ self.now.width }
    {
        self.shares.get(box_number as usize)
    }

    /// Whether a box is retired.
    pub fn retired(&self, box_number: u32) -> bool
        requires { box_number < length self.now.boxes }
        ensures { result ≡ not (share_at self.now.boxes box_number).live }
    {
        !self.live[box_number as usize]
    }
}

// XORs the write bytes of each leaf into the share of its box, where that is live.
fn add_leaves(shares: &mut BlockArray, live: &[bool], part: &PublicPart, leaves: &[u128])
    requires marks { length live.now ≡ length shares.old.blocks }
    requires width { length (last_of part.now) ≡ shares.old.size }
    requires count { length leaves.now ≤ length live.now }
    ensures size { shares.new.size ≡ shares.old.size }
    ensures marks { length live.now ≡ length shares.new.blocks }
    ensures added { shares_in live.now shares.new.blocks
        ≡ shares_with part.now leaves.now (shares_in live.now shares.old.blocks) }
{
    let mut bytes = [0u8; 4096];
    let room = &mut bytes[..part.last().len()];
    for k in 0..leaves.len() {
        if live[k] {
            output_through(part, leaves[k], room, shares.get_mut(k));
        }
    }
}

fn clear(bytes: &mut [u8])
    ensures { bytes.new ≡ replicate (length bytes.old) 0 }
{
    bytes.fill(0);
}
