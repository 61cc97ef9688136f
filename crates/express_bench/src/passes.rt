//! Leaves of a public part at the addresses of boxes: by one pass down the tree, and by a walk for each address.
ghost use Rattle.std.specs.Prelude.{◌≡◌, ◌<◌};

use chacha_expand::children;
use dpf_eval::{Frontier, Steps};
use dpf_keys::{PublicPart, walk};
use express_words::NoMemory;
use std::alloc::Global;
use std::marker::Brand;
use std::sync::ledger::{Blank, Ledger};

// Any public part.
const PART: [u8; 2080] = [0x5a; 2080];

// A frontier of so many addresses that look random.
fn frontier_of(alloc: Global, boxes: u32) -> Result<Frontier, NoMemory> {
    let mut frontier = Frontier::open(alloc, boxes)?;
    for k in 0..boxes {
        let (address, _) = children(2 * u128::from(k));
        if frontier.box_of(address).is_none() && !frontier.is_full() {
            frontier.insert(address);
        }
    }
    Ok(frontier)
}

fn sum(leaves: &[u128]) -> u128 {
    let mut total = 0;
    for leaf in leaves {
        total ^= *leaf;
    }
    total
}

// The sum of the leaves under a root, with a counter of this pass's own.
fn pass<L: Ledger>(
    blank: Blank,
    frontier: &mut Frontier,
    part: &PublicPart,
    root: u128,
    leaves: &mut [u128],
) -> u128
    requires name { blank.name ≡ L.name }
    requires parts { blank.parts ≡ L.parts }
    requires shared { 0 < blank.parts }
{
    let mut steps = Steps::<L>::new(blank);
    let count = frontier.count();
    if count as usize <= leaves.len() {
        frontier.run(part, 0, root, count, leaves, &mut steps);
    }
    sum(leaves)
}

/// The checksum by passes, each under a root of its own; bit 0 of a root is not read.
pub fn by_passes(alloc: Global, boxes: u32, times: u32) -> Result<u128, NoMemory> {
    let mut frontier = frontier_of(alloc, boxes)?;
    let Ok(mut leaves) = vec![in alloc; 0u128; boxes as usize] else {
        return Err(NoMemory);
    };
    let Some(part) = PublicPart::of(&PART) else {
        return Ok(0);
    };
    let mut total = 0;
    for root in 0..times {
        total ^= pass::<Brand>(
            Blank::new(1),
            &mut frontier,
            &part,
            2 * u128::from(root),
            &mut leaves,
        );
    }
    Ok(total)
}

/// The same checksum by walks.
pub fn by_walks(alloc: Global, boxes: u32, times: u32) -> Result<u128, NoMemory> {
    let frontier = frontier_of(alloc, boxes)?;
    let Some(part) = PublicPart::of(&PART) else {
        return Ok(0);
    };
    let mut total = 0;
    for root in 0..times {
        for address in frontier.first(frontier.count()) {
            total ^= walk(&part, 0, 2 * u128::from(root), *address);
        }
    }
    Ok(total)
}

/// How many nodes one pass expands.
pub fn nodes(alloc: Global, boxes: u32) -> Result<u128, NoMemory> {
    let frontier = frontier_of(alloc, boxes)?;
    let Ok(mut addresses) = Vec::from_slice(alloc, frontier.first(frontier.count())) else {
        return Err(NoMemory);
    };
    addresses.sort_unstable();
    let mut nodes = 0u128;
    let mut before: Option<u128> = None;
    for address in &addresses {
        let shared = match before {
            None => 0,
            Some(other) => (other ^ *address).leading_zeros() + 1,
        };
        nodes = nodes.saturating_add(u128::from(128u32.saturating_sub(shared)));
        before = Some(*address);
    }
    Ok(nodes)
}
