//! The parts of a server's work at a write of 1,024 bytes beside the tree's pass, each alone: the sums under
//! challenges, and the write bytes. And what the client does for a write.
ghost use Rattle.std.specs.Prelude.{◌≡◌, ◌≤◌, length};
ghost use Rattle.dpf_rules.specs.Walk.{last_of};

use chacha_expand::{challenge, children, choices};
use dpf_keys::{PublicPart, generate, walk};
use express_words::NoMemory;
use share_store::ShareStore;
use snip_proof::prove;
use std::alloc::Global;
use write_sketch::sums;

/// The bytes of a message.
pub const WIDTH: usize = 1024;

// The bytes of a public part.
const PART_BYTES: usize = 3088;

const PART: [u8; PART_BYTES] = [0x5a; PART_BYTES];

// Numbers that look random.
fn numbers(alloc: Global, count: u32, from: u128) -> Result<Vec<u128>, NoMemory> {
    let mut numbers = Vec::new(alloc);
    for k in 0..count {
        let (number, _) = children(from.wrapping_add(2 * u128::from(k)));
        numbers.push(number)?;
    }
    Ok(numbers)
}

/// The sums of so many leaves, each time under a key of its own.
pub fn by_sums(alloc: Global, boxes: u32, times: u32) -> Result<u128, NoMemory> {
    let leaves = numbers(alloc, boxes, 1 << 64)?;
    let addresses = numbers(alloc, boxes, 0)?;
    let mut ckey = [0u8; 32];
    let mut total = 0;
    for time in 0..times {
        ckey[..4].copy_from_slice(&time.to_le_bytes());
        if leaves.len() == addresses.len() {
            let found = sums(&leaves, &addresses, &ckey);
            total ^= found.x ^ found.y ^ found.m ^ found.z;
        }
    }
    Ok(total)
}

/// The write bytes of so many leaves, added to as many shares; the checksum is the number of shares.
pub fn by_outputs(alloc: Global, boxes: u32, times: u32) -> Result<u128, NoMemory> {
    let leaves = numbers(alloc, boxes, 1 << 64)?;
    let mut store = ShareStore::open(alloc, boxes, WIDTH as u32)?;
    let Some(part) = PublicPart::of(&PART) else {
        return Ok(0);
    };
    if part.last().len() == WIDTH && boxes as usize <= leaves.len() {
        add(&mut store, &part, &leaves, boxes, times);
    }
    Ok(u128::from(boxes))
}

fn add(store: &mut ShareStore, part: &PublicPart, leaves: &[u128], boxes: u32, times: u32)
    requires width { length (last_of part.now) ≡ store.old.width }
    requires boxes { length store.old.boxes ≡ boxes }
    requires leaves { boxes ≤ length leaves.now }
{
    for _time in 0..times {
        store.add_write(boxes, part, leaves);
    }
}

/// What a client computes for a write: the keys, both leaves at the target, and the proof; each time of a serial of its
/// own.
pub fn by_client(times: u32) -> u128 {
    let seed = [7u8; 32];
    let message = [1u8; WIDTH];
    let mut bytes = [0u8; PART_BYTES];
    let mut total = 0;
    for serial in 0..times {
        let words = choices(&seed, serial);
        let target = words[2];
        generate(target, &message, words[0], words[1], &mut bytes);
        if let Some(part) = PublicPart::of(&bytes) {
            let m = walk(&part, 0, words[0], target) ^ walk(&part, 1, words[1], target);
            let (r, s) = challenge(&seed, target);
            let (_, one) = prove(m, r, s, &words);
            total ^= one.c;
        }
    }
    total
}
