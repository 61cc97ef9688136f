//! A write that has begun, and a lane's room for it.
ghost use Rattle.std.specs.Prelude.{◌≡◌, ◌+◌, IfOk, length};
ghost use Rattle.express_words.specs.Limits.{levels_len};

use express_words::limits::LEVELS_LEN;
use express_words::{NoMemory, ProofShare};
use std::alloc::Global;

/// A write that has begun: the server's root, how many boxes it counts, and the key of its challenges. The public part
/// stands in the lane's [`Room`].
#[derive(Clone, Copy)]
pub struct Begun {
    /// The state at which the server's walks begin.
    pub root: u128,
    /// The number of boxes that stood at the begin.
    pub count: u32,
    /// The XOR of both servers' draws.
    pub ckey: [u8; 32],
}

/// A server's share of a client's proof, and the point at which it is opened.
#[derive(Clone, Copy)]
pub struct Proof {
    /// The share.
    pub share: ProofShare,
    /// The point.
    pub sigma: u128,
}

/// A lane's room for a write: a public part of 2,064 bytes and the width, and a leaf for each box.
#[derive(Drop)]
pub struct Room {
    /// The public part of the lane's write.
    pub part: Vec<u8>,
    /// The leaves of the first boxes, once the write is audited.
    pub leaves: Vec<u128>,
}

impl Room {
    /// Room for messages of `width` bytes and for as many leaves as boxes.
    pub fn open(alloc: Global, width: u32, boxes: u32) -> Result<Room, NoMemory>
        ensures part { IfOk result (λ room. length room.part.items ≡ levels_len + width) }
        ensures leaves { IfOk result (λ room. length room.leaves.items ≡ boxes) }
    {
        let Ok(part) = vec![in alloc; 0u8; LEVELS_LEN + width as usize] else {
            return Err(NoMemory);
        };
        let Ok(leaves) = vec![in alloc; 0u128; boxes as usize] else {
            return Err(NoMemory);
        };
        Ok(Room { part, leaves })
    }
}
