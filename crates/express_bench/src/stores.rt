//! What a server keeps at the largest settings, with every byte of it written, so that its memory can be seen from
//! outside.
use express_words::NoMemory;
use lane_table::Lanes;
use share_store::ShareStore;
use std::alloc::Global;

const BOXES: u32 = 4096;

const WIDTH: u32 = 4096;

const LANES: u16 = 256;

/// The longest frame, in bytes.
const FRAME: usize = 8213;

/// Opens the shares of all boxes, and clears each.
pub fn shares(alloc: Global) -> Result<u128, NoMemory> {
    let mut store = ShareStore::open(alloc, BOXES, WIDTH)?;
    let mut sum = [0u8; 4096];
    for box_number in 0..BOXES {
        store.take(box_number, &mut sum);
    }
    Ok(u128::from(sum[0]))
}

/// Opens the table of all lanes, and keeps a reply of the longest frame's length in each.
pub fn replies(alloc: Global) -> Result<u128, NoMemory> {
    let reply = [1u8; FRAME];
    let mut lanes = Lanes::open(alloc, LANES, 8213)?;
    for lane in 0..LANES {
        lanes.keep(lane, &reply);
    }
    Ok(u128::from(reply[0]))
}
