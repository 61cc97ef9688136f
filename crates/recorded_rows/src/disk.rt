//! A disk in memory.
use crate::fault::Result;
use node_journal::MemoryDisk;
use std::alloc::Global;

/// So many writes and syncs have room on a disk.
const CALLS: usize = 128;

/// The bytes of the writes have so much room.
const ROOM: usize = 32768;

/// A disk with these bytes, whose call of this number fails, 0 for none. A crash leaves of a write that isn't synced as
/// many bytes as arrive.
pub(crate) fn disk_of(
    alloc: Global,
    bytes: &[u8],
    failing: u64,
    arriving: &[u8],
) -> Result<MemoryDisk> {
    Ok(MemoryDisk::new(alloc, bytes, arriving, CALLS, ROOM, &[failing])?)
}
