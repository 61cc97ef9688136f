//! A journal of records on a disk that may crash at any moment.
#![tactic(auto)]

mod append;
mod batch;
mod disk;
mod disk_log;
mod fault;
mod head;
mod journal;
pub mod laws;
mod memory_disk;
mod overwrite;

/// A record has at most so many bytes.
pub const RECORD_MAX: usize = 8214;

// The bytes before a record's own: its gate and its length.
const HEAD_LEN: usize = 5;

pub use batch::{Batch, BatchFull};
pub use disk::Disk;
pub use fault::JournalFault;
pub use journal::Journal;
pub use memory_disk::MemoryDisk;
