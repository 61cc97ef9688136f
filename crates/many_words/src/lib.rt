//! The outside of a server of many connections: connections at places, a clock and a log, in one history of all calls.
#![tactic(auto)]

mod door;
mod entry;
mod hub;
mod memory_hub;

pub use door::Door;
pub use entry::{Entry, RECORD_MAX, ROOM, push_all};
pub use hub::{Failed, Hub, Taken};
pub use memory_hub::{Kind, MemoryHub, Note, Script};
