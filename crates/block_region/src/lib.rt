//! A region of memory of its own: blocks of fixed classes, all taken at opening and lent one by one.
#![tactic(auto)]

mod block;
mod block_array;
mod front;
pub mod laws;
mod region;
mod shelf;

pub use block::Block;
pub use block_array::BlockArray;
pub use front::write_front;
pub use region::{Class, Region};
