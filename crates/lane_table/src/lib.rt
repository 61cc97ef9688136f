//! What a server keeps of each lane: its row, by which frames are let in, and the last reply.
#![tactic(auto)]

mod gate;
mod lanes;
pub mod laws;
pub mod phase;
mod row;
mod slot;

pub use gate::{Gate, closing, opening};
pub use lanes::Lanes;
pub use row::{Row, Want};
