//! What a pair's servers say of an owner's lane: whether the key is the lane's, at which serial it stands,
//! and at the leader whether its messages have this width. Each is asked by one frame at its clients' door.
#![tactic(auto)]

mod asking;
mod found;
pub mod laws;
mod questions;

pub use asking::{ask_helper, ask_leader, ask_width};
pub use found::Found;
