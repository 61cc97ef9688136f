//! What a pair of servers says of its width and its lanes: each server is asked by one frame that it refuses, and that
//! changes no box, lane or serial at it.
#![tactic(auto)]

mod asking;
mod found;
mod questions;

pub use asking::{ask_helper, ask_leader};
pub use found::Found;
