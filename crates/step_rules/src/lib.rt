//! What the helper, the leader and a client do with a frame: tables of steps on a state and bytes, as definitions; and
//! laws of them.
#![tactic(auto)]

mod needs;
mod refusals;

pub use needs::{commands_need, firsts_stand};
pub use refusals::{helper_refusals, leader_refusals};
