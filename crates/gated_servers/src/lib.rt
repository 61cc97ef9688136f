//! Each server's core behind its gate, as the machine that the records of one log give.
#![tactic(auto)]

mod helper;
mod helper_machine;
pub mod laws;
mod leader;
mod leader_machine;
mod opening;
mod passing;
mod told;

pub use helper::GatedHelper;
pub use leader::{GatedLeader, NoLease};
pub use opening::{GATED_OPENING_LEN, GatedOpening};
