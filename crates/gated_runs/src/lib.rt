//! Each server of a pair runs behind its gate: what its core took carried its ticket, and a lane and serial
//! is leased once.
#![tactic(auto)]

pub mod laws;
mod running;

pub use running::{run_helper, run_leader};
