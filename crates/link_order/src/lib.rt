//! The numbered link between the servers: commands that wait for their replies, and replies that are kept.
#![tactic(auto)]

mod frame_ring;
mod incoming;
pub mod laws;
mod outgoing;

pub use incoming::{Arrival, Incoming};
pub use outgoing::Outgoing;
