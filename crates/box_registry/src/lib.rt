//! The boxes of a server: their addresses and keys, by number.
#![tactic(auto)]

mod fault;
pub mod laws;
mod registry;

pub use fault::RegFault;
pub use registry::Registry;
