//! One server's shares of the boxes: what writes add to them, and what reads take.
#![tactic(auto)]

pub mod laws;
mod store;

pub use store::ShareStore;
