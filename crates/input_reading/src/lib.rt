//! Reads an input to its end, or takes a seed of a source of random bytes.
#![tactic(auto)]

mod reading;
mod seed;

pub use reading::{InputFault, LONGEST, read_all};
pub use seed::{SeedFault, seed_of};
