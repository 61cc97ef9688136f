//! Sums of products of the field of 2^128 elements, at 256 places at once.
#![tactic(auto)]

mod batch;
mod bits;
mod bytes;
mod level;
mod quad;

pub use batch::{ProductSums, sums_of_256};
