//! Products of the field of 2^128 elements by tables of level 3.
#![tactic(auto)]

mod products;
mod tables;

pub use products::mul_fast;
pub use tables::Tables;
