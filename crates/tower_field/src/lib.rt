//! Wiedemann's tower of quadratic extensions of the field of two elements, up to the field of 2^128 elements.
#![tactic(auto)]

mod bit;
mod field;
mod gf128;
mod halves;
mod quad;

pub use field::{Field, Tower};
pub use gf128::Gf128;
pub use tower_laws::{Bit, Quad};
