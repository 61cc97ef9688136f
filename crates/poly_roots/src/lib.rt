//! Polynomials over a field, as lists of coefficients from the constant upwards.
#![tactic(auto)]

mod laws;
mod products;
mod through;
mod values;

pub use laws::roots_are_few;
pub use products::times;
pub use through::through3;
pub use values::eval;
