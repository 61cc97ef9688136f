//! Letters out of the boxes of a card, also where they met in a box.
#![tactic(auto)]

mod admitting;
mod candidates;
mod found;
mod opening;
mod reading;
mod telling;

pub use reading::{Card, KnownPiece, Reading, Told};
pub use telling::tell;
