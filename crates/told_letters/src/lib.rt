//! The letters that the readings of a card's boxes tell.
#![tactic(auto)]

mod heading;
pub mod laws;
mod letter;
mod mail;
mod partial;
mod pieces;
mod whole;

pub use heading::Heading;
pub use letter::Letter;
pub use mail::{Mail, letters};
pub use partial::Partial;
