//! The boxes of a server, leader or helper: their addresses, keys and shares, and what registers, writes and reads do
//! to them. All memory is taken at opening.
#![tactic(auto)]

mod boxes;
mod challenged;
mod closing;
mod room;

pub use boxes::ServerBoxes;
pub use challenged::ChallengedWrite;
pub use closing::{challenge_key, close};
pub use room::{Begun, Proof, Room};
