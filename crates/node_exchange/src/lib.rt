//! One frame is read from a source; and one exchange with a peer over a net: a frame goes to it, and one comes back.
#![tactic(auto)]

mod exchanging;
mod reading;

pub use exchanging::{Broken, exchange};
pub use reading::{Reading, read_frame};
