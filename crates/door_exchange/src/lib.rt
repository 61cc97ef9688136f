//! One round trip to the clients' door of a server: a request goes to it over HTTP, and its answer comes
//! back.
#![tactic(auto)]

mod exchanging;
mod place;
mod reading;

pub use exchanging::{Broken, exchange};
pub use place::Place;
pub use reading::{MESSAGE_MAX, Reading, read_answer};
