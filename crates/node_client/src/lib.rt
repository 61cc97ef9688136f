//! A client's requests, each worked off by exchanges with its two servers over a net.
#![tactic(auto)]

mod asking;
mod finished;
mod peers;
mod stepping;
mod stop;

pub use asking::one_request;
pub use finished::{Finished, Told, line};
pub use peers::{Peers, address_of};
pub use stop::Stop;
