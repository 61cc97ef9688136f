//! A client's proof for its write, in two shares, and what two servers open, close and judge of it. In the manner of
//! Prio (Corrigan-Gibbs and Boneh, NSDI 2017, section 4), with two multiplication gates and one multiplication triple.
#![tactic(auto)]

mod both;
mod client;
mod keys;
mod laws;
mod polynomials;
mod servers;

pub use both::{ProofShares, WriteKeys, WriteLeaves};
pub use client::prove;
pub use keys::{bad_keys_are_caught, honest_keys_are_accepted};
pub use laws::{accepted_points_are_few, honest_writes_are_accepted, servers_accept};
pub use servers::{close_share, judge, open_share};
