//! A client's run: from its settings, over a net, to the text that it prints.
#![tactic(auto)]

mod account;
mod asking;
mod carry;
mod carrying;
mod client;
mod cut;
mod fetched;
mod parts;
mod ran;
mod said;
mod telling;
mod texts;
mod worker;

pub use carry::run_carry;
pub use client::run_client;
pub use cut::Untold;
pub use ran::{Ran, RunEnd};
