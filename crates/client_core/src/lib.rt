//! The client: what it sends for a request, and what it does with the servers' replies.
#![tactic(auto)]

mod asking;
mod client;
mod drawing;
mod frames;
mod hearing;
mod outcomes;
mod progress;
mod replying;
mod request;
mod stage;
mod standing;
mod state;

pub use client::Client;
pub use outcomes::{no_box_text, outcome_text};
pub use progress::{Outcome, Progress};
pub use request::{AskFault, Request};
