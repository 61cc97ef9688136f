//! The leader, server 0: what it does at a frame of a client and at a reply of the helper.
#![tactic(auto)]

mod answers;
mod applied;
mod asked;
mod clients;
mod commands;
mod frames;
mod issued;
mod laws;
mod leader;
mod link;
mod replies;
mod said;
mod slot;
mod standing;
mod stores;
mod turn;
mod uncounted;
mod writing;

pub use laws::rows_await;
pub use leader::Leader;
pub use standing::Standing;
pub use turn::{Ack, Turn};
pub use uncounted::{hear_request, take_request};
