//! The helper, server 1: what it does at a frame of a client and at a command of the leader.
#![tactic(auto)]

mod commands;
mod helper;
mod rows;
mod said;
mod server;
mod slot;
mod taken;
mod uncounted;

pub use helper::{Helper, LinkTurn};
pub use uncounted::{carry_command, hear_command};
