//! The run of a schedule over the real servers: both servers, the clients, and a pool of frames.
#![tactic(auto)]

mod arriving;
mod asker;
mod asking;
mod at_helper;
mod at_leader;
mod entries;
mod finish;
mod lane;
mod laws;
mod lines;
mod pool;
mod showing;
mod state;
mod texts;
mod world;

pub use client_core::Outcome;
pub use express_words::outside;
pub use laws::{
    accepted_writes_pass, clients_get_answers, frames_are_heeded, histories_hold, mills_count,
    replies_are_one, requests_are_told, rows_are_awaited, runs_follow_protocol, schedules_fit,
    schedules_hold, strangers_were_brought,
};
pub use lines::{Command, Entry, JournalLine, OutcomeLine, Told};
pub use world::{PutFault, World};
