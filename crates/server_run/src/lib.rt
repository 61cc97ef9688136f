//! A server for many, over connections and a disk that it is handed: how it is opened from its log, and how it runs.
#![tactic(auto)]

mod opening;
mod running;

pub use opening::{LOG_LIMIT, OpenLog, open_log};
pub use running::run_server;
