//! The connections of a server of many, and the log beside them.
#![tactic(auto)]

mod call_log;
mod history;
mod record_log;
mod wires;

pub use call_log::CallLog;
pub use record_log::RecordLog;
pub use wires::Wires;
