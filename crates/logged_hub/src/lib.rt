//! The log beside the connections of a server of many.
#![tactic(auto)]

mod fault;
mod filling;
mod hub;
pub mod laws;
mod reading;
mod writing;

pub use fault::LogFault;
pub use filling::batch_of;
pub use hub::LoggedHub;
pub use reading::{HeldRecords, read_records};
