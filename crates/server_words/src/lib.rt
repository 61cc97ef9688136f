//! What an operator says to a server for many, and what it prints.
#![tactic(auto)]

mod asking;
mod given;
mod help;
mod owner;
mod start;
mod stop;
mod task;

pub use asking::asked_of;
pub use help::{HELP, VERSION};
pub use owner::OwnerLine;
pub use start::Start;
pub use stop::Stop;
pub use task::{LAST_LANE, ServerTask};
