//! The command line of a desk.
#![tactic(auto)]

mod asking;
mod given;
mod help;
mod naming;
mod number;
mod task;

pub use asking::{Asked, asked_of, folder_of, proxy_of};
pub use help::HELP;
pub use task::{DeskTask, MOST_COUNT, MOST_LETTERS, USUAL_COUNT};
