//! What else is outside of a desk: its folder, the papers that people hand out, and a clock.
#![tactic(auto)]

mod clock;
mod folder;
mod folder_fault;
mod papers;

pub use clock::Clock;
pub use folder::{DeskFile, Folder, Hold, MOST_LETTERS, Slot};
pub use folder_fault::FolderFault;
pub use papers::{Papers, Written};
