//! A desk's folder, its papers and the clock, as the system has them.
#![tactic(auto)]

mod desk_folder;
mod desk_paths;
mod folder_calls;
mod folder_checks;
mod folder_log;
mod paper_files;
mod system_clock;
mod system_files;
mod system_folder;
mod system_mark;
mod system_papers;

pub use desk_folder::DeskFolder;
pub use desk_paths::DeskPaths;
pub use folder_calls::{FolderCalls, FolderStep, Mark};
pub use paper_files::{PaperCalls, PaperFiles, PaperStep, Stands};
pub use system_clock::SystemClock;
pub use system_folder::SystemFolder;
pub use system_papers::SystemPapers;
