//! The records of a client's journal: how it was opened, what it was asked, and what it heard, told and gave
//! up.
#![tactic(auto)]

mod ended;
mod errand;
mod hearing;
mod kept;
mod laws;
mod machine;
mod note;
mod opening;
mod owned_box;
mod standing;

pub use ended::{Ended, KeptOutcome};
pub use errand::Errand;
pub use kept::KeptClient;
pub use kept_machine::KeepFault;
pub use laws::{client_remembers, records_tell};
pub use machine::OpenedClient;
pub use note::{NOTE_MAX, Note};
pub use opening::{ClientOpening, OPENING_LEN};
pub use owned_box::OwnedBox;
