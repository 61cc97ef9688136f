//! A stranger's letter on its way: each try is a write of a client that remembers, on a disk of its own, and what is
//! done after each answer is what `desk_tries` says.
#![tactic(auto)]

mod answering;
mod drawing;
mod fault;
mod outbox;
mod place;
mod reaching;
mod reopening;
mod starting;
mod working;

pub use fault::StartFault;
pub use outbox::{OUTBOX_LIMIT, Outbox};
pub use place::{PLACE_LEN, Place};
pub use reopening::Reopened;
