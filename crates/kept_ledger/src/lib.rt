//! An owner's ledger, as a machine that its records give: the names of the desk's boxes, what became of them,
//! what they held, and the client that asks the servers for it.
#![tactic(auto)]

mod asking;
mod digits;
mod entry;
mod fault;
mod follow;
mod hearing;
pub mod laws;
mod ledger;
mod machine;
mod memory;
mod name;
mod naming;
mod note;
mod noting;
mod opening;
mod parts;
mod places;
mod reading;
mod sending;
mod standing;
mod tag;
mod task;
mod working;
mod writing;

pub use entry::{
    Denial, Denied, Handling, LedgerBox, LetterMark, Marked, NamedBoxes, OwnBox, Reading,
};
pub use fault::NameFault;
pub use follow::Keeping;
pub use ledger::Ledger;
pub use machine::KeptLedger;
pub use name::is_name;
pub use note::{CarriedReading, ClosedName, LedgerNote, MOST_AT_ONCE, WantedBoxes};
pub use opening::{LedgerOpening, ServerAt};
pub use sending::Sending;
pub use standing::Standing;
pub use task::Task;
pub use working::{Unworked, work_ledger};
