//! An owner's desk on a disk: a client that remembers, whose remarks are the desk's entries.
#![tactic(auto)]

mod asking;
mod cards;
mod fault;
mod forgetting;
mod handing;
mod ledger;
mod letters;
mod naming;
mod opening;
mod outcomes;
mod pair;
mod reaching;
mod starting;
mod stored;
mod storing;
mod tag;
mod task;
mod working;

pub use fault::{ForgetFault, NameFault, OpenFault};
pub use ledger::Ledger;
pub use pair::Pair;
pub use stored::Stored;
pub use task::Task;
