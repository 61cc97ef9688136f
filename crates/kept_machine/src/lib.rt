//! A machine that notes what it takes on a disk before its step, and stands where it stood after a crash at
//! any moment.
#![tactic(auto)]

mod fault;
mod judging;
mod keeping;
mod kept;
mod machine;
mod noting;
mod reading;
mod reopening;
mod replaying;

pub use fault::KeepFault;
pub use kept::{Kept, KeptParts, take};
pub use machine::{Machine, Takes};
