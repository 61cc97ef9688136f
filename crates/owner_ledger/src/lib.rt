//! The ledger of an owner's desk in the desk's folder: found, made, followed by another one, and noted in.
#![tactic(auto)]

mod asking;
mod checking;
mod finding;
mod following;
mod making;
mod noting;
mod opening;

pub use finding::{LEDGER_LIMIT, desk_in, ledger_in};
pub use following::{follow_above, renew};
pub use noting::{close_name, retire_name, want_boxes};
pub use opening::open;
