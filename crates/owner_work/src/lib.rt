//! An owner's tasks, worked off one after another: a request is noted in the desk's ledger, asked of the two
//! servers, and what came of it is noted.
#![tactic(auto)]

mod carrying;
mod doing;
mod fetching;
pub mod laws;
mod rooms;
mod settling;

pub use carrying::carry_on;
pub use doing::do_task;
pub use fetching::fetch;
pub use rooms::{LIMIT, check_room, hundredths, is_full, is_nearly_full};
pub use settling::settle;
