//! What a run of a desk has around it, how its words end, and what a person is told.
#![tactic(auto)]

mod around;
mod ending;
mod halting;
mod reading;
mod saying;
mod telling;
mod trouble;

pub use around::Around;
pub use ending::{WordEnd, end_by, status_of};
pub use halting::{halted, unanswered};
pub use reading::paper_at;
pub use saying::{say, say_bytes, tell};
pub use trouble::{Trouble, later, unnoted};
