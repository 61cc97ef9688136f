//! The leader's gate: it leases the strangers' lanes, and remembers how the last requests ended.
#![tactic(auto)]

mod ask;
mod choosing;
mod ended;
mod fault;
pub mod laws;
mod leases;
mod machine;
mod record;

pub use ask::{Announced, Ask};
pub use ended::{ENDS, End, Ended};
pub use fault::UsedUp;
pub use leases::LaneLeases;
pub use record::{ASK_LEN, ENDED_LEN, LeaderNote};
