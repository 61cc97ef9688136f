//! A kept machine that says what it wants next, worked off over its servers' doors.
#![tactic(auto)]

mod asking;
mod asks;
mod halt;
mod next;
mod places;
mod record;
mod stepping;
mod working;

pub use asking::ask;
pub use asks::Asks;
pub use halt::{Halt, role_text};
pub use next::Next;
pub use places::Places;
pub use record::Record;
pub use stepping::{Course, one_step};
pub use working::work;
