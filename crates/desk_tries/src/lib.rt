//! A stranger's tries to leave one letter: what each answer tells of the write, what to do next, and on which lane and
//! with which serial, so that no letter is written twice to one address.
#![tactic(auto)]

mod draws;
mod heard;
pub mod laws;
mod sending;

pub use draws::{highest_named, lane_among, next_lane, serial_above};
pub use heard::{Answer, Fate, fate_by};
pub use sending::{LetterEnd, MOST_FURTHER, Next, Sending};
