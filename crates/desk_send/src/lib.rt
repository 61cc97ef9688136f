//! A stranger's letters on their way, in the places of a desk's folder: one is left, gone on with, told and
//! given up.
#![tactic(auto)]

mod cards;
mod clearing;
mod discarding;
mod finishing;
mod labels;
mod listing;
mod making_way;
mod placed;
mod resuming;
mod same_letter;
mod searching;
mod sending;
mod starting;

pub use clearing::clear_all;
pub use discarding::{discard, discard_all};
pub use listing::say_letters;
pub use placed::OnItsWay;
pub use resuming::resume_letters;
pub use sending::send;
