//! The words of a desk, over whatever is outside.
#![tactic(auto)]

mod adopting;
mod around;
mod boxes;
mod cards;
mod carrying;
mod closing;
mod discarding;
mod ending;
mod finding;
mod fitting;
mod forgetting;
mod holding;
mod labels;
mod ledgers;
mod letters;
mod listing;
mod making_way;
mod moment;
mod opening;
mod outboxes;
mod reading;
mod resuming;
mod resuming_letters;
mod retiring;
mod saying;
mod searching;
mod sending;
mod showing;
mod standing;
mod telling;
mod top;
mod trouble;
mod writing;

pub use around::Around;
pub use top::run_desk;
