//! What one of two servers can tell of a write: where the other server's expansions are any, each registered
//! target and each message of one width fits what the server has, equally. `docs/PRIVACY.md` tells what this
//! means.
#![tactic(auto)]

mod audit;
mod choice;
mod expansions;
mod laws;
mod moves;
mod part;
mod ranges;
mod views;
mod words;

pub use choice::{Aim, Game, IdealChoice, View};
pub use laws::{
    adversaries_see_the_same, malicious_views_stay, malicious_writes_are_seen, public_part_stays,
    views_stay, writes_are_choices,
};
pub use moves::moved;
pub use views::view;
