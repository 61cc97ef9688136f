//! Which pieces of letters the readings of a card's boxes tell, also where they met others in a box.
#![tactic(auto)]

pub mod laws;
