//! What a desk draws by lot, all of it out of one fresh seed.
#![tactic(auto)]

mod draws;

pub use draws::Draws;
