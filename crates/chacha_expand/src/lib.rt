//! What ChaCha20 expands states, seeds and keys into: the children and blocks of a point function's tree, the draws of
//! servers and clients, and the tokens and masks of reads.
#![tactic(auto)]

mod blocks;
mod challenges;
mod draws;
mod eight;
mod halves;
mod lanes;
mod reads;
mod stream;
mod tree;

pub use challenges::challenge8;
pub use draws::{challenge, choices, draw32, owner_keys};
pub use eight::children8;
pub use reads::{mask_into, token};
pub use tree::{block_into, children};
