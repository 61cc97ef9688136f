//! Evaluation of one server's key at many addresses, in one pass down the tree.
#![tactic(auto)]

mod counts;
mod descent;
mod entries;
mod expansion;
mod key;
mod levels;
mod order;
mod scratch;
mod splits;
mod steps;
mod stream;

pub use counts::worked_counts;
pub use steps::Steps;
pub use stream::Frontier;
