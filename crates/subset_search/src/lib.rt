//! A subset of given boxes that, added to another, meets a test: each subset is tried, at one sum a subset.
#![tactic(auto)]

mod search;

pub use search::{Target, find_subset};
