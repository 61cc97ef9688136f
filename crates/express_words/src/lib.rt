//! The plain types that every other crate speaks of.
#![tactic(auto)]

mod audit;
pub mod limits;
mod lists;
mod memory;
pub mod outside;
mod refusal;
mod role;
mod settings;

pub use audit::{Closing, Openings, ProofShare};
pub use lists::{List, Text};
pub use memory::NoMemory;
pub use refusal::Refusal;
pub use role::Role;
pub use settings::Settings;
