//! The keys of a distributed point function, and one server's walk and write bytes.
//! Source: Boyle, Gilboa and Ishai, "Function Secret Sharing: Improvements and Extensions", CCS 2016, section 3.
#![tactic(auto)]

mod generation;
pub mod levels;
mod part;
mod walking;

pub use generation::generate;
pub use part::PublicPart;
pub use walking::{output_into, output_through, walk};
