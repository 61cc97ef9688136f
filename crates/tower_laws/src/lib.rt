//! What a field of characteristic two and a tower of such fields are, and that each level of Wiedemann's tower is one.
#![tactic(auto)]

mod bit;
mod quad;

pub use bit::Bit;
pub use quad::Quad;
