//! The current request of a client that remembers, worked off by exchanges with its two servers over a net.
#![tactic(auto)]

mod finishing;
mod halt;
mod stepping;
mod talking;

pub use finishing::finish;
pub use halt::Halt;
pub use stepping::one_step;
pub use talking::talk;
