//! Frames, what spells one, and in which order one is judged. `docs/FRAMES.md` tells the format.
#![tactic(auto)]

mod fault;
pub mod first_wrong;
mod frame;
mod kind;
pub mod laws;

pub use fault::FrameFault;
pub use frame::{Body, DepositBody, FRAME_MAX, Frame, ReplyBody};
pub use kind::Kind;
