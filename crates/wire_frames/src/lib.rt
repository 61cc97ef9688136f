//! Frames as bytes, both ways, and in whatever pieces they come. `docs/FRAMES.md` tells the format.
#![tactic(auto)]

mod answers;
mod bodies;
mod classes;
mod decoding;
mod encoding;
mod fields;
mod gathering;
mod header;
mod kinds;
mod received;
mod refusals;
mod tagged;
mod tags;
mod whole_bytes;
mod writing;

pub use answers::{answer, on_link, refused_bytes};
pub use classes::{has_width, is_command, is_from_client, is_reply};
pub use decoding::decode;
pub use encoding::encode_into;
pub use frame_rules::{Body, DepositBody, FRAME_MAX, Frame, FrameFault, ReplyBody};
pub use gathering::Gather;
pub use received::Received;
pub use whole_bytes::{command_in, reply_in, whole};
