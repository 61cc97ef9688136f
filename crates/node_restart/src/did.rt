//! What a server did.
use helper_core::LinkTurn;
use leader_core::{Ack, Turn};

/// What a server did with a frame. What it wrote stands at the front of the buffer.
#[derive(Clone, Copy, Debug, PartialEq, Eq)]
pub enum Did {
    /// The helper replied to a client, by so many bytes.
    Replied(usize),
    /// The leader took a client's frame.
    Lead(Turn),
    /// The helper took bytes of the leader.
    Linked(LinkTurn),
    /// The leader took bytes of the helper.
    Acked(Ack),
}
