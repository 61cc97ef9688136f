//! What the leader did.

/// What the leader did with a frame of a client.
#[derive(Clone, Copy, Debug, PartialEq, Eq)]
pub enum Turn {
    /// A reply for the client, of so many bytes.
    Reply(usize),
    /// A new command for the helper: its number, and so many bytes.
    Link(u64, usize),
    /// The lane's own command of this number is outstanding; nothing is written.
    Waiting(u64),
}

/// What the leader did with bytes of the helper.
#[derive(Clone, Copy, Debug, PartialEq, Eq)]
pub enum Ack {
    /// A reply for the client of this lane, of so many bytes.
    Reply(u16, usize),
    /// The settle of an audit: its number, and so many bytes.
    Link(u64, usize),
    /// The bytes aren't one reply that has the oldest outstanding number and fits its command; nothing is written.
    Ignored,
}
