//! The kinds of frames.

/// What a frame is for. The number before each is its number on the wire.
#[derive(Clone, Copy, Debug, PartialEq, Eq)]
pub enum Kind {
    /// 1, from a client to the helper.
    Deposit,
    /// 2, from a client to the leader.
    Register,
    /// 3, from a client to the leader.
    Write,
    /// 4, from a client to the leader.
    Read,
    /// 5, from a client to either server.
    Proof,
    /// 6, from the helper to a client.
    Held,
    /// 7, from the leader to a client.
    Challenge,
    /// 8, from the leader to a client.
    Done,
    /// 9, from a server to a client.
    Refused,
    /// 10, from the leader to the helper.
    LinkRegister,
    /// 11, from the leader to the helper.
    LinkBegin,
    /// 12, from the leader to the helper.
    LinkAudit,
    /// 13, from the leader to the helper.
    LinkSettle,
    /// 14, from the leader to the helper.
    LinkRead,
    /// 15, from the helper to the leader.
    LinkReply,
    /// 16, from a client to the leader.
    Retire,
    /// 17, from the leader to the helper.
    LinkRetire,
    /// 18, from the helper to the leader.
    LinkBegun,
}
