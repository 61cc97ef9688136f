//! A frame and its body, one variant a kind.
use express_words::{Closing, Openings, ProofShare, Refusal};

/// The most bytes that a frame has: a message of the greatest width, as both shares.
pub const FRAME_MAX: usize = 8213;

/// One frame. Its slices lie in the bytes that it was read from.
#[derive(Clone, Copy, Debug, PartialEq, Eq)]
pub struct Frame<'a> {
    /// The client's lane; 0 in a refusal of bytes that aren't one frame, or one of a kind or a width that isn't taken.
    pub lane: u16,
    /// The number of the client's request, from 1; 0 in such a refusal.
    pub serial: u32,
    /// The number of the leader's command, from 1; 0 between clients and servers.
    pub link: u64,
    /// What the frame says.
    pub body: Body<'a>,
}

/// What a frame says, one variant a kind, and for a finished request one for each outcome.
#[derive(Clone, Copy, Debug, PartialEq, Eq)]
pub enum Body<'a> {
    /// What the helper is to hold for the request that follows.
    Deposit(DepositBody),
    /// Asks for a box at this address, with the leader's key.
    Register { address: u128, key: [u8; 32] },
    /// A write: the leader's root, and the public part that both servers use.
    Write { root: u128, part: &'a [u8] },
    /// Asks for what a box holds, with the leader's token.
    Read { box_number: u32, token: u128 },
    /// A server's share of the proof of a write.
    Proof(ProofShare),
    /// The helper holds the deposit, or the proof.
    Held { proof: bool },
    /// The key of the audit's challenges.
    Challenge { ckey: [u8; 32] },
    /// Done: the box is registered.
    Registered { box_number: u32 },
    /// Done: the write is accepted.
    Accepted,
    /// Done: what the box held, as a masked share of each server, of one width.
    Message { zero: &'a [u8], one: &'a [u8] },
    /// The request is refused.
    Refused(Refusal),
    /// The helper is to register this address.
    LinkRegister { address: u128 },
    /// The helper is to begin a write: the leader's draw, and the public part.
    LinkBegin { ckey: [u8; 32], part: &'a [u8] },
    /// The helper is to audit at this point; the leader's openings.
    LinkAudit { sigma: u128, opened: Openings },
    /// The helper is to settle; the leader's closing.
    LinkSettle(Closing),
    /// The helper is to read this box.
    LinkRead { box_number: u32 },
    /// What the helper answers to a command.
    LinkReply(ReplyBody<'a>),
    /// Asks for what a box holds, for the last time.
    Retire { box_number: u32, token: u128 },
    /// The helper is to read this box for the last time.
    LinkRetire { box_number: u32 },
    /// The helper has begun a write over so many boxes; its draw.
    LinkBegun { count: u32, draw: [u8; 32] },
}

/// What a client deposits with the helper.
#[derive(Clone, Copy, Debug, PartialEq, Eq)]
pub enum DepositBody {
    /// 1: the helper's key of a box.
    Register([u8; 32]),
    /// 2: the helper's root of a write.
    Write(u128),
    /// 3: the helper's token of a read.
    Read(u128),
}

/// What the helper answers to a command.
#[derive(Clone, Copy, Debug, PartialEq, Eq)]
pub enum ReplyBody<'a> {
    /// 1: the box.
    Registered(u32),
    /// 2: the number of boxes. No server makes or takes one.
    Begun(u32),
    /// 3: the helper's openings and closing.
    Audited(Openings, Closing),
    /// 4: the helper's judge accepts the write.
    Accepted,
    /// 5: the helper's judge rejects the write.
    Rejected,
    /// 6: the helper's masked share of a message.
    Masked(&'a [u8]),
    /// 7: the command is refused.
    Refused(Refusal),
}
