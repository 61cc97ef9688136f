//! What is chosen of a write, where it goes, and what both servers audit it under.
use express_words::{Closing, List, Openings, ProofShare};

/// What a client draws for a write, where the expansions of one server, the viewer, are honest, and those of
/// the other are any pairs and any bytes: what the viewer takes a write for if it can't tell the other's
/// expansions from drawn ones.
#[derive(Drop)]
pub struct IdealChoice {
    /// The server that looks: 0 or 1.
    pub viewer: u8,
    /// The viewer's root.
    pub own_root: u128,
    /// The other server's root.
    pub other_root: u128,
    /// The other server's raw pairs of children on its path to the target, from the root down: 128.
    pub levels: List<(u128, u128)>,
    /// The other server's last block, as many bytes as a message has.
    pub last_block: List<u8>,
    /// The words of the proof: u of server 0 and 1, v of both, server 0's h from the constant upwards, a of
    /// both, b of both, and server 0's c.
    pub words: [u128; 14],
}

/// Where a write goes, and what it puts there.
#[derive(Clone, Copy, Debug, PartialEq, Eq)]
pub struct Aim<'a> {
    pub target: u128,
    pub message: &'a [u8],
}

/// What both servers audit a write under: the registered addresses, the key of the challenges, and the
/// proof's point.
#[derive(Clone, Copy, Debug, PartialEq, Eq)]
pub struct Game<'a> {
    pub addresses: &'a [u128],
    pub ckey: [u8; 32],
    pub sigma: u128,
}

/// What the viewer has of a write: from the client its root, the public part and its share of the proof; from
/// the other server what that one opens and closes.
#[derive(Drop)]
pub struct View {
    pub own_root: u128,
    /// The bytes of the public part.
    pub public: List<u8>,
    pub proof: ProofShare,
    pub opened: Openings,
    pub closed: Closing,
}
