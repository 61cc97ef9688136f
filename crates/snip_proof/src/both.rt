//! What both servers have of a write, server 0's part and server 1's.
use express_words::ProofShare;

/// Both servers' leaves, each at the registered addresses.
#[derive(Clone, Copy)]
pub struct WriteLeaves<'a> {
    pub zero: &'a [u128],
    pub one: &'a [u128],
}

/// Both servers' shares of a proof.
#[derive(Clone, Copy)]
pub struct ProofShares<'a> {
    pub zero: &'a ProofShare,
    pub one: &'a ProofShare,
}

/// Both servers' keys: their public part, and a root for each.
#[derive(Clone, Copy)]
pub struct WriteKeys<'a> {
    pub part: &'a [u8],
    pub root0: u128,
    pub root1: u128,
}
