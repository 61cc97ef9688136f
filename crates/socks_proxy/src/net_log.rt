//! The calls that were made on a net, which only proofs read.
use express_outside::History;

/// A call on a net: a listen and a dial with their text, and whether each failed; or a close.
#[derive(Drop)]
pub enum Entry {
    Listened(History<u8>, bool),
    Accepted(bool),
    Dialled(History<u8>, bool),
    Closed,
}
