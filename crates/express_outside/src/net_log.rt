//! The calls that were made on a net, which only proofs read.
use crate::adapter::Adapter;
use crate::history::History;
use crate::patience::Timed;

/// A connection of a net over sockets.
pub type Line<S> = Adapter<Timed<S>>;

/// A call on a net: a listen and a dial with their text, and whether each failed; or a close.
#[derive(Drop)]
pub enum Entry {
    Listened(History<u8>, bool),
    Accepted(bool),
    Dialled(History<u8>, bool),
    Closed,
}
