//! A box of a client's own.

/// A box of the client's own: its number, and the serial of the request that registered it.
#[derive(Clone, Copy, Debug, PartialEq, Eq)]
pub struct OwnedBox {
    pub number: u32,
    pub serial: u32,
}
