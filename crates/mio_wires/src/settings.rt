//! What connections are opened with.
use std::net::SocketAddr;

/// The other server of the pair.
#[derive(Clone, Copy, Debug, PartialEq, Eq)]
pub enum OtherServer {
    /// It dials this one at this address.
    Listen(SocketAddr),
    /// This one dials it at this address.
    Dial(SocketAddr),
}

/// The addresses at which clients and operators come, the other server, how many places there are, the other
/// server's among them, and how many frames may be on their way to the other server at once.
#[derive(Clone, Copy, Debug, PartialEq, Eq)]
pub struct WiresSettings {
    pub clients: SocketAddr,
    pub status: Option<SocketAddr>,
    pub other: OtherServer,
    pub places: usize,
    pub outstanding: usize,
}
