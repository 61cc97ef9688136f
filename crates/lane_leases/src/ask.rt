//! What a stranger asks a lease with, and what the leader tells the helper of it.
use lane_gate::TicketHash;

/// The hashes of a stranger's two tickets: the leader's own, and the helper's.
#[derive(Clone, Copy)]
pub struct Ask {
    pub own: TicketHash,
    pub helper: TicketHash,
}

/// A lease as the helper is told of it: lane and serial, and the hash of the helper's ticket.
#[derive(Clone, Copy)]
pub struct Announced {
    pub lane: u16,
    pub serial: u32,
    pub hash: TicketHash,
}
