//! Tickets, and the hashes by which a server knows them.
ghost use Rattle.std.specs.Prelude.{◌≡◌, ◌↔◌, IsTrue};
ghost use Rattle.lane_gate.specs.Tickets.{ticket_hash};

use crate::digest::is_same_digest;
use sha2::{Digest, Sha256};

/// Sixteen bytes that a client drew, or that its server's operator did. Each frame of the lane carries them.
#[derive(Clone, Copy)]
pub struct Ticket(pub [u8; 16]);

/// The SHA-256 digest of a ticket, of 32 bytes: all that a server keeps of one.
#[derive(Clone, Copy)]
pub struct TicketHash(pub [u8; 32]);

impl Ticket {
    /// Its hash.
    pub fn hash(&self) -> TicketHash
        ensures { result ≡ ticket_hash self.now }
    {
        let mut hasher = Sha256::new();
        hasher.update(self.0.as_slice());
        TicketHash(hasher.finalize())
    }
}

impl TicketHash {
    /// Whether it is this hash. All bytes are looked at, wherever they differ.
    pub fn is(&self, other: &TicketHash) -> bool
        ensures { IsTrue result ↔ (self.now ≡ other.now) }
    {
        is_same_digest(&self.0, &other.0)
    }
}
