//! Whose a lane is.
ghost use Rattle.std.specs.Prelude.{◌≡◌, ◌↔◌, IsTrue};
ghost use Rattle.lane_gate.specs.Holders.{FitsTicket, last_serial, has_request, is_owners};

use crate::ticket::TicketHash;

/// The last lease of a lane: its serial, the hash of its ticket, and its number among all leases, from 1.
#[derive(Clone, Copy)]
pub struct Lease {
    pub serial: u32,
    pub hash: TicketHash,
    pub number: u64,
}

/// Whose a lane is, and by which ticket.
#[derive(Clone, Copy)]
pub enum Holder {
    /// An owner's, which has no key yet.
    Keyless,
    /// An owner's, by the hash of its key.
    Owner(TicketHash),
    /// The strangers', and was never leased.
    Free,
    /// The strangers', by its last lease.
    Leased(Lease),
}

impl Holder {
    /// Whether a frame of this serial may come with the ticket of this hash: an owner's with its key, a
    /// stranger's with the ticket of the lane's last lease, and of that lease's serial alone.
    pub fn fits(&self, serial: u32, hash: &TicketHash) -> bool
        ensures { IsTrue result ↔ FitsTicket self.now serial hash.now }
    {
        match self {
            Holder::Keyless | Holder::Free => false,
            Holder::Owner(key) => key.is(hash),
            Holder::Leased(lease) => {
                let same = lease.hash.is(hash);
                same && serial == lease.serial
            }
        }
    }

    /// The serial of a strangers' lane that was leased last, 0 where none was; None of an owner's.
    pub fn last_serial(&self) -> Option<u32>
        ensures { result ≡ last_serial self.now }
    {
        match self {
            Holder::Keyless | Holder::Owner(_) => None,
            Holder::Free => Some(0),
            Holder::Leased(lease) => Some(lease.serial),
        }
    }

    // Whether somebody may send frames of this serial.
    pub(crate) fn has_request(&self, serial: u32) -> bool
        ensures { result ≡ has_request self.now serial }
    {
        match self {
            Holder::Keyless | Holder::Free => false,
            Holder::Owner(_) => true,
            Holder::Leased(lease) => serial == lease.serial,
        }
    }

    // Whether it is an owner's lane.
    pub(crate) fn is_owners(&self) -> bool
        ensures { result ≡ is_owners self.now }
    {
        match self {
            Holder::Keyless | Holder::Owner(_) => true,
            Holder::Free | Holder::Leased(_) => false,
        }
    }
}
