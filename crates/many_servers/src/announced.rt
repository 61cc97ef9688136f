//! Leases as the leader announces them.
ghost use Rattle.std.specs.Prelude.{◌≡◌, IsTrue};
ghost use Rattle.many_servers.specs.Announced.{announced_in, announced_record, is_above, is_next};

use lane_gate::{LaneGate, NOTE_LEN, Note, TicketHash};
use lane_leases::Announced;

/// The record of a lease for the helper's log.
pub fn announced_record(lease: &Announced) -> [u8; NOTE_LEN]
    ensures { result ≡ announced_record lease.now }
{
    let note = Note::Lease {
        lane: lease.lane,
        serial: lease.serial,
        hash: lease.hash,
    };
    note.record()
}

/// The lease that a record is, by its tag and its length.
pub fn announced_in(bytes: &[u8]) -> Option<Announced>
    ensures { result ≡ announced_in bytes.now }
{
    let [19, l0, l1, s0, s1, s2, s3, hash @ ..] = bytes else {
        return None;
    };
    if hash.len() != 32 {
        return None;
    }
    let mut digest = [0; 32];
    digest.copy_from_slice(hash);
    Some(Announced {
        lane: u16::from_be_bytes([*l0, *l1]),
        serial: u32::from_be_bytes([*s0, *s1, *s2, *s3]),
        hash: TicketHash(digest),
    })
}

fn is_above(last: Option<u32>, serial: u32) -> bool
    ensures { result ≡ is_above last serial }
{
    match last {
        Some(last) => last < serial,
        None => false,
    }
}

/// Whether a lease is the next of its lane, which is a strangers'.
pub(crate) fn is_next(gate: &LaneGate, lease: &Announced) -> bool
    ensures { result ≡ is_next gate.now lease.now }
{
    is_above(gate.row(lease.lane).holder.last_serial(), lease.serial)
}
