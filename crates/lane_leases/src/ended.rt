//! How a stranger's request ended.
ghost use Rattle.lane_leases.specs.Ends.{IsEndOf, IsLater};

use circular_buffer::HeapCircularBuffer;
use lane_gate::TicketHash;

/// How many ends are remembered.
pub const ENDS: usize = 4096;

/// What became of a stranger's letter.
#[derive(Clone, Copy, Debug, PartialEq, Eq)]
pub enum End {
    /// It was written.
    Written,
    /// It was written nowhere, and won't be.
    NotWritten,
}

/// The end of the request of the ticket of this hash.
#[derive(Clone, Copy)]
pub struct Ended {
    pub hash: TicketHash,
    pub end: End,
}

// The end that was found, or that of this one where it is of this ticket.
fn later_of(found: Option<End>, ended: Option<Ended>, hash: &TicketHash) -> Option<End>
    ensures { IsLater found ended hash.now result }
{
    match ended {
        Some(ended) => {
            if ended.hash.is(hash) {
                Some(ended.end)
            } else {
                found
            }
        }
        None => found,
    }
}

/// How the request of this ticket ended, if that is among these. All are looked at, wherever it stands.
pub(crate) fn end_of(ends: &HeapCircularBuffer<Ended>, hash: &TicketHash) -> Option<End>
    ensures { IsEndOf ends.now.items hash.now result }
{
    let mut found = None;
    for place in 0..ends.len() {
        found = later_of(found, ends.get(place).copied(), hash);
    }
    found
}
