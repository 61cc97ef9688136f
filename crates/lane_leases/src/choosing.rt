//! Which lane has rested longest.
ghost use Rattle.std.specs.Prelude.{◌≡◌, ◌≤◌, ◌<◌, ℕ, IfSome, IsNone, length};
ghost use Rattle.lane_gate.specs.Gates.{row_at};
ghost use Rattle.lane_leases.specs.Choosing.{longer_of};
ghost use Rattle.lane_leases.specs.Resting.{rested, HasRestedLongest, NoneRests};

use lane_gate::{GateRow, Holder};

// When a strangers' lane that has a serial left was leased last, by the number of that lease: 0 where it
// never was.
fn rested(row: &GateRow) -> Option<u64>
    ensures { result ≡ rested row.now }
{
    match &row.holder {
        Holder::Keyless | Holder::Owner(_) => None,
        Holder::Free => Some(0),
        Holder::Leased(lease) => {
            if lease.serial < u32::MAX {
                Some(lease.number)
            } else {
                None
            }
        }
    }
}

// A lane that rests, and since which lease.
#[derive(Clone, Copy)]
struct Resting {
    lane: u16,
    since: u64,
}

// The lane that was found, or this one where it rests, and longer.
fn longer_of(best: Option<Resting>, lane: u16, since: Option<u64>) -> Option<Resting>
    ensures { result ≡ longer_of best lane since }
{
    match (best, since) {
        (None, Some(since)) => Some(Resting { lane, since }),
        (Some(resting), Some(since)) if since < resting.since => Some(Resting { lane, since }),
        _ => best,
    }
}

/// The strangers' lane that has rested longest: the one whose last lease has the least number, and of those
/// that were never leased the first. A lane that has no serial left is passed over.
pub(crate) fn longest_rested(rows: &[GateRow]) -> Option<u16>
    requires { length rows.now ≤ 256 }
    ensures some { IfSome result (HasRestedLongest rows.now) }
    ensures none { IsNone result → NoneRests rows.now }
{
    let mut best: Option<Resting> = None;
    for place in 0..rows.len() {
        best = longer_of(best, place as u16, rested(&rows[place]));
    }
    match best {
        Some(resting) => Some(resting.lane),
        None => None,
    }
}
