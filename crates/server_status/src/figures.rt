//! What an operator is told of a server's state.
ghost use Rattle.std.specs.Prelude.{◌≡◌};
ghost use Rattle.server_status.specs.Figures.{figures_of, last_lease, lease_number};

use lane_gate::{GateRow, Holder, LaneGate};

/// Counts of a server's state.
#[derive(Clone, Copy, Debug, PartialEq, Eq)]
pub struct Figures {
    /// Boxes that stand.
    pub boxes: u64,
    /// Lanes, owners' and strangers'.
    pub lanes: u64,
    /// Leases that were given since the log began.
    pub leases: u64,
    /// Commands that the other server hasn't answered yet.
    pub outstanding: u64,
}

/// What has figures.
pub trait Figured {
    ghost use Rattle.server_status.specs.declared.figures.Figures.{Figures};

    /// Its figures.
    ghost figures_in: { Self → Figures };

    /// Counts of its state.
    fn figures(&self) -> Figures
        ensures { result ≡ figures_in self.now };
}

// The number of a lane's lease among all, from 1; 0 where it has none.
fn lease_number(row: &GateRow) -> u64
    ensures { result ≡ lease_number row.now }
{
    match row.holder {
        Holder::Leased(lease) => lease.number,
        Holder::Keyless | Holder::Owner(_) | Holder::Free => 0,
    }
}

// The highest number of a lease: of at most 256 rows, one after another.
fn last_lease(rows: &[GateRow]) -> u64
    ensures { result ≡ last_lease rows.now }
{
    match rows {
        [] => 0,
        [row, rest @ ..] => lease_number(row).max(last_lease(rest)),
    }
}

/// The figures of a server with this gate, so many boxes, and so many commands that are outstanding.
pub fn figures_of(gate: &LaneGate, boxes: u32, outstanding: usize) -> Figures
    ensures { result ≡ figures_of gate.now boxes outstanding }
{
    Figures {
        boxes: u64::from(boxes),
        lanes: gate.rows().len() as u64,
        leases: last_lease(gate.rows()),
        outstanding: outstanding as u64,
    }
}
