//! Whether a frame of a lane is let in.
use crate::row::{Row, Want};

/// How a frame stands to the row of its lane.
#[derive(Clone, Copy, Debug, PartialEq, Eq)]
pub enum Gate {
    /// It opens a request that is newer than the row's.
    New,
    /// It belongs to the row's request.
    Same,
    /// It belongs to another request than the row's, which has this serial.
    Stale(u32),
    /// It doesn't fit the row's request, which is in this phase.
    Phase(u8),
}

ghost use Rattle.std.specs.Prelude.{◌≡◌};
ghost use Rattle.lane_table.specs.Gates.{closing_gate, opening_gate};

/// Judges a frame that opens a request. A serial that the row has already is let in again where it asks for the same.
pub fn opening(row: &Row, serial: u32, want: Want) -> Gate
    ensures { result ≡ opening_gate row.now serial want }
{
    if serial < row.serial {
        Gate::Stale(row.serial)
    } else if serial > row.serial {
        Gate::New
    } else if want == row.want {
        Gate::Same
    } else {
        Gate::Phase(row.phase)
    }
}

/// Judges a frame that goes on with a request. Only a write has such a frame.
pub fn closing(row: &Row, serial: u32) -> Gate
    ensures { result ≡ closing_gate row.now serial }
{
    if serial != row.serial {
        Gate::Stale(row.serial)
    } else if row.want != Want::Write {
        Gate::Phase(row.phase)
    } else {
        Gate::Same
    }
}
