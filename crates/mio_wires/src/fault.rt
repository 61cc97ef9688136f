//! Why no connections can be had.
ghost use Rattle.mio_wires.specs.Openings.{IsOfSystem};

use many_words::Door;
use std::alloc::AllocError;
use std::error::Error;
use std::io::ErrorKind;
use std::net::SocketAddr;
use std::{fmt, io};

/// Why a server's connections can't be opened.
#[derive(Clone, Copy, Debug, PartialEq, Eq)]
pub enum WiresFault {
    /// It can't listen at the address of a door, as where another program does or it isn't permitted.
    Door(Door, SocketAddr, ErrorKind),
    /// The system gives no clock, or nothing that waits for connections.
    System(ErrorKind),
    /// Memory is wanting.
    OutOfMemory,
}

// Who comes through a door.
fn guests_of(door: Door) -> &'static str {
    match door {
        Door::Clients => "clients",
        Door::Status => "operators",
        Door::Link | Door::Dialled => "the other server",
    }
}

impl WiresFault {
    /// The system failed so.
    pub(crate) fn of_system(error: io::Error) -> WiresFault
        ensures { IsOfSystem result }
    {
        WiresFault::System(error.kind())
    }
}

impl fmt::Display for WiresFault {
    fn fmt<W: fmt::Write>(&self, f: &mut fmt::Formatter<W>) -> fmt::Result {
        match self {
            WiresFault::Door(door, at, why) => {
                write!(f, "can't listen at {at} for {}: {why}", guests_of(*door))
            }
            WiresFault::System(why) => write!(f, "can't wait for connections: {why}"),
            WiresFault::OutOfMemory => write!(f, "out of memory"),
        }
    }
}

impl Error for WiresFault {}

impl From<AllocError> for WiresFault {
    ghost use Rattle.std.specs.Prelude.{◌≡◌};
    ghost use Rattle.mio_wires.specs.declared.fault.WiresFault.TheVariants.{OutOfMemory};

    ghost from_gives = { λ _ fault. fault ≡ OutOfMemory };

    fn from(_error: AllocError) -> WiresFault {
        WiresFault::OutOfMemory
    }
}
