//! What stops a drill.
ghost use Rattle.std.specs.Prelude.{◌≡◌};
ghost use Rattle.express_drill.specs.Texts.{fault_status};

use std::alloc::{AllocError, AllocFailed};
use std::io::ErrorKind;
use std::{fmt, io};

/// Why a drill isn't carried out to its verdict.
#[derive(Clone, Copy, Debug, PartialEq, Eq)]
pub enum Fault {
    NoMemory,
    /// A program couldn't be started, read or waited for.
    NoProgram,
}

impl Fault {
    /// The status that the drill ends with.
    pub fn status(self) -> u8
        ensures { result ≡ fault_status self }
    {
        match self {
            Fault::NoMemory => 7,
            Fault::NoProgram => 9,
        }
    }
}

impl fmt::Display for Fault {
    fn fmt<W: fmt::Write>(&self, f: &mut fmt::Formatter<W>) -> fmt::Result {
        f.write_str(match self {
            Fault::NoMemory => "out of memory",
            Fault::NoProgram => "the program can't be started, read or waited for",
        })
    }
}

impl From<AllocError> for Fault {
    ghost use Rattle.express_drill.specs.declared.fault.Fault.TheVariants.{NoMemory};

    ghost from_gives = { λ _ fault. fault ≡ NoMemory };

    fn from(_error: AllocError) -> Self {
        Fault::NoMemory
    }
}

impl From<io::Error> for Fault {
    ghost use Rattle.std.specs.Prelude.{◌≡◌, ◌≢◌};
    ghost use Rattle.std.specs.IoError.{error_kind};
    ghost use Rattle.std.specs.declared.io.ErrorKind.TheVariants.{OutOfMemory};
    ghost use Rattle.express_drill.specs.declared.fault.Fault.TheVariants.{NoMemory, NoProgram};

    ghost from_gives = { λ error fault. (error_kind error ≡ OutOfMemory → fault ≡ NoMemory)
        × (error_kind error ≢ OutOfMemory → fault ≡ NoProgram) };

    fn from(error: io::Error) -> Self {
        if error.kind() == ErrorKind::OutOfMemory {
            Fault::NoMemory
        } else {
            Fault::NoProgram
        }
    }
}
