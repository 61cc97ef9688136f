//! Why a text isn't read.
ghost use Rattle.std.specs.Prelude.{◌≡◌, Some};
ghost use Rattle.schedule_text.specs.FaultText.{fault_text};
ghost use Rattle.schedule_text.specs.declared.fault.ReadFault.TheVariants.{NoMemory};

use std::alloc::AllocFailed;
use std::fmt;

/// Why a text isn't read as a schedule.
#[derive(Clone, Copy, Debug, PartialEq, Eq)]
pub enum ReadFault {
    /// The first line that isn't of the grammar, counted from 1.
    BadLine(u32),
    /// No memory was found for what is read.
    NoMemory,
}

/// The words that are printed of it.
impl fmt::Display for ReadFault {
    ghost output = { λ e. Some (fault_text e) };

    fn fmt<W: fmt::Write>(&self, f: &mut fmt::Formatter<W>) -> fmt::Result {
        match self {
            ReadFault::BadLine(line) => write!(f, "bad line {line}"),
            ReadFault::NoMemory => write!(f, "out of memory"),
        }
    }
}

impl<T: Drop> From<AllocFailed<T>> for ReadFault {
    ghost from_gives = { λ _ e. e ≡ NoMemory };

    fn from(_: AllocFailed<T>) -> Self {
        ReadFault::NoMemory
    }
}

impl From<express_words::NoMemory> for ReadFault {
    ghost from_gives = { λ _ e. e ≡ NoMemory };

    fn from(_: express_words::NoMemory) -> Self {
        ReadFault::NoMemory
    }
}
