//! Why a line has no answer.
use express_words::NoMemory;
use kept_machine::KeepFault;
use node_journal::JournalFault;
use std::alloc::{AllocError, AllocFailed};
use std::fmt;

/// Why a line has no answer.
#[derive(Clone, Copy)]
pub(crate) enum Fault {
    /// It is none of the lines that are known, or stands in a place where it makes no sense.
    Unknown,
    /// The recording has told no seed of this client.
    NoClient(u16),
    /// A call of a journal failed.
    Journal(JournalFault),
    /// The record of this number in a journal, counted from 0, isn't of the form, or is record 0 and missing.
    Foreign(u64),
    NoMemory,
}

/// A value, or why a line has no answer.
pub(crate) type Result<T> = std::result::Result<T, Fault>;

impl fmt::Display for Fault {
    // Of a journal that is full the end is told too.
    fn fmt<W: fmt::Write>(&self, f: &mut fmt::Formatter<W>) -> fmt::Result {
        match self {
            Fault::Unknown => f.write_str("no line that is known here"),
            Fault::NoClient(number) => write!(f, "no client {number}"),
            Fault::Journal(JournalFault::Full(end)) => write!(f, "journal full {end}"),
            Fault::Journal(fault) => write!(f, "{fault}"),
            Fault::Foreign(number) => write!(f, "journal foreign {number}"),
            Fault::NoMemory => f.write_str("out of memory"),
        }
    }
}

impl From<JournalFault> for Fault {
    fn from(fault: JournalFault) -> Self {
        Fault::Journal(fault)
    }
}

impl From<KeepFault> for Fault {
    fn from(fault: KeepFault) -> Self {
        match fault {
            KeepFault::Journal(fault) => Fault::Journal(fault),
            KeepFault::NoMemory => Fault::NoMemory,
            KeepFault::Foreign(number) => Fault::Foreign(number),
        }
    }
}

impl From<NoMemory> for Fault {
    fn from(_: NoMemory) -> Self {
        Fault::NoMemory
    }
}

impl From<AllocError> for Fault {
    fn from(_: AllocError) -> Self {
        Fault::NoMemory
    }
}

impl<T: Drop> From<AllocFailed<T>> for Fault {
    fn from(_: AllocFailed<T>) -> Self {
        Fault::NoMemory
    }
}
