//! Why a call of the log fails.
ghost use Rattle.std.specs.Prelude.{Some};
ghost use Rattle.logged_hub.specs.Texts.{fault_text};

use node_journal::{BatchFull, JournalFault};
use std::fmt;

/// Why a call of the log fails.
#[derive(Clone, Copy, Debug, PartialEq, Eq)]
pub enum LogFault {
    /// A record has no byte, or more than 8,214.
    WrongSize,
    /// The batch has no room for all records.
    BatchFull,
    /// A call of the journal failed.
    Journal(JournalFault),
}

impl fmt::Display for LogFault {
    ghost output = { λ fault. Some (fault_text fault) };

    fn fmt<W: fmt::Write>(&self, f: &mut fmt::Formatter<W>) -> fmt::Result {
        match self {
            LogFault::WrongSize => f.write_str("record of a wrong size"),
            LogFault::BatchFull => write!(f, "{}", BatchFull),
            LogFault::Journal(fault) => write!(f, "{fault}"),
        }
    }
}
