//! Why what is kept isn't made, or takes no step.
ghost use Rattle.std.specs.Prelude.{◌≡◌, Some};
ghost use Rattle.kept_machine.specs.Texts.{fault_text};

use express_words::NoMemory;
use node_journal::JournalFault;
use std::fmt;

/// Why what is kept isn't made, or takes no step.
#[derive(Clone, Copy, Debug, PartialEq, Eq)]
pub enum KeepFault {
    /// A call of the journal failed.
    Journal(JournalFault),
    /// No memory was found for it.
    NoMemory,
    /// The record of this number, counted from 0, isn't of the form, or is record 0 and missing.
    Foreign(u64),
}

impl fmt::Display for KeepFault {
    ghost output = { λ fault. Some (fault_text fault) };

    fn fmt<W: fmt::Write>(&self, f: &mut fmt::Formatter<W>) -> fmt::Result {
        match self {
            KeepFault::Journal(fault) => write!(f, "{fault}"),
            KeepFault::NoMemory => write!(f, "{}", NoMemory),
            KeepFault::Foreign(number) => write!(f, "journal foreign {number}"),
        }
    }
}
