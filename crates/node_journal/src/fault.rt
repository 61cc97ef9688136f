//! Why a call on a journal fails.
ghost use Rattle.node_journal.specs.Texts.{fault_text};
ghost use Rattle.std.specs.Prelude.{Some};

use std::fmt;

/// The causes, in the order in which they are judged; but a call on the disk that fails gives `Disk` at once.
#[derive(Clone, Copy, Debug, PartialEq, Eq)]
pub enum JournalFault {
    /// An earlier call of this journal answered `Disk`.
    Closed,
    /// The disk has a byte already.
    NotEmpty,
    /// The record and a closed gate behind it pass the limit. The journal's end, in bytes.
    Full(u64),
    /// A call on the disk failed. The disk's count of faults.
    Disk(u64),
    /// The gate at this offset, in bytes, is open, and no whole record within the limit stands behind it.
    Damaged(u64),
}

impl fmt::Display for JournalFault {
    ghost output = { λ fault. Some (fault_text fault) };

    fn fmt<W: fmt::Write>(&self, f: &mut fmt::Formatter<W>) -> fmt::Result {
        match self {
            JournalFault::Closed => f.write_str("journal closed"),
            JournalFault::NotEmpty => f.write_str("journal not empty"),
            JournalFault::Full(_) => f.write_str("journal full"),
            JournalFault::Disk(_) => f.write_str("disk fault"),
            JournalFault::Damaged(at) => write!(f, "journal damaged {at}"),
        }
    }
}
