//! How a run ends.
ghost use Rattle.std.specs.Prelude.{◌≡◌};
ghost use Rattle.express_cli.specs.Ends.{status_of};

/// How a run ends.
#[derive(Clone, Copy, Debug, PartialEq, Eq)]
pub enum End {
    /// All is done and written.
    Done,
    /// The words ask for nothing that the program does.
    Usage,
    /// This line of the input, counted from 1, is the first bad one.
    BadLine(u32),
    /// A key of the input, which is settings, is missing or wrong.
    BadKey,
    ReadFault,
    WriteFault,
    /// The net failed.
    NetFault,
    OutOfMemory,
    /// The input has more than 67,108,864 bytes.
    TooLong,
    /// A call on a journal's disk failed.
    DiskFault,
    /// The journal has no room for the next frame.
    JournalFull,
    /// The journal's record at this offset, in bytes, is damaged.
    JournalDamaged(u64),
    /// The journal's record of this number, counted from 0, isn't one that a server writes.
    JournalForeign(u64),
}

/// The status that the program ends with.
pub fn status_of(end: End) -> u8
    ensures { result ≡ status_of end }
{
    match end {
        End::Done => 0,
        End::Usage => 2,
        End::BadLine(_) => 3,
        End::BadKey => 3,
        End::ReadFault => 4,
        End::WriteFault => 5,
        End::NetFault => 6,
        End::OutOfMemory => 7,
        End::TooLong => 8,
        End::DiskFault => 10,
        End::JournalFull => 11,
        End::JournalDamaged(_) => 12,
        End::JournalForeign(_) => 13,
    }
}
