//! The records that a journal holds.
ghost use Rattle.std.specs.Prelude.{◌≡◌, ◌≤◌, ◌^◌, length, IfOk};
ghost use Rattle.kept_machine.specs.Kept.{Holds};
ghost use Rattle.node_journal.specs.Disk.{IsUntouched};
ghost use Rattle.node_journal.specs.Journal.{CountsDisk};

use many_wires::RecordLog;
use node_journal::{Disk, Journal, JournalFault, RECORD_MAX};

/// The records that a journal holds.
#[derive(Drop)]
pub struct HeldRecords {
    /// The records, which only proofs read.
    pub log: RecordLog,
    /// How many they are.
    pub count: u64,
}

/// Reads a journal to its end, and notes its records. It takes no memory.
pub fn read_records<D: Disk>(disk: &mut D, limit: u64) -> Result<HeldRecords, JournalFault>
    requires limit { limit ≤ 2 ^ 62 }
    ensures held { IfOk result (λ held. Holds held.log (D.disk disk.old).reads) }
    ensures count { IfOk result (λ held. held.count ≡ length held.log) }
    ensures untouched { IsUntouched (D.disk disk.old) (D.disk disk.new) }
    ensures counts { CountsDisk (D.Counted.seen disk.old).faults (D.Counted.seen disk.new).faults result }
{
    let mut journal = Journal::open(disk, limit)?;
    let mut room = [0; RECORD_MAX];
    let mut log = RecordLog::new();
    let mut count = 0;
    while let Some(length) = journal.next(disk, &mut room)? {
        log.note(&room[..length]);
        count += 1;
    }
    Ok(HeldRecords { log, count })
}
