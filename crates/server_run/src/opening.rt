//! A machine is opened from its log, or with a new one.
ghost use Rattle.std.specs.Prelude.{◌≡◌, IfOk, false, length};
ghost use Rattle.kept_machine.specs.Kept.{Holds, Stands};
ghost use Rattle.logged_hub.specs.State.{IsReady};
ghost use Rattle.node_journal.specs.Records.{IsSized};

use kept_machine::{KeepFault, Kept, Machine};
use logged_hub::read_records;
use many_wires::RecordLog;
use node_journal::{Disk, Journal, JournalFault};
use std::alloc::Global;

/// So many bytes of its disk a server's log uses at most.
pub const LOG_LIMIT: u64 = 1 << 30;

/// A machine as its log gives it, and the journal at its end on the disk.
#[derive(Drop)]
pub struct OpenLog<M: Machine, D: Disk> {
    pub machine: M,
    pub journal: Journal,
    pub disk: D,
    /// The records, which only proofs read.
    pub held: RecordLog,
    /// How many they are.
    pub count: u64,
}

// The machine of a disk with no byte, whose log begins with this record, or else that of the log that stands there.
fn keep<M: Machine + Drop, D: Disk + Drop>(
    alloc: Global,
    first: &[u8],
    disk: D,
) -> Result<Kept<M, D>, KeepFault>
    requires opening { M.rules.is_opening first.now }
    requires sized { IsSized first.now }
    ensures open { IfOk result (λ k. k.journal.closed ≡ false) }
    ensures limit { IfOk result (λ k. k.journal.limit ≡ LOG_LIMIT) }
{
    let disk = match Kept::create(alloc, first, disk, LOG_LIMIT) {
        Ok(kept) => return Ok(kept),
        Err((KeepFault::Journal(JournalFault::NotEmpty), disk)) => disk,
        Err((fault, _)) => return Err(fault),
    };
    match Kept::reopen(alloc, disk, LOG_LIMIT) {
        Ok(kept) => Ok(kept),
        Err((fault, _)) => Err(fault),
    }
}

/// Opens a machine of its log: on a disk with no byte a new one, whose log begins with this record, and else the one of
/// the log that stands there, which may have another opening.
pub fn open_log<M: Machine + Drop, D: Disk + Drop>(
    alloc: Global,
    first: &[u8],
    disk: D,
) -> Result<OpenLog<M, D>, KeepFault>
    requires opening { M.rules.is_opening first.now }
    requires sized { IsSized first.now }
    ensures sound { IfOk result (λ log. M.rules.is_sound log.machine) }
    ensures stands { IfOk result (λ log. Stands M.rules log.machine (D.disk log.disk).reads) }
    ensures ready { IfOk result (λ log. IsReady log.journal (D.disk log.disk)) }
    ensures held { IfOk result (λ log. Holds log.held (D.disk log.disk).reads) }
    ensures count { IfOk result (λ log. log.count ≡ length log.held) }
{
    let parts = keep(alloc, first, disk)?.into_parts();
    let mut disk = parts.disk;
    let held = read_records(&mut disk, LOG_LIMIT).map_err(KeepFault::Journal)?;
    Ok(OpenLog {
        machine: parts.machine,
        journal: parts.journal,
        disk,
        held: held.log,
        count: held.count,
    })
}
