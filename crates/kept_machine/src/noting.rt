//! A record is on the disk before its step.
ghost use Rattle.std.specs.Prelude.{◌≡◌, true, false};
ghost use Rattle.node_journal.specs.Journal.{IsInPlace};
ghost use Rattle.node_journal.specs.Records.{IsSized};
ghost use Rattle.kept_machine.specs.Faults.{Counts};
ghost use Rattle.kept_machine.specs.Keeps.{Notes, kept_state};

use crate::fault::KeepFault;
use crate::keeping::KeptJournal;
use crate::machine::Machine;
use node_journal::Disk;
use std::alloc::Global;

/// Writes a record, and takes the memory that its step needs. What the journal won't write is told before
/// memory is asked for.
pub(crate) fn note<M: Machine, D: Disk>(
    alloc: Global,
    machine: &mut M,
    journal: &mut KeptJournal,
    disk: &mut D,
    bytes: &[u8],
) -> Result<(), KeepFault>
    requires is { M.rules.is_record bytes.now }
    requires sized { IsSized bytes.now }
    requires sound { M.rules.is_sound machine.old }
    requires ready { journal.old.ready ≡ true }
    requires in_place { journal.old.closed ≡ false → IsInPlace journal.old (D.disk disk.old) }
    ensures notes { Notes M.rules D.disk bytes.now (kept_state machine.old journal.old disk.old)
        (kept_state machine.new journal.new disk.new) result }
    ensures counts { Counts (D.Counted.seen disk.old).faults (D.Counted.seen disk.new).faults result }
    ensures sound { M.rules.is_sound machine.new }
    ensures ready { journal.new.ready ≡ true }
    ensures limit { journal.new.limit ≡ journal.old.limit }
    ensures in_place { journal.new.closed ≡ false → IsInPlace journal.new (D.disk disk.new) }
{
    if let Some(fault) = journal.fault_before(bytes) {
        return Err(KeepFault::Journal(fault));
    }
    if machine.take_memory(alloc, bytes).is_err() {
        return Err(KeepFault::NoMemory);
    }
    match journal.append(disk, bytes) {
        Ok(()) => Ok(()),
        Err(fault) => Err(KeepFault::Journal(fault)),
    }
}
