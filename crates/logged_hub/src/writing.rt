//! The records of frames, from a batch to a journal.
ghost use Rattle.std.specs.Prelude.{◌≡◌, ◌⊎◌, [], List, ℕ, None, Some, MatchResult, OnOk, OnErr, IfErr, IsOk};
ghost use Rattle.many_words.specs.Events.{records_of};
ghost use Rattle.node_journal.specs.Batches.{AppendedAll, LeavesAllOrNone, longer_by_all};
ghost use Rattle.logged_hub.specs.Logs.{Counts, IsFaultOf};
ghost use Rattle.logged_hub.specs.State.{IsReady};

use crate::fault::LogFault;
use crate::filling::fill;
use many_words::Entry;
use node_journal::{Batch, Disk, Journal};

/// Appends the records of these frames together. Where none has one, nothing is asked of the disk.
pub(crate) fn write_all<D: Disk>(
    batch: &mut Batch,
    journal: &mut Journal,
    disk: &mut D,
    entries: &[Entry],
) -> Result<(), LogFault>
    requires { IsReady journal.old (D.disk disk.old) }
    ensures kept { OnOk result ((c : List ℕ) → (D.disk disk.new).reads c
        → AppendedAll (D.disk disk.old).reads (records_of entries.now) c) }
    ensures longer { OnOk result (journal.new ≡ longer_by_all (records_of entries.now) journal.old) }
    ensures ready { OnOk result (IsReady journal.new (D.disk disk.new)) }
    ensures limit { journal.new.limit ≡ journal.old.limit }
    ensures nothing { records_of entries.now ≡ [] → IsOk result × (disk.new ≡ disk.old) }
    ensures fault { IfErr result (IsFaultOf batch.old.room journal.old (records_of entries.now)) }
    ensures counts { let counts = Counts (D.Counted.seen disk.old).faults (D.Counted.seen disk.new).faults in
        MatchResult result (λ _. counts None) (λ fault. counts (Some fault)) }
    ensures room { batch.new.room ≡ batch.old.room }
    ensures batch { OnErr result ((disk.new ≡ disk.old) ⊎ (batch.new.records ≡ records_of entries.now)) }
    ensures any_moment { LeavesAllOrNone journal.old.limit (D.disk disk.old) (D.disk disk.new)
        (records_of entries.now) }
{
    batch.clear();
    fill(batch, entries)?;
    if batch.is_empty() {
        return Ok(());
    }
    match journal.append_all(disk, batch) {
        Ok(()) => Ok(()),
        Err(fault) => Err(LogFault::Journal(fault)),
    }
}
