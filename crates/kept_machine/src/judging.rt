//! What is wrong with the records on a disk, found without memory.
ghost use Rattle.std.specs.Prelude.{◌≡◌, ◌≤◌, ◌^◌, ℕ, List};
ghost use Rattle.node_journal.specs.Disk.{IsUntouched};
ghost use Rattle.node_journal.specs.Records.{content, IsUndamaged};
ghost use Rattle.kept_machine.specs.Faults.{OnForeign, OnDamaged, OnNoMemory, IsOfReopen, CountsFault};
ghost use Rattle.kept_machine.specs.Kept.{HoldsWhole, IsDamagedAt, IsSoundFirst};
ghost use Rattle.kept_machine.specs.Machines.{IsForeign};
ghost use Rattle.kept_machine.specs.Replays.{IsReading, IsNoRecord, EndsWith, EndsDamaged, RecordsToEnd};

use crate::fault::KeepFault;
use crate::machine::Machine;
use crate::reading::{first_record, next_record};
use node_journal::{Disk, Journal, RECORD_MAX};

// What is wrong with the records behind the opening; NoMemory where nothing is.
fn judge_records<M: Machine, D: Disk>(journal: &mut Journal, disk: &mut D) -> KeepFault
    requires reading { IsReading journal.old.limit journal.old (D.disk disk.old) }
    requires behind { 1 ≤ journal.old.end }
    requires limit { journal.old.limit ≤ 2 ^ 62 }
    ensures foreign { OnForeign result (λ n.
        EndsWith M.rules (IsNoRecord M.rules) n journal.old.end (D.disk disk.old).reads) }
    ensures damaged { OnDamaged result (λ n.
        EndsDamaged M.rules journal.old.limit n journal.old.end (D.disk disk.old).reads) }
    ensures whole { OnNoMemory result (RecordsToEnd M.rules journal.old.end (D.disk disk.old).reads) }
    ensures undamaged { OnNoMemory result ((c : List ℕ) → (D.disk disk.old).reads c
        → IsUndamaged journal.old.limit 0 c) }
    ensures cause { IsOfReopen result }
    ensures counts { CountsFault (D.Counted.seen disk.old).faults (D.Counted.seen disk.new).faults result }
    ensures untouched { IsUntouched (D.disk disk.old) (D.disk disk.new) }
{
    let mut room = [0; RECORD_MAX];
    let mut number = 1;
    loop {
        match next_record::<M, D>(journal, disk, &mut room, number) {
            Ok(Some(_)) => number += 1,
            Ok(None) => return KeepFault::NoMemory,
            Err(fault) => return fault,
        }
    }
}

/// Why the records on a disk give no machine where no memory is found for it: what is wrong with them, or else
/// just that.
pub(crate) fn judge<M: Machine, D: Disk>(disk: &mut D, limit: u64) -> KeepFault
    requires limit { limit ≤ 2 ^ 62 }
    ensures foreign { OnForeign result (λ n. (c : List ℕ) → (D.disk disk.old).reads c
        → IsForeign M.rules n (content c)) }
    ensures foreign_first { OnForeign result (λ n. n ≡ 0 → IsSoundFirst limit (D.disk disk.old).reads) }
    ensures damaged { OnDamaged result (λ n. (c : List ℕ) → (D.disk disk.old).reads c
        → IsDamagedAt M.rules limit n c) }
    ensures never_damaged { OnDamaged result (λ n. (c : List ℕ) → (D.disk disk.old).reads c
        → IsUndamaged limit 0 c → ⊥) }
    ensures no_memory { OnNoMemory result (HoldsWhole M.rules limit (D.disk disk.old).reads) }
    ensures cause { IsOfReopen result }
    ensures untouched { IsUntouched (D.disk disk.old) (D.disk disk.new) }
    ensures counts { CountsFault (D.Counted.seen disk.old).faults (D.Counted.seen disk.new).faults result }
{
    let mut journal = match Journal::open(disk, limit) {
        Ok(journal) => journal,
        Err(fault) => return KeepFault::Journal(fault),
    };
    let mut room = [0; RECORD_MAX];
    match first_record::<M, D>(&mut journal, disk, &mut room) {
        Ok(_) => judge_records::<M, D>(&mut journal, disk),
        Err(fault) => fault,
    }
}
