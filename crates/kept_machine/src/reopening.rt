//! What the records on a disk give.
ghost use Rattle.std.specs.Prelude.{◌≡◌, ◌≤◌, ◌^◌, ℕ, List, true, false, IfOk, IfErr};
ghost use Rattle.node_journal.specs.Disk.{IsUntouched};
ghost use Rattle.node_journal.specs.Records.{content, IsUndamaged};
ghost use Rattle.kept_machine.specs.Machines.{IsForeign};
ghost use Rattle.kept_machine.specs.Faults.{IfForeign, IfDamaged, OnNoMemory, IsOfReopen, Counts};
ghost use Rattle.kept_machine.specs.Replays.{IsReading};
ghost use Rattle.kept_machine.specs.Kept.{Stands, HoldsWhole, IsDamagedAt, IsSoundFirst};

use crate::fault::KeepFault;
use crate::judging::judge;
use crate::keeping::KeptJournal;
use crate::machine::Machine;
use crate::reading::first_record;
use crate::replaying::replay;
use node_journal::{Disk, Journal, RECORD_MAX};
use std::alloc::Global;

/// A machine, and the journal at its end.
#[derive(Drop)]
pub(crate) struct Found<M: Machine> {
    pub(crate) machine: M,
    pub(crate) journal: KeptJournal,
}

// The machine that the records on a disk give, where memory is found for it.
fn restore<M: Machine, D: Disk>(
    alloc: Global,
    disk: &mut D,
    limit: u64,
) -> Result<Found<M>, KeepFault>
    requires limit { limit ≤ 2 ^ 62 }
    ensures sound { IfOk result (λ f. M.rules.is_sound f.machine) }
    ensures stands { IfOk result (λ f. Stands M.rules f.machine (D.disk disk.old).reads) }
    ensures ready { IfOk result (λ f. f.journal.ready ≡ true) }
    ensures reading { IfOk result (λ f. IsReading limit f.journal (D.disk disk.new)) }
    ensures cause { IfErr result IsOfReopen }
    ensures foreign { IfForeign result (λ n. (c : List ℕ) → (D.disk disk.old).reads c
        → IsForeign M.rules n (content c)) }
    ensures foreign_first { IfForeign result (λ n. n ≡ 0 → IsSoundFirst limit (D.disk disk.old).reads) }
    ensures damaged { IfDamaged result (λ n. (c : List ℕ) → (D.disk disk.old).reads c
        → IsDamagedAt M.rules limit n c) }
    ensures never_damaged { IfDamaged result (λ n. (c : List ℕ) → (D.disk disk.old).reads c
        → IsUndamaged limit 0 c → ⊥) }
    ensures untouched { IsUntouched (D.disk disk.old) (D.disk disk.new) }
    ensures counts { Counts (D.Counted.seen disk.old).faults (D.Counted.seen disk.new).faults result }
{
    let mut journal = match Journal::open(disk, limit) {
        Ok(journal) => journal,
        Err(fault) => return Err(KeepFault::Journal(fault)),
    };
    let mut room = [0; RECORD_MAX];
    let len = match first_record::<M, D>(&mut journal, disk, &mut room) {
        Ok(len) => len,
        Err(fault) => return Err(fault),
    };
    let Ok(mut machine) = M::open(alloc, &room[..len]) else {
        return Err(KeepFault::NoMemory);
    };
    match replay(alloc, &mut journal, disk, &mut machine) {
        Ok(()) => Ok(Found {
            machine,
            journal: KeptJournal::of(journal, limit),
        }),
        Err(fault) => Err(fault),
    }
}

/// The machine that the records on a disk give. Where no memory is found for it the records are judged
/// without, so that what is wrong with them is told all the same.
pub(crate) fn find<M: Machine, D: Disk>(
    alloc: Global,
    disk: &mut D,
    limit: u64,
) -> Result<Found<M>, KeepFault>
    requires limit { limit ≤ 2 ^ 62 }
    ensures sound { IfOk result (λ f. M.rules.is_sound f.machine) }
    ensures stands { IfOk result (λ f. Stands M.rules f.machine (D.disk disk.old).reads) }
    ensures ready { IfOk result (λ f. f.journal.ready ≡ true) }
    ensures reading { IfOk result (λ f. IsReading limit f.journal (D.disk disk.new)) }
    ensures cause { IfErr result IsOfReopen }
    ensures foreign { IfForeign result (λ n. (c : List ℕ) → (D.disk disk.old).reads c
        → IsForeign M.rules n (content c)) }
    ensures foreign_first { IfForeign result (λ n. n ≡ 0 → IsSoundFirst limit (D.disk disk.old).reads) }
    ensures damaged { IfDamaged result (λ n. (c : List ℕ) → (D.disk disk.old).reads c
        → IsDamagedAt M.rules limit n c) }
    ensures never_damaged { IfDamaged result (λ n. (c : List ℕ) → (D.disk disk.old).reads c
        → IsUndamaged limit 0 c → ⊥) }
    ensures no_memory { IfErr result (λ fault.
        OnNoMemory fault (HoldsWhole M.rules limit (D.disk disk.old).reads)) }
    ensures untouched { IsUntouched (D.disk disk.old) (D.disk disk.new) }
    ensures counts { Counts (D.Counted.seen disk.old).faults (D.Counted.seen disk.new).faults result }
{
    match restore(alloc, disk, limit) {
        Ok(found) => Ok(found),
        Err(KeepFault::NoMemory) => Err(judge::<M, D>(disk, limit)),
        Err(fault) => Err(fault),
    }
}
