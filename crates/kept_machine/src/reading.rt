//! The records of a journal, read one after another.
ghost use Rattle.std.specs.Prelude.{◌≡◌, ◌≤◌, ◌<◌, ◌^◌, ℕ, List, ◌∷◌, take, true, false, Ok, None, IfOk, OnOk, IfErr};
ghost use Rattle.node_journal.specs.Disk.{IsUntouched};
ghost use Rattle.node_journal.specs.Records.{content, records_from, HasNoMore, StaysUndamaged};
ghost use Rattle.node_journal.specs.Journal.{at_end};
ghost use Rattle.kept_machine.specs.Machines.{LacksOpening};
ghost use Rattle.kept_machine.specs.Kept.{IsSoundFirst};
ghost use Rattle.kept_machine.specs.Faults.{IfForeign, IfDamaged, IsOfRecords, Counts};
ghost use Rattle.kept_machine.specs.Replays.{IsReading, IfCount, IsNoRecord, StandsFirst, StandsRecord, StandsAt, StandsDamaged};

use crate::fault::KeepFault;
use crate::machine::Machine;
use node_journal::{Disk, Journal, RECORD_MAX};

/// The first record into the front of `room`, with its length, where it is an opening.
pub(crate) fn first_record<M: Machine, D: Disk>(
    journal: &mut Journal,
    disk: &mut D,
    room: &mut [u8; RECORD_MAX],
) -> Result<usize, KeepFault>
    requires reading { IsReading journal.old.limit journal.old (D.disk disk.old) }
    requires front { journal.old.end ≡ 0 }
    ensures few { IfOk result (λ n. n ≤ 8214) }
    ensures opening { IfOk result (λ n. M.rules.is_opening (take n room.new)) }
    ensures first { IfOk result (λ n. StandsFirst (take n room.new) journal.new.end (D.disk disk.old).reads) }
    ensures undamaged { OnOk result
        (StaysUndamaged journal.old.limit 0 journal.new.end (D.disk disk.old).reads) }
    ensures behind { OnOk result (1 ≤ journal.new.end) }
    ensures reading { OnOk result (IsReading journal.old.limit journal.new (D.disk disk.new)) }
    ensures foreign { IfForeign result (λ n. (n ≡ 0)
        × ((c : List ℕ) → (D.disk disk.old).reads c → LacksOpening M.rules (content c))) }
    ensures foreign_first { IfForeign result (λ n. IsSoundFirst journal.old.limit (D.disk disk.old).reads) }
    ensures damaged { IfDamaged result (λ n. (n ≡ 0)
        × StandsDamaged journal.old.limit 0 (D.disk disk.old).reads) }
    ensures cause { IfErr result IsOfRecords }
    ensures counts { Counts (D.Counted.seen disk.old).faults (D.Counted.seen disk.new).faults result }
    ensures untouched { IsUntouched (D.disk disk.old) (D.disk disk.new) }
{
    match journal.next(disk, room) {
        Ok(Some(len)) => {
            if M::is_opening(&room[..len]) {
                Ok(len)
            } else {
                Err(KeepFault::Foreign(0))
            }
        }
        Ok(None) => Err(KeepFault::Foreign(0)),
        Err(fault) => Err(KeepFault::Journal(fault)),
    }
}

/// The next record into the front of `room`, with its length; its number is this one. None where no record
/// is left.
pub(crate) fn next_record<M: Machine, D: Disk>(
    journal: &mut Journal,
    disk: &mut D,
    room: &mut [u8; RECORD_MAX],
    number: u64,
) -> Result<Option<usize>, KeepFault>
    requires reading { IsReading journal.old.limit journal.old (D.disk disk.old) }
    ensures few { IfCount result (λ n. n ≤ 8214) }
    ensures stands { IfCount result (λ n. StandsRecord M.rules.is_record journal.old.limit (take n room.new)
        journal.old.end journal.new.end (D.disk disk.old).reads) }
    ensures ended { result ≡ Ok None → journal.new ≡ at_end journal.old }
    ensures no_more { result ≡ Ok None → HasNoMore journal.old.end (D.disk disk.old).reads }
    ensures reading { OnOk result (IsReading journal.old.limit journal.new (D.disk disk.new)) }
    ensures foreign { IfForeign result (λ n. (n ≡ number)
        × StandsAt (IsNoRecord M.rules) journal.old.end (D.disk disk.old).reads) }
    ensures damaged { IfDamaged result (λ n. (n ≡ journal.old.end)
        × StandsDamaged journal.old.limit journal.old.end (D.disk disk.old).reads) }
    ensures cause { IfErr result IsOfRecords }
    ensures counts { Counts (D.Counted.seen disk.old).faults (D.Counted.seen disk.new).faults result }
    ensures untouched { IsUntouched (D.disk disk.old) (D.disk disk.new) }
{
    match journal.next(disk, room) {
        Ok(Some(len)) => {
            if M::is_record(&room[..len]) {
                Ok(Some(len))
            } else {
                Err(KeepFault::Foreign(number))
            }
        }
        Ok(None) => Ok(None),
        Err(fault) => Err(KeepFault::Journal(fault)),
    }
}
