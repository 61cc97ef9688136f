//! The records of a journal, the step of each taken as it was before.
ghost use Rattle.std.specs.Prelude.{◌≡◌, ◌≤◌, ◌<◌, ◌^◌, ℕ, List, true, false, Ok, OnOk, IfErr};
ghost use Rattle.node_journal.specs.Disk.{IsUntouched};
ghost use Rattle.node_journal.specs.Records.{HasNoMore};
ghost use Rattle.node_journal.specs.Journal.{at_end};
ghost use Rattle.kept_machine.specs.Faults.{IfForeign, IfDamaged, IsOfReopen, Counts};
ghost use Rattle.kept_machine.specs.Replays.{IsReading, IsNoRecord, StandsAt, StandsDamaged, StepsOnce, StepsToEnd, EndsWith, EndsDamaged};

use crate::fault::KeepFault;
use crate::machine::Machine;
use crate::reading::next_record;
use node_journal::{Disk, Journal, RECORD_MAX};
use std::alloc::Global;

// Takes the step of the next record, whose number this is; false where no record is left.
fn replay_next<M: Machine, D: Disk>(
    alloc: Global,
    journal: &mut Journal,
    disk: &mut D,
    machine: &mut M,
    number: u64,
) -> Result<bool, KeepFault>
    requires reading { IsReading journal.old.limit journal.old (D.disk disk.old) }
    requires sound { M.rules.is_sound machine.old }
    ensures stepped { result ≡ Ok true → StepsOnce M.rules journal.old.limit journal.old.end journal.new.end
        machine.old machine.new (D.disk disk.old).reads }
    ensures ended { result ≡ Ok false → (machine.new ≡ machine.old) × (journal.new ≡ at_end journal.old) }
    ensures no_more { result ≡ Ok false → HasNoMore journal.old.end (D.disk disk.old).reads }
    ensures reading { OnOk result (IsReading journal.old.limit journal.new (D.disk disk.new)) }
    ensures foreign { IfForeign result (λ n. (n ≡ number)
        × StandsAt (IsNoRecord M.rules) journal.old.end (D.disk disk.old).reads) }
    ensures damaged { IfDamaged result (λ n. (n ≡ journal.old.end)
        × StandsDamaged journal.old.limit journal.old.end (D.disk disk.old).reads) }
    ensures cause { IfErr result IsOfReopen }
    ensures counts { Counts (D.Counted.seen disk.old).faults (D.Counted.seen disk.new).faults result }
    ensures untouched { IsUntouched (D.disk disk.old) (D.disk disk.new) }
    ensures sound { M.rules.is_sound machine.new }
{
    let mut room = [0; RECORD_MAX];
    match next_record::<M, D>(journal, disk, &mut room, number) {
        Ok(Some(len)) => match machine.take_memory(alloc, &room[..len]) {
            Ok(()) => {
                machine.step(&room[..len]);
                Ok(true)
            }
            Err(_) => Err(KeepFault::NoMemory),
        },
        Ok(None) => Ok(false),
        Err(fault) => Err(fault),
    }
}

/// Takes the steps of all records that are left.
pub(crate) fn replay<M: Machine, D: Disk>(
    alloc: Global,
    journal: &mut Journal,
    disk: &mut D,
    machine: &mut M,
) -> Result<(), KeepFault>
    requires reading { IsReading journal.old.limit journal.old (D.disk disk.old) }
    requires behind { 1 ≤ journal.old.end }
    requires limit { journal.old.limit ≤ 2 ^ 62 }
    requires sound { M.rules.is_sound machine.old }
    ensures all { OnOk result
        (StepsToEnd M.rules journal.old.end machine.old machine.new (D.disk disk.old).reads) }
    ensures ready { OnOk result (journal.new.ready ≡ true) }
    ensures reading { OnOk result (IsReading journal.old.limit journal.new (D.disk disk.new)) }
    ensures foreign { IfForeign result (λ n.
        EndsWith M.rules (IsNoRecord M.rules) n journal.old.end (D.disk disk.old).reads) }
    ensures damaged { IfDamaged result (λ n.
        EndsDamaged M.rules journal.old.limit n journal.old.end (D.disk disk.old).reads) }
    ensures cause { IfErr result IsOfReopen }
    ensures counts { Counts (D.Counted.seen disk.old).faults (D.Counted.seen disk.new).faults result }
    ensures untouched { IsUntouched (D.disk disk.old) (D.disk disk.new) }
    ensures sound { M.rules.is_sound machine.new }
{
    let mut number = 1;
    loop {
        match replay_next(alloc, journal, disk, machine, number) {
            Ok(true) => number += 1,
            Ok(false) => return Ok(()),
            Err(fault) => return Err(fault),
        }
    }
}
