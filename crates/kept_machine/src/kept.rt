//! A machine that writes each record to a journal before it takes its step.
ghost use Rattle.std.specs.Prelude.{◌≡◌, ◌≢◌, ◌≤◌, ◌<◌, ◌+◌, ◌^◌, ℕ, List, [], ◌∷◌, true, false, length, IfOk, IfErr, OnOk, OnErr};
ghost use Rattle.node_journal.specs.Disk.{IsUntouched, Within};
ghost use Rattle.node_journal.specs.Journal.{IsInPlace, Passes};
ghost use Rattle.node_journal.specs.Records.{content, GivesNoByte, IsSized, IsUndamaged};
ghost use Rattle.kept_machine.specs.Faults.{OnForeign, OnDamaged, OnNotEmpty, OnFull, OnNoMemory, OnStill, IsOfCreate, IsOfReopen, CountsFault};
ghost use Rattle.kept_machine.specs.Keeps.{IsDurable, KeepsInput, sight};
ghost use Rattle.kept_machine.specs.Machines.{IsForeign};

use crate::fault::KeepFault;
use crate::keeping::KeptJournal;
use crate::machine::{Machine, Takes};
use crate::noting::note;
use crate::reopening::{Found, find};
use node_journal::{Disk, Journal, RECORD_MAX};
use std::alloc::Global;
use std::marker::Model;

/// What a kept machine was made of: the machine, its journal and the journal's disk.
#[derive(Drop)]
pub struct KeptParts<M: Machine, D: Disk> {
    pub machine: M,
    pub journal: Journal,
    pub disk: D,
}

/// A machine with its journal and the journal's disk.
#[derive(Drop)]
pub struct Kept<M: Machine, D: Disk> {
    alloc: Global,
    machine: M,
    journal: KeptJournal,
    disk: D,
}

impl<M: Machine, D: Disk> Model for Kept<M, D> {
    ghost use Rattle.kept_machine.specs.Kept.{KeptState, IsKept};

    ghost Value = { KeptState M D };

    ghost view = { λ k. record { machine = k.machine; journal = k.journal; disk = k.disk } };

    ghost invariant = { λ k. IsKept M.rules k.machine k.journal (D.disk k.disk) };
}

impl<M: Machine, D: Disk> Kept<M, D> {
    ghost use Rattle.kept_machine.specs.Kept.{Holds, HoldsNoForm, HoldsWhole, IsDamagedAt, IsSoundFirst, MakesOnly, OnDisk, Stands};

    /// A machine before its first step, on a disk with no byte. No more than `limit` bytes of the disk will be
    /// used.
    pub fn create(
        alloc: Global,
        first: &[u8],
        disk: D,
        limit: u64,
    ) -> Result<Kept<M, D>, (KeepFault, D)>
        requires opening { M.rules.is_opening first.now }
        requires sized { IsSized first.now }
        requires limit { limit ≤ 2 ^ 62 }
        ensures opens { IfOk result (λ k. M.rules.opens first.now k.machine) }
        ensures sound { IfOk result (λ k. M.rules.is_sound k.machine) }
        ensures journal { IfOk result (λ k. k.journal
            ≡ record { end = 5 + length first.now; limit = limit; ready = true; closed = false }) }
        ensures held { IfOk result (λ k. Holds (first.now ∷ []) (D.disk k.disk).reads) }
        ensures undamaged { IfOk result (λ k. (c : List ℕ) → (D.disk k.disk).reads c
            → IsUndamaged limit 0 c) }
        ensures durable { IfOk result (λ k. Within (D.disk k.disk).may_leave (D.disk k.disk).reads) }
        ensures empty { OnOk result (GivesNoByte (D.disk disk).reads) }
        ensures fits { OnOk result (0 + 5 + length first.now + 1 ≤ limit) }

        ensures cause { IfErr result (λ x. IsOfCreate x.0) }
        ensures not_empty { IfErr result (λ x. OnNotEmpty x.0 ((c : List ℕ) → (D.disk disk).reads c
            → c ≢ [])) }
        ensures full { IfErr result (λ x. OnFull x.0 (λ n. (n ≡ 0) × Passes 0 (length first.now) limit
            × GivesNoByte (D.disk disk).reads)) }
        ensures not_empty_stays { IfErr result
            (λ x. OnNotEmpty x.0 (IsUntouched (D.disk disk) (D.disk x.1))) }
        ensures full_stays { IfErr result (λ x. OnFull x.0 (λ n. IsUntouched (D.disk disk) (D.disk x.1))) }
        ensures no_memory_stays { IfErr result (λ x. OnNoMemory x.0 (x.1 ≡ disk)) }
        ensures counts_ok { IfOk result (λ k. (D.Counted.seen k.disk).faults ≡ (D.Counted.seen disk).faults) }
        ensures counts { IfErr result
            (λ x. CountsFault (D.Counted.seen disk).faults (D.Counted.seen x.1).faults x.0) }

        // Where a crash before the call leaves no byte, a crash at any moment of it leaves no record, or
        // exactly the first.
        ensures any_moment { OnDisk result (λ d. MakesOnly limit first.now (D.disk disk) (D.disk d)) }
    {
        let Ok(machine) = M::open(alloc, first) else {
            return Err((KeepFault::NoMemory, disk));
        };
        let mut disk = disk;
        match Journal::create(&mut disk, limit, first) {
            Ok(journal) => Ok(Kept {
                alloc,
                machine,
                journal: KeptJournal::of(journal, limit),
                disk,
            }),
            Err(fault) => Err((KeepFault::Journal(fault), disk)),
        }
    }

    /// The machine that the records on a disk give: it stands where it stood.
    pub fn reopen(alloc: Global, disk: D, limit: u64) -> Result<Kept<M, D>, (KeepFault, D)>
        requires limit { limit ≤ 2 ^ 62 }
        // What stands on the disk is an opening and records, and gives the machine.
        ensures sound { IfOk result (λ k. M.rules.is_sound k.machine) }
        ensures stands { IfOk result (λ k. Stands M.rules k.machine (D.disk disk).reads) }
        ensures undamaged { IfOk result (λ k. (c : List ℕ) → (D.disk k.disk).reads c
            → IsUndamaged limit 0 c) }
        ensures durable { IfOk result (λ k. Within (D.disk k.disk).may_leave (D.disk k.disk).reads) }
        ensures limit { IfOk result (λ k. k.journal.limit ≡ limit) }
        ensures still_open { IfOk result (λ k. k.journal.closed ≡ false) }
        ensures untouched_ok { IfOk result (λ k. IsUntouched (D.disk disk) (D.disk k.disk)) }

        ensures cause { IfErr result (λ x. IsOfReopen x.0) }
        ensures foreign { IfErr result (λ x. OnForeign x.0 (λ n. (c : List ℕ) → (D.disk disk).reads c
            → IsForeign M.rules n (content c))) }
        ensures never_foreign { IfErr result
            (λ x. OnForeign x.0 (λ n. HoldsNoForm M.rules (D.disk disk).reads)) }
        ensures foreign_first { IfErr result
            (λ x. OnForeign x.0 (λ n. n ≡ 0 → IsSoundFirst limit (D.disk disk).reads)) }
        ensures damaged { IfErr result (λ x. OnDamaged x.0 (λ n. (c : List ℕ) → (D.disk disk).reads c
            → IsDamagedAt M.rules limit n c)) }
        ensures never_damaged { IfErr result (λ x. OnDamaged x.0 (λ n. (c : List ℕ) → (D.disk disk).reads c
            → IsUndamaged limit 0 c → ⊥)) }
        // A want of memory hides nothing that is wrong with the records.
        ensures no_memory { IfErr result
            (λ x. OnNoMemory x.0 (HoldsWhole M.rules limit (D.disk disk).reads)) }
        ensures untouched { IfErr result (λ x. IsUntouched (D.disk disk) (D.disk x.1)) }
        ensures counts_ok { IfOk result (λ k. (D.Counted.seen k.disk).faults ≡ (D.Counted.seen disk).faults) }
        ensures counts { IfErr result
            (λ x. CountsFault (D.Counted.seen disk).faults (D.Counted.seen x.1).faults x.0) }
    {
        let mut disk = disk;
        match find(alloc, &mut disk, limit) {
            Ok(found) => {
                let Found { machine, journal } = found;
                Ok(Kept {
                    alloc,
                    machine,
                    journal,
                    disk,
                })
            }
            Err(fault) => Err((fault, disk)),
        }
    }

    /// The machine.
    pub fn machine(&self) -> &M
        ensures value { result.now ≡ self.now.machine }
        ensures sound { M.rules.is_sound result.now }
        ensures durable { self.now.journal.closed ≡ false
            → IsDurable M.rules (sight D.disk D.Counted.seen self.now) }
    {
        &self.machine
    }

    /// How many bytes of the disk the records take. With the limit it tells how full the journal is.
    pub fn used(&self) -> u64
        ensures { result ≡ self.now.journal.end }
    {
        self.journal.end()
    }

    /// The machine, the journal at its end and the disk, for one that writes the records of several inputs together.
    pub fn into_parts(self) -> KeptParts<M, D>
        ensures machine { result.machine ≡ self.machine }
        ensures journal { result.journal ≡ self.journal }
        ensures disk { result.disk ≡ self.disk }
        ensures sound { M.rules.is_sound result.machine }
        ensures ready { result.journal.ready ≡ true }
        ensures in_place { self.journal.closed ≡ false → IsInPlace result.journal (D.disk result.disk) }
        ensures stands { self.journal.closed ≡ false → Stands M.rules result.machine (D.disk result.disk).reads }
    {
        let Kept {
            alloc: _,
            machine,
            journal,
            disk,
        } = self;
        KeptParts {
            machine,
            journal: journal.into_journal(),
            disk,
        }
    }

    /// The disk, as the last call left it.
    pub fn into_disk(self) -> D
        ensures { result ≡ self.disk }
    {
        let Kept {
            alloc: _,
            machine: _,
            journal: _,
            disk,
        } = self;
        disk
    }
}

/// A machine takes an input, whose record is on the disk before its step.
pub fn take<I, M: Takes<I>, D: Disk>(
    kept: &mut Kept<M, D>,
    input: &I,
    out: &mut [u8],
) -> Result<M::Told, KeepFault>
    requires input { M.is_input input.now }
    requires room { M.most ≤ length out.old }
    ensures keeps { KeepsInput M.Machine.rules D.disk D.Counted.seen (M.record_of input.now)
        kept.old kept.new result }
    ensures stays { OnStill result ((kept.new.journal ≡ kept.old.journal) × (kept.new.disk ≡ kept.old.disk)) }
    ensures tells { IfOk result (λ told.
        M.tells input.now kept.old.machine kept.new.machine told out.old out.new) }
    ensures silent { OnErr result (out.new ≡ out.old) }
    ensures sound { M.Machine.rules.is_sound kept.new.machine }
    ensures durable { kept.new.journal.closed ≡ false
        → IsDurable M.Machine.rules (sight D.disk D.Counted.seen kept.new) }
{
    let mut room = [0; RECORD_MAX];
    match M::record(input, &mut room) {
        None => Ok(kept.machine.take(input, out)),
        Some(record) => {
            let alloc = kept.alloc;
            match note(
                alloc,
                &mut kept.machine,
                &mut kept.journal,
                &mut kept.disk,
                record,
            ) {
                Ok(()) => Ok(kept.machine.take(input, out)),
                Err(fault) => Err(fault),
            }
        }
    }
}
