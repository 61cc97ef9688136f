//! A journal of records, each of them on the disk before its append answers Ok.
ghost use Rattle.std.specs.Prelude.{◌≡◌, ◌≢◌, ◌≤◌, ◌+◌, ◌^◌, ◌∷◌, [], true, false, List, ℕ, length, OnOk, OnErr, IsErrOf, Err, Ok, Some, None, take, IfOk};
ghost use Rattle.node_journal.specs.Disk.{IsUntouched, LeavesOnly};
ghost use Rattle.node_journal.specs.Records.{record_max, IsSized, IsUndamaged, GivesNoByte, LeavesNoByte, LeavesNoneOrFirst, Appended, HasNoMore, HoldsRecord, StaysUndamaged, content};
ghost use Rattle.node_journal.specs.Batches.{AppendedAll, HasSpaceForAll, LacksSpaceForAll, LeavesAllOrNone, longer_by_all};
ghost use Rattle.node_journal.specs.Next.{Finds, FindsDamage};
ghost use Rattle.node_journal.specs.Journal.{JournalState, IsInPlace, CountsDisk, IsOkOrDisk, IsOkDiskOrDamaged, IfDamaged, OnlyAnswers, OnlyAnswersFull, LeavesWithOrWithout, longer, at_end, broken, HasSpace, LacksSpace, Passes};

use crate::append::{put_all, put_first, put_record};
use crate::head::find;
use crate::{Batch, Disk, HEAD_LEN, JournalFault};
use std::marker::Model;

/// A place on a disk, behind whole records. After a call that answers `Disk` each further call answers
/// `Closed`: open the disk again.
#[derive(Drop)]
pub struct Journal {
    end: u64,
    limit: u64,
    ready: bool,
    closed: bool,
}

impl Model for Journal {
    ghost use Rattle.std.specs.Prelude.{◌≤◌, ◌-◌, ◌^◌};
    ghost use Rattle.node_journal.specs.Journal.{JournalState};

    ghost Value = { JournalState };

    ghost view = { λ j. record { end = j.end; limit = j.limit; ready = j.ready; closed = j.closed } };

    ghost invariant = { λ j. (j.end ≤ j.limit - 1) × (j.limit ≤ 2 ^ 62) };
}

impl Journal {
    /// A journal with a first record of 1 to 8,214 bytes, on a disk with no byte. No more than `limit`
    /// bytes of the disk will be used.
    pub fn create<D: Disk>(disk: &mut D, limit: u64, first: &[u8]) -> Result<Journal, JournalFault>
        requires sized { IsSized first.now }
        requires limit { limit ≤ 2 ^ 62 }
        ensures not_empty { IsErrOf result JournalFault.NotEmpty → (c : List ℕ) → (D.disk disk.old).reads c
            → c ≢ [] }
        ensures not_empty_stays { IsErrOf result JournalFault.NotEmpty
            → IsUntouched (D.disk disk.old) (D.disk disk.new) }
        ensures empty { OnOk result (GivesNoByte (D.disk disk.old).reads) }
        ensures full { (n : ℕ) → IsErrOf result (JournalFault.Full n) → (n ≡ 0)
            × Passes 0 (length first.now) limit × GivesNoByte (D.disk disk.old).reads }
        ensures full_stays { (n : ℕ) → IsErrOf result (JournalFault.Full n)
            → IsUntouched (D.disk disk.old) (D.disk disk.new) }
        ensures fits { OnOk result (0 + 5 + length first.now + 1 ≤ limit) }
        ensures counts { CountsDisk (D.Counted.seen disk.old).faults (D.Counted.seen disk.new).faults result }
        ensures not_damaged { IfDamaged result (λ n. ⊥) }
        ensures not_closed { IsErrOf result JournalFault.Closed → ⊥ }
        ensures made { IfOk result (λ j.
            j ≡ record { end = 5 + length first.now; limit = limit; ready = true; closed = false }) }
        ensures content { OnOk result ((c : List ℕ) → (D.disk disk.new).reads c
            → content c ≡ first.now ∷ []) }
        ensures undamaged { OnOk result ((c : List ℕ) → (D.disk disk.new).reads c → IsUndamaged limit 0 c) }
        ensures in_place { IfOk result (λ j. IsInPlace j (D.disk disk.new)) }

        // Where a crash before the call leaves no byte, a crash at any moment of it leaves no record, or
        // exactly the first.
        ensures any_moment { LeavesNoByte (D.disk disk.old).may_leave
            → LeavesOnly (D.disk disk.old) (D.disk disk.new) (LeavesNoneOrFirst limit first.now) }
    {
        let mut probe = [0; 1];
        match disk.read(0, &mut probe) {
            Ok(0) => {}
            Ok(_) => return Err(JournalFault::NotEmpty),
            Err(_) => return Err(JournalFault::Disk(disk.faults())),
        }
        let size = (HEAD_LEN + first.len()) as u64;
        if limit <= size {
            return Err(JournalFault::Full(0));
        }
        match put_first(disk, first) {
            Ok(()) => Ok(Journal {
                end: size,
                limit,
                ready: true,
                closed: false,
            }),
            Err(_) => Err(JournalFault::Disk(disk.faults())),
        }
    }

    /// A journal at the front of a disk. It begins with a sync, so that what is read isn't lost in a crash.
    pub fn open<D: Disk>(disk: &mut D, limit: u64) -> Result<Journal, JournalFault>
        requires limit { limit ≤ 2 ^ 62 }
        ensures cause { IsOkOrDisk result }
        ensures counts { CountsDisk (D.Counted.seen disk.old).faults (D.Counted.seen disk.new).faults result }
        ensures made { IfOk result (λ j.
            j ≡ record { end = 0; limit = limit; ready = false; closed = false }) }
        ensures untouched { IsUntouched (D.disk disk.old) (D.disk disk.new) }
        ensures in_place { IfOk result (λ j. IsInPlace j (D.disk disk.new)) }
    {
        match disk.sync() {
            Ok(()) => Ok(Journal {
                end: 0,
                limit,
                ready: false,
                closed: false,
            }),
            Err(_) => Err(JournalFault::Disk(disk.faults())),
        }
    }

    /// The next record into the front of `out`, with its length in bytes; None where the next gate is
    /// missing or closed. After `Damaged` the journal stands where it stood.
    pub fn next<D: Disk>(
        &mut self,
        disk: &mut D,
        out: &mut [u8],
    ) -> Result<Option<usize>, JournalFault>
        requires room { record_max ≤ length out.old }
        requires in_place { self.old.closed ≡ false
            → IsInPlace self.old (D.disk disk.old) }
        ensures closed { self.old.closed ≡ true
            → OnlyAnswers result JournalFault.Closed self.old self.new disk.old disk.new }
        ensures cause { self.old.closed ≡ false → IsOkDiskOrDamaged result }
        ensures counts { CountsDisk (D.Counted.seen disk.old).faults (D.Counted.seen disk.new).faults result }
        ensures untouched { IsUntouched (D.disk disk.old) (D.disk disk.new) }
        ensures length { length out.new ≡ length out.old }
        ensures sized { (n : ℕ) → result ≡ Ok (Some n) → (1 ≤ n) × (n ≤ record_max) }

        // What stands at the journal's end, which is the first of the records from there on.
        ensures none { result ≡ Ok None
            → Finds self.old.end self.old.limit (D.disk disk.old).reads (Ok None) }
        ensures no_more { result ≡ Ok None → HasNoMore self.old.end (D.disk disk.old).reads }
        ensures some { (n : ℕ) → result ≡ Ok (Some n)
            → Finds self.old.end self.old.limit (D.disk disk.old).reads (Ok (Some (take n out.new))) }
        ensures first_of_more { (n : ℕ) → result ≡ Ok (Some n)
            → HoldsRecord self.old.end self.new.end (take n out.new) (D.disk disk.old).reads }
        ensures damaged { IfDamaged result (λ n. (n ≡ self.old.end)
            × FindsDamage self.old.end self.old.limit (D.disk disk.old).reads) }

        // `Damaged` never comes where nothing is damaged, and then the rest isn't either.
        ensures never_damaged { IfDamaged result (λ n. (c : List ℕ) → (D.disk disk.old).reads c
            → IsUndamaged self.old.limit self.old.end c → ⊥) }
        ensures still_undamaged { (n : ℕ) → result ≡ Ok (Some n)
            → StaysUndamaged self.old.limit self.old.end self.new.end (D.disk disk.old).reads }

        ensures moved { (n : ℕ) → result ≡ Ok (Some n) → self.new ≡ longer n self.old }
        ensures fits { (n : ℕ) → result ≡ Ok (Some n) → self.old.end + 5 + n + 1 ≤ self.old.limit }
        ensures ended { result ≡ Ok None → self.new ≡ at_end self.old }
        ensures stays { IfDamaged result (λ n. self.new ≡ self.old) }
        ensures broken { (n : ℕ) → IsErrOf result (JournalFault.Disk n) → self.new ≡ broken self.old }
        ensures in_place { self.new.closed ≡ false
            → IsInPlace self.new (D.disk disk.new) }
    {
        if self.closed {
            return Err(JournalFault::Closed);
        }
        match find(disk, self.end, self.limit, out) {
            Ok(Some(len)) => {
                self.end += HEAD_LEN as u64 + len as u64;
                Ok(Some(len as usize))
            }
            Ok(None) => {
                self.ready = self.ready || self.end > 0;
                Ok(None)
            }
            Err(JournalFault::Disk(faults)) => {
                self.closed = true;
                Err(JournalFault::Disk(faults))
            }
            Err(JournalFault::Damaged(at)) => Err(JournalFault::Damaged(at)),
            Err(JournalFault::Closed | JournalFault::NotEmpty | JournalFault::Full(_)) => {
                unreachable!()
            }
        }
    }

    /// Adds a record of 1 to 8,214 bytes to a journal that was created, or of which `next` has given at least
    /// one record and then None. At `Ok` each crash from then on leaves it.
    pub fn append<D: Disk>(&mut self, disk: &mut D, bytes: &[u8]) -> Result<(), JournalFault>
        requires sized { IsSized bytes.now }
        requires ready { self.old.ready ≡ true }
        requires in_place { self.old.closed ≡ false
            → IsInPlace self.old (D.disk disk.old) }
        ensures closed { self.old.closed ≡ true
            → OnlyAnswers result JournalFault.Closed self.old self.new disk.old disk.new }
        ensures full { self.old.closed ≡ false → LacksSpace self.old (length bytes.now)
            → OnlyAnswersFull result self.old self.new disk.old disk.new }
        ensures fits { self.old.closed ≡ false → HasSpace self.old (length bytes.now)
            → IsOkOrDisk result × OnErr result (self.new ≡ broken self.old) }
        ensures counts { CountsDisk (D.Counted.seen disk.old).faults (D.Counted.seen disk.new).faults result }
        ensures longer { OnOk result (self.new ≡ longer (length bytes.now) self.old) }
        ensures added { OnOk result ((c : List ℕ) → (D.disk disk.new).reads c
            → Appended (D.disk disk.old).reads bytes.now c) }
        ensures undamaged { OnOk result ((c : List ℕ) → (D.disk disk.new).reads c
            → IsUndamaged self.old.limit 0 c) }
        ensures in_place { self.new.closed ≡ false
            → IsInPlace self.new (D.disk disk.new) }

        // A crash at any moment of the call leaves the records from before it, with the new one or without,
        // and nothing that a journal under the same limit would find damaged.
        ensures any_moment { self.old.closed ≡ false
            → LeavesWithOrWithout self.old.limit (D.disk disk.old) (D.disk disk.new) bytes.now }
    {
        // A closed journal writes nothing.
        if self.closed {
            return Err(JournalFault::Closed);
        }
        let size = (HEAD_LEN + bytes.len()) as u64;
        if self.limit - self.end <= size {
            return Err(JournalFault::Full(self.end));
        }
        match put_record(disk, self.end, bytes) {
            Ok(()) => {
                self.end += size;
                Ok(())
            }
            Err(_) => {
                self.closed = true;
                Err(JournalFault::Disk(disk.faults()))
            }
        }
    }

    /// Adds all records of a batch, in two writes and two syncs however many they are, to a journal that
    /// `append` would add one to. An empty batch asks nothing of the disk.
    pub fn append_all<D: Disk>(&mut self, disk: &mut D, batch: &Batch) -> Result<(), JournalFault>
        requires ready { self.old.ready ≡ true }
        requires in_place { self.old.closed ≡ false
            → IsInPlace self.old (D.disk disk.old) }
        ensures closed { self.old.closed ≡ true
            → OnlyAnswers result JournalFault.Closed self.old self.new disk.old disk.new }
        ensures full { self.old.closed ≡ false → LacksSpaceForAll self.old batch.now.records
            → OnlyAnswersFull result self.old self.new disk.old disk.new }
        ensures fits { self.old.closed ≡ false → HasSpaceForAll self.old batch.now.records
            → IsOkOrDisk result × OnErr result (self.new ≡ broken self.old) }
        ensures counts { CountsDisk (D.Counted.seen disk.old).faults (D.Counted.seen disk.new).faults result }
        ensures longer { OnOk result (self.new ≡ longer_by_all batch.now.records self.old) }
        ensures added { OnOk result ((c : List ℕ) → (D.disk disk.new).reads c
            → AppendedAll (D.disk disk.old).reads batch.now.records c) }
        ensures undamaged { OnOk result ((c : List ℕ) → (D.disk disk.new).reads c
            → IsUndamaged self.old.limit 0 c) }
        ensures in_place { self.new.closed ≡ false
            → IsInPlace self.new (D.disk disk.new) }

        // A crash at any moment of the call leaves the records from before it, with all of these or with none,
        // and nothing that a journal under the same limit would find damaged.
        ensures any_moment { self.old.closed ≡ false
            → LeavesAllOrNone self.old.limit (D.disk disk.old) (D.disk disk.new) batch.now.records }
    {
        if self.closed {
            return Err(JournalFault::Closed);
        }
        let size = batch.size() as u64;
        if self.limit - self.end <= size {
            return Err(JournalFault::Full(self.end));
        }
        match put_all(disk, self.end, batch) {
            Ok(()) => {
                self.end += size;
                Ok(())
            }
            Err(_) => {
                self.closed = true;
                Err(JournalFault::Disk(disk.faults()))
            }
        }
    }

    /// How many bytes the records take that were appended or read so far.
    pub fn end(&self) -> u64
        ensures { result ≡ self.now.end }
    {
        self.end
    }
}
