//! Records behind the closed gate, and then the gate opened.
ghost use Rattle.std.specs.Prelude.{◌≡◌, ◌≤◌, ◌+◌, ◌^◌, ◌++◌, ◌∷◌, [], List, ℕ, length, OnOk};
ghost use Rattle.node_journal.specs.Disk.{CountsFault, Within, LeavesOnly};
ghost use Rattle.node_journal.specs.Records.{body, content, opened, IsSized, AllSized, EndsAt, GivesNoByte, LeavesNoByte, RestsBeforeOrAfter, RestsNoneOrFirst, Appended};
ghost use Rattle.node_journal.specs.Batches.{AppendedAll, RestsBeforeOrAll, Spells};

use crate::{Batch, Disk, HEAD_LEN, RECORD_MAX};
use express_words::outside::Failed;

// Room for a length, the longest record and a gate.
pub(crate) const ROOM: usize = HEAD_LEN + RECORD_MAX;

// The length, the bytes and a closed gate.
pub(crate) fn stage<'a>(bytes: &[u8], room: &'a mut [u8; ROOM]) -> &'a [u8]
    requires { IsSized bytes.now }
    ensures { result.now ≡ body bytes.now ++ 0 ∷ [] }
{
    let len = bytes.len();
    room[..4].copy_from_slice(&(len as u32).to_be_bytes());
    room[4..4 + len].copy_from_slice(bytes);
    room[4 + len] = 0;
    &room[..HEAD_LEN + len]
}

/// The records that these bytes spell, in two writes and two syncs however many they are.
pub(crate) fn put_batch<D: Disk>(disk: &mut D, end: u64, bytes: &[u8]) -> Result<(), Failed>
    requires bound { end ≤ 2 ^ 62 }
    requires ends { (c : List ℕ) → (D.disk disk.old).reads c → EndsAt end c }
    requires durable { Within (D.disk disk.old).may_leave (D.disk disk.old).reads }
    ensures added { OnOk result ((added : List (List ℕ)) → AllSized added → Spells added bytes.now
        → Within (D.disk disk.new).reads
        (λ c. EndsAt (end + length (opened added)) c × AppendedAll (D.disk disk.old).reads added c)) }
    ensures durable { OnOk result (Within (D.disk disk.new).may_leave (D.disk disk.new).reads) }
    ensures any_moment { (added : List (List ℕ)) → AllSized added → Spells added bytes.now
        → LeavesOnly (D.disk disk.old) (D.disk disk.new)
        (RestsBeforeOrAll (D.disk disk.old).reads end added) }
    ensures counts { CountsFault (D.Counted.seen disk.old).faults (D.Counted.seen disk.new).faults result }
{
    disk.write(end + 1, bytes)?;
    disk.sync()?;
    disk.write(end, &[1])?;
    disk.sync()?;
    Ok(())
}

/// The records of a batch.
pub(crate) fn put_all<D: Disk>(disk: &mut D, end: u64, batch: &Batch) -> Result<(), Failed>
    requires bound { end ≤ 2 ^ 62 }
    requires ends { (c : List ℕ) → (D.disk disk.old).reads c → EndsAt end c }
    requires durable { Within (D.disk disk.old).may_leave (D.disk disk.old).reads }
    ensures added { OnOk result (Within (D.disk disk.new).reads
        (λ c. EndsAt (end + length (opened batch.now.records)) c
        × AppendedAll (D.disk disk.old).reads batch.now.records c)) }
    ensures durable { OnOk result (Within (D.disk disk.new).may_leave (D.disk disk.new).reads) }
    ensures any_moment { LeavesOnly (D.disk disk.old) (D.disk disk.new)
        (RestsBeforeOrAll (D.disk disk.old).reads end batch.now.records) }
    ensures counts { CountsFault (D.Counted.seen disk.old).faults (D.Counted.seen disk.new).faults result }
{
    if batch.is_empty() {
        return Ok(());
    }
    put_batch(disk, end, batch.behind_gate())
}

pub(crate) fn put_record<D: Disk>(disk: &mut D, end: u64, bytes: &[u8]) -> Result<(), Failed>
    requires sized { IsSized bytes.now }
    requires bound { end ≤ 2 ^ 62 }
    requires ends { (c : List ℕ) → (D.disk disk.old).reads c → EndsAt end c }
    requires durable { Within (D.disk disk.old).may_leave (D.disk disk.old).reads }
    ensures added { OnOk result (Within (D.disk disk.new).reads
        (λ c. EndsAt (end + 5 + length bytes.now) c × Appended (D.disk disk.old).reads bytes.now c)) }
    ensures durable { OnOk result (Within (D.disk disk.new).may_leave (D.disk disk.new).reads) }
    ensures any_moment { LeavesOnly (D.disk disk.old) (D.disk disk.new)
        (RestsBeforeOrAfter (D.disk disk.old).reads end bytes.now) }
    ensures counts { CountsFault (D.Counted.seen disk.old).faults (D.Counted.seen disk.new).faults result }
{
    let mut room = [0; ROOM];
    let staged = stage(bytes, &mut room);
    put_batch(disk, end, staged)
}

/// The first record, on a disk with no byte. Its closed gate is on the disk before the record is written.
pub(crate) fn put_first<D: Disk>(disk: &mut D, bytes: &[u8]) -> Result<(), Failed>
    requires sized { IsSized bytes.now }
    requires empty { GivesNoByte (D.disk disk.old).reads }
    ensures added { OnOk result (Within (D.disk disk.new).reads
        (λ c. EndsAt (0 + 5 + length bytes.now) c × (content c ≡ bytes.now ∷ []))) }
    ensures durable { OnOk result (Within (D.disk disk.new).may_leave (D.disk disk.new).reads) }
    ensures any_moment { LeavesNoByte (D.disk disk.old).may_leave
        → LeavesOnly (D.disk disk.old) (D.disk disk.new) (RestsNoneOrFirst bytes.now) }
    ensures counts { CountsFault (D.Counted.seen disk.old).faults (D.Counted.seen disk.new).faults result }
{
    disk.write(0, &[0])?;
    disk.sync()?;
    put_record(disk, 0, bytes)
}
