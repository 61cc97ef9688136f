//! What stands at a journal's place: the gate, the length and the record.
ghost use Rattle.std.specs.Prelude.{◌≡◌, ◌≤◌, ◌+◌, ◌^◌, ◌∷◌, [], List, ℕ, length, drop, Option, Some, None, Ok, Err, OnOk, take};
ghost use Rattle.std.specs.Int.{w32, from_be_bytes, to_be_bytes};
ghost use Rattle.node_journal.specs.Disk.{IsUntouched};
ghost use Rattle.node_journal.specs.Journal.{CountsDisk, IfDamaged, IsOkDiskOrDamaged};
ghost use Rattle.node_journal.specs.Next.{Finds, FindsDamage, FindsOpen, FindsUnderAny, Judges};
ghost use Rattle.node_journal.specs.Records.{record_max};

use crate::{Disk, HEAD_LEN, JournalFault, RECORD_MAX};

// The number in a length field of these bytes.
fn length_in(first: u8, second: u8, third: u8, fourth: u8) -> u32
    ensures number { result ≡ from_be_bytes w32 (first ∷ second ∷ third ∷ fourth ∷ []) }
    ensures spelled { to_be_bytes w32 result ≡ first ∷ second ∷ third ∷ fourth ∷ [] }
{
    u32::from_be_bytes([first, second, third, fourth])
}

/// The length behind an open gate, None at a gate that is missing or closed.
fn read_head<D: Disk>(disk: &mut D, end: u64) -> Result<Option<u32>, JournalFault>
    requires { end ≤ 2 ^ 62 }
    ensures none { result ≡ Ok None → FindsUnderAny end (D.disk disk.old).reads (Ok None) }
    ensures some { (n : ℕ) → result ≡ Ok (Some n) → FindsOpen end n (D.disk disk.old).reads }
    ensures spelled { (n : ℕ) → result ≡ Ok (Some n) → (c : List ℕ) → (D.disk disk.old).reads c
        → take 4 (drop 1 (drop end c)) ≡ to_be_bytes w32 n }
    ensures damaged { IfDamaged result (λ n. (n ≡ end)
        × FindsUnderAny end (D.disk disk.old).reads (Err (JournalFault.Damaged end))) }
    ensures only { IsOkDiskOrDamaged result }
    ensures counts { CountsDisk (D.Counted.seen disk.old).faults (D.Counted.seen disk.new).faults result }
    ensures untouched { IsUntouched (D.disk disk.old) (D.disk disk.new) }
{
    let mut head = [0; HEAD_LEN];
    match disk.read(end, &mut head) {
        Ok(read) => {
            if head[0] != 1 {
                return Ok(None);
            }
            if read < HEAD_LEN {
                return Err(JournalFault::Damaged(end));
            }
            Ok(Some(length_in(head[1], head[2], head[3], head[4])))
        }
        Err(_) => Err(JournalFault::Disk(disk.faults())),
    }
}

/// The record of this length into the front of `out`.
fn read_record<D: Disk>(
    disk: &mut D,
    end: u64,
    limit: u64,
    len: u32,
    out: &mut [u8],
) -> Result<(), JournalFault>
    requires limits { (end ≤ limit) × (limit ≤ 2 ^ 62) }
    requires room { record_max ≤ length out.old }
    ensures some { OnOk result (Judges end limit len (D.disk disk.old).reads (Ok (Some (take len out.new)))) }
    ensures fits { OnOk result (end + 5 + len + 1 ≤ limit) }
    ensures sized { OnOk result ((1 ≤ len) × (len ≤ record_max)) }
    ensures length { length out.new ≡ length out.old }
    ensures damaged { IfDamaged result (λ n. (n ≡ end)
        × Judges end limit len (D.disk disk.old).reads (Err (JournalFault.Damaged end))) }
    ensures only { IsOkDiskOrDamaged result }
    ensures counts { CountsDisk (D.Counted.seen disk.old).faults (D.Counted.seen disk.new).faults result }
    ensures untouched { IsUntouched (D.disk disk.old) (D.disk disk.new) }
{
    if len < 1 || len as usize > RECORD_MAX || limit - end < HEAD_LEN as u64 + len as u64 + 1 {
        return Err(JournalFault::Damaged(end));
    }
    let size = len as usize;
    match disk.read(end + HEAD_LEN as u64, &mut out[..size]) {
        Ok(read) => {
            if read < size {
                return Err(JournalFault::Damaged(end));
            }
        }
        Err(_) => return Err(JournalFault::Disk(disk.faults())),
    }
    let mut probe = [0; 1];
    match disk.read(end + HEAD_LEN as u64 + len as u64, &mut probe) {
        Ok(0) => Err(JournalFault::Damaged(end)),
        Ok(_) => Ok(()),
        Err(_) => Err(JournalFault::Disk(disk.faults())),
    }
}

/// The record behind an open gate, into the front of `out`.
#[tactic(auto, using(crate::proofs::Found::drop_both))]
pub(crate) fn find<D: Disk>(
    disk: &mut D,
    end: u64,
    limit: u64,
    out: &mut [u8],
) -> Result<Option<u32>, JournalFault>
    requires limits { (end ≤ limit) × (limit ≤ 2 ^ 62) }
    requires room { record_max ≤ length out.old }
    ensures none { result ≡ Ok None → Finds end limit (D.disk disk.old).reads (Ok None) }
    ensures some { (n : ℕ) → result ≡ Ok (Some n)
        → Finds end limit (D.disk disk.old).reads (Ok (Some (take n out.new))) }
    ensures spelled { (n : ℕ) → result ≡ Ok (Some n) → (c : List ℕ) → (D.disk disk.old).reads c
        → take 4 (drop 1 (drop end c)) ≡ to_be_bytes w32 n }
    ensures fits { (n : ℕ) → result ≡ Ok (Some n) → end + 5 + n + 1 ≤ limit }
    ensures sized { (n : ℕ) → result ≡ Ok (Some n) → (1 ≤ n) × (n ≤ record_max) }
    ensures length { length out.new ≡ length out.old }
    ensures damaged { IfDamaged result (λ n. (n ≡ end) × FindsDamage end limit (D.disk disk.old).reads) }
    ensures only { IsOkDiskOrDamaged result }
    ensures counts { CountsDisk (D.Counted.seen disk.old).faults (D.Counted.seen disk.new).faults result }
    ensures untouched { IsUntouched (D.disk disk.old) (D.disk disk.new) }
{
    match read_head(disk, end)? {
        Some(len) => {
            read_record(disk, end, limit, len, out)?;
            Ok(Some(len))
        }
        None => Ok(None),
    }
}
