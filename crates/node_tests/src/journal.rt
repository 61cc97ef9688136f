//! The bytes on a disk, damage, each fault of a disk, and a crash at every call and every byte that isn't
//! synced.
ghost use Rattle.std.specs.Prelude.{◌≤◌, ◌^◌};

use crate::told::is_told;
use express_words::NoMemory;
use express_words::outside::Counted;
use node_journal::{Journal, JournalFault, MemoryDisk, RECORD_MAX};
use std::alloc::{AllocError, Global};
use std::marker::Model;
use std::test::Fail;

const LIMIT: u64 = 14;

const ONE: [u8; 7] = [1, 0, 0, 0, 1, 0xaa, 0];

const TWO: [u8; 14] = [1, 0, 0, 0, 1, 0xaa, 1, 0, 0, 0, 2, 0xbb, 0xcc, 0];

// A disk whose call of this number fails, 0 for none.
fn disk(
    alloc: Global,
    bytes: &[u8],
    arriving: &[u8],
    failing: u64,
) -> Result<MemoryDisk, NoMemory> {
    MemoryDisk::new(alloc, bytes, arriving, 10, 64, &[failing])
}

/// A journal that is read. Its contracts hide where it stands.
struct Walk {
    journal: Journal,
    disk: MemoryDisk,
}

impl Model for Walk {
    ghost use Rattle.std.specs.Prelude.{◌≡◌, false};
    ghost use Rattle.node_journal.specs.Journal.{IsInPlace};
    ghost use Rattle.node_journal.specs.History.{seen_of};

    ghost Value = { Unit {0} };

    ghost view = { λ _. tt };

    ghost invariant = { λ w. w.journal.closed ≡ false
        → IsInPlace w.journal (seen_of w.disk.log.history) };
}

// Written out, so that a function that lets one go sees one call and not the drop of each part.
impl Drop for Walk {
    fn drop(self) {
        let Walk {
            journal: _,
            disk: _,
        } = self;
    }
}

impl Walk {
    fn open(alloc: Global, bytes: &[u8], limit: u64) -> Result<Walk, Fail>
        requires { limit ≤ 2 ^ 62 }
    {
        let mut disk = disk(alloc, bytes, &[], 0)?;
        let journal = Journal::open(&mut disk, limit)?;
        Ok(Walk { journal, disk })
    }

    fn next(&mut self, out: &mut [u8; RECORD_MAX]) -> Result<Option<usize>, JournalFault> {
        self.journal.next(&mut self.disk, out)
    }
}

// The next record, or what stands in its place.
fn next_told(walk: &mut Walk, told: &mut String) -> Result<(), AllocError> {
    let mut out = [0; RECORD_MAX];
    match walk.next(&mut out) {
        Ok(Some(len)) => write!(told, "{:?} ", &out[..len.min(RECORD_MAX)]),
        Ok(None) => told.push_str("end "),
        Err(fault) => write!(told, "{fault} "),
    }
}

// What three reads on a disk of these bytes tell, under this limit.
pub(crate) fn records_within(limit: u64, alloc: Global, bytes: &[u8]) -> Result<String, Fail>
    requires { limit ≤ 2 ^ 62 }
{
    let mut walk = Walk::open(alloc, bytes, limit)?;
    let mut told = String::new(alloc);
    for _ in 0..3u8 {
        next_told(&mut walk, &mut told)?;
    }
    Ok(told)
}

fn records_told(alloc: Global, bytes: &[u8]) -> Result<String, Fail> {
    records_within(LIMIT, alloc, bytes)
}

fn disks_told(alloc: Global, disks: &[&[u8]]) -> Result<String, Fail> {
    let mut told = String::new(alloc);
    for bytes in disks {
        told.push_str(records_told(alloc, bytes)?.as_str())?;
        told.push('\n')?;
    }
    Ok(told)
}

// Both records; a gate that is neither open nor closed; a length that is too great; one that passes the end; a gate
// that is missing.
const DISKS: [&[u8]; 5] = [
    &TWO,
    &[1, 0, 0, 0, 1, 0xaa, 7, 0, 0, 0, 2, 0xbb, 0xcc, 0],
    &[1, 0xff, 0xff, 0xff, 0xff],
    &[1, 0, 0, 0, 1, 0xaa, 1, 0, 0, 0, 3, 0xbb, 0xcc, 0],
    &[1, 0, 0, 0, 1, 0xaa, 1, 0, 0, 0, 2, 0xbb, 0xcc],
];

const RECORDS: &str = "[170] [187, 204] end \n[170] end end \n\
    journal damaged 0 journal damaged 0 journal damaged 0 \n\
    [170] journal damaged 6 journal damaged 6 \n[170] journal damaged 6 journal damaged 6 \n";

#[test]
fn records_on_a_disk(rt: HostRuntime) -> Result<(), Fail> {
    is_told(disks_told(rt.alloc(), &DISKS), RECORDS)
}

// Whether the disk has these bytes.
fn holds(disk: &MemoryDisk, bytes: &[u8]) -> bool {
    disk.bytes() == bytes
}

// Makes a journal, adds a record to it, and one for which there is no room, and makes another, which is refused.
// Whether the disk has the bytes `ONE` after the first, and `TWO` after each of the others.
fn fill(disk: &mut MemoryDisk) -> Result<[bool; 4], JournalFault> {
    let mut journal = Journal::create(disk, LIMIT, &[0xaa])?;
    let made = holds(disk, &ONE);
    journal.append(disk, &[0xbb, 0xcc])?;
    let added = holds(disk, &TWO);
    let full = journal.append(disk, &[0xdd]) == Err(JournalFault::Full(13));
    let full = full && holds(disk, &TWO);
    let again = Journal::create(disk, LIMIT, &[0xaa]).err();
    Ok([made, added, full, again == Some(JournalFault::NotEmpty)])
}

fn is_filled(alloc: Global) -> Result<bool, Fail> {
    let mut disk = disk(alloc, &[], &[], 0)?;
    Ok(fill(&mut disk)? == [true; 4])
}

#[test]
fn bytes_on_the_disk(rt: HostRuntime) -> Result<(), Fail> {
    assert!(rt; is_filled(rt.alloc())?);
    Ok(())
}

// Opens a disk with one record, reads it, appends another and says how the append ended.
fn append(disk: &mut MemoryDisk) -> Result<(), JournalFault> {
    let mut journal = Journal::open(disk, LIMIT)?;
    let mut out = [0; RECORD_MAX];
    match journal.next(disk, &mut out)? {
        Some(_) => {}
        None => return Err(JournalFault::NotEmpty),
    }
    match journal.next(disk, &mut out)? {
        Some(_) => return Err(JournalFault::NotEmpty),
        None => {}
    }
    match journal.append(disk, &[0xbb, 0xcc]) {
        Ok(()) => Ok(()),
        Err(fault) => {
            let closed = journal.append(disk, &[0xbb, 0xcc]);
            if closed != Err(JournalFault::Closed) {
                return closed;
            }
            Err(fault)
        }
    }
}

// Whether an append of which this call fails answers the disk's fault, the only one.
fn fails_at(alloc: Global, number: u64) -> Result<bool, NoMemory> {
    let mut disk = disk(alloc, &ONE, &[], number)?;
    let end = append(&mut disk);
    Ok(end == Err(JournalFault::Disk(1)) && disk.faults() == 1)
}

// Each call fails once.
#[test]
fn calls_fail(rt: HostRuntime) -> Result<(), Fail> {
    let mut failing = 0u64;
    for number in 1..10 {
        failing = failing.wrapping_add(u64::from(fails_at(rt.alloc(), number)?));
    }
    assert!(rt; failing == 9);
    Ok(())
}

fn is_appended(disk: &mut MemoryDisk) -> bool {
    append(disk).is_ok()
}

// Whether an append and a crash leave the record before it, or that and the new one.
fn leaves_whole(alloc: Global, disk: &mut MemoryDisk) -> Result<bool, Fail> {
    let done = is_appended(disk);
    let told = records_told(alloc, disk.left())?;
    let added = told.as_str() == "[170] [187, 204] end ";
    Ok(added || (!done && told.as_str() == "[170] end end "))
}

fn crash(alloc: Global, number: u64, arriving: &[u8]) -> Result<u32, Fail> {
    let mut disk = disk(alloc, &ONE, arriving, number)?;
    Ok(u32::from(leaves_whole(alloc, &mut disk)?))
}

// How many crashes at this call leave whole records, where each number of bytes arrives, and then this noise or
// nothing.
fn crashes(alloc: Global, number: u64, noise: u8) -> Result<u32, Fail> {
    let mut whole = 0u32;
    for arrived in 0..8 {
        let mut arriving = [noise; 7];
        arriving[..arrived].copy_from_slice(&TWO[7..7 + arrived]);
        whole = whole.wrapping_add(crash(alloc, number, &arriving)?);
        whole = whole.wrapping_add(crash(alloc, number, &arriving[..arrived])?);
    }
    Ok(whole)
}

fn noisy_crashes(alloc: Global, noise: u8) -> Result<u32, Fail> {
    let mut whole = 0u32;
    for number in 6..11 {
        whole = whole.wrapping_add(crashes(alloc, number, noise)?);
    }
    Ok(whole)
}

// Calls 6 to 9 are the write behind the gate, its sync, the write of the gate and its sync: a crash there leaves the
// record or not.
#[test]
fn the_disk_crashes(rt: HostRuntime) -> Result<(), Fail> {
    for noise in [0, 1, 7, 0xff] {
        let whole = noisy_crashes(rt.alloc(), noise)?;
        assert!(rt; whole == 80);
    }
    Ok(())
}
