//! Records that go to a disk together: their bytes, and a crash at each call.
use crate::journal::records_within;
use express_words::NoMemory;
use node_journal::{Batch, BatchFull, Journal, JournalFault, MemoryDisk};
use std::alloc::Global;
use std::test::Fail;

const LIMIT: u64 = 21;

const THREE: [u8; 20] = [
    1, 0, 0, 0, 1, 0xaa, 1, 0, 0, 0, 1, 0xbb, 1, 0, 0, 0, 2, 0xcc, 0xdd, 0,
];

// A disk without a byte, whose call of this number fails, 0 for none.
fn disk(alloc: Global, arriving: &[u8], failing: u64) -> Result<MemoryDisk, NoMemory> {
    MemoryDisk::new(alloc, &[], arriving, 16, 64, &[failing])
}

// Two records, which fill the batch.
fn fill(batch: &mut Batch) -> Result<bool, BatchFull> {
    batch.push(&[0xbb])?;
    batch.push(&[0xcc, 0xdd])?;
    Ok(batch.push(&[0xee]) == Err(BatchFull))
}

// Makes a journal and appends the batch, once with room for it and once without.
fn append(disk: &mut MemoryDisk, batch: &Batch) -> Result<bool, JournalFault> {
    let mut journal = Journal::create(disk, LIMIT, &[0xaa])?;
    journal.append_all(disk, batch)?;
    Ok(journal.append_all(disk, batch) == Err(JournalFault::Full(19)))
}

#[test]
fn bytes_of_a_batch(rt: HostRuntime) -> Result<(), Fail> {
    let mut disk = disk(rt.alloc(), &[], 0)?;
    let mut batch = Batch::new(rt.alloc(), 14)?;
    assert!(rt; fill(&mut batch)?);
    assert!(rt; append(&mut disk, &batch)?);
    assert!(rt; disk.bytes() == &THREE[..]);
    Ok(())
}

// Whether a crash at this call, in which these bytes arrive, leaves the first record alone, or both others
// behind it.
fn leaves_all_or_none(
    alloc: Global,
    batch: &Batch,
    number: u64,
    arriving: &[u8],
) -> Result<bool, Fail> {
    let mut disk = disk(alloc, arriving, number)?;
    let done = append(&mut disk, batch).is_ok();
    let told = records_within(LIMIT, alloc, disk.left())?;
    let all = told.as_str() == "[170] [187] [204, 221] ";
    Ok(all || (!done && told.as_str() == "[170] end end "))
}

// How many crashes at this call leave all or none, where each number of bytes arrives.
fn crashes(alloc: Global, batch: &Batch, number: u64) -> Result<u32, Fail> {
    let mut whole = 0u32;
    for arrived in 0..14 {
        let is_whole = leaves_all_or_none(alloc, batch, number, &THREE[7..7 + arrived])?;
        whole = whole.wrapping_add(u32::from(is_whole));
    }
    Ok(whole)
}

// Calls 8 to 11 are the write behind the gate, its sync, the write of the gate and its sync.
#[test]
fn a_crash_leaves_all_or_none(rt: HostRuntime) -> Result<(), Fail> {
    let mut batch = Batch::new(rt.alloc(), 14)?;
    assert!(rt; fill(&mut batch)?);
    let mut whole = 0u32;
    for number in 8..13 {
        whole = whole.wrapping_add(crashes(rt.alloc(), &batch, number)?);
    }
    assert!(rt; whole == 70);
    Ok(())
}
