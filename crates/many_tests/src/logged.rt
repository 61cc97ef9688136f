//! A log beside connections: its bytes, a disk that fails, and a crash at each call.
ghost use Rattle.std.specs.Prelude.{◌≤◌, length, None, IfSome};

use express_words::NoMemory;
use logged_hub::{LogFault, LoggedHub, batch_of, read_records};
use many_wires::{RecordLog, Wires};
use many_words::{Door, Entry, Failed, Hub, Taken};
use node_journal::{Journal, JournalFault, MemoryDisk};
use std::alloc::{AllocError, Global};
use std::test::Fail;

const LIMIT: u64 = 21;

const THREE: [u8; 20] = [
    1, 0, 0, 0, 1, 0xaa, 1, 0, 0, 0, 1, 0xbb, 1, 0, 0, 0, 2, 0xcc, 0xdd, 0,
];

// No connection ever comes.
#[derive(Drop)]
struct NoWires;

impl Wires for NoWires {
    ghost told = { λ wires. None };

    fn wait(&mut self) -> u64 {
        0
    }

    fn open(&mut self, _place: usize, _door: Door) -> bool {
        false
    }

    fn take(&mut self, _place: usize, _door: Door, _buf: &mut [u8]) -> Taken {
        Taken::Over
    }

    fn close(&mut self, _place: usize) {}

    fn knocks(&mut self, _door: Door) -> bool {
        false
    }

    fn drop_for_another(&mut self, _place: usize) {}

    fn leave(&mut self, _place: usize) {}

    fn send(&mut self, _place: usize, _bytes: &[u8]) {}

    fn send_again(&mut self, _place: usize, _bytes: &[u8]) {}
}

// A disk without a byte, whose call of this number fails, 0 for none.
fn disk(alloc: Global, arriving: &[u8], failing: u64) -> Result<MemoryDisk, NoMemory> {
    MemoryDisk::new(alloc, &[], arriving, 16, 64, &[failing])
}

// A hub over a journal of one record.
fn hub(alloc: Global, disk: MemoryDisk) -> Result<LoggedHub<NoWires, MemoryDisk>, Fail> {
    let mut disk = disk;
    let journal = Journal::create(&mut disk, LIMIT, &[0xaa])?;
    let mut held = RecordLog::new();
    held.note(&[0xaa]);
    let batch = batch_of(alloc, 2)?;
    Ok(LoggedHub::open(NoWires, journal, disk, held, batch))
}

fn entry(alloc: Global, place: usize, noted: Option<&[u8]>) -> Result<Entry, AllocError>
    requires { IfSome noted (λ bytes. length bytes.now ≤ 2) }
{
    let mut entry = Entry::empty(alloc)?;
    entry.fill(place, Door::Clients, &[7], noted);
    Ok(entry)
}

// Three frames, of which the second has no record.
fn entries(alloc: Global) -> Result<Vec<Entry>, AllocError> {
    let mut entries = Vec::new(alloc);
    entries.push(entry(alloc, 2, Some(&[0xbb]))?)?;
    entries.push(entry(alloc, 3, None)?)?;
    entries.push(entry(alloc, 4, Some(&[0xcc, 0xdd]))?)?;
    Ok(entries)
}

#[test]
fn records_of_frames_together(rt: HostRuntime) -> Result<(), Fail> {
    let alloc = rt.alloc();
    let entries = entries(alloc)?;
    let mut hub = hub(alloc, disk(alloc, &[], 0)?)?;
    assert_eq!(rt; hub.log(&entries), Ok(()));
    assert_eq!(rt; hub.log(entries.get(1..2).unwrap_or(&[])), Ok(()));
    assert_eq!(rt; hub.log(&entries), Err(Failed));
    assert_eq!(rt;
        hub.fault(),
        Some(LogFault::Journal(JournalFault::Full(19)))
    );
    let (_, disk) = hub.into_parts();
    assert!(rt; disk.bytes() == &THREE[..]);
    let mut disk = disk;
    assert_eq!(rt; read_records(&mut disk, LIMIT)?.count, 3);
    Ok(())
}

#[test]
fn once_failed_it_stays_so(rt: HostRuntime) -> Result<(), Fail> {
    let alloc = rt.alloc();
    let entries = entries(alloc)?;
    // the second write, which opens the gate
    let mut hub = hub(alloc, disk(alloc, &[], 10)?)?;
    assert_eq!(rt; hub.log(&entries), Err(Failed));
    assert_eq!(rt; hub.fault(), Some(LogFault::Journal(JournalFault::Disk(1))));
    assert_eq!(rt; hub.log(&entries), Err(Failed));
    assert_eq!(rt; hub.log(entries.get(1..2).unwrap_or(&[])), Err(Failed));
    let (_, disk) = hub.into_parts();
    assert!(rt; disk.left().get(6) == Some(&0));
    Ok(())
}

// Whether a crash at this call, in which these bytes arrive, leaves all records, or none of the batch.
fn leaves_all_or_none(
    alloc: Global,
    entries: &[Entry],
    number: u64,
    arriving: &[u8],
) -> Result<bool, Fail> {
    let mut hub = hub(alloc, disk(alloc, arriving, number)?)?;
    let done = hub.log(entries).is_ok();
    let (_, disk) = hub.into_parts();
    let all = disk.left() == &THREE[..];
    Ok(all || (!done && disk.left().get(6) != Some(&1)))
}

// Calls 8 to 11 are the write behind the gate, its sync, the write of the gate and its sync.
#[test]
fn a_crash_leaves_all_or_none(rt: HostRuntime) -> Result<(), Fail> {
    let alloc = rt.alloc();
    let entries = entries(alloc)?;
    for number in 8..13 {
        for arrived in 0..14 {
            assert!(rt; leaves_all_or_none(alloc, &entries, number, &THREE[7..7 + arrived])?);
        }
    }
    Ok(())
}
