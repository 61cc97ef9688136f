//! A tally that is kept: made, stepped, opened again, and told where it is none or damaged.
use crate::tally::Tally;
use crate::told::is_told;
use express_words::NoMemory;
use kept_machine::{Kept, take};
use node_journal::MemoryDisk;
use std::alloc::Global;
use std::test::Fail;

fn disk_of(alloc: Global, bytes: &[u8]) -> Result<MemoryDisk, NoMemory> {
    MemoryDisk::new(alloc, bytes, &[], 20, 256, &[])
}

// The tally on a disk, or why there is none.
fn opened_told(alloc: Global, bytes: &[u8], told: &mut String) -> Result<(), Fail> {
    let disk = disk_of(alloc, bytes)?;
    match Kept::<Tally, MemoryDisk>::reopen(alloc, disk, 64) {
        Ok(kept) => write!(told, "{} at {}, ", kept.machine().total, kept.used())?,
        Err((fault, _disk)) => write!(told, "{fault}, ")?,
    }
    Ok(())
}

// A tally of two numbers, and the one that its disk gives.
fn kept_told(alloc: Global) -> Result<String, Fail> {
    let mut told = String::new(alloc);
    let disk = disk_of(alloc, &[])?;
    match Kept::<Tally, MemoryDisk>::create(alloc, &[0], disk, 64) {
        Ok(kept) => {
            let mut kept = kept;
            for number in [200, 100u8] {
                write!(&mut told, "{}, ", take(&mut kept, &number, &mut [])?)?;
            }
            let disk = kept.into_disk();
            opened_told(alloc, disk.bytes(), &mut told)?;
        }
        Err((fault, _disk)) => write!(&mut told, "{fault}")?,
    }
    Ok(told)
}

#[test]
fn a_tally_stands_where_it_stood(rt: HostRuntime) -> Result<(), Fail> {
    is_told(kept_told(rt.alloc()), "200, 44, 44 at 20, ")
}

// One more record that is none of a tally's; a gate that is open with nothing behind it; no byte.
const DISKS: [&[u8]; 3] = [
    &[1, 0, 0, 0, 1, 0, 1, 0, 0, 0, 1, 9, 0],
    &[1, 0, 0, 0, 1, 0, 1],
    &[],
];

fn disks_told(alloc: Global) -> Result<String, Fail> {
    let mut told = String::new(alloc);
    for bytes in DISKS {
        opened_told(alloc, bytes, &mut told)?;
    }
    Ok(told)
}

#[test]
fn what_is_no_tally_is_told(rt: HostRuntime) -> Result<(), Fail> {
    is_told(
        disks_told(rt.alloc()),
        "journal foreign 1, journal damaged 6, journal foreign 0, ",
    )
}
