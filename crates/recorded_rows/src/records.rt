//! A journal's bytes, and the records of bytes.
use crate::disk::disk_of;
use crate::fault::{Fault, Result};
use crate::fields::{bytes_of, first_of};
use crate::texts::{bytes_text, front_of};
use node_journal::{Journal, MemoryDisk, RECORD_MAX};
use std::alloc::Global;
use std::marker::Model;

/// The bytes of the disk may be so many.
const LIMIT: u64 = 65536;

// Makes a journal with a first record, and appends the second where that has a byte.
fn write_both(disk: &mut MemoryDisk, first: &[u8], second: &[u8]) -> Result<()> {
    if first.is_empty() || first.len() > RECORD_MAX || second.len() > RECORD_MAX {
        return Err(Fault::Unknown);
    }
    let mut journal = Journal::create(disk, LIMIT, first)?;
    if !second.is_empty() {
        journal.append(disk, second)?;
    }
    Ok(())
}

// What stands on a disk after both.
fn journal_bytes(alloc: Global, first: &[u8], second: &[u8]) -> Result<Vec<u8>> {
    let mut disk = disk_of(alloc, &[], 0, &[])?;
    write_both(&mut disk, first, second)?;
    Ok(Vec::from_slice(alloc, disk.bytes())?)
}

/// What stands on a disk after two records.
pub(crate) fn journal_text(alloc: Global, text: &str) -> Result<String> {
    let (first, second) = first_of(text)?;
    let first = bytes_of(alloc, first)?;
    let second = bytes_of(alloc, second)?;
    bytes_text(alloc, &journal_bytes(alloc, &first, &second)?)
}

/// A journal that is read. Its contracts hide where it stands.
struct Walk {
    journal: Journal,
    disk: MemoryDisk,
}

impl Model for Walk {
    ghost use Rattle.std.specs.Prelude.{◌≡◌, false};
    ghost use Rattle.node_journal.specs.Journal.{IsInPlace};
    ghost use Rattle.node_journal.specs.History.{seen_of};

    ghost Value = { Unit {0} };

    ghost view = { λ _. tt };

    ghost invariant = { λ w. w.journal.closed ≡ false
        → IsInPlace w.journal (seen_of w.disk.log.history) };
}

// Written out, so that a function that lets one go sees one call and not the drop of each part.
impl Drop for Walk {
    fn drop(self) {
        let Walk {
            journal: _,
            disk: _,
        } = self;
    }
}

impl Walk {
    fn open(alloc: Global, bytes: &[u8]) -> Result<Walk> {
        let mut disk = disk_of(alloc, bytes, 0, &[])?;
        let journal = Journal::open(&mut disk, LIMIT)?;
        Ok(Walk { journal, disk })
    }

    fn next(&mut self, alloc: Global) -> Result<Option<Vec<u8>>> {
        let mut out = [0u8; RECORD_MAX];
        match self.journal.next(&mut self.disk, &mut out) {
            Ok(Some(length)) => Ok(Some(Vec::from_slice(alloc, front_of(&out, length))?)),
            Ok(None) => Ok(None),
            Err(fault) => Err(Fault::from(fault)),
        }
    }
}

/// The records on a disk of these bytes. Each of them has a byte at least.
pub(crate) fn records_of(alloc: Global, bytes: &[u8]) -> Result<Vec<Vec<u8>>> {
    let mut walk = Walk::open(alloc, bytes)?;
    let mut records = Vec::new(alloc);
    for _ in bytes {
        match walk.next(alloc)? {
            Some(record) => records.push(record)?,
            None => return Ok(records),
        }
    }
    Ok(records)
}

/// The records of a disk's bytes, each behind a space but the first.
pub(crate) fn records_text(alloc: Global, digits: &str) -> Result<String> {
    let bytes = bytes_of(alloc, digits)?;
    let mut text = String::new(alloc);
    for record in records_of(alloc, &bytes)? {
        if !text.is_empty() {
            text.push(' ')?;
        }
        text.push_str(bytes_text(alloc, &record)?.as_str())?;
    }
    Ok(text)
}
