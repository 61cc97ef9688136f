//! A disk crashes at each of its calls, and at each byte that isn't synced.
use crate::fault::{Fault, Result};
use crate::records::records_of;
use crate::texts::front_of;
use std::alloc::Global;

/// No work makes so many calls on its disk.
const CALLS: u64 = 128;

/// What a crash left: how many records were there before the one that it cut off, how many are on the disk, whether the
/// work went on from them to the same end as with no crash, and whether it then told an outcome again.
#[derive(Clone, Copy)]
pub(crate) struct Left {
    pub(crate) before: usize,
    pub(crate) records: usize,
    pub(crate) alike: bool,
    pub(crate) again: bool,
}

/// How many crashes there were; after how many the work went on to the same end; how many of these left the record that
/// was cut off, and how many only those before it; and after how many an outcome was told again.
#[derive(Clone, Copy)]
pub(crate) struct Tally {
    pub(crate) crashes: u32,
    pub(crate) alike: u32,
    pub(crate) with: u32,
    pub(crate) without: u32,
    pub(crate) again: u32,
}

/// Work on a disk, which was done once with no crash.
pub(crate) trait Work {
    /// What it left on the disk.
    fn disk(&self) -> &[u8];

    /// The same work on a disk that crashes at the call of this number, where so many bytes of a write that isn't synced
    /// arrive. None where the disk isn't in use before that call, or no more then.
    fn crash(&self, alloc: Global, call: u64, arriving: &[u8]) -> Result<Option<Left>>;
}

// What an append of a record writes behind the gate: the length, the record and a closed gate. No bytes for none.
fn body_of(alloc: Global, record: Option<&Vec<u8>>) -> Result<Vec<u8>> {
    let mut body = Vec::new(alloc);
    if let Some(record) = record {
        let length = u32::try_from(record.len()).map_err(|_| Fault::Unknown)?;
        body.extend_from_slice(&length.to_be_bytes())?;
        body.extend_from_slice(record)?;
        body.push(0)?;
    }
    Ok(body)
}

fn plus(count: u32, more: bool) -> u32 {
    if more { count.saturating_add(1) } else { count }
}

impl Tally {
    fn count(&mut self, before: usize, left: &Left) {
        let is_with = left.records == before.saturating_add(1);
        self.crashes = plus(self.crashes, true);
        self.alike = plus(self.alike, left.alike);
        self.with = plus(self.with, left.alike && is_with);
        self.without = plus(self.without, left.alike && left.records == before);
        self.again = plus(self.again, left.again);
    }
}

// Each number of bytes of the write behind the gate arrives in turn, and then the gate's byte.
fn crash_at_each_byte<W: Work>(
    alloc: Global,
    work: &W,
    call: u64,
    before: usize,
    body: &[u8],
    tally: &mut Tally,
) -> Result<()> {
    for arrived in 0..body.len() + 2 {
        let arriving: &[u8] = if arrived > body.len() {
            &[1]
        } else {
            front_of(body, arrived)
        };
        if let Some(left) = work.crash(alloc, call, arriving)? {
            tally.count(before, &left);
        }
    }
    Ok(())
}

/// Crashes at each call from the first on that the work makes, and at one behind the last.
pub(crate) fn crash_everywhere<W: Work>(alloc: Global, work: &W) -> Result<Tally> {
    let mut tally = Tally {
        crashes: 0,
        alike: 0,
        with: 0,
        without: 0,
        again: 0,
    };
    let records = records_of(alloc, work.disk())?;
    for call in 1..CALLS {
        if let Some(probe) = work.crash(alloc, call, &[])? {
            let body = body_of(alloc, records.get(probe.before))?;
            crash_at_each_byte(alloc, work, call, probe.before, &body, &mut tally)?;
            if body.is_empty() {
                return Ok(tally);
            }
        }
    }
    Ok(tally)
}
