//! A disk in memory.
ghost use Rattle.std.specs.Prelude.{◌≡◌, ℕ, List, ◌≤◌, ◌↔◌, ◌⊎◌, ◌+◌, drop, length, IfOk, OnOk, OnErr, IsErr, vec_len, vec_capacity};
ghost use Rattle.std.proofs.Common.{sym, subst, ◌∙◌};
ghost use Rattle.express_words.specs.Causes.{HasCause};
ghost use Rattle.express_words.specs.Seen.{silent};
ghost use Rattle.express_words.specs.Memory.{IsListed};
ghost use Rattle.node_journal.specs.Disk.{CountsFault, Holds, Torn, Copies, Follows, Within, IsUntouched, Elapses};
ghost use Rattle.node_journal.specs.History.{bytes_of, left_of, seen_of, Reads, MayLeave, MayLeaveAfter, moment_of};
ghost use Rattle.std.proofs.Math.Nat.{sub_self, sub-eq-zero_of_le};
ghost use Rattle.node_journal.specs.Memory.{DiskState, LacksRoom, call_failed, call_passed, disk_made, write_noted, sync_noted};

use crate::Disk;
use crate::disk_log::DiskLog;
use crate::overwrite::{copy_from, front, overwrite};
use express_words::NoMemory;
use express_words::outside::{CallLog, Counted, Failed};
use std::alloc::Global;
use std::marker::Model;

/// Bytes that are written and synced, which it tells, as well as what a crash leaves of them. Reads, writes
/// and syncs are numbered together, from 1. The calls whose numbers are listed fail, and so does a write or
/// a sync for which the room is too small; a call that fails changes nothing but the counts.
#[derive(Drop)]
pub struct MemoryDisk {
    bytes: Vec<u8>,
    left: Vec<u8>,
    arriving: Vec<u8>,
    log: DiskLog,
    calls: CallLog,
}

impl Model for MemoryDisk {
    ghost use Rattle.std.specs.Prelude.{◌≡◌, ◌+◌, ◌≤◌, vec_len, vec_capacity};
    ghost use Rattle.node_journal.specs.History.{bytes_of, left_of};
    ghost use Rattle.node_journal.specs.Memory.{DiskState};

    ghost Value = { DiskState };

    ghost view = { λ d. record { arriving = d.arriving.items; log = d.log; tally = d.calls } };

    ghost invariant = { λ d. (d.bytes.items ≡ bytes_of d.log.history)
        × (d.left.items ≡ left_of d.arriving.items d.log.history)
        × (vec_len d.left + d.log.room ≤ vec_capacity d.left)
        × (vec_len d.bytes + d.log.room ≤ vec_capacity d.bytes)
        × (vec_len d.bytes + d.log.room ≤ vec_capacity d.left) };
}

fn filled(alloc: Global, bytes: &[u8], room: usize) -> Result<Vec<u8>, NoMemory>
    ensures bytes { IfOk result (λ buffer. buffer.items ≡ bytes.now) }
    ensures room { IfOk result (λ buffer. vec_len buffer + room ≤ vec_capacity buffer) }
{
    let Some(size) = bytes.len().checked_add(room) else {
        return Err(NoMemory);
    };
    let Ok(mut buffer) = Vec::with_capacity(alloc, size) else {
        return Err(NoMemory);
    };
    let Ok(()) = buffer.extend_from_slice(bytes) else {
        unreachable!()
    };
    Ok(buffer)
}

impl MemoryDisk {
    /// A disk with a copy of `bytes`, all of them synced, and room for `calls` writes and syncs and `room`
    /// bytes of the writes. A crash leaves of each write that wasn't synced a copy of `arriving` from the
    /// write's first byte on, as far as the write reaches, and the rest as it was. `failing` are the
    /// numbers of the calls that are to fail.
    pub fn new(
        alloc: Global,
        bytes: &[u8],
        arriving: &[u8],
        calls: usize,
        room: usize,
        failing: &[u64],
    ) -> Result<MemoryDisk, NoMemory>
        ensures { IfOk result (λ d. d ≡ disk_made bytes.now arriving.now calls room failing.now) }
    {
        let Ok(arriving) = Vec::from_slice(alloc, arriving) else {
            return Err(NoMemory);
        };
        Ok(MemoryDisk {
            bytes: filled(alloc, bytes, room)?,
            left: filled(alloc, bytes, room)?,
            arriving,
            log: DiskLog::new(alloc, bytes, calls, room)?,
            calls: CallLog::new(alloc, failing)?,
        })
    }

    /// What a read gives.
    pub fn bytes(&self) -> &[u8]
        ensures { result.now ≡ bytes_of self.now.log.history }
    {
        &self.bytes
    }

    /// What a crash now leaves, which is one of the contents that a crash may leave.
    pub fn left(&self) -> &[u8]
        ensures value { result.now ≡ left_of self.now.arriving self.now.log.history }
        ensures may_be { MayLeave self.now.log.history result.now }
    {
        &self.left
    }
}

impl Counted for MemoryDisk {
    ghost seen = { λ d. silent d.tally.faults };

    fn faults(&self) -> u64 {
        self.calls.faults()
    }
}

impl Disk for MemoryDisk {
    ghost disk = { λ d. seen_of d.log.history };

    ghost one_content = { λ d b c is also. is ∙ sym also };

    ghost counts_now = { λ d t c le now. (
      moment_of d.log.history,
      le,
      subst (λ k. MayLeaveAfter d.log.history.first (drop k d.log.history.changes) c)
          (sym (sub_self (moment_of d.log.history))) now,
    ) };

    ghost only_now = { λ d c left.
        subst (λ k. MayLeaveAfter d.log.history.first (drop k d.log.history.changes) c)
        (sub-eq-zero_of_le left.1) left.2 };

    fn read(&mut self, at: u64, out: &mut [u8]) -> Result<usize, Failed>
        ensures bound { IfOk result (λ n. n ≤ length out.new) }
        ensures length { length out.new ≡ length out.old }
        ensures bytes { IfOk result (λ n. (c : List ℕ) → Reads self.old.log.history c
            → Copies at n out.old out.new c) }
        ensures untouched { IsUntouched (seen_of self.old.log.history) (seen_of self.new.log.history) }
        ensures time { Elapses (seen_of self.old.log.history) (seen_of self.new.log.history) }
        ensures cause { HasCause self.old.tally.faults self.new.tally.faults result }
        ensures counts { CountsFault self.old.tally.faults self.new.tally.faults result }
        ensures fails { IsErr result ↔ IsListed self.old.tally }
        ensures after { OnOk result (self.new ≡ call_passed self.old.log self.old) }
        ensures stays { OnErr result ((self.new ≡ call_failed self.old) × (out.new ≡ out.old)) }
    {
        if self.calls.begin() {
            self.calls.fail();
            return Err(Failed);
        }
        Ok(copy_from(&self.bytes, at, out))
    }

    fn write(&mut self, at: u64, bytes: &[u8]) -> Result<(), Failed>
        requires { (c : List ℕ) → Reads self.old.log.history c → at ≤ length c }
        ensures written { OnOk result
            (Follows (Holds at bytes.now) (Reads self.old.log.history) (Reads self.new.log.history)) }
        ensures crash { Follows (Torn at (length bytes.now)) (MayLeave self.old.log.history)
            (MayLeave self.new.log.history) }
        ensures time { Elapses (seen_of self.old.log.history) (seen_of self.new.log.history) }
        ensures cause { HasCause self.old.tally.faults self.new.tally.faults result }
        ensures counts { CountsFault self.old.tally.faults self.new.tally.faults result }
        ensures fails { IsErr result ↔ (IsListed self.old.tally ⊎ LacksRoom self.old.log (length bytes.now)) }
        ensures after { OnOk result
            (self.new ≡ call_passed (write_noted at bytes.now self.old.log) self.old) }
        ensures stays { OnErr result (self.new ≡ call_failed self.old) }
    {
        if self.calls.begin() || self.log.lacks_room(bytes.len()) {
            self.calls.fail();
            return Err(Failed);
        }
        let place = at as usize;
        overwrite(&mut self.bytes, place, bytes);
        overwrite(&mut self.left, place, front(&self.arriving, bytes.len()));
        self.log.write(at, bytes);
        Ok(())
    }

    fn sync(&mut self) -> Result<(), Failed>
        ensures durable { OnOk result (Within (MayLeave self.new.log.history) (Reads self.new.log.history)) }
        ensures untouched { IsUntouched (seen_of self.old.log.history) (seen_of self.new.log.history) }
        ensures time { Elapses (seen_of self.old.log.history) (seen_of self.new.log.history) }
        ensures cause { HasCause self.old.tally.faults self.new.tally.faults result }
        ensures counts { CountsFault self.old.tally.faults self.new.tally.faults result }
        ensures fails { IsErr result ↔ (IsListed self.old.tally ⊎ LacksRoom self.old.log 0) }
        ensures after { OnOk result (self.new ≡ call_passed (sync_noted self.old.log) self.old) }
        ensures stays { OnErr result (self.new ≡ call_failed self.old) }
    {
        if self.calls.begin() || self.log.lacks_room(0) {
            self.calls.fail();
            return Err(Failed);
        }
        self.left.clear();
        let Ok(()) = self.left.extend_from_slice(&self.bytes) else {
            unreachable!()
        };
        self.log.sync();
        Ok(())
    }
}
