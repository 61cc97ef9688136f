//! What was done to a disk in memory, in room that was taken before.
ghost use Rattle.std.specs.Prelude.{◌≡◌, ◌≤◌, ◌↔◌, length, IfOk, IsTrue};
ghost use Rattle.node_journal.specs.History.{began};
ghost use Rattle.node_journal.specs.Memory.{LacksRoom, write_noted, sync_noted};

use express_words::NoMemory;
use std::alloc::Global;
use std::marker::Model;

/// A write at an offset with its number of bytes, or a sync.
#[derive(Clone, Copy)]
pub enum Step {
    Write(u64, usize),
    Sync,
}

/// The bytes at first, the steps since, and the bytes of all writes one after another.
#[derive(Drop)]
pub struct DiskLog {
    first: Vec<u8>,
    steps: Vec<Step>,
    texts: Vec<u8>,
    calls: usize,
    room: usize,
}

impl Model for DiskLog {
    ghost use Rattle.std.specs.Prelude.{◌≡◌, ◌+◌, ◌≤◌, length, vec_len, vec_capacity};
    ghost use Rattle.node_journal.specs.History.{began};
    ghost use Rattle.node_journal.specs.Memory.{LogState, replay, text_bytes};

    ghost Value = { LogState };

    ghost view = { λ l.
        record {
          history = replay (began l.first.items) l.steps.items l.texts.items;
          calls = l.calls;
          room = l.room;
        } };

    ghost invariant = { λ l. (vec_len l.steps + l.calls ≤ vec_capacity l.steps)
        × (vec_len l.texts + l.room ≤ vec_capacity l.texts)
        × (text_bytes l.steps.items ≡ length l.texts.items) };
}

impl DiskLog {
    /// Room for `calls` writes and syncs, and for `room` bytes of the writes.
    pub fn new(alloc: Global, first: &[u8], calls: usize, room: usize) -> Result<DiskLog, NoMemory>
        ensures { IfOk result (λ l. l ≡ record { history = began first.now; calls = calls; room = room }) }
    {
        let Ok(first) = Vec::from_slice(alloc, first) else {
            return Err(NoMemory);
        };
        let Ok(steps) = Vec::with_capacity(alloc, calls) else {
            return Err(NoMemory);
        };
        let Ok(texts) = Vec::with_capacity(alloc, room) else {
            return Err(NoMemory);
        };
        Ok(DiskLog {
            first,
            steps,
            texts,
            calls,
            room,
        })
    }

    /// Whether there is no room for one more call, or for so many bytes of it.
    pub fn lacks_room(&self, bytes: usize) -> bool
        ensures { IsTrue result ↔ LacksRoom self.now bytes }
    {
        self.calls < 1 || self.room < bytes
    }

    /// Notes a write of `bytes` at the offset `at`.
    pub fn write(&mut self, at: u64, bytes: &[u8])
        requires { (1 ≤ self.old.calls) × (length bytes.now ≤ self.old.room) }
        ensures { self.new ≡ write_noted at bytes.now self.old }
    {
        let Ok(()) = self.steps.push(Step::Write(at, bytes.len())) else {
            unreachable!()
        };
        let Ok(()) = self.texts.extend_from_slice(bytes) else {
            unreachable!()
        };
        self.calls -= 1;
        self.room -= bytes.len();
    }

    /// Notes a sync.
    pub fn sync(&mut self)
        requires { 1 ≤ self.old.calls }
        ensures { self.new ≡ sync_noted self.old }
    {
        let Ok(()) = self.steps.push(Step::Sync) else {
            unreachable!()
        };
        self.calls -= 1;
    }
}
