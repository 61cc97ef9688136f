//! Records that are appended together.
ghost use Rattle.std.specs.Prelude.{◌≡◌, ◌↔◌, IsTrue, ◌≤◌, ◌<◌, ◌+◌, ◌^◌, [], ◌∷◌, ◌++◌, List, ℕ, length, IfOk, OnOk, OnErr, take, drop};
ghost use Rattle.node_journal.specs.Batches.{BatchState, HasRoom, LacksRoom, with_record};
ghost use Rattle.node_journal.specs.Records.{AllSized, IsSized, opened};

use crate::HEAD_LEN;
use crate::append::{ROOM, stage};
use express_words::NoMemory;
use std::alloc::Global;
use std::fmt;
use std::marker::Model;

/// A batch has no room for a record.
#[derive(Clone, Copy, Debug, PartialEq, Eq)]
pub struct BatchFull;

impl fmt::Display for BatchFull {
    ghost use Rattle.std.specs.Prelude.{Some};
    ghost use Rattle.node_journal.specs.Texts.{batch_full_text};

    ghost output = { λ full. Some batch_full_text };

    fn fmt<W: fmt::Write>(&self, f: &mut fmt::Formatter<W>) -> fmt::Result {
        f.write_str("batch full")
    }
}

/// Records that are appended together, each of 1 to 8,214 bytes. All memory is taken when it is made.
#[derive(Drop)]
pub struct Batch {
    // Gates, lengths and records, with a closed gate behind them.
    room: Vec<u8>,
    used: usize,
}

impl Model for Batch {
    ghost use Rattle.std.specs.Prelude.{◌≤◌, take, length};
    ghost use Rattle.node_journal.specs.Batches.{BatchState, IsSpelled};
    ghost use Rattle.node_journal.specs.Records.{content};

    ghost Value = { BatchState };

    ghost view = { λ b. record { records = content (take b.used b.room.items); room = length b.room.items } };

    ghost invariant = { λ b. IsSpelled (content (take b.used b.room.items)) (take b.used b.room.items)
        × (b.used ≤ length b.room.items) };
}

// These bytes at an offset, in place of those that stand there.
fn put_at(room: &mut Vec<u8>, at: usize, bytes: &[u8])
    requires { at + length bytes.now ≤ length room.old.items }
    ensures length { length room.new.items ≡ length room.old.items }
    ensures put { room.new.items
        ≡ take at room.old.items ++ bytes.now ++ drop (at + length bytes.now) room.old.items }
{
    room.as_mut_slice()[at..at + bytes.len()].copy_from_slice(bytes);
}

impl Batch {
    /// An empty batch. So many bytes are for its records, with five more for each, and one at its end.
    pub fn new(alloc: Global, room: usize) -> Result<Batch, NoMemory>
        requires some { 1 ≤ room }
        ensures { IfOk result (λ b. b ≡ record { records = []; room = room }) }
    {
        match vec![in alloc; 0u8; room] {
            Ok(room) => Ok(Batch { room, used: 1 }),
            Err(_) => Err(NoMemory),
        }
    }

    /// One record more, of 1 to 8,214 bytes, behind those that are there.
    pub fn push(&mut self, bytes: &[u8]) -> Result<(), BatchFull>
        requires sized { IsSized bytes.now }
        ensures pushed { OnOk result (self.new ≡ with_record bytes.now self.old) }
        ensures had_room { OnOk result (HasRoom self.old (length bytes.now)) }
        ensures full { OnErr result (LacksRoom self.old (length bytes.now)) }
        ensures stays { OnErr result (self.new ≡ self.old) }
    {
        let size = HEAD_LEN + bytes.len();
        if self.room.len() - self.used < size {
            return Err(BatchFull);
        }
        let mut room = [0; ROOM];
        let staged = stage(bytes, &mut room);
        put_at(&mut self.room, self.used - 1, &[1]);
        put_at(&mut self.room, self.used, staged);
        self.used += size;
        Ok(())
    }

    /// Makes the batch empty.
    pub fn clear(&mut self)
        ensures { self.new ≡ record { records = []; room = self.old.room } }
    {
        self.room.as_mut_slice()[0] = 0;
        self.used = 1;
    }

    /// How many bytes the records take on a disk.
    pub fn size(&self) -> usize
        ensures value { result ≡ length (opened self.now.records) }
        ensures sized { AllSized self.now.records }
    {
        self.used - 1
    }

    /// Whether it has no record.
    pub fn is_empty(&self) -> bool
        ensures { IsTrue result ↔ self.now.records ≡ [] }
    {
        self.used == 1
    }

    /// What is written behind a closed gate.
    pub(crate) fn behind_gate(&self) -> &[u8]
        ensures value { result.now ≡ drop 1 (opened self.now.records ++ 0 ∷ []) }
        ensures sized { AllSized self.now.records }
    {
        &self.room.as_slice()[1..self.used]
    }
}
