//! A record, held.
ghost use Rattle.std.specs.Prelude.{◌≡◌};
ghost use Rattle.node_journal.specs.Records.{IsSized};

use node_journal::RECORD_MAX;
use std::marker::Model;

/// The bytes of a record, 1 to 8,214: what a machine that works at doors takes as an input.
#[derive(Drop)]
pub struct Record {
    bytes: [u8; RECORD_MAX],
    len: usize,
}

impl Model for Record {
    ghost use Rattle.std.specs.Prelude.{◌≤◌, ℕ, List, take, length};

    ghost Value = { List ℕ };

    ghost view = { λ r. take r.len r.bytes };

    ghost invariant = { λ r. (1 ≤ r.len) × (r.len ≤ length r.bytes) };
}

impl Record {
    /// Of these bytes.
    pub fn of(bytes: &[u8]) -> Record
        requires sized { IsSized bytes.now }
        ensures { result ≡ bytes.now }
    {
        let mut room = [0; RECORD_MAX];
        room[..bytes.len()].copy_from_slice(bytes);
        Record {
            bytes: room,
            len: bytes.len(),
        }
    }

    /// Its bytes.
    pub fn bytes(&self) -> &[u8]
        ensures bytes { result.now ≡ self.now }
        ensures sized { IsSized self.now }
    {
        &self.bytes[..self.len]
    }

    /// Its bytes, at the front of `room`.
    pub fn put<'r>(&self, room: &'r mut [u8; RECORD_MAX]) -> &'r [u8]
        ensures bytes { result.now ≡ self.now }
        ensures sized { IsSized self.now }
    {
        let len = self.len;
        room[..len].copy_from_slice(&self.bytes[..len]);
        &room[..len]
    }
}
