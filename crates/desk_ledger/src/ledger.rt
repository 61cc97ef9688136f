//! An owner's desk on a disk.
ghost use Rattle.std.specs.Prelude.{◌≡◌, false, map, Ok, Err, IfOk, is_none};
ghost use Rattle.kept_machine.specs.Faults.{OnStill};
ghost use Rattle.desk_entries.specs.Desks.{name_of};
ghost use Rattle.desk_entries.specs.Records.{AreEntries, IsEntry, entry_record};
ghost use Rattle.desk_ledger.specs.Notes.{Notes};

use crate::pair::Pair;
use client_restart::{KeepFault, KeptClient};
use desk_entries::{Entry, name_of};
use express_words::{NoMemory, Text};
use node_journal::Disk;
use std::alloc::Global;
use std::marker::Model;

/// An owner's desk: a client that remembers, whose remarks are the desk's entries.
#[derive(Drop)]
pub struct Ledger<D: Disk> {
    pub(crate) alloc: Global,
    pub(crate) pair: Pair,
    pub(crate) entries: Vec<Entry>,
    pub(crate) client: KeptClient<D>,
}

impl<D: Disk> Model for Ledger<D> {
    ghost use Rattle.std.specs.Prelude.{◌≡◌, false};
    ghost use Rattle.client_restart.specs.Kept.{StandsByNotes};
    ghost use Rattle.desk_ledger.specs.Ledgers.{IsDesk, LedgerState};

    ghost Value = { LedgerState D };

    ghost view = { λ l. record { pair = l.pair; entries = l.entries.items; client = l.client } };

    ghost invariant = { λ l. IsDesk l.pair l.entries.items l.client.core.remarks
        × (l.client.journal.closed ≡ false
        → StandsByNotes l.client.opening l.client.core (D.disk l.client.disk).reads) };
}

impl<D: Disk> Ledger<D> {
    // An entry is on the disk before the desk has it.
    pub(crate) fn note(&mut self, entry: Entry) -> Result<(), KeepFault>
        requires is { IsEntry entry }
        ensures notes { Notes D.disk D.Counted.seen entry self.old self.new result }
        ensures stays { OnStill result (self.new ≡ self.old) }
    {
        if self.entries.reserve(1).is_err() {
            return Err(KeepFault::NoMemory);
        }
        let Ok(record) = entry.record(self.alloc) else {
            return Err(KeepFault::NoMemory);
        };
        match self.client.remark(&record) {
            Ok(()) => {
                self.entries.push_reserved(entry);
                Ok(())
            }
            Err(fault) => Err(fault),
        }
    }

    /// Whether no request is under way.
    pub fn is_idle(&self) -> bool
        ensures { result ≡ is_none self.now.client.core.client.current }
    {
        self.client.is_idle()
    }

    /// The desk's entries, in order: `desk_entries` tells what is so after them.
    pub fn entries(&self) -> &[Entry]
        ensures value { result.now ≡ self.now.entries }
        ensures are { AreEntries result.now }
        ensures remarks { self.now.client.core.remarks ≡ map entry_record result.now }
    {
        &self.entries
    }

    /// The name of the box that this serial registered, or nothing.
    pub fn name_of(&self, registered: u32) -> &str
        ensures { result.now ≡ name_of self.now.entries registered }
    {
        name_of(&self.entries, registered)
    }

    /// The pair of servers.
    pub fn pair(&self) -> &Pair
        ensures { result.now ≡ self.now.pair }
    {
        &self.pair
    }

    /// The serial of the current request, or else of the next one; 2^32 where all are spent.
    pub fn serial(&self) -> u64
        ensures { result ≡ self.now.client.core.client.serial }
    {
        self.client.serial()
    }

    /// How many bytes of the disk the records take.
    pub fn used(&self) -> u64
        ensures { result ≡ self.now.client.journal.end }
    {
        self.client.used()
    }

    /// The disk, as the last call left it.
    pub fn into_disk(self) -> D
        ensures { result ≡ self.client.disk }
    {
        let Ledger {
            alloc: _,
            pair: _,
            entries: _,
            client,
        } = self;
        client.into_disk()
    }
}

pub(crate) fn copy_of(alloc: Global, text: &Text) -> Result<Text, NoMemory>
    ensures { IfOk result (λ copy. copy ≡ text.now) }
{
    let text = String::from_str(alloc, text.as_str())?;
    Ok(Text::from_string(text))
}
