//! A record is on the disk before its step.
ghost use Rattle.std.specs.Prelude.{◌≡◌, ◌≤◌, true, false, OnErr, None, length};
ghost use Rattle.node_journal.specs.Records.{IsSized};
ghost use Rattle.node_journal.specs.Journal.{CountsDisk, IsInPlace};
ghost use Rattle.kept_machine.specs.Keeps.{IsFaultBefore, WritesRecord};

use node_journal::{Disk, Journal, JournalFault};
use std::marker::Model;

/// So many bytes stand before a record's own: its gate and its length.
const HEAD_LEN: u64 = 5;

/// A journal that tells what it will not write, before anything else is done for it.
#[derive(Drop)]
pub(crate) struct KeptJournal {
    journal: Journal,
    limit: u64,
    closed: bool,
}

impl Model for KeptJournal {
    ghost use Rattle.std.specs.Prelude.{◌≡◌};
    ghost use Rattle.node_journal.specs.Journal.{JournalState};

    ghost Value = { JournalState };

    ghost view = { λ j. j.journal };

    ghost invariant = { λ j. (j.limit ≡ j.journal.limit) × (j.closed ≡ j.journal.closed) };
}

impl KeptJournal {
    /// The same journal, whose limit this is and of which no call on the disk has failed.
    pub(crate) fn of(journal: Journal, limit: u64) -> KeptJournal
        requires limit { journal.limit ≡ limit }
        requires still_open { journal.closed ≡ false }
        ensures { result ≡ journal }
    {
        KeptJournal {
            journal,
            limit,
            closed: false,
        }
    }

    /// The journal.
    pub(crate) fn into_journal(self) -> Journal
        ensures { result ≡ self }
    {
        let KeptJournal {
            journal,
            limit: _,
            closed: _,
        } = self;
        journal
    }

    /// How many bytes the records take.
    pub(crate) fn end(&self) -> u64
        ensures { result ≡ self.now.end }
    {
        self.journal.end()
    }

    /// Why a record won't be written, if it won't.
    pub(crate) fn fault_before(&self, bytes: &[u8]) -> Option<JournalFault>
        requires { IsSized bytes.now }
        ensures { IsFaultBefore (length bytes.now) self.now result }
    {
        if self.closed {
            return Some(JournalFault::Closed);
        }
        let end = self.journal.end();
        if self.limit.saturating_sub(end) <= HEAD_LEN + bytes.len() as u64 {
            return Some(JournalFault::Full(end));
        }
        None
    }

    /// Appends a record that has space.
    pub(crate) fn append<D: Disk>(&mut self, disk: &mut D, bytes: &[u8]) -> Result<(), JournalFault>
        requires sized { IsSized bytes.now }
        requires free { IsFaultBefore (length bytes.now) self.old None }
        requires ready { self.old.ready ≡ true }
        requires in_place { IsInPlace self.old (D.disk disk.old) }
        ensures writes { WritesRecord D.disk bytes.now self.old self.new disk.old disk.new result }
        ensures counts { CountsDisk (D.Counted.seen disk.old).faults (D.Counted.seen disk.new).faults result }
        ensures ready { self.new.ready ≡ true }
        ensures limit { self.new.limit ≡ self.old.limit }
        ensures in_place { self.new.closed ≡ false
            → IsInPlace self.new (D.disk disk.new) }
    {
        match self.journal.append(disk, bytes) {
            Ok(()) => Ok(()),
            Err(fault) => {
                self.closed = true;
                Err(fault)
            }
        }
    }
}
