//! The letters of a desk.
ghost use Rattle.std.specs.Prelude.{◌≡◌, map, IfOk, OnOk};
ghost use Rattle.kept_machine.specs.Faults.{OnStill};
ghost use Rattle.desk_entries.specs.Letters.{letters_of, shown_of, unseen_of, written_of};
ghost use Rattle.desk_entries.specs.Records.{entry_record};
ghost use Rattle.desk_ledger.specs.Ledgers.{EntriesOnly, IsOnDisk};
ghost use Rattle.desk_ledger.specs.Notes.{Notes};

use crate::ledger::Ledger;
use client_restart::KeepFault;
use desk_entries::{Entry, Reading, letters_of, shown_of, unseen_of, written_of};
use express_words::NoMemory;
use node_journal::Disk;

impl<D: Disk> Ledger<D> {
    /// The letters that are on the disk, and the boxes in which letters met, in the order in which they were
    /// read. A letter that came twice, by its id, is there once; a box that held nothing isn't.
    pub fn letters(&self) -> Result<Vec<&Reading>, NoMemory>
        ensures letters { IfOk result (λ told. map (λ r. r.now) told.items ≡ letters_of self.now.entries) }
        ensures remarks { self.now.client.core.remarks ≡ map entry_record self.now.entries }
        ensures stands { IsOnDisk D.disk self.now }
    {
        letters_of(self.alloc, &self.entries)
    }

    /// How many of the letters were shown.
    pub fn shown(&self) -> u32
        ensures { result ≡ shown_of self.now.entries }
    {
        shown_of(&self.entries)
    }

    /// So many of the letters were shown.
    #[tactic(auto, using(crate::proofs::KeepLaws::entries_only))]
    pub fn mark_shown(&mut self, count: u32) -> Result<(), KeepFault>
        ensures notes { Notes D.disk D.Counted.seen (Entry.Shown count) self.old self.new result }
        ensures only { EntriesOnly self.old self.new }
        ensures shown { OnOk result (shown_of self.new.entries ≡ count) }
        ensures stays { OnStill result (self.new ≡ self.old) }
    {
        self.note(Entry::Shown(count))
    }

    /// How many of the letters were written into files.
    pub fn written(&self) -> u32
        ensures { result ≡ written_of self.now.entries }
    {
        written_of(&self.entries)
    }

    /// So many of the letters were written into files.
    #[tactic(auto, using(crate::proofs::KeepLaws::entries_only))]
    pub fn mark_written(&mut self, count: u32) -> Result<(), KeepFault>
        ensures notes { Notes D.disk D.Counted.seen (Entry.Written count) self.old self.new result }
        ensures only { EntriesOnly self.old self.new }
        ensures written { OnOk result (written_of self.new.entries ≡ count) }
        ensures stays { OnStill result (self.new ≡ self.old) }
    {
        self.note(Entry::Written(count))
    }

    /// How many of the letters nobody has seen: they are in no file, and weren't shown, or can't be, since
    /// they are no text.
    pub fn unseen(&self) -> Result<usize, NoMemory>
        ensures { IfOk result (λ count. count ≡ unseen_of self.now.entries) }
    {
        unseen_of(self.alloc, &self.entries)
    }
}
