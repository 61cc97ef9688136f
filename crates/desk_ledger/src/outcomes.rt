//! The outcomes of requests, stored.
ghost use Rattle.std.specs.Prelude.{◌≡◌, ◌≢◌, ◌⊎◌, ◌++◌, [], drop, Some, None, Ok, Err, IfOk, IfErr, IfSome, OnOk, OnErr};
ghost use Rattle.std.specs.Option.{option_to_list};
ghost use Rattle.client_restart.specs.Cores.{ended_in};
ghost use Rattle.desk_entries.specs.Records.{IsEntry};
ghost use Rattle.desk_ledger.specs.Ledgers.{EntriesOnly};
ghost use Rattle.desk_ledger.specs.Storing.{Misses, MissesAt, OfOldest, Stores, stored_of};

use crate::ledger::Ledger;
use crate::stored::Stored;
use crate::storing::entry_of;
use client_restart::{Ended, KeepFault};
use desk_entries::{Entry, has_outcome};
use express_words::NoMemory;
use node_journal::Disk;

// What is stored of the oldest outcome, and its entry, where that isn't there already.
#[derive(Drop)]
pub(crate) struct Oldest {
    stored: Stored,
    entry: Option<Entry>,
}

impl<D: Disk> Ledger<D> {
    /// Stores the oldest outcome that wasn't stored, at this time, in seconds since 1970 UTC. None where
    /// there is none. Only once its entry is on the disk is the outcome told to the client; where a crash
    /// came between, its serial tells that the entry is there.
    pub fn store(&mut self, seconds: u64) -> Result<Option<Stored>, KeepFault>
        ensures none { self.old.client.core.untold ≡ [] → (result ≡ Ok None) × (self.new ≡ self.old) }
        ensures stores { OfOldest self.old (λ e. Stores seconds e self.old self.new result) }
    {
        match self.oldest(seconds) {
            Ok(Some(found)) => self.store_one(found),
            Ok(None) => Ok(None),
            Err(_) => Err(KeepFault::NoMemory),
        }
    }

    // Its entry is there before the oldest outcome is told.
    fn store_one(&mut self, found: Oldest) -> Result<Option<Stored>, KeepFault>
        requires is { IfSome found.entry IsEntry }
        requires some { self.old.client.core.untold ≢ [] }
        ensures answer { IfOk result (λ stored. stored ≡ Some found.stored) }
        ensures noted { OnOk result (self.new.entries ≡ self.old.entries ++ option_to_list found.entry) }
        ensures not_noted { OnErr result ((self.new.entries ≡ self.old.entries)
            ⊎ (self.new.entries ≡ self.old.entries ++ option_to_list found.entry)) }
        ensures told { OnOk result (self.new.client.core.untold ≡ drop 1 self.old.client.core.untold) }
        ensures untold { OnErr result (self.new.client.core.untold ≡ self.old.client.core.untold) }
        ensures pair { self.new.pair ≡ self.old.pair }
        ensures opening { self.new.client.opening ≡ self.old.client.opening }
        ensures boxes { self.new.client.core.boxes ≡ self.old.client.core.boxes }
        ensures client { self.new.client.core.client ≡ self.old.client.core.client }
    {
        let Oldest { stored, entry } = found;
        match self.note_missing(entry) {
            Ok(()) => {}
            Err(fault) => return Err(fault),
        }
        match self.client.told() {
            Ok(()) => Ok(Some(stored)),
            Err(fault) => Err(fault),
        }
    }

    fn oldest(&self, seconds: u64) -> Result<Option<Oldest>, NoMemory>
        ensures none { result ≡ Ok None → self.now.client.core.untold ≡ [] }
        ensures some { IfOk result (λ found. IfSome found (λ x. self.now.client.core.untold ≢ [])) }
        ensures stored { OfOldest self.now (λ e. IfOk result (λ found.
            IfSome found (λ x. x.stored ≡ stored_of e))) }
        ensures misses { OfOldest self.now (λ e. IfOk result (λ found.
            IfSome found (λ x. MissesAt self.now seconds e x.entry))) }
        ensures is { IfOk result (λ found. IfSome found (λ x. IfSome x.entry IsEntry)) }
        ensures fault { IfErr result (λ e. self.now.client.core.untold ≢ []) }
    {
        match self.client.untold() {
            [ended, ..] => match self.missing_entry(ended, seconds) {
                Ok(entry) => Ok(Some(Oldest {
                    stored: Stored::of(ended),
                    entry,
                })),
                Err(fault) => Err(fault),
            },
            [] => Ok(None),
        }
    }

    #[tactic(auto, using(crate::proofs::KeepLaws::entries_only, crate::proofs::KeepLaws::entries_rest))]
    fn note_missing(&mut self, entry: Option<Entry>) -> Result<(), KeepFault>
        requires is { IfSome entry IsEntry }
        ensures noted { OnOk result (self.new.entries ≡ self.old.entries ++ option_to_list entry) }
        ensures not_noted { OnErr result (self.new.entries ≡ self.old.entries) }
        ensures only { EntriesOnly self.old self.new }
    {
        match entry {
            Some(entry) => self.note(entry),
            None => Ok(()),
        }
    }

    // The entry that an outcome leaves, where it isn't there already.
    fn missing_entry(&self, ended: &Ended, seconds: u64) -> Result<Option<Entry>, NoMemory>
        ensures misses { IfOk result (λ found. Misses self.now.entries self.now.client.core.boxes seconds
            (ended_in ended.now) found) }
        ensures is { IfOk result (λ found. IfSome found IsEntry) }
    {
        if has_outcome(&self.entries, ended.serial) {
            return Ok(None);
        }
        entry_of(self.alloc, self.client.boxes(), ended, seconds)
    }
}
