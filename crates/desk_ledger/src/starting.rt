//! A desk is opened, and opened again.
ghost use Rattle.std.specs.Prelude.{◌≡◌, ◌≤◌, ◌^◌, ◌∷◌, [], ℕ, List as Listed, map, IfOk, IfErr, OnOk};
ghost use Rattle.node_journal.specs.Disk.{IsUntouched};
ghost use Rattle.client_restart.specs.Kept.{StandsByNotes};
ghost use Rattle.client_restart.specs.Notes.{Remark};
ghost use Rattle.client_restart.specs.Steps.{fold};
ghost use Rattle.desk_entries.specs.Records.{entry_record};
ghost use Rattle.desk_ledger.specs.Ledgers.{IsOfPair, SaysPair};
ghost use Rattle.desk_ledger.specs.Opening.{IsAsHeld, IsOfReopening, OnOpening, OnText, opening_of};

use crate::fault::OpenFault;
use crate::ledger::Ledger;
use crate::opening::{entries_in, opening_of};
use crate::pair::pair_in;
use client_restart::{KeepFault, KeptClient};
use desk_entries::{Entry, MOST_RECORD};
use express_words::{List, NoMemory};
use node_journal::Disk;
use std::alloc::Global;

// The entry of a pair file's text, and its record.
fn first_entry(alloc: Global, text: &[u8]) -> Result<(Vec<Entry>, Vec<u8>), NoMemory>
    ensures entries { IfOk result (λ r. r.0.items ≡ Entry.Pair text.now ∷ []) }
    ensures record { IfOk result (λ r. r.1.items ≡ entry_record (Entry.Pair text.now)) }
{
    let copy = Vec::from_slice(alloc, text)?;
    let entry = Entry::Pair(List::from_vec(copy));
    let record = entry.record(alloc)?;
    let mut entries = Vec::new(alloc);
    entries.push(entry)?;
    Ok((entries, record))
}

impl<D: Disk> Ledger<D> {
    /// A desk for the pair of servers of a pair file's text, on a disk with no byte. No more than `limit`
    /// bytes of the disk will be used. The seed is one that was drawn, and no other desk's.
    pub fn open(
        alloc: Global,
        text: &[u8],
        seed: [u8; 32],
        disk: D,
        limit: u64,
    ) -> Result<Ledger<D>, (OpenFault, D)>
        requires limit { limit ≤ 2 ^ 62 }
        ensures pair { IfOk result (λ l. SaysPair l.pair text.now) }
        ensures entries { IfOk result (λ l. l.entries ≡ Entry.Pair text.now ∷ []) }
        ensures opening { IfOk result (λ l. l.client.opening ≡ opening_of l.pair.head seed) }
        ensures noted { IfOk result (λ l. l.client.core
            ≡ fold l.client.opening (Remark (entry_record (Entry.Pair text.now)) ∷ [])) }
        ensures empty { OnOk result ((c : Listed ℕ) → (D.disk disk).reads c → c ≡ []) }
        ensures refused { IfErr result (λ x. OnText x.0 text.now (x.1 ≡ disk)) }
        ensures making { IfErr result (λ x. OnOpening limit (D.disk disk).reads text.now x.0) }
    {
        if text.len() >= MOST_RECORD {
            return Err((OpenFault::TooLong, disk));
        }
        let pair = match pair_in(alloc, text) {
            Ok(pair) => pair,
            Err(fault) => return Err((fault, disk)),
        };
        let Ok((entries, record)) = first_entry(alloc, text) else {
            return Err((OpenFault::Keep(KeepFault::NoMemory), disk));
        };
        let mut client = match KeptClient::create(
            alloc,
            &opening_of(&pair.head, seed),
            disk,
            limit,
        ) {
            Ok(client) => client,
            Err((fault, disk)) => return Err((OpenFault::Keep(fault), disk)),
        };
        match client.remark(&record) {
            Ok(()) => Ok(Ledger {
                alloc,
                pair,
                entries,
                client,
            }),
            Err(fault) => Err((OpenFault::Keep(fault), client.into_disk())),
        }
    }

    /// The desk that stands on a disk: it is as it was.
    pub fn reopen(alloc: Global, disk: D, limit: u64) -> Result<Ledger<D>, (OpenFault, D)>
        requires limit { limit ≤ 2 ^ 62 }
        ensures stands { IfOk result (λ l. StandsByNotes l.client.opening l.client.core (D.disk disk).reads) }
        ensures pair { IfOk result (λ l. IsOfPair l.pair l.entries) }
        ensures entries { IfOk result (λ l. l.client.core.remarks ≡ map entry_record l.entries) }
        ensures told { IfOk result (λ l. IsAsHeld (D.disk disk) l) }
        ensures untouched_ok { IfOk result (λ l. IsUntouched (D.disk disk) (D.disk l.client.disk)) }
        ensures cause { IfErr result (λ x. IsOfReopening limit (D.disk disk) x.0) }
        ensures untouched { IfErr result (λ x. IsUntouched (D.disk disk) (D.disk x.1)) }
    {
        let client = match KeptClient::reopen(alloc, disk, limit) {
            Ok(client) => client,
            Err((fault, disk)) => return Err((OpenFault::Keep(fault), disk)),
        };
        match entries_in(alloc, client.remarks()) {
            Ok((pair, entries)) => Ok(Ledger {
                alloc,
                pair,
                entries,
                client,
            }),
            Err(fault) => Err((fault, client.into_disk())),
        }
    }
}
