//! How a desk's client is opened, and what its remarks tell.
ghost use Rattle.std.specs.Prelude.{◌≡◌, ◌≢◌, ◌++◌, ◌∷◌, [], map, Some, IfOk, IfErr, OnOk, length, option_map};
ghost use Rattle.client_restart.specs.Openings.{IsClientOpening};
ghost use Rattle.desk_entries.specs.Records.{AreEntries, IsEntry, IsNoEntry, entry_record};
ghost use Rattle.desk_texts.specs.Spelling.{IsPair};
ghost use Rattle.desk_ledger.specs.Ledgers.{IsDesk, IsOfPair};
ghost use Rattle.desk_ledger.specs.Opening.{IsOfFirst, IsOfRemark, IsOfRemarks, as_no_pair, first_text, opening_of};

use crate::fault::OpenFault;
use crate::pair::{Pair, pair_in};
use client_restart::{ClientOpening, KeepFault};
use desk_entries::Entry;
use desk_texts::{PairHead, sheet_is_read_exactly};
use std::alloc::Global;

/// How the client of a new desk is opened: on the owner's lane, with room for as many boxes as the servers
/// have.
pub(crate) fn opening_of(head: &PairHead, seed: [u8; 32]) -> ClientOpening
    requires { IsPair head.now }
    ensures value { result ≡ opening_of head.now seed }
    ensures is { IsClientOpening result }
{
    ClientOpening {
        lane: head.lane,
        width: head.width,
        capacity: head.boxes,
        first_serial: 1,
        seed,
    }
}

// The entry of a remark, whose number this is.
fn entry_in(alloc: Global, remark: &[u8], number: usize) -> Result<Entry, OpenFault>
    ensures entry { IfOk result (λ e. IsEntry e × (remark.now ≡ entry_record e)) }
    ensures fault { IfErr result (IsOfRemark number remark.now) }
{
    match Entry::of(alloc, remark) {
        Ok(Some(entry)) => Ok(entry),
        Ok(None) => Err(OpenFault::NoEntry(number)),
        Err(_) => Err(OpenFault::Keep(KeepFault::NoMemory)),
    }
}

fn push_entry(entries: &mut Vec<Entry>, entry: Entry) -> Result<(), OpenFault>
    ensures more { OnOk result (entries.new.items ≡ entries.old.items ++ entry ∷ []) }
    ensures fault { IfErr result (λ f. f ≡ OpenFault.Keep KeepFault.NoMemory) }
{
    match entries.push(entry) {
        Ok(()) => Ok(()),
        Err(_) => Err(OpenFault::Keep(KeepFault::NoMemory)),
    }
}

// The entry of the next remark stands behind the others.
#[tactic(auto, using(crate::proofs::DeskLaws::entries_push))]
fn add_entry(alloc: Global, entries: &mut Vec<Entry>, remark: &[u8]) -> Result<(), OpenFault>
    requires are { AreEntries entries.old.items }
    ensures are { OnOk result (AreEntries entries.new.items) }
    ensures told { OnOk result (map entry_record entries.new.items
        ≡ map entry_record entries.old.items ++ remark.now ∷ []) }
    ensures fault { IfErr result (IsOfRemark (length entries.old.items) remark.now) }
{
    let entry = entry_in(alloc, remark, entries.len())?;
    push_entry(entries, entry)
}

// The entries that remarks tell.
fn all_in(alloc: Global, remarks: &[Vec<u8>]) -> Result<Vec<Entry>, OpenFault>
    ensures are { IfOk result (λ entries. AreEntries entries.items) }
    ensures told { IfOk result (λ entries.
        map (λ words. words.items) remarks.now ≡ map entry_record entries.items) }
    ensures fault { IfErr result (IsOfRemarks (map (λ words. words.items) remarks.now)) }
{
    let mut entries = Vec::new(alloc);
    let mut rest = remarks;
    while let [remark, behind @ ..] = rest {
        add_entry(alloc, &mut entries, remark)?;
        rest = behind;
    }
    Ok(entries)
}

// The first entry's text isn't a pair file's, or no memory was found.
fn as_no_pair(fault: OpenFault) -> OpenFault
    ensures { result ≡ as_no_pair fault }
{
    match fault {
        OpenFault::Keep(fault) => OpenFault::Keep(fault),
        OpenFault::BadLine(_)
        | OpenFault::NoPairFile
        | OpenFault::TooLong
        | OpenFault::NoPair
        | OpenFault::NoEntry(_) => OpenFault::NoPair,
    }
}

// The text of the first entry, if it is a pair file's.
fn first_text(entries: &[Entry]) -> Option<&[u8]>
    ensures { option_map (λ text. text.now) result ≡ first_text entries.now }
{
    match entries {
        [Entry::Pair(text), ..] => Some(text.as_slice()),
        _ => None,
    }
}

#[tactic(auto, using(crate::proofs::StartLaws::some_first, crate::proofs::StartLaws::none_first))]
fn pair_of(alloc: Global, entries: &[Entry]) -> Result<Pair, OpenFault>
    ensures pair { IfOk result (λ pair. IsOfPair pair entries.now) }
    ensures fault { IfErr result (IsOfFirst entries.now) }
{
    let Some(text) = first_text(entries) else {
        return Err(OpenFault::NoPair);
    };
    match pair_in(alloc, text) {
        Ok(pair) => Ok(pair),
        Err(fault) => {
            sheet_is_read_exactly();
            Err(as_no_pair(fault))
        }
    }
}

/// The pair and the entries that remarks tell.
pub(crate) fn entries_in(
    alloc: Global,
    remarks: &[Vec<u8>],
) -> Result<(Pair, Vec<Entry>), OpenFault>
    ensures desk { IfOk result (λ desk. IsDesk desk.0 desk.1.items (map (λ words. words.items) remarks.now)) }
    ensures fault { IfErr result (IsOfRemarks (map (λ words. words.items) remarks.now)) }
{
    let entries = all_in(alloc, remarks)?;
    match pair_of(alloc, &entries) {
        Ok(pair) => Ok((pair, entries)),
        Err(fault) => Err(fault),
    }
}
