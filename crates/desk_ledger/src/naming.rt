//! The names of a desk's boxes.
ghost use Rattle.std.specs.Prelude.{◌≡◌, ◌⊎◌, ◌∷◌, ◌++◌, [], true, false, Some, None, Ok, Err, IfOk, IfErr, IfSome, OnOk, OnErr, is_some};
ghost use Rattle.kept_machine.specs.Faults.{OnStill};
ghost use Rattle.desk_entries.specs.Desks.{closed_at, is_retiring, last_day, named};
ghost use Rattle.desk_entries.specs.Entries.{AreAddresses};
ghost use Rattle.desk_entries.specs.Names.{is_name};
ghost use Rattle.desk_entries.specs.Records.{IsEntry};
ghost use Rattle.desk_ledger.specs.Ledgers.{AddsEntry, AddsName, EntriesOnly, IsClosedOn};
ghost use Rattle.desk_texts.specs.Days.{IsDay};
ghost use Rattle.desk_ledger.specs.Tasks.{fault_at, room};

use crate::fault::NameFault;
use crate::ledger::Ledger;
use client_restart::KeepFault;
use desk_entries::{
    ClosedName, Entry, MOST_AT_ONCE, NamedBoxes, are_new, closed_at, is_name, is_retiring,
    last_day, named, waiting,
};
use desk_texts::Day;
use express_words::{List, NoMemory, Text};
use node_journal::Disk;
use std::alloc::Global;

impl<D: Disk> Ledger<D> {
    /// Wants boxes with a name, at these addresses, which were drawn, and a card with this last day, if it is
    /// to have one. `Ok(Err(_))` is the refusal, and then nothing is noted. The day stands in the name's own
    /// record, so that no crash leaves a card without it. `next_task` has the requests that register the
    /// boxes.
    #[tactic(auto, using(crate::proofs::NameLaws::taken_entry, crate::proofs::KeepLaws::entries_only, crate::proofs::KeepLaws::entries_rest))]
    pub fn add_name(
        &mut self,
        name: &str,
        addresses: &[u128],
        until: Option<Day>,
    ) -> Result<Result<(), NameFault>, KeepFault>
        requires until { IfSome until IsDay }
        ensures refused { IfOk result (λ taken. IfErr taken (λ fault.
            fault_at self.old name.now addresses.now ≡ Some fault)) }
        ensures taken { IfOk result (λ taken. OnOk taken (fault_at self.old name.now addresses.now ≡ None)) }
        ensures refused_stays { IfOk result (λ taken. OnErr taken (self.new ≡ self.old)) }
        ensures noted { IfOk result
            (λ taken. OnOk taken (AddsName name.now addresses.now until self.old self.new)) }
        ensures not_noted { OnErr result (self.new.entries ≡ self.old.entries) }
        ensures only { EntriesOnly self.old self.new }
        ensures stays { OnStill result (self.new ≡ self.old) }
    {
        match self.name_fault(name, addresses) {
            Ok(None) => {}
            Ok(Some(fault)) => return Ok(Err(fault)),
            Err(_) => return Err(KeepFault::NoMemory),
        }
        let Ok(named) = named_boxes(self.alloc, name, addresses, until) else {
            return Err(KeepFault::NoMemory);
        };
        match self.note(Entry::Named(named)) {
            Ok(()) => Ok(Ok(())),
            Err(fault) => Err(fault),
        }
    }

    // Why a name isn't taken.
    fn name_fault(&self, name: &str, addresses: &[u128]) -> Result<Option<NameFault>, NoMemory>
        ensures fault { IfOk result (λ fault. fault ≡ fault_at self.now name.now addresses.now) }
    {
        if !is_name(name.as_bytes()) {
            return Ok(Some(NameFault::Form));
        }
        if named(&self.entries, name.as_bytes()).is_some() {
            return Ok(Some(NameFault::Used));
        }
        if addresses.is_empty() || addresses.len() > MOST_AT_ONCE {
            return Ok(Some(NameFault::Count));
        }
        if !are_new(&self.entries, addresses) {
            return Ok(Some(NameFault::SameAddress));
        }
        let room = self.room()?;
        if addresses.len() <= room as usize {
            return Ok(None);
        }
        Ok(Some(NameFault::NoRoom(room)))
    }

    // For how many boxes more there is room.
    fn room(&self) -> Result<u32, NoMemory>
        ensures { IfOk result (λ left. left ≡ room self.now.client.opening.capacity self.now.client.core.boxes
            self.now.entries) }
    {
        let waiting = waiting(self.alloc, &self.entries)?;
        let capacity = u64::from(self.client.opening().capacity);
        let left = capacity
            .saturating_sub(self.client.boxes().len() as u64)
            .saturating_sub(waiting.len() as u64);
        Ok(left as u32)
    }

    /// The boxes with a name are to be retired: `next_task` has the requests for it. `Ok(false)`, and nothing
    /// noted, where the desk has no such name; nothing is noted either where they are to be retired already.
    #[tactic(auto, using(crate::proofs::NameLaws::retiring_then, crate::proofs::KeepLaws::entries_only, crate::proofs::KeepLaws::entries_rest))]
    pub fn retire_name(&mut self, name: &str) -> Result<bool, KeepFault>
        ensures unknown { is_some (named self.old.entries name.now) ≡ false
            → (result ≡ Ok false) × (self.new ≡ self.old) }
        ensures known { is_some (named self.old.entries name.now) ≡ true → is_name name.now ≡ true
            → IfOk result (λ known. known ≡ true) }
        ensures retiring { IfOk result (λ known. known ≡ true
            → is_retiring self.new.entries name.now ≡ true) }
        ensures noted { (self.new.entries ≡ self.old.entries)
            ⊎ AddsEntry (Entry.Retiring name.now) self.old self.new }
        ensures not_noted { OnErr result (self.new.entries ≡ self.old.entries) }
        ensures only { EntriesOnly self.old self.new }
        ensures stays { OnStill result (self.new ≡ self.old) }
    {
        if named(&self.entries, name.as_bytes()).is_none() {
            return Ok(false);
        }
        if is_retiring(&self.entries, name.as_bytes()) {
            return Ok(true);
        }
        match retiring_of(self.alloc, name) {
            Ok(Some(entry)) => match self.note(entry) {
                Ok(()) => Ok(true),
                Err(fault) => Err(fault),
            },
            Ok(None) => Ok(false),
            Err(_) => Err(KeepFault::NoMemory),
        }
    }

    /// The boxes with a name are closed on this day: they are read as before, and their card isn't to be
    /// handed out any more. `Ok(false)`, and nothing noted, where the desk has no such name; nothing is noted
    /// either where they are closed already.
    #[tactic(auto, using(crate::proofs::CloseLaws::closed_then, crate::proofs::CloseLaws::stays_closed, crate::proofs::KeepLaws::entries_only, crate::proofs::KeepLaws::entries_rest))]
    pub fn close_name(&mut self, name: &str, day: Day) -> Result<bool, KeepFault>
        requires day { IsDay day }
        ensures unknown { is_some (named self.old.entries name.now) ≡ false
            → (result ≡ Ok false) × (self.new ≡ self.old) }
        ensures known { is_some (named self.old.entries name.now) ≡ true → is_name name.now ≡ true
            → IfOk result (λ known. known ≡ true) }
        ensures closed { IfOk result (λ known. known ≡ true
            → IsClosedOn name.now day self.old.entries self.new.entries) }
        ensures noted { (self.new.entries ≡ self.old.entries)
            ⊎ AddsEntry (Entry.Closed (record { name = name.now; day = day })) self.old self.new }
        ensures not_noted { OnErr result (self.new.entries ≡ self.old.entries) }
        ensures only { EntriesOnly self.old self.new }
        ensures stays { OnStill result (self.new ≡ self.old) }
    {
        if named(&self.entries, name.as_bytes()).is_none() {
            return Ok(false);
        }
        if closed_at(&self.entries, name.as_bytes()).is_some() {
            return Ok(true);
        }
        match closed_of(self.alloc, name, day) {
            Ok(Some(entry)) => match self.note(entry) {
                Ok(()) => Ok(true),
                Err(fault) => Err(fault),
            },
            Ok(None) => Ok(false),
            Err(_) => Err(KeepFault::NoMemory),
        }
    }

    /// The day on which the boxes with a name were closed, if they are.
    pub fn closed_at(&self, name: &str) -> Option<Day>
        ensures { result ≡ closed_at self.now.entries name.now }
    {
        closed_at(&self.entries, name.as_bytes())
    }

    /// The last day of the card of a name, if it has one.
    pub fn last_day(&self, name: &str) -> Option<Day>
        ensures { result ≡ last_day self.now.entries name.now }
    {
        last_day(&self.entries, name.as_bytes())
    }
}

#[tactic(auto, using(crate::proofs::NameLaws::one_more_address))]
fn push_address(copy: &mut Vec<u128>, address: u128) -> Result<(), NoMemory>
    requires are { AreAddresses copy.old.items }
    ensures more { OnOk result (copy.new.items ≡ copy.old.items ++ address ∷ []) }
    ensures are { OnOk result (AreAddresses copy.new.items) }
{
    copy.push(address)?;
    Ok(())
}

fn copy_of_addresses(alloc: Global, addresses: &[u128]) -> Result<Vec<u128>, NoMemory>
    ensures same { IfOk result (λ copy. copy.items ≡ addresses.now) }
    ensures are { IfOk result (λ copy. AreAddresses copy.items) }
{
    let mut copy = Vec::new(alloc);
    let mut rest = addresses;
    while let [address, behind @ ..] = rest {
        push_address(&mut copy, *address)?;
        rest = behind;
    }
    Ok(copy)
}

// That the boxes of a name are to be retired, where it is one.
#[tactic(auto, using(crate::proofs::NameLaws::is_retiring_entry))]
fn retiring_of(alloc: Global, name: &str) -> Result<Option<Entry>, NoMemory>
    ensures value { IfOk result (λ found. IfSome found (λ e. e ≡ Entry.Retiring name.now)) }
    ensures is { IfOk result (λ found. IfSome found IsEntry) }
    ensures none { result ≡ Ok None → is_name name.now ≡ false }
{
    if !is_name(name.as_bytes()) {
        return Ok(None);
    }
    let copy = String::from_str(alloc, name)?;
    Ok(Some(Entry::Retiring(Text::from_string(copy))))
}

// That the boxes of a name were closed on this day, where it is one.
#[tactic(auto, using(crate::proofs::NameLaws::is_closed_entry))]
fn closed_of(alloc: Global, name: &str, day: Day) -> Result<Option<Entry>, NoMemory>
    requires day { IsDay day }
    ensures value { IfOk result (λ found. IfSome found (λ e.
        e ≡ Entry.Closed (record { name = name.now; day = day }))) }
    ensures is { IfOk result (λ found. IfSome found IsEntry) }
    ensures none { result ≡ Ok None → is_name name.now ≡ false }
{
    if !is_name(name.as_bytes()) {
        return Ok(None);
    }
    let copy = String::from_str(alloc, name)?;
    Ok(Some(Entry::Closed(ClosedName {
        name: Text::from_string(copy),
        day,
    })))
}

fn named_boxes(
    alloc: Global,
    name: &str,
    addresses: &[u128],
    until: Option<Day>,
) -> Result<NamedBoxes, NoMemory>
    ensures value { IfOk result (λ n.
        n ≡ record { name = name.now; addresses = addresses.now; until = until }) }
    ensures are { OnOk result (AreAddresses addresses.now) }
{
    let name = String::from_str(alloc, name)?;
    let addresses = copy_of_addresses(alloc, addresses)?;
    Ok(NamedBoxes {
        name: Text::from_string(name),
        addresses: List::from_vec(addresses),
        until,
    })
}
