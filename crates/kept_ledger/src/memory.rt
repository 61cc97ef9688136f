//! The memory that a ledger takes ahead of a step.
ghost use Rattle.std.specs.Prelude.{◌≡◌, ◌<◌, OnOk, IfOk, length, vec_capacity};
ghost use Rattle.kept_ledger.specs.Ledgers.{boxes_wanted};
ghost use Rattle.kept_ledger.specs.Machines.{HasReplyRoom};
ghost use Rattle.kept_ledger.specs.Notes.{plain_wanted};

use crate::entry::NamedBoxes;
use crate::ledger::Ledger;
use crate::note::WantedBoxes;
use express_words::{List, NoMemory, Text};
use std::alloc::Global;

pub(crate) fn copy_of(alloc: Global, bytes: &[u8]) -> Result<Vec<u8>, NoMemory>
    ensures { IfOk result (λ copy. copy.items ≡ bytes.now) }
{
    match Vec::from_slice(alloc, bytes) {
        Ok(copy) => Ok(copy),
        Err(_) => Err(NoMemory),
    }
}

fn addresses_of(alloc: Global, addresses: &[u128]) -> Result<List<u128>, NoMemory>
    ensures { IfOk result (λ copy. copy ≡ addresses.now) }
{
    match Vec::from_slice(alloc, addresses) {
        Ok(copy) => Ok(List::from_vec(copy)),
        Err(_) => Err(NoMemory),
    }
}

/// So many zeros.
pub(crate) fn zeros(alloc: Global, count: u32) -> Result<Vec<u8>, NoMemory>
    ensures { IfOk result (λ bytes. length bytes.items ≡ count) }
{
    match vec![in alloc; 0u8; count as usize] {
        Ok(bytes) => Ok(bytes),
        Err(_) => Err(NoMemory),
    }
}

/// The boxes that are wanted, before anything was heard of them.
pub(crate) fn boxes_wanted(alloc: Global, wanted: &WantedBoxes<'_>) -> Result<NamedBoxes, NoMemory>
    ensures { IfOk result (λ named. named ≡ boxes_wanted (plain_wanted wanted.now)) }
{
    let Ok(name) = String::from_str(alloc, wanted.name) else {
        return Err(NoMemory);
    };
    let addresses = addresses_of(alloc, wanted.addresses)?;
    Ok(NamedBoxes {
        name: Text::from_string(name),
        addresses,
        until: wanted.until,
        closed: None,
        is_retiring: false,
    })
}

fn reserved<T>(list: &mut Vec<T>) -> Result<(), NoMemory>
    ensures same { list.new.items ≡ list.old.items }
    ensures room { OnOk result (length list.new.items < vec_capacity list.new) }
{
    match list.reserve(1) {
        Ok(()) => Ok(()),
        Err(_) => Err(NoMemory),
    }
}

impl Ledger {
    pub(crate) fn reserve_name(&mut self) -> Result<(), NoMemory>
        ensures same { self.new.state ≡ self.old.state }
        ensures room { OnOk result (length self.new.state.named < self.new.room.named) }
    {
        reserved(&mut self.named)
    }

    pub(crate) fn reserve_mark(&mut self) -> Result<(), NoMemory>
        ensures same { self.new.state ≡ self.old.state }
        ensures room { OnOk result (length self.new.state.marks < self.new.room.marks) }
    {
        reserved(&mut self.marks)
    }

    pub(crate) fn reserve_box(&mut self) -> Result<(), NoMemory>
        ensures same { self.new.state ≡ self.old.state }
        ensures room { OnOk result (length self.new.state.boxes < self.new.room.boxes) }
    {
        reserved(&mut self.boxes)
    }

    pub(crate) fn reserve_denied(&mut self) -> Result<(), NoMemory>
        ensures same { self.new.state ≡ self.old.state }
        ensures room { OnOk result (length self.new.state.denied < self.new.room.denied) }
    {
        reserved(&mut self.denied)
    }

    pub(crate) fn reserve_reading(&mut self) -> Result<(), NoMemory>
        ensures same { self.new.state ≡ self.old.state }
        ensures room { OnOk result (length self.new.state.readings < self.new.room.readings) }
    {
        reserved(&mut self.readings)
    }

    /// For what a reply may leave.
    pub(crate) fn reserve_reply(&mut self) -> Result<(), NoMemory>
        ensures same { self.new.state ≡ self.old.state }
        ensures room { OnOk result (HasReplyRoom self.new) }
    {
        reserved(&mut self.boxes)?;
        reserved(&mut self.denied)?;
        reserved(&mut self.readings)
    }
}
