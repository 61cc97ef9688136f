//! Copies of entries.
ghost use Rattle.std.specs.Prelude.{◌≡◌, ◌++◌, ◌∷◌, [], IfOk, OnOk};

use crate::entry::{ClosedName, Entry, Held, NamedBoxes, Reading};
use express_words::{List, NoMemory, Text};
use std::alloc::Global;

fn copy_of_bytes(alloc: Global, bytes: &[u8]) -> Result<List<u8>, NoMemory>
    ensures { IfOk result (λ copy. copy ≡ bytes.now) }
{
    let items = Vec::from_slice(alloc, bytes)?;
    Ok(List::from_vec(items))
}

fn copy_of_text(alloc: Global, text: &Text) -> Result<Text, NoMemory>
    ensures { IfOk result (λ copy. copy ≡ text.now) }
{
    let text = String::from_str(alloc, text.as_str())?;
    Ok(Text::from_string(text))
}

fn copy_of_named(alloc: Global, named: &NamedBoxes) -> Result<NamedBoxes, NoMemory>
    ensures { IfOk result (λ copy. copy ≡ named.now) }
{
    let name = copy_of_text(alloc, &named.name)?;
    let addresses = Vec::from_slice(alloc, named.addresses.as_slice())?;
    Ok(NamedBoxes {
        name,
        addresses: List::from_vec(addresses),
        until: named.until,
    })
}

fn copy_of_closed(alloc: Global, closed: &ClosedName) -> Result<ClosedName, NoMemory>
    ensures { IfOk result (λ copy. copy ≡ closed.now) }
{
    Ok(ClosedName {
        name: copy_of_text(alloc, &closed.name)?,
        day: closed.day,
    })
}

fn copy_of_held(alloc: Global, held: &Held) -> Result<Held, NoMemory>
    ensures { IfOk result (λ copy. copy ≡ held.now) }
{
    match held {
        Held::Nothing => Ok(Held::Nothing),
        Held::Letter { id, text } => Ok(Held::Letter {
            id: *id,
            text: copy_of_bytes(alloc, text.as_slice())?,
        }),
        Held::Met => Ok(Held::Met),
    }
}

fn copy_of_reading(alloc: Global, reading: &Reading) -> Result<Reading, NoMemory>
    ensures { IfOk result (λ copy. copy ≡ reading.now) }
{
    Ok(Reading {
        serial: reading.serial,
        registered: reading.registered,
        last: reading.last,
        seconds: reading.seconds,
        held: copy_of_held(alloc, &reading.held)?,
    })
}

pub(crate) fn copy_of_entry(alloc: Global, entry: &Entry) -> Result<Entry, NoMemory>
    ensures { IfOk result (λ copy. copy ≡ entry.now) }
{
    match entry {
        Entry::Pair(text) => Ok(Entry::Pair(copy_of_bytes(alloc, text.as_slice())?)),
        Entry::Named(named) => Ok(Entry::Named(copy_of_named(alloc, named)?)),
        Entry::Registered(registered) => Ok(Entry::Registered(*registered)),
        Entry::Refused(denied) => Ok(Entry::Refused(*denied)),
        Entry::Read(reading) => Ok(Entry::Read(copy_of_reading(alloc, reading)?)),
        Entry::Retiring(name) => Ok(Entry::Retiring(copy_of_text(alloc, name)?)),
        Entry::Shown(count) => Ok(Entry::Shown(*count)),
        Entry::Written(count) => Ok(Entry::Written(*count)),
        Entry::Closed(closed) => Ok(Entry::Closed(copy_of_closed(alloc, closed)?)),
    }
}

fn add_copy(alloc: Global, entry: &Entry, found: &mut Vec<Entry>) -> Result<(), NoMemory>
    ensures { OnOk result (found.new.items ≡ found.old.items ++ entry.now ∷ []) }
{
    found.push(copy_of_entry(alloc, entry)?)?;
    Ok(())
}

/// The same entries.
pub fn copied(alloc: Global, entries: &[Entry]) -> Result<Vec<Entry>, NoMemory>
    ensures { IfOk result (λ found. found.items ≡ entries.now) }
{
    let mut found = Vec::new(alloc);
    let mut rest = entries;
    while let [entry, behind @ ..] = rest {
        add_copy(alloc, entry, &mut found)?;
        rest = behind;
    }
    Ok(found)
}
