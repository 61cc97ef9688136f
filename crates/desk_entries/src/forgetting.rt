//! What stays of a desk's entries when its letters are forgotten.
ghost use Rattle.std.specs.Prelude.{◌≡◌, ◌++◌, IfOk, OnOk, OnErr};
ghost use Rattle.std.specs.Option.{option_to_list};
ghost use Rattle.desk_entries.specs.Forgetting.{kept, staying};

use crate::copying::copy_of_entry;
use crate::entry::{Entry, Held, Reading};
use express_words::NoMemory;
use std::alloc::Global;

// The reading without what the box held.
fn emptied(reading: &Reading) -> Reading
    ensures { result ≡ record reading.now { held = Held.Nothing } }
{
    Reading {
        serial: reading.serial,
        registered: reading.registered,
        last: reading.last,
        seconds: reading.seconds,
        held: Held::Nothing,
    }
}

// What stays of an entry.
fn staying(alloc: Global, entry: &Entry) -> Result<Option<Entry>, NoMemory>
    ensures { IfOk result (λ stays. stays ≡ staying entry.now) }
{
    match entry {
        Entry::Read(reading) => {
            if reading.last {
                Ok(Some(Entry::Read(emptied(reading))))
            } else {
                Ok(None)
            }
        }
        Entry::Shown(_) | Entry::Written(_) => Ok(None),
        Entry::Pair(_)
        | Entry::Named(_)
        | Entry::Registered(_)
        | Entry::Refused(_)
        | Entry::Retiring(_)
        | Entry::Closed(_) => Ok(Some(copy_of_entry(alloc, entry)?)),
    }
}

fn add_staying(alloc: Global, entry: &Entry, found: &mut Vec<Entry>) -> Result<(), NoMemory>
    ensures { OnOk result (found.new.items ≡ found.old.items ++ option_to_list (staying entry.now)) }
{
    match staying(alloc, entry)? {
        Some(stays) => {
            found.push(stays)?;
            Ok(())
        }
        None => Ok(()),
    }
}

/// The entries without letters: of a box that was retired it stays that it is, and how many letters were
/// shown or written goes.
pub fn kept(alloc: Global, entries: &[Entry]) -> Result<Vec<Entry>, NoMemory>
    ensures { IfOk result (λ found. found.items ≡ kept entries.now) }
{
    let mut found = Vec::new(alloc);
    let mut rest = entries;
    while let [entry, behind @ ..] = rest {
        add_staying(alloc, entry, &mut found)?;
        rest = behind;
    }
    Ok(found)
}
