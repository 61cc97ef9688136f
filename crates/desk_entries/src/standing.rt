//! How an address stands.
ghost use Rattle.std.specs.Prelude.{◌≡◌, ◌++◌, length, OnOk};
ghost use Rattle.std.specs.List.{filter, list_any};
ghost use Rattle.desk_entries.specs.Standings.{is_retired, is_same, retires, standing_in, stands};

use crate::entry::Entry;
use express_words::NoMemory;

/// How an address that was drawn stands.
#[derive(Clone, Copy, Debug, PartialEq, Eq)]
pub enum Standing {
    /// Nothing was heard of a box at it yet.
    Waiting,
    /// Its box is live.
    Live,
    /// Its box is retired.
    Retired,
    /// The servers refused a box at it.
    Refused,
}

fn retires(entry: &Entry, registered: u32) -> bool
    ensures { result ≡ retires registered entry.now }
{
    match entry {
        Entry::Read(reading) => reading.last && reading.registered == registered,
        _ => false,
    }
}

/// Whether the box that this serial registered is retired.
pub fn is_retired(entries: &[Entry], registered: u32) -> bool
    ensures { result ≡ is_retired entries.now registered }
{
    entries.iter().any(|entry| retires(entry, registered))
}

/// How an address stands after these entries.
pub fn standing_of(entries: &[Entry], address: u128) -> Standing
    ensures { result ≡ standing_in entries.now address entries.now }
{
    let mut rest = entries;
    while let [entry, behind @ ..] = rest {
        match entry {
            Entry::Registered(registered) if registered.address == address => {
                return if is_retired(entries, registered.serial) {
                    Standing::Retired
                } else {
                    Standing::Live
                };
            }
            Entry::Refused(denied) if denied.address == address => return Standing::Refused,
            _ => {}
        }
        rest = behind;
    }
    Standing::Waiting
}

fn is_same(one: Standing, other: Standing) -> bool
    ensures { result ≡ is_same one other }
{
    one == other
}

fn stands(entries: &[Entry], standing: Standing, address: u128) -> bool
    ensures { result ≡ stands entries.now standing address }
{
    is_same(standing_of(entries, address), standing)
}

/// Adds to a list those of the addresses that stand so.
pub(crate) fn add_standing(
    entries: &[Entry],
    standing: Standing,
    addresses: &[u128],
    found: &mut Vec<u128>,
) -> Result<(), NoMemory>
    ensures { OnOk result (found.new.items
        ≡ found.old.items ++ filter (stands entries.now standing) addresses.now) }
{
    let mut rest = addresses;
    while let [address, behind @ ..] = rest {
        if stands(entries, standing, *address) {
            found.push(*address)?;
        }
        rest = behind;
    }
    Ok(())
}
