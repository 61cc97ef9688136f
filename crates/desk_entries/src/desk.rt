//! What is so of a desk after its entries.
ghost use Rattle.std.specs.Prelude.{◌≡◌, ◌++◌, Some, IfOk, OnOk};
ghost use Rattle.std.specs.List.{filter, flat_map, list_any};
ghost use Rattle.std.specs.Option.{option_copied};
ghost use Rattle.desk_entries.specs.Desks.{address_of, are_new, closed_at, draws, is_drawn, is_outcome, has_outcome, is_among, is_retiring, last_day, name_at, name_of, name_with, named, named_in, retires_name, waiting, waiting_by, waiting_of};
ghost use Rattle.desk_entries.specs.Standings.{stands};

use crate::entry::{Entry, NamedBoxes};
use crate::standing::{Standing, add_standing};
use desk_texts::Day;
use express_words::NoMemory;
use std::alloc::Global;

/// At most so many addresses are drawn for one name: as many as stand on a card.
pub const MOST_AT_ONCE: usize = 64;

/// The boxes with this name.
pub fn named<'a>(entries: &'a [Entry], name: &[u8]) -> Option<&'a NamedBoxes>
    ensures { option_copied result ≡ named entries.now name.now }
{
    let mut rest = entries;
    while let [entry, behind @ ..] = rest {
        if let Entry::Named(named) = entry
            && named.name.as_str().as_bytes() == name
        {
            return Some(named);
        }
        rest = behind;
    }
    None
}

fn retires_name(entry: &Entry, name: &[u8]) -> bool
    ensures { result ≡ retires_name name.now entry.now }
{
    match entry {
        Entry::Retiring(other) => other.as_str().as_bytes() == name,
        _ => false,
    }
}

/// Whether the boxes with this name are to be retired, or are.
pub fn is_retiring(entries: &[Entry], name: &[u8]) -> bool
    ensures { result ≡ is_retiring entries.now name.now }
{
    entries.iter().any(|entry| retires_name(entry, name))
}

/// The last day of the card of the boxes with this name, if they have one.
pub fn last_day(entries: &[Entry], name: &[u8]) -> Option<Day>
    ensures { result ≡ last_day entries.now name.now }
{
    named(entries, name)?.until
}

/// The day on which the boxes with this name were closed, if they are.
pub fn closed_at(entries: &[Entry], name: &[u8]) -> Option<Day>
    ensures { result ≡ closed_at entries.now name.now }
{
    let mut rest = entries;
    while let [entry, behind @ ..] = rest {
        if let Entry::Closed(closed) = entry
            && closed.name.as_str().as_bytes() == name
        {
            return Some(closed.day);
        }
        rest = behind;
    }
    None
}

fn is_among(address: u128, addresses: &[u128]) -> bool
    ensures { result ≡ is_among address addresses.now }
{
    addresses.contains(&address)
}

fn draws(entry: &Entry, address: u128) -> bool
    ensures { result ≡ draws address entry.now }
{
    match entry {
        Entry::Named(named) => is_among(address, named.addresses.as_slice()),
        _ => false,
    }
}

fn is_drawn(entries: &[Entry], address: u128) -> bool
    ensures { result ≡ is_drawn entries.now address }
{
    entries.iter().any(|entry| draws(entry, address))
}

/// Whether these addresses are all different, and none of them was drawn before.
pub fn are_new(entries: &[Entry], addresses: &[u128]) -> bool
    ensures { result ≡ are_new entries.now addresses.now }
{
    let mut rest = addresses;
    while let [address, behind @ ..] = rest {
        if behind.contains(address) || is_drawn(entries, *address) {
            return false;
        }
        rest = behind;
    }
    true
}

// The address of the box that this serial registered.
fn address_of(entries: &[Entry], registered: u32) -> Option<u128>
    ensures { result ≡ address_of entries.now registered }
{
    let mut rest = entries;
    while let [entry, behind @ ..] = rest {
        if let Entry::Registered(found) = entry
            && found.serial == registered
        {
            return Some(found.address);
        }
        rest = behind;
    }
    None
}

// The name, where this address was drawn for it.
fn name_with(entry: &Entry, address: u128) -> Option<&str>
    ensures { option_copied result ≡ name_with address entry.now }
{
    match entry {
        Entry::Named(named) => {
            if is_among(address, named.addresses.as_slice()) {
                Some(named.name.as_str())
            } else {
                None
            }
        }
        _ => None,
    }
}

// The name for which this address was drawn, or nothing.
fn name_at(entries: &[Entry], address: u128) -> &str
    ensures { result.now ≡ name_at entries.now address }
{
    let mut rest = entries;
    while let [entry, behind @ ..] = rest {
        if let Some(name) = name_with(entry, address) {
            return name;
        }
        rest = behind;
    }
    ""
}

/// The name of the box that this serial registered, or nothing.
pub fn name_of(entries: &[Entry], registered: u32) -> &str
    ensures { result.now ≡ name_of entries.now registered }
{
    match address_of(entries, registered) {
        Some(address) => name_at(entries, address),
        None => "",
    }
}

/// The addresses of a name that stand so, in order.
pub fn addresses(
    alloc: Global,
    entries: &[Entry],
    named: &NamedBoxes,
    standing: Standing,
) -> Result<Vec<u128>, NoMemory>
    ensures { IfOk result (λ found. found.items ≡ filter (stands entries.now standing) named.now.addresses) }
{
    let mut found = Vec::new(alloc);
    add_standing(entries, standing, named.addresses.as_slice(), &mut found)?;
    Ok(found)
}

fn named_in(entry: &Entry) -> Option<&NamedBoxes>
    ensures { option_copied result ≡ named_in entry.now }
{
    match entry {
        Entry::Named(named) => Some(named),
        _ => None,
    }
}

fn add_named(entries: &[Entry], named: &NamedBoxes, found: &mut Vec<u128>) -> Result<(), NoMemory>
    ensures { OnOk result (found.new.items ≡ found.old.items ++ waiting_by entries.now (Some named.now)) }
{
    if is_retiring(entries, named.name.as_str().as_bytes()) {
        return Ok(());
    }
    add_standing(
        entries,
        Standing::Waiting,
        named.addresses.as_slice(),
        found,
    )
}

fn add_waiting(entries: &[Entry], entry: &Entry, found: &mut Vec<u128>) -> Result<(), NoMemory>
    ensures { OnOk result (found.new.items ≡ found.old.items ++ waiting_of entries.now entry.now) }
{
    match named_in(entry) {
        Some(named) => add_named(entries, named, found),
        None => Ok(()),
    }
}

/// The addresses at which boxes are to be registered yet, in order: those of names that aren't to be retired.
pub fn waiting(alloc: Global, entries: &[Entry]) -> Result<Vec<u128>, NoMemory>
    ensures { IfOk result (λ found. found.items ≡ waiting entries.now) }
{
    let mut found = Vec::new(alloc);
    let mut rest = entries;
    while let [entry, behind @ ..] = rest {
        add_waiting(entries, entry, &mut found)?;
        rest = behind;
    }
    Ok(found)
}

fn is_outcome(entry: &Entry, serial: u32) -> bool
    ensures { result ≡ is_outcome serial entry.now }
{
    match entry {
        Entry::Registered(registered) => registered.serial == serial,
        Entry::Refused(denied) => denied.serial == serial,
        Entry::Read(reading) => reading.serial == serial,
        _ => false,
    }
}

/// Whether an outcome of the request of this serial is noted.
pub fn has_outcome(entries: &[Entry], serial: u32) -> bool
    ensures { result ≡ has_outcome entries.now serial }
{
    entries.iter().any(|entry| is_outcome(entry, serial))
}
