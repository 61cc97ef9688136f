//! The records of entries.
ghost use Rattle.std.specs.Prelude.{◌≡◌, ◌≤◌, ◌++◌, ◌∷◌, length, OnOk, IfOk};
ghost use Rattle.std.specs.Int.{w64, to_be_bytes};
ghost use Rattle.std.specs.List.{flat_map};
ghost use Rattle.desk_entries.specs.Entries.{IsFormed};
ghost use Rattle.desk_entries.specs.Fronts.{front_of, front_record};
ghost use Rattle.desk_entries.specs.Records.{box_record, closed_record, content, day_record, denial_byte, denied_record, entry_record, flag, held_record, named_record, named_tag, reading_record, tag, until_record};
ghost use Rattle.desk_entries.specs.Writing.{written};

use crate::entry::{BoxAt, ClosedName, Denial, Denied, Entry, Held, NamedBoxes, Reading};
use desk_texts::Day;
use express_words::NoMemory;
use std::alloc::Global;

fn denial_byte(denial: Denial) -> u8
    ensures { result ≡ denial_byte denial }
{
    match denial {
        Denial::Taken => 0,
        Denial::Full => 1,
    }
}

fn flag(last: bool) -> u8
    ensures { result ≡ flag last }
{
    if last { 1 } else { 0 }
}

#[tactic(auto, unfolding(crate::specs::Writing::written))]
fn put_address(bytes: &mut Vec<u8>, address: u128) -> Result<(), NoMemory>
    ensures { OnOk result (bytes.new.items ≡ bytes.old.items ++ written address) }
{
    bytes.extend_from_slice(&address.to_be_bytes())?;
    Ok(())
}

// Behind the bytes of a record those of the addresses.
fn put_addresses(bytes: &mut Vec<u8>, addresses: &[u128]) -> Result<(), NoMemory>
    ensures { OnOk result (bytes.new.items ≡ bytes.old.items ++ flat_map written addresses.now) }
{
    let mut rest = addresses;
    while let [address, behind @ ..] = rest {
        put_address(bytes, *address)?;
        rest = behind;
    }
    Ok(())
}

#[tactic(auto, unfolding(crate::specs::Writing::written))]
fn put_named(bytes: &mut Vec<u8>, named: &NamedBoxes) -> Result<(), NoMemory>
    requires { length named.now.addresses ≤ 64 }
    ensures { OnOk result (bytes.new.items ≡ bytes.old.items ++ named_record named.now) }
{
    bytes.push(named.addresses.as_slice().len() as u8)?;
    put_addresses(bytes, named.addresses.as_slice())?;
    bytes.extend_from_slice(named.name.as_str().as_bytes())?;
    Ok(())
}

fn put_day(bytes: &mut Vec<u8>, day: &Day) -> Result<(), NoMemory>
    ensures { OnOk result (bytes.new.items ≡ bytes.old.items ++ day_record day.now) }
{
    bytes.extend_from_slice(&day.year.to_be_bytes())?;
    bytes.push(day.month)?;
    bytes.push(day.day)?;
    Ok(())
}

fn put_until(bytes: &mut Vec<u8>, until: &Option<Day>) -> Result<(), NoMemory>
    ensures { OnOk result (bytes.new.items ≡ bytes.old.items ++ until_record until.now) }
{
    match until {
        Some(day) => put_day(bytes, day),
        None => Ok(()),
    }
}

// The last day of a card, if it has one, and the boxes.
fn put_dated(bytes: &mut Vec<u8>, named: &NamedBoxes) -> Result<(), NoMemory>
    requires { length named.now.addresses ≤ 64 }
    ensures { OnOk result (bytes.new.items
        ≡ bytes.old.items ++ (until_record named.now.until ++ named_record named.now)) }
{
    put_until(bytes, &named.until)?;
    put_named(bytes, named)
}

fn put_closed(bytes: &mut Vec<u8>, closed: &ClosedName) -> Result<(), NoMemory>
    ensures { OnOk result (bytes.new.items ≡ bytes.old.items ++ closed_record closed.now) }
{
    put_day(bytes, &closed.day)?;
    bytes.extend_from_slice(closed.name.as_str().as_bytes())?;
    Ok(())
}

fn put_box(bytes: &mut Vec<u8>, registered: &BoxAt) -> Result<(), NoMemory>
    ensures { OnOk result (bytes.new.items ≡ bytes.old.items ++ box_record registered.now) }
{
    bytes.extend_from_slice(&registered.serial.to_be_bytes())?;
    bytes.extend_from_slice(&registered.address.to_be_bytes())?;
    Ok(())
}

fn put_denied(bytes: &mut Vec<u8>, denied: &Denied) -> Result<(), NoMemory>
    ensures { OnOk result (bytes.new.items ≡ bytes.old.items ++ denied_record denied.now) }
{
    bytes.push(denial_byte(denied.denial))?;
    bytes.extend_from_slice(&denied.serial.to_be_bytes())?;
    bytes.extend_from_slice(&denied.address.to_be_bytes())?;
    Ok(())
}

fn put_letter(bytes: &mut Vec<u8>, id: u64, text: &[u8]) -> Result<(), NoMemory>
    ensures { OnOk result (bytes.new.items ≡ bytes.old.items ++ 1 ∷ to_be_bytes w64 id ++ text.now) }
{
    bytes.push(1)?;
    bytes.extend_from_slice(&id.to_be_bytes())?;
    bytes.extend_from_slice(text)?;
    Ok(())
}

fn put_held(bytes: &mut Vec<u8>, held: &Held) -> Result<(), NoMemory>
    ensures { OnOk result (bytes.new.items ≡ bytes.old.items ++ held_record held.now) }
{
    match held {
        Held::Nothing => {
            bytes.push(0)?;
            Ok(())
        }
        Held::Letter { id, text } => put_letter(bytes, *id, text.as_slice()),
        Held::Met => {
            bytes.push(2)?;
            Ok(())
        }
    }
}

// What a reading says before what the box held.
fn front_bytes(reading: &Reading) -> [u8; 17]
    ensures { result ≡ front_record (front_of reading.now) }
{
    let [a, b, c, d] = reading.serial.to_be_bytes();
    let [e, f, g, h] = reading.registered.to_be_bytes();
    let [i, j, k, l, m, n, o, p] = reading.seconds.to_be_bytes();
    let last = flag(reading.last);
    [last, a, b, c, d, e, f, g, h, i, j, k, l, m, n, o, p]
}

fn put_reading(bytes: &mut Vec<u8>, reading: &Reading) -> Result<(), NoMemory>
    ensures { OnOk result (bytes.new.items ≡ bytes.old.items ++ reading_record reading.now) }
{
    bytes.extend_from_slice(&front_bytes(reading))?;
    put_held(bytes, &reading.held)
}

fn put_text(bytes: &mut Vec<u8>, text: &[u8]) -> Result<(), NoMemory>
    ensures { OnOk result (bytes.new.items ≡ bytes.old.items ++ text.now) }
{
    bytes.extend_from_slice(text)?;
    Ok(())
}

fn named_tag(named: &NamedBoxes) -> u8
    ensures { result ≡ named_tag named.now.until }
{
    if named.until.is_some() { 10 } else { 2 }
}

// The tag of an entry's record.
fn tag(entry: &Entry) -> u8
    ensures { result ≡ tag entry.now }
{
    match entry {
        Entry::Pair(_) => 1,
        Entry::Named(named) => named_tag(named),
        Entry::Registered(_) => 3,
        Entry::Refused(_) => 4,
        Entry::Read(_) => 5,
        Entry::Retiring(_) => 6,
        Entry::Shown(_) => 7,
        Entry::Written(_) => 8,
        Entry::Closed(_) => 9,
    }
}

// What stands behind it.
fn put_content(bytes: &mut Vec<u8>, entry: &Entry) -> Result<(), NoMemory>
    requires { IsFormed entry.now }
    ensures { OnOk result (bytes.new.items ≡ bytes.old.items ++ content entry.now) }
{
    match entry {
        Entry::Pair(text) => put_text(bytes, text.as_slice()),
        Entry::Named(named) => put_dated(bytes, named),
        Entry::Registered(registered) => put_box(bytes, registered),
        Entry::Refused(denied) => put_denied(bytes, denied),
        Entry::Read(reading) => put_reading(bytes, reading),
        Entry::Retiring(name) => put_text(bytes, name.as_str().as_bytes()),
        Entry::Shown(count) => put_text(bytes, &count.to_be_bytes()),
        Entry::Written(count) => put_text(bytes, &count.to_be_bytes()),
        Entry::Closed(closed) => put_closed(bytes, closed),
    }
}

impl Entry {
    /// The entry's record: a tag of one byte, and what the entry holds, numbers big-endian.
    pub fn record(&self, alloc: Global) -> Result<Vec<u8>, NoMemory>
        requires { IsFormed self.now }
        ensures { IfOk result (λ bytes. bytes.items ≡ entry_record self.now) }
    {
        let mut bytes = Vec::new(alloc);
        bytes.push(tag(self))?;
        put_content(&mut bytes, self)?;
        Ok(bytes)
    }
}
