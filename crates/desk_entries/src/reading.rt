//! Records read as entries.
ghost use Rattle.std.specs.Prelude.{◌≡◌, ◌≢◌, ◌%◌, ◌<◌, ◌^◌, ◌++◌, ◌∷◌, IsNone, IfOk, IfSome, MatchOption, length, true, false};
ghost use Rattle.std.specs.Int.{w32, w64, w128, to_be_bytes};
ghost use Rattle.std.specs.List.{flat_map};
ghost use Rattle.desk_texts.specs.Days.{IsDay};
ghost use Rattle.desk_entries.specs.Entries.{AreAddresses, IsClosed, IsFormed, IsHeld, IsNamed, IsReading};
ghost use Rattle.desk_entries.specs.Fronts.{IsFront, front_record};
ghost use Rattle.desk_entries.specs.Names.{is_name};
ghost use Rattle.desk_entries.specs.Records.{HasNoDay, IsEntry, IsNoClosed, IsNoDated, IsNoEntry, IsNoNamed, IsNoReading, box_record, closed_record, day_record, denial_byte, denied_record, entry_record, flag, held_record, named_record, named_tag, reading_record, until_record};
ghost use Rattle.desk_entries.specs.declared.entry.Denied.{Denied};
ghost use Rattle.desk_entries.specs.declared.entry.Held.{Held};
ghost use Rattle.desk_entries.specs.declared.entry.Reading.{Reading};

use crate::entry::{BoxAt, ClosedName, Denial, Denied, Entry, Held, NamedBoxes, Reading};
use crate::parts::{
    address_of, addresses_in, copy_of, count_in, day_in, long_in, name_in, wide_in,
};
use desk_texts::Day;
use express_words::{List, NoMemory};
use std::alloc::Global;

/// A record has at most so many bytes.
pub const MOST_RECORD: usize = 8213;

// So many addresses, and a name, with this last day of their card.
#[tactic(auto, using(crate::proofs::NamedLaws::none_zero, crate::proofs::NamedLaws::none_many, crate::proofs::NamedLaws::none_short))]
fn named_of(
    alloc: Global,
    count: u8,
    rest: &[u8],
    until: Option<Day>,
) -> Result<Option<NamedBoxes>, NoMemory>
    requires day { IfSome until IsDay }
    ensures is { IfOk result (λ found. MatchOption found (IsNoNamed (count ∷ rest.now))
        (λ n. IsNamed n × (count ∷ rest.now ≡ named_record n))) }
    ensures until { IfOk result (λ found. IfSome found (λ n. n.until ≡ until)) }
{
    let used = usize::from(count) * 16;
    if count == 0 {
        return Ok(None);
    }
    if count > 64 {
        return Ok(None);
    }
    if rest.len() < used {
        return Ok(None);
    }
    let (front, behind) = rest.split_at(used);
    let addresses = addresses_in(alloc, front)?;
    match name_in(alloc, behind)? {
        Some(name) => Ok(Some(NamedBoxes {
            name,
            addresses: List::from_vec(addresses),
            until,
        })),
        None => Ok(None),
    }
}

fn named_in(alloc: Global, bytes: &[u8], until: Option<Day>) -> Result<Option<NamedBoxes>, NoMemory>
    requires day { IfSome until IsDay }
    ensures is { IfOk result (λ found. MatchOption found (IsNoNamed bytes.now)
        (λ n. IsNamed n × (bytes.now ≡ named_record n))) }
    ensures until { IfOk result (λ found. IfSome found (λ n. n.until ≡ until)) }
{
    match bytes {
        [count, rest @ ..] => named_of(alloc, *count, rest, until),
        [] => Ok(None),
    }
}

// The last day of a card, and its boxes.
#[tactic(auto, using(crate::proofs::DayLaws::none_without_day, crate::proofs::DayLaws::none_unnamed))]
fn dated_in(alloc: Global, bytes: &[u8]) -> Result<Option<NamedBoxes>, NoMemory>
    ensures is { IfOk result (λ found. MatchOption found (IsNoDated bytes.now)
        (λ n. IsNamed n × (bytes.now ≡ until_record n.until ++ named_record n))) }
    ensures dated { IfOk result (λ found. IfSome found (λ n. named_tag n.until ≡ 10)) }
{
    match day_in(bytes) {
        Some((day, rest)) => named_in(alloc, rest, Some(day)),
        None => Ok(None),
    }
}

#[tactic(auto, using(crate::proofs::DayLaws::open_without_day, crate::proofs::DayLaws::open_unnamed))]
fn closed_in(alloc: Global, bytes: &[u8]) -> Result<Option<ClosedName>, NoMemory>
    ensures { IfOk result (λ found. MatchOption found (IsNoClosed bytes.now)
        (λ c. IsClosed c × (bytes.now ≡ closed_record c))) }
{
    let Some((day, rest)) = day_in(bytes) else {
        return Ok(None);
    };
    match name_in(alloc, rest)? {
        Some(name) => Ok(Some(ClosedName { name, day })),
        None => Ok(None),
    }
}

fn box_in(bytes: &[u8]) -> Option<BoxAt>
    ensures some { IfSome result (λ b. bytes.now ≡ box_record b) }
    ensures fits { IfSome result (λ b. (b.serial < 2 ^ 32) × (b.address < 2 ^ 128)) }
    ensures none { IsNone result → length bytes.now ≡ 20 → ⊥ }
{
    let (serial, rest) = wide_in(bytes)?;
    if rest.len() != 16 {
        return None;
    }
    let address = address_of(rest);
    Some(BoxAt { serial, address })
}

fn denial_in(byte: u8) -> Option<Denial>
    ensures { MatchOption result ((byte ≢ 0) × (byte ≢ 1)) (λ denial. byte ≡ denial_byte denial) }
{
    match byte {
        0 => Some(Denial::Taken),
        1 => Some(Denial::Full),
        _ => None,
    }
}

fn denied_in(bytes: &[u8]) -> Option<Denied>
    ensures some { IfSome result (λ d. bytes.now ≡ denied_record d) }
    ensures fits { IfSome result (λ d. (d.serial < 2 ^ 32) × (d.address < 2 ^ 128)) }
    ensures none { IsNone result → (d : Denied) → bytes.now ≡ denied_record d → ⊥ }
{
    let [denial, rest @ ..] = bytes else {
        return None;
    };
    let denial = denial_in(*denial)?;
    let BoxAt { serial, address } = box_in(rest)?;
    Some(Denied {
        serial,
        address,
        denial,
    })
}

fn held_in(alloc: Global, bytes: &[u8]) -> Result<Option<Held>, NoMemory>
    ensures { IfOk result (λ found. MatchOption found ((h : Held) → bytes.now ≡ held_record h → ⊥)
        (λ h. IsHeld h × (bytes.now ≡ held_record h))) }
{
    match bytes {
        [0] => Ok(Some(Held::Nothing)),
        [2] => Ok(Some(Held::Met)),
        [1, rest @ ..] => match long_in(rest) {
            Some((id, text)) => {
                let text = copy_of(alloc, text)?;
                Ok(Some(Held::Letter { id, text }))
            }
            None => Ok(None),
        },
        _ => Ok(None),
    }
}

// What a reading says before what the box held.
#[derive(Clone, Copy)]
struct Front {
    last: bool,
    serial: u32,
    registered: u32,
    seconds: u64,
}

fn flag_in(byte: u8) -> Option<bool>
    ensures { MatchOption result ((byte ≢ 0) × (byte ≢ 1)) (λ last. byte ≡ flag last) }
{
    match byte {
        0 => Some(false),
        1 => Some(true),
        _ => None,
    }
}

fn front_in(bytes: &[u8]) -> Option<(Front, &[u8])>
    ensures some { IfSome result (λ r. bytes.now ≡ front_record r.0 ++ r.1.now) }
    ensures fits { IfSome result (λ r. IsFront r.0) }
    ensures none { IsNone result → (r : Reading) → bytes.now ≡ reading_record r → ⊥ }
{
    let [last, rest @ ..] = bytes else {
        return None;
    };
    let last = flag_in(*last)?;
    let (serial, rest) = wide_in(rest)?;
    let (registered, rest) = wide_in(rest)?;
    let (seconds, rest) = long_in(rest)?;
    let front = Front {
        last,
        serial,
        registered,
        seconds,
    };
    Some((front, rest))
}

fn reading_in(alloc: Global, bytes: &[u8]) -> Result<Option<Reading>, NoMemory>
    ensures { IfOk result (λ found. MatchOption found (IsNoReading bytes.now)
        (λ r. IsReading r × (bytes.now ≡ reading_record r))) }
{
    let Some((front, rest)) = front_in(bytes) else {
        return Ok(None);
    };
    match held_in(alloc, rest)? {
        Some(held) => Ok(Some(Reading {
            serial: front.serial,
            registered: front.registered,
            last: front.last,
            seconds: front.seconds,
            held,
        })),
        None => Ok(None),
    }
}

// The entry of this tag.
fn entry_in(alloc: Global, tag: u8, rest: &[u8]) -> Result<Option<Entry>, NoMemory>
    ensures { IfOk result (λ found. MatchOption found (IsNoEntry (tag ∷ rest.now))
        (λ e. IsFormed e × (tag ∷ rest.now ≡ entry_record e))) }
{
    match tag {
        1 => {
            let text = copy_of(alloc, rest)?;
            Ok(Some(Entry::Pair(text)))
        }
        2 => match named_in(alloc, rest, None)? {
            Some(named) => Ok(Some(Entry::Named(named))),
            None => Ok(None),
        },
        3 => match box_in(rest) {
            Some(registered) => Ok(Some(Entry::Registered(registered))),
            None => Ok(None),
        },
        4 => match denied_in(rest) {
            Some(denied) => Ok(Some(Entry::Refused(denied))),
            None => Ok(None),
        },
        5 => match reading_in(alloc, rest)? {
            Some(reading) => Ok(Some(Entry::Read(reading))),
            None => Ok(None),
        },
        6 => match name_in(alloc, rest)? {
            Some(name) => Ok(Some(Entry::Retiring(name))),
            None => Ok(None),
        },
        7 => match count_in(rest) {
            Some(count) => Ok(Some(Entry::Shown(count))),
            None => Ok(None),
        },
        8 => match count_in(rest) {
            Some(count) => Ok(Some(Entry::Written(count))),
            None => Ok(None),
        },
        9 => match closed_in(alloc, rest)? {
            Some(closed) => Ok(Some(Entry::Closed(closed))),
            None => Ok(None),
        },
        10 => match dated_in(alloc, rest)? {
            Some(named) => Ok(Some(Entry::Named(named))),
            None => Ok(None),
        },
        _ => Ok(None),
    }
}

impl Entry {
    /// The entry that a record is, if it is one.
    pub fn of(alloc: Global, bytes: &[u8]) -> Result<Option<Entry>, NoMemory>
        ensures { IfOk result (λ found. MatchOption found (IsNoEntry bytes.now)
            (λ e. IsEntry e × (bytes.now ≡ entry_record e))) }
    {
        if bytes.len() > MOST_RECORD {
            return Ok(None);
        }
        match bytes {
            [tag, rest @ ..] => entry_in(alloc, *tag, rest),
            [] => Ok(None),
        }
    }
}
