//! The parts of records.
ghost use Rattle.std.specs.Prelude.{◌≡◌, ◌%◌, ◌<◌, ◌^◌, ◌++◌, ◌∷◌, IsNone, IfOk, IfSome, MatchOption, length, true, false};
ghost use Rattle.std.specs.Int.{w32, w64, w128, to_be_bytes};
ghost use Rattle.std.specs.List.{flat_map};
ghost use Rattle.desk_texts.specs.Days.{IsDay};
ghost use Rattle.desk_entries.specs.Entries.{AreAddresses};
ghost use Rattle.desk_entries.specs.Names.{is_name};
ghost use Rattle.desk_entries.specs.Records.{HasNoDay, day_record};

use crate::name::is_name;
use desk_texts::Day;
use express_words::{List, NoMemory, Text};
use std::alloc::Global;

// A number of four bytes, and what stands behind it.
pub(crate) fn wide_in(bytes: &[u8]) -> Option<(u32, &[u8])>
    ensures some { IfSome result (λ r. bytes.now ≡ to_be_bytes w32 r.0 ++ r.1.now) }
    ensures fits { IfSome result (λ r. r.0 < 2 ^ 32) }
    ensures none { IsNone result → length bytes.now < 4 }
{
    let [a, b, c, d, rest @ ..] = bytes else {
        return None;
    };
    Some((u32::from_be_bytes([*a, *b, *c, *d]), rest))
}

pub(crate) fn long_in(bytes: &[u8]) -> Option<(u64, &[u8])>
    ensures some { IfSome result (λ r. bytes.now ≡ to_be_bytes w64 r.0 ++ r.1.now) }
    ensures fits { IfSome result (λ r. r.0 < 2 ^ 64) }
    ensures none { IsNone result → length bytes.now < 8 }
{
    let [a, b, c, d, e, f, g, h, rest @ ..] = bytes else {
        return None;
    };
    let number = u64::from_be_bytes([*a, *b, *c, *d, *e, *f, *g, *h]);
    Some((number, rest))
}

#[tactic(auto, using(frame_rules::proofs::Digits::be_back))]
pub(crate) fn address_of(bytes: &[u8]) -> u128
    requires { length bytes.now ≡ 16 }
    ensures spelled { to_be_bytes w128 result ≡ bytes.now }
    ensures fits { result < 2 ^ 128 }
{
    let mut number = [0; 16];
    number.copy_from_slice(bytes);
    u128::from_be_bytes(number)
}

// The addresses of 16 bytes each.
pub(crate) fn addresses_in(alloc: Global, bytes: &[u8]) -> Result<Vec<u128>, NoMemory>
    requires { length bytes.now % 16 ≡ 0 }
    ensures spelled { IfOk result (λ addresses. flat_map (to_be_bytes w128) addresses.items ≡ bytes.now) }
    ensures fits { IfOk result (λ addresses. AreAddresses addresses.items) }
{
    let mut addresses = Vec::new(alloc);
    let mut rest = bytes;
    while rest.len() >= 16 {
        let (front, behind) = rest.split_at(16);
        addresses.push(address_of(front))?;
        rest = behind;
    }
    Ok(addresses)
}

pub(crate) fn copy_of(alloc: Global, bytes: &[u8]) -> Result<List<u8>, NoMemory>
    ensures { IfOk result (λ copy. copy ≡ bytes.now) }
{
    let items = Vec::from_slice(alloc, bytes)?;
    Ok(List::from_vec(items))
}

// A name as a text: its characters are ASCII.
pub(crate) fn name_in(alloc: Global, bytes: &[u8]) -> Result<Option<Text>, NoMemory>
    ensures { IfOk result (λ found. MatchOption found (is_name bytes.now ≡ false)
        (λ name. (name ≡ bytes.now) × (is_name bytes.now ≡ true))) }
{
    if !is_name(bytes) {
        return Ok(None);
    }
    match std::str::from_utf8(bytes) {
        Ok(name) => {
            let text = String::from_str(alloc, name)?;
            Ok(Some(Text::from_string(text)))
        }
        Err(_) => unreachable!(),
    }
}

// A day of the calendar, and what stands behind it.
pub(crate) fn day_in(bytes: &[u8]) -> Option<(Day, &[u8])>
    ensures some { IfSome result (λ r. bytes.now ≡ day_record r.0 ++ r.1.now) }
    ensures is { IfSome result (λ r. IsDay r.0) }
    ensures none { IsNone result → HasNoDay bytes.now }
{
    let [a, b, month, day, rest @ ..] = bytes else {
        return None;
    };
    let day = Day {
        year: u16::from_be_bytes([*a, *b]),
        month: *month,
        day: *day,
    };
    if day.is_day() {
        Some((day, rest))
    } else {
        None
    }
}

pub(crate) fn count_in(bytes: &[u8]) -> Option<u32>
    ensures some { IfSome result (λ count. (count < 2 ^ 32) × (bytes.now ≡ to_be_bytes w32 count)) }
    ensures none { IsNone result → length bytes.now ≡ 4 → ⊥ }
{
    let [a, b, c, d] = bytes else {
        return None;
    };
    Some(u32::from_be_bytes([*a, *b, *c, *d]))
}
