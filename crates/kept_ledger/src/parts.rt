//! The parts of records.
ghost use Rattle.std.specs.Prelude.{◌≡◌, ◌≤◌, ◌+◌, ◌<◌, ◌^◌, ◌∷◌, ◌++◌, IsNone, IfSome, MatchOption, length};
ghost use Rattle.std.specs.Prelude.{true, false};
ghost use Rattle.std.specs.Int.{w16, w32, w64, w128, to_be_bytes};
ghost use Rattle.desk_texts.specs.Days.{IsDay};
ghost use Rattle.kept_ledger.specs.Names.{is_name};
ghost use Rattle.kept_ledger.specs.Notes.{day_bytes, until_bytes};
ghost use Rattle.kept_ledger.specs.Records.{HasNoDay, HasNoUntil, HasNoZeros};

use crate::digits::address_of;
use crate::name::is_name;
use desk_texts::Day;
use node_journal::RECORD_MAX;

// These bytes one behind the other.
pub(crate) fn put<'r>(head: &[u8], rest: &[u8], room: &'r mut [u8; RECORD_MAX]) -> &'r [u8]
    requires { length head.now + length rest.now ≤ 8214 }
    ensures { result.now ≡ head.now ++ rest.now }
{
    let (front, behind) = room.split_at_mut(head.len());
    front.copy_from_slice(head);
    behind[..rest.len()].copy_from_slice(rest);
    &room[..head.len() + rest.len()]
}

pub(crate) fn put_three<'r>(
    head: &[u8],
    middle: &[u8],
    rest: &[u8],
    room: &'r mut [u8; RECORD_MAX],
) -> &'r [u8]
    requires { length head.now + length middle.now + length rest.now ≤ 8214 }
    ensures { result.now ≡ head.now ++ (middle.now ++ rest.now) }
{
    let (front, behind) = room.split_at_mut(head.len());
    front.copy_from_slice(head);
    let (inner, last) = behind.split_at_mut(middle.len());
    inner.copy_from_slice(middle);
    last[..rest.len()].copy_from_slice(rest);
    &room[..head.len() + middle.len() + rest.len()]
}

// A number of four bytes, and what stands behind it.
pub(crate) fn word_in(bytes: &[u8]) -> Option<(u32, &[u8])>
    ensures some { IfSome result (λ r. bytes.now ≡ to_be_bytes w32 r.0 ++ r.1.now) }
    ensures fits { IfSome result (λ r. r.0 < 2 ^ 32) }
    ensures none { IsNone result → length bytes.now < 4 }
{
    let [a, b, c, d, rest @ ..] = bytes else {
        return None;
    };
    Some((u32::from_be_bytes([*a, *b, *c, *d]), rest))
}

pub(crate) fn long_in(bytes: &[u8]) -> Option<(u64, &[u8])>
    ensures some { IfSome result (λ r. bytes.now ≡ to_be_bytes w64 r.0 ++ r.1.now) }
    ensures fits { IfSome result (λ r. r.0 < 2 ^ 64) }
    ensures none { IsNone result → length bytes.now < 8 }
{
    let [a, b, c, d, e, f, g, h, rest @ ..] = bytes else {
        return None;
    };
    let number = u64::from_be_bytes([*a, *b, *c, *d, *e, *f, *g, *h]);
    Some((number, rest))
}

// A number of four bytes alone.
pub(crate) fn only_word(bytes: &[u8]) -> Option<u32>
    ensures some { IfSome result (λ n. (n < 2 ^ 32) × (bytes.now ≡ to_be_bytes w32 n)) }
    ensures none { IsNone result → length bytes.now ≡ 4 → ⊥ }
{
    let [a, b, c, d] = bytes else {
        return None;
    };
    Some(u32::from_be_bytes([*a, *b, *c, *d]))
}

pub(crate) fn only_long(bytes: &[u8]) -> Option<u64>
    ensures some { IfSome result (λ n. (n < 2 ^ 64) × (bytes.now ≡ to_be_bytes w64 n)) }
    ensures none { IsNone result → length bytes.now ≡ 8 → ⊥ }
{
    let [a, b, c, d, e, f, g, h] = bytes else {
        return None;
    };
    let number = u64::from_be_bytes([*a, *b, *c, *d, *e, *f, *g, *h]);
    Some(number)
}

pub(crate) fn only_address(bytes: &[u8]) -> Option<u128>
    ensures some { IfSome result (λ n. (n < 2 ^ 128) × (bytes.now ≡ to_be_bytes w128 n)) }
    ensures none { IsNone result → length bytes.now ≡ 16 → ⊥ }
{
    if bytes.len() == 16 {
        Some(address_of(bytes))
    } else {
        None
    }
}

// A name as a text: its characters are ASCII.
pub(crate) fn name_in(bytes: &[u8]) -> Option<&str>
    ensures { MatchOption result (is_name bytes.now ≡ false)
        (λ name. (name.now ≡ bytes.now) × (is_name bytes.now ≡ true)) }
{
    if !is_name(bytes) {
        return None;
    }
    match std::str::from_utf8(bytes) {
        Ok(name) => Some(name),
        Err(_) => unreachable!(),
    }
}

// A day of the calendar, and what stands behind it.
pub(crate) fn day_in(bytes: &[u8]) -> Option<(Day, &[u8])>
    ensures some { IfSome result (λ r. bytes.now ≡ day_bytes r.0 ++ r.1.now) }
    ensures is { IfSome result (λ r. IsDay r.0) }
    ensures none { IsNone result → HasNoDay bytes.now }
{
    let [a, b, month, day, rest @ ..] = bytes else {
        return None;
    };
    let day = Day {
        year: u16::from_be_bytes([*a, *b]),
        month: *month,
        day: *day,
    };
    if day.is_day() {
        Some((day, rest))
    } else {
        None
    }
}

// What stands behind four zeros.
fn behind_zeros(bytes: &[u8]) -> Option<&[u8]>
    ensures some { IfSome result (λ rest. bytes.now ≡ 0 ∷ 0 ∷ 0 ∷ 0 ∷ rest.now) }
    ensures none { IsNone result → HasNoZeros bytes.now }
{
    match bytes {
        [0, 0, 0, 0, rest @ ..] => Some(rest),
        _ => None,
    }
}

// The last day of a card, where it has one, and what stands behind it.
#[tactic(auto, using(crate::proofs::PartLaws::no_until))]
pub(crate) fn until_in(bytes: &[u8]) -> Option<(Option<Day>, &[u8])>
    ensures some { IfSome result (λ r. bytes.now ≡ until_bytes r.0 ++ r.1.now) }
    ensures is { IfSome result (λ r. IfSome r.0 IsDay) }
    ensures none { IsNone result → HasNoUntil bytes.now }
{
    if let Some(rest) = behind_zeros(bytes) {
        return Some((None, rest));
    }
    match day_in(bytes) {
        Some((day, rest)) => Some((Some(day), rest)),
        None => None,
    }
}

pub(crate) fn day_bytes(day: &Day) -> [u8; 4]
    ensures { result ≡ day_bytes day.now }
{
    let [a, b] = day.year.to_be_bytes();
    [a, b, day.month, day.day]
}

pub(crate) fn until_bytes(until: &Option<Day>) -> [u8; 4]
    ensures { result ≡ until_bytes until.now }
{
    match until {
        Some(day) => day_bytes(day),
        None => [0; 4],
    }
}
