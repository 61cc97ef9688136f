//! A file to send, and where its parts go.
ghost use Rattle.std.specs.Prelude.{◌≡◌, ◌≢◌, ◌<◌, ◌≤◌, ◌-◌, ◌^◌, [], AllPairs, codes, length, map};
ghost use Rattle.std.specs.Prelude.{IfOk, IfSome};
ghost use Rattle.file_carry.specs.Parts.{IsPartWidth, count_of};
ghost use Rattle.toml.specs.View.{view, table_view};
ghost use Rattle.settings_text.specs.Files.{id_in, few_parts, file_in, addresses_on, addresses_in};
ghost use Rattle.settings_text.specs.Judging.{Gives};
ghost use Rattle.settings_text.specs.Keys.{needed};

use crate::digits::any_bytes_of;
use crate::faults::wrong_key;
use crate::values::{address_in, list_within, value_at};
use express_texts::TextFault;
use express_words::{List, NoMemory};
use file_carry::parts;
use indexmap::IndexSet;
use std::alloc::Global;
use toml::{Table, Value};

#[tactic(auto, unfolding(crate::specs::Files::id_in, crate::specs::Values::number_in, crate::specs::Values::number_within))]
fn id_in(value: &Value) -> Option<u64>
    ensures value { result ≡ id_in (view value.now) }
    ensures high { IfSome result (λ id. id < 2 ^ 63) }
{
    let number = value.as_integer()?;
    if number < 0 {
        None
    } else {
        Some(number as u64)
    }
}

/// The file's id, which is below 2^63.
pub fn id(alloc: Global, table: &Table) -> Result<u64, TextFault>
    ensures value { Gives (λ id. id) result (needed (codes "id") id_in (table_view table.now)) }
    ensures high { IfOk result (λ id. id < 2 ^ 63) }
{
    let found = match value_at(table, "id") {
        Some(value) => id_in(value),
        None => None,
    };
    match found {
        Some(id) => Ok(id),
        None => Err(wrong_key(alloc, "id")),
    }
}

// How many messages of this width a file takes, if those aren't too many.
fn count_in(width: u32, file: &[u8]) -> Option<u32>
    requires { IsPartWidth width }
    ensures value { result ≡ few_parts width file.now }
    ensures count { IfSome result (λ count. count ≡ count_of (length file.now) (width - 16)) }
    ensures few { IfSome result (λ count. count ≤ 4096) }
{
    match u32::try_from(file.len()) {
        Ok(length) => parts(length, width),
        Err(_) => None,
    }
}

// A file that isn't too long, and how many parts it has.
#[tactic(auto, unfolding(crate::specs::Files::file_in))]
fn file_in(alloc: Global, width: u32, value: &Value) -> Result<Option<(List<u8>, u32)>, NoMemory>
    requires { IsPartWidth width }
    ensures value { IfOk result (λ found. found ≡ file_in width (view value.now)) }
    ensures count { IfOk result (λ found. IfSome found (λ r. r.1 ≡ count_of (length r.0) (width - 16))) }
    ensures few { IfOk result (λ found. IfSome found (λ r. r.1 ≤ 4096)) }
{
    let Some(digits) = value.as_str() else {
        return Ok(None);
    };
    let Some(file) = any_bytes_of(alloc, digits)? else {
        return Ok(None);
    };
    match count_in(width, file.as_slice()) {
        Some(count) => Ok(Some((file, count))),
        None => Ok(None),
    }
}

/// The file, which isn't too long, and how many parts it has.
pub fn file(alloc: Global, width: u32, table: &Table) -> Result<(List<u8>, u32), TextFault>
    requires { IsPartWidth width }
    ensures value { Gives (λ found. found) result
        (needed (codes "file") (file_in width) (table_view table.now)) }
    ensures count { IfOk result (λ r. r.1 ≡ count_of (length r.0) (width - 16)) }
    ensures few { IfOk result (λ r. r.1 ≤ 4096) }
{
    let found = match value_at(table, "file") {
        Some(value) => file_in(alloc, width, value)?,
        None => None,
    };
    match found {
        Some(found) => Ok(found),
        None => Err(wrong_key(alloc, "file")),
    }
}

fn collected(alloc: Global, values: &[Value]) -> Result<Option<List<u128>>, NoMemory>
    ensures value { IfOk result (λ found. found ≡ addresses_on [] (map view values.now)) }
    ensures as_many { IfOk result (λ found. IfSome found (λ a. length a ≡ length values.now)) }
    ensures distinct { IfOk result (λ found. IfSome found (AllPairs (λ p q. p ≢ q))) }
{
    let mut addresses = IndexSet::new(alloc);
    for value in values {
        let Some(address) = address_in(value) else {
            return Ok(None);
        };
        let (_, is_new) = addresses.insert_full(address)?;
        if !is_new {
            return Ok(None);
        }
    }
    let addresses = Vec::from_slice(alloc, addresses.as_slice())?;
    Ok(Some(List::from_vec(addresses)))
}

#[tactic(auto, unfolding(crate::specs::Files::addresses_in))]
fn addresses_in(alloc: Global, count: u32, value: &Value) -> Result<Option<List<u128>>, NoMemory>
    ensures value { IfOk result (λ found. found ≡ addresses_in count (view value.now)) }
    ensures as_many { IfOk result (λ found. IfSome found (λ a. length a ≡ count)) }
    ensures distinct { IfOk result (λ found. IfSome found (AllPairs (λ p q. p ≢ q))) }
{
    match list_within(count as usize, count as usize, value) {
        Some(values) => collected(alloc, values),
        None => Ok(None),
    }
}

/// So many addresses, all different.
pub fn addresses(alloc: Global, count: u32, table: &Table) -> Result<List<u128>, TextFault>
    ensures value { Gives (λ found. found) result
        (needed (codes "addresses") (addresses_in count) (table_view table.now)) }
    ensures as_many { IfOk result (λ addresses. length addresses ≡ count) }
    ensures distinct { IfOk result (AllPairs (λ p q. p ≢ q)) }
{
    let found = match value_at(table, "addresses") {
        Some(value) => addresses_in(alloc, count, value)?,
        None => None,
    };
    match found {
        Some(addresses) => Ok(addresses),
        None => Err(wrong_key(alloc, "addresses")),
    }
}
