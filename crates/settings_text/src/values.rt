//! The values of a table, each as one of some kind.
ghost use Rattle.std.specs.Prelude.{◌≡◌, ◌≤◌, ◌%◌, length, IfSome, option_map, map};
ghost use Rattle.std.specs.Option.{option_copied};
ghost use Rattle.toml.specs.Data.{get_member, as_str};
ghost use Rattle.toml.specs.View.{view, table_view};
ghost use Rattle.settings_text.specs.Values.{at_key, number_in, width_in, address_in, seed_in};
ghost use Rattle.settings_text.specs.Values.{elements_in, list_within};

use crate::digits::{address_of, seed_of};
use express_words::limits::MOST_WIDTH;
use toml::{Table, Value};

/// The value under a key.
pub fn value_at<'a>(table: &'a Table, key: &str) -> Option<&'a Value>
    ensures { option_map (λ v. view v.now) result ≡ get_member key.now (table_view table.now) }
{
    table.get(key)
}

/// The text under a key.
pub fn text_at<'a>(table: &'a Table, key: &str) -> Option<&'a str>
    ensures { option_copied result ≡ at_key key.now as_str (table_view table.now) }
{
    let value = value_at(table, key)?;
    value.as_str()
}

/// A whole number within these bounds.
#[tactic(auto, unfolding(crate::specs::Values::number_in, crate::specs::Values::number_within))]
pub fn number_in(low: u32, high: u32, value: &Value) -> Option<u32>
    ensures value { result ≡ number_in low high (view value.now) }
    ensures low { IfSome result (λ n. low ≤ n) }
    ensures high { IfSome result (λ n. n ≤ high) }
{
    let number = value.as_integer()?;
    if number < i64::from(low) || number > i64::from(high) {
        return None;
    }
    Some(number as u32)
}

/// The whole number under a key, within these bounds.
pub fn number_at(table: &Table, key: &str, low: u32, high: u32) -> Option<u32>
    ensures value { result ≡ at_key key.now (number_in low high) (table_view table.now) }
    ensures low { IfSome result (λ n. low ≤ n) }
    ensures high { IfSome result (λ n. n ≤ high) }
{
    let value = value_at(table, key)?;
    number_in(low, high, value)
}

/// A message's width, at least this one.
#[tactic(auto, unfolding(crate::specs::Values::width_in))]
pub fn width_in(least: u32, value: &Value) -> Option<u32>
    ensures value { result ≡ width_in least (view value.now) }
    ensures low { IfSome result (λ width. least ≤ width) }
    ensures high { IfSome result (λ width. width ≤ 4096) }
    ensures sixteens { IfSome result (λ width. width % 16 ≡ 0) }
{
    let width = number_in(least, MOST_WIDTH, value)?;
    if width % 16 == 0 { Some(width) } else { None }
}

/// An address.
#[tactic(auto, unfolding(crate::specs::Values::address_in))]
pub fn address_in(value: &Value) -> Option<u128>
    ensures { result ≡ address_in (view value.now) }
{
    let digits = value.as_str()?;
    address_of(digits)
}

/// The address under a key.
pub fn address_at(table: &Table, key: &str) -> Option<u128>
    ensures { result ≡ at_key key.now address_in (table_view table.now) }
{
    let value = value_at(table, key)?;
    address_in(value)
}

/// A seed.
#[tactic(auto, unfolding(crate::specs::Values::seed_in))]
pub fn seed_in(value: &Value) -> Option<[u8; 32]>
    ensures { result ≡ seed_in (view value.now) }
{
    let digits = value.as_str()?;
    seed_of(digits)
}

// The values of a list.
#[tactic(auto, using(crate::proofs::ListLaws::elements_view), unfolding(crate::specs::Values::elements_in))]
fn elements_in(value: &Value) -> Option<&[Value]>
    ensures { option_map (λ values. map view values.now) result ≡ elements_in (view value.now) }
{
    let array = value.as_array()?;
    Some(array.as_slice())
}

/// The values of a list that has as many as these bounds allow.
#[tactic(auto, unfolding(crate::specs::Values::list_within))]
pub fn list_within(low: usize, high: usize, value: &Value) -> Option<&[Value]>
    ensures value { option_map (λ vs. map view vs.now) result ≡ list_within low high (view value.now) }
    ensures low { IfSome result (λ values. low ≤ length values.now) }
    ensures high { IfSome result (λ values. length values.now ≤ high) }
{
    let values = elements_in(value)?;
    if low <= values.len() && values.len() <= high {
        Some(values)
    } else {
        None
    }
}
