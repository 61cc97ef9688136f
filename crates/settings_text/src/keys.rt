//! The keys that settings need.
ghost use Rattle.std.specs.Prelude.{◌≡◌, ◌≤◌, ◌%◌, codes, IfOk};
ghost use Rattle.toml.specs.Data.{as_str};
ghost use Rattle.toml.specs.View.{table_view};
ghost use Rattle.settings_text.specs.Judging.{Gives};
ghost use Rattle.settings_text.specs.Keys.{needed};
ghost use Rattle.settings_text.specs.Values.{number_in, width_in};

use crate::faults::wrong_key;
use crate::values::{number_at, text_at, value_at, width_in};
use express_texts::TextFault;
use express_words::{NoMemory, Text};
use std::alloc::Global;
use toml::Table;

fn copied(alloc: Global, text: &str) -> Result<Text, NoMemory>
    ensures { IfOk result (λ copy. copy ≡ text.now) }
{
    Ok(Text::from_string(String::from_str(alloc, text)?))
}

/// The text under a key.
pub fn text(alloc: Global, table: &Table, key: &str) -> Result<Text, TextFault>
    ensures { Gives (λ text. text) result (needed key.now as_str (table_view table.now)) }
{
    match text_at(table, key) {
        Some(text) => Ok(copied(alloc, text)?),
        None => Err(wrong_key(alloc, key)),
    }
}

/// The whole number under a key, within these bounds.
pub fn number(
    alloc: Global,
    table: &Table,
    key: &str,
    low: u32,
    high: u32,
) -> Result<u32, TextFault>
    ensures value { Gives (λ n. n) result (needed key.now (number_in low high) (table_view table.now)) }
    ensures low { IfOk result (λ n. low ≤ n) }
    ensures high { IfOk result (λ n. n ≤ high) }
{
    match number_at(table, key, low, high) {
        Some(number) => Ok(number),
        None => Err(wrong_key(alloc, key)),
    }
}

/// The width of messages, at least this one.
pub fn width(alloc: Global, table: &Table, least: u32) -> Result<u32, TextFault>
    ensures value { Gives (λ n. n) result (needed (codes "width") (width_in least) (table_view table.now)) }
    ensures low { IfOk result (λ width. least ≤ width) }
    ensures high { IfOk result (λ width. width ≤ 4096) }
    ensures sixteens { IfOk result (λ width. width % 16 ≡ 0) }
{
    let found = match value_at(table, "width") {
        Some(value) => width_in(least, value),
        None => None,
    };
    match found {
        Some(width) => Ok(width),
        None => Err(wrong_key(alloc, "width")),
    }
}
