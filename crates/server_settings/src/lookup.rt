//! What stands under the keys of a table.
ghost use Rattle.std.specs.Prelude.{◌≡◌, ◌≤◌, IfOk, Some, option_map};
ghost use Rattle.toml.specs.Data.{get_member};
ghost use Rattle.toml.specs.View.{view, table_view};
ghost use Rattle.server_settings.specs.Faults.{found_in};
ghost use Rattle.server_settings.specs.Judging.{Gives, Tells};
ghost use Rattle.server_settings.specs.Keys.{key_name};
ghost use Rattle.server_settings.specs.Lookups.{needed, read_or_wrong, stands};
ghost use Rattle.server_settings.specs.Values.{number_in};
ghost use Rattle.server_settings.specs.declared.fault.BadSettings.TheVariants.{Wrong};

use crate::fault::{BadSettings, SettingsFault, bad};
use crate::found::Found;
use crate::key::Key;
use crate::values::number_in;
use std::alloc::Global;
use toml::{Table, Value};

/// The value under a key.
pub(crate) fn value_at(table: &Table, key: Key) -> Option<&Value>
    ensures { option_map (λ v. view v.now) result ≡ get_member (key_name key) (table_view table.now) }
{
    table.get(key.name())
}

/// The value under a key that is needed.
pub(crate) fn needed(table: &Table, key: Key) -> Result<&Value, SettingsFault>
    ensures { Gives (λ v. view v.now) result (stands key (table_view table.now)) }
{
    match value_at(table, key) {
        Some(value) => Ok(value),
        None => Err(bad(BadSettings::Missing(key))),
    }
}

/// That the key doesn't take this value, or want of memory for telling it.
pub(crate) fn wrong(alloc: Global, key: Key, value: &Value) -> SettingsFault
    ensures { Tells (Wrong key (found_in (view value.now))) result }
{
    match Found::of(alloc, value) {
        Ok(found) => bad(BadSettings::Wrong(key, found)),
        Err(_) => SettingsFault::NoMemory,
    }
}

/// What was read of the value under a key, if anything was.
pub(crate) fn read_or_wrong<T>(
    alloc: Global,
    key: Key,
    value: &Value,
    read: Option<T>,
) -> Result<T, SettingsFault>
    ensures value { Gives (λ a. a) result (read_or_wrong key (view value.now) read) }
    ensures found { IfOk result (λ a. read ≡ Some a) }
{
    match read {
        Some(read) => Ok(read),
        None => Err(wrong(alloc, key, value)),
    }
}

/// The whole number under a key that is needed, within these bounds.
pub(crate) fn number(
    alloc: Global,
    table: &Table,
    key: Key,
    low: u32,
    high: u32,
) -> Result<u32, SettingsFault>
    ensures value { Gives (λ n. n) result (needed key (number_in low high) (table_view table.now)) }
    ensures low { IfOk result (λ n. low ≤ n) }
    ensures high { IfOk result (λ n. n ≤ high) }
{
    let value = needed(table, key)?;
    match number_in(low, high, value) {
        Some(number) => Ok(number),
        None => Err(wrong(alloc, key, value)),
    }
}
