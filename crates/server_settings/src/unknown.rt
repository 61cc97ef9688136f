//! Keys that no server has.
ghost use Rattle.std.specs.Prelude.{◌≡◌};
ghost use Rattle.std.specs.Option.{option_copied};
ghost use Rattle.toml.specs.View.{table_view};
ghost use Rattle.server_settings.specs.Judging.{Gives};
ghost use Rattle.server_settings.specs.Lookups.{known, unknown_in};

use crate::fault::{BadSettings, SettingsFault};
use crate::found::copied;
use crate::key::Key;
use std::alloc::Global;
use toml::Table;

// The first name that no key has.
fn unknown_in(table: &Table) -> Option<&str>
    ensures { option_copied result ≡ unknown_in (table_view table.now) }
{
    for name in table.keys() {
        if Key::of(name.as_str()).is_none() {
            return Some(name.as_str());
        }
    }
    None
}

/// That each name is a key's.
#[tactic(auto, unfolding(crate::specs::Lookups::known))]
pub(crate) fn known(alloc: Global, table: &Table) -> Result<(), SettingsFault>
    ensures { Gives (λ _. tt) result (known (table_view table.now)) }
{
    match unknown_in(table) {
        Some(name) => Err(SettingsFault::Bad(BadSettings::Unknown(copied(alloc, name)?))),
        None => Ok(()),
    }
}
