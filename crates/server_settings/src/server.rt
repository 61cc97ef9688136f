//! The settings of a server for many.
ghost use Rattle.std.specs.Prelude.{◌≡◌, ◌+◌, ◌≤◌, IfOk, IfSome, IsTrue, None};
ghost use Rattle.http_door.specs.Values.{is_value};
ghost use Rattle.lane_gate.specs.Openings.{IsGateOpening};
ghost use Rattle.toml.specs.View.{table_view};
ghost use Rattle.server_settings.specs.Files.{AreApart, judged, origin_given, server_of, table_in};
ghost use Rattle.server_settings.specs.Judging.{Gives};
ghost use Rattle.server_settings.specs.Lookups.{needed, optional};
ghost use Rattle.server_settings.specs.Values.{folder_in, is_loopback, number_in, role_in};

use crate::doors::{Doors, doors_of};
use crate::fault::{BadSettings, SettingsFault, bad};
use crate::key::Key;
use crate::lookup::{needed, read_or_wrong, value_at};
use crate::sizes::{Sizes, sizes_of};
use crate::unknown::known;
use crate::values::{
    LEAST_PLACES, MOST_PLACES, USUAL_PLACES, folder_in, number_in, origin_in, role_in,
};
use express_words::{Role, Text};
use std::alloc::Global;
use toml::Table;

/// What one server for many is.
#[derive(Drop)]
pub struct ServerSettings {
    /// Which of the two servers it is.
    pub role: Role,
    /// How large it is.
    pub sizes: Sizes,
    /// Where it listens, and whom it dials.
    pub doors: Doors,
    /// The path of the folder where the log is kept.
    pub folder: Text,
    /// How many connections are open at most, 16 to 4,096.
    pub places: u32,
    /// The pages that a browser may read answers from, as a header field's value: 1 to 255 visible ASCII characters.
    pub origin: Option<Text>,
}

fn role(alloc: Global, table: &Table) -> Result<Role, SettingsFault>
    ensures { Gives (λ r. r) result (needed Key.Role role_in (table_view table.now)) }
{
    let value = needed(table, Key::Role)?;
    read_or_wrong(alloc, Key::Role, value, role_in(value))
}

fn folder(alloc: Global, table: &Table) -> Result<Text, SettingsFault>
    ensures { Gives (λ f. f) result (needed Key.Folder folder_in (table_view table.now)) }
{
    let value = needed(table, Key::Folder)?;
    let found = folder_in(alloc, value)?;
    read_or_wrong(alloc, Key::Folder, value, found)
}

fn places(alloc: Global, table: &Table) -> Result<u32, SettingsFault>
    ensures value { Gives (λ n. n) result
        (optional USUAL_PLACES Key.Places (number_in LEAST_PLACES MOST_PLACES) (table_view table.now)) }
    ensures some { IfOk result (λ n. LEAST_PLACES ≤ n) }
    ensures few { IfOk result (λ n. n ≤ MOST_PLACES) }
{
    let Some(value) = value_at(table, Key::Places) else {
        return Ok(USUAL_PLACES);
    };
    let found = number_in(LEAST_PLACES, MOST_PLACES, value);
    read_or_wrong(alloc, Key::Places, value, found)
}

fn origin(alloc: Global, table: &Table) -> Result<Option<Text>, SettingsFault>
    ensures value { Gives (λ o. o) result (optional None Key.Origin origin_given (table_view table.now)) }
    ensures field { IfOk result (λ origin. IfSome origin (λ o. IsTrue (is_value o))) }
{
    let Some(value) = value_at(table, Key::Origin) else {
        return Ok(None);
    };
    let found = origin_in(alloc, value)?;
    let origin = read_or_wrong(alloc, Key::Origin, value, found)?;
    Ok(Some(origin))
}

#[tactic(auto, unfolding(crate::specs::Files::server_of))]
fn server_of(alloc: Global, table: &Table) -> Result<ServerSettings, SettingsFault>
    ensures value { Gives (λ s. s) result (server_of (table_view table.now)) }
    ensures gate { IfOk result (λ s. IsGateOpening s.sizes.gate) }
    ensures lanes { IfOk result (λ s. s.sizes.settings.lanes ≡ s.sizes.gate.owners + s.sizes.gate.strangers) }
    ensures status { IfOk result (λ s. IfSome s.doors.status (λ a. IsTrue (is_loopback a))) }
    ensures differ { IfOk result (λ s. AreApart s.doors) }
    ensures some { IfOk result (λ s. LEAST_PLACES ≤ s.places) }
    ensures few { IfOk result (λ s. s.places ≤ MOST_PLACES) }
    ensures origin { IfOk result (λ s. IfSome s.origin (λ o. IsTrue (is_value o))) }
{
    known(alloc, table)?;
    let role = role(alloc, table)?;
    let sizes = sizes_of(alloc, table)?;
    let doors = doors_of(alloc, table)?;
    let folder = folder(alloc, table)?;
    let places = places(alloc, table)?;
    let origin = origin(alloc, table)?;
    Ok(ServerSettings {
        role,
        sizes,
        doors,
        folder,
        places,
        origin,
    })
}

fn table_of(alloc: Global, text: &[u8]) -> Result<Table, SettingsFault>
    ensures { Gives table_view result (table_in text.now) }
{
    match toml::table_from_slice(alloc, text) {
        Ok(table) => Ok(table),
        Err(fault) if fault.is_memory() => Err(SettingsFault::NoMemory),
        Err(_) => Err(bad(BadSettings::NotToml)),
    }
}

/// The settings that the text of a file spells, or the first thing in it that is wrong: that it isn't TOML, a key
/// that no server has, or else of the keys in the order of [`Key`] the first that is missing or has what it doesn't
/// take. Lanes are judged behind `window`, and whether addresses differ behind `status`.
pub fn read_settings(alloc: Global, text: &[u8]) -> Result<ServerSettings, SettingsFault>
    ensures judges { Gives (λ s. s) result (judged text.now) }
    ensures gate { IfOk result (λ s. IsGateOpening s.sizes.gate) }
    ensures lanes { IfOk result (λ s. s.sizes.settings.lanes ≡ s.sizes.gate.owners + s.sizes.gate.strangers) }
    ensures status { IfOk result (λ s. IfSome s.doors.status (λ a. IsTrue (is_loopback a))) }
    ensures differ { IfOk result (λ s. AreApart s.doors) }
    ensures some { IfOk result (λ s. LEAST_PLACES ≤ s.places) }
    ensures few { IfOk result (λ s. s.places ≤ MOST_PLACES) }
    ensures origin { IfOk result (λ s. IfSome s.origin (λ o. IsTrue (is_value o))) }
{
    let table = table_of(alloc, text)?;
    server_of(alloc, &table)
}
