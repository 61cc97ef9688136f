//! Where a server listens, and whom it dials.
ghost use Rattle.std.specs.Prelude.{◌≡◌, IfOk, IfSome, IsTrue, None};
ghost use Rattle.toml.specs.View.{table_view};
ghost use Rattle.server_settings.specs.Files.{AreApart, apart, doors_of, is_at, status_in};
ghost use Rattle.server_settings.specs.Judging.{Gives};
ghost use Rattle.server_settings.specs.Lookups.{needed, optional};
ghost use Rattle.server_settings.specs.Values.{address_in, is_loopback};

use crate::address::Address;
use crate::fault::{BadSettings, SettingsFault, bad};
use crate::key::Key;
use crate::lookup::{needed, read_or_wrong, value_at};
use crate::values::{address_in, loopback_in};
use std::alloc::Global;
use toml::Table;

/// The addresses of a server, all different.
#[derive(Drop)]
pub struct Doors {
    /// Where clients connect.
    pub clients: Address,
    /// Where the helper listens for its leader, and the leader dials its helper.
    pub link: Address,
    /// Where an operator asks how the server stands, if anywhere. Other machines don't reach it.
    pub status: Option<Address>,
}

// The address under a key.
fn address(alloc: Global, table: &Table, key: Key) -> Result<Address, SettingsFault>
    ensures { Gives (λ a. a) result (needed key address_in (table_view table.now)) }
{
    let value = needed(table, key)?;
    let found = address_in(alloc, value)?;
    read_or_wrong(alloc, key, value, found)
}

// The address under `status`, if that key is there.
fn status(alloc: Global, table: &Table) -> Result<Option<Address>, SettingsFault>
    ensures value { Gives (λ a. a) result (optional None Key.Status status_in (table_view table.now)) }
    ensures host { IfOk result (λ status. IfSome status (λ a. IsTrue (is_loopback a))) }
{
    let Some(value) = value_at(table, Key::Status) else {
        return Ok(None);
    };
    let found = loopback_in(alloc, value)?;
    let address = read_or_wrong(alloc, Key::Status, value, found)?;
    Ok(Some(address))
}

// Whether the address is the one of this door, if there is a door.
fn is_at(door: &Option<Address>, address: &Address) -> bool
    ensures { result ≡ is_at door.now address.now }
{
    match door {
        Some(door) => door.is(address),
        None => false,
    }
}

// The doors, if their addresses differ.
#[tactic(auto, unfolding(crate::specs::Files::apart))]
fn apart(doors: Doors) -> Result<Doors, SettingsFault>
    ensures value { Gives (λ d. d) result (apart doors) }
    ensures same { IfOk result (λ d. d ≡ doors) }
    ensures differ { IfOk result AreApart }
{
    if doors.link.is(&doors.clients) {
        return Err(bad(BadSettings::Same(Key::Clients, Key::Link, doors.clients)));
    }
    if is_at(&doors.status, &doors.clients) {
        return Err(bad(BadSettings::Same(Key::Clients, Key::Status, doors.clients)));
    }
    if is_at(&doors.status, &doors.link) {
        return Err(bad(BadSettings::Same(Key::Link, Key::Status, doors.link)));
    }
    Ok(doors)
}

/// The doors of a table.
#[tactic(auto, unfolding(crate::specs::Files::doors_of))]
pub(crate) fn doors_of(alloc: Global, table: &Table) -> Result<Doors, SettingsFault>
    ensures value { Gives (λ d. d) result (doors_of (table_view table.now)) }
    ensures status { IfOk result (λ d. IfSome d.status (λ a. IsTrue (is_loopback a))) }
    ensures differ { IfOk result AreApart }
{
    let clients = address(alloc, table, Key::Clients)?;
    let link = address(alloc, table, Key::Link)?;
    let status = status(alloc, table)?;
    apart(Doors {
        clients,
        link,
        status,
    })
}
