//! The settings of a server.
ghost use Rattle.std.specs.Prelude.{◌≡◌, ◌≤◌, [], codes, IfOk, IfSome};
ghost use Rattle.toml.specs.View.{table_view};
ghost use Rattle.settings_text.specs.Judging.{Gives, Judges};
ghost use Rattle.settings_text.specs.Keys.{needed};
ghost use Rattle.settings_text.specs.Serve.{role_of, role_in, peer_of, settings_of, serve_of};
ghost use Rattle.settings_text.specs.ServeSpelling.{SpellsServe, IsBadServeKey};
ghost use Rattle.settings_text.specs.Tables.{judged};

use crate::faults::wrong_key;
use crate::keys::{number, text, width};
use crate::tables::table_of;
use crate::values::text_at;
use express_texts::TextFault;
use express_words::limits::{LEAST_WIDTH, MOST_BOXES, MOST_LANES, MOST_WINDOW};
use express_words::{Role, Settings, Text};
use std::alloc::Global;
use toml::Table;

/// A server takes at most so many connections.
pub const MOST_CONNECTIONS: u32 = 1_000_000;

/// What one server is, and how many connections it serves.
#[derive(Drop)]
pub struct ServeSettings {
    /// Which of the two servers it is.
    pub role: Role,
    /// Where it listens, as `127.0.0.1:7000`.
    pub listen: Text,
    /// Where a leader's helper listens; empty for a helper.
    pub peer: Text,
    /// What both servers and all clients share.
    pub settings: Settings,
    /// How many connections it takes before it ends.
    pub connections: u32,
}

fn role_of(name: &str) -> Option<Role>
    ensures { result ≡ role_of name.now }
{
    match name {
        "leader" => Some(Role::Leader),
        "helper" => Some(Role::Helper),
        _ => None,
    }
}

#[tactic(auto, unfolding(crate::specs::Serve::role_in))]
fn role(alloc: Global, table: &Table) -> Result<Role, TextFault>
    ensures value { Gives (λ role. role) result (needed (codes "role") role_in (table_view table.now)) }
{
    let found = match text_at(table, "role") {
        Some(name) => role_of(name),
        None => None,
    };
    match found {
        Some(role) => Ok(role),
        None => Err(wrong_key(alloc, "role")),
    }
}

// Where the helper listens, which a leader needs and a helper doesn't look at.
#[tactic(auto, unfolding(crate::specs::Serve::peer_of))]
fn peer(alloc: Global, role: Role, table: &Table) -> Result<Text, TextFault>
    ensures value { Gives (λ peer. peer) result (peer_of role (table_view table.now)) }
    ensures alone { IfOk result (λ peer. role ≡ Role.Helper → peer ≡ []) }
{
    match role {
        Role::Leader => text(alloc, table, "peer"),
        Role::Helper => Ok(Text::from_string(String::new(alloc))),
    }
}

#[tactic(auto, unfolding(crate::specs::Serve::settings_of))]
fn settings(alloc: Global, table: &Table) -> Result<Settings, TextFault>
    ensures value { Gives (λ s. s) result (settings_of (table_view table.now)) }
{
    let width = width(alloc, table, LEAST_WIDTH)?;
    let boxes = number(alloc, table, "boxes", 1, MOST_BOXES)?;
    let lanes = number(alloc, table, "lanes", 1, u32::from(MOST_LANES))?;
    let window = number(alloc, table, "window", 1, u32::from(MOST_WINDOW))?;
    Ok(Settings {
        width,
        boxes,
        lanes: lanes as u16,
        window: window as u8,
    })
}

#[tactic(auto, unfolding(crate::specs::Serve::serve_of))]
fn serve_of(alloc: Global, table: &Table) -> Result<ServeSettings, TextFault>
    ensures value { Gives (λ s. s) result (serve_of (table_view table.now)) }
    ensures some { IfOk result (λ s. 1 ≤ s.connections) }
    ensures few { IfOk result (λ s. s.connections ≤ MOST_CONNECTIONS) }
    ensures alone { IfOk result (λ s. s.role ≡ Role.Helper → s.peer ≡ []) }
{
    let role = role(alloc, table)?;
    let listen = text(alloc, table, "listen")?;
    let peer = peer(alloc, role, table)?;
    let settings = settings(alloc, table)?;
    let connections = number(alloc, table, "connections", 1, MOST_CONNECTIONS)?;
    Ok(ServeSettings {
        role,
        listen,
        peer,
        settings,
        connections,
    })
}

fn settings_in(alloc: Global, text: &[u8]) -> Result<ServeSettings, TextFault>
    ensures judges { Gives (λ s. s) result (judged serve_of text.now) }
    ensures some { IfOk result (λ s. 1 ≤ s.connections) }
    ensures few { IfOk result (λ s. s.connections ≤ MOST_CONNECTIONS) }
    ensures alone { IfOk result (λ s. s.role ≡ Role.Helper → s.peer ≡ []) }
{
    let table = table_of(alloc, text)?;
    serve_of(alloc, &table)
}

/// The settings of a server that the text spells, or the first key that is missing or wrong: `role`
/// ("leader" or "helper"), `listen`, `peer` (which a helper doesn't look at), `width`, `boxes`, `lanes`,
/// `window`, `connections`. Other keys aren't looked at. The key is `toml` where the text isn't TOML.
pub fn read_serve(alloc: Global, text: &[u8]) -> Result<ServeSettings, TextFault>
    ensures spells { Judges SpellsServe IsBadServeKey text.now result }
    ensures judges { Gives (λ s. s) result (judged serve_of text.now) }
    ensures some { IfOk result (λ s. 1 ≤ s.connections) }
    ensures few { IfOk result (λ s. s.connections ≤ MOST_CONNECTIONS) }
    ensures alone { IfOk result (λ s. s.role ≡ Role.Helper → s.peer ≡ []) }
{
    settings_in(alloc, text)
}
