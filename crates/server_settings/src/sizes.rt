//! How large a server is.
ghost use Rattle.std.specs.Prelude.{◌≡◌, ◌+◌, IfOk};
ghost use Rattle.toml.specs.View.{table_view};
ghost use Rattle.lane_gate.specs.Openings.{IsGateOpening};
ghost use Rattle.server_settings.specs.Files.{sizes_of};
ghost use Rattle.server_settings.specs.Judging.{Gives};
ghost use Rattle.server_settings.specs.Lookups.{needed};
ghost use Rattle.server_settings.specs.Values.{width_in};

use crate::fault::{BadSettings, SettingsFault, bad};
use crate::key::Key;
use crate::lookup::{needed, number, wrong};
use crate::values::width_in;
use express_words::Settings;
use express_words::limits::{MOST_BOXES, MOST_LANES, MOST_WINDOW};
use lane_gate::GateOpening;
use std::alloc::Global;
use toml::Table;

/// What both servers and all clients share, and whose the lanes are.
#[derive(Clone, Copy, Debug, PartialEq, Eq)]
pub struct Sizes {
    /// Boxes, their message's bytes, all lanes, and the link's window.
    pub settings: Settings,
    /// How many of the lanes are owners', and how many strangers'.
    pub gate: GateOpening,
}

fn width(alloc: Global, table: &Table) -> Result<u32, SettingsFault>
    ensures { Gives (λ n. n) result (needed Key.Width width_in (table_view table.now)) }
{
    let value = needed(table, Key::Width)?;
    match width_in(value) {
        Some(width) => Ok(width),
        None => Err(wrong(alloc, Key::Width, value)),
    }
}

/// The sizes of a table.
#[tactic(auto, unfolding(crate::specs::Files::sizes_of))]
pub(crate) fn sizes_of(alloc: Global, table: &Table) -> Result<Sizes, SettingsFault>
    ensures value { Gives (λ s. s) result (sizes_of (table_view table.now)) }
    ensures gate { IfOk result (λ s. IsGateOpening s.gate) }
    ensures lanes { IfOk result (λ s. s.settings.lanes ≡ s.gate.owners + s.gate.strangers) }
{
    let width = width(alloc, table)?;
    let boxes = number(alloc, table, Key::Boxes, 1, MOST_BOXES)?;
    let owners = number(alloc, table, Key::Owners, 0, u32::from(MOST_LANES))?;
    let strangers = number(alloc, table, Key::Strangers, 0, u32::from(MOST_LANES))?;
    let window = number(alloc, table, Key::Window, 1, u32::from(MOST_WINDOW))?;
    let lanes = owners + strangers;
    match Settings::new(width, boxes, lanes as u16, window as u8) {
        Some(settings) => Ok(Sizes {
            settings,
            gate: GateOpening {
                owners: owners as u16,
                strangers: strangers as u16,
            },
        }),
        None => Err(bad(BadSettings::Lanes { owners, strangers })),
    }
}
