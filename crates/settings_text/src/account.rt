//! The keys that every client's settings begin with: who asks, and of which servers.
ghost use Rattle.std.specs.Prelude.{◌≡◌, ◌≤◌, ◌%◌, All, None, codes, length, IfOk};
ghost use Rattle.express_words.specs.Limits.{IsWidth};
ghost use Rattle.toml.specs.View.{table_view};
ghost use Rattle.settings_text.specs.Client.{account_of, optional_seed};
ghost use Rattle.settings_text.specs.Judging.{Gives};
ghost use Rattle.settings_text.specs.Keys.{optional};
ghost use Rattle.settings_text.specs.Owned.{IsOwned};

use crate::faults::wrong_key;
use crate::keys::{number, text, width};
use crate::owned::{OwnedBox, owned};
use crate::values::{seed_in, value_at};
use express_texts::TextFault;
use express_words::limits::MOST_BOXES;
use express_words::{List, Text};
use std::alloc::Global;
use toml::Table;

/// A client's lane is at most this.
pub const LAST_LANE: u32 = 255;

/// The keys that a client's settings and a carrier's have in common.
#[derive(Drop)]
pub struct Account {
    pub lane: u16,
    pub leader: Text,
    pub helper: Text,
    pub width: u32,
    pub boxes: u32,
    pub serial: u32,
    pub seed: Option<[u8; 32]>,
    pub owned: List<OwnedBox>,
}

// The seed under `seed`, if that key is there.
fn seed(alloc: Global, table: &Table) -> Result<Option<[u8; 32]>, TextFault>
    ensures { Gives (λ seed. seed) result
        (optional None (codes "seed") optional_seed (table_view table.now)) }
{
    let Some(value) = value_at(table, "seed") else {
        return Ok(None);
    };
    match seed_in(value) {
        Some(seed) => Ok(Some(seed)),
        None => Err(wrong_key(alloc, "seed")),
    }
}

/// The account of a table, whose width is at least this one.
#[tactic(auto, unfolding(crate::specs::Client::account_of))]
pub fn account_of(alloc: Global, least: u32, table: &Table) -> Result<Account, TextFault>
    requires { 16 ≤ least }
    ensures value { Gives (λ account. account) result (account_of least (table_view table.now)) }
    ensures lane { IfOk result (λ account. account.lane ≤ LAST_LANE) }
    ensures width { IfOk result (λ account. IsWidth account.width) }
    ensures least { IfOk result (λ account. least ≤ account.width) }
    ensures some { IfOk result (λ account. 1 ≤ account.boxes) }
    ensures few { IfOk result (λ account. account.boxes ≤ 4096) }
    ensures serial { IfOk result (λ account. 1 ≤ account.serial) }
    ensures owned { IfOk result (λ account. All IsOwned account.owned) }
    ensures few_owned { IfOk result (λ account. length account.owned ≤ account.boxes) }
{
    let lane = number(alloc, table, "lane", 0, LAST_LANE)?;
    let leader = text(alloc, table, "leader")?;
    let helper = text(alloc, table, "helper")?;
    let width = width(alloc, table, least)?;
    let boxes = number(alloc, table, "boxes", 1, MOST_BOXES)?;
    let serial = number(alloc, table, "serial", 1, u32::MAX)?;
    let seed = seed(alloc, table)?;
    let owned = owned(alloc, boxes, table)?;
    Ok(Account {
        lane: lane as u16,
        leader,
        helper,
        width,
        boxes,
        serial,
        seed,
        owned,
    })
}
