//! The settings of a client, and what it is to ask.
ghost use Rattle.std.specs.Prelude.{◌≡◌, ◌≤◌, All, length, IfOk};
ghost use Rattle.express_words.specs.Limits.{IsWidth};
ghost use Rattle.toml.specs.View.{table_view};
ghost use Rattle.settings_text.specs.Client.{client_of, client_with};
ghost use Rattle.settings_text.specs.Judging.{Gives, Judges};
ghost use Rattle.settings_text.specs.Owned.{IsOwned};
ghost use Rattle.settings_text.specs.Requests.{IsAsking};
ghost use Rattle.settings_text.specs.ClientSpelling.{SpellsClient, IsBadClientKey};
ghost use Rattle.settings_text.specs.Tables.{judged};

use crate::account::{Account, LAST_LANE, account_of};
use crate::owned::OwnedBox;
use crate::requests::{Asking, MOST_REQUESTS, requests};
use crate::tables::table_of;
use express_texts::TextFault;
use express_words::limits::LEAST_WIDTH;
use express_words::{List, Text};
use std::alloc::Global;
use toml::Table;

/// Who asks, of which servers, and what.
#[derive(Drop)]
pub struct ClientSettings {
    /// The client's lane, at most 255.
    pub lane: u16,
    /// Where the leader listens, as `127.0.0.1:7001`.
    pub leader: Text,
    /// Where the helper listens.
    pub helper: Text,
    /// The bytes of a message.
    pub width: u32,
    /// The boxes that the servers have at most.
    pub boxes: u32,
    /// The serial of the first request, at least 1.
    pub serial: u32,
    /// What everything that the client draws comes from, if the settings say so.
    pub seed: Option<[u8; 32]>,
    /// The boxes that it got in earlier runs.
    pub owned: List<OwnedBox>,
    /// What it asks, 1 to 1,000 requests in order.
    pub requests: List<Asking>,
}

fn client_with(account: Account, requests: List<Asking>) -> ClientSettings
    ensures { result ≡ client_with account requests }
{
    let Account {
        lane,
        leader,
        helper,
        width,
        boxes,
        serial,
        seed,
        owned,
    } = account;
    ClientSettings {
        lane,
        leader,
        helper,
        width,
        boxes,
        serial,
        seed,
        owned,
        requests,
    }
}

#[tactic(auto, unfolding(crate::specs::Client::client_of))]
fn client_of(alloc: Global, table: &Table) -> Result<ClientSettings, TextFault>
    ensures value { Gives (λ s. s) result (client_of (table_view table.now)) }
    ensures lane { IfOk result (λ s. s.lane ≤ LAST_LANE) }
    ensures width { IfOk result (λ s. IsWidth s.width) }
    ensures some { IfOk result (λ s. 1 ≤ s.boxes) }
    ensures few { IfOk result (λ s. s.boxes ≤ 4096) }
    ensures serial { IfOk result (λ s. 1 ≤ s.serial) }
    ensures owned { IfOk result (λ s. All IsOwned s.owned) }
    ensures few_owned { IfOk result (λ s. length s.owned ≤ s.boxes) }
    ensures requests { IfOk result (λ s. All (IsAsking s.width) s.requests) }
    ensures some_requests { IfOk result (λ s. 1 ≤ length s.requests) }
    ensures few_requests { IfOk result (λ s. length s.requests ≤ MOST_REQUESTS) }
{
    let account = account_of(alloc, LEAST_WIDTH, table)?;
    let requests = requests(alloc, account.width, table)?;
    Ok(client_with(account, requests))
}

fn settings_in(alloc: Global, text: &[u8]) -> Result<ClientSettings, TextFault>
    ensures judges { Gives (λ s. s) result (judged client_of text.now) }
    ensures lane { IfOk result (λ s. s.lane ≤ LAST_LANE) }
    ensures width { IfOk result (λ s. IsWidth s.width) }
    ensures some { IfOk result (λ s. 1 ≤ s.boxes) }
    ensures few { IfOk result (λ s. s.boxes ≤ 4096) }
    ensures serial { IfOk result (λ s. 1 ≤ s.serial) }
    ensures owned { IfOk result (λ s. All IsOwned s.owned) }
    ensures few_owned { IfOk result (λ s. length s.owned ≤ s.boxes) }
    ensures requests { IfOk result (λ s. All (IsAsking s.width) s.requests) }
    ensures some_requests { IfOk result (λ s. 1 ≤ length s.requests) }
    ensures few_requests { IfOk result (λ s. length s.requests ≤ MOST_REQUESTS) }
{
    let table = table_of(alloc, text)?;
    client_of(alloc, &table)
}

/// The settings of a client that the text spells, or the first key that is missing or wrong: `lane`,
/// `leader`, `helper`, `width`, `boxes`, `serial`, `seed` and `owned` (which both may be missing), `request`,
/// and `request` too where a write's message hasn't the width. Other keys aren't looked at. The key is `toml`
/// where the text isn't TOML.
pub fn read_client(alloc: Global, text: &[u8]) -> Result<ClientSettings, TextFault>
    ensures spells { Judges SpellsClient IsBadClientKey text.now result }
    ensures judges { Gives (λ s. s) result (judged client_of text.now) }
    ensures lane { IfOk result (λ s. s.lane ≤ LAST_LANE) }
    ensures width { IfOk result (λ s. IsWidth s.width) }
    ensures some { IfOk result (λ s. 1 ≤ s.boxes) }
    ensures few { IfOk result (λ s. s.boxes ≤ 4096) }
    ensures serial { IfOk result (λ s. 1 ≤ s.serial) }
    ensures owned { IfOk result (λ s. All IsOwned s.owned) }
    ensures few_owned { IfOk result (λ s. length s.owned ≤ s.boxes) }
    ensures requests { IfOk result (λ s. All (IsAsking s.width) s.requests) }
    ensures some_requests { IfOk result (λ s. 1 ≤ length s.requests) }
    ensures few_requests { IfOk result (λ s. length s.requests ≤ MOST_REQUESTS) }
{
    settings_in(alloc, text)
}
