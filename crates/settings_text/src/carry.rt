//! The settings of a carrier, which sends a file as messages or fetches one.
ghost use Rattle.std.specs.Prelude.{◌≡◌, ◌≤◌, [], All, codes, length, IfOk};
ghost use Rattle.file_carry.specs.Parts.{IsPartWidth};
ghost use Rattle.toml.specs.View.{table_view};
ghost use Rattle.settings_text.specs.Carry.{IsJob, mode_of, mode_in, send_of, job_of, carry_with, carry_of};
ghost use Rattle.settings_text.specs.Judging.{Gives, Judges};
ghost use Rattle.settings_text.specs.Keys.{needed};
ghost use Rattle.settings_text.specs.Owned.{IsOwned};
ghost use Rattle.settings_text.specs.CarrySpelling.{SpellsCarry, IsBadCarryKey};
ghost use Rattle.settings_text.specs.Tables.{judged};

use crate::account::{Account, LAST_LANE, account_of};
use crate::faults::wrong_key;
use crate::files::{addresses, file, id};
use crate::owned::OwnedBox;
use crate::tables::table_of;
use crate::values::text_at;
use express_texts::TextFault;
use express_words::{List, Text};
use file_carry::LEAST_PART;
use std::alloc::Global;
use toml::Table;

/// What a carrier does.
#[derive(Drop)]
pub enum CarryJob {
    /// Sends the parts of a file, one to each address.
    Send {
        /// The file's id, below 2^63.
        id: u64,
        /// The file's bytes, of at most 4,096 parts.
        file: List<u8>,
        /// As many as the file has parts, all different.
        addresses: List<u128>,
    },
    /// Fetches a file from the owned boxes, of which there is at least one.
    Fetch,
}

/// Who carries, by which servers, and what.
#[derive(Drop)]
pub struct CarrySettings {
    /// The client's lane, at most 255.
    pub lane: u16,
    /// Where the leader listens, as `127.0.0.1:7001`.
    pub leader: Text,
    /// Where the helper listens.
    pub helper: Text,
    /// The bytes of a message, at least 32.
    pub width: u32,
    /// The boxes that the servers have at most.
    pub boxes: u32,
    /// The serial of the first request, at least 1.
    pub serial: u32,
    /// What everything that the client draws comes from, if the settings say so.
    pub seed: Option<[u8; 32]>,
    /// The boxes that it got in earlier runs.
    pub owned: List<OwnedBox>,
    /// Whether it sends a file or fetches one.
    pub job: CarryJob,
}

/// Which way a file goes.
#[derive(Clone, Copy, Debug, PartialEq, Eq)]
pub enum Mode {
    Send,
    Fetch,
}

fn mode_of(name: &str) -> Option<Mode>
    ensures { result ≡ mode_of name.now }
{
    match name {
        "send" => Some(Mode::Send),
        "fetch" => Some(Mode::Fetch),
        _ => None,
    }
}

#[tactic(auto, unfolding(crate::specs::Carry::mode_in))]
fn mode_under(alloc: Global, table: &Table) -> Result<Mode, TextFault>
    ensures { Gives (λ mode. mode) result (needed (codes "mode") mode_in (table_view table.now)) }
{
    let found = match text_at(table, "mode") {
        Some(name) => mode_of(name),
        None => None,
    };
    match found {
        Some(mode) => Ok(mode),
        None => Err(wrong_key(alloc, "mode")),
    }
}

// The file of this width's messages and where its parts go.
#[tactic(auto, unfolding(crate::specs::Carry::send_of))]
fn send_of(alloc: Global, width: u32, table: &Table) -> Result<CarryJob, TextFault>
    requires { IsPartWidth width }
    ensures value { Gives (λ job. job) result (send_of width (table_view table.now)) }
    ensures limits { IfOk result (IsJob width []) }
{
    let id = id(alloc, table)?;
    let (file, count) = file(alloc, width, table)?;
    let addresses = addresses(alloc, count, table)?;
    Ok(CarryJob::Send {
        id,
        file,
        addresses,
    })
}

#[tactic(auto, unfolding(crate::specs::Carry::job_of))]
fn job_of(
    alloc: Global,
    width: u32,
    owned: &[OwnedBox],
    mode: Mode,
    table: &Table,
) -> Result<CarryJob, TextFault>
    requires { IsPartWidth width }
    ensures value { Gives (λ job. job) result (job_of width owned.now mode (table_view table.now)) }
    ensures limits { IfOk result (IsJob width owned.now) }
{
    match mode {
        Mode::Send => send_of(alloc, width, table),
        Mode::Fetch if owned.is_empty() => Err(wrong_key(alloc, "owned")),
        Mode::Fetch => Ok(CarryJob::Fetch),
    }
}

fn carry_with(account: Account, job: CarryJob) -> CarrySettings
    ensures { result ≡ carry_with account job }
{
    let Account {
        lane,
        leader,
        helper,
        width,
        boxes,
        serial,
        seed,
        owned,
    } = account;
    CarrySettings {
        lane,
        leader,
        helper,
        width,
        boxes,
        serial,
        seed,
        owned,
        job,
    }
}

#[tactic(auto, unfolding(crate::specs::Carry::carry_of))]
fn carry_of(alloc: Global, table: &Table) -> Result<CarrySettings, TextFault>
    ensures value { Gives (λ s. s) result (carry_of (table_view table.now)) }
    ensures lane { IfOk result (λ s. s.lane ≤ LAST_LANE) }
    ensures width { IfOk result (λ s. IsPartWidth s.width) }
    ensures some { IfOk result (λ s. 1 ≤ s.boxes) }
    ensures few { IfOk result (λ s. s.boxes ≤ 4096) }
    ensures serial { IfOk result (λ s. 1 ≤ s.serial) }
    ensures owned { IfOk result (λ s. All IsOwned s.owned) }
    ensures few_owned { IfOk result (λ s. length s.owned ≤ s.boxes) }
    ensures job { IfOk result (λ s. IsJob s.width s.owned s.job) }
{
    let account = account_of(alloc, LEAST_PART, table)?;
    let mode = mode_under(alloc, table)?;
    let job = job_of(alloc, account.width, account.owned.as_slice(), mode, table)?;
    Ok(carry_with(account, job))
}

fn settings_in(alloc: Global, text: &[u8]) -> Result<CarrySettings, TextFault>
    ensures judges { Gives (λ s. s) result (judged carry_of text.now) }
    ensures lane { IfOk result (λ s. s.lane ≤ LAST_LANE) }
    ensures width { IfOk result (λ s. IsPartWidth s.width) }
    ensures some { IfOk result (λ s. 1 ≤ s.boxes) }
    ensures few { IfOk result (λ s. s.boxes ≤ 4096) }
    ensures serial { IfOk result (λ s. 1 ≤ s.serial) }
    ensures owned { IfOk result (λ s. All IsOwned s.owned) }
    ensures few_owned { IfOk result (λ s. length s.owned ≤ s.boxes) }
    ensures job { IfOk result (λ s. IsJob s.width s.owned s.job) }
{
    let table = table_of(alloc, text)?;
    carry_of(alloc, &table)
}

/// The settings of a carrier that the text spells, or the first key that is missing or wrong: `lane`,
/// `leader`, `helper`, `width` (32 or more), `boxes`, `serial`, `seed` and `owned` (which both may be
/// missing), `mode` ("send" or "fetch"), and to send `id`, `file` and `addresses`. It is `owned` too where a
/// fetch has none. Other keys aren't looked at. The key is `toml` where the text isn't TOML.
pub fn read_carry(alloc: Global, text: &[u8]) -> Result<CarrySettings, TextFault>
    ensures spells { Judges SpellsCarry IsBadCarryKey text.now result }
    ensures judges { Gives (λ s. s) result (judged carry_of text.now) }
    ensures lane { IfOk result (λ s. s.lane ≤ LAST_LANE) }
    ensures width { IfOk result (λ s. IsPartWidth s.width) }
    ensures some { IfOk result (λ s. 1 ≤ s.boxes) }
    ensures few { IfOk result (λ s. s.boxes ≤ 4096) }
    ensures serial { IfOk result (λ s. 1 ≤ s.serial) }
    ensures owned { IfOk result (λ s. All IsOwned s.owned) }
    ensures few_owned { IfOk result (λ s. length s.owned ≤ s.boxes) }
    ensures job { IfOk result (λ s. IsJob s.width s.owned s.job) }
{
    settings_in(alloc, text)
}
