//! Who asks, and of which servers.
ghost use Rattle.std.specs.Prelude.{◌≡◌, ◌<◌, ◌≤◌, None, length, IfOk};
ghost use Rattle.express_words.specs.Limits.{IsWidth};
ghost use Rattle.client_run.specs.Accounts.{account_in, client_account, opened};
ghost use Rattle.client_run.specs.Carrying.{carry_account};

use client_core::Client;
use express_words::NoMemory;
use settings_text::{CarrySettings, ClientSettings, OwnedBox};
use std::alloc::Global;

/// What a client is opened with.
#[derive(Clone, Copy)]
pub struct Account<'a> {
    pub lane: u16,
    pub seed: &'a [u8; 32],
    pub width: u32,
    pub boxes: u32,
    pub serial: u32,
    pub owned: &'a [OwnedBox],
}

/// The account of a client's settings, where this seed stands for one that they don't have.
pub fn client_account<'a>(settings: &'a ClientSettings, seed: &'a [u8; 32]) -> Account<'a>
    ensures { account_in result ≡ client_account settings.now seed.now }
{
    Account {
        lane: settings.lane,
        seed: match &settings.seed {
            Some(own) => own,
            None => seed,
        },
        width: settings.width,
        boxes: settings.boxes,
        serial: settings.serial,
        owned: settings.owned.as_slice(),
    }
}

/// The account of a carrier's settings, where this seed stands for one that they don't have.
pub fn carry_account<'a>(settings: &'a CarrySettings, seed: &'a [u8; 32]) -> Account<'a>
    ensures { account_in result ≡ carry_account settings.now seed.now }
{
    Account {
        lane: settings.lane,
        seed: match &settings.seed {
            Some(own) => own,
            None => seed,
        },
        width: settings.width,
        boxes: settings.boxes,
        serial: settings.serial,
        owned: settings.owned.as_slice(),
    }
}

/// The client of an account, with the boxes of its earlier runs.
pub fn open(alloc: Global, account: &Account<'_>) -> Result<Client, NoMemory>
    requires width { IsWidth account.now.width }
    requires boxes { account.now.boxes ≤ 4096 }
    requires serial { 1 ≤ account.now.serial }
    requires owned { length account.now.owned.now ≤ account.now.boxes }
    ensures opened { IfOk result (λ c. c ≡ opened (account_in account.now)) }
    ensures width { IfOk result (λ c. c.width ≡ account.now.width) }
    ensures idle { IfOk result (λ c. c.current ≡ None) }
{
    let capacity = account.boxes + 1;
    let (lane, width) = (account.lane, account.width);
    let mut client = Client::open(alloc, lane, account.seed, width, capacity, account.serial)?;
    for owned in account.owned {
        client.own(owned.box_number, owned.serial);
    }
    Ok(client)
}
