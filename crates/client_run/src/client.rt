//! The run of a client.
ghost use Rattle.std.specs.Prelude.{◌≡◌, ◌⊎◌, IfOk};
ghost use Rattle.node_exchange.specs.Exchanging.{EarlyAtEnd};
ghost use Rattle.client_run.specs.Accounts.{IsClient};
ghost use Rattle.client_run.specs.Runs.{ClientComes, RunFault, end_of};
ghost use Rattle.client_run.specs.Telling.{moment, PutSink};

use crate::account::client_account;
use crate::asking::requests_of;
use crate::cut::Untold;
use crate::ran::{Ran, RunEnd};
use crate::said::said;
use crate::telling::{Until, tell_off};
use crate::worker::start;
use express_words::outside::{Net, Sink};
use node_client::{Peers, Stop};
use settings_text::ClientSettings;
use std::alloc::Global;

/// How a run ends, by how the work ended.
pub fn end_of(end: Result<(), Stop>) -> RunEnd
    ensures { result ≡ end_of end }
{
    match end {
        Err(Stop::Fault(_)) => RunEnd::NetFault,
        _ => RunEnd::Done,
    }
}

/// Opens the client of the settings, with this seed where they have none, and works its requests off over the
/// net. `outcome N TEXT` is put for each request that came to its end, before the next one is asked. What is
/// handed back is the last text of the run, which isn't put: `end`, or `stopped ` and what stopped the work, or
/// `net fault` where an exchange failed.
pub fn run_client<K: Sink, N: Net>(
    alloc: Global,
    settings: &ClientSettings,
    seed: &[u8; 32],
    out: &mut K,
    net: &mut N,
) -> Result<Ran, Untold>
    requires settings { IsClient settings.now }
    ensures comes { ClientComes settings.now seed.now result
        (moment (N.seen net.old) (K.seen out.old)) (moment (N.seen net.new) (K.seen out.new)) }
    ensures fault { IfOk result (λ ran. RunFault ran.end (N.seen net.old).faults (N.seen net.new).faults) }
    ensures sink { PutSink result (K.seen out.old).faults (K.seen out.new).faults }
    // Where the last answer ended early, its connection had nothing left.
    ensures early { (net.new ≡ net.old) ⊎ EarlyAtEnd (N.seen net.new).calls N.Conn.seen }
    ensures door { (N.seen net.new).doors ≡ (N.seen net.old).doors }
{
    let peers = Peers {
        leader: settings.leader.as_str(),
        helper: settings.helper.as_str(),
    };
    let requests = requests_of(alloc, settings.requests.as_slice())?;
    let mut worker = start(alloc, &client_account(settings, seed), peers)?;
    let end = tell_off(
        alloc,
        &mut worker,
        requests.as_slice(),
        Until::Last,
        out,
        net,
    );
    said(alloc, None, end)
}
