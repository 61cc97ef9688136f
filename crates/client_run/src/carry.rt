//! The run of a carrier.
ghost use Rattle.std.specs.Prelude.{◌≡◌, ◌≤◌, ◌⊎◌, length, All, IfOk, OnErr};
ghost use Rattle.client_core.specs.Requests.{plain_request};
ghost use Rattle.node_exchange.specs.Exchanging.{EarlyAtEnd};
ghost use Rattle.node_client.specs.Work.{Fits};
ghost use Rattle.settings_text.specs.declared.carry.CarryJob.TheVariants.{Fetch};
ghost use Rattle.client_run.specs.Carrying.{IsCarrier, carry_end};
ghost use Rattle.client_run.specs.Carries.{AreWhole, Fetches, FetchedPart, SendComes, CarryComes, fetch_text};
ghost use Rattle.client_run.specs.Runs.{RunFault, plan_of};
ghost use Rattle.client_run.specs.Telling.{moment, IsReady, PutSink};

use crate::account::carry_account;
use crate::asking::requests_of;
use crate::carrying::{CarriedOff, CarryHalt, carry_off};
use crate::client::end_of;
use crate::cut::Untold;
use crate::fetched::fetch_text;
use crate::parts::askings_of;
use crate::ran::{Ran, RunEnd};
use crate::said::said;
use crate::telling::{Until, tell_off};
use crate::worker::{Worker, start};
use client_core::Request;
use express_words::outside::{Net, Sink};
use express_words::{NoMemory, Text};
use node_client::Peers;
use settings_text::{CarryJob, CarrySettings};
use std::alloc::Global;

fn carry_end(end: &Result<(), CarryHalt>) -> RunEnd
    ensures { result ≡ carry_end end.now }
{
    match end {
        Err(CarryHalt::Stopped(why)) => end_of(Err(*why)),
        _ => RunEnd::Done,
    }
}

// What a fetch that was carried so far prints, and how it ends.
fn fetched(alloc: Global, settings: &CarrySettings, carried: &CarriedOff) -> Result<Ran, NoMemory>
    requires settings { IsCarrier settings.now }
    requires job { settings.now.job ≡ Fetch }
    requires few { length carried.now.finished.items ≤ length settings.now.owned }
    requires whole { AreWhole settings.now.width carried.now.finished.items }
    ensures text { IfOk result (λ ran. ran.text ≡ fetch_text carried.now.finished.items carried.now.end) }
    ensures end { IfOk result (λ ran. ran.end ≡ carry_end carried.now.end) }
{
    let boxes = settings.owned.as_slice().len() as u32;
    let text = fetch_text(alloc, carried, boxes, settings.width)?;
    Ok(Ran {
        text: Text::from_string(text),
        end: carry_end(&carried.end),
    })
}

// Reads each own box, and tells the file that they join to.
fn fetch<N: Net>(
    alloc: Global,
    settings: &CarrySettings,
    worker: &mut Worker<'_>,
    requests: &[Request<'_>],
    net: &mut N,
) -> Result<Ran, NoMemory>
    requires settings { IsCarrier settings.now }
    requires job { settings.now.job ≡ Fetch }
    requires few { length requests.now ≤ length settings.now.owned }
    requires width { worker.old.client.width ≡ settings.now.width }
    requires ready { IsReady worker.old }
    requires fits { All (λ r. Fits worker.old.client.width (plain_request r)) requests.now }
    ensures fetches { IfOk result (λ ran. Fetches (plan_of worker.old requests.now) ran
        (N.seen net.old).calls (N.seen net.new).calls) }
    ensures wants { OnErr result (FetchedPart (plan_of worker.old requests.now)
        (N.seen net.old).calls (N.seen net.new).calls) }
    ensures fault { IfOk result (λ ran. RunFault ran.end (N.seen net.old).faults (N.seen net.new).faults) }
    ensures early { (net.new ≡ net.old) ⊎ EarlyAtEnd (N.seen net.new).calls N.Conn.seen }
    ensures door { (N.seen net.new).doors ≡ (N.seen net.old).doors }
{
    let carried = carry_off(
        alloc,
        &mut worker.client,
        requests,
        &worker.peers,
        net,
        &mut worker.message,
    )?;
    fetched(alloc, settings, &carried)
}

// Writes each part to its address, and tells each that came to its end before the next.
fn send<K: Sink, N: Net>(
    alloc: Global,
    worker: &mut Worker<'_>,
    requests: &[Request<'_>],
    parts: usize,
    out: &mut K,
    net: &mut N,
) -> Result<Ran, Untold>
    requires ready { IsReady worker.old }
    requires fits { All (λ r. Fits worker.old.client.width (plain_request r)) requests.now }
    ensures sends { SendComes parts (plan_of worker.old requests.now) result
        (moment (N.seen net.old) (K.seen out.old)) (moment (N.seen net.new) (K.seen out.new)) }
    ensures fault { IfOk result (λ ran. RunFault ran.end (N.seen net.old).faults (N.seen net.new).faults) }
    ensures sink { PutSink result (K.seen out.old).faults (K.seen out.new).faults }
    ensures early { (net.new ≡ net.old) ⊎ EarlyAtEnd (N.seen net.new).calls N.Conn.seen }
    ensures door { (N.seen net.new).doors ≡ (N.seen net.old).doors }
{
    let end = tell_off(alloc, worker, requests, Until::Broken, out, net);
    said(alloc, Some(parts), end)
}

/// Opens the client of the settings, with this seed where they have none, and works their job off over the
/// net, up to the first request that comes to another end than an accepted write or a message. What is handed
/// back is the last text of the run, which isn't put.
///
/// To send is to write each part of the file to its address. `outcome N TEXT` is put for each, before the next is
/// asked; the last text is `sent COUNT` and `end`, or `stopped outcome`. To fetch is to read each own box. Nothing
/// is put before the last text, which is `file HEX`, or `missing I` and a line `box K HEX` for each box that was
/// read, then `end`; or the outcome of the request that broke off, the boxes that were read, and `stopped
/// outcome`. The other `stopped` lines and `net fault` are those of `run_client`, behind the boxes that were read.
///
/// A box that is read is cleared. So where memory is wanting in a fetch, what was read is gone; the calls on the net
/// are then those of a part of the work, from the first request on.
pub fn run_carry<K: Sink, N: Net>(
    alloc: Global,
    settings: &CarrySettings,
    seed: &[u8; 32],
    out: &mut K,
    net: &mut N,
) -> Result<Ran, Untold>
    requires settings { IsCarrier settings.now }
    ensures comes { CarryComes settings.now seed.now result
        (moment (N.seen net.old) (K.seen out.old)) (moment (N.seen net.new) (K.seen out.new)) }
    ensures fault { IfOk result (λ ran. RunFault ran.end (N.seen net.old).faults (N.seen net.new).faults) }
    ensures sink { PutSink result (K.seen out.old).faults (K.seen out.new).faults }
    ensures early { (net.new ≡ net.old) ⊎ EarlyAtEnd (N.seen net.new).calls N.Conn.seen }
    ensures door { (N.seen net.new).doors ≡ (N.seen net.old).doors }
{
    let peers = Peers {
        leader: settings.leader.as_str(),
        helper: settings.helper.as_str(),
    };
    let askings = askings_of(alloc, settings)?;
    let requests = requests_of(alloc, askings.as_slice())?;
    let mut worker = start(alloc, &carry_account(settings, seed), peers)?;
    match &settings.job {
        CarryJob::Send { addresses, .. } => {
            let parts = addresses.as_slice().len();
            send(alloc, &mut worker, requests.as_slice(), parts, out, net)
        }
        CarryJob::Fetch => Ok(fetch(alloc, settings, &mut worker, requests.as_slice(), net)?),
    }
}
