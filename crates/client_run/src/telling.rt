//! Requests worked off and told one by one.
ghost use Rattle.std.specs.Prelude.{◌≡◌, ◌⊎◌, length, All, Err, OnOk};
ghost use Rattle.client_core.specs.Requests.{plain_request};
ghost use Rattle.node_exchange.specs.Exchanging.{EarlyAtEnd};
ghost use Rattle.node_client.specs.Work.{Fits};
ghost use Rattle.client_run.specs.Telling.{carries, goes_on, moment, IsReady, TellsAll, CutFault, CutSink};

use crate::cut::Cut;
use crate::worker::Worker;
use client_core::{Outcome, Request};
use express_words::outside::{Net, Sink};
use node_client::Told;
use std::alloc::Global;

/// Up to which request work goes.
#[derive(Clone, Copy, Debug, PartialEq, Eq)]
pub enum Until {
    /// The last.
    Last,
    /// The first that comes to another end than an accepted write or a message.
    Broken,
}

/// Whether this is an accepted write or a message.
pub fn carries(told: Told) -> bool
    ensures { result ≡ carries told }
{
    match told {
        Told::Done(Outcome::Accepted) => true,
        Told::Done(Outcome::Message) => true,
        _ => false,
    }
}

fn goes_on(until: Until, told: Told) -> bool
    ensures { result ≡ goes_on until told }
{
    match until {
        Until::Last => true,
        Until::Broken => carries(told),
    }
}

/// Works off requests in order. The line of each that came to its end is put before the next one is asked.
pub fn tell_off<K: Sink, N: Net>(
    alloc: Global,
    worker: &mut Worker<'_>,
    requests: &[Request<'_>],
    until: Until,
    out: &mut K,
    net: &mut N,
) -> Result<(), Cut>
    requires ready { IsReady worker.old }
    requires fits { All (λ r. Fits worker.old.client.width (plain_request r)) requests.now }
    ensures tells { TellsAll worker.old until requests.now result
        (moment (N.seen net.old) (K.seen out.old)) (moment (N.seen net.new) (K.seen out.new)) }
    ensures fault { CutFault result (N.seen net.old).faults (N.seen net.new).faults }
    ensures sink { CutSink result (K.seen out.old).faults (K.seen out.new).faults }
    ensures early { (net.new ≡ net.old) ⊎ EarlyAtEnd (N.seen net.new).calls N.Conn.seen }
    ensures door { (N.seen net.new).doors ≡ (N.seen net.old).doors }
{
    for (number, request) in requests.iter().enumerate() {
        let told = match worker.tell_one(alloc, number, request, out, net) {
            Ok(told) => told,
            Err(why) => return Err(why),
        };
        if !goes_on(until, told) {
            return Err(Cut::Broken);
        }
    }
    Ok(())
}
