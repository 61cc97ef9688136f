//! One request.
ghost use Rattle.std.specs.Prelude.{◌≡◌, ◌⊎◌, None, length, OnOk};
ghost use Rattle.client_core.specs.Requests.{plain_request};
ghost use Rattle.node_exchange.specs.Exchanging.{EarlyAtEnd};
ghost use Rattle.node_client.specs.Steps.{FaultBy};
ghost use Rattle.node_client.specs.Work.{Came, Fits};

use crate::finished::Told;
use crate::peers::Peers;
use crate::stepping::walk;
use crate::stop::Stop;
use client_core::{AskFault, Client, Request};
use express_words::outside::Net;

/// Asks the client for a request, and steps that to its end. A message that it read stands in `message` then.
pub fn one_request<N: Net>(
    client: &mut Client,
    request: &Request<'_>,
    peers: &Peers<'_>,
    net: &mut N,
    message: &mut [u8],
) -> Result<Told, Stop>
    requires idle { client.old.current ≡ None }
    requires width { length message.old ≡ client.old.width }
    requires fits { Fits client.old.width (plain_request request.now) }
    ensures came { Came peers.now client.old (plain_request request.now) client.new message.new result
        (N.seen net.old).calls (N.seen net.new).calls }
    ensures idle { OnOk result (client.new.current ≡ None) }
    ensures width { client.new.width ≡ client.old.width }
    ensures early { (net.new ≡ net.old) ⊎ EarlyAtEnd (N.seen net.new).calls N.Conn.seen }
    ensures fault { FaultBy result (N.seen net.old).faults (N.seen net.new).faults }
    ensures door { (N.seen net.new).doors ≡ (N.seen net.old).doors }
{
    match client.ask(request) {
        Ok(()) => walk(client, peers, net, message),
        Err(AskFault::NoBox(own)) => Ok(Told::NoOwn(own)),
        Err(AskFault::Spent) => Err(Stop::Spent),
        Err(AskFault::OwnFull(_)) => Err(Stop::Full),
        Err(AskFault::Busy) => unreachable!(),
        Err(AskFault::Width(_)) => unreachable!(),
    }
}
