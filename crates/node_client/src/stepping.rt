//! The steps of a request, each by one exchange.
ghost use Rattle.std.specs.Prelude.{◌≡◌, ◌≢◌, None, length};
ghost use Rattle.step_rules.specs.ClientAsks.{sends};
ghost use Rattle.node_exchange.specs.Exchanging.{EarlyAtEnd};
ghost use Rattle.node_client.specs.Steps.{StepsOn, Walked, FaultBy};

use crate::finished::Told;
use crate::peers::{Peers, address_of};
use crate::stop::Stop;
use client_core::{Client, Progress};
use express_words::outside::Net;
use frame_rules::FRAME_MAX;
use node_exchange::exchange;

/// One step: its frame goes to its server, and the client hears the answer. Gives None where the request goes
/// on, and else how it ended; a message that it read stands in `message` then.
fn one_step<N: Net>(
    client: &mut Client,
    peers: &Peers<'_>,
    net: &mut N,
    message: &mut [u8],
) -> Result<Option<Told>, Stop>
    requires width { length message.old ≡ client.old.width }
    requires sends { sends client.old ≢ None }
    ensures step { StepsOn peers.now client.old client.new message.old message.new result
        (N.seen net.old).calls (N.seen net.new).calls }
    ensures width { client.new.width ≡ client.old.width }
    ensures early { EarlyAtEnd (N.seen net.new).calls N.Conn.seen }
    ensures fault { FaultBy result (N.seen net.old).faults (N.seen net.new).faults }
    ensures door { (N.seen net.new).doors ≡ (N.seen net.old).doors }
{
    let mut frame = [0u8; FRAME_MAX];
    let mut reply = [0u8; FRAME_MAX];
    let Some((server, size)) = client.send(&mut frame) else {
        unreachable!()
    };
    let count = exchange(net, address_of(peers, server), &frame[..size], &mut reply)?;
    match client.on_reply(&reply[..count], message) {
        Progress::Next => Ok(None),
        Progress::Finished(outcome) => Ok(Some(Told::Done(outcome))),
        Progress::Later(refusal) => Err(Stop::Later(refusal)),
        Progress::Ignored => Err(Stop::Answer),
    }
}

/// Steps the current request to its end.
pub fn walk<N: Net>(
    client: &mut Client,
    peers: &Peers<'_>,
    net: &mut N,
    message: &mut [u8],
) -> Result<Told, Stop>
    requires width { length message.old ≡ client.old.width }
    requires sends { sends client.old ≢ None }
    ensures walked { Walked peers.now client.old client.new message.new result
        (N.seen net.old).calls (N.seen net.new).calls }
    ensures width { client.new.width ≡ client.old.width }
    ensures early { EarlyAtEnd (N.seen net.new).calls N.Conn.seen }
    ensures fault { FaultBy result (N.seen net.old).faults (N.seen net.new).faults }
    ensures door { (N.seen net.new).doors ≡ (N.seen net.old).doors }
{
    'steps: loop {
        match one_step(client, peers, net, message) {
            Ok(None) => {}
            Ok(Some(told)) => return Ok(told),
            Err(why) => return Err(why),
        }
    }
}
