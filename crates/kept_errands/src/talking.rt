//! The frame of a step, and what comes back.
ghost use Rattle.std.specs.Prelude.{◌≡◌, ◌≢◌, ◌≤◌, None, false, length, take, IfOk};
ghost use Rattle.frame_rules.specs.Room.{HasRoom};
ghost use Rattle.node_journal.specs.Disk.{Within};
ghost use Rattle.client_restart.specs.Kept.{StandsByNotes};
ghost use Rattle.node_exchange.specs.Exchanging.{answer_in, CountBy, EarlyAtEnd};
ghost use Rattle.node_exchange.specs.Taking.{IsOneFrame};
ghost use Rattle.kept_errands.specs.Steps.{Talked};

use client_restart::KeptClient;
use express_words::outside::Net;
use frame_rules::FRAME_MAX;
use node_client::{Peers, address_of};
use node_exchange::{Broken, exchange};
use node_journal::Disk;

/// Sends the frame of the present step to its server, and takes one frame of the answer into the front of
/// `reply`. Gives that frame's length. The client doesn't hear it.
pub fn talk<D: Disk, N: Net>(
    client: &KeptClient<D>,
    peers: &Peers<'_>,
    net: &mut N,
    reply: &mut [u8],
) -> Result<usize, Broken>
    requires busy { client.now.core.client.current ≢ None }
    requires room { HasRoom reply.old }
    ensures talked { Talked peers.now client.now.core.client (answer_in result reply.new)
        (N.seen net.old).calls (N.seen net.new).calls }
    ensures frame { IfOk result (λ n. (n ≤ length reply.new) × IsOneFrame (take n reply.new)) }
    // What the disk holds gives the client that sends, now and after a crash.
    ensures stands { client.now.journal.closed ≡ false
        → StandsByNotes client.now.opening client.now.core (D.disk client.now.disk).reads }
    ensures durable { client.now.journal.closed ≡ false
        → Within (D.disk client.now.disk).may_leave (D.disk client.now.disk).reads }
    ensures early { EarlyAtEnd (N.seen net.new).calls N.Conn.seen }
    ensures fault { CountBy result (N.seen net.old).faults (N.seen net.new).faults }
    ensures door { (N.seen net.new).doors ≡ (N.seen net.old).doors }
{
    let mut frame = [0u8; FRAME_MAX];
    let Some((server, size)) = client.send(&mut frame) else {
        unreachable!()
    };
    exchange(net, address_of(peers, server), &frame[..size], reply)
}
