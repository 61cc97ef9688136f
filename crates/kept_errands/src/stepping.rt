//! One step of a request.
ghost use Rattle.std.specs.Prelude.{◌≡◌, ◌≢◌, None, false};
ghost use Rattle.client_restart.specs.Kept.{StandsByNotes};
ghost use Rattle.node_exchange.specs.Exchanging.{EarlyAtEnd};
ghost use Rattle.kept_errands.specs.Steps.{DiskFaultBy, NetFaultBy, Stepped};

use crate::halt::Halt;
use crate::talking::talk;
use client_core::Progress;
use client_restart::KeptClient;
use express_words::outside::Net;
use frame_rules::FRAME_MAX;
use node_client::Peers;
use node_journal::Disk;

/// The frame of the present step goes to its server, and the client hears the answer: a reply that makes a
/// step is on the disk before it. Where no frame came, or the disk didn't take it, the client stands where it
/// stood.
pub fn one_step<D: Disk, N: Net>(
    client: &mut KeptClient<D>,
    peers: &Peers<'_>,
    net: &mut N,
) -> Result<Progress, Halt>
    requires busy { client.old.core.client.current ≢ None }
    ensures step { Stepped peers.now D.disk D.Counted.seen client.old client.new result
        (N.seen net.old).calls (N.seen net.new).calls }
    ensures stands { client.new.journal.closed ≡ false
        → StandsByNotes client.new.opening client.new.core (D.disk client.new.disk).reads }
    ensures early { EarlyAtEnd (N.seen net.new).calls N.Conn.seen }
    ensures net_fault { NetFaultBy result (N.seen net.old).faults (N.seen net.new).faults }
    ensures disk_fault { DiskFaultBy result (D.Counted.seen client.old.disk).faults
        (D.Counted.seen client.new.disk).faults }
    ensures door { (N.seen net.new).doors ≡ (N.seen net.old).doors }
{
    let mut reply = [0u8; FRAME_MAX];
    match talk(client, peers, net, &mut reply) {
        Ok(count) => match client.hear(&reply[..count]) {
            Ok(progress) => Ok(progress),
            Err(fault) => Err(Halt::Keep(fault)),
        },
        Err(why) => Err(Halt::from(why)),
    }
}
