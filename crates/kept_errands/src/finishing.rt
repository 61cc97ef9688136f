//! A request, worked off to its end.
ghost use Rattle.std.specs.Prelude.{◌≡◌, ◌≢◌, None, false, IfErr, OnOk};
ghost use Rattle.client_restart.specs.Kept.{StandsByNotes};
ghost use Rattle.node_exchange.specs.Exchanging.{EarlyAtEnd};
ghost use Rattle.kept_errands.specs.Steps.{DiskFaultBy, NetFaultBy};
ghost use Rattle.kept_errands.specs.Works.{HaltsAtReply, IsEnded, WorkedOff};

use crate::halt::Halt;
use crate::stepping::one_step;
use client_core::Progress;
use client_restart::KeptClient;
use express_words::outside::Net;
use node_client::{Peers, Stop};
use node_journal::Disk;

/// Works the current request off to its end; its outcome is among those that weren't told then. Where the
/// work halts the client stands at the step that it had come to, and may be worked on again.
pub fn finish<D: Disk, N: Net>(
    client: &mut KeptClient<D>,
    peers: &Peers<'_>,
    net: &mut N,
) -> Result<(), Halt>
    requires busy { client.old.core.client.current ≢ None }
    ensures works { WorkedOff peers.now client.old.core client.new.core result
        (N.seen net.old).calls (N.seen net.new).calls }
    ensures keeps { IfErr result (HaltsAtReply D.disk D.Counted.seen client.new) }
    ensures ended { OnOk result (IsEnded client.old.core client.new.core) }
    ensures remarks { client.new.core.remarks ≡ client.old.core.remarks }
    ensures opening { client.new.opening ≡ client.old.opening }
    ensures stands { client.new.journal.closed ≡ false
        → StandsByNotes client.new.opening client.new.core (D.disk client.new.disk).reads }
    ensures early { EarlyAtEnd (N.seen net.new).calls N.Conn.seen }
    ensures net_fault { NetFaultBy result (N.seen net.old).faults (N.seen net.new).faults }
    ensures disk_fault { DiskFaultBy result (D.Counted.seen client.old.disk).faults
        (D.Counted.seen client.new.disk).faults }
    ensures door { (N.seen net.new).doors ≡ (N.seen net.old).doors }
{
    'steps: loop {
        match one_step(client, peers, net) {
            Ok(Progress::Next) => {}
            Ok(Progress::Finished(_)) => return Ok(()),
            Ok(Progress::Later(refusal)) => return Err(Halt::Stop(Stop::Later(refusal))),
            Ok(Progress::Ignored) => return Err(Halt::Stop(Stop::Answer)),
            Err(why) => return Err(why),
        }
    }
}
