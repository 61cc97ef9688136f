//! A machine, worked off until it rests.
ghost use Rattle.std.specs.Prelude.{◌≡◌, false, OnOk};
ghost use Rattle.kept_machine.specs.Keeps.{IsDurable, sight};
ghost use Rattle.door_work.specs.Asking.{Rest};
ghost use Rattle.door_work.specs.Steps.{DiskFaultBy, EarlyAtEnd, NetFaultBy};
ghost use Rattle.door_work.specs.Works.{WorkedOff};

use crate::asks::Asks;
use crate::halt::Halt;
use crate::places::Places;
use crate::stepping::{Course, one_step};
use express_words::outside::Net;
use kept_machine::Kept;
use node_journal::Disk;

/// Works a machine off until it rests. Where the work halts it stands at the step that it had come to, and
/// may be worked on again, with the same request. Each step takes some of the journal's room, so the work
/// ends.
pub fn work<M: Asks, D: Disk, N: Net>(
    kept: &mut Kept<M, D>,
    places: &Places<'_>,
    net: &mut N,
) -> Result<(), Halt>
    ensures works { WorkedOff M.rules M.asking places.now D.disk D.Counted.seen kept.old kept.new result
        (N.seen net.old).calls (N.seen net.new).calls }
    ensures rests { OnOk result (M.asking.next_of kept.new.machine ≡ Rest) }
    ensures durable { kept.new.journal.closed ≡ false
        → IsDurable M.rules (sight D.disk D.Counted.seen kept.new) }
    ensures early { EarlyAtEnd result (N.seen net.new).calls N.Conn.seen }
    ensures net_fault { NetFaultBy result (N.seen net.old).faults (N.seen net.new).faults }
    ensures disk_fault { DiskFaultBy result (D.Counted.seen kept.old.disk).faults
        (D.Counted.seen kept.new.disk).faults }
    ensures door { (N.seen net.new).doors ≡ (N.seen net.old).doors }
{
    'steps: loop {
        match one_step(kept, places, net) {
            Ok(Course::GoesOn) => {}
            Ok(Course::Rests) => return Ok(()),
            Err(why) => return Err(why),
        }
    }
}
