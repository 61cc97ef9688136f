//! One step of a machine.
ghost use Rattle.std.specs.Prelude.{◌≡◌, false, OnErr};
ghost use Rattle.kept_machine.specs.Keeps.{IsDurable, Keeps, sight};
ghost use Rattle.door_work.specs.Steps.{DiskFaultBy, EarlyAtEnd, NetFaultBy, Stepped};

use crate::asking::ask;
use crate::asks::Asks;
use crate::halt::Halt;
use crate::next::Next;
use crate::places::Places;
use crate::record::Record;
use express_words::outside::Net;
use kept_machine::{KeepFault, Kept, take};
use node_journal::{Disk, RECORD_MAX};

/// What a step leaves to do.
#[derive(Clone, Copy, Debug, PartialEq, Eq)]
pub enum Course {
    /// It was made, and the machine goes on.
    GoesOn,
    /// There was none to make.
    Rests,
}

// A record of the machine's is kept, and then its step is taken.
fn keep<M: Asks, D: Disk>(kept: &mut Kept<M, D>, record: &Record) -> Result<(), KeepFault>
    requires { M.rules.is_record record.now }
    ensures keeps { Keeps M.rules record.now (sight D.disk D.Counted.seen kept.old)
        (sight D.disk D.Counted.seen kept.new) result }
    ensures durable { kept.new.journal.closed ≡ false
        → IsDurable M.rules (sight D.disk D.Counted.seen kept.new) }
{
    let _ = record.bytes();
    match take(kept, record, &mut []) {
        Ok(()) => Ok(()),
        Err(fault) => Err(fault),
    }
}

/// What the machine wants next is done: a record of its own is kept, or a server's door is asked and the
/// record by which the machine hears the answer is kept. Where none was kept it stands where it stood.
pub fn one_step<M: Asks, D: Disk, N: Net>(
    kept: &mut Kept<M, D>,
    places: &Places<'_>,
    net: &mut N,
) -> Result<Course, Halt>
    ensures step { Stepped M.rules M.asking places.now D.disk D.Counted.seen kept.old kept.new result
        (N.seen net.old).calls (N.seen net.new).calls }
    ensures again { OnErr result (M.asking.next_of kept.new.machine ≡ M.asking.next_of kept.old.machine) }
    ensures durable { kept.new.journal.closed ≡ false
        → IsDurable M.rules (sight D.disk D.Counted.seen kept.new) }
    ensures early { EarlyAtEnd result (N.seen net.new).calls N.Conn.seen }
    ensures net_fault { NetFaultBy result (N.seen net.old).faults (N.seen net.new).faults }
    ensures disk_fault { DiskFaultBy result (D.Counted.seen kept.old.disk).faults
        (D.Counted.seen kept.new.disk).faults }
    ensures door { (N.seen net.new).doors ≡ (N.seen net.old).doors }
{
    let mut room = [0; RECORD_MAX];
    let record = match kept.machine().next(&mut room) {
        Next::Rest => return Ok(Course::Rests),
        Next::Note(record) => Record::of(record),
        Next::Ask { to, request } => match ask(kept, places, net, to, &request) {
            Ok(record) => record,
            Err(why) => return Err(why),
        },
    };
    match keep(kept, &record) {
        Ok(()) => Ok(Course::GoesOn),
        Err(fault) => Err(Halt::Keep(fault)),
    }
}
