//! The desk's boxes, read.
ghost use Rattle.std.specs.Prelude.{◌≡◌, ◌≢◌, Err, IfErr, IfOk, OnOk};
ghost use Rattle.desk_around.specs.Ends.{IsUndone, Unfailed};
ghost use Rattle.desk_steps.specs.Net.{SendsOn};
ghost use Rattle.express_words.specs.declared.refusal.Refusal.{Refusal as RefusalOf};
ghost use Rattle.owner_work.specs.Settling.{OnEnded, OnStopped, Reached};
ghost use Rattle.owner_work.specs.Works.{Does, DoesBy, OnlyWorks, ReadsLive, StopsReading, last_of};

use crate::doing::do_task;
use desk_around::Trouble;
use desk_outside::Clock;
use express_words::Refusal;
use express_words::outside::Net;
use kept_ledger::{KeptLedger, Task};
use kept_machine::Kept;
use node_journal::Disk;
use std::alloc::Global;

// Reads a box. A refusal of the servers is given.
fn read_one<'a, D: Disk, N: Net, C: Clock>(
    alloc: Global,
    kept: &mut Kept<KeptLedger, D>,
    own: u32,
    net: &mut N,
    clock: &mut C,
) -> Result<Option<Refusal>, Trouble<'a>>
    ensures reads { IfOk result (λ refused. Does D.disk D.Counted.seen (Task.Read own) refused
        kept.old kept.new (N.seen net.old).calls (N.seen net.new).calls) }
    ensures stops { IfErr result (λ t. DoesBy D.disk D.Counted.seen (Task.Read own) kept.old kept.new (Err t)
        (N.seen net.old).calls (N.seen net.new).calls (C.seen clock.old).faults (C.seen clock.new).faults) }
    ensures clock { OnOk result ((C.seen clock.new).faults ≡ (C.seen clock.old).faults) }
    ensures undone { IfErr result IsUndone }
    ensures unrefused { IfErr result (λ t. (r : RefusalOf) → t ≢ Trouble.Refused r) }
    ensures reached { Reached result (N.seen net.old).faults (N.seen net.new).faults }
    ensures sends { SendsOn D.disk D.Counted.seen (N.seen net.old).calls (N.seen net.new).calls }
    ensures only { OnlyWorks kept.old.machine.ledger.state kept.new.machine.ledger.state }
{
    match do_task(alloc, kept, Task::Read(own), net, clock) {
        Ok(()) => Ok(None),
        Err(Trouble::Refused(refusal)) => Ok(Some(refusal)),
        Err(trouble) => Err(trouble),
    }
}

// The refusal of the later one, if it has one.
fn last_of(answer: Option<Refusal>, before: Option<Refusal>) -> Option<Refusal>
    ensures { result ≡ last_of answer before }
{
    match answer {
        Some(_) => answer,
        None => before,
    }
}

/// Reads each live box once, in order, also behind one whose read was refused; the last refusal is told. What
/// a box held stands in the ledger before the next one is read.
pub fn fetch<'a, D: Disk, N: Net, C: Clock>(
    alloc: Global,
    kept: &mut Kept<KeptLedger, D>,
    net: &mut N,
    clock: &mut C,
) -> Result<(), Trouble<'a>>
    ensures reads { OnEnded result (λ refused. ReadsLive D.disk D.Counted.seen refused kept.old kept.new
        (N.seen net.old).calls (N.seen net.new).calls) }
    ensures stops { OnStopped result (λ t. StopsReading D.disk D.Counted.seen t kept.old kept.new
        (N.seen net.old).calls (N.seen net.new).calls (C.seen clock.old).faults (C.seen clock.new).faults) }
    ensures undone { IfErr result IsUndone }
    ensures net { Unfailed (N.seen net.old).faults (N.seen net.new).faults result }
    ensures reached { Reached result (N.seen net.old).faults (N.seen net.new).faults }
    ensures sends { SendsOn D.disk D.Counted.seen (N.seen net.old).calls (N.seen net.new).calls }
    ensures only { OnlyWorks kept.old.machine.ledger.state kept.new.machine.ledger.state }
{
    let Ok(live) = kept.machine().ledger().live(alloc) else {
        return Err(Trouble::NoMemory);
    };
    let mut refused = None;
    'boxes: for own in live.iter() {
        let answer = read_one(alloc, kept, *own, net, clock)?;
        refused = last_of(answer, refused);
    }
    match refused {
        Some(refusal) => Err(Trouble::Refused(refusal)),
        None => Ok(()),
    }
}
