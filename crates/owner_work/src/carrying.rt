//! What is left to be done, carried on.
ghost use Rattle.std.specs.Prelude.{◌≡◌, IfErr, OnOk, is_none, true};
ghost use Rattle.desk_around.specs.Ends.{IsUndone, Unfailed};
ghost use Rattle.desk_steps.specs.Net.{SendsOn};
ghost use Rattle.owner_work.specs.Settling.{Reached};
ghost use Rattle.owner_work.specs.Works.{GoesWell, HasNothingLeft, OnlyWorks, Stops};

use crate::doing::do_task;
use crate::settling::settle;
use desk_around::Trouble;
use desk_outside::Clock;
use express_words::outside::Net;
use kept_ledger::KeptLedger;
use kept_machine::Kept;
use node_journal::Disk;
use std::alloc::Global;

// More tasks than a desk can have left.
const MOST_TASKS: u32 = 16_384;

/// Settles what is under way, and then does all that is left to be done: boxes that are to be registered, and
/// boxes that are to be retired. It stops at the first trouble, and may be carried on.
pub fn carry_on<'a, D: Disk, N: Net, C: Clock>(
    alloc: Global,
    kept: &mut Kept<KeptLedger, D>,
    net: &mut N,
    clock: &mut C,
) -> Result<(), Trouble<'a>>
    ensures goes { OnOk result (GoesWell D.disk D.Counted.seen kept.old kept.new
        (N.seen net.old).calls (N.seen net.new).calls) }
    ensures stops { IfErr result (λ t. Stops D.disk D.Counted.seen t kept.old kept.new
        (N.seen net.old).calls (N.seen net.new).calls (C.seen clock.old).faults (C.seen clock.new).faults) }
    ensures nothing_left { OnOk result (HasNothingLeft kept.new.machine.ledger.state) }
    ensures idle { OnOk result (is_none kept.new.machine.ledger.state.client.current ≡ true) }
    ensures undone { IfErr result IsUndone }
    ensures net { Unfailed (N.seen net.old).faults (N.seen net.new).faults result }
    ensures reached { Reached result (N.seen net.old).faults (N.seen net.new).faults }
    ensures sends { SendsOn D.disk D.Counted.seen (N.seen net.old).calls (N.seen net.new).calls }
    ensures only { OnlyWorks kept.old.machine.ledger.state kept.new.machine.ledger.state }
{
    settle(alloc, kept, net, clock)?;
    'tasks: for _ in 0..MOST_TASKS {
        match kept.machine().ledger().next_task() {
            None => return Ok(()),
            Some(task) => do_task(alloc, kept, task, net, clock)?,
        }
    }
    Err(Trouble::Later)
}
