//! One task.
ghost use Rattle.std.specs.Prelude.{◌≡◌, IfErr, OnErr, OnOk};
ghost use Rattle.desk_around.specs.Ends.{IsCause, IsUndone, Unfailed};
ghost use Rattle.desk_steps.specs.Net.{SendsOn};
ghost use Rattle.kept_ledger.specs.Ledgers.{step_of};
ghost use Rattle.kept_ledger.specs.Notes.{Asked};
ghost use Rattle.owner_work.specs.Settling.{OnEnded, Reached};
ghost use Rattle.owner_work.specs.Works.{Does, DoesBy, OnlyWorks};

use crate::rooms::is_full;
use crate::settling::settle;
use desk_around::{Trouble, unnoted};
use desk_outside::Clock;
use desk_steps::keep_note;
use express_words::outside::Net;
use kept_ledger::{KeptLedger, LedgerNote, Task};
use kept_machine::Kept;
use node_journal::Disk;
use std::alloc::Global;

/// Asks the two servers for one thing: the request is noted and then settled. `Full` where the ledger has no
/// room left for that, and `Spent` where its client takes no such request; then nothing is noted.
pub fn do_task<'a, D: Disk, N: Net, C: Clock>(
    alloc: Global,
    kept: &mut Kept<KeptLedger, D>,
    task: Task,
    net: &mut N,
    clock: &mut C,
) -> Result<(), Trouble<'a>>
    ensures does { DoesBy D.disk D.Counted.seen task kept.old kept.new result
        (N.seen net.old).calls (N.seen net.new).calls (C.seen clock.old).faults (C.seen clock.new).faults }
    // What that comes to where the request has ended.
    ensures ended { OnEnded result (λ refused. Does D.disk D.Counted.seen task refused kept.old kept.new
        (N.seen net.old).calls (N.seen net.new).calls) }
    ensures clock { OnEnded result (λ _. (C.seen clock.new).faults ≡ (C.seen clock.old).faults) }
    ensures undone { IfErr result IsUndone }
    ensures net { Unfailed (N.seen net.old).faults (N.seen net.new).faults result }
    ensures reached { Reached result (N.seen net.old).faults (N.seen net.new).faults }
    ensures sends { SendsOn D.disk D.Counted.seen (N.seen net.old).calls (N.seen net.new).calls }
    ensures only { OnlyWorks kept.old.machine.ledger.state kept.new.machine.ledger.state }
{
    if is_full(kept.used()) {
        return Err(Trouble::Full);
    }
    if !kept.machine().ledger().takes(task) {
        return Err(Trouble::Spent);
    }
    match keep_note(kept, &LedgerNote::Asked(task)) {
        Ok(()) => settle(alloc, kept, net, clock),
        Err(fault) => Err(unnoted(fault)),
    }
}
