//! The request that is under way, worked off.
ghost use Rattle.std.specs.Prelude.{◌≡◌, IfErr, OnOk};
ghost use Rattle.desk_around.specs.Ends.{IsCause, IsUndone, Unfailed};
ghost use Rattle.desk_steps.specs.Net.{SendsOn};
ghost use Rattle.owner_work.specs.Settling.{IsTimed, OnEnded, Reached, Settles, SettlesBy, Untimed, WorksSo};
ghost use Rattle.owner_work.specs.Settling.{told_of, unworked_trouble};
ghost use Rattle.owner_work.specs.Works.{OnlyWorks};

use desk_around::{Trouble, halted, later, unnoted};
use desk_outside::Clock;
use desk_steps::keep_note;
use express_words::outside::Net;
use kept_ledger::{KeptLedger, Ledger, LedgerNote, Unworked, work_ledger};
use kept_machine::Kept;
use node_journal::Disk;
use std::alloc::Global;

// What is told where the work at the pair's doors didn't come to rest.
fn unworked<'a>(why: Unworked) -> Trouble<'a>
    ensures trouble { result ≡ unworked_trouble why }
    ensures cause { IsCause result }
{
    match why {
        Unworked::NoPlace(_) => Trouble::Damaged,
        Unworked::NoMemory => Trouble::NoMemory,
        Unworked::Halted(why) => halted(why),
    }
}

// What is told of a ledger that rests.
fn told_of<'a>(ledger: &Ledger) -> Result<(), Trouble<'a>>
    ensures told { result ≡ told_of ledger.now.state }
    ensures undone { IfErr result IsUndone }
{
    match (ledger.refused(), ledger.is_idle()) {
        (None, true) => Ok(()),
        (None, false) => Err(Trouble::Later),
        (Some(refusal), true) => Err(Trouble::Refused(refusal)),
        (Some(refusal), false) => Err(later(refusal)),
    }
}

// Notes the time.
fn note_time<'a, D: Disk, C: Clock>(
    kept: &mut Kept<KeptLedger, D>,
    clock: &mut C,
) -> Result<(), Trouble<'a>>
    ensures timed { OnOk result (IsTimed D.disk D.Counted.seen kept.old kept.new) }
    ensures untimed { IfErr result (λ t. Untimed D.disk D.Counted.seen t kept.old kept.new
        (C.seen clock.old).faults (C.seen clock.new).faults) }
    ensures clock { OnOk result ((C.seen clock.new).faults ≡ (C.seen clock.old).faults) }
    ensures cause { IfErr result IsCause }
    ensures only { OnlyWorks kept.old.machine.ledger.state kept.new.machine.ledger.state }
{
    let Ok(seconds) = clock.now() else {
        return Err(Trouble::Clock);
    };
    match keep_note(kept, &LedgerNote::Time(seconds)) {
        Ok(()) => Ok(()),
        Err(fault) => Err(unnoted(fault)),
    }
}

// Works the ledger off until it rests, and says how its request went.
fn work_on<'a, D: Disk, N: Net>(
    alloc: Global,
    kept: &mut Kept<KeptLedger, D>,
    net: &mut N,
) -> Result<(), Trouble<'a>>
    ensures works { WorksSo D.disk D.Counted.seen kept.old kept.new result
        (N.seen net.old).calls (N.seen net.new).calls }
    ensures undone { IfErr result IsUndone }
    ensures reached { Reached result (N.seen net.old).faults (N.seen net.new).faults }
    ensures sends { SendsOn D.disk D.Counted.seen (N.seen net.old).calls (N.seen net.new).calls }
    ensures only { OnlyWorks kept.old.machine.ledger.state kept.new.machine.ledger.state }
{
    match work_ledger(alloc, kept, net) {
        Ok(()) => told_of(kept.machine().ledger()),
        Err(why) => Err(unworked(why)),
    }
}

/// Works the request off that is under way, if one is: the time is noted, and the two servers are asked until
/// it has ended. `Refused` where they refused it, and nothing else is noted of that; where a server takes it
/// later (`later`), or the work halted (`halted`), it is under way still, and may be settled again.
pub fn settle<'a, D: Disk, N: Net, C: Clock>(
    alloc: Global,
    kept: &mut Kept<KeptLedger, D>,
    net: &mut N,
    clock: &mut C,
) -> Result<(), Trouble<'a>>
    ensures settles { SettlesBy D.disk D.Counted.seen kept.old kept.new result
        (N.seen net.old).calls (N.seen net.new).calls (C.seen clock.old).faults (C.seen clock.new).faults }
    // What that comes to where the request has ended.
    ensures ended { OnEnded result (λ refused. Settles D.disk D.Counted.seen refused kept.old kept.new
        (N.seen net.old).calls (N.seen net.new).calls) }
    ensures clock { OnEnded result (λ _. (C.seen clock.new).faults ≡ (C.seen clock.old).faults) }
    ensures undone { IfErr result IsUndone }
    ensures net { Unfailed (N.seen net.old).faults (N.seen net.new).faults result }
    ensures reached { Reached result (N.seen net.old).faults (N.seen net.new).faults }
    ensures sends { SendsOn D.disk D.Counted.seen (N.seen net.old).calls (N.seen net.new).calls }
    ensures only { OnlyWorks kept.old.machine.ledger.state kept.new.machine.ledger.state }
{
    if kept.machine().ledger().is_idle() {
        return Ok(());
    }
    match note_time(kept, clock) {
        Ok(()) => work_on(alloc, kept, net),
        Err(trouble) => Err(trouble),
    }
}
