//! What is left to be done, carried on.
ghost use Rattle.std.specs.Prelude.{◌≡◌, ℕ, Err, IfErr, IfOk, OnOk};
ghost use Rattle.desk_run.specs.Carried.{HasNothingLeft};
ghost use Rattle.desk_run.specs.Ends.{IsCause, IsUndone, Unfailed};
ghost use Rattle.desk_run.specs.Sends.{SendsOn};
ghost use Rattle.desk_run.specs.Works.{DoesTask, Goes, OnSettled, Settles, StoresAll, is_noted, refused_by};

use crate::ledgers::is_full;
use crate::trouble::{Trouble, halted};
use client_restart::Errand;
use desk_ledger::{Ledger, Stored, Task};
use desk_outside::Clock;
use express_words::Refusal;
use express_words::outside::Net;
use node_journal::Disk;

// More tasks than a desk can have left.
const MOST_TASKS: u32 = 16_384;

// Of a box that gets no place, and of one that is gone, the ledger tells.
fn is_noted(stored: &Stored) -> bool
    ensures { result ≡ is_noted stored.now }
{
    match (stored.errand, stored.refusal) {
        (_, None) => true,
        (Errand::Register(_), Some(Refusal::Taken(_))) => true,
        (Errand::Register(_), Some(Refusal::Full(_))) => true,
        (Errand::Retire(_), Some(Refusal::NoBox(_))) => true,
        (_, Some(_)) => false,
    }
}

// The last refusal that leaves no entry.
fn last_refused(before: Option<Refusal>, stored: &Stored) -> Option<Refusal>
    ensures { result ≡ refused_by before stored.now }
{
    if is_noted(stored) {
        before
    } else {
        stored.refusal
    }
}

/// Stores what the ended requests came to; the last refusal that leaves no entry is given.
pub(crate) fn store_all<'a, D: Disk>(
    ledger: &mut Ledger<D>,
    seconds: u64,
) -> Result<Option<Refusal>, Trouble<'a>>
    ensures stores { IfOk result (StoresAll ledger.old ledger.new) }
    ensures cause { IfErr result IsCause }
{
    let mut refused = None;
    'outcomes: for _ in 0..MOST_TASKS {
        match ledger.store(seconds)? {
            None => return Ok(refused),
            Some(stored) => refused = last_refused(refused, &stored),
        }
    }
    Err(Trouble::Later)
}

/// Works off the request that is under way, and stores what it came to.
#[tactic(auto, using(crate::proofs::SendLaws::on_request))]
pub(crate) fn settle<'a, D: Disk, N: Net, C: Clock>(
    ledger: &mut Ledger<D>,
    net: &mut N,
    clock: &mut C,
) -> Result<(), Trouble<'a>>
    ensures undone { IfErr result IsUndone }
    ensures net { Unfailed (N.seen net.old).faults (N.seen net.new).faults result }
    ensures sends { SendsOn D.disk D.Counted.seen (N.seen net.old).calls (N.seen net.new).calls }
    ensures refused { (r : Refusal) → result ≡ Err (Trouble.Refused r)
        → (N.seen net.new).faults ≡ (N.seen net.old).faults }
    ensures behind { (n : ℕ) → result ≡ Err (Trouble.Behind n)
        → (N.seen net.new).faults ≡ (N.seen net.old).faults }
    // Also where a server refused the request.
    ensures settles { OnSettled result (λ refused.
        Settles refused ledger.old ledger.new (N.seen net.old).calls (N.seen net.new).calls) }
{
    if let Err(halt) = ledger.work(net) {
        return Err(halted(halt, ledger.server()));
    }
    let Ok(seconds) = clock.now() else {
        return Err(Trouble::Clock);
    };
    match store_all(ledger, seconds)? {
        None => Ok(()),
        Some(refusal) => Err(Trouble::Refused(refusal)),
    }
}

/// Asks the servers for one thing, works it off, and stores what it came to.
pub(crate) fn do_task<'a, D: Disk, N: Net, C: Clock>(
    ledger: &mut Ledger<D>,
    task: Task,
    net: &mut N,
    clock: &mut C,
) -> Result<(), Trouble<'a>>
    ensures undone { IfErr result IsUndone }
    ensures net { Unfailed (N.seen net.old).faults (N.seen net.new).faults result }
    ensures sends { SendsOn D.disk D.Counted.seen (N.seen net.old).calls (N.seen net.new).calls }
    ensures refused { (r : Refusal) → result ≡ Err (Trouble.Refused r)
        → (N.seen net.new).faults ≡ (N.seen net.old).faults }
    ensures behind { (n : ℕ) → result ≡ Err (Trouble.Behind n)
        → (N.seen net.new).faults ≡ (N.seen net.old).faults }
    ensures does { OnSettled result (λ refused.
        DoesTask task refused ledger.old ledger.new (N.seen net.old).calls (N.seen net.new).calls) }
{
    if is_full(ledger.used()) {
        return Err(Trouble::Full);
    }
    match ledger.ask(task)? {
        Ok(()) => settle(ledger, net, clock),
        Err(_) => Err(Trouble::Spent),
    }
}

/// Works off what is under way, and then all that is left to be done.
pub(crate) fn carry_on<'a, D: Disk, N: Net, C: Clock>(
    ledger: &mut Ledger<D>,
    net: &mut N,
    clock: &mut C,
) -> Result<(), Trouble<'a>>
    ensures goes { OnOk result (Goes ledger.old (N.seen net.old).calls ledger.new (N.seen net.new).calls) }
    ensures nothing_left { OnOk result (HasNothingLeft ledger.new) }
    ensures undone { IfErr result IsUndone }
    ensures net { Unfailed (N.seen net.old).faults (N.seen net.new).faults result }
    ensures sends { SendsOn D.disk D.Counted.seen (N.seen net.old).calls (N.seen net.new).calls }
{
    settle(ledger, net, clock)?;
    'tasks: for _ in 0..MOST_TASKS {
        match ledger.next_task()? {
            None => return Ok(()),
            Some(task) => do_task(ledger, task, net, clock)?,
        }
    }
    Err(Trouble::Later)
}
