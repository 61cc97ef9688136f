//! The word `adopt`.
ghost use Rattle.std.specs.Prelude.{◌≡◌, ◌≢◌, ◌<◌, IfErr, IfOk, IfSome, Ok, OnOk, false};
ghost use Rattle.desk_outside.specs.Calls.{Adds, Adopted};
ghost use Rattle.desk_run.specs.Adopting.{FollowsAbove};
ghost use Rattle.desk_run.specs.Ends.{IsUndone, Unfailed};
ghost use Rattle.desk_run.specs.Sends.{SendsOn};
ghost use Rattle.desk_run.specs.FolderSteps.{FolderStepsOn};

use crate::around::Around;
use crate::carrying::{do_task, store_all};
use crate::discarding::give_up_letters;
use crate::ending::WordEnd;
use crate::forgetting::trouble_of;
use crate::ledgers::{LIMIT, empty_file, ledger_in, put_ledger};
use crate::saying::say;
use crate::trouble::Trouble;
use desk_draws::Draws;
use desk_ledger::{Ledger, Task};
use desk_outside::{Clock, DeskFile, Folder, Papers};
use express_words::NoMemory;
use express_words::outside::{Net, Sink, Source};
use node_journal::Disk;
use std::alloc::Global;

// A copy that is at work elsewhere won't come so far before this one has gone on.
const LEAST_STEP: u64 = 65_536;

// A number so far above this one that no other copy uses it: by lot, since other copies may be adopted too.
fn first_above(number: u64, drawn: u16) -> Option<u32>
    ensures above { IfSome result (λ first. number < first) }
{
    let first = number
        .saturating_add(LEAST_STEP)
        .saturating_add(u64::from(drawn));
    match u32::try_from(first) {
        Ok(first) => Some(first),
        Err(_) => None,
    }
}

// A ledger that goes on above this number, in the place of this one.
fn follow<'a, F: Folder>(
    ledger: &Ledger<F::File>,
    number: u64,
    draws: &mut Draws,
    folder: &mut F,
) -> Result<Ledger<F::File>, Trouble<'a>>
    ensures follows { IfOk result (λ next. FollowsAbove number ledger.now next) }
    ensures undone { IfErr result IsUndone }
    ensures steps { FolderStepsOn F.File.disk F.File.Counted.seen (F.calls folder.old) (F.calls folder.new) }
{
    let Some(first) = first_above(number, draws.short()) else {
        return Err(Trouble::UsedUp);
    };
    let disk = empty_file(folder, DeskFile::NextLedger)?;
    match ledger.follow(disk, LIMIT, first) {
        Ok(next) => match put_ledger(&next, folder) {
            Ok(()) => Ok(next),
            Err(trouble) => {
                drop(next);
                Err(trouble)
            }
        },
        Err((fault, _)) => Err(trouble_of(fault)),
    }
}

// What tells how far the lane was used: what is left to be done, else a reading; None where the desk has no box.
fn first_task<D: Disk>(ledger: &Ledger<D>) -> Result<Option<Task>, NoMemory> {
    if let Some(task) = ledger.next_task()? {
        return Ok(Some(task));
    }
    let live = ledger.live()?;
    Ok(live.first().map(|own| Task::Read(*own)))
}

// Up to which number the lane was used by others, where that is above the desk's own.
fn used_to<'a, D: Disk, N: Net, C: Clock>(
    ledger: &mut Ledger<D>,
    net: &mut N,
    clock: &mut C,
) -> Result<Option<u32>, Trouble<'a>>
    ensures undone { IfErr result IsUndone }
    ensures net { Unfailed (N.seen net.old).faults (N.seen net.new).faults result }
    ensures sends { SendsOn D.disk D.Counted.seen (N.seen net.old).calls (N.seen net.new).calls }
{
    let Some(task) = first_task(ledger)? else {
        return Ok(None);
    };
    match do_task(ledger, task, net, clock) {
        Ok(()) | Err(Trouble::Refused(_)) => Ok(None),
        Err(Trouble::Behind(number)) => Ok(Some(number)),
        Err(trouble) => Err(trouble),
    }
}

// Goes on above what was used of the lane; where others used more than the desk knows, above that.
fn go_on<'a, F: Folder, N: Net, C: Clock>(
    ledger: &mut Ledger<F::File>,
    draws: &mut Draws,
    folder: &mut F,
    net: &mut N,
    clock: &mut C,
) -> Result<(), Trouble<'a>>
    ensures undone { IfErr result IsUndone }
    ensures net { Unfailed (N.seen net.old).faults (N.seen net.new).faults result }
    ensures sends { SendsOn F.File.disk F.File.Counted.seen (N.seen net.old).calls (N.seen net.new).calls }
    ensures steps { FolderStepsOn F.File.disk F.File.Counted.seen (F.calls folder.old) (F.calls folder.new) }
{
    match used_to(ledger, net, clock)? {
        None => Ok(()),
        Some(number) => {
            drop(follow(ledger, u64::from(number), draws, folder)?);
            Ok(())
        }
    }
}

// A ledger that goes on far above this one's numbers, in its place, once what servers answered is stored.
fn step_ahead<'a, F: Folder, C: Clock>(
    ledger: &mut Ledger<F::File>,
    draws: &mut Draws,
    folder: &mut F,
    clock: &mut C,
) -> Result<Ledger<F::File>, Trouble<'a>>
    ensures undone { IfErr result IsUndone }
    ensures steps { FolderStepsOn F.File.disk F.File.Counted.seen (F.calls folder.old) (F.calls folder.new) }
{
    let Ok(seconds) = clock.now() else {
        return Err(Trouble::Clock);
    };
    store_all(ledger, seconds)?;
    follow(ledger, ledger.serial(), draws, folder)
}

// The desk goes on, where there is one, above its own numbers, and above those that others used.
fn adopt_desk<'a, S: Source, K: Sink, N: Net, F: Folder, P: Papers, C: Clock>(
    alloc: Global,
    draws: &mut Draws,
    around: &mut Around<S, K, N, F, P, C>,
) -> Result<(), Trouble<'a>>
    ensures undone { IfErr result IsUndone }
    ensures out { around.new.out ≡ around.old.out }
    ensures net { Unfailed (N.seen around.old.net).faults (N.seen around.new.net).faults result }
    ensures sends { SendsOn F.File.disk F.File.Counted.seen
        (N.seen around.old.net).calls (N.seen around.new.net).calls }
    ensures steps { FolderStepsOn F.File.disk F.File.Counted.seen
        (F.calls around.old.folder) (F.calls around.new.folder) }
{
    let Some(mut ledger) = ledger_in(alloc, &mut around.folder)? else {
        return mark(&mut around.folder);
    };
    let followed = step_ahead(&mut ledger, draws, &mut around.folder, &mut around.clock);
    drop(ledger);
    let mut next = followed?;
    let went = match mark(&mut around.folder) {
        Ok(()) => go_on(
            &mut next,
            draws,
            &mut around.folder,
            &mut around.net,
            &mut around.clock,
        ),
        Err(trouble) => Err(trouble),
    };
    drop(next);
    went
}

// From now on the folder isn't taken for a copy.
#[tactic(auto, using(crate::proofs::StepLaws::on_gentle))]
fn mark<'a, F: Folder>(folder: &mut F) -> Result<(), Trouble<'a>>
    ensures undone { IfErr result IsUndone }
    ensures adopted { OnOk result (Adds (F.calls folder.old) (F.calls folder.new) (Adopted false)) }
    ensures steps { FolderStepsOn F.File.disk F.File.Counted.seen (F.calls folder.old) (F.calls folder.new) }
{
    match folder.adopt() {
        Ok(()) => Ok(()),
        Err(_) => Err(Trouble::Folder),
    }
}

/// The word `adopt`: this folder is the desk's from now on. Letters that are on their way are given up, since the folder
/// that was copied may have sent them; the owner's desk goes on with the same boxes, above the numbers that others used.
pub(crate) fn adopt<'a, S: Source, K: Sink, N: Net, F: Folder, P: Papers, C: Clock>(
    alloc: Global,
    draws: &mut Draws,
    around: &mut Around<S, K, N, F, P, C>,
) -> Result<WordEnd, Trouble<'a>>
    ensures undone { IfErr result IsUndone }
    ensures not_met { result ≢ Ok WordEnd.Met }
    ensures sink { Unfailed (K.seen around.old.out).faults (K.seen around.new.out).faults result }
    ensures net { Unfailed (N.seen around.old.net).faults (N.seen around.new.net).faults result }
    ensures sends { SendsOn F.File.disk F.File.Counted.seen
        (N.seen around.old.net).calls (N.seen around.new.net).calls }
    ensures steps { FolderStepsOn F.File.disk F.File.Counted.seen
        (F.calls around.old.folder) (F.calls around.new.folder) }
{
    give_up_letters(alloc, &mut around.folder, &mut around.out)?;
    adopt_desk(alloc, draws, around)?;
    say(
        &mut around.out,
        "this folder is the desk's now: use no other copy of it any more\n",
    )?;
    Ok(WordEnd::Done)
}
