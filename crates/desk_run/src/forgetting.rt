//! The word `forget`.
ghost use Rattle.std.specs.Prelude.{◌≡◌, IfErr, IfOk, Ok, OnOk, is_err};
ghost use Rattle.desk_outside.specs.Calls.{Adds, Placed};
ghost use Rattle.desk_run.specs.Carried.{OnceBack};
ghost use Rattle.desk_run.specs.Changes.{FollowsLedger, Renews};
ghost use Rattle.desk_run.specs.Ends.{IsUndone, Unfailed};
ghost use Rattle.desk_run.specs.Scenes.{Between, scene};
ghost use Rattle.desk_run.specs.Words.{ForgetsLetters};
ghost use Rattle.desk_run.specs.Sends.{SendsOn};
ghost use Rattle.desk_run.specs.Printing.{Prints, TellsMet};
ghost use Rattle.desk_run.specs.FolderSteps.{FolderStepsOn};

use crate::around::Around;
use crate::ending::{WordEnd, end_by};
use crate::ledgers::{LIMIT, empty_file, put_ledger};
use crate::resuming::desk_settled;
use crate::saying::say;
use crate::showing::show_new;
use crate::trouble::Trouble;
use desk_ledger::{ForgetFault, Ledger};
use desk_outside::{Clock, DeskFile, Folder, Papers};
use express_words::outside::{Net, Sink, Source};
use std::alloc::Global;

/// What is told where no ledger is made of another one.
pub(crate) fn trouble_of<'a>(fault: ForgetFault) -> Trouble<'a>
    ensures { IsUndone result }
{
    match fault {
        ForgetFault::Busy => Trouble::Later,
        ForgetFault::Spent => Trouble::Spent,
        ForgetFault::NoRoom => Trouble::Full,
        ForgetFault::Unseen => Trouble::Unseen,
        ForgetFault::Keep(fault) => Trouble::from(fault),
    }
}

// Puts a ledger in the place of another one, whose next number it has.
fn replace<'a, F: Folder>(
    old: &Ledger<F::File>,
    next: &Ledger<F::File>,
    folder: &mut F,
) -> Result<(), Trouble<'a>>
    requires follows { FollowsLedger old.now next.now }
    ensures undone { IfErr result IsUndone }
    ensures placed { Adds (F.calls folder.old) (F.calls folder.new)
        (Placed DeskFile.NextLedger DeskFile.Ledger (is_err result)) }
    ensures steps { FolderStepsOn F.File.disk F.File.Counted.seen (F.calls folder.old) (F.calls folder.new) }
{
    put_ledger(next, folder)
}

// Puts a ledger without letters in the place of this one.
#[tactic(auto, using(crate::proofs::RenewLaws::follows))]
fn renew<'a, F: Folder>(ledger: &Ledger<F::File>, folder: &mut F) -> Result<(), Trouble<'a>>
    ensures renews { OnOk result (Renews F.File.disk ledger.now (F.calls folder.old) (F.calls folder.new)) }
    ensures undone { IfErr result IsUndone }
    ensures steps { FolderStepsOn F.File.disk F.File.Counted.seen (F.calls folder.old) (F.calls folder.new) }
{
    let disk = empty_file(folder, DeskFile::NextLedger)?;
    match ledger.forget(disk, LIMIT) {
        Ok(next) => {
            let replaced = replace(ledger, &next, folder);
            drop(next);
            replaced
        }
        Err((fault, _)) => Err(trouble_of(fault)),
    }
}

// Shows what is new at a desk that is settled, and forgets its letters.
fn show_and_renew<'a, S: Source, K: Sink, N: Net, F: Folder, P: Papers, C: Clock>(
    alloc: Global,
    ledger: &mut Ledger<F::File>,
    around: &mut Around<S, K, N, F, P, C>,
) -> Result<WordEnd, Trouble<'a>>
    ensures done { IfOk result (λ end. OnceBack F.File.disk ledger.old
        (scene K.seen N.seen F.calls around.old) (λ old. ForgetsLetters F.File.disk end old
        (scene K.seen N.seen F.calls around.new))) }
    ensures undone { IfErr result IsUndone }
    ensures met { result ≡ Ok WordEnd.Met
        → Prints TellsMet (K.seen around.old.out).written (K.seen around.new.out).written }
    ensures sink { Unfailed (K.seen around.old.out).faults (K.seen around.new.out).faults result }
    ensures net { around.new.net ≡ around.old.net }
    ensures steps { FolderStepsOn F.File.disk F.File.Counted.seen
        (F.calls around.old.folder) (F.calls around.new.folder) }
{
    let shown = show_new(alloc, ledger, &mut around.out)?;
    renew(ledger, &mut around.folder)?;
    say(
        &mut around.out,
        "the letters are forgotten; boxes and cards stay as they are\n",
    )?;
    Ok(end_by(shown.met))
}

/// The word `forget`: forgets letters and old requests, once each letter was shown. What is left to be done at the desk
/// isn't begun, so that a full desk can be emptied too; it waits.
pub(crate) fn forget<'a, S: Source, K: Sink, N: Net, F: Folder, P: Papers, C: Clock>(
    alloc: Global,
    around: &mut Around<S, K, N, F, P, C>,
) -> Result<WordEnd, Trouble<'a>>
    ensures done { IfOk result (Between K.seen N.seen F.calls around.old around.new
        (ForgetsLetters F.File.disk)) }
    ensures undone { IfErr result IsUndone }
    ensures met { result ≡ Ok WordEnd.Met
        → Prints TellsMet (K.seen around.old.out).written (K.seen around.new.out).written }
    ensures sink { Unfailed (K.seen around.old.out).faults (K.seen around.new.out).faults result }
    ensures net { Unfailed (N.seen around.old.net).faults (N.seen around.new.net).faults result }
    ensures sends { SendsOn F.File.disk F.File.Counted.seen
        (N.seen around.old.net).calls (N.seen around.new.net).calls }
    ensures steps { FolderStepsOn F.File.disk F.File.Counted.seen
        (F.calls around.old.folder) (F.calls around.new.folder) }
{
    let mut ledger = desk_settled(alloc, around)?;
    let end = show_and_renew(alloc, &mut ledger, around);
    drop(ledger);
    end
}
