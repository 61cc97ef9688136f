//! The word `letters`.
ghost use Rattle.std.specs.Prelude.{◌≡◌, ◌≢◌, [], IfErr, IfOk, IfSome, None, Ok, OnOk, Some, false, true};
ghost use Rattle.std.specs.List.{list_any};
ghost use Rattle.desk_ledger.specs.Tags.{tag_of};
ghost use Rattle.desk_run.specs.Carried.{OnceResumed};
ghost use Rattle.desk_run.specs.Changes.{NotesTold};
ghost use Rattle.desk_run.specs.Ends.{IsUndone, Unfailed};
ghost use Rattle.desk_run.specs.Sends.{SendsOn};
ghost use Rattle.desk_run.specs.Printing.{Prints, TellsMet};
ghost use Rattle.desk_run.specs.Scenes.{Between, scene};
ghost use Rattle.desk_run.specs.Shown.{is_met};
ghost use Rattle.desk_run.specs.Told.{TellsEach, told_of};
ghost use Rattle.desk_run.specs.Words.{FetchesLetters};
ghost use Rattle.desk_run.specs.Works.{DoesTask, ReadsLive};
ghost use Rattle.desk_run.specs.FolderSteps.{FolderStepsOn};

use crate::around::Around;
use crate::carrying::do_task;
use crate::ending::{WordEnd, end_by};
use crate::resuming::desk_resumed;
use crate::saying::say;
use crate::showing::{ShownLetters, show_new};
use crate::trouble::Trouble;
use crate::writing::write_letters;
use desk_ledger::{Ledger, Task};
use desk_outside::{Clock, Folder, Papers};
use express_words::Refusal;
use express_words::outside::{Net, Sink, Source};
use node_journal::Disk;
use std::alloc::Global;

// Reads a box. A refusal of the servers is given.
fn read_one<'a, D: Disk, N: Net, C: Clock>(
    ledger: &mut Ledger<D>,
    own: u32,
    net: &mut N,
    clock: &mut C,
) -> Result<Option<Refusal>, Trouble<'a>>
    ensures reads { IfOk result (λ refused.
        DoesTask (Task.Read own) refused ledger.old ledger.new (N.seen net.old).calls (N.seen net.new).calls) }
    ensures undone { IfErr result IsUndone }
    ensures net { Unfailed (N.seen net.old).faults (N.seen net.new).faults result }
    ensures sends { SendsOn D.disk D.Counted.seen (N.seen net.old).calls (N.seen net.new).calls }
{
    match do_task(ledger, Task::Read(own), net, clock) {
        Ok(()) => Ok(None),
        Err(Trouble::Refused(refusal)) => Ok(Some(refusal)),
        Err(trouble) => Err(trouble),
    }
}

// The last refusal of two.
fn last_of(answer: Option<Refusal>, before: Option<Refusal>) -> Option<Refusal>
    ensures none { result ≡ None → (answer ≡ None) × (before ≡ None) }
    ensures some { IfSome answer (λ refusal. result ≡ Some refusal) }
{
    match answer {
        Some(_) => answer,
        None => before,
    }
}

// Reads each live box once, also behind one whose read was refused.
fn fetch<'a, D: Disk, N: Net, C: Clock>(
    ledger: &mut Ledger<D>,
    net: &mut N,
    clock: &mut C,
) -> Result<(), Trouble<'a>>
    ensures reads { OnOk result
        (ReadsLive ledger.old ledger.new (N.seen net.old).calls (N.seen net.new).calls) }
    ensures undone { IfErr result IsUndone }
    ensures net { Unfailed (N.seen net.old).faults (N.seen net.new).faults result }
    ensures sends { SendsOn D.disk D.Counted.seen (N.seen net.old).calls (N.seen net.new).calls }
{
    let live = ledger.live()?;
    let mut refused = None;
    'boxes: for own in live.iter() {
        let answer = read_one(ledger, *own, net, clock)?;
        refused = last_of(answer, refused);
    }
    match refused {
        Some(refusal) => Err(Trouble::Refused(refusal)),
        None => Ok(()),
    }
}

// Shows what is new, into a folder where one is named.
fn show<'a, S: Source, K: Sink, N: Net, F: Folder, P: Papers, C: Clock>(
    alloc: Global,
    folder: Option<&'a str>,
    ledger: &mut Ledger<F::File>,
    around: &mut Around<S, K, N, F, P, C>,
) -> Result<ShownLetters, Trouble<'a>>
    ensures told { OnOk result (Prints (TellsEach folder.entry (tag_of ledger.old.client.opening.seed) ledger.old.entries)
        (K.seen around.old.out).written (K.seen around.new.out).written) }
    ensures none { IfOk result (λ shown. shown.any ≡ false → told_of folder.entry ledger.old.entries ≡ []) }
    ensures some { IfOk result (λ shown. shown.any ≡ true → told_of folder.entry ledger.old.entries ≢ []) }
    ensures met { IfOk result (λ shown.
        shown.met ≡ list_any is_met (told_of folder.entry ledger.old.entries)) }
    ensures tells { IfOk result (λ shown. shown.met ≡ true
        → Prints TellsMet (K.seen around.old.out).written (K.seen around.new.out).written) }
    ensures notes { OnOk result (NotesTold folder.entry ledger.old ledger.new) }
    ensures undone { IfErr result IsUndone }
    ensures sink { Unfailed (K.seen around.old.out).faults (K.seen around.new.out).faults result }
    ensures net { around.new.net ≡ around.old.net }
    ensures folder { around.new.folder ≡ around.old.folder }
    ensures steps { FolderStepsOn F.File.disk F.File.Counted.seen
        (F.calls around.old.folder) (F.calls around.new.folder) }
{
    match folder {
        None => show_new(alloc, ledger, &mut around.out),
        Some(folder) => write_letters(alloc, folder, ledger, &mut around.papers, &mut around.out),
    }
}

// Reads each box of a desk that was resumed, and shows the letters that came.
fn fetch_and_show<'a, S: Source, K: Sink, N: Net, F: Folder, P: Papers, C: Clock>(
    alloc: Global,
    folder: Option<&'a str>,
    ledger: &mut Ledger<F::File>,
    around: &mut Around<S, K, N, F, P, C>,
) -> Result<WordEnd, Trouble<'a>>
    ensures done { IfOk result (λ end. OnceResumed F.File.disk ledger.old
        (scene K.seen N.seen F.calls around.old) (λ old. FetchesLetters F.File.disk folder.entry end old
        (scene K.seen N.seen F.calls around.new))) }
    ensures undone { IfErr result IsUndone }
    ensures met { result ≡ Ok WordEnd.Met
        → Prints TellsMet (K.seen around.old.out).written (K.seen around.new.out).written }
    ensures sink { Unfailed (K.seen around.old.out).faults (K.seen around.new.out).faults result }
    ensures net { Unfailed (N.seen around.old.net).faults (N.seen around.new.net).faults result }
    ensures sends { SendsOn F.File.disk F.File.Counted.seen
        (N.seen around.old.net).calls (N.seen around.new.net).calls }
    ensures steps { FolderStepsOn F.File.disk F.File.Counted.seen
        (F.calls around.old.folder) (F.calls around.new.folder) }
{
    let fetched = fetch(ledger, &mut around.net, &mut around.clock);
    let shown = show(alloc, folder, ledger, around)?;
    fetched?;
    if !shown.any {
        say(&mut around.out, "no new letters\n")?;
        return Ok(WordEnd::Done);
    }
    Ok(end_by(shown.met))
}

/// The word `letters`: reads each box, and shows the letters that came, also where not every box could be read.
pub(crate) fn letters<'a, S: Source, K: Sink, N: Net, F: Folder, P: Papers, C: Clock>(
    alloc: Global,
    folder: Option<&'a str>,
    around: &mut Around<S, K, N, F, P, C>,
) -> Result<WordEnd, Trouble<'a>>
    ensures done { IfOk result (Between K.seen N.seen F.calls around.old around.new
        (FetchesLetters F.File.disk folder.entry)) }
    ensures undone { IfErr result IsUndone }
    ensures met { result ≡ Ok WordEnd.Met
        → Prints TellsMet (K.seen around.old.out).written (K.seen around.new.out).written }
    ensures sink { Unfailed (K.seen around.old.out).faults (K.seen around.new.out).faults result }
    ensures net { Unfailed (N.seen around.old.net).faults (N.seen around.new.net).faults result }
    ensures sends { SendsOn F.File.disk F.File.Counted.seen
        (N.seen around.old.net).calls (N.seen around.new.net).calls }
    ensures steps { FolderStepsOn F.File.disk F.File.Counted.seen
        (F.calls around.old.folder) (F.calls around.new.folder) }
{
    let mut ledger = desk_resumed(alloc, around)?;
    let end = fetch_and_show(alloc, folder, &mut ledger, around);
    drop(ledger);
    end
}
