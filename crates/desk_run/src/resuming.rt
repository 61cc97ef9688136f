//! The word `resume`, and what every word does first.
ghost use Rattle.std.specs.Prelude.{◌≡◌, ◌≢◌, IfErr, IfOk, Ok};
ghost use Rattle.desk_run.specs.Carried.{ComesBack, Resumes, ResumesIf};
ghost use Rattle.desk_run.specs.Ends.{IsUndone, Unfailed};
ghost use Rattle.desk_run.specs.Resuming.{ResumesAll};
ghost use Rattle.desk_run.specs.Scenes.{Between, scene};
ghost use Rattle.desk_run.specs.Sends.{SendsOn};
ghost use Rattle.desk_run.specs.LetterEnds.{resume_end};
ghost use Rattle.desk_run.specs.FolderSteps.{FolderStepsOn};

use crate::around::Around;
use crate::carrying::{carry_on, settle};
use crate::ending::WordEnd;
use crate::ledgers::{desk_in, ledger_in};
use crate::resuming_letters::resume_letters;
use crate::saying::say;
use crate::trouble::Trouble;
use desk_draws::Draws;
use desk_ledger::Ledger;
use desk_outside::{Clock, Folder, Papers};
use express_words::outside::{Net, Sink, Source};
use std::alloc::Global;

// Carries on what is left to be done at the desk, and gives it; None where there is no desk.
fn resume_desk<'a, S: Source, K: Sink, N: Net, F: Folder, P: Papers, C: Clock>(
    alloc: Global,
    around: &mut Around<S, K, N, F, P, C>,
) -> Result<Option<Ledger<F::File>>, Trouble<'a>>
    ensures resumed { IfOk result (λ found. ResumesIf F.File.disk
        (scene K.seen N.seen F.calls around.old) (scene K.seen N.seen F.calls around.new) found) }
    ensures undone { IfErr result IsUndone }
    ensures out { around.new.out ≡ around.old.out }
    ensures net { Unfailed (N.seen around.old.net).faults (N.seen around.new.net).faults result }
    ensures sends { SendsOn F.File.disk F.File.Counted.seen
        (N.seen around.old.net).calls (N.seen around.new.net).calls }
    ensures steps { FolderStepsOn F.File.disk F.File.Counted.seen
        (F.calls around.old.folder) (F.calls around.new.folder) }
{
    let Some(mut ledger) = ledger_in(alloc, &mut around.folder)? else {
        return Ok(None);
    };
    match carry_on(&mut ledger, &mut around.net, &mut around.clock) {
        Ok(()) => Ok(Some(ledger)),
        Err(trouble) => {
            drop(ledger);
            Err(trouble)
        }
    }
}

/// The desk, once what was left to be done at it is carried on.
pub(crate) fn desk_resumed<'a, S: Source, K: Sink, N: Net, F: Folder, P: Papers, C: Clock>(
    alloc: Global,
    around: &mut Around<S, K, N, F, P, C>,
) -> Result<Ledger<F::File>, Trouble<'a>>
    ensures resumed { IfOk result (λ l. Resumes F.File.disk
        (scene K.seen N.seen F.calls around.old) (scene K.seen N.seen F.calls around.new) l) }
    ensures undone { IfErr result IsUndone }
    ensures out { around.new.out ≡ around.old.out }
    ensures net { Unfailed (N.seen around.old.net).faults (N.seen around.new.net).faults result }
    ensures sends { SendsOn F.File.disk F.File.Counted.seen
        (N.seen around.old.net).calls (N.seen around.new.net).calls }
    ensures steps { FolderStepsOn F.File.disk F.File.Counted.seen
        (F.calls around.old.folder) (F.calls around.new.folder) }
{
    match resume_desk(alloc, around)? {
        Some(ledger) => Ok(ledger),
        None => Err(Trouble::NoDesk),
    }
}

/// The desk, once the request that was under way is settled: what is left to be done waits.
pub(crate) fn desk_settled<'a, S: Source, K: Sink, N: Net, F: Folder, P: Papers, C: Clock>(
    alloc: Global,
    around: &mut Around<S, K, N, F, P, C>,
) -> Result<Ledger<F::File>, Trouble<'a>>
    ensures settled { IfOk result (λ l. ComesBack F.File.disk
        (scene K.seen N.seen F.calls around.old) (scene K.seen N.seen F.calls around.new) l) }
    ensures undone { IfErr result IsUndone }
    ensures out { around.new.out ≡ around.old.out }
    ensures net { Unfailed (N.seen around.old.net).faults (N.seen around.new.net).faults result }
    ensures sends { SendsOn F.File.disk F.File.Counted.seen
        (N.seen around.old.net).calls (N.seen around.new.net).calls }
    ensures steps { FolderStepsOn F.File.disk F.File.Counted.seen
        (F.calls around.old.folder) (F.calls around.new.folder) }
{
    let mut ledger = desk_in(alloc, &mut around.folder)?;
    match settle(&mut ledger, &mut around.net, &mut around.clock) {
        Ok(()) => Ok(ledger),
        Err(trouble) => {
            drop(ledger);
            Err(trouble)
        }
    }
}

// How the word ends, by whether all letters are written.
fn end_of(all_written: bool) -> WordEnd
    ensures { result ≡ resume_end all_written }
{
    if all_written {
        WordEnd::Done
    } else {
        WordEnd::NotWritten
    }
}

/// The word `resume`: finishes what is under way, letters, and then what is left to be done at the desk. A letter that
/// can't be worked off now doesn't hold the desk back.
#[tactic(auto, using(crate::proofs::StatusLaws::resume_not_met))]
pub(crate) fn resume<'a, S: Source, K: Sink, N: Net, F: Folder, P: Papers, C: Clock>(
    alloc: Global,
    draws: &mut Draws,
    around: &mut Around<S, K, N, F, P, C>,
) -> Result<WordEnd, Trouble<'a>>
    ensures done { IfOk result (Between K.seen N.seen F.calls around.old around.new
        (ResumesAll F.File.disk F.File.Counted.seen)) }
    ensures undone { IfErr result IsUndone }
    ensures not_met { result ≢ Ok WordEnd.Met }
    ensures sink { Unfailed (K.seen around.old.out).faults (K.seen around.new.out).faults result }
    ensures net { Unfailed (N.seen around.old.net).faults (N.seen around.new.net).faults result }
    ensures sends { SendsOn F.File.disk F.File.Counted.seen
        (N.seen around.old.net).calls (N.seen around.new.net).calls }
    ensures steps { FolderStepsOn F.File.disk F.File.Counted.seen
        (F.calls around.old.folder) (F.calls around.new.folder) }
{
    let letters = resume_letters(alloc, draws, around);
    drop(resume_desk(alloc, around)?);
    let all_written = letters?;
    say(&mut around.out, "nothing is under way any more\n")?;
    Ok(end_of(all_written))
}
