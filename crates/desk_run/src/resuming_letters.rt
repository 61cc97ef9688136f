//! Letters on their way, as `resume` works them off.
ghost use Rattle.std.specs.Prelude.{◌≡◌, ◌&&◌, Err, IfErr, IfOk, Ok};
ghost use Rattle.desk_run.specs.Ends.{IsUndone, Unfailed};
ghost use Rattle.desk_run.specs.LetterEnds.{is_written};
ghost use Rattle.desk_run.specs.Resuming.{Joins, ResumesAt, ResumesLetters};
ghost use Rattle.desk_run.specs.Scenes.{Between};
ghost use Rattle.desk_run.specs.Sends.{SendsOn};
ghost use Rattle.desk_run.specs.FolderSteps.{FolderStepsOn};

use crate::around::Around;
use crate::finding::{Found, OnItsWay, open_at};
use crate::outboxes::finish;
use crate::trouble::Trouble;
use desk_draws::Draws;
use desk_outside::{Clock, Folder, MOST_LETTERS, Papers, Slot};
use desk_tries::LetterEnd;
use express_words::outside::{Net, Sink, Source};
use std::alloc::Global;

/// Which letter it is.
const RESUMED: &str = "the letter that was on its way, ";

fn is_written(end: LetterEnd) -> bool
    ensures { result ≡ is_written end }
{
    matches!(end, LetterEnd::Written)
}

// Works the letter at this place off, and tells what became of it: whether it is written. True where there is none.
fn resume_at<'a, S: Source, K: Sink, N: Net, F: Folder, P: Papers, C: Clock>(
    alloc: Global,
    slot: Slot,
    draws: &mut Draws,
    around: &mut Around<S, K, N, F, P, C>,
) -> Result<bool, Trouble<'a>>
    ensures resumed { IfOk result (Between K.seen N.seen F.calls around.old around.new
        (ResumesAt F.File.disk F.File.Counted.seen slot)) }
    ensures undone { IfErr result IsUndone }
    ensures sink { Unfailed (K.seen around.old.out).faults (K.seen around.new.out).faults result }
    ensures net { Unfailed (N.seen around.old.net).faults (N.seen around.new.net).faults result }
    ensures sends { SendsOn F.File.disk F.File.Counted.seen
        (N.seen around.old.net).calls (N.seen around.new.net).calls }
    ensures steps { FolderStepsOn F.File.disk F.File.Counted.seen
        (F.calls around.old.folder) (F.calls around.new.folder) }
{
    match open_at(alloc, slot, &mut around.folder)? {
        Found::Nothing => Ok(true),
        Found::Letter(outbox) => {
            let end = finish(alloc, RESUMED, OnItsWay { slot, outbox }, draws, around)?;
            Ok(is_written(end))
        }
        Found::Unreadable => Err(Trouble::BadLetter(slot)),
    }
}

// Whether all letters are written, of those before and of one more; the last trouble, where there was one.
fn joined<'a>(
    before: Result<bool, Trouble<'a>>,
    next: Result<bool, Trouble<'a>>,
) -> Result<bool, Trouble<'a>>
    requires before { IfErr before IsUndone }
    requires next { IfErr next IsUndone }
    ensures joins { IfOk result (Joins before.entry next.entry) }
    ensures undone { IfErr result IsUndone }
{
    match (before, next) {
        (_, Err(trouble)) => Err(trouble),
        (Err(trouble), Ok(_)) => Err(trouble),
        (Ok(before), Ok(next)) => Ok(before && next),
    }
}

/// Works the letters off that are on their way, one after another, and tells what became of each: whether all of them are
/// written. One that can't be worked off now holds none of the others back; the last such trouble is told then.
pub(crate) fn resume_letters<'a, S: Source, K: Sink, N: Net, F: Folder, P: Papers, C: Clock>(
    alloc: Global,
    draws: &mut Draws,
    around: &mut Around<S, K, N, F, P, C>,
) -> Result<bool, Trouble<'a>>
    ensures resumed { IfOk result (Between K.seen N.seen F.calls around.old around.new
        (ResumesLetters F.File.disk F.File.Counted.seen)) }
    ensures undone { IfErr result IsUndone }
    ensures sink { Unfailed (K.seen around.old.out).faults (K.seen around.new.out).faults result }
    ensures net { Unfailed (N.seen around.old.net).faults (N.seen around.new.net).faults result }
    ensures sends { SendsOn F.File.disk F.File.Counted.seen
        (N.seen around.old.net).calls (N.seen around.new.net).calls }
    ensures steps { FolderStepsOn F.File.disk F.File.Counted.seen
        (F.calls around.old.folder) (F.calls around.new.folder) }
{
    let mut all = Ok(true);
    'places: for number in 0..MOST_LETTERS {
        let next = resume_at(alloc, Slot { number }, draws, around);
        all = joined(all, next);
    }
    all
}
