//! Letters on their way, as `resume` works them off.
ghost use Rattle.std.specs.Prelude.{◌≡◌, IfErr};
ghost use Rattle.desk_around.specs.Ends.{IsUndone, Unfailed};
ghost use Rattle.desk_around.specs.Scenes.{Between};
ghost use Rattle.desk_steps.specs.Folder.{FolderStepsOn};
ghost use Rattle.desk_steps.specs.Net.{SendsOn};
ghost use Rattle.desk_send.specs.Ends.{is_written};
ghost use Rattle.desk_send.specs.Resuming.{ResumesAt, ResumesLetters, joined};

use crate::finishing::finish;
use crate::placed::OnItsWay;
use desk_around::{Around, Trouble};
use desk_outside::{Clock, Folder, MOST_LETTERS, Papers, Slot};
use desk_steps::{Found, open_at};
use express_words::outside::{Net, Sink, Source};
use letter_copies::LetterEnd;
use std::alloc::Global;

/// Which letter it is.
const RESUMED: &str = "the letter that was on its way, ";

fn is_written(end: LetterEnd) -> bool
    ensures { result ≡ is_written end }
{
    matches!(end, LetterEnd::Written)
}

// Works the letter at this place off, and tells what became of it: whether it is written. True where there
// is none.
fn resume_at<'a, S: Source, K: Sink, N: Net, F: Folder, P: Papers, C: Clock>(
    alloc: Global,
    slot: Slot,
    around: &mut Around<S, K, N, F, P, C>,
) -> Result<bool, Trouble<'a>>
    ensures resumed { Between K.seen N.seen F.calls around.old around.new
        (ResumesAt F.File.disk F.File.Counted.seen slot) result }
    ensures undone { IfErr result IsUndone }
    ensures sink { Unfailed (K.seen around.old.out).faults (K.seen around.new.out).faults result }
    ensures net { Unfailed (N.seen around.old.net).faults (N.seen around.new.net).faults result }
    ensures sends { SendsOn F.File.disk F.File.Counted.seen
        (N.seen around.old.net).calls (N.seen around.new.net).calls }
    ensures steps { FolderStepsOn F.File.disk F.File.Counted.seen
        (F.calls around.old.folder) (F.calls around.new.folder) }
{
    match open_at(alloc, &mut around.folder, slot)? {
        Found::Nothing => Ok(true),
        Found::Letter(letter) => {
            let end = finish(alloc, RESUMED, OnItsWay { slot, letter }, around)?;
            Ok(is_written(end))
        }
        Found::Unreadable => Err(Trouble::BadLetter(slot)),
    }
}

// Whether all letters are written, of those before and of one more; the last trouble, where there was one.
fn joined<'a>(
    before: Result<bool, Trouble<'a>>,
    next: Result<bool, Trouble<'a>>,
) -> Result<bool, Trouble<'a>>
    ensures { result ≡ joined before.entry next.entry }
{
    match (before, next) {
        (_, Err(trouble)) => Err(trouble),
        (Err(trouble), Ok(_)) => Err(trouble),
        (Ok(before), Ok(next)) => Ok(before && next),
    }
}

/// Works the letters off that are on their way, one after another, and tells what became of each: whether
/// all of them are written. One that can't be worked off now holds none of the others back; the last such
/// trouble is told then.
pub fn resume_letters<'a, S: Source, K: Sink, N: Net, F: Folder, P: Papers, C: Clock>(
    alloc: Global,
    around: &mut Around<S, K, N, F, P, C>,
) -> Result<bool, Trouble<'a>>
    ensures resumed { Between K.seen N.seen F.calls around.old around.new
        (ResumesLetters F.File.disk F.File.Counted.seen) result }
    ensures undone { IfErr result IsUndone }
    ensures sink { Unfailed (K.seen around.old.out).faults (K.seen around.new.out).faults result }
    ensures net { Unfailed (N.seen around.old.net).faults (N.seen around.new.net).faults result }
    ensures sends { SendsOn F.File.disk F.File.Counted.seen
        (N.seen around.old.net).calls (N.seen around.new.net).calls }
    ensures steps { FolderStepsOn F.File.disk F.File.Counted.seen
        (F.calls around.old.folder) (F.calls around.new.folder) }
{
    let mut all = Ok(true);
    'places: for number in 0..MOST_LETTERS {
        let next = resume_at(alloc, Slot { number }, around);
        all = joined(all, next);
    }
    all
}
