//! Earlier letters with the same card.
ghost use Rattle.std.specs.Prelude.{OnOk, IfErr};
ghost use Rattle.desk_run.specs.Ends.{IsUndone, Unfailed};
ghost use Rattle.desk_run.specs.Leaving.{MakesWay, MakesWayAt};
ghost use Rattle.desk_run.specs.Scenes.{scene};
ghost use Rattle.desk_run.specs.Sends.{SendsOn};
ghost use Rattle.desk_run.specs.FolderSteps.{FolderStepsOn};

use crate::around::Around;
use crate::finding::{Found, OnItsWay, open_at};
use crate::outboxes::{finish, is_same_card};
use crate::trouble::Trouble;
use desk_draws::Draws;
use desk_outside::{Clock, Folder, MOST_LETTERS, Papers, Slot};
use desk_texts::Sheet;
use express_words::outside::{Net, Sink, Source};
use std::alloc::Global;

/// Whose letter it is.
const EARLIER: &str = "your earlier letter ";

// Works the letter at this place off, where it goes out with this card, and tells what became of it.
fn make_way_at<'a, S: Source, K: Sink, N: Net, F: Folder, P: Papers, C: Clock>(
    alloc: Global,
    slot: Slot,
    card: &Sheet,
    draws: &mut Draws,
    around: &mut Around<S, K, N, F, P, C>,
) -> Result<(), Trouble<'a>>
    ensures made { OnOk result (MakesWayAt F.File.disk F.File.Counted.seen card.now slot
        (scene K.seen N.seen F.calls around.old) (scene K.seen N.seen F.calls around.new)) }
    ensures undone { IfErr result IsUndone }
    ensures sink { Unfailed (K.seen around.old.out).faults (K.seen around.new.out).faults result }
    ensures net { Unfailed (N.seen around.old.net).faults (N.seen around.new.net).faults result }
    ensures sends { SendsOn F.File.disk F.File.Counted.seen
        (N.seen around.old.net).calls (N.seen around.new.net).calls }
    ensures steps { FolderStepsOn F.File.disk F.File.Counted.seen
        (F.calls around.old.folder) (F.calls around.new.folder) }
{
    match open_at(alloc, slot, &mut around.folder)? {
        Found::Letter(outbox) if is_same_card(outbox.card(), card) => {
            finish(alloc, EARLIER, OnItsWay { slot, outbox }, draws, around)?;
            Ok(())
        }
        Found::Letter(_) => Ok(()),
        Found::Nothing => Ok(()),
        Found::Unreadable => Err(Trouble::BadLetter(slot)),
    }
}

/// Works the letters off that are on their way with this card, one after another, and tells what became of each. Letters
/// with other cards are left alone.
pub(crate) fn make_way<'a, S: Source, K: Sink, N: Net, F: Folder, P: Papers, C: Clock>(
    alloc: Global,
    card: &Sheet,
    draws: &mut Draws,
    around: &mut Around<S, K, N, F, P, C>,
) -> Result<(), Trouble<'a>>
    ensures made { OnOk result (MakesWay F.File.disk F.File.Counted.seen card.now
        (scene K.seen N.seen F.calls around.old) (scene K.seen N.seen F.calls around.new)) }
    ensures undone { IfErr result IsUndone }
    ensures sink { Unfailed (K.seen around.old.out).faults (K.seen around.new.out).faults result }
    ensures net { Unfailed (N.seen around.old.net).faults (N.seen around.new.net).faults result }
    ensures sends { SendsOn F.File.disk F.File.Counted.seen
        (N.seen around.old.net).calls (N.seen around.new.net).calls }
    ensures steps { FolderStepsOn F.File.disk F.File.Counted.seen
        (F.calls around.old.folder) (F.calls around.new.folder) }
{
    'places: for number in 0..MOST_LETTERS {
        make_way_at(alloc, Slot { number }, card, draws, around)?;
    }
    Ok(())
}
