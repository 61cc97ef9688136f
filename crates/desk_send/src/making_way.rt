//! Earlier letters with the same card.
ghost use Rattle.std.specs.Prelude.{◌≡◌, OnOk, IfErr};
ghost use Rattle.desk_around.specs.Ends.{IsUndone, Unfailed};
ghost use Rattle.desk_around.specs.Scenes.{Between, scene};
ghost use Rattle.desk_steps.specs.Folder.{FolderStepsOn};
ghost use Rattle.desk_steps.specs.Net.{SendsOn};
ghost use Rattle.desk_send.specs.Ends.{IfUntold};
ghost use Rattle.desk_send.specs.MakingWay.{HoldsOpen, MakesWay, MakesWayAt, MakesWayInPart};

use crate::finishing::finish;
use crate::placed::OnItsWay;
use crate::same_letter::has_card;
use desk_around::{Around, Trouble};
use desk_outside::{Clock, Folder, MOST_LETTERS, Papers, Slot};
use desk_sheets::Card;
use desk_steps::{Found, open_at};
use express_words::outside::{Net, Sink, Source};
use std::alloc::Global;

/// Whose letter it is.
const EARLIER: &str = "your earlier letter ";

// Works the letter at this place off, where it goes out with this card, and tells what became of it.
fn make_way_at<'a, S: Source, K: Sink, N: Net, F: Folder, P: Papers, C: Clock>(
    alloc: Global,
    slot: Slot,
    card: &Card,
    around: &mut Around<S, K, N, F, P, C>,
) -> Result<(), Trouble<'a>>
    ensures made { OnOk result (MakesWayAt F.File.disk F.File.Counted.seen card.now slot
        (scene K.seen N.seen F.calls around.old) (scene K.seen N.seen F.calls around.new)) }
    ensures undone { IfErr result IsUndone }
    ensures holds { IfErr result (Between K.seen N.seen F.calls around.old around.new
        (HoldsOpen F.File.disk F.File.Counted.seen slot)) }
    ensures untold { IfErr result (λ t. IfUntold F.File.disk (F.calls around.new.folder) t) }
    ensures input { around.new.input ≡ around.old.input }
    ensures sink { Unfailed (K.seen around.old.out).faults (K.seen around.new.out).faults result }
    ensures net { Unfailed (N.seen around.old.net).faults (N.seen around.new.net).faults result }
    ensures sends { SendsOn F.File.disk F.File.Counted.seen
        (N.seen around.old.net).calls (N.seen around.new.net).calls }
    ensures steps { FolderStepsOn F.File.disk F.File.Counted.seen
        (F.calls around.old.folder) (F.calls around.new.folder) }
{
    match open_at(alloc, &mut around.folder, slot)? {
        Found::Letter(letter) if has_card(&letter, card) => {
            finish(alloc, EARLIER, OnItsWay { slot, letter }, around)?;
            Ok(())
        }
        Found::Letter(_) => Ok(()),
        Found::Nothing => Ok(()),
        Found::Unreadable => Err(Trouble::BadLetter(slot)),
    }
}

/// Works the letters off that are on their way with this card, one after another, and tells what became of
/// each. Letters with other cards are left alone.
pub(crate) fn make_way<'a, S: Source, K: Sink, N: Net, F: Folder, P: Papers, C: Clock>(
    alloc: Global,
    card: &Card,
    around: &mut Around<S, K, N, F, P, C>,
) -> Result<(), Trouble<'a>>
    ensures made { OnOk result (MakesWay F.File.disk F.File.Counted.seen card.now
        (scene K.seen N.seen F.calls around.old) (scene K.seen N.seen F.calls around.new)) }
    ensures undone { IfErr result IsUndone }
    ensures in_part { IfErr result (Between K.seen N.seen F.calls around.old around.new
        (MakesWayInPart F.File.disk F.File.Counted.seen card.now)) }
    ensures untold { IfErr result (λ t. IfUntold F.File.disk (F.calls around.new.folder) t) }
    ensures input { around.new.input ≡ around.old.input }
    ensures sink { Unfailed (K.seen around.old.out).faults (K.seen around.new.out).faults result }
    ensures net { Unfailed (N.seen around.old.net).faults (N.seen around.new.net).faults result }
    ensures sends { SendsOn F.File.disk F.File.Counted.seen
        (N.seen around.old.net).calls (N.seen around.new.net).calls }
    ensures steps { FolderStepsOn F.File.disk F.File.Counted.seen
        (F.calls around.old.folder) (F.calls around.new.folder) }
{
    'places: for number in 0..MOST_LETTERS {
        make_way_at(alloc, Slot { number }, card, around)?;
    }
    Ok(())
}
