//! The folder, taken.
ghost use Rattle.std.specs.Prelude.{◌≡◌, ◌⊎◌, IfErr, OnOk, Some};
ghost use Rattle.desk_outside.specs.Calls.{Adds, Held};
ghost use Rattle.desk_run.specs.Ends.{IsUndone, status_by};
ghost use Rattle.desk_run.specs.Holds.{Clears, ClearsOne, IsTaken};
ghost use Rattle.desk_run.specs.FolderSteps.{FolderStepsOn};

use crate::trouble::Trouble;
use desk_outside::{DeskFile, Folder, Hold, MOST_LETTERS, Slot};
use desk_words::{Asked, DeskTask};

// A folder that is a copy does nothing but `adopt`.
fn copied<'a>(task: DeskTask<'_>) -> Result<(), Trouble<'a>>
    ensures adopts { OnOk result (task.entry ≡ DeskTask.Adopt) }
    ensures undone { IfErr result IsUndone }
{
    match task {
        DeskTask::Adopt => Ok(()),
        _ => Err(Trouble::Copied),
    }
}

/// Takes the folder for this process alone.
#[tactic(auto, using(crate::proofs::StepLaws::on_gentle))]
pub(crate) fn hold<'a, F: Folder>(asked: &Asked<'a>, folder: &mut F) -> Result<(), Trouble<'a>>
    ensures in_use { IfErr result (λ t. status_by t ≡ 4
        → Adds (F.calls folder.old) (F.calls folder.new) (Held (Some Hold.InUse))) }
    ensures held { OnOk result (IsTaken (F.calls folder.old) (F.calls folder.new) asked.now.task) }
    ensures trouble { IfErr result (λ t. (status_by t ≡ 1) ⊎ (status_by t ≡ 4)) }
    ensures steps { FolderStepsOn F.File.disk F.File.Counted.seen (F.calls folder.old) (F.calls folder.new) }
{
    match folder.hold() {
        Ok(Hold::Held) => Ok(()),
        Ok(Hold::Copied) => copied(asked.task),
        Ok(Hold::InUse) => Err(Trouble::InUse),
        Err(fault) => Err(Trouble::Home(asked.folder, fault)),
    }
}

// Removes what a stop left of a try at this place: it wasn't put in place, so nothing went out of it.
#[tactic(auto, using(crate::proofs::StepLaws::on_gentle))]
fn clear_one<'a, F: Folder>(folder: &mut F, slot: Slot) -> Result<(), Trouble<'a>>
    ensures cleared { OnOk result (ClearsOne (F.calls folder.old) slot.number (F.calls folder.new)) }
    ensures undone { IfErr result IsUndone }
    ensures steps { FolderStepsOn F.File.disk F.File.Counted.seen (F.calls folder.old) (F.calls folder.new) }
{
    let file = DeskFile::NextOutbox(slot);
    match folder.is_there(file) {
        Ok(false) => Ok(()),
        Ok(true) => match folder.remove(file) {
            Ok(()) => Ok(()),
            Err(_) => Err(Trouble::Folder),
        },
        Err(fault) => Err(Trouble::File(file, fault)),
    }
}

/// Removes all that a stop left of tries that weren't put in place.
pub(crate) fn clear_all<'a, F: Folder>(folder: &mut F) -> Result<(), Trouble<'a>>
    ensures cleared { OnOk result (Clears (F.calls folder.old) 8 (F.calls folder.new)) }
    ensures undone { IfErr result IsUndone }
    ensures steps { FolderStepsOn F.File.disk F.File.Counted.seen (F.calls folder.old) (F.calls folder.new) }
{
    'places: for number in 0..MOST_LETTERS {
        clear_one(folder, Slot { number })?;
    }
    Ok(())
}
