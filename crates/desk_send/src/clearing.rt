//! What a stop left of letters that weren't put in place.
ghost use Rattle.std.specs.Prelude.{IfErr, OnOk};
ghost use Rattle.desk_around.specs.Ends.{IsCause};
ghost use Rattle.desk_steps.specs.Folder.{FolderStepsOn};
ghost use Rattle.desk_send.specs.Clearing.{Clears, ClearsOne};

use desk_around::Trouble;
use desk_outside::{DeskFile, Folder, MOST_LETTERS, Slot};

// Removes what a stop left of a letter at this place: it wasn't put in place, so nothing went out of it.
fn clear_one<'a, F: Folder>(folder: &mut F, slot: Slot) -> Result<(), Trouble<'a>>
    ensures cleared { OnOk result (ClearsOne (F.calls folder.old) slot.number (F.calls folder.new)) }
    ensures cause { IfErr result IsCause }
    ensures steps { FolderStepsOn F.File.disk F.File.Counted.seen (F.calls folder.old) (F.calls folder.new) }
{
    let file = DeskFile::NextOutbox(slot);
    match folder.is_there(file) {
        Ok(false) => Ok(()),
        Ok(true) => match folder.remove(file) {
            Ok(()) => Ok(()),
            Err(_) => Err(Trouble::Folder),
        },
        Err(fault) => Err(Trouble::File(file, fault)),
    }
}

/// Removes all that a stop left of letters that weren't put in place. A trouble where the folder fails; a
/// letter that is in its place stays there.
pub fn clear_all<'a, F: Folder>(folder: &mut F) -> Result<(), Trouble<'a>>
    ensures cleared { OnOk result (Clears (F.calls folder.old) 8 (F.calls folder.new)) }
    ensures cause { IfErr result IsCause }
    ensures steps { FolderStepsOn F.File.disk F.File.Counted.seen (F.calls folder.old) (F.calls folder.new) }
{
    'places: for number in 0..MOST_LETTERS {
        clear_one(folder, Slot { number })?;
    }
    Ok(())
}
