//! What stands at the places of letters on their way.
ghost use Rattle.std.specs.Prelude.{◌≡◌, IfErr, IfOk};
ghost use Rattle.desk_around.specs.Ends.{IsCause};
ghost use Rattle.desk_steps.specs.Finding.{Holds, IsAt, is_taken};
ghost use Rattle.desk_steps.specs.Folder.{FolderStepsOn};

use crate::files::{is_there, open_file};
use desk_around::{Trouble, unnoted};
use desk_outside::{DeskFile, Folder, Slot};
use kept_letter::KeptLetter;
use kept_machine::{KeepFault, Kept};
use node_journal::{Disk, JournalFault};
use std::alloc::Global;

/// A letter's journal takes at most so many bytes of the disk: more than its tries can note.
pub const LETTER_LIMIT: u64 = 67_108_864;

/// What stands at a place.
#[derive(Drop)]
pub enum Found<D: Disk> {
    /// Nothing.
    Nothing,
    /// A letter on its way, as it stood.
    Letter(Kept<KeptLetter, D>),
    /// Something that can't be read.
    Unreadable,
}

/// Whether something stands at the place.
pub fn is_taken<D: Disk>(found: &Found<D>) -> bool
    ensures { result ≡ is_taken found.now }
{
    !matches!(found, Found::Nothing)
}

// What this disk holds.
fn held_on<'a, D: Disk + Drop>(alloc: Global, disk: D) -> Result<Found<D>, Trouble<'a>>
    ensures holds { IfOk result (Holds (D.disk disk).reads) }
    ensures cause { IfErr result IsCause }
{
    match Kept::reopen(alloc, disk, LETTER_LIMIT) {
        Ok(letter) => Ok(Found::Letter(letter)),
        Err((KeepFault::Foreign(_), _)) => Ok(Found::Unreadable),
        Err((KeepFault::Journal(JournalFault::Damaged(_)), _)) => Ok(Found::Unreadable),
        Err((fault, _)) => Err(unnoted(fault)),
    }
}

/// What stands at this place, to be worked on.
pub fn open_at<'a, F: Folder>(
    alloc: Global,
    folder: &mut F,
    slot: Slot,
) -> Result<Found<F::File>, Trouble<'a>>
    ensures found { IfOk result (IsAt F.File.disk slot (F.calls folder.old) (F.calls folder.new)) }
    ensures cause { IfErr result IsCause }
    ensures steps { FolderStepsOn F.File.disk F.File.Counted.seen (F.calls folder.old) (F.calls folder.new) }
{
    let file = DeskFile::Outbox(slot);
    if !is_there(folder, file)? {
        return Ok(Found::Nothing);
    }
    let disk = open_file(folder, file)?;
    held_on(alloc, disk)
}
