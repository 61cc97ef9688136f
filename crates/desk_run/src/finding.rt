//! What stands at the places of letters on their way.
ghost use Rattle.std.specs.Prelude.{◌≡◌, IfErr, IfOk, Some};
ghost use Rattle.desk_outside.specs.Calls.{Adds, Looked};
ghost use Rattle.desk_run.specs.Ends.{IsUndone};
ghost use Rattle.desk_run.specs.Finds.{Holds, IsAt, is_taken};
ghost use Rattle.desk_run.specs.FolderSteps.{FolderStepsOn};

use crate::trouble::Trouble;
use client_restart::KeepFault;
use desk_outbox::{Outbox, Reopened};
use desk_outside::{DeskFile, Folder, Slot};
use node_journal::{Disk, JournalFault};
use std::alloc::Global;

/// What stands at a place.
#[derive(Drop)]
pub(crate) enum Found<D: Disk> {
    /// Nothing, or nothing whole, of which nothing was sent.
    Nothing,
    /// A letter on its way, as it stood.
    Letter(Outbox<D>),
    /// Something that can't be read.
    Unreadable,
}

/// A letter on its way, and its place.
#[derive(Drop)]
pub(crate) struct OnItsWay<D: Disk> {
    pub(crate) slot: Slot,
    pub(crate) outbox: Outbox<D>,
}

/// Whether something stands at the place.
pub(crate) fn is_taken<D: Disk>(found: &Found<D>) -> bool
    ensures { result ≡ is_taken found.now }
{
    !matches!(found, Found::Nothing)
}

// What this disk holds.
fn held_on<'a, D: Disk + Drop>(alloc: Global, disk: D) -> Result<Found<D>, Trouble<'a>>
    ensures holds { IfOk result (Holds (D.disk disk).reads) }
    ensures undone { IfErr result IsUndone }
{
    match Outbox::reopen(alloc, disk) {
        Ok(Reopened::Whole(outbox)) => Ok(Found::Letter(outbox)),
        Ok(Reopened::Nothing(_)) => Ok(Found::Nothing),
        Err((KeepFault::Foreign(_), _)) => Ok(Found::Unreadable),
        Err((KeepFault::Journal(JournalFault::Damaged(_)), _)) => Ok(Found::Unreadable),
        Err((fault, _)) => Err(Trouble::from(fault)),
    }
}

// Whether there is a file at this place.
#[tactic(auto, using(crate::proofs::StepLaws::on_gentle))]
fn is_there<'a, F: Folder>(slot: Slot, folder: &mut F) -> Result<bool, Trouble<'a>>
    ensures looked { IfOk result (λ there.
        Adds (F.calls folder.old) (F.calls folder.new) (Looked (DeskFile.Outbox slot) (Some there))) }
    ensures undone { IfErr result IsUndone }
    ensures steps { FolderStepsOn F.File.disk F.File.Counted.seen (F.calls folder.old) (F.calls folder.new) }
{
    let file = DeskFile::Outbox(slot);
    match folder.is_there(file) {
        Ok(there) => Ok(there),
        Err(fault) => Err(Trouble::File(file, fault)),
    }
}

/// What stands at this place, to be worked on.
#[tactic(auto, using(crate::proofs::StepLaws::on_gentle))]
pub(crate) fn open_at<'a, F: Folder>(
    alloc: Global,
    slot: Slot,
    folder: &mut F,
) -> Result<Found<F::File>, Trouble<'a>>
    ensures found { IfOk result (IsAt F.File.disk slot (F.calls folder.old) (F.calls folder.new)) }
    ensures undone { IfErr result IsUndone }
    ensures steps { FolderStepsOn F.File.disk F.File.Counted.seen (F.calls folder.old) (F.calls folder.new) }
{
    if !is_there(slot, folder)? {
        return Ok(Found::Nothing);
    }
    match folder.open(DeskFile::Outbox(slot)) {
        Ok(disk) => held_on(alloc, disk),
        Err(_) => Err(Trouble::Folder),
    }
}
