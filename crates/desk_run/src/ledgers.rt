//! The ledger of a desk's folder.
ghost use Rattle.std.specs.Prelude.{◌≡◌, ◌↔◌, IfErr, IfOk, IsTrue, OnOk, is_err};
ghost use Rattle.desk_outside.specs.Calls.{Adds, Placed};
ghost use Rattle.desk_run.specs.Changes.{MakesFile};
ghost use Rattle.desk_run.specs.Ends.{IsUndone};
ghost use Rattle.desk_run.specs.Opens.{Finds, Opens};
ghost use Rattle.desk_run.specs.Rooms.{IsFull, IsNearlyFull};
ghost use Rattle.desk_run.specs.Standings.{hundredths};
ghost use Rattle.desk_run.specs.FolderSteps.{FolderStepsOn, IsNext, IsNextLedger};

use crate::trouble::Trouble;
use desk_ledger::{Ledger, OpenFault};
use desk_outside::{DeskFile, Folder};
use node_journal::Disk;
use std::alloc::Global;

/// A ledger takes at most so many bytes of the disk.
pub(crate) const LIMIT: u64 = 268_435_456;

/// So many of them are kept for what is under way, once nothing new is begun.
const RESERVE: u64 = 1_048_576;

/// Whether nothing new is to be begun in a ledger that takes so many bytes.
pub(crate) fn is_full(used: u64) -> bool
    ensures { IsTrue result ↔ IsFull used }
{
    used > LIMIT - RESERVE
}

/// The same of what is begun with a note, and takes as much once more to be carried out: 64 boxes at the most.
pub(crate) fn is_nearly_full(used: u64) -> bool
    ensures { IsTrue result ↔ IsNearlyFull used }
{
    used > LIMIT - 2 * RESERVE
}

/// Refuses to note what there is no room to carry out.
pub(crate) fn check_room<'a, D: Disk>(ledger: &Ledger<D>) -> Result<(), Trouble<'a>>
    ensures room { OnOk result (IsNearlyFull ledger.now.client.journal.end → ⊥) }
    ensures full { IfErr result (λ t. (t ≡ Trouble.Full) × IsNearlyFull ledger.now.client.journal.end) }
{
    if is_nearly_full(ledger.used()) {
        Err(Trouble::Full)
    } else {
        Ok(())
    }
}

/// How many hundredths of its room a ledger takes.
pub(crate) fn hundredths(used: u64) -> u64
    ensures { result ≡ hundredths used }
{
    used.min(LIMIT) * 100 / LIMIT
}

// What is told where a ledger isn't opened.
pub(crate) fn trouble_of<'a>(fault: OpenFault) -> Trouble<'a>
    ensures { IsUndone result }
{
    match fault {
        OpenFault::Keep(fault) => Trouble::from(fault),
        OpenFault::BadLine(_) | OpenFault::NoPairFile => Trouble::Damaged,
        OpenFault::NoPair | OpenFault::NoEntry(_) | OpenFault::TooLong => Trouble::Damaged,
    }
}

/// The ledger of the folder, as it was; None where there is none.
#[tactic(auto, using(crate::proofs::StepLaws::on_gentle))]
pub(crate) fn ledger_in<'a, F: Folder>(
    alloc: Global,
    folder: &mut F,
) -> Result<Option<Ledger<F::File>>, Trouble<'a>>
    ensures told { IfOk result (λ found. Finds F.File.disk (F.calls folder.old) (F.calls folder.new) found) }
    ensures undone { IfErr result IsUndone }
    ensures steps { FolderStepsOn F.File.disk F.File.Counted.seen (F.calls folder.old) (F.calls folder.new) }
{
    match folder.is_there(DeskFile::Ledger) {
        Ok(true) => {}
        Ok(false) => return Ok(None),
        Err(fault) => return Err(Trouble::File(DeskFile::Ledger, fault)),
    }
    let Ok(disk) = folder.open(DeskFile::Ledger) else {
        return Err(Trouble::Folder);
    };
    match Ledger::reopen(alloc, disk, LIMIT) {
        Ok(ledger) => Ok(Some(ledger)),
        Err((fault, _)) => Err(trouble_of(fault)),
    }
}

/// The ledger of the folder, where there is one.
pub(crate) fn desk_in<'a, F: Folder>(
    alloc: Global,
    folder: &mut F,
) -> Result<Ledger<F::File>, Trouble<'a>>
    ensures opens { IfOk result (λ l. Opens F.File.disk (F.calls folder.old) (F.calls folder.new) l) }
    ensures undone { IfErr result IsUndone }
    ensures steps { FolderStepsOn F.File.disk F.File.Counted.seen (F.calls folder.old) (F.calls folder.new) }
{
    match ledger_in(alloc, folder)? {
        Some(ledger) => Ok(ledger),
        None => Err(Trouble::NoDesk),
    }
}

/// An empty file for what is to be put in the place of another one. What was left there goes, for nothing went out of
/// it.
#[tactic(auto, using(crate::proofs::StepLaws::on_gentle))]
pub(crate) fn empty_file<'a, F: Folder>(
    folder: &mut F,
    next: DeskFile,
) -> Result<F::File, Trouble<'a>>
    requires next { IsNext next }
    ensures made { IfOk result (λ disk. MakesFile next disk (F.calls folder.old) (F.calls folder.new)) }
    ensures undone { IfErr result IsUndone }
    ensures steps { FolderStepsOn F.File.disk F.File.Counted.seen (F.calls folder.old) (F.calls folder.new) }
{
    if folder.remove(next).is_err() {
        return Err(Trouble::Folder);
    }
    match folder.open(next) {
        Ok(disk) => Ok(disk),
        Err(_) => Err(Trouble::Folder),
    }
}

/// Puts a ledger that was made in the place of the folder's.
pub(crate) fn put_ledger<'a, F: Folder>(
    next: &Ledger<F::File>,
    folder: &mut F,
) -> Result<(), Trouble<'a>>
    requires next { IsNextLedger next.now }
    ensures placed { Adds (F.calls folder.old) (F.calls folder.new)
        (Placed DeskFile.NextLedger DeskFile.Ledger (is_err result)) }
    ensures undone { IfErr result IsUndone }
    ensures steps { FolderStepsOn F.File.disk F.File.Counted.seen (F.calls folder.old) (F.calls folder.new) }
{
    match folder.put_in_place(DeskFile::NextLedger, DeskFile::Ledger) {
        Ok(()) => Ok(()),
        Err(_) => Err(Trouble::Folder),
    }
}
