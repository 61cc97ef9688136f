//! A ledger that is made in a file of its own, and put in place.
ghost use Rattle.std.specs.Prelude.{◌≡◌, IfErr, IfOk, OnOk, false, is_err};
ghost use Rattle.desk_outside.specs.Calls.{Adds, Placed};
ghost use Rattle.kept_machine.specs.Keeps.{IsDurable, sight};
ghost use Rattle.kept_ledger.specs.Ledgers.{opened_ledger};
ghost use Rattle.kept_ledger.specs.Machines.{ledger_rules};
ghost use Rattle.kept_ledger.specs.Notes.{IsOpening, plain_opening};
ghost use Rattle.desk_around.specs.Ends.{IsCause};
ghost use Rattle.desk_steps.specs.Folder.{FolderStepsOn, IsNextLedger};
ghost use Rattle.owner_ledger.specs.Puts.{PutsLedger};

use crate::finding::LEDGER_LIMIT;
use desk_around::{Trouble, unnoted};
use desk_outside::{DeskFile, Folder};
use desk_steps::empty_file;
use kept_ledger::{KeptLedger, LedgerOpening};
use kept_machine::Kept;
use node_journal::{Disk, RECORD_MAX};
use std::alloc::Global;

/// A ledger with this opening, on a disk that is empty.
#[tactic(auto, using(crate::proofs::MakeLaws::is_record, crate::proofs::MakeLaws::opening_sized, crate::proofs::MakeLaws::opened))]
pub(crate) fn create<'a, D: Disk + Drop>(
    alloc: Global,
    opening: &LedgerOpening<'_>,
    disk: D,
) -> Result<Kept<KeptLedger, D>, Trouble<'a>>
    requires opening { IsOpening (plain_opening opening.now) }
    ensures opened { IfOk result (λ kept. kept.machine.ledger.state
        ≡ opened_ledger (plain_opening opening.now)) }
    ensures still_open { IfOk result (λ kept. kept.journal.closed ≡ false) }
    ensures cause { IfErr result IsCause }
{
    let mut room = [0; RECORD_MAX];
    let first = opening.record(&mut room);
    match Kept::create(alloc, first, disk, LEDGER_LIMIT) {
        Ok(kept) => Ok(kept),
        Err((fault, _)) => Err(unnoted(fault)),
    }
}

/// Puts the ledger that stands in the next ledger's file in place.
#[tactic(auto, using(desk_steps::proofs::StepLaws::on_ledger))]
pub(crate) fn put<'a, F: Folder>(
    next: &Kept<KeptLedger, F::File>,
    folder: &mut F,
) -> Result<(), Trouble<'a>>
    requires next { IsNextLedger next.now.machine.ledger.state }
    requires still_open { next.now.journal.closed ≡ false }
    ensures placed { Adds (F.calls folder.old) (F.calls folder.new)
        (Placed DeskFile.NextLedger DeskFile.Ledger (is_err result)) }
    ensures durable { IsDurable ledger_rules (sight F.File.disk F.File.Counted.seen next.now) }
    ensures cause { IfErr result IsCause }
    ensures steps { FolderStepsOn F.File.disk F.File.Counted.seen (F.calls folder.old) (F.calls folder.new) }
{
    next.machine();
    match folder.put_in_place(DeskFile::NextLedger, DeskFile::Ledger) {
        Ok(()) => Ok(()),
        Err(_) => Err(Trouble::Folder),
    }
}

/// Makes a ledger with this opening, and puts it in place.
pub(crate) fn make<'a, F: Folder>(
    alloc: Global,
    opening: &LedgerOpening<'_>,
    folder: &mut F,
) -> Result<(), Trouble<'a>>
    requires opening { IsOpening (plain_opening opening.now) }
    ensures makes { OnOk result (PutsLedger F.File.disk F.File.Counted.seen
        (opened_ledger (plain_opening opening.now)) (F.calls folder.old) (F.calls folder.new)) }
    ensures cause { IfErr result IsCause }
    ensures steps { FolderStepsOn F.File.disk F.File.Counted.seen (F.calls folder.old) (F.calls folder.new) }
{
    let disk = empty_file(folder, DeskFile::NextLedger)?;
    let next = create(alloc, opening, disk)?;
    let placed = put(&next, folder);
    drop(next);
    placed
}
