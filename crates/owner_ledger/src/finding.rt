//! The ledger of a desk's folder.
ghost use Rattle.std.specs.Prelude.{◌≡◌, IfErr, IfOk, IfSome, false};
ghost use Rattle.desk_around.specs.Ends.{IsCause};
ghost use Rattle.desk_steps.specs.Folder.{FolderStepsOn};
ghost use Rattle.owner_ledger.specs.Opens.{Finds, Opens};

use desk_around::{Trouble, unnoted};
use desk_outside::{DeskFile, Folder};
use desk_steps::{is_there, open_file};
use kept_ledger::KeptLedger;
use kept_machine::{KeepFault, Kept};
use node_journal::Disk;
use std::alloc::Global;

/// A ledger's journal takes at most so many bytes of the disk.
pub const LEDGER_LIMIT: u64 = 268_435_456;

// What is told where a ledger's file gives none. One whose first record is another's is of an earlier version.
fn unopened<'a>(fault: KeepFault) -> Trouble<'a>
    ensures { IsCause result }
{
    match fault {
        KeepFault::Foreign(0) => Trouble::EarlierDesk,
        _ => unnoted(fault),
    }
}

/// The ledger of the folder, as its file's records give it; None where there is none.
pub fn ledger_in<'a, F: Folder>(
    alloc: Global,
    folder: &mut F,
) -> Result<Option<Kept<KeptLedger, F::File>>, Trouble<'a>>
    ensures found { IfOk result (Finds F.File.disk (F.calls folder.old) (F.calls folder.new)) }
    ensures still_open { IfOk result (λ found. IfSome found (λ kept. kept.journal.closed ≡ false)) }
    ensures cause { IfErr result IsCause }
    ensures steps { FolderStepsOn F.File.disk F.File.Counted.seen (F.calls folder.old) (F.calls folder.new) }
{
    if !is_there(folder, DeskFile::Ledger)? {
        return Ok(None);
    }
    let disk = open_file(folder, DeskFile::Ledger)?;
    match Kept::reopen(alloc, disk, LEDGER_LIMIT) {
        Ok(ledger) => Ok(Some(ledger)),
        Err((fault, _)) => Err(unopened(fault)),
    }
}

/// The ledger of the folder, where there is one.
pub fn desk_in<'a, F: Folder>(
    alloc: Global,
    folder: &mut F,
) -> Result<Kept<KeptLedger, F::File>, Trouble<'a>>
    ensures opens { IfOk result (Opens F.File.disk (F.calls folder.old) (F.calls folder.new)) }
    ensures still_open { IfOk result (λ kept. kept.journal.closed ≡ false) }
    ensures cause { IfErr result IsCause }
    ensures steps { FolderStepsOn F.File.disk F.File.Counted.seen (F.calls folder.old) (F.calls folder.new) }
{
    match ledger_in(alloc, folder)? {
        Some(ledger) => Ok(ledger),
        None => Err(Trouble::NoDesk),
    }
}
