//! The word `open`.
ghost use Rattle.std.specs.Prelude.{◌≡◌, ◌≢◌, IfErr, IfOk, Ok, OnOk};
ghost use Rattle.desk_texts.specs.Spelling.{IsSheet};
ghost use Rattle.desk_run.specs.Ends.{IsOfPaper, IsUndone, Unfailed};
ghost use Rattle.desk_run.specs.Fits.{ChecksPair};
ghost use Rattle.desk_run.specs.Sends.{SendsOn};
ghost use Rattle.desk_run.specs.FolderSteps.{FolderStepsOn};

use crate::around::Around;
use crate::ending::WordEnd;
use crate::fitting::check_pair;
use crate::ledgers::{LIMIT, empty_file, ledger_in, put_ledger, trouble_of};
use crate::reading::{Unread, read_all};
use crate::saying::say;
use crate::trouble::Trouble;
use desk_draws::Draws;
use desk_ledger::{Ledger, OpenFault};
use desk_outside::{Clock, DeskFile, Folder, Papers};
use desk_texts::{Head, Sheet, read_sheet};
use express_texts::TextFault;
use express_words::outside::{Net, Sink, Source};
use node_journal::Disk;
use std::alloc::Global;

/// The bytes of the file at a path.
pub(crate) fn paper_at<'a, P: Papers>(
    alloc: Global,
    papers: &mut P,
    path: &'a str,
) -> Result<Vec<u8>, Trouble<'a>>
    ensures { IfErr result IsUndone }
{
    let Ok(mut paper) = papers.read(path) else {
        return Err(Trouble::Unread(path));
    };
    match read_all(alloc, &mut paper) {
        Ok(bytes) => Ok(bytes),
        Err(Unread::Failed) => Err(Trouble::Unread(path)),
        Err(Unread::NoMemory) => Err(Trouble::NoMemory),
    }
}

/// The card or pair file that the text of a file at this path spells.
pub(crate) fn sheet_in<'a>(alloc: Global, path: &'a str, text: &[u8]) -> Result<Sheet, Trouble<'a>>
    ensures sheet { IfOk result (λ sheet. IsSheet sheet) }
    ensures trouble { IfErr result IsOfPaper }
{
    match read_sheet(alloc, text) {
        Ok(sheet) => Ok(sheet),
        Err(TextFault::Wrong(line)) => Err(Trouble::BadLine(path, line)),
        Err(TextFault::WrongKey(_)) => Err(Trouble::BadLine(path, 1)),
        Err(TextFault::NoMemory) => Err(Trouble::NoMemory),
    }
}

// Whether a desk is one for the pair of a pair file.
fn is_of<D: Disk>(ledger: &Ledger<D>, sheet: &Sheet) -> bool {
    let pair = ledger.pair();
    sheet.head == Head::Pair(pair.head)
        && sheet.leader.as_str() == pair.leader.as_str()
        && sheet.helper.as_str() == pair.helper.as_str()
}

// Makes a new ledger, and puts it in place.
fn make<'a, F: Folder>(
    alloc: Global,
    path: &'a str,
    text: &[u8],
    draws: &mut Draws,
    folder: &mut F,
) -> Result<(), Trouble<'a>>
    ensures trouble { IfErr result IsOfPaper }
    ensures steps { FolderStepsOn F.File.disk F.File.Counted.seen (F.calls folder.old) (F.calls folder.new) }
{
    let disk = empty_file(folder, DeskFile::NextLedger)?;
    match Ledger::open(alloc, text, draws.seed(), disk, LIMIT) {
        Ok(ledger) => {
            let placed = put_ledger(&ledger, folder);
            drop(ledger);
            placed
        }
        Err((OpenFault::NoPairFile, _)) => Err(Trouble::NoPairFile(path)),
        Err((fault, _)) => Err(trouble_of(fault)),
    }
}

// Makes a ledger for the pair of a pair file where there is none. One that is there is for that pair.
fn make_or_keep<'a, F: Folder>(
    alloc: Global,
    path: &'a str,
    text: &[u8],
    sheet: &Sheet,
    draws: &mut Draws,
    folder: &mut F,
) -> Result<(), Trouble<'a>>
    ensures trouble { IfErr result IsOfPaper }
    ensures steps { FolderStepsOn F.File.disk F.File.Counted.seen (F.calls folder.old) (F.calls folder.new) }
{
    let Some(ledger) = ledger_in(alloc, folder)? else {
        return make(alloc, path, text, draws, folder);
    };
    let is_same = is_of(&ledger, sheet);
    drop(ledger);
    if is_same {
        Ok(())
    } else {
        Err(Trouble::OtherDesk)
    }
}

/// The word `open`: asks both servers whether they are as the pair file says, and makes a desk for them, where there is
/// none. One for the same pair that is there stays.
pub(crate) fn open<'a, S: Source, K: Sink, N: Net, F: Folder, P: Papers, C: Clock>(
    alloc: Global,
    path: &'a str,
    draws: &mut Draws,
    around: &mut Around<S, K, N, F, P, C>,
) -> Result<WordEnd, Trouble<'a>>
    ensures trouble { IfErr result IsOfPaper }
    ensures not_met { result ≢ Ok WordEnd.Met }
    ensures sink { Unfailed (K.seen around.old.out).faults (K.seen around.new.out).faults result }
    ensures net { Unfailed (N.seen around.old.net).faults (N.seen around.new.net).faults result }
    ensures checks { OnOk result (ChecksPair (N.seen around.old.net).calls (N.seen around.new.net).calls) }
    ensures sends { SendsOn F.File.disk F.File.Counted.seen
        (N.seen around.old.net).calls (N.seen around.new.net).calls }
    ensures steps { FolderStepsOn F.File.disk F.File.Counted.seen
        (F.calls around.old.folder) (F.calls around.new.folder) }
{
    let text = paper_at(alloc, &mut around.papers, path)?;
    let sheet = sheet_in(alloc, path, &text)?;
    match &sheet.head {
        Head::Pair(head) => check_pair(path, &sheet, head, around)?,
        Head::Card(_) => return Err(Trouble::NoPairFile(path)),
    }
    make_or_keep(alloc, path, &text, &sheet, draws, &mut around.folder)?;
    say(
        &mut around.out,
        "the desk is open; make boxes and a card with box NAME\n",
    )?;
    Ok(WordEnd::Done)
}
