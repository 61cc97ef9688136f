//! A ledger that goes on in the place of another one.
ghost use Rattle.std.specs.Prelude.{◌≡◌, ◌≤◌, ◌<◌, ◌+◌, IfErr, IfSome, OnOk, false, map};
ghost use Rattle.desk_outside.specs.Calls.{Adds, Placed};
ghost use Rattle.kept_machine.specs.Keeps.{IsDurable, sight};
ghost use Rattle.kept_ledger.specs.Follow.{next_serial};
ghost use Rattle.kept_ledger.specs.Ledgers.{fold_from};
ghost use Rattle.kept_ledger.specs.Machines.{ledger_rules};
ghost use Rattle.kept_ledger.specs.Notes.{plain_note};
ghost use Rattle.desk_around.specs.Ends.{IsCause};
ghost use Rattle.desk_steps.specs.Folder.{FolderStepsOn, IsNextLedger};
ghost use Rattle.owner_ledger.specs.Desks.{FollowsAbove, Renews};
ghost use Rattle.owner_ledger.specs.Puts.{PutsLedger, follower};

use crate::making::{create, put};
use crate::noting::note_all;
use desk_around::Trouble;
use desk_outside::{DeskFile, Folder};
use desk_steps::empty_file;
use kept_ledger::{Keeping, KeptLedger, Ledger, LedgerNote};
use kept_machine::Kept;
use std::alloc::Global;

// A copy that is at work elsewhere won't come so far before this one has gone on.
const LEAST_STEP: u64 = 65_536;

// Notes these in a ledger that was made, and puts it in place.
fn note_and_put<'a, F: Folder>(
    next: &mut Kept<KeptLedger, F::File>,
    notes: &[LedgerNote<'_>],
    folder: &mut F,
) -> Result<(), Trouble<'a>>
    requires next { IsNextLedger (fold_from next.old.machine.ledger.state (map plain_note notes.now)) }
    requires still_open { next.old.journal.closed ≡ false }
    ensures noted { OnOk result (next.new.machine.ledger.state
        ≡ fold_from next.old.machine.ledger.state (map plain_note notes.now)) }
    ensures placed { OnOk result (Adds (F.calls folder.old) (F.calls folder.new)
        (Placed DeskFile.NextLedger DeskFile.Ledger false)) }
    ensures durable { OnOk result
        (IsDurable ledger_rules (sight F.File.disk F.File.Counted.seen next.new)) }
    ensures cause { IfErr result IsCause }
    ensures steps { FolderStepsOn F.File.disk F.File.Counted.seen (F.calls folder.old) (F.calls folder.new) }
{
    note_all(next, notes)?;
    put(next, folder)
}

// Puts a ledger in place that goes on behind this one, with requests from this serial on.
fn follow<'a, F: Folder>(
    alloc: Global,
    old: &Ledger,
    keeping: Keeping,
    first: u32,
    folder: &mut F,
) -> Result<(), Trouble<'a>>
    requires above { next_serial old.now.state ≤ first }
    requires some { 1 ≤ first }
    ensures follows { OnOk result (PutsLedger F.File.disk F.File.Counted.seen
        (follower keeping first old.now.state) (F.calls folder.old) (F.calls folder.new)) }
    ensures cause { IfErr result IsCause }
    ensures steps { FolderStepsOn F.File.disk F.File.Counted.seen (F.calls folder.old) (F.calls folder.new) }
{
    let notes = old.kept_notes(alloc, keeping)?;
    let disk = empty_file(folder, DeskFile::NextLedger)?;
    let mut next = create(alloc, &old.opening_at(first), disk)?;
    let placed = note_and_put(&mut next, notes.as_slice(), folder);
    drop(next);
    placed
}

/// Puts a ledger without letters in the place of this one: names, boxes and what became of each address stay.
pub fn renew<'a, F: Folder>(alloc: Global, old: &Ledger, folder: &mut F) -> Result<(), Trouble<'a>>
    ensures renews { OnOk result (Renews F.File.disk F.File.Counted.seen old.now.state
        (F.calls folder.old) (F.calls folder.new)) }
    ensures cause { IfErr result IsCause }
    ensures steps { FolderStepsOn F.File.disk F.File.Counted.seen (F.calls folder.old) (F.calls folder.new) }
{
    match u32::try_from(old.next_serial().max(1)) {
        Ok(first) => follow(alloc, old, Keeping::WithoutLetters, first, folder),
        Err(_) => Err(Trouble::Spent),
    }
}

// A serial so far above this one that no other copy uses it: by lot, since other copies may be adopted too.
fn far_above(serial: u64, drawn: u16) -> Option<u32>
    ensures above { IfSome result (λ first. serial < first) }
{
    let first = serial
        .saturating_add(LEAST_STEP)
        .saturating_add(u64::from(drawn));
    match u32::try_from(first) {
        Ok(first) => Some(first),
        Err(_) => None,
    }
}

/// Puts a ledger with all that this one has in its place, which goes on far above this serial and its own; how
/// far is drawn.
pub fn follow_above<'a, F: Folder>(
    alloc: Global,
    old: &Ledger,
    serial: u64,
    drawn: u16,
    folder: &mut F,
) -> Result<(), Trouble<'a>>
    ensures follows { OnOk result (FollowsAbove F.File.disk F.File.Counted.seen serial old.now.state
        (F.calls folder.old) (F.calls folder.new)) }
    ensures cause { IfErr result IsCause }
    ensures steps { FolderStepsOn F.File.disk F.File.Counted.seen (F.calls folder.old) (F.calls folder.new) }
{
    match far_above(serial.max(old.next_serial()), drawn) {
        Some(first) => follow(alloc, old, Keeping::All, first, folder),
        None => Err(Trouble::UsedUp),
    }
}
