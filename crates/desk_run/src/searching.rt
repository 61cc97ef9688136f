//! Which letters are on their way.
ghost use Rattle.std.specs.Prelude.{◌≡◌, IfErr, IfOk};
ghost use Rattle.desk_run.specs.Ends.{IsOfName, IsUndone};
ghost use Rattle.desk_run.specs.Finds.{IsTakenAt};
ghost use Rattle.desk_run.specs.Searching.{FindsFree, FindsOnly, JoinsOnly, LooksFor, Searches};
ghost use Rattle.desk_run.specs.FolderSteps.{FolderStepsOn};

use crate::finding::{Found, OnItsWay, is_taken, open_at};
use crate::outboxes::is_of;
use crate::trouble::Trouble;
use desk_outside::{Folder, MOST_LETTERS, Slot};
use desk_texts::Sheet;
use std::alloc::Global;

// The letter at this place, where it has this text and goes out with this card.
fn look_for<'a, F: Folder>(
    alloc: Global,
    slot: Slot,
    card: &Sheet,
    text: &[u8],
    folder: &mut F,
) -> Result<Option<OnItsWay<F::File>>, Trouble<'a>>
    ensures looks { IfOk result (LooksFor F.File.disk card.now text.now slot
        (F.calls folder.old) (F.calls folder.new)) }
    ensures undone { IfErr result IsUndone }
    ensures steps { FolderStepsOn F.File.disk F.File.Counted.seen (F.calls folder.old) (F.calls folder.new) }
{
    match open_at(alloc, slot, folder)? {
        Found::Letter(outbox) if is_of(&outbox, card, text) => Ok(Some(OnItsWay { slot, outbox })),
        Found::Letter(_) => Ok(None),
        Found::Nothing => Ok(None),
        Found::Unreadable => Err(Trouble::BadLetter(slot)),
    }
}

/// The first letter on its way that has this text and goes out with this card.
pub(crate) fn search<'a, F: Folder>(
    alloc: Global,
    card: &Sheet,
    text: &[u8],
    folder: &mut F,
) -> Result<Option<OnItsWay<F::File>>, Trouble<'a>>
    ensures searches { IfOk result (Searches F.File.disk card.now text.now
        (F.calls folder.old) (F.calls folder.new)) }
    ensures undone { IfErr result IsUndone }
    ensures steps { FolderStepsOn F.File.disk F.File.Counted.seen (F.calls folder.old) (F.calls folder.new) }
{
    'places: for number in 0..MOST_LETTERS {
        match look_for(alloc, Slot { number }, card, text, folder)? {
            Some(letter) => return Ok(Some(letter)),
            None => {}
        }
    }
    Ok(None)
}

// Whether something stands at this place.
fn is_taken_at<'a, F: Folder>(
    alloc: Global,
    slot: Slot,
    folder: &mut F,
) -> Result<bool, Trouble<'a>>
    ensures taken { IfOk result (IsTakenAt F.File.disk slot (F.calls folder.old) (F.calls folder.new)) }
    ensures undone { IfErr result IsUndone }
    ensures steps { FolderStepsOn F.File.disk F.File.Counted.seen (F.calls folder.old) (F.calls folder.new) }
{
    let found = open_at(alloc, slot, folder)?;
    let taken = is_taken(&found);
    drop(found);
    Ok(taken)
}

/// The first place at which nothing stands.
pub(crate) fn free_slot<'a, F: Folder>(
    alloc: Global,
    folder: &mut F,
) -> Result<Option<Slot>, Trouble<'a>>
    ensures free { IfOk result (FindsFree F.File.disk (F.calls folder.old) (F.calls folder.new)) }
    ensures undone { IfErr result IsUndone }
    ensures steps { FolderStepsOn F.File.disk F.File.Counted.seen (F.calls folder.old) (F.calls folder.new) }
{
    'places: for number in 0..MOST_LETTERS {
        let taken = is_taken_at(alloc, Slot { number }, folder)?;
        if !taken {
            return Ok(Some(Slot { number }));
        }
    }
    Ok(None)
}

// The only place so far at which something stands, and one more.
fn only_of<'a>(only: Option<Slot>, slot: Slot, taken: bool) -> Result<Option<Slot>, Trouble<'a>>
    ensures joins { IfOk result (JoinsOnly taken only slot) }
    ensures several { IfErr result (λ t. t ≡ Trouble.WhichLetter) }
{
    if !taken {
        return Ok(only);
    }
    match only {
        None => Ok(Some(slot)),
        Some(_) => Err(Trouble::WhichLetter),
    }
}

/// The only place at which something stands; a trouble where there are several.
pub(crate) fn only_slot<'a, F: Folder>(
    alloc: Global,
    folder: &mut F,
) -> Result<Option<Slot>, Trouble<'a>>
    ensures only { IfOk result (FindsOnly F.File.disk (F.calls folder.old) (F.calls folder.new)) }
    ensures trouble { IfErr result IsOfName }
    ensures steps { FolderStepsOn F.File.disk F.File.Counted.seen (F.calls folder.old) (F.calls folder.new) }
{
    let mut only = None;
    'places: for number in 0..MOST_LETTERS {
        let taken = is_taken_at(alloc, Slot { number }, folder)?;
        only = only_of(only, Slot { number }, taken)?;
    }
    Ok(only)
}
