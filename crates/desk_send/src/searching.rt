//! Which letters are on their way.
ghost use Rattle.std.specs.Prelude.{◌≡◌, IfErr, IfOk, IsSome, true};
ghost use Rattle.desk_around.specs.Ends.{IsCause};
ghost use Rattle.desk_steps.specs.Folder.{FolderStepsOn};
ghost use Rattle.desk_send.specs.Places.{IsTakenAt};
ghost use Rattle.desk_send.specs.Searching.{FindsFree, FindsOnly, FindsSeveral, IsCauseOr, JoinsOnly};
ghost use Rattle.desk_send.specs.Searching.{LooksFor, Searches};

use crate::placed::OnItsWay;
use crate::same_letter::is_of;
use desk_around::Trouble;
use desk_outside::{Folder, MOST_LETTERS, Slot};
use desk_sheets::Card;
use desk_steps::{Found, is_taken, open_at};
use std::alloc::Global;

// The letter at this place, where it has this text and goes out with this card.
fn look_for<'a, F: Folder>(
    alloc: Global,
    slot: Slot,
    card: &Card,
    text: &[u8],
    folder: &mut F,
) -> Result<Option<OnItsWay<F::File>>, Trouble<'a>>
    ensures looks { IfOk result (LooksFor F.File.disk card.now text.now slot
        (F.calls folder.old) (F.calls folder.new)) }
    ensures cause { IfErr result IsCause }
    ensures steps { FolderStepsOn F.File.disk F.File.Counted.seen (F.calls folder.old) (F.calls folder.new) }
{
    match open_at(alloc, folder, slot)? {
        Found::Letter(letter) if is_of(&letter, card, text) => Ok(Some(OnItsWay { slot, letter })),
        Found::Letter(_) => Ok(None),
        Found::Nothing => Ok(None),
        Found::Unreadable => Err(Trouble::BadLetter(slot)),
    }
}

/// The first letter on its way that has this text and goes out with this card.
pub(crate) fn search<'a, F: Folder>(
    alloc: Global,
    card: &Card,
    text: &[u8],
    folder: &mut F,
) -> Result<Option<OnItsWay<F::File>>, Trouble<'a>>
    ensures searches { IfOk result (Searches F.File.disk card.now text.now
        (F.calls folder.old) (F.calls folder.new)) }
    ensures cause { IfErr result IsCause }
    ensures steps { FolderStepsOn F.File.disk F.File.Counted.seen (F.calls folder.old) (F.calls folder.new) }
{
    'places: for number in 0..MOST_LETTERS {
        match look_for(alloc, Slot { number }, card, text, folder)? {
            Some(letter) => return Ok(Some(letter)),
            None => {}
        }
    }
    Ok(None)
}

// Whether something stands at this place.
fn is_taken_at<'a, F: Folder>(
    alloc: Global,
    slot: Slot,
    folder: &mut F,
) -> Result<bool, Trouble<'a>>
    ensures taken { IfOk result (IsTakenAt F.File.disk slot (F.calls folder.old) (F.calls folder.new)) }
    ensures cause { IfErr result IsCause }
    ensures steps { FolderStepsOn F.File.disk F.File.Counted.seen (F.calls folder.old) (F.calls folder.new) }
{
    let found = open_at(alloc, folder, slot)?;
    let taken = is_taken(&found);
    drop(found);
    Ok(taken)
}

/// The first place at which nothing stands.
pub(crate) fn free_slot<'a, F: Folder>(
    alloc: Global,
    folder: &mut F,
) -> Result<Option<Slot>, Trouble<'a>>
    ensures free { IfOk result (FindsFree F.File.disk (F.calls folder.old) (F.calls folder.new)) }
    ensures cause { IfErr result IsCause }
    ensures steps { FolderStepsOn F.File.disk F.File.Counted.seen (F.calls folder.old) (F.calls folder.new) }
{
    'places: for number in 0..MOST_LETTERS {
        let taken = is_taken_at(alloc, Slot { number }, folder)?;
        if !taken {
            return Ok(Some(Slot { number }));
        }
    }
    Ok(None)
}

// The only place so far at which something stands, and one more.
fn only_of<'a>(only: Option<Slot>, slot: Slot, taken: bool) -> Result<Option<Slot>, Trouble<'a>>
    ensures joins { IfOk result (JoinsOnly taken only slot) }
    ensures several { IfErr result (λ t. (t ≡ Trouble.WhichLetter) × (taken ≡ true) × IsSome only) }
{
    if !taken {
        return Ok(only);
    }
    match only {
        None => Ok(Some(slot)),
        Some(_) => Err(Trouble::WhichLetter),
    }
}

/// The only place at which something stands; a trouble where there are several.
pub(crate) fn only_slot<'a, F: Folder>(
    alloc: Global,
    folder: &mut F,
) -> Result<Option<Slot>, Trouble<'a>>
    ensures only { IfOk result (FindsOnly F.File.disk (F.calls folder.old) (F.calls folder.new)) }
    ensures several { IfErr result (λ t. t ≡ Trouble.WhichLetter
        → FindsSeveral F.File.disk (F.calls folder.old) (F.calls folder.new)) }
    ensures trouble { IfErr result (λ t. IsCauseOr Trouble.WhichLetter t) }
    ensures steps { FolderStepsOn F.File.disk F.File.Counted.seen (F.calls folder.old) (F.calls folder.new) }
{
    let mut only = None;
    'places: for number in 0..MOST_LETTERS {
        let taken = is_taken_at(alloc, Slot { number }, folder)?;
        only = only_of(only, Slot { number }, taken)?;
    }
    Ok(only)
}
