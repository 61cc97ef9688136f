//! The word `discard`, and letters that are given up.
ghost use Rattle.std.specs.Prelude.{◌≡◌, ◌⊎◌, ◌<◌, IfErr, IfOk, None, OnOk, Some, string_bytes};
ghost use Rattle.desk_around.specs.Ends.{IsOfName, IsUndone, Unfailed};
ghost use Rattle.desk_steps.specs.Folder.{FolderStepsOn};
ghost use Rattle.desk_send.specs.Labels.{given_up_line, given_up_text, given_up_words, number_of};
ghost use Rattle.desk_send.specs.Searching.{FindsOnly};
ghost use Rattle.desk_send.specs.Waiting.{Chooses, Discards, GivesAllUp, GivesUpAt, IfUndiscarded};
ghost use Rattle.desk_send.specs.Waiting.{IfUnsaid, RefusesDiscard};

use crate::finishing::say_and_remove;
use crate::labels::{label_of, number_of};
use crate::listing::say_letters;
use crate::searching::only_slot;
use desk_around::{Trouble, WordEnd};
use desk_outside::{Folder, MOST_LETTERS, Slot};
use desk_steps::{Found, is_taken, open_at};
use express_words::NoMemory;
use express_words::outside::Sink;
use node_journal::Disk;
use std::alloc::Global;

fn given_up_words(may_be_written: bool) -> &'static str
    ensures { result.now ≡ given_up_words may_be_written }
{
    if may_be_written {
        "given up: it may have been written\n"
    } else {
        "given up: it isn't written, and won't be\n"
    }
}

#[tactic(auto, unfolding(crate::specs::Labels::given_up_line))]
fn given_up_line(alloc: Global, label: &str, may_be_written: bool) -> Result<String, NoMemory>
    ensures { IfOk result (λ line. string_bytes line ≡ given_up_line label.now may_be_written) }
{
    let words = given_up_words(may_be_written);
    let line = format!(in alloc; "{label}: {words}")?;
    Ok(line)
}

// What is told of what stands at a place, where that is given up. Where the folder was copied, the other
// one may have sent it.
fn line_of<D: Disk>(alloc: Global, was_copied: bool, found: &Found<D>) -> Result<String, NoMemory>
    ensures { IfOk result (λ line. string_bytes line ≡ given_up_text was_copied found.now) }
{
    match found {
        Found::Nothing => Ok(String::new(alloc)),
        Found::Letter(letter) => {
            let letter = letter.machine().letter();
            let label = label_of(alloc, letter)?;
            given_up_line(
                alloc,
                label.as_str(),
                was_copied || letter.copies().may_be_written(),
            )
        }
        Found::Unreadable => {
            let line = String::from_str(alloc, "a letter that can't be read: given up\n")?;
            Ok(line)
        }
    }
}

// Gives up what stands at this place: tells it, and only then removes it. False where nothing stands there.
fn give_up_at<'a, F: Folder, K: Sink>(
    alloc: Global,
    slot: Slot,
    was_copied: bool,
    folder: &mut F,
    out: &mut K,
) -> Result<bool, Trouble<'a>>
    ensures gives_up { IfOk result (GivesUpAt F.File.disk was_copied slot (F.calls folder.old)
        (F.calls folder.new) (K.seen out.old).written (K.seen out.new).written) }
    ensures undone { IfErr result IsUndone }
    ensures untold { IfErr result (λ t. IfUnsaid F.File.disk (F.calls folder.new) t) }
    ensures sink { Unfailed (K.seen out.old).faults (K.seen out.new).faults result }
    ensures steps { FolderStepsOn F.File.disk F.File.Counted.seen (F.calls folder.old) (F.calls folder.new) }
{
    let found = open_at(alloc, folder, slot)?;
    if !is_taken(&found) {
        return Ok(false);
    }
    let line = line_of(alloc, was_copied, &found);
    drop(found);
    say_and_remove(line?.as_str(), slot, folder, out)?;
    Ok(true)
}

/// Gives each letter up that is on its way, where the folder was copied: tells it, and only then removes
/// it. A trouble where the folder or the output fails, or no memory is found.
pub fn discard_all<'a, F: Folder, K: Sink>(
    alloc: Global,
    folder: &mut F,
    out: &mut K,
) -> Result<(), Trouble<'a>>
    ensures given_up { OnOk result (GivesAllUp F.File.disk (F.calls folder.old) (F.calls folder.new)
        (K.seen out.old).written (K.seen out.new).written) }
    ensures undone { IfErr result IsUndone }
    ensures untold { IfErr result (λ t. IfUnsaid F.File.disk (F.calls folder.new) t) }
    ensures sink { Unfailed (K.seen out.old).faults (K.seen out.new).faults result }
    ensures steps { FolderStepsOn F.File.disk F.File.Counted.seen (F.calls folder.old) (F.calls folder.new) }
{
    'places: for number in 0..MOST_LETTERS {
        give_up_at(alloc, Slot { number }, true, folder, out)?;
    }
    Ok(())
}

// The place of this number.
fn slot_of<'a>(number: u32) -> Result<Slot, Trouble<'a>>
    ensures slot { IfOk result (λ slot. number_of slot ≡ number) }
    ensures none { IfErr result (λ t. (t ≡ Trouble.NoLetterAt number) × ((number ≡ 0) ⊎ (8 < number))) }
{
    if number == 0 || number > u32::from(MOST_LETTERS) {
        return Err(Trouble::NoLetterAt(number));
    }
    Ok(Slot {
        number: (number - 1) as u8,
    })
}

// The place of the only letter on its way. Several are listed.
fn only_letter<'a, F: Folder, K: Sink>(
    alloc: Global,
    folder: &mut F,
    out: &mut K,
) -> Result<Slot, Trouble<'a>>
    ensures only { IfOk result (λ slot. FindsOnly F.File.disk (F.calls folder.old) (F.calls folder.new)
        (Some slot)) }
    ensures silent { OnOk result (out.new ≡ out.old) }
    ensures refused { IfErr result (λ t. RefusesDiscard F.File.disk None (F.calls folder.old)
        (F.calls folder.new) (K.seen out.old).written (K.seen out.new).written t) }
    ensures trouble { IfErr result IsOfName }
    ensures untold { IfErr result (λ t. IfUndiscarded F.File.disk (F.calls folder.old)
        (F.calls folder.new) t) }
    ensures sink { Unfailed (K.seen out.old).faults (K.seen out.new).faults result }
    ensures steps { FolderStepsOn F.File.disk F.File.Counted.seen (F.calls folder.old) (F.calls folder.new) }
{
    match only_slot(alloc, folder) {
        Ok(Some(slot)) => Ok(slot),
        Ok(None) => Err(Trouble::NoLetters),
        Err(Trouble::WhichLetter) => {
            say_letters(alloc, folder, out)?;
            Err(Trouble::WhichLetter)
        }
        Err(trouble) => Err(trouble),
    }
}

// The place of the letter of this number, or else of the only one.
fn chosen<'a, F: Folder, K: Sink>(
    alloc: Global,
    number: Option<u32>,
    folder: &mut F,
    out: &mut K,
) -> Result<Slot, Trouble<'a>>
    ensures chooses { IfOk result (Chooses F.File.disk number (F.calls folder.old) (F.calls folder.new)) }
    ensures silent { OnOk result (out.new ≡ out.old) }
    ensures refused { IfErr result (λ t. RefusesDiscard F.File.disk number (F.calls folder.old)
        (F.calls folder.new) (K.seen out.old).written (K.seen out.new).written t) }
    ensures trouble { IfErr result IsOfName }
    ensures untold { IfErr result (λ t. IfUndiscarded F.File.disk (F.calls folder.old)
        (F.calls folder.new) t) }
    ensures sink { Unfailed (K.seen out.old).faults (K.seen out.new).faults result }
    ensures steps { FolderStepsOn F.File.disk F.File.Counted.seen (F.calls folder.old) (F.calls folder.new) }
{
    match number {
        Some(number) => slot_of(number),
        None => only_letter(alloc, folder, out),
    }
}

/// The word `discard`: gives up the letter that is on its way at the place of this number, or else the only
/// one. Where several are on their way and none is named, they are listed.
///
/// # Errors
///
/// `NoLetterAt`, `NoLetters` and `WhichLetter`, where no such letter is on its way; others where the folder
/// or the output fails, or no memory is found.
pub fn discard<'a, F: Folder, K: Sink>(
    alloc: Global,
    number: Option<u32>,
    folder: &mut F,
    out: &mut K,
) -> Result<WordEnd, Trouble<'a>>
    ensures done { OnOk result (Discards F.File.disk number (F.calls folder.old) (F.calls folder.new)
        (K.seen out.old).written (K.seen out.new).written) }
    ensures is_done { IfOk result (λ end. end ≡ WordEnd.Done) }
    ensures refused { IfErr result (λ t. RefusesDiscard F.File.disk number (F.calls folder.old)
        (F.calls folder.new) (K.seen out.old).written (K.seen out.new).written t) }
    ensures trouble { IfErr result IsOfName }
    ensures untold { IfErr result (λ t. IfUndiscarded F.File.disk (F.calls folder.old)
        (F.calls folder.new) t) }
    ensures sink { Unfailed (K.seen out.old).faults (K.seen out.new).faults result }
    ensures steps { FolderStepsOn F.File.disk F.File.Counted.seen (F.calls folder.old) (F.calls folder.new) }
{
    let slot = chosen(alloc, number, folder, out)?;
    if give_up_at(alloc, slot, false, folder, out)? {
        Ok(WordEnd::Done)
    } else {
        Err(Trouble::NoLetterAt(number_of(slot)))
    }
}
