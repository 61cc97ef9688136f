//! Letters on their way, as `status` tells them.
ghost use Rattle.std.specs.Prelude.{◌≡◌, IfErr, IfOk, OnOk, string_bytes};
ghost use Rattle.desk_around.specs.Ends.{IsUndone, Unfailed};
ghost use Rattle.desk_steps.specs.Folder.{FolderStepsOn};
ghost use Rattle.desk_send.specs.Labels.{unreadable_line, waiting_line, waiting_text};
ghost use Rattle.desk_send.specs.Waiting.{IfUnlisted, IsLookedAt, SaysLetter, SaysLetters, view_of};

use crate::labels::{label_of, number_of};
use desk_around::{Trouble, say};
use desk_outside::{Folder, MOST_LETTERS, Slot};
use desk_steps::{Found, open_at};
use express_words::NoMemory;
use express_words::outside::Sink;
use node_journal::Disk;
use std::alloc::Global;

#[tactic(auto, unfolding(crate::specs::Labels::waiting_line))]
fn waiting_line(alloc: Global, number: u32, label: &str) -> Result<String, NoMemory>
    ensures { IfOk result (λ line. string_bytes line ≡ waiting_line number label.now) }
{
    let line = format!(in alloc;
        "letter {number} on its way: {label}; run resume, or discard {number}\n"
    )?;
    Ok(line)
}

#[tactic(auto, unfolding(crate::specs::Labels::unreadable_line))]
fn unreadable_line(alloc: Global, number: u32) -> Result<String, NoMemory>
    ensures { IfOk result (λ line. string_bytes line ≡ unreadable_line number) }
{
    let line = format!(in alloc;
        "letter {number} on its way can't be read; discard {number} removes it\n"
    )?;
    Ok(line)
}

// What is told of what stands at the place of this number.
fn line_of<D: Disk>(alloc: Global, number: u32, found: &Found<D>) -> Result<String, NoMemory>
    ensures { IfOk result (λ line. string_bytes line ≡ waiting_text number found.now) }
{
    match found {
        Found::Nothing => Ok(String::new(alloc)),
        Found::Letter(letter) => {
            let label = label_of(alloc, letter.machine().letter())?;
            waiting_line(alloc, number, label.as_str())
        }
        Found::Unreadable => unreadable_line(alloc, number),
    }
}

fn say_letter<'a, F: Folder, K: Sink>(
    alloc: Global,
    slot: Slot,
    folder: &mut F,
    out: &mut K,
) -> Result<(), Trouble<'a>>
    ensures said { OnOk result (SaysLetter F.File.disk slot
        (view_of (F.calls folder.old) (K.seen out.old).written)
        (view_of (F.calls folder.new) (K.seen out.new).written)) }
    ensures undone { IfErr result IsUndone }
    ensures untold { IfErr result (λ t. t ≡ Trouble.Out
        → IsLookedAt F.File.disk slot (F.calls folder.old) (F.calls folder.new)) }
    ensures sink { Unfailed (K.seen out.old).faults (K.seen out.new).faults result }
    ensures steps { FolderStepsOn F.File.disk F.File.Counted.seen (F.calls folder.old) (F.calls folder.new) }
{
    let found = open_at(alloc, folder, slot)?;
    let line = line_of(alloc, number_of(slot), &found);
    drop(found);
    say(out, line?.as_str())
}

/// Tells each letter that is on its way, with its number. A trouble where the folder or the output fails,
/// or no memory is found.
pub fn say_letters<'a, F: Folder, K: Sink>(
    alloc: Global,
    folder: &mut F,
    out: &mut K,
) -> Result<(), Trouble<'a>>
    ensures said { OnOk result (SaysLetters F.File.disk (F.calls folder.old) (F.calls folder.new)
        (K.seen out.old).written (K.seen out.new).written) }
    ensures undone { IfErr result IsUndone }
    ensures untold { IfErr result (λ t. IfUnlisted F.File.disk (F.calls folder.old) (F.calls folder.new)
        (K.seen out.old).written (K.seen out.new).written t) }
    ensures sink { Unfailed (K.seen out.old).faults (K.seen out.new).faults result }
    ensures steps { FolderStepsOn F.File.disk F.File.Counted.seen (F.calls folder.old) (F.calls folder.new) }
{
    'places: for number in 0..MOST_LETTERS {
        say_letter(alloc, Slot { number }, folder, out)?;
    }
    Ok(())
}
