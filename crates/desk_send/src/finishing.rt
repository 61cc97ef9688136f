//! A letter is worked off, told and removed.
ghost use Rattle.std.specs.Prelude.{◌≡◌, IfErr, IfOk, OnOk, Ok, false, string_bytes};
ghost use Rattle.express_words.specs.Streams.{Took};
ghost use Rattle.desk_around.specs.Ends.{IsCause, IsUndone, Unfailed};
ghost use Rattle.desk_around.specs.Scenes.{Between};
ghost use Rattle.desk_outside.specs.Calls.{Adds, Removed};
ghost use Rattle.desk_steps.specs.Folder.{FolderStepsOn, IsHere, IsOver};
ghost use Rattle.desk_steps.specs.Net.{SendsOn};
ghost use Rattle.kept_letter.specs.Sent.{SentBy};
ghost use Rattle.desk_send.specs.Ends.{ComesToEnd, EndsLetter, HaltsBefore, IfUntold, end_line, end_text};
ghost use Rattle.desk_send.specs.Ends.{StaysOpen, unsent_trouble};

use crate::labels::label_of;
use crate::placed::OnItsWay;
use desk_around::{Around, Trouble, halted, say};
use desk_outside::{Clock, DeskFile, Folder, Papers, Slot};
use express_words::NoMemory;
use express_words::outside::{Net, Sink, Source};
use kept_letter::{KeptLetter, Unsent, send_letter};
use kept_machine::Kept;
use letter_copies::LetterEnd;
use node_journal::Disk;
use std::alloc::Global;

// What is told where the letter at this place isn't at its end.
fn trouble_of<'a>(slot: Slot, why: Unsent) -> Trouble<'a>
    ensures trouble { result ≡ unsent_trouble slot why }
    ensures cause { IsCause result }
{
    match why {
        Unsent::NoText | Unsent::NoPlace(_) => Trouble::BadLetter(slot),
        Unsent::NoMemory => Trouble::NoMemory,
        Unsent::Halted(why) => halted(why),
    }
}

// Works a letter off at its card's doors, as far as that goes now.
#[tactic(auto, using(crate::proofs::SendLaws::on_letter))]
fn work_on<'a, D: Disk, N: Net>(
    alloc: Global,
    slot: Slot,
    letter: &mut Kept<KeptLetter, D>,
    net: &mut N,
) -> Result<LetterEnd, Trouble<'a>>
    ensures comes { IfOk result (λ end. ComesToEnd D.disk D.Counted.seen letter.old end
        (N.seen net.old).calls (N.seen net.new).calls) }
    ensures halts { IfErr result (HaltsBefore D.disk D.Counted.seen slot letter.old
        (N.seen net.old).calls (N.seen net.new).calls) }
    ensures cause { IfErr result IsCause }
    ensures net { Unfailed (N.seen net.old).faults (N.seen net.new).faults result }
    ensures sends { SendsOn D.disk D.Counted.seen (N.seen net.old).calls (N.seen net.new).calls }
{
    match send_letter(alloc, letter, net) {
        Ok(end) => Ok(end),
        Err(why) => Err(trouble_of(slot, why)),
    }
}

// What becomes of a letter.
fn work_off<'a, D: Disk + Drop, N: Net>(
    alloc: Global,
    sent: OnItsWay<D>,
    net: &mut N,
) -> Result<LetterEnd, Trouble<'a>>
    ensures comes { IfOk result (λ end. ComesToEnd D.disk D.Counted.seen sent.letter end
        (N.seen net.old).calls (N.seen net.new).calls) }
    ensures halts { IfErr result (HaltsBefore D.disk D.Counted.seen sent.slot sent.letter
        (N.seen net.old).calls (N.seen net.new).calls) }
    ensures cause { IfErr result IsCause }
    ensures net { Unfailed (N.seen net.old).faults (N.seen net.new).faults result }
    ensures sends { SendsOn D.disk D.Counted.seen (N.seen net.old).calls (N.seen net.new).calls }
{
    let OnItsWay { slot, letter } = sent;
    let mut letter = letter;
    let end = work_on(alloc, slot, &mut letter, net);
    drop(letter);
    end
}

// What is told of a letter's end.
fn end_text(end: LetterEnd) -> &'static str
    ensures { result.now ≡ end_text end }
{
    match end {
        LetterEnd::Written => "written: the letter lies in the owner's boxes",
        LetterEnd::NotWritten =>
            "not written: the letter lies nowhere; send it again when you like",
        LetterEnd::MaybeWritten => {
            "it may have been written: that can't be found out; if you send the letter again, the owner may have it twice"
        }
    }
}

// The line that tells it. Whose letter it is stands before its name.
#[tactic(auto, unfolding(crate::specs::Ends::end_line))]
fn end_line(alloc: Global, whose: &str, label: &str, end: LetterEnd) -> Result<String, NoMemory>
    ensures { IfOk result (λ line. string_bytes line ≡ end_line whose.now label.now end) }
{
    let end = end_text(end);
    let line = format!(in alloc; "{whose}{label}: {end}\n")?;
    Ok(line)
}

/// Tells what became of the letter at this place, and only then removes it.
pub(crate) fn say_and_remove<'a, F: Folder, K: Sink>(
    line: &str,
    slot: Slot,
    folder: &mut F,
    out: &mut K,
) -> Result<(), Trouble<'a>>
    requires over { IsOver F.File.disk F.File.Counted.seen slot (F.calls folder.old) }
    ensures told { OnOk result (Took (K.seen out.old).written (K.seen out.new).written line.now) }
    ensures removed { OnOk result
        (Adds (F.calls folder.old) (F.calls folder.new) (Removed (DeskFile.Outbox slot) false)) }
    // Where it couldn't be told it isn't removed.
    ensures untold { IfErr result (λ t. t ≡ Trouble.Out → folder.new ≡ folder.old) }
    ensures undone { IfErr result IsUndone }
    ensures sink { Unfailed (K.seen out.old).faults (K.seen out.new).faults result }
    ensures steps { FolderStepsOn F.File.disk F.File.Counted.seen (F.calls folder.old) (F.calls folder.new) }
{
    say(out, line)?;
    match folder.remove(DeskFile::Outbox(slot)) {
        Ok(()) => Ok(()),
        Err(_) => Err(Trouble::Folder),
    }
}

/// Works a letter off that is on its way, tells what became of it, and only then removes it. Whose letter
/// it is stands before its name.
pub(crate) fn finish<'a, S: Source, K: Sink, N: Net, F: Folder, P: Papers, C: Clock>(
    alloc: Global,
    whose: &str,
    sent: OnItsWay<F::File>,
    around: &mut Around<S, K, N, F, P, C>,
) -> Result<LetterEnd, Trouble<'a>>
    requires here { IsHere F.File.disk sent.slot sent.letter (F.calls around.old.folder) }
    ensures ended { IfOk result (Between K.seen N.seen F.calls around.old around.new
        (EndsLetter F.File.disk F.File.Counted.seen whose.now sent)) }
    ensures stays_open { IfErr result (Between K.seen N.seen F.calls around.old around.new
        (StaysOpen F.File.disk F.File.Counted.seen sent)) }
    ensures undone { IfErr result IsUndone }
    ensures untold { IfErr result (λ t. IfUntold F.File.disk (F.calls around.new.folder) t) }
    ensures input { around.new.input ≡ around.old.input }
    ensures sink { Unfailed (K.seen around.old.out).faults (K.seen around.new.out).faults result }
    ensures net { Unfailed (N.seen around.old.net).faults (N.seen around.new.net).faults result }
    ensures sends { SendsOn F.File.disk F.File.Counted.seen
        (N.seen around.old.net).calls (N.seen around.new.net).calls }
    ensures steps { FolderStepsOn F.File.disk F.File.Counted.seen
        (F.calls around.old.folder) (F.calls around.new.folder) }
{
    let slot = sent.slot;
    let label = label_of(alloc, sent.letter.machine().letter())?;
    let end = work_off(alloc, sent, &mut around.net)?;
    let line = end_line(alloc, whose, label.as_str(), end)?;
    say_and_remove(line.as_str(), slot, &mut around.folder, &mut around.out)?;
    Ok(end)
}
