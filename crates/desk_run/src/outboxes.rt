//! A stranger's letter on its way.
ghost use Rattle.std.specs.Prelude.{◌≡◌, ◌≢◌, ◌≤◌, ◌↔◌, Err, IfErr, IfOk, IsTrue, Ok, OnOk, false, is_err, length, string_bytes, true};
ghost use Rattle.express_words.specs.Streams.{Took};
ghost use Rattle.desk_outside.specs.Calls.{Adds, Placed, Removed};
ghost use Rattle.desk_outbox.specs.Trying.{IsOfNext};
ghost use Rattle.desk_outbox.specs.Works.{Works};
ghost use Rattle.desk_run.specs.LetterEnds.{EndsLetter, end_line, end_text};
ghost use Rattle.desk_run.specs.Ends.{IsOfPaper, IsUndone, Unfailed};
ghost use Rattle.desk_run.specs.Scenes.{Between};
ghost use Rattle.desk_run.specs.Sends.{SendsOn};
ghost use Rattle.desk_run.specs.Tries.{Carries, ComesToEnd, HasLetter, PutsTry, TriesAgain, journey};
ghost use Rattle.desk_run.specs.FolderSteps.{FolderStepsOn, IsNextTry, IsOver};

use crate::around::Around;
use crate::finding::OnItsWay;
use crate::labels::label_of;
use crate::ledgers::empty_file;
use crate::saying::say;
use crate::trouble::{Trouble, halted};
use desk_draws::Draws;
use desk_letters::laws::sealed_letters_open;
use desk_letters::{Opened, open};
use desk_outbox::{Outbox, StartFault};
use desk_outside::{Clock, DeskFile, Folder, Papers, Slot};
use desk_texts::Sheet;
use desk_tries::{LetterEnd, MOST_FURTHER, Next};
use express_words::NoMemory;
use express_words::outside::{Net, Sink, Source};
use node_journal::Disk;
use std::alloc::Global;

/// What is told where no try is begun.
pub(crate) fn trouble_of<'a>(fault: StartFault) -> Trouble<'a>
    ensures { IsOfPaper result }
{
    match fault {
        StartFault::Letter(fault) => Trouble::NoLetter(fault),
        StartFault::Spent => Trouble::NoLane,
        StartFault::Keep(fault) => Trouble::from(fault),
    }
}

// What is told where no further try of a letter is begun.
fn next_trouble<'a>(fault: StartFault) -> Trouble<'a>
    requires { IsOfNext fault }
    ensures { IsUndone result }
{
    match fault {
        StartFault::Letter(_) => unreachable!(),
        StartFault::Spent => Trouble::NoLane,
        StartFault::Keep(fault) => Trouble::from(fault),
    }
}

/// Whether two cards are the same.
pub(crate) fn is_same_card(one: &Sheet, other: &Sheet) -> bool
    ensures same { result ≡ true → one.now ≡ other.now }
    ensures other { result ≡ false → one.now ≢ other.now }
{
    one.head == other.head
        && one.leader.as_str() == other.leader.as_str()
        && one.helper.as_str() == other.helper.as_str()
        && one.addresses.as_slice() == other.addresses.as_slice()
}

fn is_same_text(one: &[u8], other: &[u8]) -> bool
    ensures { IsTrue result ↔ (one.now ≡ other.now) }
{
    one == other
}

// Whether these bytes are a letter of this text.
fn spells(message: &[u8], text: &[u8]) -> bool
    requires { length message.now ≤ 4096 }
    ensures same { result ≡ true → HasLetter text.now message.now }
    ensures other { result ≡ false → HasLetter text.now message.now → ⊥ }
{
    sealed_letters_open();
    match open(message) {
        Opened::Letter { id: _, text: other } => is_same_text(other, text),
        Opened::Empty => false,
        Opened::Met => false,
    }
}

/// Whether the letter that is on its way has this text, and goes out with this card.
pub(crate) fn is_of<D: Disk>(outbox: &Outbox<D>, card: &Sheet, text: &[u8]) -> bool
    ensures same { result ≡ true → Carries card.now text.now outbox.now }
    ensures other { result ≡ false → Carries card.now text.now outbox.now → ⊥ }
{
    is_same_card(outbox.card(), card) && spells(outbox.message(), text)
}

/// Puts a try that was made in the place of the one before.
pub(crate) fn place<'a, F: Folder>(
    slot: Slot,
    next: &Outbox<F::File>,
    folder: &mut F,
) -> Result<(), Trouble<'a>>
    requires next { IsNextTry F.File.disk next.now }
    ensures placed { Adds (F.calls folder.old) (F.calls folder.new)
        (Placed (DeskFile.NextOutbox slot) (DeskFile.Outbox slot) (is_err result)) }
    ensures undone { IfErr result IsUndone }
    ensures steps { FolderStepsOn F.File.disk F.File.Counted.seen (F.calls folder.old) (F.calls folder.new) }
{
    match folder.put_in_place(DeskFile::NextOutbox(slot), DeskFile::Outbox(slot)) {
        Ok(()) => Ok(()),
        Err(_) => Err(Trouble::Folder),
    }
}

// The next try of a letter, in its place.
fn next_try<'a, F: Folder>(
    alloc: Global,
    outbox: &Outbox<F::File>,
    slot: Slot,
    draws: &mut Draws,
    folder: &mut F,
) -> Result<Outbox<F::File>, Trouble<'a>>
    ensures again { IfOk result (λ next. TriesAgain F.File.disk outbox.now next) }
    ensures puts { OnOk result (PutsTry slot (F.calls folder.old) (F.calls folder.new)) }
    ensures undone { IfErr result IsUndone }
    ensures steps { FolderStepsOn F.File.disk F.File.Counted.seen (F.calls folder.old) (F.calls folder.new) }
{
    if !outbox.place().is_followed() {
        return Err(Trouble::Later);
    }
    let disk = empty_file(folder, DeskFile::NextOutbox(slot))?;
    match outbox.next_try(alloc, draws, disk) {
        Ok(outbox) => match place(slot, &outbox, folder) {
            Ok(()) => Ok(outbox),
            Err(trouble) => {
                drop(outbox);
                Err(trouble)
            }
        },
        Err((fault, _)) => Err(next_trouble(fault)),
    }
}

// What is to be done behind the present try.
#[tactic(auto, using(crate::proofs::SendLaws::on_letter))]
fn worked<'a, D: Disk, N: Net>(outbox: &mut Outbox<D>, net: &mut N) -> Result<Next, Trouble<'a>>
    ensures works { IfOk result (λ next. Works D.disk D.Counted.seen outbox.old outbox.new (Ok next)
        (N.seen net.old).calls (N.seen net.new).calls) }
    ensures undone { IfErr result IsUndone }
    ensures net { Unfailed (N.seen net.old).faults (N.seen net.new).faults result }
    ensures sends { SendsOn D.disk D.Counted.seen (N.seen net.old).calls (N.seen net.new).calls }
{
    match outbox.work(net) {
        Ok(next) => Ok(next),
        Err(halt) => Err(halted(halt, outbox.server())),
    }
}

// Works one try of a letter off after another, until one is the last.
fn try_on<'a, F: Folder, N: Net>(
    alloc: Global,
    outbox: &mut Outbox<F::File>,
    slot: Slot,
    draws: &mut Draws,
    folder: &mut F,
    net: &mut N,
) -> Result<LetterEnd, Trouble<'a>>
    ensures comes { IfOk result (λ end. ComesToEnd F.File.disk F.File.Counted.seen slot outbox.old end
        (journey N.seen F.calls net.old folder.old) (journey N.seen F.calls net.new folder.new)) }
    ensures undone { IfErr result IsUndone }
    ensures net { Unfailed (N.seen net.old).faults (N.seen net.new).faults result }
    ensures sends { SendsOn F.File.disk F.File.Counted.seen (N.seen net.old).calls (N.seen net.new).calls }
    ensures steps { FolderStepsOn F.File.disk F.File.Counted.seen (F.calls folder.old) (F.calls folder.new) }
{
    'tries: for _ in 0..=MOST_FURTHER {
        match worked(outbox, net)? {
            Next::Stop(end) => return Ok(end),
            Next::GoOn | Next::SameAgain => return Err(Trouble::Later),
            Next::NewTry | Next::NextAddress => {
                *outbox = next_try(alloc, outbox, slot, draws, folder)?;
            }
        }
    }
    Err(Trouble::Later)
}

// What becomes of a letter, try by try.
fn work_off<'a, F: Folder, N: Net>(
    alloc: Global,
    letter: OnItsWay<F::File>,
    draws: &mut Draws,
    folder: &mut F,
    net: &mut N,
) -> Result<LetterEnd, Trouble<'a>>
    ensures comes { IfOk result (λ end. ComesToEnd F.File.disk F.File.Counted.seen letter.slot letter.outbox end
        (journey N.seen F.calls net.old folder.old) (journey N.seen F.calls net.new folder.new)) }
    ensures undone { IfErr result IsUndone }
    ensures net { Unfailed (N.seen net.old).faults (N.seen net.new).faults result }
    ensures sends { SendsOn F.File.disk F.File.Counted.seen (N.seen net.old).calls (N.seen net.new).calls }
    ensures steps { FolderStepsOn F.File.disk F.File.Counted.seen (F.calls folder.old) (F.calls folder.new) }
{
    let OnItsWay { slot, outbox } = letter;
    let mut outbox = outbox;
    let end = try_on(alloc, &mut outbox, slot, draws, folder, net);
    drop(outbox);
    end
}

// What is told of a letter's end.
fn end_text(end: LetterEnd) -> &'static str
    ensures { result.now ≡ end_text end }
{
    match end {
        LetterEnd::Written => "written: the letter lies in the owner's box",
        LetterEnd::NotWritten =>
            "not written: the letter lies nowhere; send it again when you like",
        LetterEnd::MaybeWritten => {
            "it may have been written: that can't be found out; if you send the letter again, the owner may have it twice or, where both come to one box, not at all"
        }
    }
}

// The line that tells it. Whose letter it is stands before its name.
#[tactic(auto, unfolding(crate::specs::LetterEnds::end_line))]
fn end_line(alloc: Global, whose: &str, label: &str, end: LetterEnd) -> Result<String, NoMemory>
    ensures { IfOk result (λ line. string_bytes line ≡ end_line whose.now label.now end) }
{
    let end = end_text(end);
    let line = format!(in alloc; "{whose}{label}: {end}\n")?;
    Ok(line)
}

/// Tells what became of the letter at this place, and only then removes it.
#[tactic(auto, using(crate::proofs::StepLaws::on_over))]
pub(crate) fn say_and_remove<'a, F: Folder, K: Sink>(
    line: &str,
    slot: Slot,
    folder: &mut F,
    out: &mut K,
) -> Result<(), Trouble<'a>>
    requires over { IsOver F.File.disk F.File.Counted.seen slot (F.calls folder.old) }
    ensures told { OnOk result (Took (K.seen out.old).written (K.seen out.new).written line.now) }
    ensures removed { OnOk result
        (Adds (F.calls folder.old) (F.calls folder.new) (Removed (DeskFile.Outbox slot) false)) }
    // Where it couldn't be told it isn't removed.
    ensures untold { result ≡ Err Trouble.Out → folder.new ≡ folder.old }
    ensures undone { IfErr result IsUndone }
    ensures sink { Unfailed (K.seen out.old).faults (K.seen out.new).faults result }
    ensures steps { FolderStepsOn F.File.disk F.File.Counted.seen (F.calls folder.old) (F.calls folder.new) }
{
    say(out, line)?;
    match folder.remove(DeskFile::Outbox(slot)) {
        Ok(()) => Ok(()),
        Err(_) => Err(Trouble::Folder),
    }
}

/// Works a letter off that is on its way, tells what became of it, and only then removes it. Whose letter it is stands
/// before its name.
pub(crate) fn finish<'a, S: Source, K: Sink, N: Net, F: Folder, P: Papers, C: Clock>(
    alloc: Global,
    whose: &str,
    letter: OnItsWay<F::File>,
    draws: &mut Draws,
    around: &mut Around<S, K, N, F, P, C>,
) -> Result<LetterEnd, Trouble<'a>>
    ensures ended { IfOk result (Between K.seen N.seen F.calls around.old around.new
        (EndsLetter F.File.disk F.File.Counted.seen whose.now letter)) }
    ensures undone { IfErr result IsUndone }
    ensures sink { Unfailed (K.seen around.old.out).faults (K.seen around.new.out).faults result }
    ensures net { Unfailed (N.seen around.old.net).faults (N.seen around.new.net).faults result }
    ensures sends { SendsOn F.File.disk F.File.Counted.seen
        (N.seen around.old.net).calls (N.seen around.new.net).calls }
    ensures steps { FolderStepsOn F.File.disk F.File.Counted.seen
        (F.calls around.old.folder) (F.calls around.new.folder) }
{
    let slot = letter.slot;
    let label = label_of(alloc, &letter.outbox)?;
    let end = work_off(alloc, letter, draws, &mut around.folder, &mut around.net)?;
    let line = end_line(alloc, whose, label.as_str(), end)?;
    say_and_remove(line.as_str(), slot, &mut around.folder, &mut around.out)?;
    Ok(end)
}
