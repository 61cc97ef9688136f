//! The word `send`.
ghost use Rattle.std.specs.Prelude.{◌≡◌, ◌≢◌, IfErr, IfOk, IfSome, Ok, OnOk};
ghost use Rattle.desk_texts.specs.Days.{IsDay};
ghost use Rattle.desk_outbox.specs.Outboxes.{IsCardSheet};
ghost use Rattle.desk_run.specs.Ends.{IsOfPaper, IsUndone, Unfailed};
ghost use Rattle.desk_run.specs.LastDays.{IsOver, last_day};
ghost use Rattle.desk_run.specs.LetterEnds.{word_end};
ghost use Rattle.desk_run.specs.Leaving.{BeginsAnew, IsBegun, LeavesLetter, StartsAt, StartsFree};
ghost use Rattle.desk_run.specs.Scenes.{Between};
ghost use Rattle.desk_run.specs.Sends.{SendsOn};
ghost use Rattle.desk_run.specs.FolderSteps.{FolderStepsOn};

use crate::around::Around;
use crate::ending::WordEnd;
use crate::finding::OnItsWay;
use crate::ledgers::empty_file;
use crate::making_way::make_way;
use crate::opening::{paper_at, sheet_in};
use crate::outboxes::{finish, place, trouble_of};
use crate::reading::{Unread, read_all};
use crate::searching::{free_slot, search};
use crate::trouble::Trouble;
use desk_draws::Draws;
use desk_letters::{SealFault, room};
use desk_outbox::Outbox;
use desk_outside::{Clock, DeskFile, Folder, Papers, Slot};
use desk_texts::{Day, Head, Sheet};
use desk_tries::LetterEnd;
use express_words::outside::{Net, Sink, Source};
use std::alloc::Global;

// The card in the file at a path.
#[tactic(auto, using(crate::proofs::CardSheets::card_sheet))]
fn card_at<'a, P: Papers>(
    alloc: Global,
    papers: &mut P,
    path: &'a str,
) -> Result<Sheet, Trouble<'a>>
    ensures card { IfOk result (λ card. IsCardSheet card) }
    ensures trouble { IfErr result IsOfPaper }
{
    let text = paper_at(alloc, papers, path)?;
    let sheet = sheet_in(alloc, path, &text)?;
    match sheet.head {
        Head::Card(_) => Ok(sheet),
        Head::Pair(_) => Err(Trouble::NoCard(path)),
    }
}

// The text of the letter: that of the file, or else of the input.
fn text_of<'a, S: Source, P: Papers>(
    alloc: Global,
    file: Option<&'a str>,
    input: &mut S,
    papers: &mut P,
) -> Result<Vec<u8>, Trouble<'a>>
    ensures { IfErr result IsUndone }
{
    if let Some(path) = file {
        return paper_at(alloc, papers, path);
    }
    match read_all(alloc, input) {
        Ok(text) => Ok(text),
        Err(Unread::Failed) => Err(Trouble::Input),
        Err(Unread::NoMemory) => Err(Trouble::NoMemory),
    }
}

// Whether the text makes a letter in boxes of the card's width.
fn check_text<'a>(card: &Sheet, text: &[u8]) -> Result<(), Trouble<'a>>
    ensures { IfErr result IsOfPaper }
{
    let width = match card.head {
        Head::Card(card) => card.width,
        Head::Pair(pair) => pair.width,
    };
    let most = room(width as usize);
    if text.is_empty() {
        return Err(Trouble::NoLetter(SealFault::NoText));
    }
    if text.len() > most {
        return Err(Trouble::NoLetter(SealFault::TooLong(most.min(4096) as u32)));
    }
    Ok(())
}

// The last day of a card, if it has one.
fn last_day(card: &Sheet) -> Option<Day>
    requires card { IsCardSheet card.now }
    ensures value { result ≡ last_day card.now }
    ensures day { IfSome result IsDay }
{
    match card.head {
        Head::Card(card) => card.until,
        Head::Pair(_) => None,
    }
}

// Refuses a card whose last day was over at this moment, in seconds since 1970.
fn check_last<'a>(last: Day, seconds: u64) -> Result<(), Trouble<'a>>
    requires day { IsDay last }
    ensures in_time { OnOk result (IsOver last seconds → ⊥) }
    ensures over { IfErr result (λ t. (t ≡ Trouble.Old last) × IsOver last seconds) }
{
    if Day::of(seconds).is_after(&last) {
        Err(Trouble::Old(last))
    } else {
        Ok(())
    }
}

// Refuses a card whose last day is over.
fn check_day<'a, C: Clock>(card: &Sheet, clock: &mut C) -> Result<(), Trouble<'a>>
    requires card { IsCardSheet card.now }
    ensures trouble { IfErr result IsOfPaper }
{
    let Some(last) = last_day(card) else {
        return Ok(());
    };
    match clock.now() {
        Ok(seconds) => check_last(last, seconds),
        Err(_) => Err(Trouble::Clock),
    }
}

// The first try of a letter, in its place.
fn start<'a, F: Folder>(
    alloc: Global,
    slot: Slot,
    card: &Sheet,
    text: &[u8],
    draws: &mut Draws,
    folder: &mut F,
) -> Result<OnItsWay<F::File>, Trouble<'a>>
    requires card { IsCardSheet card.now }
    ensures starts { IfOk result (StartsAt F.File.disk card.now text.now slot
        (F.calls folder.old) (F.calls folder.new)) }
    ensures trouble { IfErr result IsOfPaper }
    ensures steps { FolderStepsOn F.File.disk F.File.Counted.seen (F.calls folder.old) (F.calls folder.new) }
{
    let disk = empty_file(folder, DeskFile::NextOutbox(slot))?;
    match Outbox::start(alloc, card, text, draws, disk) {
        Ok(outbox) => match place(slot, &outbox, folder) {
            Ok(()) => Ok(OnItsWay { slot, outbox }),
            Err(trouble) => {
                drop(outbox);
                Err(trouble)
            }
        },
        Err((fault, _)) => Err(trouble_of(fault)),
    }
}

// The first try of a letter, in the first free place.
fn start_free<'a, F: Folder>(
    alloc: Global,
    card: &Sheet,
    text: &[u8],
    draws: &mut Draws,
    folder: &mut F,
) -> Result<OnItsWay<F::File>, Trouble<'a>>
    requires card { IsCardSheet card.now }
    ensures starts { IfOk result (StartsFree F.File.disk card.now text.now (F.calls folder.old) (F.calls folder.new)) }
    ensures trouble { IfErr result IsOfPaper }
    ensures steps { FolderStepsOn F.File.disk F.File.Counted.seen (F.calls folder.old) (F.calls folder.new) }
{
    match free_slot(alloc, folder)? {
        Some(slot) => start(alloc, slot, card, text, draws, folder),
        None => Err(Trouble::ManyLetters),
    }
}

// A first try of a letter with a card that is in time, once other letters on their way with that card are worked off.
fn begin_anew<'a, S: Source, K: Sink, N: Net, F: Folder, P: Papers, C: Clock>(
    alloc: Global,
    card: &Sheet,
    text: &[u8],
    draws: &mut Draws,
    around: &mut Around<S, K, N, F, P, C>,
) -> Result<OnItsWay<F::File>, Trouble<'a>>
    requires card { IsCardSheet card.now }
    ensures begins { IfOk result (Between K.seen N.seen F.calls around.old around.new
        (BeginsAnew F.File.disk F.File.Counted.seen card.now text.now)) }
    ensures trouble { IfErr result IsOfPaper }
    ensures sink { Unfailed (K.seen around.old.out).faults (K.seen around.new.out).faults result }
    ensures net { Unfailed (N.seen around.old.net).faults (N.seen around.new.net).faults result }
    ensures sends { SendsOn F.File.disk F.File.Counted.seen
        (N.seen around.old.net).calls (N.seen around.new.net).calls }
    ensures steps { FolderStepsOn F.File.disk F.File.Counted.seen
        (F.calls around.old.folder) (F.calls around.new.folder) }
{
    check_day(card, &mut around.clock)?;
    make_way(alloc, card, draws, around)?;
    start_free(alloc, card, text, draws, &mut around.folder)
}

// The letter itself, where it is on its way already, or else a first try of it.
fn begin<'a, S: Source, K: Sink, N: Net, F: Folder, P: Papers, C: Clock>(
    alloc: Global,
    card: &Sheet,
    text: &[u8],
    draws: &mut Draws,
    around: &mut Around<S, K, N, F, P, C>,
) -> Result<OnItsWay<F::File>, Trouble<'a>>
    requires card { IsCardSheet card.now }
    ensures begun { IfOk result (Between K.seen N.seen F.calls around.old around.new
        (IsBegun F.File.disk F.File.Counted.seen card.now text.now)) }
    ensures trouble { IfErr result IsOfPaper }
    ensures sink { Unfailed (K.seen around.old.out).faults (K.seen around.new.out).faults result }
    ensures net { Unfailed (N.seen around.old.net).faults (N.seen around.new.net).faults result }
    ensures sends { SendsOn F.File.disk F.File.Counted.seen
        (N.seen around.old.net).calls (N.seen around.new.net).calls }
    ensures steps { FolderStepsOn F.File.disk F.File.Counted.seen
        (F.calls around.old.folder) (F.calls around.new.folder) }
{
    match search(alloc, card, text, &mut around.folder)? {
        Some(letter) => Ok(letter),
        None => begin_anew(alloc, card, text, draws, around),
    }
}

// How the word ends, by what became of the letter.
fn end_of(end: LetterEnd) -> WordEnd
    ensures { result ≡ word_end end }
{
    match end {
        LetterEnd::Written => WordEnd::Done,
        LetterEnd::NotWritten | LetterEnd::MaybeWritten => WordEnd::NotWritten,
    }
}

// Leaves a letter of this text with a card, and tells what became of it.
#[tactic(auto, using(crate::proofs::StatusLaws::word_not_met))]
fn leave<'a, S: Source, K: Sink, N: Net, F: Folder, P: Papers, C: Clock>(
    alloc: Global,
    card: &Sheet,
    text: &[u8],
    draws: &mut Draws,
    around: &mut Around<S, K, N, F, P, C>,
) -> Result<WordEnd, Trouble<'a>>
    requires card { IsCardSheet card.now }
    ensures done { IfOk result (Between K.seen N.seen F.calls around.old around.new
        (LeavesLetter F.File.disk F.File.Counted.seen)) }
    ensures trouble { IfErr result IsOfPaper }
    ensures not_met { result ≢ Ok WordEnd.Met }
    ensures sink { Unfailed (K.seen around.old.out).faults (K.seen around.new.out).faults result }
    ensures net { Unfailed (N.seen around.old.net).faults (N.seen around.new.net).faults result }
    ensures sends { SendsOn F.File.disk F.File.Counted.seen
        (N.seen around.old.net).calls (N.seen around.new.net).calls }
    ensures steps { FolderStepsOn F.File.disk F.File.Counted.seen
        (F.calls around.old.folder) (F.calls around.new.folder) }
{
    let letter = begin(alloc, card, text, draws, around)?;
    let end = finish(alloc, "", letter, draws, around)?;
    Ok(end_of(end))
}

/// The word `send`: leaves a letter, and tells what became of it.
pub(crate) fn send<'a, S: Source, K: Sink, N: Net, F: Folder, P: Papers, C: Clock>(
    alloc: Global,
    path: &'a str,
    file: Option<&'a str>,
    draws: &mut Draws,
    around: &mut Around<S, K, N, F, P, C>,
) -> Result<WordEnd, Trouble<'a>>
    ensures done { IfOk result (Between K.seen N.seen F.calls around.old around.new
        (LeavesLetter F.File.disk F.File.Counted.seen)) }
    ensures trouble { IfErr result IsOfPaper }
    ensures not_met { result ≢ Ok WordEnd.Met }
    ensures sink { Unfailed (K.seen around.old.out).faults (K.seen around.new.out).faults result }
    ensures net { Unfailed (N.seen around.old.net).faults (N.seen around.new.net).faults result }
    ensures sends { SendsOn F.File.disk F.File.Counted.seen
        (N.seen around.old.net).calls (N.seen around.new.net).calls }
    ensures steps { FolderStepsOn F.File.disk F.File.Counted.seen
        (F.calls around.old.folder) (F.calls around.new.folder) }
{
    let card = card_at(alloc, &mut around.papers, path)?;
    let text = text_of(alloc, file, &mut around.input, &mut around.papers)?;
    check_text(&card, &text)?;
    let end = leave(alloc, &card, &text, draws, around);
    drop(card);
    end
}
