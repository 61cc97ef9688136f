//! The card and the text that a letter is left with.
ghost use Rattle.std.specs.Prelude.{◌≡◌, ◌≢◌, IfErr, IfOk, IfSome, OnOk};
ghost use Rattle.desk_texts.specs.Days.{IsDay};
ghost use Rattle.desk_sheets.specs.Spelling.{IsCard};
ghost use Rattle.input_reading.specs.Reading.{GaveAll};
ghost use Rattle.desk_around.specs.Ends.{IsOfPaper, IsUndone};
ghost use Rattle.desk_send.specs.Cards.{FitsCard, IsDayOver, ReadsCard, ReadsText, RefusesCard, RefusesDay};
ghost use Rattle.desk_send.specs.Cards.{RefusesText};
ghost use Rattle.letter_pieces.specs.declared.fault.LetterFault.{LetterFault};

use desk_around::{Trouble, paper_at};
use desk_outside::{Clock, Papers};
use desk_sheets::{Card, SheetFault, read_card};
use desk_texts::Day;
use express_words::outside::Source;
use input_reading::{InputFault, read_all};
use letter_pieces::parts_for;
use std::alloc::Global;

/// The card in the file at a path.
pub(crate) fn card_at<'a, P: Papers>(
    alloc: Global,
    papers: &mut P,
    path: &'a str,
) -> Result<Card, Trouble<'a>>
    ensures card { IfOk result (λ card. ReadsCard P.Paper.seen card) }
    ensures whole { IfOk result (λ card. IsCard card) }
    ensures refused { IfErr result (λ t. RefusesCard P.Paper.seen path.now t) }
    ensures trouble { IfErr result IsOfPaper }
{
    let text = paper_at(alloc, papers, path)?;
    match read_card(alloc, &text) {
        Ok(card) => Ok(card),
        Err(SheetFault::Earlier) => Err(Trouble::Earlier(path)),
        Err(SheetFault::Wrong(line)) => Err(Trouble::BadLine(path, line)),
        Err(SheetFault::OtherKind) => Err(Trouble::NoCard(path)),
        Err(SheetFault::NoMemory) => Err(Trouble::NoMemory),
    }
}

// The text that the input gives.
fn input_text<'a, S: Source>(alloc: Global, input: &mut S) -> Result<Vec<u8>, Trouble<'a>>
    ensures text { IfOk result (λ text. GaveAll (S.seen input.old).content
        (S.seen input.new).content text.items) }
    ensures undone { IfErr result IsUndone }
{
    match read_all(alloc, input) {
        Ok(text) => Ok(text),
        Err(InputFault::NoMemory) => Err(Trouble::NoMemory),
        Err(InputFault::Failed | InputFault::TooLong) => Err(Trouble::Input),
    }
}

/// The text of the letter: that of the file, or else of the input.
pub(crate) fn text_of<'a, S: Source, P: Papers>(
    alloc: Global,
    file: Option<&'a str>,
    input: &mut S,
    papers: &mut P,
) -> Result<Vec<u8>, Trouble<'a>>
    ensures text { IfOk result (λ text. ReadsText P.Paper.seen file.entry
        (S.seen input.old).content (S.seen input.new).content text.items) }
    ensures undone { IfErr result IsUndone }
{
    match file {
        Some(path) => paper_at(alloc, papers, path),
        None => input_text(alloc, input),
    }
}

/// Refuses a text of which the card takes no letter.
pub(crate) fn check_text<'a>(card: &Card, text: &[u8]) -> Result<(), Trouble<'a>>
    requires card { IsCard card.now }
    ensures fits { OnOk result (FitsCard card.now text.now) }
    ensures refused { IfErr result (λ t. (fault : LetterFault) × (t ≡ Trouble.NoLetter fault)
        × RefusesText card.now text.now fault) }
    ensures trouble { IfErr result IsOfPaper }
{
    let known = card.addresses.as_slice().len();
    match parts_for(known, card.width as usize, text.len()) {
        Ok(_) => Ok(()),
        Err(fault) => Err(Trouble::NoLetter(fault)),
    }
}

// Refuses a card whose last day was over at this moment, in seconds since 1970.
fn check_last<'a>(last: Day, seconds: u64) -> Result<(), Trouble<'a>>
    requires day { IsDay last }
    ensures in_time { OnOk result (IsDayOver last seconds → ⊥) }
    ensures over { IfErr result (λ t. (t ≡ Trouble.Old last) × IsDayOver last seconds) }
{
    if Day::of(seconds).is_after(&last) {
        Err(Trouble::Old(last))
    } else {
        Ok(())
    }
}

/// Refuses a card whose last day is over.
pub(crate) fn check_day<'a, C: Clock>(card: &Card, clock: &mut C) -> Result<(), Trouble<'a>>
    requires card { IsCard card.now }
    ensures refused { IfErr result (λ t. RefusesDay card.now t) }
    ensures trouble { IfErr result IsOfPaper }
    ensures not_out { IfErr result (λ t. t ≢ Trouble.Out) }
{
    let Some(last) = card.until else {
        return Ok(());
    };
    match clock.now() {
        Ok(seconds) => check_last(last, seconds),
        Err(_) => Err(Trouble::Clock),
    }
}
