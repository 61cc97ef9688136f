//! The word `send`.
ghost use Rattle.std.specs.Prelude.{◌≡◌, ◌≢◌, IfErr, IfOk};
ghost use Rattle.desk_draws.specs.Streams.{stream_from};
ghost use Rattle.desk_around.specs.Ends.{IsOfPaper, Unfailed};
ghost use Rattle.desk_around.specs.Scenes.{Between};
ghost use Rattle.desk_sheets.specs.Spelling.{IsCard};
ghost use Rattle.desk_steps.specs.Folder.{FolderStepsOn, IsHere};
ghost use Rattle.desk_steps.specs.Net.{SendsOn};
ghost use Rattle.desk_send.specs.Cards.{FitsCard, Refuses, RefusesDay};
ghost use Rattle.desk_send.specs.Ends.{IfUntold, IfUntoldSince, word_end};
ghost use Rattle.desk_send.specs.Letters.{DrawsOne};
ghost use Rattle.desk_send.specs.Sending.{BeginsAnew, BeginsInPart, IsBegun, IsNotBegun, LeavesInPart};
ghost use Rattle.desk_send.specs.Sending.{LeavesLetter, SendsInPart, SendsLetter};

use crate::cards::{card_at, check_day, check_text, text_of};
use crate::finishing::finish;
use crate::making_way::make_way;
use crate::placed::OnItsWay;
use crate::searching::search;
use crate::starting::start_free;
use desk_around::{Around, Trouble, WordEnd};
use desk_draws::Draws;
use desk_outside::{Clock, Folder, Papers};
use desk_sheets::Card;
use express_words::outside::{Net, Sink, Source};
use letter_copies::LetterEnd;
use std::alloc::Global;

// A letter with a card that is in time, once other letters on their way with that card are worked off.
fn begin_anew<'a, S: Source, K: Sink, N: Net, F: Folder, P: Papers, C: Clock>(
    alloc: Global,
    card: &Card,
    text: &[u8],
    draws: &mut Draws,
    around: &mut Around<S, K, N, F, P, C>,
) -> Result<OnItsWay<F::File>, Trouble<'a>>
    requires card { IsCard card.now }
    requires text { FitsCard card.now text.now }
    ensures begins { IfOk result (Between K.seen N.seen F.calls around.old around.new
        (BeginsAnew F.File.disk F.File.Counted.seen card.now text.now draws.old draws.new)) }
    ensures drawn { DrawsOne (stream_from draws.old) (stream_from draws.new) }
    ensures refused { IfErr result (λ t. RefusesDay card.now t) }
    ensures trouble { IfErr result IsOfPaper }
    ensures in_part { IfErr result (Between K.seen N.seen F.calls around.old around.new
        (BeginsInPart F.File.disk F.File.Counted.seen card.now)) }
    ensures untold { IfErr result (λ t. IfUntold F.File.disk (F.calls around.new.folder) t) }
    ensures input { around.new.input ≡ around.old.input }
    ensures sink { Unfailed (K.seen around.old.out).faults (K.seen around.new.out).faults result }
    ensures net { Unfailed (N.seen around.old.net).faults (N.seen around.new.net).faults result }
    ensures sends { SendsOn F.File.disk F.File.Counted.seen
        (N.seen around.old.net).calls (N.seen around.new.net).calls }
    ensures steps { FolderStepsOn F.File.disk F.File.Counted.seen
        (F.calls around.old.folder) (F.calls around.new.folder) }
{
    check_day(card, &mut around.clock)?;
    make_way(alloc, card, around)?;
    start_free(alloc, card, text, draws, &mut around.folder)
}

// The letter itself, where it is on its way already, or else made anew.
fn begin<'a, S: Source, K: Sink, N: Net, F: Folder, P: Papers, C: Clock>(
    alloc: Global,
    card: &Card,
    text: &[u8],
    draws: &mut Draws,
    around: &mut Around<S, K, N, F, P, C>,
) -> Result<OnItsWay<F::File>, Trouble<'a>>
    requires card { IsCard card.now }
    requires text { FitsCard card.now text.now }
    ensures begun { IfOk result (Between K.seen N.seen F.calls around.old around.new
        (IsBegun F.File.disk F.File.Counted.seen card.now text.now draws.old draws.new)) }
    ensures here { IfOk result (λ sent. IsHere F.File.disk sent.slot sent.letter
        (F.calls around.new.folder)) }
    ensures drawn { DrawsOne (stream_from draws.old) (stream_from draws.new) }
    ensures refused { IfErr result (λ t. RefusesDay card.now t) }
    ensures trouble { IfErr result IsOfPaper }
    ensures in_part { IfErr result (Between K.seen N.seen F.calls around.old around.new
        (IsNotBegun F.File.disk F.File.Counted.seen card.now text.now)) }
    ensures untold { IfErr result (λ t. IfUntold F.File.disk (F.calls around.new.folder) t) }
    ensures input { around.new.input ≡ around.old.input }
    ensures sink { Unfailed (K.seen around.old.out).faults (K.seen around.new.out).faults result }
    ensures net { Unfailed (N.seen around.old.net).faults (N.seen around.new.net).faults result }
    ensures sends { SendsOn F.File.disk F.File.Counted.seen
        (N.seen around.old.net).calls (N.seen around.new.net).calls }
    ensures steps { FolderStepsOn F.File.disk F.File.Counted.seen
        (F.calls around.old.folder) (F.calls around.new.folder) }
{
    match search(alloc, card, text, &mut around.folder)? {
        Some(sent) => Ok(sent),
        None => begin_anew(alloc, card, text, draws, around),
    }
}

// How the word ends, by what became of the letter.
fn end_of(end: LetterEnd) -> WordEnd
    ensures { result ≡ word_end end }
{
    match end {
        LetterEnd::Written => WordEnd::Done,
        LetterEnd::NotWritten | LetterEnd::MaybeWritten => WordEnd::NotWritten,
    }
}

// Leaves a letter of this text with a card, and tells what became of it.
fn leave<'a, S: Source, K: Sink, N: Net, F: Folder, P: Papers, C: Clock>(
    alloc: Global,
    card: &Card,
    text: &[u8],
    draws: &mut Draws,
    around: &mut Around<S, K, N, F, P, C>,
) -> Result<WordEnd, Trouble<'a>>
    requires card { IsCard card.now }
    requires text { FitsCard card.now text.now }
    ensures done { IfOk result (Between K.seen N.seen F.calls around.old around.new
        (LeavesLetter F.File.disk F.File.Counted.seen card.now text.now draws.old draws.new)) }
    ensures drawn { DrawsOne (stream_from draws.old) (stream_from draws.new) }
    ensures refused { IfErr result (λ t. RefusesDay card.now t) }
    ensures trouble { IfErr result IsOfPaper }
    ensures in_part { IfErr result (Between K.seen N.seen F.calls around.old around.new
        (LeavesInPart F.File.disk F.File.Counted.seen card.now text.now draws.old draws.new)) }
    ensures untold { IfErr result (λ t. IfUntold F.File.disk (F.calls around.new.folder) t) }
    ensures input { around.new.input ≡ around.old.input }
    ensures sink { Unfailed (K.seen around.old.out).faults (K.seen around.new.out).faults result }
    ensures net { Unfailed (N.seen around.old.net).faults (N.seen around.new.net).faults result }
    ensures sends { SendsOn F.File.disk F.File.Counted.seen
        (N.seen around.old.net).calls (N.seen around.new.net).calls }
    ensures steps { FolderStepsOn F.File.disk F.File.Counted.seen
        (F.calls around.old.folder) (F.calls around.new.folder) }
{
    let sent = begin(alloc, card, text, draws, around)?;
    let end = finish(alloc, "", sent, around)?;
    Ok(end_of(end))
}

/// The word `send`: leaves the letter of the text in a file, or else of the input, with the card in the
/// file at `path`, and tells what became of it. One that is on its way already is gone on with. Else
/// earlier letters with the same card are worked off first, and the letter is made of what `draws` gives.
///
/// # Errors
///
/// `Earlier`, `BadLine` and `NoCard` of the card's file, `NoLetter` of a text of which the card takes no
/// letter, `Old` of a card whose last day is over, where the letter isn't on its way; `ManyLetters` where
/// no place is free; `BadLetter` where a letter on its way can't be read; others where something around it
/// fails. A letter that was put in its place stays on its way.
pub fn send<'a, S: Source, K: Sink, N: Net, F: Folder, P: Papers, C: Clock>(
    alloc: Global,
    path: &'a str,
    file: Option<&'a str>,
    draws: &mut Draws,
    around: &mut Around<S, K, N, F, P, C>,
) -> Result<WordEnd, Trouble<'a>>
    ensures done { IfOk result (SendsLetter F.File.disk F.File.Counted.seen S.seen K.seen N.seen F.calls
        P.Paper.seen file.entry draws.old draws.new around.old around.new) }
    ensures drawn { DrawsOne (stream_from draws.old) (stream_from draws.new) }
    ensures refused { IfErr result (λ t. Refuses P.Paper.seen path.now file.entry
        (S.seen around.old.input).content (S.seen around.new.input).content t) }
    ensures trouble { IfErr result IsOfPaper }
    ensures in_part { IfErr result (SendsInPart F.File.disk F.File.Counted.seen S.seen K.seen N.seen F.calls
        P.Paper.seen file.entry draws.old draws.new around.old around.new) }
    ensures untold { IfErr result (λ t. IfUntoldSince F.File.disk (F.calls around.old.folder)
        (F.calls around.new.folder) t) }
    ensures sink { Unfailed (K.seen around.old.out).faults (K.seen around.new.out).faults result }
    ensures net { Unfailed (N.seen around.old.net).faults (N.seen around.new.net).faults result }
    ensures sends { SendsOn F.File.disk F.File.Counted.seen
        (N.seen around.old.net).calls (N.seen around.new.net).calls }
    ensures steps { FolderStepsOn F.File.disk F.File.Counted.seen
        (F.calls around.old.folder) (F.calls around.new.folder) }
{
    let card = card_at(alloc, &mut around.papers, path)?;
    let text = text_of(alloc, file, &mut around.input, &mut around.papers)?;
    check_text(&card, &text)?;
    let end = leave(alloc, &card, &text, draws, around);
    drop(card);
    end
}
