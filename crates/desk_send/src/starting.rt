//! A letter is made, and gets on its way.
ghost use Rattle.std.specs.Prelude.{◌≡◌, ◌≤◌, ◌<◌, ◌^◌, IfErr, IfOk, OnOk, [], false, is_err, length};
ghost use Rattle.desk_draws.specs.Streams.{stream_from};
ghost use Rattle.desk_around.specs.Ends.{IsCause};
ghost use Rattle.desk_outside.specs.Calls.{Adds, Placed};
ghost use Rattle.desk_sheets.specs.Spelling.{IsCard};
ghost use Rattle.desk_steps.specs.Folder.{FolderStepsOn, IsUnsent};
ghost use Rattle.kept_letter.specs.Letters.{opened_letter, with_text};
ghost use Rattle.kept_letter.specs.Machines.{letter_rules};
ghost use Rattle.kept_letter.specs.Notes.{IsOpening, plain_opening};
ghost use Rattle.kept_machine.specs.Keeps.{IsDurable, sight};
ghost use Rattle.desk_send.specs.Cards.{FitsCard};
ghost use Rattle.desk_send.specs.Letters.{DrawsOne, behind_letter, id_of, new_letter, seed_of};
ghost use Rattle.desk_send.specs.Starting.{StartsAt, StartsFree};

use crate::placed::OnItsWay;
use crate::searching::free_slot;
use desk_around::{Trouble, unnoted};
use desk_draws::Draws;
use desk_outside::{DeskFile, Folder, Slot};
use desk_sheets::{Card, print_card};
use desk_steps::{LETTER_LIMIT, empty_file};
use kept_letter::{KeptLetter, LetterNote, LetterOpening};
use kept_machine::{KeepFault, Kept, take};
use letter_pieces::LetterId;
use node_journal::{Disk, RECORD_MAX};
use std::alloc::Global;

/// A note has at most so many bytes of the text.
const PIECE: usize = 8_213;

// What is drawn for a letter, and how it is opened with it.
fn draw_opening<'a>(draws: &mut Draws, count: u32, card: &'a [u8]) -> LetterOpening<'a>
    requires { length card.now ≤ 4096 }
    ensures opening { plain_opening result ≡ record {
      seed = seed_of (stream_from draws.old);
      id = id_of (stream_from draws.old);
      count = count;
      card = card.now;
    } }
    ensures behind { stream_from draws.new ≡ behind_letter (stream_from draws.old) }
    ensures is { IsOpening (plain_opening result) }
{
    let seed = draws.seed();
    let id = LetterId(draws.id());
    LetterOpening {
        seed,
        id,
        count,
        card,
    }
}

// A letter before its first note, on a disk with no byte.
fn open_letter<D: Disk + Drop>(
    alloc: Global,
    opening: &LetterOpening<'_>,
    disk: D,
) -> Result<Kept<KeptLetter, D>, KeepFault>
    requires opening { IsOpening (plain_opening opening.now) }
    ensures opened { IfOk result (λ k. k.machine.letter ≡ opened_letter (plain_opening opening.now)) }
    ensures still_open { IfOk result (λ k. k.journal.closed ≡ false) }
    ensures durable { IfOk result (λ k. IsDurable letter_rules (sight D.disk D.Counted.seen k)) }
{
    let mut room = [0; RECORD_MAX];
    match Kept::create(alloc, opening.record(&mut room), disk, LETTER_LIMIT) {
        Ok(letter) => Ok(letter),
        Err((fault, _)) => Err(fault),
    }
}

// The next bytes of the text are noted.
#[tactic(auto, using(crate::proofs::NoteLaws::noted))]
fn note_piece<D: Disk>(letter: &mut Kept<KeptLetter, D>, piece: &[u8]) -> Result<(), KeepFault>
    requires fits { length piece.now ≤ 8213 }
    ensures noted { OnOk result (letter.new.machine.letter ≡ with_text letter.old.machine.letter piece.now) }
    ensures closed { OnOk result (letter.new.journal.closed ≡ letter.old.journal.closed) }
    ensures durable { letter.new.journal.closed ≡ false
        → IsDurable letter_rules (sight D.disk D.Counted.seen letter.new) }
{
    let note = LetterNote::Text(piece);
    match take(letter, &note, &mut []) {
        Ok(()) => Ok(()),
        Err(fault) => Err(fault),
    }
}

// The whole text is noted, piece by piece.
fn note_text<D: Disk>(letter: &mut Kept<KeptLetter, D>, text: &[u8]) -> Result<(), KeepFault>
    requires empty { letter.old.machine.letter.text ≡ [] }
    requires count { letter.old.machine.letter.plan.count ≡ length text.now }
    requires still_open { letter.old.journal.closed ≡ false }
    requires durable { IsDurable letter_rules (sight D.disk D.Counted.seen letter.old) }
    ensures noted { OnOk result (letter.new.machine.letter
        ≡ record letter.old.machine.letter { text = text.now }) }
    ensures durable { OnOk result (IsDurable letter_rules (sight D.disk D.Counted.seen letter.new)) }
{
    let mut rest = text;
    'pieces: while !rest.is_empty() {
        let (piece, behind) = rest.split_at(rest.len().min(PIECE));
        note_piece(letter, piece)?;
        rest = behind;
    }
    Ok(())
}

// A letter with its whole text, on a disk with no byte.
fn write_opened<'a, D: Disk + Drop>(
    alloc: Global,
    opening: &LetterOpening<'_>,
    text: &[u8],
    disk: D,
) -> Result<Kept<KeptLetter, D>, Trouble<'a>>
    requires opening { IsOpening (plain_opening opening.now) }
    requires count { (opened_letter (plain_opening opening.now)).plan.count ≡ length text.now }
    ensures letter { IfOk result (λ k. k.machine.letter
        ≡ record (opened_letter (plain_opening opening.now)) { text = text.now }) }
    ensures durable { IfOk result (λ k. IsDurable letter_rules (sight D.disk D.Counted.seen k)) }
    ensures cause { IfErr result IsCause }
{
    match open_letter(alloc, opening, disk) {
        Ok(letter) => {
            let mut letter = letter;
            match note_text(&mut letter, text) {
                Ok(()) => Ok(letter),
                Err(fault) => {
                    drop(letter);
                    Err(unnoted(fault))
                }
            }
        }
        Err(fault) => Err(unnoted(fault)),
    }
}

// How many bytes a text has that a card takes.
fn count_of(card: &Card, text: &[u8]) -> u32
    requires card { IsCard card.now }
    requires text { FitsCard card.now text.now }
    ensures { result ≡ length text.now }
{
    text.len() as u32
}

// A letter of this text for a card, on a disk with no byte.
fn write_letter<'a, D: Disk + Drop>(
    alloc: Global,
    card: &Card,
    text: &[u8],
    draws: &mut Draws,
    disk: D,
) -> Result<Kept<KeptLetter, D>, Trouble<'a>>
    requires card { IsCard card.now }
    requires text { FitsCard card.now text.now }
    ensures letter { IfOk result (λ k. k.machine.letter
        ≡ new_letter card.now text.now (stream_from draws.old)) }
    ensures durable { IfOk result (λ k. IsDurable letter_rules (sight D.disk D.Counted.seen k)) }
    ensures drawn { DrawsOne (stream_from draws.old) (stream_from draws.new) }
    ensures left { IfOk result (λ made. stream_from draws.new ≡ behind_letter (stream_from draws.old)) }
    ensures cause { IfErr result IsCause }
{
    let printed = print_card(alloc, card)?;
    let opening = draw_opening(draws, count_of(card, text), &printed);
    write_opened(alloc, &opening, text, disk)
}

// Puts a letter that was made in its place.
fn place<'a, F: Folder>(
    slot: Slot,
    letter: &Kept<KeptLetter, F::File>,
    folder: &mut F,
) -> Result<(), Trouble<'a>>
    requires unsent { IsUnsent letter.now.machine.letter }
    ensures placed { Adds (F.calls folder.old) (F.calls folder.new)
        (Placed (DeskFile.NextOutbox slot) (DeskFile.Outbox slot) (is_err result)) }
    ensures cause { IfErr result IsCause }
    ensures steps { FolderStepsOn F.File.disk F.File.Counted.seen (F.calls folder.old) (F.calls folder.new) }
{
    match folder.put_in_place(DeskFile::NextOutbox(slot), DeskFile::Outbox(slot)) {
        Ok(()) => Ok(()),
        Err(_) => Err(Trouble::Folder),
    }
}

// A letter of this text for a card, in this place.
fn start<'a, F: Folder>(
    alloc: Global,
    slot: Slot,
    card: &Card,
    text: &[u8],
    draws: &mut Draws,
    folder: &mut F,
) -> Result<OnItsWay<F::File>, Trouble<'a>>
    requires card { IsCard card.now }
    requires text { FitsCard card.now text.now }
    ensures starts { IfOk result (StartsAt F.File.disk F.File.Counted.seen
        (new_letter card.now text.now (stream_from draws.old)) slot (F.calls folder.old)
        (F.calls folder.new)) }
    ensures drawn { DrawsOne (stream_from draws.old) (stream_from draws.new) }
    ensures left { IfOk result (λ made. stream_from draws.new ≡ behind_letter (stream_from draws.old)) }
    ensures cause { IfErr result IsCause }
    ensures steps { FolderStepsOn F.File.disk F.File.Counted.seen (F.calls folder.old) (F.calls folder.new) }
{
    let disk = empty_file(folder, DeskFile::NextOutbox(slot))?;
    let letter = write_letter(alloc, card, text, draws, disk)?;
    match place(slot, &letter, folder) {
        Ok(()) => Ok(OnItsWay { slot, letter }),
        Err(trouble) => {
            drop(letter);
            Err(trouble)
        }
    }
}

/// A letter of this text for a card, in the first free place.
pub(crate) fn start_free<'a, F: Folder>(
    alloc: Global,
    card: &Card,
    text: &[u8],
    draws: &mut Draws,
    folder: &mut F,
) -> Result<OnItsWay<F::File>, Trouble<'a>>
    requires card { IsCard card.now }
    requires text { FitsCard card.now text.now }
    ensures starts { IfOk result (StartsFree F.File.disk F.File.Counted.seen card.now text.now
        (stream_from draws.old) (F.calls folder.old) (F.calls folder.new)) }
    ensures drawn { DrawsOne (stream_from draws.old) (stream_from draws.new) }
    ensures left { IfOk result (λ made. stream_from draws.new ≡ behind_letter (stream_from draws.old)) }
    ensures cause { IfErr result IsCause }
    ensures steps { FolderStepsOn F.File.disk F.File.Counted.seen (F.calls folder.old) (F.calls folder.new) }
{
    match free_slot(alloc, folder)? {
        Some(slot) => start(alloc, slot, card, text, draws, folder),
        None => Err(Trouble::ManyLetters),
    }
}
