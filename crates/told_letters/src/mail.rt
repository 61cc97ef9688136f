//! The letters that readings tell.
ghost use Rattle.std.specs.Prelude.{◌≡◌, ◌≤◌, All, IfOk};
ghost use Rattle.known_pieces.specs.Known.{IsPiece};
ghost use Rattle.known_pieces.specs.Telling.{bytes_of};
ghost use Rattle.letter_reader.specs.Reader.{AreBoxes};
ghost use Rattle.told_letters.specs.Mail.{IsGathered, IsMail};

use crate::letter::{Letter, with_texts};
use crate::partial::{Partial, with_counts};
use crate::pieces::read_all;
use crate::whole::{partial_headings, whole_headings};
use express_words::NoMemory;
use letter_reader::{Card, KnownPiece, Reading, Told, tell};
use std::alloc::Global;
use std::marker::Model;

/// What the readings of a card's boxes tell.
#[derive(Drop)]
pub struct Mail<'a> {
    /// The letters that are whole, in the order in which they became so.
    pub letters: Vec<Letter>,
    /// The letters of which parts are missing, in the order in which their first part became known.
    pub partial: Vec<Partial>,
    /// The readings that nothing opens.
    pub unopened: Vec<Reading<'a>>,
}

impl<'a> Model for Mail<'a> {
    ghost use Rattle.told_letters.specs.Mail.{Mail as ToldMail};

    ghost Value = { ToldMail };

    ghost view = { λ m. record {
      letters = m.letters.items;
      partial = m.partial.items;
      unopened = m.unopened.items;
    } };
}

impl<'a> Mail<'a> {
    ghost use Rattle.told_letters.specs.Mail.{count_at};

    /// How many readings of the box at an address nothing opens.
    pub fn unopened_at(&self, address: u8) -> usize
        ensures { result ≡ count_at address self.now.unopened }
    {
        self.unopened
            .iter()
            .filter(|reading| reading.address == address)
            .count()
    }
}

/// The letters that the readings of a card's boxes tell: each whose parts are all known, once, with its text;
/// those of which parts are missing; and the readings that nothing opens. Of two pieces of one part of a
/// letter the one that became known first counts.
pub fn letters<'a>(
    alloc: Global,
    card: Card,
    readings: &[Reading<'a>],
) -> Result<Mail<'a>, NoMemory>
    requires card { card.addresses ≤ 64 }
    requires wide { AreBoxes card.width readings.now }
    ensures { IfOk result (λ mail. IsMail card.addresses readings.now mail) }
{
    let Told { known, left } = tell(alloc, card, readings)?;
    let (letters, partial) = gather(alloc, known.as_slice())?;
    Ok(Mail {
        letters,
        partial,
        unopened: left,
    })
}

// The letters that are put together of known pieces, and those of which parts are missing.
fn gather(alloc: Global, known: &[KnownPiece]) -> Result<(Vec<Letter>, Vec<Partial>), NoMemory>
    requires { All IsPiece (bytes_of known.now) }
    ensures { IfOk result (λ mail. IsGathered (bytes_of known.now) mail.0.items mail.1.items) }
{
    let pieces = read_all(alloc, known)?;
    let whole = whole_headings(alloc, pieces.as_slice())?;
    let letters = with_texts(alloc, pieces.as_slice(), whole.as_slice())?;
    let begun = partial_headings(alloc, pieces.as_slice())?;
    let partial = with_counts(alloc, pieces.as_slice(), begun.as_slice())?;
    Ok((letters, partial))
}
