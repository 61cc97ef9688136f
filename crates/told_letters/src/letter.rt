//! A letter, put together of its parts.
ghost use Rattle.std.specs.Prelude.{◌≡◌, IfOk, All, map};
ghost use Rattle.letter_pieces.specs.Pieces.{joined};
ghost use Rattle.told_letters.specs.Parts.{contents, parts_in};

use crate::heading::Heading;
use crate::pieces::first_piece;
use express_words::NoMemory;
use letter_pieces::Piece;
use std::alloc::Global;
use std::marker::Model;

/// A letter, put together of its parts.
#[derive(Drop)]
pub struct Letter {
    /// Its id, and how many parts it has.
    pub heading: Heading,
    /// Its text.
    pub text: Vec<u8>,
}

impl Model for Letter {
    ghost use Rattle.told_letters.specs.Mail.{Letter as ToldLetter};

    ghost Value = { ToldLetter };

    ghost view = { λ l. record { heading = l.heading; text = l.text.items } };
}

// These letters, each with its text.
pub(crate) fn with_texts(
    alloc: Global,
    known: &[Piece],
    headings: &[Heading],
) -> Result<Vec<Letter>, NoMemory>
    ensures headings { IfOk result (λ letters. map (λ l. l.heading) letters.items ≡ headings.now) }
    ensures texts { IfOk result (λ letters.
        All (λ l. l.text ≡ joined (parts_in (contents known.now) l.heading)) letters.items) }
{
    let mut letters = Vec::new(alloc);
    for heading in headings {
        let text = text_of(alloc, known, *heading)?;
        letters.push(Letter {
            heading: *heading,
            text,
        })?;
    }
    Ok(letters)
}

// The texts of a letter's known parts, one behind the other.
fn text_of(alloc: Global, known: &[Piece], heading: Heading) -> Result<Vec<u8>, NoMemory>
    ensures { IfOk result (λ text. text.items ≡ joined (parts_in (contents known.now) heading)) }
{
    let mut text = Vec::new(alloc);
    for part in 0..heading.parts {
        if let Some(piece) = first_piece(known, heading, part) {
            text.extend_from_slice(piece.text)?;
        }
    }
    Ok(text)
}
