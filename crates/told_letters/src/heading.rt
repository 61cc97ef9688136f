//! By what a letter's pieces are known to be its own.
ghost use Rattle.std.specs.Prelude.{◌≡◌, OnOk};
ghost use Rattle.letter_pieces.specs.Reading.{content};
ghost use Rattle.told_letters.specs.Listing.{IsAdded};

use express_words::NoMemory;
use letter_pieces::{LetterId, Piece};

/// By what a letter's pieces are known to be its own: its id, and how many parts it has.
#[derive(Clone, Copy, Debug, PartialEq, Eq)]
pub struct Heading {
    /// The letter's id.
    pub letter: LetterId,
    /// How many parts it has.
    pub parts: u8,
}

impl Heading {
    ghost use Rattle.told_letters.specs.Parts.{heading_of, is_part};

    // The heading of a piece.
    pub(crate) fn of(piece: &Piece) -> Heading
        ensures { result ≡ heading_of (content piece.now) }
    {
        Heading {
            letter: piece.letter,
            parts: piece.parts,
        }
    }

    // Whether a piece is that part of the letter.
    pub(crate) fn has_part(self, part: u8, piece: &Piece) -> bool
        ensures { result ≡ is_part self part (content piece.now) }
    {
        piece.letter == self.letter && piece.parts == self.parts && piece.part == part
    }
}

// Puts a heading behind others, unless it is one of them.
pub(crate) fn add(headings: &mut Vec<Heading>, heading: Heading) -> Result<(), NoMemory>
    ensures { OnOk result (IsAdded heading headings.old.items headings.new.items) }
{
    if headings.contains(&heading) {
        return Ok(());
    }
    headings.push(heading)?;
    Ok(())
}
