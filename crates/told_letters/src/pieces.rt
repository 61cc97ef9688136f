//! The known pieces, read.
ghost use Rattle.std.specs.Prelude.{◌≡◌, All, IfOk, Option};
ghost use Rattle.std.specs.List.{AllZip};
ghost use Rattle.std.specs.Option.{option_map};
ghost use Rattle.letter_pieces.specs.Pieces.{Spells};
ghost use Rattle.letter_pieces.specs.Reading.{content};
ghost use Rattle.known_pieces.specs.Known.{IsPiece};
ghost use Rattle.known_pieces.specs.Telling.{bytes_of};
ghost use Rattle.told_letters.specs.Parts.{contents, first_piece};

use crate::heading::Heading;
use express_words::NoMemory;
use letter_pieces::{Piece, read_piece};
use letter_reader::KnownPiece;
use std::alloc::Global;

// The pieces that are known.
pub(crate) fn read_all(alloc: Global, known: &[KnownPiece]) -> Result<Vec<Piece<'_>>, NoMemory>
    requires { All IsPiece (bytes_of known.now) }
    ensures { IfOk result (λ pieces. AllZip Spells (contents pieces.items) (bytes_of known.now)) }
{
    let mut pieces = Vec::new(alloc);
    for piece in known {
        match read_piece(piece.bytes()) {
            Some(piece) => pieces.push(piece)?,
            None => unreachable!(),
        }
    }
    Ok(pieces)
}

// The piece of a part that became known first.
pub(crate) fn first_piece<'a>(known: &[Piece<'a>], heading: Heading, part: u8) -> Option<Piece<'a>>
    ensures { option_map content result ≡ first_piece (contents known.now) heading part }
{
    for piece in known {
        if heading.has_part(part, piece) {
            return Some(*piece);
        }
    }
    None
}
