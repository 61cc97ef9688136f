//! Which letters are whole.
ghost use Rattle.std.specs.Prelude.{◌↔◌, IfOk, IsTrue};
ghost use Rattle.told_letters.specs.Parts.{contents, IsWhole, IsPartial};
ghost use Rattle.told_letters.specs.Listing.{AreListed};

use crate::heading::{Heading, add};
use crate::pieces::first_piece;
use express_words::NoMemory;
use letter_pieces::Piece;
use std::alloc::Global;

// Whether each part of a letter is known.
pub(crate) fn is_whole(known: &[Piece], heading: Heading) -> bool
    ensures { IsTrue result ↔ IsWhole (contents known.now) heading }
{
    for part in 0..heading.parts {
        if first_piece(known, heading, part).is_none() {
            return false;
        }
    }
    heading.parts > 0
}

// The letters that are whole, in the order in which they became so.
pub(crate) fn whole_headings(alloc: Global, known: &[Piece]) -> Result<Vec<Heading>, NoMemory>
    ensures { IfOk result (λ headings. AreListed IsWhole (contents known.now) headings.items) }
{
    let mut headings = Vec::new(alloc);
    for (i, piece) in known.iter().enumerate() {
        let heading = Heading::of(piece);
        if is_whole(&known[..=i], heading) {
            add(&mut headings, heading)?;
        }
    }
    Ok(headings)
}

// The letters of which parts are known, but not all, in the order in which the first became so.
pub(crate) fn partial_headings(alloc: Global, known: &[Piece]) -> Result<Vec<Heading>, NoMemory>
    ensures { IfOk result (λ headings.
        AreListed (IsPartial (contents known.now)) (contents known.now) headings.items) }
{
    let mut headings = Vec::new(alloc);
    for piece in known {
        let heading = Heading::of(piece);
        if !is_whole(known, heading) {
            add(&mut headings, heading)?;
        }
    }
    Ok(headings)
}
